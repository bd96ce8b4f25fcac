// The mode of a recorder: is it running, that of an index's recorder, and question 5 of finish.
ghost use Rattle.std.specs.Prelude.{◌≡◌, true, cond, ◌&&◌, eqb, ◌+◌};
ghost use Rattle.rules.specs.Tests.{is_some};
ghost use Rattle.rules.specs.Values.{boundaries};
ghost use Rattle.rules.specs.Questions.{area_ok};
ghost use Rattle.rules.specs.declared.Mode.TheVariants.{Running, Stopped};
ghost use Rattle.rules.specs.Record.{is_running};

use rules::{EndState, Mode, Recorder};
use sections::area_boundaries;

#[tactic(auto, unfolding(rules::specs::Record::is_running))]
pub fn is_running(mode: Mode) -> bool
    ensures { result ≡ is_running mode }
{
    matches!(mode, Mode::Running)
}

// The mode of the recorder of an index with this end state.
#[tactic(auto, unfolding(rules::specs::Tests::is_some))]
pub fn mode_of(ending: Option<EndState>) -> Mode
    ensures { result ≡ cond (is_some ending) Stopped Running }
{
    match ending {
        None => Mode::Running,
        Some(_) => Mode::Stopped,
    }
}

// 5 of finish: is every boundary passed, and the recorder not finished or stopped?
pub fn at_end(r: Recorder) -> bool
    requires { area_ok r.area ≡ true }
    ensures { result ≡ (is_running r.mode && eqb (r.first + r.checkpoints) (boundaries r.area r.interval)) }
{
    let passed = r.first as u64 + r.checkpoints as u64;
    is_running(r.mode) && passed == area_boundaries(r.area, r.interval)
}
