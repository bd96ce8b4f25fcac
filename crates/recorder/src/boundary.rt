// The LSN of a boundary by its number, for an index and for a recorder, from their numbers alone.
ghost use Rattle.std.specs.Prelude.{◌≡◌};
ghost use Rattle.recorder.specs.Recorder.{boundary_at, checkpoint_lsn, due_at};
ghost use Rattle.rules.specs.Refusals.{answer_in};

use crate::modes::is_running;
use index::room::{question1, question2};
use rules::{Area, AreaIndex, Recorder, Refusal};
use sections::{area_boundaries, lsn_at};

// Boundary number j, where it is wanted.
#[tactic(auto, unfolding(crate::specs::Recorder::boundary_at, rules::specs::Refusals::answer_in, rules::specs::Refusals::refusal_number))]
fn boundary_at(
    area: Area,
    interval: u32,
    budget: u64,
    j: u64,
    wanted: bool,
) -> Result<Option<u64>, Refusal>
    ensures { answer_in result ≡ boundary_at area interval budget j wanted }
{
    if !question1(area) {
        return Err(Refusal::Area);
    }
    if !question2(interval, budget) {
        return Err(Refusal::Numbers);
    }
    if wanted && j < area_boundaries(area, interval) {
        Ok(Some(lsn_at(area, interval, j as u32)))
    } else {
        Ok(None)
    }
}

// The LSN of an index's checkpoint number j, held or not.
pub fn checkpoint_lsn(x: AreaIndex, j: u32) -> Result<Option<u64>, Refusal>
    ensures { answer_in result ≡ checkpoint_lsn x j }
{
    boundary_at(x.area, x.interval, x.budget, j as u64, true)
}

// The due LSN of a recorder; nothing where every boundary is passed, or it is finished or stopped.
pub fn due_lsn(r: Recorder) -> Result<Option<u64>, Refusal>
    ensures { answer_in result ≡ due_at r }
{
    let j = r.first as u64 + r.checkpoints as u64;
    boundary_at(r.area, r.interval, r.budget, j, is_running(r.mode))
}
