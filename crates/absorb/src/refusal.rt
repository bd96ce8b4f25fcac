// What an absorb asks of an index and a recorder in their tables: 1 to 4 of both, and 8 to 12.
ghost use Rattle.std.specs.Prelude.{◌≡◌, ◌≤◌};
ghost use Rattle.rules.specs.Record.{is_stopped};
ghost use Rattle.rules.specs.Refusals.{number_in};
ghost use Rattle.tables.specs.Loans.{recorder_tables_in, tables_in};
ghost use Rattle.absorb.specs.Steps.{absorb_refusal, ten_in, later_number, Readable};

use crate::questions::{question9, question11, question12};
use index::room::lower;
use merge::questions::same_image;
use rules::{AreaIndex, Mode, Recorder, Refusal};
use sections::frontier_of;
use tables::lent::{RecorderTables, Tables};

#[tactic(auto, unfolding(rules::specs::Record::is_stopped))]
pub fn is_stopped(mode: Mode) -> bool
    ensures { result ≡ is_stopped mode }
{
    matches!(mode, Mode::Stopped)
}

// ---- 8 to 12
// 10: recorder joins the index?
#[tactic(auto, unfolding(crate::specs::Steps::ten_in))]
fn question10(x: AreaIndex, r: Recorder) -> bool
    requires { x.area.start ≤ 4294967295 }
    ensures { result ≡ ten_in x r }
{
    r.from <= frontier_of(x.area, x.interval, x.checkpoints, x.ending) && r.first <= x.checkpoints
}

// Questions 8 to 12.
#[tactic(auto, unfolding(crate::specs::Steps::later_number, rules::specs::Tests::first_no, rules::specs::Refusals::number_in, rules::specs::Refusals::refusal_number))]
fn check_later(
    x: AreaIndex,
    r: Recorder,
    image: Option<u64>,
    given: &[u8],
    checkpoints: &[u8],
    malformed: &[u8],
    theirs: &[u8],
) -> Result<(), Refusal>
    requires { Readable x checkpoints.now malformed.now r theirs.now }
    ensures { number_in result ≡ later_number x checkpoints.now malformed.now r theirs.now image
        given.now }
{
    if !same_image(x.image, image) {
        return Err(Refusal::AbsorbImage);
    }
    if !question9(x, r) {
        return Err(Refusal::AbsorbArea);
    }
    if !question10(x, r) {
        return Err(Refusal::AbsorbJoins);
    }
    if !question11(x, r, checkpoints, theirs) {
        return Err(Refusal::AbsorbAgrees);
    }
    if !question12(x, r, given, checkpoints, malformed, theirs) {
        return Err(Refusal::AbsorbResult);
    }
    Ok(())
}

// ---- all questions of an absorb
// Do the questions allow an absorb of r into x? A stopped recorder is no refusal after 4.
#[tactic(auto, using(crate::proofs::refusal::Refusal::first_refuses, rules::proofs::Refusals::number_ne0), unfolding(rules::specs::Refusals::number_in))]
pub fn check_absorb(
    x: AreaIndex,
    r: Recorder,
    image: Option<u64>,
    given: &[u8],
    t: &Tables,
    u: &RecorderTables,
) -> Result<(), Refusal>
    ensures { number_in result ≡ absorb_refusal x (tables_in t.now) image given.now r (recorder_tables_in u.now) }
{
    let own = index::check(x, t);
    let theirs = recorder::check(r, u);
    lower(own, theirs)?;
    if is_stopped(r.mode) {
        return Ok(());
    }
    check_later(
        x,
        r,
        image,
        given,
        t.checkpoints,
        t.malformed,
        u.checkpoints,
    )
}
