// A recorder: its numbers by value, and its lists in four lent tables. Questions 1 to 4, the recorder of an index, record and finish.
#![tactic(auto)]

pub mod boundary;
mod modes;
pub mod record;

ghost use Rattle.std.specs.Prelude.{◌≡◌};
ghost use Rattle.rules.specs.Tests.{is_some};
ghost use Rattle.rules.specs.Questions.{end_of};
ghost use Rattle.rules.specs.Refusals.{answer_in, number_in};
ghost use Rattle.tables.specs.Loans.{recorder_tables_in, tables_in};
ghost use Rattle.tables.specs.Recorder.{recorder_refusal};
ghost use Rattle.recorder.specs.Recorder.{started_in, finished_in, mode_of};
ghost use Rattle.recorder.specs.Steps.{recorder_held, stretch_counts, stretch_in, Spaced, Long, empty_of};

use crate::modes::{at_end, mode_of};
use index::room::{question1, question2};
use index::scan_room;
use rules::{AreaIndex, EndState, Mode, Recorder, Refusal};
use sections::part_records::check_parts;
use sections::records::{check_checkpoints, check_frames};
use sections::{area_boundaries, ending_ok, last_checkpoint};
use tables::kinds::check_kinds;
use tables::lent::{RecorderTables, Tables};

// ---- the end state
// The end state that a recorder has.
#[tactic(auto, unfolding(rules::specs::Questions::end_of))]
pub fn end_of(mode: Mode) -> Option<EndState>
    ensures { result ≡ end_of mode }
{
    match mode {
        Mode::Finished(e) => Some(e),
        Mode::Running | Mode::Stopped => None,
    }
}

#[tactic(auto, unfolding(rules::specs::Tests::is_some, rules::specs::Questions::end_of))]
fn is_finished(mode: Mode) -> bool
    ensures { result ≡ is_some (end_of mode) }
{
    matches!(mode, Mode::Finished(_))
}

// ---- 4
// The counts, of b boundaries.
#[tactic(auto, unfolding(crate::specs::Steps::stretch_counts, rules::specs::Tests::all))]
fn counts_fit(b: u64, first: u32, n: u32, whole: bool, f: u32, h: u32) -> bool
    ensures { result ≡ stretch_counts b first n whole f h }
{
    let passed = first as u64 + n as u64;
    passed <= b && (!whole || passed == b) && h <= n && f <= h
}

// Checkpoints, frames, parts and end state, their counts apart.
fn stretch_ok(r: Recorder, t: &RecorderTables) -> bool
    requires { Long r t.now.checkpoints.now t.now.frames.now t.now.parts.now }
    ensures { result ≡ stretch_in r (recorder_tables_in t.now) }
{
    let first = r.first as usize;
    let n = r.checkpoints as usize;
    let f = r.frames as usize;
    let h = r.parts as usize;
    let steps = check_checkpoints(t.checkpoints, n, r.interval, first);
    let filling = check_frames(t.frames, f, r.area, r.budget);
    let held = check_parts(
        t.parts,
        h,
        r.area,
        r.interval,
        first,
        t.checkpoints,
        n,
        t.frames,
        f,
    );
    let ends = ending_ok(r.area, last_checkpoint(t.checkpoints, n), end_of(r.mode));
    steps && filling.ok && held && ends
}

// 4, with the kind bytes of the parts; b is the number of boundaries.
fn held_ok(b: u64, r: Recorder, t: &RecorderTables) -> bool
    requires { Spaced b r t.now.checkpoints.now t.now.frames.now t.now.parts.now }
    ensures { result ≡ recorder_held r (recorder_tables_in t.now) }
{
    let whole = is_finished(r.mode);
    counts_fit(b, r.first, r.checkpoints, whole, r.frames, r.parts)
        && stretch_ok(r, t)
        && check_kinds(t.parts, r.parts as usize)
}

// ---- 1 to 4
// Questions 1 to 4.
pub fn check(r: Recorder, t: &RecorderTables) -> Result<(), Refusal>
    ensures { number_in result ≡ recorder_refusal r (recorder_tables_in t.now) }
{
    if !question1(r.area) {
        return Err(Refusal::Area);
    }
    if !question2(r.interval, r.budget) {
        return Err(Refusal::Numbers);
    }
    let b = area_boundaries(r.area, r.interval);
    if !scan_room(b, r.budget, t.checkpoints, t.frames, t.store, t.parts) {
        return Err(Refusal::Room);
    }
    if !held_ok(b, r, t) {
        return Err(Refusal::Content);
    }
    Ok(())
}

// ---- the recorder of an index
#[tactic(auto, unfolding(crate::specs::Steps::empty_of))]
fn empty(x: AreaIndex, from: u64) -> Recorder
    ensures { result ≡ empty_of x from }
{
    Recorder {
        area: x.area,
        interval: x.interval,
        budget: x.budget,
        first: x.checkpoints,
        from,
        checkpoints: 0,
        frames: 0,
        parts: 0,
        mode: mode_of(x.ending),
    }
}

// A complete index gives a stopped recorder.
#[tactic(auto, using(crate::proofs::Calls::started_no, rules::proofs::Refusals::number_ne0), unfolding(rules::specs::Refusals::answer_in, rules::specs::Refusals::number_in))]
pub fn recorder(x: AreaIndex, from: u64, t: &Tables) -> Result<Recorder, Refusal>
    ensures { answer_in result ≡ started_in x (tables_in t.now) from }
{
    index::check(x, t)?;
    Ok(empty(x, from))
}

// ---- finish
#[tactic(auto, unfolding(crate::specs::Recorder::mode_of))]
pub fn with_mode(r: Recorder, mode: Mode) -> Recorder
    ensures { result ≡ mode_of r mode }
{
    Recorder { mode, ..r }
}

#[tactic(auto, using(crate::proofs::Calls::finished_no, rules::proofs::Refusals::number_ne0), unfolding(rules::specs::Refusals::answer_in, rules::specs::Refusals::number_in))]
pub fn finish(r: Recorder, e: EndState, t: &RecorderTables) -> Result<Recorder, Refusal>
    ensures { answer_in result ≡ finished_in r (recorder_tables_in t.now) e }
{
    check(r, t)?;
    if !at_end(r) {
        return Err(Refusal::RecordDue);
    }
    let last = last_checkpoint(t.checkpoints, r.checkpoints as usize);
    if !ending_ok(r.area, last, Some(e)) {
        return Err(Refusal::RecordFalls);
    }
    Ok(with_mode(r, Mode::Finished(e)))
}
