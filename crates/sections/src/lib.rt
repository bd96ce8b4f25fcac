// Rules that join the sections of a list: counts, held parts, frontier, end state and malformed LSNs; and questions asked in order.
#![tactic(auto)]

pub mod part_records;
pub mod records;

ghost use Rattle.std.specs.Prelude.{◌≡◌, true, ◌&&◌, List, ℕ, ◌+◌, ◌-◌, ◌*◌, ◌≤◌, length};
ghost use Rattle.rules.specs.Tests.{is_some};
ghost use Rattle.rules.specs.Values.{boundaries, lsn_of, frontier_of, counted, last_checkpoint};
ghost use Rattle.rules.specs.Sections.{counts_ok, end_ok, ending_ok, malformed_ok};
ghost use Rattle.rules.specs.Questions.{area_ok, held_ok};
ghost use Rattle.rules.specs.declared.Checkpoint.{Checkpoint};
ghost use Rattle.tables.specs.Tables.{checkpoints_in, frames_in, parts_in, lsns_in};
ghost use Rattle.sections.specs.Sections.{asked, stretch};

use crate::part_records::check_parts;
use crate::records::{check_frames, check_lsns};
use rules::{Area, Checkpoint, EndState, MAX_MALFORMED_WARNINGS, MAX_NEXT_ACCEPTABLE};
use tables::get_checkpoint;

// ---- questions
// The refusal number after one more question, whose refusal is number.
#[tactic(auto, using(std::proofs::lemmas::Bool::Decides::nat_tests), unfolding(crate::specs::Sections::asked))]
pub fn ask(before: u32, ok: bool, number: u32) -> u32
    ensures { result ≡ asked before ok number }
{
    if before != 0 {
        before
    } else if ok {
        0
    } else {
        number
    }
}

// ---- counts
// How many boundaries an area from start to end has.
fn boundaries(start: u64, end: u64, interval: u32) -> u64
    requires { (start ≤ end) × (end ≤ 4294967295) × (1 ≤ interval) }
    ensures { (result ≡ boundaries (stretch start end) interval) × (result ≤ end - start) }
{
    let k = interval as u64;
    (end - start + k - 1) / k
}

// How many boundaries an area has; none where the interval is 0.
pub fn area_boundaries(area: Area, interval: u32) -> u64
    requires { area_ok area ≡ true }
    ensures { result ≡ boundaries area interval }
{
    if interval == 0 {
        return 0;
    }
    boundaries(area.start, area.end, interval)
}

// Counts of boundaries, checkpoints, frames, parts and malformed LSNs; whole is a complete list.
#[tactic(auto, using(std::proofs::lemmas::Bool::Decides::nat_tests), unfolding(rules::specs::Sections::counts_ok, rules::specs::Tests::all))]
pub fn counts_ok(b: u64, n: u32, whole: bool, f: u32, h: u32, m: u32) -> bool
    ensures { result ≡ counts_ok b n whole f h m }
{
    let count = n as u64;
    count <= b && (!whole || count == b) && h <= n && f <= h && m <= MAX_MALFORMED_WARNINGS
}

// ---- held parts
// Frames and parts of n checkpoints, of which first is the first number.
pub fn held_ok(
    area: Area,
    interval: u32,
    budget: u64,
    first: usize,
    checkpoints: &[u8],
    n: usize,
    frames: &[u8],
    f: usize,
    parts: &[u8],
    h: usize,
) -> bool
    requires { (h * 24 ≤ length parts.now) × (n * 24 ≤ length checkpoints.now) × (f * 8 ≤ length frames.now) × (first + n ≤ 4294967296) × (area.start ≤ 4294967295) }
    ensures { (store : List ℕ) → result ≡ held_ok area interval budget first (checkpoints_in n checkpoints.now) (frames_in f frames.now store) (parts_in h parts.now) }
{
    check_frames(frames, f, area, budget).ok
        && check_parts(parts, h, area, interval, first, checkpoints, n, frames, f)
}

// ---- the end
#[tactic(auto, unfolding(rules::specs::Tests::is_some))]
pub fn is_complete_end(ending: Option<EndState>) -> bool
    ensures { result ≡ is_some ending }
{
    matches!(ending, Some(_))
}

// The LSN of checkpoint number j.
pub fn lsn_at(area: Area, interval: u32, j: u32) -> u64
    requires { area.start ≤ 4294967295 }
    ensures { result ≡ lsn_of area interval j }
{
    area.start + j as u64 * interval as u64
}

#[tactic(auto, using(rules::proofs::Frontier::frontier_open), unfolding(rules::specs::Values::frontier_of))]
pub fn frontier_of(area: Area, interval: u32, n: u32, ending: Option<EndState>) -> u64
    requires { area.start ≤ 4294967295 }
    ensures { result ≡ frontier_of area interval n ending }
{
    match ending {
        None => lsn_at(area, interval, n.saturating_sub(1)),
        Some(_) => area.end,
    }
}

#[tactic(auto, using(field::proofs::Records::records_length), unfolding(rules::specs::Tests::last_or))]
pub fn last_checkpoint(t: &[u8], n: usize) -> Checkpoint
    requires { n * 24 ≤ length t.now }
    ensures { result ≡ last_checkpoint (checkpoints_in n t.now) }
{
    get_checkpoint(t, n, n.saturating_sub(1))
}

#[tactic(auto, unfolding(rules::specs::Values::counted))]
pub fn counted(c: Checkpoint, ending: Option<EndState>) -> u64
    ensures { (cs : List Checkpoint) → c ≡ last_checkpoint cs → result ≡ counted cs ending }
{
    match ending {
        None => c.malformed,
        Some(e) => e.malformed,
    }
}

#[tactic(auto, using(std::proofs::lemmas::Bool::Decides::nat_tests), unfolding(rules::specs::Sections::end_ok, rules::specs::Tests::all))]
fn end_ok(area: Area, c: Checkpoint, e: EndState) -> bool
    requires { area.start ≤ area.end }
    ensures { result ≡ end_ok area c e }
{
    c.threshold <= e.threshold
        && e.threshold <= MAX_NEXT_ACCEPTABLE
        && c.malformed <= e.malformed
        && e.malformed <= area.end - area.start
}

#[tactic(auto, unfolding(rules::specs::Sections::ending_ok))]
pub fn ending_ok(area: Area, c: Checkpoint, ending: Option<EndState>) -> bool
    requires { area.start ≤ area.end }
    ensures { (cs : List Checkpoint) → c ≡ last_checkpoint cs → result ≡ ending_ok area cs ending }
{
    match ending {
        None => true,
        Some(e) => end_ok(area, c, e),
    }
}

#[tactic(auto, using(std::proofs::lemmas::Bool::Decides::nat_tests, field::proofs::Records::records_length), unfolding(rules::specs::Sections::malformed_ok, rules::specs::Tests::all))]
fn malformed_ok(area: Area, front: u64, counted: u64, malformed: &[u8], m: usize) -> bool
    requires { m * 4 ≤ length malformed.now }
    ensures { result ≡ malformed_ok area front counted (lsns_in m malformed.now) }
{
    m as u64 == counted.min(MAX_MALFORMED_WARNINGS as u64) && check_lsns(malformed, m, area, front)
}

// End state and malformed LSNs, after n checkpoints.
pub fn ends_ok(
    area: Area,
    interval: u32,
    ending: Option<EndState>,
    checkpoints: &[u8],
    n: u32,
    malformed: &[u8],
    m: usize,
) -> bool
    requires { (area.start ≤ area.end) × (area.end ≤ 4294967295) × (n * 24 ≤ length checkpoints.now) × (m * 4 ≤ length malformed.now) }
    ensures { result ≡ (ending_ok area (checkpoints_in n checkpoints.now) ending && malformed_ok area (frontier_of area interval n ending) (counted (checkpoints_in n checkpoints.now) ending) (lsns_in m malformed.now)) }
{
    let last = last_checkpoint(checkpoints, n as usize);
    let front = frontier_of(area, interval, n, ending);
    ending_ok(area, last, ending) && malformed_ok(area, front, counted(last, ending), malformed, m)
}
