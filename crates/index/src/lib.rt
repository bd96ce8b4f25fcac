// An index: its numbers by value, and its lists in seven lent tables. Questions 1 to 4, new, the fingerprint entry, and readers of its numbers.
#![tactic(auto)]

pub mod create;
pub mod room;

ghost use Rattle.std.specs.Prelude.{◌≡◌, true};
ghost use Rattle.rules.specs.Tests.{is_some};
ghost use Rattle.rules.specs.Values.{stated, is_checked};
ghost use Rattle.rules.specs.Questions.{area_ok};
ghost use Rattle.rules.specs.Refusals.{number_in, answer_in};
ghost use Rattle.tables.specs.Index.{tables, room_in, three, refusal, frontier_in, hint_room};
ghost use Rattle.tables.specs.Loans.{tables_in};
ghost use Rattle.index.specs.Steps.{Long, Roomy, held_question4, sections_in, scan_in, hinting_in, hint_counts};
ghost use Rattle.index.specs.Index.{scan_space};

use crate::room::{fits, hinting_room, question1, question2};
use rules::{AreaIndex, Fingerprint, MAX_HINTS, MAX_MALFORMED_WARNINGS, Refusal};
use sections::records::{check_checkpoints, check_confirmations, check_kept};
use sections::{area_boundaries, counts_ok, ends_ok, frontier_of, held_ok, is_complete_end};
use tables::kinds::check_kinds;
use tables::lent::Tables;

// ---- 3
// The tables that a recorder has too; count is the number of boundaries.
#[tactic(auto, using(std::proofs::lemmas::Bool::Decides::nat_tests), unfolding(crate::specs::Index::scan_space, rules::specs::Questions::scan_room, rules::specs::Tests::all))]
pub fn scan_room(
    count: u64,
    budget: u64,
    checkpoints: &[u8],
    frames: &[u8],
    store: &[u8],
    parts: &[u8],
) -> bool
    ensures { result ≡ scan_space count budget checkpoints.now frames.now store.now parts.now }
{
    fits(count, checkpoints, 24)
        && fits(count, frames, 8)
        && fits(count, parts, 24)
        && budget <= store.len() as u64
}

// The tables of an index.
#[tactic(auto, using(crate::proofs::Questions::room_is))]
pub fn has_room(x: AreaIndex, t: &Tables) -> bool
    requires { area_ok x.area ≡ true }
    ensures { result ≡ room_in x (tables_in t.now) }
{
    let b = area_boundaries(x.area, x.interval);
    scan_room(b, x.budget, t.checkpoints, t.frames, t.store, t.parts)
        && fits(MAX_MALFORMED_WARNINGS as u64, t.malformed, 4)
        && hinting_room(x.most, t.hints, t.confirmed)
}

// The tables of an index, one by one.
pub fn question3(
    x: AreaIndex,
    checkpoints: &[u8],
    frames: &[u8],
    store: &[u8],
    parts: &[u8],
    malformed: &[u8],
    hints: &[u8],
    confirmed: &[u8],
) -> bool
    requires { area_ok x.area ≡ true }
    ensures { result ≡ room_in x (tables checkpoints.now frames.now store.now parts.now malformed.now hints.now confirmed.now) }
{
    let t = Tables {
        checkpoints,
        frames,
        store,
        parts,
        malformed,
        hints,
        confirmed,
    };
    has_room(x, &t)
}

// ---- parts of 4

#[tactic(auto, unfolding(rules::specs::Tests::is_some, rules::specs::Values::stated))]
pub fn is_stated(f: Fingerprint) -> bool
    ensures { result ≡ is_some (stated f) }
{
    !matches!(f, Fingerprint::Unknown)
}

// Has the fingerprint the checked mark?
#[tactic(auto, unfolding(rules::specs::Values::is_checked))]
pub fn is_checked(f: Fingerprint) -> bool
    ensures { result ≡ is_checked f }
{
    matches!(f, Fingerprint::Checked(_))
}

// Checkpoints, frames, parts, end state and malformed LSNs, their counts apart.
fn sections_ok(x: AreaIndex, t: &Tables) -> bool
    requires { (Long x t.now.checkpoints.now t.now.frames.now t.now.parts.now t.now.malformed.now) × (area_ok x.area ≡ true) }
    ensures { result ≡ sections_in x (tables_in t.now) }
{
    let n = x.checkpoints as usize;
    check_checkpoints(t.checkpoints, n, x.interval, 0)
        && held_ok(
            x.area,
            x.interval,
            x.budget,
            0,
            t.checkpoints,
            n,
            t.frames,
            x.frames as usize,
            t.parts,
            x.parts as usize,
        )
        && ends_ok(
            x.area,
            x.interval,
            x.ending,
            t.checkpoints,
            x.checkpoints,
            t.malformed,
            x.malformed as usize,
        )
}

#[tactic(auto, using(crate::proofs::Questions::scan_is))]
fn scan_ok(x: AreaIndex, t: &Tables) -> bool
    requires { Roomy x (tables_in t.now) }
    ensures { result ≡ scan_in x (tables_in t.now) }
{
    let b = area_boundaries(x.area, x.interval);
    let whole = is_complete_end(x.ending);
    counts_ok(b, x.checkpoints, whole, x.frames, x.parts, x.malformed) && sections_ok(x, t)
}

#[tactic(auto, using(std::proofs::lemmas::Bool::Decides::nat_tests), unfolding(crate::specs::Steps::hint_counts, rules::specs::Tests::all))]
fn hint_counts(most: u32, s: u32, c: u32) -> bool
    ensures { result ≡ hint_counts most s c }
{
    most <= MAX_HINTS && s <= most && c <= most
}

// Hints and their kept marks, and confirmations only beside a fingerprint.
#[tactic(auto, using(std::proofs::lemmas::Bool::Decides::nat_tests, crate::proofs::Questions::hinting_is))]
fn hinting_ok(x: AreaIndex, hints: &[u8], confirmed: &[u8]) -> bool
    requires { hint_room x.most hints.now confirmed.now ≡ true }
    ensures { result ≡ hinting_in x hints.now confirmed.now }
{
    hint_counts(x.most, x.hints, x.confirmed)
        && check_kept(hints, x.hints as usize, x.area, x.most)
        && check_confirmations(confirmed, x.confirmed as usize, x.area)
        && (x.confirmed == 0 || is_stated(x.fingerprint))
}

// ---- 4
#[tactic(auto, using(crate::proofs::Questions::held_is))]
fn question4(x: AreaIndex, t: &Tables) -> bool
    requires { Roomy x (tables_in t.now) }
    ensures { result ≡ held_question4 x (tables_in t.now) }
{
    scan_ok(x, t) && hinting_ok(x, t.hints, t.confirmed) && check_kinds(t.parts, x.parts as usize)
}

// ---- 1 to 3, and 1 to 4
// Questions 1 to 3.
#[tactic(auto, unfolding(tables::specs::Index::three, tables::specs::Index::room_in, rules::specs::Questions::question1, rules::specs::Questions::question2, rules::specs::Tests::first_no, rules::specs::Refusals::number_in, rules::specs::Refusals::refusal_number))]
pub fn check_room(x: AreaIndex, t: &Tables) -> Result<(), Refusal>
    ensures { number_in result ≡ three x (tables_in t.now) }
{
    if !question1(x.area) {
        return Err(Refusal::Area);
    }
    if !question2(x.interval, x.budget) {
        return Err(Refusal::Numbers);
    }
    if !has_room(x, t) {
        return Err(Refusal::Room);
    }
    Ok(())
}

// Questions 1 to 4.
#[tactic(auto, using(crate::proofs::Questions::refusal_is), unfolding(rules::specs::Refusals::number_in, rules::specs::Refusals::refusal_number))]
pub fn check(x: AreaIndex, t: &Tables) -> Result<(), Refusal>
    ensures { number_in result ≡ refusal x (tables_in t.now) }
{
    check_room(x, t)?;
    if !question4(x, t) {
        return Err(Refusal::Content);
    }
    Ok(())
}

// The number of the first of questions 1 to 4 answered no, 0 for none.
#[tactic(auto, unfolding(rules::specs::Refusals::number_in))]
pub fn refuses(
    x: AreaIndex,
    checkpoints: &[u8],
    frames: &[u8],
    store: &[u8],
    parts: &[u8],
    malformed: &[u8],
    hints: &[u8],
    confirmed: &[u8],
) -> u32
    ensures { result ≡ refusal x (tables checkpoints.now frames.now store.now parts.now malformed.now hints.now confirmed.now) }
{
    let t = Tables {
        checkpoints,
        frames,
        store,
        parts,
        malformed,
        hints,
        confirmed,
    };
    match check(x, &t) {
        Ok(()) => 0,
        Err(e) => u32::from(e),
    }
}

// The number of the first of questions 1 to 3 answered no, 0 for none.
#[tactic(auto, unfolding(rules::specs::Refusals::number_in))]
pub fn first_three(
    x: AreaIndex,
    checkpoints: &[u8],
    frames: &[u8],
    store: &[u8],
    parts: &[u8],
    malformed: &[u8],
    hints: &[u8],
    confirmed: &[u8],
) -> u32
    ensures { result ≡ three x (tables checkpoints.now frames.now store.now parts.now malformed.now hints.now confirmed.now) }
{
    let t = Tables {
        checkpoints,
        frames,
        store,
        parts,
        malformed,
        hints,
        confirmed,
    };
    match check_room(x, &t) {
        Ok(()) => 0,
        Err(e) => u32::from(e),
    }
}

// ---- readers
#[tactic(auto, unfolding(tables::specs::Index::frontier_in, rules::specs::Tests::first_no, rules::specs::Tests::after, rules::specs::Refusals::answer_in, rules::specs::Refusals::refusal_number))]
pub fn frontier(x: AreaIndex) -> Result<u64, Refusal>
    ensures { answer_in result ≡ frontier_in x }
{
    if !question1(x.area) {
        return Err(Refusal::Area);
    }
    Ok(frontier_of(x.area, x.interval, x.checkpoints, x.ending))
}

pub fn is_complete(x: AreaIndex) -> bool
    ensures { result ≡ is_some x.ending }
{
    is_complete_end(x.ending)
}
