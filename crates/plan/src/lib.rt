// plan: where to start for a frame, and the bytes of a held part.
#![tactic(auto)]

mod search;

ghost use Rattle.std.specs.Prelude.{◌≡◌, List, ℕ, ◌*◌, ◌≤◌, length};
ghost use Rattle.rules.specs.Plan.{offset_of, assembly_of, bytes_at};
ghost use Rattle.rules.specs.Refusals.{answer_in};
ghost use Rattle.tables.specs.Tables.{frames_in, parts_in};
ghost use Rattle.plan.specs.Plan.{plan_in, lies_in};
ghost use Rattle.plan.specs.Steps.{PlanReads, stored_of, resume_in, within_of, plan_of};
ghost use Rattle.tables.specs.Loans.{tables_in};

use crate::search::not_above;
use index::check;
use rules::{AreaIndex, Held, HeldPart, Plan, Refusal, Resume};
use sections::lsn_at;
use tables::lent::Tables;
use tables::{get_checkpoint, get_header, read_held};

// Where the bytes of frame number g begin in the store.
fn offset_of(frames: &[u8], f: usize, g: u32) -> u64
    requires { f * 8 ≤ length frames.now }
    ensures { (store : List ℕ) → result ≡ offset_of (frames_in f frames.now store) g }
{
    let mut sum = 0;
    for i in 0..g {
        sum += get_header(frames, f, i as usize).len as u64;
    }
    sum
}

fn stored(frames: &[u8], f: usize, p: Held) -> Option<HeldPart>
    requires { f * 8 ≤ length frames.now }
    ensures { (store : List ℕ) → result ≡ stored_of (frames_in f frames.now store) p }
{
    Some(HeldPart {
        kind: p.kind,
        number: p.number,
        remaining: p.remaining,
        offset: offset_of(frames, f, p.frame),
        len: p.len,
    })
}

// The part of checkpoint number j.
fn assembly_of(frames: &[u8], f: usize, parts: &[u8], h: usize, j: u32) -> Option<HeldPart>
    requires { (f * 8 ≤ length frames.now) × (h * 24 ≤ length parts.now) }
    ensures { (store : List ℕ) → result ≡ assembly_of (frames_in f frames.now store) (parts_in h parts.now) j }
{
    for i in 0..h {
        let p = read_held(parts, i);
        if p.at == j {
            return stored(frames, f, p);
        }
    }
    None
}

// A jump to checkpoint number j.
fn resume(x: AreaIndex, j: u32, t: &Tables) -> Plan
    requires { PlanReads x (tables_in t.now) }
    ensures { result ≡ resume_in x (tables_in t.now) j }
{
    Plan::At(Resume {
        number: j,
        lsn: lsn_at(x.area, x.interval, j),
        checkpoint: get_checkpoint(t.checkpoints, x.checkpoints as usize, j as usize),
        assembly: assembly_of(t.frames, x.frames as usize, t.parts, x.parts as usize, j),
    })
}

// The end state apart.
fn plan_within(x: AreaIndex, first: u32, t: &Tables) -> Plan
    requires { PlanReads x (tables_in t.now) }
    ensures { result ≡ within_of x (tables_in t.now) first }
{
    match not_above(t.checkpoints, x.checkpoints as usize, first) {
        0 => Plan::Start,
        count => resume(x, (count - 1) as u32, t),
    }
}

// The questions apart.
fn plan_in(x: AreaIndex, first: u32, t: &Tables) -> Plan
    requires { PlanReads x (tables_in t.now) }
    ensures { result ≡ plan_of x (tables_in t.now) first }
{
    match x.ending {
        Some(e) if e.threshold <= first => Plan::End(e),
        _ => plan_within(x, first, t),
    }
}

// Where to start for frame first.
#[tactic(auto, using(crate::proofs::Steps::plan_no, rules::proofs::Refusals::number_ne0), unfolding(rules::specs::Refusals::answer_in, rules::specs::Refusals::number_in))]
pub fn plan(x: AreaIndex, first: u32, t: &Tables) -> Result<Plan, Refusal>
    ensures { answer_in result ≡ plan_in x (tables_in t.now) first }
{
    check(x, t)?;
    Ok(plan_in(x, first, t))
}

// ---- the second call
// Do the bytes of a part lie in the store?
#[tactic(auto, unfolding(crate::specs::Plan::lies_in))]
pub fn part_lies(store: &[u8], offset: u64, len: u64) -> bool
    ensures { result ≡ lies_in store.now offset len }
{
    let all = store.len() as u64;
    len <= all && offset <= all - len
}

// The bytes of a part of the store; none where it does not lie in the store, which part_lies tells.
#[tactic(auto, unfolding(crate::specs::Plan::lies_in, rules::specs::Plan::bytes_at))]
pub fn part_bytes(store: &[u8], offset: u64, len: u32) -> &[u8]
    ensures { result.now ≡ bytes_at store.now offset len }
{
    if !part_lies(store, offset, len as u64) {
        return &store[..0];
    }
    let at = offset as usize;
    &store[at..at + len as usize]
}
