// The check of the held parts of a list, by its checkpoints and its frames.
ghost use Rattle.std.specs.Prelude.{◌≡◌, List, [], ℕ, ◌+◌, ◌-◌, ◌*◌, ◌≤◌, length, None};
ghost use Rattle.rules.specs.Values.{no_held};
ghost use Rattle.rules.specs.Tests.{walk};
ghost use Rattle.rules.specs.Sections.{follows, belongs, part_ok, parts_ok, reached};
ghost use Rattle.tables.specs.Tables.{checkpoints_in, parts_in, frame_of, frames_in, before, part_next, part_near, part_here};

use rules::{Area, Checkpoint, FrameKind, Held, MAX_NEXT_ACCEPTABLE};
use tables::{FrameHeader, get_checkpoint, get_header, read_held};

// q is the part before p, unless p is the first.
#[tactic(auto, using(std::proofs::lemmas::Bool::Decides::nat_tests, tables::proofs::Tests::follows_is), unfolding(rules::specs::Values::same_kind))]
fn follows_ok(first: bool, q: Held, p: Held) -> bool
    ensures { result ≡ follows (before first q) p }
{
    if first {
        return p.frame == 0;
    }
    let grown = p.frame == q.frame && q.len <= p.len && q.number == p.number && q.kind == p.kind;
    q.at < p.at && (grown || p.frame as u64 == q.frame as u64 + 1)
}

// What is left of a after b; 0 where b is more.
pub fn less(a: u64, b: u64) -> u64
    ensures { result ≡ a - b }
{
    a.saturating_sub(b)
}

#[tactic(auto, using(std::proofs::lemmas::Bool::Decides::nat_tests, tables::proofs::Frames::stretch_length), unfolding(rules::specs::Sections::belongs, rules::specs::Tests::all))]
fn belongs_ok(area: Area, interval: u32, p: Held, c: Checkpoint, h: FrameHeader) -> bool
    requires { area.start ≤ 4294967295 }
    ensures { result ≡ belongs area interval p c (frame_of h []) }
{
    let lsn = area.start + p.at as u64 * interval as u64;
    let from = lsn.saturating_sub(c.back as u64);
    0 < c.back && from == h.start as u64 && p.len <= h.len
}

// How many frames the parts reach.
pub fn reached(parts: &[u8], h: usize) -> u64
    requires { h * 24 ≤ length parts.now }
    ensures { result ≡ reached (parts_in h parts.now) }
{
    if h == 0 {
        return 0;
    }
    read_held(parts, h - 1).frame as u64 + 1
}

// Is p of the f frames, and may it come after q, unless it is the first?
pub fn near_ok(f: usize, begins: bool, q: Held, p: Held) -> bool
    ensures { result ≡ part_near f (before begins q) p }
{
    (p.frame as usize) < f && follows_ok(begins, q, p)
}

// Does p belong to a checkpoint and to the frame of h?
pub fn here_ok(
    area: Area,
    interval: u32,
    first: usize,
    checkpoints: &[u8],
    n: usize,
    p: Held,
    h: FrameHeader,
) -> bool
    requires { (n * 24 ≤ length checkpoints.now) × (first + n ≤ 4294967296) × (area.start ≤ 4294967295) }
    ensures { result ≡ part_here area interval first n (checkpoints_in n checkpoints.now) p h }
{
    let at = p.at as usize;
    let c = get_checkpoint(checkpoints, n, at.saturating_sub(first));
    first <= at
        && at < first + n
        && belongs_ok(area, interval, p, c, h)
        && p.number < MAX_NEXT_ACCEPTABLE
}

// q is the part before p, unless p is the first.
#[tactic(auto, using(crate::proofs::Parts::part_is))]
fn part_ok(
    area: Area,
    interval: u32,
    first: usize,
    checkpoints: &[u8],
    n: usize,
    headers: &[u8],
    f: usize,
    begins: bool,
    q: Held,
    p: Held,
) -> bool
    requires { (n * 24 ≤ length checkpoints.now) × (f * 8 ≤ length headers.now) × (first + n ≤ 4294967296) × (area.start ≤ 4294967295) }
    ensures { result ≡ part_ok area interval first (checkpoints_in n checkpoints.now) (frames_in f headers.now []) (before begins q) p }
{
    let h = get_header(headers, f, p.frame as usize);
    near_ok(f, begins, q, p) && here_ok(area, interval, first, checkpoints, n, p, h)
}

pub fn no_part() -> Held
    ensures { result ≡ no_held }
{
    Held {
        at: 0,
        frame: 0,
        len: 0,
        number: 0,
        kind: FrameKind::Dst,
        remaining: 0,
    }
}

fn walk_parts(
    parts: &[u8],
    h: usize,
    area: Area,
    interval: u32,
    first: usize,
    checkpoints: &[u8],
    n: usize,
    headers: &[u8],
    f: usize,
) -> bool
    requires { (h * 24 ≤ length parts.now) × (n * 24 ≤ length checkpoints.now) × (f * 8 ≤ length headers.now) × (first + n ≤ 4294967296) × (area.start ≤ 4294967295) }
    ensures { result ≡ walk (part_ok area interval first (checkpoints_in n checkpoints.now) (frames_in f headers.now [])) part_next None (parts_in h parts.now) }
{
    let mut q = no_part();
    for j in 0..h {
        let p = read_held(parts, j);
        if !part_ok(
            area,
            interval,
            first,
            checkpoints,
            n,
            headers,
            f,
            j == 0,
            q,
            p,
        ) {
            return false;
        }
        q = p;
    }
    true
}

// The parts of a list by its checkpoints and its frames' headers; the bytes of the frames do not matter.
pub fn check_parts(
    parts: &[u8],
    h: usize,
    area: Area,
    interval: u32,
    first: usize,
    checkpoints: &[u8],
    n: usize,
    headers: &[u8],
    f: usize,
) -> bool
    requires { (h * 24 ≤ length parts.now) × (n * 24 ≤ length checkpoints.now) × (f * 8 ≤ length headers.now) × (first + n ≤ 4294967296) × (area.start ≤ 4294967295) }
    ensures { (store : List ℕ) → result ≡ parts_ok area interval first (checkpoints_in n checkpoints.now) (frames_in f headers.now store) (parts_in h parts.now) }
{
    walk_parts(parts, h, area, interval, first, checkpoints, n, headers, f)
        && reached(parts, h) == f as u64
}
