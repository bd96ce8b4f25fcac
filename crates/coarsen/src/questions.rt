// What is asked before a coarser list is made: 1 to 4 of the finer list, 47, 48, and 3 of the tables for the coarser one.
ghost use Rattle.std.specs.Prelude.{◌≡◌, true, ◌*◌, ◌≤◌, length, get_or};
ghost use Rattle.rules.specs.Values.{last_checkpoint};
ghost use Rattle.rules_coarsen.specs.Coarse.{every_nth};
ghost use Rattle.tables.specs.Tables.{checkpoints_in, lsns_in};
ghost use Rattle.tables.specs.Index.{tables};
ghost use Rattle.coarsen.specs.Coarsen.{coarse_refusal};
ghost use Rattle.coarsen.specs.Steps.{is_multiple, kept_of, Keeps, counted_in, last_below, Widens, fits_in, numbers_at};

use index::{question3, refuses};
use rules::{AreaIndex, Checkpoint, MAX_INTERVAL, MAX_MALFORMED_WARNINGS};
use rules_coarsen::last_place;
use sections::{counted, frontier_of};
use tables::{get_checkpoint, read_lsn};

// 47: is k 1..65,536, and a multiple of the old interval?
#[tactic(auto, unfolding(crate::specs::Steps::is_multiple, rules::specs::Tests::all))]
fn question47(k: u32, interval: u32) -> bool
    requires { 1 ≤ interval }
    ensures { result ≡ is_multiple k interval }
{
    1 <= k && k <= MAX_INTERVAL && k % interval == 0
}

// How many every r-th of n are.
pub fn kept(n: u32, r: u32) -> u32
    requires { 1 ≤ r }
    ensures { result ≡ kept_of n r }
{
    n.div_ceil(r)
}

// The last of every r-th of n checkpoints, m of them; zeros where there is none.
fn last_kept(t: &[u8], n: u32, m: u32, r: u32) -> Checkpoint
    requires { Keeps n m r t.now }
    ensures { result ≡ last_checkpoint (every_nth r (checkpoints_in n t.now)) }
{
    if m == 0 {
        return get_checkpoint(t, n as usize, 0);
    }
    get_checkpoint(t, n as usize, last_place(m, r))
}

// How many malformed LSNs the coarser list counts, with every r-th of the checkpoints, m of them.
pub fn count_of(x: AreaIndex, r: u32, m: u32, checkpoints: &[u8]) -> u64
    requires { Keeps x.checkpoints m r checkpoints.now }
    ensures { result ≡ counted_in x r checkpoints.now }
{
    counted(last_kept(checkpoints, x.checkpoints, m, r), x.ending)
}

// LSN number i of n, 0 where there is none.
fn get_lsn(t: &[u8], n: usize, i: usize) -> u32
    requires { n * 4 ≤ length t.now }
    ensures { result ≡ get_or (lsns_in n t.now) i 0 }
{
    if i < n { read_lsn(t, i) } else { 0 }
}

// 48: is no LSN counted, or does the last of those that are taken lie below the frontier?
fn last_below(c: u64, malformed: &[u8], n: usize, front: u64) -> bool
    requires { n * 4 ≤ length malformed.now }
    ensures { result ≡ last_below c (lsns_in n malformed.now) front }
{
    if c == 0 {
        return true;
    }
    let last = c.min(MAX_MALFORMED_WARNINGS as u64) - 1;
    (get_lsn(malformed, n, last as usize) as u64) < front
}

// 48, by the checkpoints and malformed LSNs of the finer list.
fn question48(x: AreaIndex, k: u32, checkpoints: &[u8], malformed: &[u8]) -> bool
    requires { Widens x k checkpoints.now malformed.now }
    ensures { result ≡ fits_in x k checkpoints.now malformed.now }
{
    let r = k / x.interval;
    let m = kept(x.checkpoints, r);
    let c = count_of(x, r, m, checkpoints);
    let front = frontier_of(x.area, k, m, x.ending);
    last_below(c, malformed, x.malformed as usize, front)
}

// The numbers of a list with another interval.
#[tactic(auto, unfolding(crate::specs::Steps::numbers_at))]
fn at_interval(x: AreaIndex, k: u32) -> AreaIndex
    ensures { result ≡ numbers_at x k x.checkpoints (record { frames = x.frames; parts = x.parts; used = 0 }) x.malformed }
{
    AreaIndex { interval: k, ..x }
}

// The number of the first question that refuses, 0 for none.
pub fn coarse_refuses(
    x: AreaIndex,
    k: u32,
    checkpoints: &[u8],
    frames: &[u8],
    store: &[u8],
    parts: &[u8],
    malformed: &[u8],
    hints: &[u8],
    confirmed: &[u8],
    coarse_checkpoints: &[u8],
    coarse_frames: &[u8],
    coarse_store: &[u8],
    coarse_parts: &[u8],
    coarse_malformed: &[u8],
    coarse_hints: &[u8],
    coarse_confirmed: &[u8],
) -> u32
    ensures { result ≡ coarse_refusal x (tables checkpoints.now frames.now store.now parts.now malformed.now hints.now confirmed.now) k (tables coarse_checkpoints.now coarse_frames.now coarse_store.now coarse_parts.now coarse_malformed.now coarse_hints.now coarse_confirmed.now) }
{
    let number = refuses(
        x,
        checkpoints,
        frames,
        store,
        parts,
        malformed,
        hints,
        confirmed,
    );
    if number != 0 {
        return number;
    }
    if !question47(k, x.interval) {
        return 47;
    }
    if !question48(x, k, checkpoints, malformed) {
        return 48;
    }
    if !question3(
        at_interval(x, k),
        coarse_checkpoints,
        coarse_frames,
        coarse_store,
        coarse_parts,
        coarse_malformed,
        coarse_hints,
        coarse_confirmed,
    ) {
        return 3;
    }
    0
}
