// add_hints: a delivered list of hints joined to those of an index.
#![tactic(auto)]

pub mod choice;
pub mod joined;
mod packed;
pub mod sort;
mod spread;

ghost use Rattle.std.specs.Prelude.{◌≡◌, ◌*◌, ◌≤◌, length};
ghost use Rattle.rules.specs.Tests.{each};
ghost use Rattle.rules.specs.Sections.{hint_ok};
ghost use Rattle.rules.specs.Hints.{question13};
ghost use Rattle.tables.specs.Tables.{hints_in, hints_of};
ghost use Rattle.tables.specs.Index.{tables, made_out};
ghost use Rattle.add_hints.specs.AddHints.{add_hints_in};
ghost use Rattle.add_hints.specs.Steps.{with_count};

use crate::sort::merge_hints;
use index::refuses;
use rules::{AreaIndex, HINT, MAX_LIST, MAX_NEXT_ACCEPTABLE, Made};
use tables::read_given;

// Is the number of each of the first n hints below LIM?
fn numbers_ok(list: &[u8], n: usize) -> bool
    requires { n * 8 ≤ length list.now }
    ensures { result ≡ each hint_ok (hints_in n list.now) }
{
    for i in 0..n {
        let h = read_given(list, i);
        if MAX_NEXT_ACCEPTABLE <= h.number {
            return false;
        }
    }
    true
}

// 13: at most 65,536, each number < LIM?
fn question13(list: &[u8]) -> bool
    ensures { result ≡ question13 (hints_of list.now) }
{
    let n = list.len() / HINT;
    n <= MAX_LIST as usize && numbers_ok(list, n)
}

fn with_count(x: AreaIndex, n: u32) -> AreaIndex
    ensures { result ≡ with_count x n }
{
    AreaIndex { hints: n, ..x }
}

// The hints of the list, 8 bytes each, added to those of the index.
pub fn add_hints(
    x: AreaIndex,
    list: &[u8],
    checkpoints: &[u8],
    frames: &[u8],
    store: &[u8],
    parts: &[u8],
    malformed: &[u8],
    hints: &mut [u8],
    confirmed: &[u8],
) -> Made
    ensures { made_out result (tables checkpoints.now frames.now store.now parts.now
        malformed.now hints.new confirmed.now)
        ≡ add_hints_in x (tables checkpoints.now frames.now store.now
        parts.now malformed.now hints.old confirmed.now) list.now }
{
    let number = refuses(
        x,
        checkpoints,
        frames,
        store,
        parts,
        malformed,
        hints,
        confirmed,
    );
    if number != 0 {
        return Made::Refused(number);
    }
    if !question13(list) {
        return Made::Refused(13);
    }
    let count = merge_hints(x.area, x.most, x.hints, hints, list);
    Made::Index(with_count(x, count))
}
