// keep_hint: the kept mark of a hint of an index.
#![tactic(auto)]

ghost use Rattle.std.specs.Prelude.{◌≡◌, cond, ◌+◌, ◌*◌, ◌≤◌, length};
ghost use Rattle.std.proofs.lemmas.List.Edits.{sets};
ghost use Rattle.field.specs.Records.{record_at};
ghost use Rattle.rules.specs.Sections.{is_kept, kept_count};
ghost use Rattle.rules.specs.Hints.{place_of, kept_hint};
ghost use Rattle.tables.specs.Tables.{encode_kept, decode_kept, kept_in};
ghost use Rattle.tables.specs.Index.{tables, made_out};
ghost use Rattle.keep_hint.specs.Steps.{may_keep};
ghost use Rattle.keep_hint.specs.KeepHint.{keep_hint_in};

use index::refuses;
use rules::{AreaIndex, Hint, Made};
use tables::{read_hint, write_hint};

// The place of the first of n hints with that LSN; n where there is none.
fn place_of(hints: &[u8], n: usize, lsn: u64) -> usize
    requires { n * 8 ≤ length hints.now }
    ensures { result ≡ place_of lsn (kept_in n hints.now) }
{
    for j in 0..n {
        if read_hint(hints, j).lsn as u64 == lsn {
            return j;
        }
    }
    n
}

#[tactic(auto, unfolding(rules::specs::Sections::is_kept))]
fn is_kept(h: Hint) -> bool
    ensures { result ≡ is_kept h }
{
    h.mark == 1
}

// How many of the first n hints are kept.
fn kept_count(hints: &[u8], n: usize) -> usize
    requires { n * 8 ≤ length hints.now }
    ensures { result ≡ kept_count (kept_in n hints.now) }
{
    let mut kept = 0;
    for j in 0..n {
        if is_kept(read_hint(hints, j)) {
            kept += 1;
        }
    }
    kept
}

// 53 of a place among the first n hints.
#[tactic(auto, using(crate::proofs::Places::hint_at, crate::proofs::Places::hint_count), unfolding(crate::specs::Steps::may_keep))]
fn question53(hints: &[u8], n: usize, place: usize, most: u32) -> bool
    requires { n * 8 ≤ length hints.now }
    ensures { result ≡ may_keep most (kept_in n hints.now) place }
{
    place < n && (is_kept(read_hint(hints, place)) || kept_count(hints, n) < (most / 4) as usize)
}

// The mark of hint number j set.
fn set_mark(hints: &mut [u8], j: usize)
    requires { j * 8 + 8 ≤ length hints.old }
    ensures { hints.new ≡ sets hints.old (j * 8)
        (encode_kept (kept_hint (record_at 8 decode_kept hints.old j))) }
{
    let kept = Hint {
        mark: 1,
        ..read_hint(hints, j)
    };
    write_hint(hints, j, kept);
}

// The hint with that LSN marked, so that thinning passes over it.
pub fn keep_hint(
    x: AreaIndex,
    lsn: u64,
    checkpoints: &[u8],
    frames: &[u8],
    store: &[u8],
    parts: &[u8],
    malformed: &[u8],
    hints: &mut [u8],
    confirmed: &[u8],
) -> Made
    ensures { made_out result (tables checkpoints.now frames.now store.now parts.now
        malformed.now hints.new confirmed.now)
        ≡ keep_hint_in x (tables checkpoints.now frames.now store.now
        parts.now malformed.now hints.old confirmed.now) lsn }
{
    let number = refuses(
        x,
        checkpoints,
        frames,
        store,
        parts,
        malformed,
        hints,
        confirmed,
    );
    if number != 0 {
        return Made::Refused(number);
    }
    let n = x.hints as usize;
    let place = place_of(hints, n, lsn);
    if !question53(hints, n, place, x.most) {
        return Made::Refused(53);
    }
    set_mark(hints, place);
    Made::Index(x)
}
