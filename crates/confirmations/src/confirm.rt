// Confirmations: two lists in the order of the LSN joined in one pass, of which the last M are kept.
ghost use Rattle.std.specs.Prelude.{◌≡◌, ◌+◌, ◌-◌, ◌*◌, ◌≤◌, ◌<◌, min, length};
ghost use Rattle.std.proofs.lemmas.List.Edits.{sets};
ghost use Rattle.rules.specs.File.{decode_confirmation, encode_confirmation};
ghost use Rattle.rules.specs.Hints.{held_confirmation, keep_all};
ghost use Rattle.laws.specs.Passes.{between, Begins, Left, Takes, Fits};
ghost use Rattle.tables.specs.Tables.{confirmations_in};
ghost use Rattle.confirmations.specs.Steps.{confirmations_merged, last_lsn, Rising, Splits, Keeps};

use add_hints::joined::move_up;
use field::{write_u32, write_u64};
use rules::{CONFIRMED, Confirmation};
use tables::read_confirmation;
use thin::spent;

// Two confirmations at one LSN, x being held: the lower threshold of one digest, else the new one.
#[tactic(auto, unfolding(rules::specs::Hints::held_confirmation))]
fn met(x: Confirmation, y: Confirmation) -> Confirmation
    ensures { result ≡ held_confirmation x y }
{
    if x.digest == y.digest {
        Confirmation {
            threshold: x.threshold.min(y.threshold),
            ..x
        }
    } else {
        y
    }
}

// Confirmation number j of a table.
pub fn write_confirmation(t: &mut [u8], j: usize, c: Confirmation)
    requires { j * 16 + 16 ≤ length t.old }
    ensures { t.new ≡ sets t.old (j * 16) (encode_confirmation c) }
{
    let at = j * CONFIRMED;
    write_u32(t, at, c.lsn);
    write_u32(t, at + 4, c.threshold);
    write_u64(t, at + 8, c.digest);
}

// What a merge takes next, and where it goes on in both lists.
#[derive(Clone, Copy)]
struct Taken {
    confirmation: Confirmation,
    own: usize,
    other: usize,
}

// Of the confirmations of t from p to e and those of o from q to n the first; two at one LSN meet.
fn take_first(t: &[u8], p: usize, e: usize, o: &[u8], q: usize, n: usize) -> Taken
    requires { Left 16 t.now o.now e n p q }
    ensures { Takes 16 decode_confirmation decode_confirmation confirmations_merged t.now o.now e n p q
        result.confirmation result.own result.other }
{
    if n <= q {
        return Taken {
            confirmation: read_confirmation(t, p),
            own: p + 1,
            other: q,
        };
    }
    let y = read_confirmation(o, q);
    if e <= p {
        return Taken {
            confirmation: y,
            own: p,
            other: q + 1,
        };
    }
    let x = read_confirmation(t, p);
    if x.lsn < y.lsn {
        return Taken {
            confirmation: x,
            own: p + 1,
            other: q,
        };
    }
    if y.lsn < x.lsn {
        return Taken {
            confirmation: y,
            own: p,
            other: q + 1,
        };
    }
    Taken {
        confirmation: met(x, y),
        own: p + 1,
        other: q + 1,
    }
}

// The confirmations of t from a to e and those of o from b to n, merged to the start of t.
fn merge_down(t: &mut [u8], a: usize, e: usize, o: &[u8], b: usize, n: usize) -> usize
    requires { Fits 16 decode_confirmation decode_confirmation confirmations_merged t.old o.now a e b n }
    ensures { Begins 16 encode_confirmation (confirmations_merged (between 16 decode_confirmation a e t.old)
        (between 16 decode_confirmation b n o.now)) result t.old t.new }
{
    let mut p = a;
    let mut q = b;
    let mut k: usize = 0;
    // Two cursors, each in its own list: the turn says which goes on, and no range does.
    while p + q < e + n {
        let first = take_first(t, p, e, o, q, n);
        write_confirmation(t, k, first.confirmation);
        p = first.own;
        q = first.other;
        k += 1;
    }
    k
}

// The LSN of the last of the first i, plus 1; 0 where i is 0.
fn last_lsn(t: &[u8], i: usize) -> u64
    requires { i * 16 ≤ length t.now }
    ensures { (result ≡ last_lsn t.now i) × (result ≤ 4294967296) }
{
    if i == 0 {
        return 0;
    }
    read_confirmation(t, i - 1).lsn as u64 + 1
}

// Where the last ones of two lists begin in each, and how many they are merged.
#[derive(Clone, Copy)]
struct Split {
    own: usize,
    other: usize,
    count: usize,
}

// The last M of the c confirmations of t and the d of o, counted from behind.
fn count_last(t: &[u8], c: usize, o: &[u8], d: usize, most: usize) -> Split
    requires { Rising most c d t.now o.now }
    ensures { Splits most c d t.now o.now result.own result.other result.count }
{
    let mut own = c;
    let mut other = d;
    for count in 0..most {
        if own + other == 0 {
            return Split { own, other, count };
        }
        let x = last_lsn(t, own);
        let y = last_lsn(o, other);
        own = spent(own, y <= x);
        other = spent(other, x <= y);
    }
    Split {
        own,
        other,
        count: most,
    }
}

// The last M of the c confirmations of t and the d of o, merged to the start of t.
fn keep_last(t: &mut [u8], c: usize, o: &[u8], d: usize, most: usize) -> usize
    requires { Rising most c d t.old o.now }
    ensures { Keeps most c d o.now result t.old t.new }
{
    let s = count_last(t, c, o, d, most);
    let kept = c - s.own;
    move_up(t, s.own * CONFIRMED, kept * 2, (s.count - c) * CONFIRMED);
    merge_down(t, s.count - kept, s.count, o, s.other, d)
}

// The d confirmations of another list kept one by one beside the c own ones. Answers how many there are then.
pub fn merge_confirmations(
    checked: bool,
    most: u32,
    c: u32,
    confirmed: &mut [u8],
    other: &[u8],
    d: u32,
) -> u32
    requires { Rising most c d confirmed.old other.now }
    ensures { Begins 16 encode_confirmation (keep_all checked most (confirmations_in c confirmed.old)
        (confirmations_in d other.now)) result confirmed.old confirmed.new }
{
    if !checked || most == 0 {
        return c;
    }
    keep_last(confirmed, c as usize, other, d as usize, most as usize) as u32
}
