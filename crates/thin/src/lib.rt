// Thinning of hints without a second table: the cutoff gap by bisection, then one pass that keeps what stays.
#![tactic(auto)]

pub mod gaps;

ghost use Rattle.std.specs.Prelude.{◌≡◌, ◌+◌, ◌<◌, ◌≤◌, ◌-◌, ◌*◌, min, length, cond};
ghost use Rattle.std.proofs.lemmas.List.Edits.{sets};
ghost use Rattle.rules.specs.Hints.{thin};
ghost use Rattle.tables.specs.Tables.{encode_kept, kept_in};
ghost use Rattle.thin.specs.Thin.{one, Starts};
ghost use Rattle.thin.specs.Steps.{lower, remaining, stayed, first_place, next_place, Cuts};

use crate::gaps::{gap_of, is_within, stays_at};
use field::copy_first;
use rules::Hint;
use tables::{read_hint, write_hint};

// How many gaps of the n hints are at most g.
fn count_to(t: &[u8], n: usize, g: u32) -> usize
    requires { n * 8 ≤ length t.now }
    ensures { result ≡ lower (kept_in n t.now) (g + 1) }
{
    let mut found = 0;
    let mut before = 4294967295;
    for i in 0..n {
        let h = read_hint(t, i);
        found += usize::from(is_within(before, h, g));
        before = h.number;
    }
    found
}

// How many gaps of the n hints are below g.
fn count_below(t: &[u8], n: usize, g: u64) -> usize
    requires { (n * 8 ≤ length t.now) × (1 ≤ g) × (g ≤ 4294967296) }
    ensures { result ≡ lower (kept_in n t.now) g }
{
    count_to(t, n, (g - 1) as u32)
}

// A cutoff: all gaps below `gap` go, and the first `rest` at it.
#[derive(Clone, Copy)]
struct Cut {
    gap: u64,
    rest: usize,
}

// The next gap to count at: `first`, then ever farther from it until it lies between two counted ones, then the middle.
fn probe(low: u64, high: u64, first: u64) -> u64
    requires { (low + 1 < high) × (high ≤ 4294967297) }
    ensures { (low < result) × (result < high) }
{
    let mid = (low + high) / 2;
    if high == 4294967297 {
        if low < first {
            if first < high {
                return first;
            }
            return mid;
        }
        let near = low + (low - first) * 3 + 1;
        if near < high {
            return near;
        }
        return mid;
    }
    if low != 0 {
        return mid;
    }
    if first < high {
        return mid;
    }
    let far = first - high;
    if far < high / 4 {
        return high - far * 3 - 1;
    }
    mid
}

// The cutoff that drops `excess` of the n hints, looked for from the gap `first` outward, then by bisection.
fn cutoff_near(t: &[u8], n: usize, excess: usize, first: u64) -> Cut
    requires { (n * 8 ≤ length t.now) × (excess ≤ n) }
    ensures { Cuts (kept_in n t.now) excess result }
{
    let mut low = 0;
    let mut high = 4294967297;
    let mut less = 0;
    // No range counts these turns: each narrows the gaps between low and high.
    while low + 1 < high {
        let mid = probe(low, high, first);
        let m = count_below(t, n, mid);
        if m == excess {
            return Cut { gap: mid, rest: 0 };
        }
        if m < excess {
            low = mid;
            less = m;
        } else {
            high = mid;
        }
    }
    Cut {
        gap: low,
        rest: excess - less,
    }
}

// The cutoff that drops `excess` of the n hints, looked for from that of their first sixteenth.
fn cutoff(t: &[u8], n: usize, excess: usize) -> Cut
    requires { (n * 8 ≤ length t.now) × (excess ≤ n) }
    ensures { Cuts (kept_in n t.now) excess result }
{
    let few = cutoff_near(t, n / 16, excess / 16, 64);
    cutoff_near(t, n, excess, few.gap)
}

// One less where `hit`, and 0 of 0.
pub fn spent(left: usize, hit: bool) -> usize
    ensures { result ≡ left - one hit }
{
    if hit { left.saturating_sub(1) } else { left }
}

// Where a pass is: how many more at the cutoff go, the number before, and how many hints are kept.
#[derive(Clone, Copy)]
struct PassState {
    left: usize,
    before: u32,
    kept: usize,
}

fn first_place(cut: Cut) -> PassState
    ensures { result ≡ first_place cut }
{
    PassState {
        left: cut.rest,
        before: 4294967295,
        kept: 0,
    }
}

// The next hint of a pass, kept or dropped.
fn turn(t: &mut [u8], h: Hint, cut: Cut, p: PassState) -> PassState
    requires { (p.kept + one (stayed cut p h)) * 8 ≤ length t.old }
    ensures { (result ≡ next_place cut p h) × (t.new ≡ cond (stayed cut p h) (sets t.old (p.kept * 8) (encode_kept h)) t.old) }
{
    let g = gap_of(p.before, h);
    let next = PassState {
        left: spent(p.left, g == cut.gap),
        before: h.number,
        ..p
    };
    if !stays_at(g, cut.gap, p.left) {
        return next;
    }
    write_hint(t, p.kept, h);
    PassState {
        kept: p.kept + 1,
        ..next
    }
}

// The hints of src that stay, at the start of dst.
fn keep_into(dst: &mut [u8], src: &[u8], n: usize, cut: Cut) -> usize
    requires { (n * 8 ≤ length src.now) × (length (remaining (kept_in n src.now) cut) * 8 ≤ length dst.old) }
    ensures { Starts (remaining (kept_in n src.now) cut) result dst.old dst.new }
{
    let mut p = first_place(cut);
    for i in 0..n {
        p = turn(dst, read_hint(src, i), cut, p);
    }
    p.kept
}

// The hints of t that stay, closed up.
fn close_up(t: &mut [u8], n: usize, cut: Cut) -> usize
    requires { n * 8 ≤ length t.old }
    ensures { Starts (remaining (kept_in n t.old) cut) result t.old t.new }
{
    let mut p = first_place(cut);
    for i in 0..n {
        let h = read_hint(t, i);
        p = turn(t, h, cut, p);
    }
    p.kept
}

// The n hints of src thinned to `most`, at the start of dst. Answers how many are left.
pub fn thin_into(dst: &mut [u8], src: &[u8], n: usize, most: usize) -> usize
    requires { (n * 8 ≤ length src.now) × (min n most * 8 ≤ length dst.old) }
    ensures { Starts (thin most (kept_in n src.now)) result dst.old dst.new }
{
    if n <= most {
        copy_first(dst, src, n * 8);
        return n;
    }
    keep_into(dst, src, n, cutoff(src, n, n - most))
}

// The first n hints of t thinned to `most` in place. Past those left the table is as it was.
pub fn thin_hints(t: &mut [u8], n: usize, most: usize) -> usize
    requires { n * 8 ≤ length t.old }
    ensures { Starts (thin most (kept_in n t.old)) result t.old t.new }
{
    if n <= most {
        return n;
    }
    close_up(t, n, cutoff(t, n, n - most))
}
