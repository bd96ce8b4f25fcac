// What another list's hints and confirmations would change, decided over lent tables that are only read.
ghost use Rattle.std.specs.Prelude.{◌≡◌, ◌&&◌, cond, ◌+◌, ◌*◌, ◌≤◌, ◌<◌, leb, ltb, length, drop};
ghost use Rattle.rules.specs.Hints.{held_confirmation};
ghost use Rattle.tables.specs.Tables.{confirmations_in, kept_in, unkept_in};
ghost use Rattle.adds.specs.Adds.{same_confirmation};
ghost use Rattle.adds.specs.Marks.{marked, lower, unweighed, weigh_one, weighed, changed_by};
ghost use Rattle.adds.specs.Confirmed.{absorbed, unmoved_by, arriving};
ghost use Rattle.adds.specs.Answers.{LsnAt, Turned, HintsAnswered, ConfirmedAnswered};

use add_hints::choice::read_arriving;
use merge::keys::skip;
use rules::{Confirmation, Hint, MAX_U32};
use tables::{read_confirmation, read_hint};
use thin::gaps::gap_of;

// The gap at a place of a list of hints, and the place.
#[derive(Clone, Copy)]
pub struct Pair {
    pub gap: u64,
    pub place: u64,
}

// Of the hints passed so far: how many, the last one's number, the largest pair of a new one, the smallest of a
// held one, and whether a held number is replaced.
#[derive(Clone, Copy)]
pub struct Weighed {
    pub place: u64,
    pub before: u32,
    pub new: Pair,
    pub held: Pair,
    pub replaced: bool,
}

// The next hint of two lists: whether it is new, which brings no mark, whether the other list has another number at its
// LSN, the hint, and how many of each list are passed then.
#[derive(Clone, Copy)]
pub struct Turn {
    pub new: bool,
    pub replaced: bool,
    pub hint: Hint,
    pub own: usize,
    pub other: usize,
}

// ---- hints
// The LSN of hint i, above every LSN where there is none.
fn lsn_at(t: &[u8], n: usize, i: usize) -> u64
    requires { n * 8 ≤ length t.now }
    ensures { LsnAt (kept_in n t.now) n i result }
{
    if i < n {
        read_hint(t, i).lsn as u64
    } else {
        MAX_U32 + 1
    }
}

// The next of the hints from i and j on.
fn next_hint(own: &[u8], n: usize, other: &[u8], m: usize, i: usize, j: usize) -> Turn
    requires { (n * 8 ≤ length own.now) × (m * 8 ≤ length other.now) × (i ≤ n) × (j ≤ m) × (i + j < n + m) }
    ensures { Turned (kept_in n own.now) (unkept_in m other.now) n m i j result }
{
    let a = lsn_at(own, n, i);
    let b = lsn_at(other, m, j);
    if b < a {
        let hint = read_arriving(other, j);
        return Turn {
            new: true,
            replaced: false,
            hint,
            own: i,
            other: j + 1,
        };
    }
    let x = read_hint(own, i);
    if a < b {
        return Turn {
            new: false,
            replaced: false,
            hint: x,
            own: i + 1,
            other: j,
        };
    }
    let y = read_arriving(other, j);
    Turn {
        new: false,
        replaced: x.number != y.number,
        hint: x,
        own: i + 1,
        other: j + 1,
    }
}

#[tactic(auto, unfolding(crate::specs::Marks::weigh_one))]
fn weigh_one(s: Weighed, new: bool, replaced: bool, h: Hint) -> Weighed
    requires { s.place < 18446744073709551615 }
    ensures { result ≡ weigh_one s new replaced h }
{
    let p = Pair {
        gap: gap_of(s.before, h),
        place: s.place,
    };
    Weighed {
        place: s.place + 1,
        before: h.number,
        new: if new && s.new.gap <= p.gap { p } else { s.new },
        held: if !new && p.gap < s.held.gap {
            p
        } else {
            s.held
        },
        replaced: s.replaced || replaced,
    }
}

fn nothing_weighed() -> Weighed
    ensures { result ≡ unweighed }
{
    Weighed {
        place: 0,
        before: MAX_U32 as u32,
        new: Pair { gap: 0, place: 0 },
        held: Pair {
            gap: MAX_U32 + 1,
            place: 0,
        },
        replaced: false,
    }
}

// One pass over both lists.
fn weigh(own: &[u8], n: usize, other: &[u8], m: usize) -> Weighed
    requires { (n * 8 ≤ length own.now) × (m * 8 ≤ length other.now) }
    ensures { result ≡ weighed unweighed (marked (kept_in n own.now) (unkept_in m other.now)) }
{
    let mut s = nothing_weighed();
    let mut i = 0;
    let mut j = 0;
    // Two cursors, each in its own list: the turn says which goes on, and no range does.
    while i + j < n + m {
        let t = next_hint(own, n, other, m, i, j);
        s = weigh_one(s, t.new, t.replaced, t.hint);
        i = t.own;
        j = t.other;
    }
    s
}

#[tactic(auto, unfolding(crate::specs::Marks::lower))]
fn lower_pair(p: Pair, q: Pair) -> bool
    ensures { result ≡ lower p q }
{
    p.gap < q.gap || p.gap == q.gap && p.place < q.place
}

#[tactic(auto, unfolding(crate::specs::Marks::changed_by))]
fn changed_by(w: Weighed, n: u32, most: u32) -> bool
    ensures { result ≡ changed_by w n most }
{
    if w.replaced {
        return true;
    }
    if w.place == n as u64 {
        return false;
    }
    if w.place <= most as u64 {
        return true;
    }
    if n != most - most / 4 {
        return true;
    }
    !lower_pair(w.new, w.held)
}

// Would the m hints of another list change the n held ones, at the limit most?
pub fn changes_hints(most: u32, own: &[u8], n: u32, other: &[u8], m: u32) -> bool
    requires { (n * 8 ≤ length own.now) × (m * 8 ≤ length other.now) × (n ≤ most) }
    ensures { HintsAnswered most (kept_in n own.now) (kept_in m other.now) result }
{
    if most == 0 {
        return false;
    }
    changed_by(weigh(own, n as usize, other, m as usize), n, most)
}

// ---- confirmations
// Does c stay as it is where d arrives at its LSN?
#[tactic(auto, using(crate::proofs::compare::Passing::stays_is))]
fn stays(c: Confirmation, d: Confirmation) -> bool
    ensures { result ≡ same_confirmation c (held_confirmation c d) }
{
    c.digest == d.digest && c.threshold <= d.threshold
}

// Is d of a later LSN than c, or of the same one and c stays?
#[tactic(auto, unfolding(crate::specs::Confirmed::unmoved_by))]
fn unmoved(c: Confirmation, d: Confirmation) -> bool
    ensures { result ≡ unmoved_by c d }
{
    c.lsn < d.lsn || c.lsn == d.lsn && stays(c, d)
}

// Is each of the other's confirmations from number first on held, which stays as it is?
fn absorbs(own: &[u8], n: usize, other: &[u8], m: usize, first: usize) -> bool
    requires { (n * 16 ≤ length own.now) × (m * 16 ≤ length other.now) × (first ≤ m) }
    ensures { result ≡ absorbed (confirmations_in n own.now)
        (drop first (confirmations_in m other.now)) }
{
    let mut i = 0;
    let mut j = first;
    // Two cursors: the one in the own list goes on by a turn of its own.
    while j < m {
        if n <= i {
            return false;
        }
        let c = read_confirmation(own, i);
        let d = read_confirmation(other, j);
        if !unmoved(c, d) {
            return false;
        }
        i += 1;
        if d.lsn <= c.lsn {
            j += 1;
        }
    }
    true
}

// The first of the other's confirmations that can change the held ones.
fn first_arriving(most: u32, own: &[u8], n: u32, other: &[u8], m: u32) -> usize
    requires { (n * 16 ≤ length own.now) × (m * 16 ≤ length other.now) × (1 ≤ most) }
    ensures { (result ≤ m)
        × (drop result (confirmations_in m other.now) ≡ arriving most
        (confirmations_in n own.now) (confirmations_in m other.now)) }
{
    if n != most {
        return 0;
    }
    skip(other, 16, m as usize, 0, read_confirmation(own, 0).lsn)
}

// Would the m confirmations of another list change the n held ones, at the limit most?
pub fn changes_confirmed(checked: bool, most: u32, own: &[u8], n: u32, other: &[u8], m: u32) -> bool
    requires { (n * 16 ≤ length own.now) × (m * 16 ≤ length other.now) × (n ≤ most) }
    ensures { ConfirmedAnswered checked most (confirmations_in n own.now)
        (confirmations_in m other.now) result }
{
    if !checked || most == 0 {
        return false;
    }
    let first = first_arriving(most, own, n, other, m);
    !absorbs(own, n as usize, other, m as usize, first)
}
