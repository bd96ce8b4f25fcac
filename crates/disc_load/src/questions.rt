// Question 1 of both areas of a disc, and question 54: a contents table that is read, and lists to be saved.
ghost use Rattle.std.specs.Prelude.{◌≡◌, ◌&&◌, [], ◌∷◌, ℕ, ◌+◌, eqb, leb};
ghost use Rattle.rules_disc.specs.Disc.{entry, laid, entries_ok, slot_area};

use index::room::question1;
use rules::{Area, MAX_U32};
use rules_disc::Entry;

// ---- the areas
// 1 of both areas; another slot gives 1.
#[tactic(auto, unfolding(rules_disc::specs::Disc::slot_area))]
pub fn areas_ok(area0: Area, area1: Area) -> bool
    ensures { result ≡ (slot_area 0 area0 && slot_area 1 area1) }
{
    question1(area0) && area0.key.slot == 0 && question1(area1) && area1.key.slot == 1
}

// ---- reading
// Is the slot 0 or 1 and not below the given one, and does the body begin there?
fn entry_ok(e: Entry, slot: u64, at: u64) -> bool
    ensures { result ≡ (leb slot e.slot && (leb e.slot 1 && eqb e.offset at)) }
{
    slot <= e.slot as u64 && e.slot <= 1 && e.offset as u64 == at
}

// One entry, in a file of so many bytes.
#[tactic(auto, unfolding(rules::specs::Tests::all, rules_disc::specs::Disc::laid))]
pub fn one_ok(e: Entry, size: u64) -> bool
    ensures { result ≡ laid size 0 16 (e ∷ []) }
{
    entry_ok(e, 0, 16) && 16 + e.len as u64 == size
}

// Two entries.
#[tactic(auto, unfolding(rules::specs::Tests::all, rules_disc::specs::Disc::laid))]
pub fn two_ok(e: Entry, f: Entry, size: u64) -> bool
    ensures { result ≡ laid size 0 28 (e ∷ f ∷ []) }
{
    let at = 28 + e.len as u64;
    entry_ok(e, 0, 28) && entry_ok(f, e.slot as u64 + 1, at) && at + f.len as u64 == size
}

// ---- writing
// 54 of one list whose file has m bytes, whatever its slot.
#[tactic(auto, unfolding(rules::specs::Tests::all, rules_disc::specs::Disc::entries_ok))]
pub fn one_fits(m: u64) -> bool
    ensures { (slot : ℕ) → result ≡ entries_ok 0 (entry slot 16 m ∷ []) }
{
    m <= MAX_U32
}

// 54 of two lists whose files have m and n bytes, the first before the second.
#[tactic(auto, unfolding(rules::specs::Tests::all, rules_disc::specs::Disc::entries_ok))]
pub fn two_fit(slot: u8, m: u64, next: u8, n: u64) -> bool
    ensures { result ≡ entries_ok 0 (entry slot 28 m ∷ entry next (28 + m) n ∷ []) }
{
    slot < next && m <= MAX_U32 && 28 + m <= MAX_U32 && n <= MAX_U32
}
