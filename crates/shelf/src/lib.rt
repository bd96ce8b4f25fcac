// A shelf of saved lists: entering a list and jumping in it, over a lent table of records.
#![tactic(auto)]

pub mod table;

ghost use Rattle.std.specs.Prelude.{◌≡◌, [], ◌∷◌, ◌+◌, ◌-◌, ◌<◌, ◌≤◌, leb, get_or, drop, set, replicate};
ghost use Rattle.rules.specs.Questions.{area_ok};
ghost use Rattle.rules.specs.Tests.{ask, first_no};
ghost use Rattle.rules.specs.Values.{same_area, max64};
ghost use Rattle.rules_shelf.specs.Shelf.{no_record, area_of, record_of, sum, area_place, no_two, drop_at, oldest_of, roomy, make_room, without, entered, restamped, shelf_ok, questions, entering, jumping};
ghost use Rattle.shelf.specs.Steps.{Sound, Stands, list_of, Changes};
ghost use Rattle.shelf.specs.Shelf.{answer, some_of, clamp};

use rules::MAX_U32;
use rules_shelf::{MAX_COUNT, MAX_SHELF, Shelf, ShelfRecord};
use sections::ask;

// At most 64 records by value: the first n of all.
#[derive(Clone, Copy)]
pub struct Kept {
    pub all: [ShelfRecord; 64],
    pub n: usize,
}

// What a call answers to C: a refusal number or 0, 1 where the area is absent, and the shelf's
// numbers afterwards. 24 bytes.
#[repr(C)]
#[derive(Clone, Copy)]
pub struct ShelfAnswer {
    pub number: u32,
    pub absent: u32,
    pub present: u64,
    pub count: u64,
}

// The records that a call writes over the start of the table, and its answer.
#[derive(Clone, Copy)]
pub struct Change {
    pub all: [ShelfRecord; 64],
    pub n: usize,
    pub answer: ShelfAnswer,
}

// ---- one record
fn no_record() -> ShelfRecord
    ensures { result ≡ no_record }
{
    ShelfRecord {
        slot: 0,
        channels: 0,
        key_start: 0,
        key_end: 0,
        sectors: 0,
        start: 0,
        end: 0,
        len: 0,
        stamp: 0,
    }
}

// Are the areas of two records the same?
#[tactic(auto, unfolding(rules::specs::Tests::all, rules::specs::Values::same_key, rules::specs::Values::same_area))]
fn same_area(r: ShelfRecord, g: ShelfRecord) -> bool
    ensures { result ≡ same_area (area_of r) (area_of g) }
{
    r.slot == g.slot
        && r.channels == g.channels
        && r.key_start == g.key_start
        && r.key_end == g.key_end
        && r.sectors == g.sectors
        && r.start == g.start
        && r.end == g.end
}

// Question 1 of a record's area.
#[tactic(auto, unfolding(rules::specs::Tests::all, rules::specs::Questions::area_ok))]
fn area_ok(g: ShelfRecord) -> bool
    ensures { result ≡ area_ok (area_of g) }
{
    g.slot <= 1 && g.start <= g.end && g.end <= MAX_U32
}

// The record with another stamp.
fn stamped(g: ShelfRecord, stamp: u64) -> ShelfRecord
    ensures { result ≡ record_of (area_of g) g.len stamp }
{
    ShelfRecord { stamp, ..g }
}

// ---- records by value
pub fn empty() -> Kept
    ensures { (result.all ≡ replicate 64 no_record) × (result.n ≡ 0) }
{
    Kept {
        all: [no_record(); 64],
        n: 0,
    }
}

// One record more, behind the others.
pub fn pushed(a: Kept, r: ShelfRecord) -> Kept
    requires { a.n < 64 }
    ensures { (result.all ≡ set a.all a.n r) × (result.n ≡ a.n + 1) }
{
    let mut b = a;
    b.all[a.n] = r;
    b.n += 1;
    b
}

// Record number i.
pub fn nth(a: Kept, i: usize) -> ShelfRecord
    requires { i < 64 }
    ensures { result ≡ get_or a.all i no_record }
{
    a.all[i]
}

// The place of the first record of an area from a place on, n where there is none.
fn place_from(a: Kept, from: usize, g: ShelfRecord) -> usize
    requires { (Sound a) × (from ≤ a.n) }
    ensures { (result ≡ from + area_place (area_of g) (drop from (list_of a))) × (result ≤ a.n) }
{
    for i in from..a.n {
        if same_area(a.all[i], g) {
            return i;
        }
    }
    a.n
}

// The place of the record of an area, n where there is none.
pub fn place(a: Kept, g: ShelfRecord) -> usize
    requires { Sound a }
    ensures { (result ≡ area_place (area_of g) (list_of a)) × (result ≤ a.n) }
{
    place_from(a, 0, g)
}

// Is no area under two of them?
fn no_two(a: Kept) -> bool
    requires { Sound a }
    ensures { result ≡ no_two (list_of a) }
{
    for i in 0..a.n {
        if place_from(a, i + 1, a.all[i]) < a.n {
            return false;
        }
    }
    true
}

// Is the sum of lengths at most room?
fn sum_fits(a: Kept, room: u64) -> bool
    requires { Sound a }
    ensures { result ≡ leb (sum (list_of a)) room }
{
    let mut left = room;
    for r in &a.all[..a.n] {
        if left < r.len {
            return false;
        }
        left -= r.len;
    }
    true
}

// The place of the lowest stamp, the earlier of equal ones.
#[tactic(auto, using(crate::proofs::Laws::oldest_later, crate::proofs::Laws::oldest_kept), unfolding(rules_shelf::specs::Shelf::oldest_of))]
pub fn oldest(a: Kept) -> usize
    requires { a.n ≤ 64 }
    ensures { (result ≡ oldest_of a.all a.n) × (result ≤ a.n) }
{
    let mut best = 0;
    for i in 0..a.n {
        if a.all[i].stamp < a.all[best].stamp {
            best = i;
        }
    }
    best
}

// Without the record at a place; the others close up.
pub fn dropped(a: Kept, i: usize) -> Kept
    requires { (Sound a) × (i < a.n) }
    ensures { (Stands result (drop_at i (list_of a))) × (result.n + 1 ≡ a.n) }
{
    let mut b = a;
    b.n -= 1;
    for j in i..b.n {
        b.all[j] = a.all[j + 1];
    }
    b
}

// Without the record of an area.
fn without(a: Kept, g: ShelfRecord) -> Kept
    requires { Sound a }
    ensures { Stands result (without (area_of g) (list_of a)) }
{
    let i = place(a, g);
    if i < a.n { dropped(a, i) } else { a }
}

// Is there room for one more, with room bytes for the others?
#[tactic(auto, using(crate::proofs::Laws::list_length), unfolding(rules::specs::Tests::all, rules_shelf::specs::Shelf::roomy))]
fn roomy(a: Kept, room: u64) -> bool
    requires { Sound a }
    ensures { result ≡ roomy room (list_of a) }
{
    a.n < 64 && sum_fits(a, room)
}

// The oldest are dropped until there is room.
fn make_room(a: Kept, room: u64) -> Kept
    requires { Sound a }
    ensures { (Stands result (make_room a.n room (list_of a))) × (result.n < 64) }
{
    let mut b = a;
    // Until there is room: how many go is not known before.
    while !roomy(b, room) {
        b = dropped(b, oldest(b));
    }
    b
}

// ---- the records that are present afterwards
// With the list g entered.
fn entered(a: Kept, shelf: Shelf, g: ShelfRecord) -> Kept
    requires { (Sound a) × (shelf.count < max64) × (g.len ≤ shelf.limit) }
    ensures { Stands result (entered shelf (list_of a) (area_of g) g.len) }
{
    let others = without(a, g);
    let staying = make_room(others, shelf.limit - g.len);
    pushed(staying, stamped(g, shelf.count + 1))
}

// With another stamp at a place.
fn restamped(a: Kept, i: usize, stamp: u64) -> Kept
    requires { (Sound a) × (i < a.n) }
    ensures { Stands result (restamped (list_of a) i stamp) }
{
    let mut b = a;
    b.all[i].stamp = stamp;
    b
}

// ---- the questions
// Question 4.
#[tactic(auto, unfolding(rules::specs::Tests::all, rules_shelf::specs::Shelf::shelf_ok))]
fn shelf_ok(a: Kept, shelf: Shelf) -> bool
    requires { Sound a }
    ensures { result ≡ shelf_ok shelf (list_of a) }
{
    shelf.present <= MAX_SHELF && no_two(a) && sum_fits(a, shelf.limit)
}

// 1, 3, 4 and 51: the number of the first answered no, or 0; room is the length of the table.
fn jump_number(a: Kept, room: usize, shelf: Shelf, g: ShelfRecord) -> u32
    requires { Sound a }
    ensures { result ≡ first_no (questions shelf room (list_of a) (area_of g) []) }
{
    let one = ask(0, area_ok(g), 1);
    let three = ask(one, 64 <= room, 3);
    let four = ask(three, shelf_ok(a, shelf), 4);
    ask(four, shelf.count < MAX_COUNT, 51)
}

// And 50.
fn enter_number(a: Kept, room: usize, shelf: Shelf, g: ShelfRecord) -> u32
    requires { Sound a }
    ensures { result ≡ first_no (questions shelf room (list_of a) (area_of g)
        (ask (leb g.len shelf.limit) 50 ∷ [])) }
{
    let number = jump_number(a, room, shelf, g);
    ask(number, g.len <= shelf.limit, 50)
}

// ---- what a call changes
// Nothing: a refusal, or an absent area.
fn unchanged(a: Kept, shelf: Shelf, number: u32, absent: u32) -> Change
    ensures { (result.all ≡ a.all) × (result.n ≡ 0)
        × (result.answer ≡ answer number absent shelf.present shelf.count) }
{
    let all = a.all;
    Change {
        all,
        n: 0,
        answer: ShelfAnswer {
            number,
            absent,
            present: shelf.present,
            count: shelf.count,
        },
    }
}

// The records a are present, and one more call is counted.
fn changed(a: Kept, shelf: Shelf) -> Change
    requires { shelf.count < max64 }
    ensures { (result.all ≡ a.all) × (result.n ≡ a.n) × (result.answer ≡ answer 0 0 a.n (shelf.count + 1)) }
{
    let all = a.all;
    Change {
        all,
        n: a.n,
        answer: ShelfAnswer {
            number: 0,
            absent: 0,
            present: a.n as u64,
            count: shelf.count + 1,
        },
    }
}

// Entering the list g, in a table of room records.
pub fn enter_change(a: Kept, room: usize, shelf: Shelf, g: ShelfRecord) -> Change
    requires { Sound a }
    ensures { Changes result shelf (some_of (entering shelf room (list_of a) (area_of g) g.len)) }
{
    let number = enter_number(a, room, shelf, g);
    if number != 0 {
        return unchanged(a, shelf, number, 0);
    }
    changed(entered(a, shelf, g), shelf)
}

// A jump in the area of g.
pub fn jump_change(a: Kept, room: usize, shelf: Shelf, g: ShelfRecord) -> Change
    requires { Sound a }
    ensures { Changes result shelf (jumping shelf room (list_of a) (area_of g)) }
{
    let number = jump_number(a, room, shelf, g);
    if number != 0 {
        return unchanged(a, shelf, number, 0);
    }
    let i = place(a, g);
    if i == a.n {
        return unchanged(a, shelf, 0, 1);
    }
    changed(restamped(a, i, shelf.count + 1), shelf)
}

// ---- parts of a change
pub fn kept_of(c: Change) -> Kept
    ensures { (result.all ≡ c.all) × (result.n ≡ c.n) }
{
    let all = c.all;
    Kept { all, n: c.n }
}

pub fn count_of(a: Kept) -> usize
    ensures { result ≡ a.n }
{
    a.n
}

pub fn answer_of(c: Change) -> ShelfAnswer
    ensures { result ≡ c.answer }
{
    c.answer
}

// How many records of a table of room records are taken.
#[tactic(auto, unfolding(crate::specs::Shelf::clamp))]
pub fn clamped(shelf: Shelf, room: usize) -> usize
    ensures { result ≡ clamp shelf room }
{
    shelf.present.min(MAX_SHELF).min(room as u64) as usize
}
