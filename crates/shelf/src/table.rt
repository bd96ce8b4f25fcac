// A lent table of records: thin functions that search, replace and drop, and the calls for C.
ghost use Rattle.std.specs.Prelude.{◌≡◌, ◌++◌, ◌+◌, ◌<◌, ◌≤◌, length, take, drop, set};
ghost use Rattle.rules_shelf.specs.Shelf.{area_of, area_place, drop_at};
ghost use Rattle.shelf.specs.Steps.{Stands, written};
ghost use Rattle.shelf.specs.Shelf.{shelf_out, enter_call, jump_call};

use crate::{
    Kept, ShelfAnswer, clamped, dropped, enter_change, jump_change, kept_of, no_record, place,
};
use rules_shelf::{Shelf, ShelfRecord};

// Record number i replaced by r.
pub fn replace(s: &mut [ShelfRecord], i: usize, r: ShelfRecord)
    requires { i < length s.old }
    ensures { s.new ≡ set s.old i r }
{
    s[i] = r;
}

// The first n records, by value.
pub fn take_records(s: &mut [ShelfRecord], n: usize) -> Kept
    requires { (n ≤ 64) × (n ≤ length s.old) }
    ensures { (Stands result (take n s.old)) × (s.new ≡ s.old) }
{
    let mut all = [no_record(); 64];
    all[..n].copy_from_slice(&s[..n]);
    Kept { all, n }
}

// The first n records of a, over the start of the table.
pub fn write_records(s: &mut [ShelfRecord], a: Kept, n: usize)
    requires { (n ≤ 64) × (n ≤ length s.old) }
    ensures { s.new ≡ written n a.all s.old }
{
    s[..n].copy_from_slice(&a.all[..n]);
}

// The place of the record of an area among the first n, n where there is none.
pub fn search(s: &mut [ShelfRecord], n: usize, g: ShelfRecord) -> usize
    requires { (n ≤ 64) × (n ≤ length s.old) }
    ensures { (result ≡ area_place (area_of g) (take n s.old)) × (s.new ≡ s.old) }
{
    place(take_records(s, n), g)
}

// Without record number i of the first n, which close up; answers how many are left.
pub fn drop_record(s: &mut [ShelfRecord], n: usize, i: usize) -> usize
    requires { (n ≤ 64) × (n ≤ length s.old) × (i < n) }
    ensures { (result + 1 ≡ n) × (s.new ≡ drop_at i (take n s.old) ++ drop result s.old) }
{
    let b = dropped(take_records(s, n), i);
    write_records(s, b, b.n);
    b.n
}

// ---- what C calls
// The list of area and length of g is entered; its stamp is not read.
pub fn seek_raw_shelf_enter(s: &mut [ShelfRecord], shelf: Shelf, g: ShelfRecord) -> ShelfAnswer
    ensures { shelf_out result s.new ≡ enter_call shelf s.old g }
{
    let room = s.len();
    let a = take_records(s, clamped(shelf, room));
    let c = enter_change(a, room, shelf, g);
    write_records(s, kept_of(c), c.n);
    c.answer
}

// A jump in the area of g; nothing else of it is read.
pub fn seek_raw_shelf_jump(s: &mut [ShelfRecord], shelf: Shelf, g: ShelfRecord) -> ShelfAnswer
    ensures { shelf_out result s.new ≡ jump_call shelf s.old g }
{
    let room = s.len();
    let a = take_records(s, clamped(shelf, room));
    let c = jump_change(a, room, shelf, g);
    write_records(s, kept_of(c), c.n);
    c.answer
}
