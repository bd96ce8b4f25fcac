// The contents table of a disc file, read and written.
ghost use Rattle.std.specs.Prelude.{◌≡◌, [], ◌∷◌, ◌++◌, ◌+◌, ◌≤◌, length, take, drop};
ghost use Rattle.field.specs.Number.{encode};
ghost use Rattle.rules_disc.specs.Disc.{encode_entry, decode_entry, laid, entry_of};
ghost use Rattle.save.specs.Output.{Put};
ghost use Rattle.disc_load.specs.DiscLoad.{place_from, contents_from, contents_in};

use crate::questions::{one_ok, two_ok};
use field::{read_u32, write_u32};
use rules_disc::{Contents, Entry, SlotEntry};

// ---- reading
// The entry that begins at a byte.
fn read_entry(bytes: &[u8], at: usize) -> Entry
    requires { at + 12 ≤ length bytes.now }
    ensures { result ≡ decode_entry (take 12 (drop at bytes.now)) }
{
    Entry {
        slot: read_u32(bytes, at),
        offset: read_u32(bytes, at + 4),
        len: read_u32(bytes, at + 8),
    }
}

// The entry of a slot among one, and among two.
fn place_in_one(slot: u32, e: Entry) -> SlotEntry
    ensures { result ≡ place_from (entry_of slot (e ∷ [])) }
{
    if e.slot == slot {
        SlotEntry::At(e)
    } else {
        SlotEntry::Absent
    }
}

fn place_in_two(slot: u32, e: Entry, f: Entry) -> SlotEntry
    ensures { result ≡ place_from (entry_of slot (e ∷ f ∷ [])) }
{
    if e.slot == slot {
        SlotEntry::At(e)
    } else {
        place_in_one(slot, f)
    }
}

fn one(e: Entry, size: u64) -> Contents
    ensures { result ≡ contents_from (laid size 0 16 (e ∷ [])) (e ∷ []) }
{
    if !one_ok(e, size) {
        return Contents::Broken;
    }
    Contents::Lists(place_in_one(0, e), place_in_one(1, e))
}

fn two(e: Entry, f: Entry, size: u64) -> Contents
    ensures { result ≡ contents_from (laid size 0 28 (e ∷ f ∷ [])) (e ∷ f ∷ []) }
{
    if !two_ok(e, f, size) {
        return Contents::Broken;
    }
    Contents::Lists(place_in_two(0, e, f), place_in_two(1, e, f))
}

// The contents table at the start of a file.
#[tactic(auto, using(crate::proofs::contents::Reading::too_short, crate::proofs::contents::Reading::other_count, crate::proofs::contents::Reading::two_short, crate::proofs::contents::Reading::of_one, crate::proofs::contents::Reading::of_two))]
pub fn read_contents(bytes: &[u8]) -> Contents
    ensures { result ≡ contents_in bytes.now }
{
    let len = bytes.len();
    if len < 16 {
        return Contents::Broken;
    }
    match read_u32(bytes, 0) {
        1 => one(read_entry(bytes, 4), len as u64),
        2 if 28 <= len => two(read_entry(bytes, 4), read_entry(bytes, 16), len as u64),
        _ => Contents::Broken,
    }
}

// ---- writing
fn write_entry(out: &mut [u8], at: usize, e: Entry) -> usize
    requires { at + 12 ≤ length out.old }
    ensures { Put (encode_entry e) 12 out.old at result out.new }
{
    write_u32(out, at, e.slot);
    write_u32(out, at + 4, e.offset);
    write_u32(out, at + 8, e.len);
    at + 12
}

// The contents table of one list.
pub fn write_one(out: &mut [u8], e: Entry) -> usize
    requires { 16 ≤ length out.old }
    ensures { Put (encode 4 1 ++ encode_entry e) 16 out.old 0 result out.new }
{
    write_u32(out, 0, 1);
    write_entry(out, 4, e)
}

// The contents table of two lists.
pub fn write_two(out: &mut [u8], e: Entry, f: Entry) -> usize
    requires { 28 ≤ length out.old }
    ensures { Put (encode 4 2 ++ (encode_entry e ++ encode_entry f)) 28 out.old 0 result
        out.new }
{
    write_u32(out, 0, 2);
    let at = write_entry(out, 4, e);
    write_entry(out, at, f)
}
