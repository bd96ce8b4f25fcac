// Answers of the calls for disc files as a number and blocks of 24 words.
ghost use Rattle.std.specs.Prelude.{◌≡◌, ◌≤◌, length};
ghost use Rattle.blocks.specs.Calls.{called, into, two};
ghost use Rattle.disc_load.specs.DiscLoad.{slot_sizes_of, disc_sized_of};
ghost use Rattle.player_disc.specs.Block.{place_words, contents_words, contents_into, is_present, sizes_or0, slot_words, disc_size_words, called_lists, listed_into, loaded_into};

use blocks::{index_words, write_words};
use rules::TableSizes;
use rules_disc::{Contents, DiscSized, Listed, Loaded, SlotEntry, SlotSizes};

// ---- the contents table
// Whether a slot is listed, its offset and length.
#[derive(Clone, Copy)]
pub struct PlaceWords {
    pub present: u64,
    pub offset: u64,
    pub len: u64,
}

fn place_words(place: SlotEntry) -> PlaceWords
    ensures { result ≡ place_words place }
{
    match place {
        SlotEntry::Absent => PlaceWords {
            present: 0,
            offset: 0,
            len: 0,
        },
        SlotEntry::At(e) => PlaceWords {
            present: 1,
            offset: e.offset as u64,
            len: e.len as u64,
        },
    }
}

fn contents_words(p: PlaceWords, q: PlaceWords) -> [u64; 24]
    ensures { result ≡ contents_words p q }
{
    [
        p.present, p.offset, p.len, q.present, q.offset, q.len, 0, 0, 0, 0, 0, 0, 0, 0, 0, 0, 0, 0,
        0, 0, 0, 0, 0, 0,
    ]
}

pub fn put_contents(answer: &mut [u8], contents: Contents) -> u32
    requires { 192 ≤ length answer.old }
    ensures { called result answer.new ≡ contents_into answer.old contents }
{
    match contents {
        Contents::Broken => 54,
        Contents::Lists(first, second) => {
            let p = place_words(first);
            let q = place_words(second);
            write_words(answer, contents_words(p, q));
            0
        }
    }
}

// ---- sizes
fn is_present(slot: SlotSizes) -> u64
    ensures { result ≡ is_present (slot_sizes_of slot) }
{
    match slot {
        SlotSizes::Absent => 0,
        SlotSizes::Sizes(_) => 1,
    }
}

fn sizes_or_0(slot: SlotSizes) -> TableSizes
    ensures { result ≡ sizes_or0 (slot_sizes_of slot) }
{
    match slot {
        SlotSizes::Absent => TableSizes {
            checkpoints: 0,
            frames: 0,
            store: 0,
            parts: 0,
            malformed: 0,
            hints: 0,
            confirmed: 0,
        },
        SlotSizes::Sizes(s) => s,
    }
}

fn slot_words(s: TableSizes, first: u64, t: TableSizes, second: u64) -> [u64; 24]
    ensures { result ≡ slot_words s first t second }
{
    [
        s.checkpoints,
        s.frames,
        s.store,
        s.parts,
        s.malformed,
        s.hints,
        s.confirmed,
        first,
        t.checkpoints,
        t.frames,
        t.store,
        t.parts,
        t.malformed,
        t.hints,
        t.confirmed,
        second,
        0,
        0,
        0,
        0,
        0,
        0,
        0,
        0,
    ]
}

pub fn put_disc_sizes(answer: &mut [u8], sized: DiscSized) -> u32
    requires { 192 ≤ length answer.old }
    ensures { called result answer.new
        ≡ into disc_size_words answer.old (disc_sized_of sized) }
{
    match sized {
        DiscSized::Refused(n) => n,
        DiscSized::Sizes(first, second) => {
            let s = sizes_or_0(first);
            let t = sizes_or_0(second);
            let words = slot_words(s, is_present(first), t, is_present(second));
            write_words(answer, words);
            0
        }
    }
}

// ---- loading
// The head of a list that is there, and whether it is.
fn put_listed(head: &mut [u8], listed: Listed) -> u64
    requires { 192 ≤ length head.old }
    ensures { called result head.new ≡ listed_into head.old listed }
{
    match listed {
        Listed::Absent => 0,
        Listed::Index(x) => {
            write_words(head, index_words(x));
            1
        }
    }
}

fn two_words(a: u64, b: u64) -> [u64; 24]
    ensures { result ≡ two a b }
{
    [
        a, b, 0, 0, 0, 0, 0, 0, 0, 0, 0, 0, 0, 0, 0, 0, 0, 0, 0, 0, 0, 0, 0, 0,
    ]
}

// The heads of the lists that are there; the answer says which.
pub fn put_loaded(head: &mut [u8], other: &mut [u8], answer: &mut [u8], loaded: Loaded) -> u32
    requires in_bounds { 192 ≤ length head.old }
    requires in_bounds_2 { 192 ≤ length other.old }
    requires in_bounds_3 { 192 ≤ length answer.old }
    ensures { called_lists result head.new other.new answer.new
        ≡ loaded_into head.old other.old answer.old loaded }
{
    match loaded {
        Loaded::Refused(n) => n,
        Loaded::Lists(x, y) => {
            let first = put_listed(head, x);
            let second = put_listed(other, y);
            write_words(answer, two_words(first, second));
            0
        }
    }
}
