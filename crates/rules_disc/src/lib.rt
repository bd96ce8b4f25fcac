// Change request 14 as definitions: one file for both areas.
#![tactic(auto)]

use rules::{AreaIndex, TableSizes};

// A list's entry in the contents table: its slot, its offset from the file's start and its length.
#[derive(Clone, Copy)]
pub struct Entry {
    pub slot: u32,
    pub offset: u32,
    pub len: u32,
}

// The entry of a slot, where the contents table lists it.
#[derive(Clone, Copy)]
pub enum SlotEntry {
    Absent,
    At(Entry),
}

// What the contents table of a file says: it breaks its rules, or the entries of slots 0 and 1.
#[derive(Clone, Copy)]
pub enum Contents {
    Broken,
    Lists(SlotEntry, SlotEntry),
}

// The list of a slot: none in the file, or the numbers of the list that the slot's tables then hold.
#[derive(Clone, Copy)]
pub enum Listed {
    Absent,
    Index(AreaIndex),
}

// What loading answers: a refusal number, or the lists of slots 0 and 1.
#[derive(Clone, Copy)]
pub enum Loaded {
    Refused(u32),
    Lists(Listed, Listed),
}

// The sizes of a slot's tables; none where the file has no list of it.
#[derive(Clone, Copy)]
pub enum SlotSizes {
    Absent,
    Sizes(TableSizes),
}

// What is told of one slot: a refusal number, or its sizes.
#[derive(Clone, Copy)]
pub enum BodySized {
    Refused(u32),
    Passed(SlotSizes),
}

// What is told of the file: a refusal number, or the sizes of slots 0 and 1.
#[derive(Clone, Copy)]
pub enum DiscSized {
    Refused(u32),
    Sizes(SlotSizes, SlotSizes),
}
