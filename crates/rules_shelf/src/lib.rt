// Change request 9 as definitions: one shelf for many discs.
#![tactic(auto)]

// The most records that a shelf has present.
pub const MAX_SHELF: u64 = 64;
// The largest count.
pub const MAX_COUNT: u64 = 18446744073709551615;

// A saved list on the shelf: the seven numbers of its area, the length of its file and the stamp of its last jump. 56 bytes, for C.
#[repr(C)]
#[derive(Clone, Copy)]
pub struct ShelfRecord {
    pub slot: u8,
    pub channels: u8,
    pub key_start: u32,
    pub key_end: u32,
    pub sectors: u64,
    pub start: u64,
    pub end: u64,
    pub len: u64,
    pub stamp: u64,
}

// The numbers of a shelf: how many of its table's first records are present, the count of entries and jumps, the limit of bytes.
#[repr(C)]
#[derive(Clone, Copy)]
pub struct Shelf {
    pub present: u64,
    pub count: u64,
    pub limit: u64,
}
