// The header of a file: its table of fields, read and written through it, and questions 23 to 30.
#![tactic(auto)]

pub mod questions;

ghost use Rattle.std.specs.Prelude.{◌≡◌, ◌++◌, ◌^◌, ◌≤◌, ◌<◌, length, take, drop};
ghost use Rattle.field.specs.Number.{encode, put};
ghost use Rattle.fnv.specs.Fnv.{fnv_from, fnv64, prime64};
ghost use Rattle.rules.specs.File.{header_fields, field_at, read_header, header_values, header_bytes};
ghost use Rattle.rules.specs.Load.{is_complete, has_fingerprint};
ghost use Rattle.header.specs.Place.{Placed, HoldsField, entry, total};

use field::{read_u32, read_u64, write_u32, write_u64};
use fnv::{OFFSET_BASIS, step};
use rules::Header;
use summing::{sum_u32, sum_u64};

// Where a field lies, and how many bytes it has.
#[derive(Clone, Copy)]
pub struct Field {
    pub offset: usize,
    pub width: usize,
}

// The nineteen fields, in the order of the file.
const FIELDS: [Field; 19] = [
    Field {
        offset: 0,
        width: 8, // magic
    },
    Field {
        offset: 8,
        width: 4, // version
    },
    Field {
        offset: 12,
        width: 1, // slot
    },
    Field {
        offset: 13,
        width: 1, // channels
    },
    Field {
        offset: 14,
        width: 1, // flags
    },
    Field {
        offset: 15,
        width: 1, // zero15
    },
    Field {
        offset: 16,
        width: 4, // start
    },
    Field {
        offset: 20,
        width: 4, // end
    },
    Field {
        offset: 24,
        width: 8, // sectors
    },
    Field {
        offset: 32,
        width: 4, // interval
    },
    Field {
        offset: 36,
        width: 4, // checkpoints
    },
    Field {
        offset: 40,
        width: 4, // frames
    },
    Field {
        offset: 44,
        width: 4, // parts
    },
    Field {
        offset: 48,
        width: 4, // malformed
    },
    Field {
        offset: 52,
        width: 4, // zero52
    },
    Field {
        offset: 56,
        width: 8, // budget
    },
    Field {
        offset: 64,
        width: 4, // threshold
    },
    Field {
        offset: 68,
        width: 4, // zero68
    },
    Field {
        offset: 72,
        width: 8, // counted
    },
];

// Field number i.
pub fn field_of(i: usize) -> Field
    requires { i < 19 }
    ensures { Placed header_fields 0 i result.offset result.width }
{
    FIELDS[i]
}

// The number in field number i.
fn read_field(body: &[u8], i: usize) -> u64
    requires { (80 ≤ length body.now) × (i < 19) }
    ensures { (result ≡ field_at body.now i) × (result < 256 ^ (entry header_fields i).width) }
{
    // Tests by `if`: the last arm of a match on a number does not say which numbers it is not.
    let f = field_of(i);
    let at = f.offset;
    if f.width == 8 {
        return read_u64(body, at);
    }
    if f.width == 4 {
        return read_u32(body, at) as u64;
    }
    body[at] as u64
}

// The number in field number i, of four bytes.
fn u32_field(body: &[u8], i: usize) -> u32
    requires { HoldsField body.now i 4 }
    ensures { result ≡ field_at body.now i }
{
    read_field(body, i) as u32
}

// The number in field number i, of one byte.
fn u8_field(body: &[u8], i: usize) -> u8
    requires { HoldsField body.now i 1 }
    ensures { result ≡ field_at body.now i }
{
    read_field(body, i) as u8
}

// The header at the start of body.
#[tactic(auto, unfolding(rules::specs::File::read_header, rules::specs::File::header_fields))]
pub fn read_header(body: &[u8]) -> Header
    requires { 80 ≤ length body.now }
    ensures { result ≡ read_header body.now }
{
    Header {
        magic: read_field(body, 0),
        version: u32_field(body, 1),
        slot: u8_field(body, 2),
        channels: u8_field(body, 3),
        flags: u8_field(body, 4),
        zero15: u8_field(body, 5),
        start: u32_field(body, 6),
        end: u32_field(body, 7),
        sectors: read_field(body, 8),
        interval: u32_field(body, 9),
        checkpoints: u32_field(body, 10),
        frames: u32_field(body, 11),
        parts: u32_field(body, 12),
        malformed: u32_field(body, 13),
        zero52: u32_field(body, 14),
        budget: read_field(body, 15),
        threshold: u32_field(body, 16),
        zero68: u32_field(body, 17),
        counted: read_field(body, 18),
    }
}

// v into field number i.
fn put_field(out: &mut [u8], i: usize, v: u64)
    requires { (80 ≤ length out.old) × (i < 19) }
    ensures { out.new ≡ put (entry header_fields i).width out.old (total (take i header_fields)) v }
{
    let f = field_of(i);
    let at = f.offset;
    if f.width == 8 {
        write_u64(out, at, v);
    } else if f.width == 4 {
        write_u32(out, at, (v % 4294967296) as u32);
    } else {
        out[at] = (v % 256) as u8;
    }
}

// The hash from sum of the bytes of v in field number i.
fn sum_field(i: usize, v: u64, sum: u64) -> u64
    requires { i < 19 }
    ensures { result ≡ fnv_from 64 prime64 sum (encode (entry header_fields i).width v) }
{
    let f = field_of(i);
    if f.width == 8 {
        return sum_u64(sum, v);
    }
    if f.width == 4 {
        return sum_u32(sum, (v % 4294967296) as u32);
    }
    step(sum, (v % 256) as u8)
}

// The values of a header, in the order of the table.
fn values_of(h: Header) -> [u64; 19]
    ensures { result ≡ header_values h }
{
    [
        h.magic,
        u64::from(h.version),
        u64::from(h.slot),
        u64::from(h.channels),
        u64::from(h.flags),
        u64::from(h.zero15),
        u64::from(h.start),
        u64::from(h.end),
        h.sectors,
        u64::from(h.interval),
        u64::from(h.checkpoints),
        u64::from(h.frames),
        u64::from(h.parts),
        u64::from(h.malformed),
        u64::from(h.zero52),
        h.budget,
        u64::from(h.threshold),
        u64::from(h.zero68),
        h.counted,
    ]
}

// A header at the start of out, and the sum of its bytes.
pub fn write_header(out: &mut [u8], h: Header) -> u64
    requires { 80 ≤ length out.old }
    ensures { (out.new ≡ header_bytes h ++ drop 80 out.old) × (result ≡ fnv64 (header_bytes h)) }
{
    let values = values_of(h);
    let mut x = OFFSET_BASIS;
    for i in 0..19 {
        put_field(out, i, values[i]);
        x = sum_field(i, values[i], x);
    }
    x
}

// Is the list complete?
pub fn complete(h: Header) -> bool
    ensures { result ≡ is_complete h }
{
    h.flags % 2 == 1
}

// Does the file have a fingerprint?
pub fn has_fingerprint(h: Header) -> bool
    ensures { result ≡ has_fingerprint h }
{
    h.flags / 2 % 2 == 1
}
