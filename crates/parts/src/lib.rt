// The part rule over lent tables: which parts are stored, and how.
#![tactic(auto)]

pub mod admits;

ghost use Rattle.std.specs.Prelude.{◌≡◌, true, false, ◌||◌, List, ℕ, ◌+◌, ◌-◌, ◌*◌, ◌≤◌, ◌<◌, eqb, ltb, length, take, drop};
ghost use Rattle.rules.specs.Tests.{agrees, last_or};
ghost use Rattle.rules.specs.Values.{max_frame, no_held, used};
ghost use Rattle.rules.specs.PartRule.{stores, add_part, add_parts};
ghost use Rattle.tables.specs.Tables.{headers_in, header_at, frames_in, parts_in};
ghost use Rattle.parts.specs.Parts.{part_tables, stored_in, piece_in, held, held_from};
ghost use Rattle.parts.specs.Steps.{CountsReady, Room, joins_in, placed_in, Puts, put_in, Lent, offset_to, wanted, held_piece, added_by};

use crate::admits::{alike, passed_over};
use field::{copy_part, same};
use rules::{FrameKind, Held, MAX_FRAME_BYTES};
use tables::part_records::{write_header, write_held};
use tables::{FrameHeader, get_header, read_header, read_held};

// How many frames and parts tables hold, and the bytes of the frames together.
#[derive(Clone, Copy)]
pub struct Counts {
    pub frames: u32,
    pub parts: u32,
    pub used: u64,
}

// A part as it is handed over, for checkpoint number at; its bytes are lent beside it.
#[derive(Clone, Copy)]
pub struct Piece {
    pub at: u32,
    pub start: u32,
    pub number: u32,
    pub kind: FrameKind,
    pub remaining: i32,
}

// Where a part goes: the frame, how many of its bytes the frame holds, and the frame's length and the count of frames
// afterwards.
#[derive(Clone, Copy)]
pub struct Placed {
    pub frame: u32,
    pub from: usize,
    pub len: u32,
    pub frames: u32,
}

// Where the bytes of frame number frame begin in a store.
#[derive(Clone, Copy)]
pub struct Source {
    pub frame: u32,
    pub offset: u64,
}

// ---- the part rule
// The last of f frame headers, zeros where there is none.
fn last_header(frames: &[u8], f: usize) -> FrameHeader
    requires { f * 8 ≤ length frames.now }
    ensures { result ≡ header_at (headers_in f frames.now) (f - 1) }
{
    get_header(frames, f, f.saturating_sub(1))
}

// Does the part open a frame: is it the first of all, or does the last frame start earlier?
fn opens(h: u32, last: FrameHeader, start: u32) -> bool
    ensures { result ≡ (eqb h 0 || ltb last.start start) }
{
    h == 0 || last.start < start
}

// Do the len bytes of the store that end at used agree with the bytes over the shorter length?
fn bytes_agree(store: &[u8], used: usize, len: usize, bytes: &[u8]) -> bool
    requires { (len ≤ used) × (used ≤ length store.now) }
    ensures { result ≡ agrees eqb (take len (drop (used - len) store.now)) bytes.now }
{
    let shorter = len.min(bytes.len());
    let at = used - len;
    same(&store[at..at + shorter], &bytes[..shorter])
}

// Does the part go into the last frame, whose header is last?
fn joins(c: Counts, last: FrameHeader, p: Piece, bytes: &[u8], store: &[u8], parts: &[u8]) -> bool
    requires { (1 ≤ c.parts) × (c.parts * 24 ≤ length parts.now) × (last.len ≤ c.used)
        × (c.used ≤ length store.now) }
    ensures { result ≡ joins_in c last (last_or no_held (parts_in c.parts parts.now)) store.now
        (piece_in p bytes.now) }
{
    let q = read_held(parts, c.parts as usize - 1);
    last.start == p.start
        && alike(q, p.number, p.kind, bytes.len())
        && bytes_agree(store, c.used as usize, last.len as usize, bytes)
}

// Is the part stored?
pub fn stores(
    budget: u64,
    c: Counts,
    p: Piece,
    bytes: &[u8],
    frames: &[u8],
    store: &[u8],
    parts: &[u8],
) -> bool
    requires { CountsReady budget c (part_tables frames.now store.now parts.now) }
    ensures { result ≡ stores budget (stored_in c.frames c.parts
        (part_tables frames.now store.now parts.now)) (piece_in p bytes.now) }
{
    let n = bytes.len() as u64;
    let free = budget - c.used;
    let last = last_header(frames, c.frames as usize);
    if (MAX_FRAME_BYTES as u64) < n {
        return false;
    }
    if opens(c.parts, last, p.start) {
        return n <= free;
    }
    n <= free + last.len as u64 && joins(c, last, p, bytes, store, parts)
}

// ---- the part rule, written
// A part of n bytes opens a frame behind f others, or goes into the last of them, which has l bytes.
#[tactic(auto, unfolding(crate::specs::Steps::placed_in))]
fn place(f: u32, new: bool, l: u32, n: usize) -> Placed
    requires { (f < 4294967295) × (n ≤ max_frame) × (new ≡ false → 1 ≤ f) }
    ensures { result ≡ placed_in f new l n }
{
    if new {
        Placed {
            frame: f,
            from: 0,
            len: n as u32,
            frames: f + 1,
        }
    } else {
        Placed {
            frame: f - 1,
            from: n.min(l as usize),
            len: l.max(n as u32),
            frames: f,
        }
    }
}

// The part's bytes that its frame lacks go to the end of what is used of the store.
fn put_part(
    c: Counts,
    to: Placed,
    p: Piece,
    bytes: &[u8],
    frames: &mut [u8],
    store: &mut [u8],
    parts: &mut [u8],
) -> Counts
    requires { Puts c to (length bytes.now) (part_tables frames.old store.old parts.old) }
    ensures { held result (part_tables frames.new store.new parts.new)
        ≡ put_in c to (piece_in p bytes.now)
        (part_tables frames.old store.old parts.old) }
{
    let n = bytes.len();
    let more = n - to.from;
    let after = Counts {
        frames: to.frames,
        parts: c.parts + 1,
        used: c.used + more as u64,
    };
    let part = Held {
        at: p.at,
        frame: to.frame,
        len: n as u32,
        number: p.number,
        kind: p.kind,
        remaining: p.remaining,
    };
    write_header(frames, to.frame as usize, p.start, to.len);
    copy_part(store, c.used as usize, bytes, to.from, more);
    write_held(parts, c.parts as usize, part);
    after
}

// The part rule: the part is stored, or passed over.
pub fn add_part(
    budget: u64,
    c: Counts,
    p: Piece,
    bytes: &[u8],
    frames: &mut [u8],
    store: &mut [u8],
    parts: &mut [u8],
) -> Counts
    requires { Room 1 budget c (part_tables frames.old store.old parts.old) }
    ensures { held result (part_tables frames.new store.new parts.new)
        ≡ held_from (add_part budget (stored_in c.frames c.parts
        (part_tables frames.old store.old parts.old)) (piece_in p bytes.now))
        (part_tables frames.old store.old parts.old) }
{
    if !stores(budget, c, p, bytes, frames, store, parts) {
        return c;
    }
    let last = last_header(frames, c.frames as usize);
    let new = opens(c.parts, last, p.start);
    let to = place(c.frames, new, last.len, bytes.len());
    put_part(c, to, p, bytes, frames, store, parts)
}

// ---- parts of another list
// From the frame of s to frame number g, which is the same or the next.
pub fn source_at(frames: &[u8], f: usize, s: Source, g: u32) -> Source
    requires { (s.offset ≡ offset_to f frames.now s.frame) × (s.frame ≤ g) × (g ≤ s.frame + 1) × (g < f)
        × (f * 8 ≤ length frames.now) × (s.offset < 9223372036854775808) }
    ensures { (result.frame ≡ g) × (result.offset ≡ offset_to f frames.now g) }
{
    if g == s.frame {
        return s;
    }
    Source {
        frame: g,
        offset: s.offset + get_header(frames, f, s.frame as usize).len as u64,
    }
}

// Where go holds, part p of another list for checkpoint number at; its frame starts at start and has its bytes in
// other from the place from on.
pub fn add_one(
    budget: u64,
    go: bool,
    c: Counts,
    p: Held,
    at: u32,
    start: u32,
    from: usize,
    other: &[u8],
    frames: &mut [u8],
    store: &mut [u8],
    parts: &mut [u8],
) -> Counts
    requires { (go ≡ true → Room 1 budget c (part_tables frames.old store.old parts.old))
        × (from + p.len ≤ length other.now) }
    ensures { held result (part_tables frames.new store.new parts.new)
        ≡ added_by budget go c (held_piece p at start (take p.len (drop from other.now)))
        (part_tables frames.old store.old parts.old) }
{
    // The flag is part of the promise that coarsen calls by.
    if !go {
        return c;
    }
    let piece = Piece {
        at,
        start,
        number: p.number,
        kind: p.kind,
        remaining: p.remaining,
    };
    let bytes = &other[from..from + p.len as usize];
    add_part(budget, c, piece, bytes, frames, store, parts)
}

// Of the h parts of another list (theirs, with the frames of headers and their bytes in other) those for checkpoint
// number n or later, in their order.
pub fn add_parts(
    budget: u64,
    n: u32,
    c: Counts,
    f: u32,
    h: u32,
    headers: &[u8],
    other: &[u8],
    theirs: &[u8],
    frames: &mut [u8],
    store: &mut [u8],
    parts: &mut [u8],
) -> Counts
    requires { Lent f h (part_tables headers.now other.now theirs.now)
        × Room (wanted n (parts_in h theirs.now)) budget c (part_tables frames.old store.old parts.old) }
    ensures { held result (part_tables frames.new store.new parts.new)
        ≡ held_from (add_parts budget (frames_in f headers.now other.now) n
        (parts_in h theirs.now) (stored_in c.frames c.parts
        (part_tables frames.old store.old parts.old)))
        (part_tables frames.old store.old parts.old) }
{
    let mut held = c;
    let mut at = Source {
        frame: 0,
        offset: 0,
    };
    for j in 0..h {
        let p = read_held(theirs, j as usize);
        at = source_at(headers, f as usize, at, p.frame);
        let header = read_header(headers, p.frame as usize);
        held = add_one(
            budget,
            !passed_over(p.at, n),
            held,
            p,
            p.at,
            header.start,
            at.offset as usize,
            other,
            frames,
            store,
            parts,
        );
    }
    held
}

// The bytes of f frames together, by their headers.
pub fn used_bytes(frames: &[u8], f: u32) -> u64
    requires { f * 8 ≤ length frames.now }
    ensures { (store : List ℕ) → result ≡ used (frames_in f frames.now store) }
{
    let mut sum = 0;
    for i in 0..f {
        sum += read_header(frames, i as usize).len as u64;
    }
    sum
}
