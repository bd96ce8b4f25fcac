// The sections of a file whose bytes may end early: frames, parts and malformed LSNs. Each inspector is handed the cursor where its section begins.
ghost use Rattle.std.specs.Prelude.{◌≡◌, cond, ◌+◌, ◌*◌, ◌≤◌, ◌<◌, length, drop};
ghost use Rattle.field.specs.Number.{number_at};
ghost use Rattle.rules.specs.Load.{read_frame, read_part, read_frames, read_parts};
ghost use Rattle.tables.specs.Tables.{checkpoints_in, filled_to, before};
ghost use Rattle.tables.specs.Files.{frames_read};
ghost use Rattle.inspect.specs.Steps.{taken_of, read_lsns, one_frame, one_part, placed_if, part_rule, HeaderReads, LastAt};

use crate::cursor::{Cursor, OneHeld, Pair};
use field::read_u32;
use rules::{Area, FRAME_HEADER, Header, Held};
use sections::part_records::{here_ok, near_ok, no_part};
use sections::records::{check_lsns, header_ok};
use tables::{FrameHeader, behind, header_at};

// The refusal, or the cursor behind a section.
#[derive(Clone, Copy)]
pub enum Taken {
    Refused(u32),
    Behind(Cursor),
}

// The refusal, or the header of a frame and the cursor behind its bytes.
#[derive(Clone, Copy)]
pub enum OneFrame {
    Refused(u32),
    Header(FrameHeader, Cursor),
}

// A part, and where its frame begins in the section of frames.
#[derive(Clone, Copy)]
pub struct Placed {
    pub part: Held,
    pub place: usize,
}

// The refusal, or a part and the cursor behind it.
#[derive(Clone, Copy)]
pub enum OnePart {
    Refused(u32),
    Part(Placed, Cursor),
}

// ---- frames
// 20 or 32, or the header of the frame that is read next; floor and used are of the frames before it.
fn inspect_frame(c: Cursor, body: &[u8], area: Area, budget: u64, floor: u64, used: u64) -> OneFrame
    requires { used ≤ budget }
    ensures { result ≡ one_frame body.now (read_frame area budget (filled_to floor used) (drop c.at body.now)) }
{
    let Pair::Numbers(start, len, d) = c.pair(body) else {
        return OneFrame::Refused(20);
    };
    let h = FrameHeader { start, len };
    if !header_ok(area, budget, floor, used, h) {
        return OneFrame::Refused(32);
    }
    if !d.holds(body, len as usize) {
        return OneFrame::Refused(20);
    }
    OneFrame::Header(h, d.past(len as usize))
}

// 20 or 32, or the cursor behind the frames.
pub fn inspect_frames(c: Cursor, body: &[u8], area: Area, h: Header) -> Taken
    requires { c.at ≤ length body.now }
    ensures { result ≡ taken_of body.now (read_frames area h (drop c.at body.now)) }
{
    let mut here = c;
    let mut floor = area.start;
    let mut used = 0;
    for _ in 0..h.frames {
        match inspect_frame(here, body, area, h.budget, floor, used) {
            OneFrame::Refused(k) => return Taken::Refused(k),
            OneFrame::Header(g, d) => {
                here = d;
                floor = g.start as u64 + 1;
                used += g.len as u64;
            }
        }
    }
    Taken::Behind(here)
}

// ---- parts
// The place of the next frame, or that of this one.
fn place_by(frames: &[u8], place: usize, moves: bool) -> usize
    requires { place + 8 + number_at 4 frames.now (place + 4) ≤ length frames.now }
    ensures { result ≡ cond moves (place + 8 + number_at 4 frames.now (place + 4)) place }
{
    if moves {
        place + FRAME_HEADER + read_u32(frames, place + 4) as usize
    } else {
        place
    }
}

// 32, or p with the place of its frame and the cursor c, which is behind p; last is the part before it, unless p begins the section.
fn place_part(
    area: Area,
    h: Header,
    checkpoints: &[u8],
    frames: &[u8],
    begins: bool,
    last: Placed,
    p: Held,
    c: Cursor,
) -> OnePart
    requires { (HeaderReads area h checkpoints.now frames.now) × (LastAt frames.now begins last) }
    ensures { result ≡ placed_if frames.now p c (part_rule area h checkpoints.now frames.now begins last p) }
{
    let q = last.part;
    if !near_ok(h.frames as usize, begins, q, p) {
        return OnePart::Refused(32);
    }
    let place = place_by(frames, last.place, p.frame != q.frame);
    let f = header_at(frames, place);
    let n = h.checkpoints as usize;
    if !here_ok(area, h.interval, 0, checkpoints, n, p, f) {
        return OnePart::Refused(32);
    }
    OnePart::Part(Placed { part: p, place }, c)
}

// 20, 33 or 32, or the part that is read next.
fn inspect_part(
    c: Cursor,
    body: &[u8],
    area: Area,
    h: Header,
    checkpoints: &[u8],
    frames: &[u8],
    begins: bool,
    last: Placed,
) -> OnePart
    requires { (HeaderReads area h checkpoints.now frames.now) × (LastAt frames.now begins last) }
    ensures { result ≡ one_part body.now frames.now (read_part area h.interval (checkpoints_in h.checkpoints checkpoints.now) (frames_read h.frames frames.now) (before begins last.part) (drop c.at body.now)) }
{
    match c.held(body) {
        OneHeld::Refused(k) => OnePart::Refused(k),
        OneHeld::Part(p, d) => place_part(area, h, checkpoints, frames, begins, last, p, d),
    }
}

// 20, 33 or 32, or the cursor behind the parts, of the checkpoints and the frames.
pub fn inspect_parts(
    c: Cursor,
    body: &[u8],
    area: Area,
    h: Header,
    checkpoints: &[u8],
    frames: &[u8],
) -> Taken
    requires { (HeaderReads area h checkpoints.now frames.now) × (c.at ≤ length body.now) }
    ensures { result ≡ taken_of body.now (read_parts area h (checkpoints_in h.checkpoints checkpoints.now) (frames_read h.frames frames.now) (drop c.at body.now)) }
{
    let mut last = Placed {
        part: no_part(),
        place: 0,
    };
    let mut here = c;
    for j in 0..h.parts {
        match inspect_part(here, body, area, h, checkpoints, frames, j == 0, last) {
            OnePart::Refused(k) => return Taken::Refused(k),
            OnePart::Part(next, d) => {
                last = next;
                here = d;
            }
        }
    }
    Taken::Behind(here)
}

// ---- malformed LSNs
// How many of n records of w bytes lie in left bytes.
fn there(n: usize, left: usize, w: usize) -> usize
    requires { 0 < w }
    ensures { (result ≤ n) × (result * w ≤ left) × (result < n → left < result * w + w) }
{
    n.min(left / w)
}

// 20 or 35, or the cursor behind the malformed LSNs, which are below front.
pub fn inspect_lsns(c: Cursor, body: &[u8], area: Area, h: Header, front: u64) -> Taken
    requires { c.at ≤ length body.now }
    ensures { result ≡ taken_of body.now (read_lsns area h front (drop c.at body.now)) }
{
    let m = h.malformed as usize;
    let b = behind(body, c.at);
    let some = there(m, b.len(), 4);
    if !check_lsns(b, some, area, front) {
        return Taken::Refused(35);
    }
    if some < m {
        return Taken::Refused(20);
    }
    Taken::Behind(c.past(m * 4))
}
