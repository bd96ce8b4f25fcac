// Loading up to question 38: what a file says, from its bytes alone.
#![tactic(auto)]

mod cursor;
mod hint_sections;
mod questions;
mod scan;

ghost use Rattle.std.specs.Prelude.{◌≡◌, true, cond, ◌+◌, ◌*◌, ◌≤◌, length, drop};
ghost use Rattle.rules.specs.declared.Fingerprint.TheVariants.{Unknown, Held as Stated};
ghost use Rattle.rules.specs.Questions.{area_ok};
ghost use Rattle.rules.specs.Load.{has_fingerprint, end_number};
ghost use Rattle.tables.specs.Tables.{checkpoints_in, parts_in};
ghost use Rattle.tables.specs.Files.{frames_read};
ghost use Rattle.inspect.specs.Steps.{HeaderReads};
ghost use Rattle.inspect.specs.Inspect.{inspection};
ghost use Rattle.inspect.specs.Tails.{found_by, used_by, answered, from_confirmed, from_hints, from_malformed, from_end, from_parts, from_frames, from_checkpoints, from_body};

use crate::cursor::{Cursor, Headed, Word, cut};
use crate::hint_sections::{confirmed_section, hint_section};
use crate::questions::{body_of, end_questions, ending_of, left_over};
use crate::scan::{Taken, inspect_frames, inspect_lsns, inspect_parts};
use field::read_u64;
use fnv::fnv;
use header::questions::header_number;
use header::{has_fingerprint, read_header};
use rules::{
    Area, AreaIndex, CHECKPOINT, FRAME_HEADER, Fingerprint, HEADER, Header, HintHeader, MAGIC,
};
use sections::part_records::reached;
use sections::records::check_checkpoints;
use sections::{frontier_of, last_checkpoint};
use tables::behind;

// What an accepted file says: the numbers of its list, the bytes of all its frames, and its version.
#[derive(Clone, Copy)]
pub struct Found {
    pub index: AreaIndex,
    pub used: u64,
    pub version: u32,
}

#[derive(Clone, Copy)]
pub enum Inspected {
    Refused(u32),
    Passed(Found),
}

// ---- the numbers of what is found
fn fingerprint_of(h: Header, v: u64) -> Fingerprint
    ensures { result ≡ cond (has_fingerprint h) (Stated v) Unknown }
{
    if has_fingerprint(h) {
        Fingerprint::Held(v)
    } else {
        Fingerprint::Unknown
    }
}

fn found_by(area: Area, h: Header, used: u64, g: HintHeader, confirmed: u32) -> Found
    ensures { result ≡ found_by area h used g confirmed }
{
    Found {
        index: AreaIndex {
            area,
            interval: h.interval,
            budget: h.budget,
            spacing: g.spacing,
            most: g.most,
            checkpoints: h.checkpoints,
            frames: h.frames,
            parts: h.parts,
            malformed: h.malformed,
            hints: g.count,
            confirmed,
            ending: ending_of(h),
            fingerprint: fingerprint_of(h, g.fingerprint),
            image: None,
        },
        used,
        version: h.version,
    }
}

// 32, 34, 28 and 35, behind the parts.
fn end_number(area: Area, h: Header, checkpoints: &[u8], parts: &[u8]) -> u32
    requires { (area_ok area ≡ true) × (h.checkpoints * 24 ≤ length checkpoints.now) × (h.parts * 24 ≤ length parts.now) }
    ensures { result ≡ end_number area h (checkpoints_in h.checkpoints checkpoints.now) (parts_in h.parts parts.now) }
{
    let last = last_checkpoint(checkpoints, h.checkpoints as usize);
    let count = reached(parts, h.parts as usize);
    end_questions(area, h, last, count)
}

// ---- the sections from each one on
// The confirmations, and 38.
fn inspect_confirmed(
    area: Area,
    h: Header,
    used: u64,
    g: HintHeader,
    body: &[u8],
    c: Cursor,
) -> Inspected
    requires { c.at ≤ length body.now }
    ensures { result ≡ answered (from_confirmed area h used g (drop c.at body.now)) }
{
    match confirmed_section(c, body, area, h, g.most) {
        Word::Refused(k) => Inspected::Refused(k),
        Word::Number(count, d) => {
            if left_over(d.at, body.len()) {
                return Inspected::Refused(38);
            }
            Inspected::Passed(found_by(area, h, used, g, count))
        }
    }
}

fn inspect_hints(area: Area, h: Header, used: u64, body: &[u8], c: Cursor) -> Inspected
    requires { c.at ≤ length body.now }
    ensures { result ≡ answered (from_hints area h used (drop c.at body.now)) }
{
    match hint_section(c, body, area, h) {
        Headed::Refused(k) => Inspected::Refused(k),
        Headed::Header(g, d) => inspect_confirmed(area, h, used, g, body, d),
    }
}

// The malformed LSNs, below front.
fn inspect_malformed(
    area: Area,
    h: Header,
    used: u64,
    front: u64,
    body: &[u8],
    c: Cursor,
) -> Inspected
    requires { c.at ≤ length body.now }
    ensures { result ≡ answered (from_malformed area h used front (drop c.at body.now)) }
{
    match inspect_lsns(c, body, area, h, front) {
        Taken::Refused(k) => Inspected::Refused(k),
        Taken::Behind(d) => inspect_hints(area, h, used, body, d),
    }
}

fn inspect_end(
    area: Area,
    h: Header,
    used: u64,
    checkpoints: &[u8],
    parts: &[u8],
    body: &[u8],
    c: Cursor,
) -> Inspected
    requires { (area_ok area ≡ true) × (h.checkpoints * 24 ≤ length checkpoints.now) × (h.parts * 24 ≤ length parts.now) × (c.at ≤ length body.now) }
    ensures { result ≡ answered (from_end area h used (checkpoints_in h.checkpoints checkpoints.now) (parts_in h.parts parts.now) (drop c.at body.now)) }
{
    let number = end_number(area, h, checkpoints, parts);
    if number != 0 {
        return Inspected::Refused(number);
    }
    let front = frontier_of(area, h.interval, h.checkpoints, ending_of(h));
    inspect_malformed(area, h, used, front, body, c)
}

// The parts, of the frames, which have used bytes.
fn inspect_held(
    area: Area,
    h: Header,
    used: u64,
    checkpoints: &[u8],
    frames: &[u8],
    body: &[u8],
    c: Cursor,
) -> Inspected
    requires { (area_ok area ≡ true) × (HeaderReads area h checkpoints.now frames.now) × (used ≡ used_by h frames.now) × (c.at ≤ length body.now) }
    ensures { result ≡ answered (from_parts area h (checkpoints_in h.checkpoints checkpoints.now) (frames_read h.frames frames.now) (drop c.at body.now)) }
{
    match inspect_parts(c, body, area, h, checkpoints, frames) {
        Taken::Refused(k) => Inspected::Refused(k),
        Taken::Behind(d) => {
            let parts = behind(body, c.at);
            inspect_end(area, h, used, checkpoints, parts, body, d)
        }
    }
}

// The frames.
fn inspect_stored(area: Area, h: Header, checkpoints: &[u8], body: &[u8], c: Cursor) -> Inspected
    requires { (area_ok area ≡ true) × (h.checkpoints * 24 ≤ length checkpoints.now) × (c.at ≤ length body.now) }
    ensures { result ≡ answered (from_frames area h (checkpoints_in h.checkpoints checkpoints.now) (drop c.at body.now)) }
{
    match inspect_frames(c, body, area, h) {
        Taken::Refused(k) => Inspected::Refused(k),
        Taken::Behind(d) => {
            let frames = behind(body, c.at);
            let used = (d.at - c.at - h.frames as usize * FRAME_HEADER) as u64;
            inspect_held(area, h, used, checkpoints, frames, body, d)
        }
    }
}

// The checkpoints, cut at their count.
fn inspect_sections(area: Area, h: Header, body: &[u8]) -> Inspected
    requires { (area_ok area ≡ true) × (80 + h.checkpoints * 24 ≤ length body.now) }
    ensures { result ≡ answered (from_checkpoints area h (drop 80 body.now)) }
{
    let n = h.checkpoints as usize;
    let checkpoints = cut(&body[HEADER..], n * CHECKPOINT);
    if !check_checkpoints(checkpoints, n, h.interval, 0) {
        return Inspected::Refused(31);
    }
    let c = Cursor {
        at: HEADER + n * CHECKPOINT,
    };
    inspect_stored(area, h, checkpoints, body, c)
}

// 21 to 38: everything but the sum, which is to be sum.
fn inspect_body(area: Area, body: &[u8], sum: u64) -> Inspected
    requires { area_ok area ≡ true }
    ensures { result ≡ answered (from_body area sum body.now) }
{
    if body.len() < HEADER {
        return Inspected::Refused(21);
    }
    let h = read_header(body);
    if h.magic != MAGIC {
        return Inspected::Refused(21);
    }
    if fnv(body) != sum {
        return Inspected::Refused(22);
    }
    let number = header_number(area, h, body.len() - HEADER);
    if number != 0 {
        return Inspected::Refused(number);
    }
    inspect_sections(area, h, body)
}

// The refusal number of a file for an area, 20 to 38, or what the file says.
pub fn inspect(area: Area, bytes: &[u8]) -> Inspected
    requires { area_ok area ≡ true }
    ensures { result ≡ inspection area bytes.now }
{
    if bytes.len() < 8 {
        return Inspected::Refused(20);
    }
    inspect_body(area, body_of(bytes), read_u64(bytes, bytes.len() - 8))
}
