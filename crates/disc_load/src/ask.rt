// The questions of a disc file and of the list files in it, asked before anything is written.
ghost use Rattle.std.specs.Prelude.{◌≡◌};
ghost use Rattle.disc_load.specs.Steps.{Inside, BodyDecision, decided_by, Located, Decision};
ghost use Rattle.tables.specs.Index.{tables};

use crate::contents::read_contents;
use crate::questions::areas_ok;
use inspect::Found;
use load::Decided as Said;
use rules::{Area, AreaIndex};
use rules_disc::{Contents, Entry, SlotEntry};

// The body of a slot, which no question refuses: the file has none, or its entry, what it says, and the numbers of its limited list.
#[derive(Clone, Copy)]
pub enum Body {
    Absent,
    At(Entry, Found, AreaIndex),
}

// What the questions of one body answer.
#[derive(Clone, Copy)]
pub enum Asked {
    Refused(u32),
    Passed(Body),
}

// The refusal number, or the bodies of slots 0 and 1.
#[derive(Clone, Copy)]
pub enum Decided {
    Refused(u32),
    Ready(Body, Body),
}

// ---- the body of a slot
// Its questions, 1, 20 to 38, 3; an absent one is not asked.
fn ask_body(
    place: SlotEntry,
    area: Area,
    bytes: &[u8],
    limit: u64,
    checkpoints: &[u8],
    frames: &[u8],
    store: &[u8],
    parts: &[u8],
    malformed: &[u8],
    hints: &[u8],
    confirmed: &[u8],
) -> Asked
    requires { Inside bytes.now place }
    ensures { BodyDecision area bytes.now limit
        (tables checkpoints.now frames.now store.now parts.now
        malformed.now hints.now confirmed.now)
        place result }
{
    match place {
        SlotEntry::Absent => Asked::Passed(Body::Absent),
        SlotEntry::At(e) => {
            let from = e.offset as usize;
            let to = from + e.len as usize;
            match load::decide(
                area,
                &bytes[from..to],
                limit,
                checkpoints,
                frames,
                store,
                parts,
                malformed,
                hints,
                confirmed,
            ) {
                Said::Refused(n) => Asked::Refused(n),
                Said::Ready(found, y) => Asked::Passed(Body::At(e, found, y)),
            }
        }
    }
}

// ---- the file
// The first failing body's own number, or both.
fn decide_by(asked: Asked, other: Asked) -> Decided
    ensures { result ≡ decided_by asked other }
{
    match asked {
        Asked::Refused(n) => Decided::Refused(n),
        Asked::Passed(first) => match other {
            Asked::Refused(n) => Decided::Refused(n),
            Asked::Passed(second) => Decided::Ready(first, second),
        },
    }
}

// The bodies of a right contents table.
fn decide_bodies(
    first: SlotEntry,
    second: SlotEntry,
    area0: Area,
    area1: Area,
    bytes: &[u8],
    limit: u64,
    checkpoints: &[u8],
    frames: &[u8],
    store: &[u8],
    parts: &[u8],
    malformed: &[u8],
    hints: &[u8],
    confirmed: &[u8],
    other_checkpoints: &[u8],
    other_frames: &[u8],
    other_store: &[u8],
    other_parts: &[u8],
    other_malformed: &[u8],
    other_hints: &[u8],
    other_confirmed: &[u8],
) -> Decided
    requires { Located area0 area1 bytes.now first second }
    ensures { Decision area0 area1 bytes.now limit
        (tables checkpoints.now frames.now store.now parts.now
        malformed.now hints.now confirmed.now)
        (tables other_checkpoints.now other_frames.now
        other_store.now other_parts.now other_malformed.now
        other_hints.now other_confirmed.now)
        result }
{
    let asked = ask_body(
        first,
        area0,
        bytes,
        limit,
        checkpoints,
        frames,
        store,
        parts,
        malformed,
        hints,
        confirmed,
    );
    let other_asked = ask_body(
        second,
        area1,
        bytes,
        limit,
        other_checkpoints,
        other_frames,
        other_store,
        other_parts,
        other_malformed,
        other_hints,
        other_confirmed,
    );
    decide_by(asked, other_asked)
}

// 1 of both areas, 54, then the bodies.
pub fn decide(
    area0: Area,
    area1: Area,
    bytes: &[u8],
    limit: u64,
    checkpoints: &[u8],
    frames: &[u8],
    store: &[u8],
    parts: &[u8],
    malformed: &[u8],
    hints: &[u8],
    confirmed: &[u8],
    other_checkpoints: &[u8],
    other_frames: &[u8],
    other_store: &[u8],
    other_parts: &[u8],
    other_malformed: &[u8],
    other_hints: &[u8],
    other_confirmed: &[u8],
) -> Decided
    ensures { Decision area0 area1 bytes.now limit
        (tables checkpoints.now frames.now store.now parts.now
        malformed.now hints.now confirmed.now)
        (tables other_checkpoints.now other_frames.now
        other_store.now other_parts.now other_malformed.now
        other_hints.now other_confirmed.now)
        result }
{
    if !areas_ok(area0, area1) {
        return Decided::Refused(1);
    }
    match read_contents(bytes) {
        Contents::Broken => Decided::Refused(54),
        Contents::Lists(first, second) => decide_bodies(
            first,
            second,
            area0,
            area1,
            bytes,
            limit,
            checkpoints,
            frames,
            store,
            parts,
            malformed,
            hints,
            confirmed,
            other_checkpoints,
            other_frames,
            other_store,
            other_parts,
            other_malformed,
            other_hints,
            other_confirmed,
        ),
    }
}
