// Loading into lent tables: from_bytes.
#![tactic(auto)]

pub mod limit;
mod places;

ghost use Rattle.std.specs.Prelude.{◌≡◌, ◌+◌, ◌*◌, ◌≤◌, min, ◌++◌, length, take, drop};
ghost use Rattle.field.specs.Records.{bytes_of};
ghost use Rattle.rules.specs.Values.{used};
ghost use Rattle.rules.specs.File.{encode_frame_header, over};
ghost use Rattle.rules.specs.Hints.{thin};
ghost use Rattle.tables.specs.Tables.{encode_kept, kept_in};
ghost use Rattle.tables.specs.Files.{place_at, frames_read};
ghost use Rattle.tables.specs.Index.{tables, store_of, tables_from, made_out};
ghost use Rattle.load.specs.Limit.{Accepts, limited_in, length_here, Moved};
ghost use Rattle.load.specs.Load.{load_in};
ghost use Rattle.load.specs.Steps.{Loadable, Decision};

use crate::limit::limited;
use crate::places::{locate, next_frame};
use field::{copy_first, copy_part, read_u32};
use index::question3;
use index::room::question1;
use inspect::{Found, Inspected, inspect};
use rules::{Area, AreaIndex, FRAME_HEADER, HEADER, Made};
use tables::behind;
use thin::thin_into;

// The refusal number, or what a file says with the numbers of its limited list, for which there is room.
#[derive(Clone, Copy)]
pub enum Decided {
    Refused(u32),
    Ready(Found, AreaIndex),
}

// ---- the tables
// The n bytes of b from at on, over the start of t.
fn commit_part(t: &mut [u8], b: &[u8], at: usize, n: usize)
    requires { (at + n ≤ length b.now) × (n ≤ length t.old) }
    ensures { t.new ≡ take n (drop at b.now) ++ drop n t.old }
{
    copy_first(t, behind(b, at), n);
}

// Frame number i of b, which begins at here, into the table of frames, and its bytes to used in the store. Answers how many.
fn move_frame(
    frames: &mut [u8],
    store: &mut [u8],
    b: &[u8],
    here: usize,
    i: usize,
    used: usize,
) -> usize
    requires { (here + 8 + length_here b.now here ≤ length b.now) × (i * 8 + 8 ≤ length frames.old) × (used + length_here b.now here ≤ length store.old) }
    ensures { Moved b.now here i used result frames.old frames.new store.old store.new }
{
    let len = read_u32(b, here + 4) as usize;
    copy_part(frames, i * FRAME_HEADER, b, here, FRAME_HEADER);
    copy_part(store, used, b, here + FRAME_HEADER, len);
    len
}

// The f frames of b from at on.
fn commit_frames(frames: &mut [u8], store: &mut [u8], b: &[u8], at: usize, f: usize)
    requires { (place_at b.now at f ≤ length b.now) × (f * 8 ≤ length frames.old) × (used (frames_read f (drop at b.now)) ≤ length store.old) }
    ensures { (frames.new ≡ over (bytes_of encode_frame_header (frames_read f (drop at b.now))) frames.old) × (store.new ≡ over (store_of (frames_read f (drop at b.now))) store.old) }
{
    let mut here = at;
    let mut used = 0;
    for i in 0..f {
        let len = move_frame(frames, store, b, here, i, used);
        here = next_frame(here, len);
        used += len;
    }
}

// The n hints of b from at on, thinned to most.
fn commit_hints(t: &mut [u8], b: &[u8], at: usize, n: usize, most: usize)
    requires { (at + n * 8 ≤ length b.now) × (min n most * 8 ≤ length t.old) }
    ensures { t.new ≡ over (bytes_of encode_kept (thin most (kept_in n (drop at b.now)))) t.old }
{
    thin_into(t, behind(b, at), n, most);
}

// The limited list of an accepted file, whose numbers are y, into tables that have room for it.
pub fn commit(
    area: Area,
    found: Found,
    y: AreaIndex,
    bytes: &[u8],
    limit: u64,
    checkpoints: &mut [u8],
    frames: &mut [u8],
    store: &mut [u8],
    parts: &mut [u8],
    malformed: &mut [u8],
    hints: &mut [u8],
    confirmed: &mut [u8],
)
    requires { Loadable area bytes.now limit found y (tables checkpoints.old frames.old store.old parts.old malformed.old hints.old confirmed.old) }
    ensures { tables checkpoints.new frames.new store.new parts.new malformed.new hints.new confirmed.new ≡ tables_from (limited_in area bytes.now limit) (tables checkpoints.old frames.old store.old parts.old malformed.old hints.old confirmed.old) }
{
    let x = found.index;
    let p = locate(
        bytes.len(),
        x.checkpoints,
        x.frames,
        found.used,
        x.parts,
        x.malformed,
        x.hints,
        x.most,
        x.confirmed,
        y.frames,
        y.parts,
        y.most,
        y.confirmed,
    );
    commit_part(checkpoints, bytes, HEADER, p.checkpoints);
    commit_frames(frames, store, bytes, p.frames_at, p.frames);
    commit_part(parts, bytes, p.parts_at, p.parts);
    commit_part(malformed, bytes, p.malformed_at, p.malformed);
    commit_hints(hints, bytes, p.hints_at, p.hints, p.most);
    commit_part(confirmed, bytes, p.confirmed_at, p.confirmed);
}

// ---- the call
// Question 3, of the limited list of an accepted file.
fn decide_room(
    area: Area,
    found: Found,
    bytes: &[u8],
    limit: u64,
    checkpoints: &[u8],
    frames: &[u8],
    store: &[u8],
    parts: &[u8],
    malformed: &[u8],
    hints: &[u8],
    confirmed: &[u8],
) -> Decided
    requires { Accepts area bytes.now found }
    ensures { Decision area bytes.now limit (tables checkpoints.now frames.now store.now parts.now malformed.now hints.now confirmed.now) result }
{
    let y = limited(area, found, bytes, limit);
    if !question3(
        y,
        checkpoints,
        frames,
        store,
        parts,
        malformed,
        hints,
        confirmed,
    ) {
        return Decided::Refused(3);
    }
    Decided::Ready(found, y)
}

// Questions 1, 20 to 38, 3.
pub fn decide(
    area: Area,
    bytes: &[u8],
    limit: u64,
    checkpoints: &[u8],
    frames: &[u8],
    store: &[u8],
    parts: &[u8],
    malformed: &[u8],
    hints: &[u8],
    confirmed: &[u8],
) -> Decided
    ensures { Decision area bytes.now limit (tables checkpoints.now frames.now store.now parts.now malformed.now hints.now confirmed.now) result }
{
    if !question1(area) {
        return Decided::Refused(1);
    }
    match inspect(area, bytes) {
        Inspected::Refused(n) => Decided::Refused(n),
        Inspected::Passed(found) => decide_room(
            area,
            found,
            bytes,
            limit,
            checkpoints,
            frames,
            store,
            parts,
            malformed,
            hints,
            confirmed,
        ),
    }
}

// The list in a file, limited, into the tables.
pub fn from_bytes(
    area: Area,
    bytes: &[u8],
    limit: u64,
    checkpoints: &mut [u8],
    frames: &mut [u8],
    store: &mut [u8],
    parts: &mut [u8],
    malformed: &mut [u8],
    hints: &mut [u8],
    confirmed: &mut [u8],
) -> Made
    ensures { made_out result (tables checkpoints.new frames.new store.new parts.new malformed.new hints.new confirmed.new) ≡ load_in area bytes.now limit (tables checkpoints.old frames.old store.old parts.old malformed.old hints.old confirmed.old) }
{
    let decided = decide(
        area,
        bytes,
        limit,
        checkpoints,
        frames,
        store,
        parts,
        malformed,
        hints,
        confirmed,
    );
    match decided {
        Decided::Refused(n) => Made::Refused(n),
        Decided::Ready(found, y) => {
            commit(
                area,
                found,
                y,
                bytes,
                limit,
                checkpoints,
                frames,
                store,
                parts,
                malformed,
                hints,
                confirmed,
            );
            Made::Index(y)
        }
    }
}
