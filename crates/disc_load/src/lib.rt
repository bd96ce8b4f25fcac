// Loading a disc file under the areas of slots 0 and 1, each list into tables of its own: all lists or none.
#![tactic(auto)]

mod ask;
pub mod contents;
pub mod questions;
pub mod table_sizes;

ghost use Rattle.std.specs.Prelude.{◌≡◌};
ghost use Rattle.tables.specs.Index.{tables};
ghost use Rattle.disc_load.specs.Steps.{BodyLoads, held_in};
ghost use Rattle.disc_load.specs.DiscLoad.{listed_from, tables_with, disc_out, load_disc_in};

use crate::ask::{Body, Decided, decide};
use load::commit;
use rules::Area;
use rules_disc::{Listed, Loaded};

// The limited list of a body into the slot's tables, by what its questions found; an absent one leaves them.
fn commit_body(
    body: Body,
    area: Area,
    bytes: &[u8],
    limit: u64,
    checkpoints: &mut [u8],
    frames: &mut [u8],
    store: &mut [u8],
    parts: &mut [u8],
    malformed: &mut [u8],
    hints: &mut [u8],
    confirmed: &mut [u8],
) -> Listed
    requires { BodyLoads area bytes.now limit
        (tables checkpoints.old frames.old store.old parts.old malformed.old hints.old
        confirmed.old)
        body }
    ensures { (result ≡ listed_from (held_in area bytes.now limit body))
        × (tables checkpoints.new frames.new store.new parts.new
        malformed.new hints.new confirmed.new
        ≡ tables_with (held_in area bytes.now limit body)
        (tables checkpoints.old frames.old store.old parts.old
        malformed.old hints.old confirmed.old)) }
{
    match body {
        Body::Absent => Listed::Absent,
        Body::At(e, found, y) => {
            let from = e.offset as usize;
            let to = from + e.len as usize;
            commit(
                area,
                found,
                y,
                &bytes[from..to],
                limit,
                checkpoints,
                frames,
                store,
                parts,
                malformed,
                hints,
                confirmed,
            );
            Listed::Index(y)
        }
    }
}

// The lists of a disc file, limited: that of slot 0 into the first tables, that of slot 1 into the other ones.
pub fn from_disc(
    area0: Area,
    area1: Area,
    bytes: &[u8],
    limit: u64,
    checkpoints: &mut [u8],
    frames: &mut [u8],
    store: &mut [u8],
    parts: &mut [u8],
    malformed: &mut [u8],
    hints: &mut [u8],
    confirmed: &mut [u8],
    other_checkpoints: &mut [u8],
    other_frames: &mut [u8],
    other_store: &mut [u8],
    other_parts: &mut [u8],
    other_malformed: &mut [u8],
    other_hints: &mut [u8],
    other_confirmed: &mut [u8],
) -> Loaded
    ensures { disc_out result
        (tables checkpoints.new frames.new store.new parts.new
        malformed.new hints.new confirmed.new)
        (tables other_checkpoints.new other_frames.new other_store.new
        other_parts.new other_malformed.new other_hints.new
        other_confirmed.new)
        ≡ load_disc_in area0 area1 bytes.now limit
        (tables checkpoints.old frames.old store.old parts.old
        malformed.old hints.old confirmed.old)
        (tables other_checkpoints.old other_frames.old
        other_store.old other_parts.old other_malformed.old
        other_hints.old other_confirmed.old) }
{
    let decided = decide(
        area0,
        area1,
        bytes,
        limit,
        checkpoints,
        frames,
        store,
        parts,
        malformed,
        hints,
        confirmed,
        other_checkpoints,
        other_frames,
        other_store,
        other_parts,
        other_malformed,
        other_hints,
        other_confirmed,
    );
    match decided {
        Decided::Refused(n) => Loaded::Refused(n),
        Decided::Ready(first, second) => {
            let x = commit_body(
                first,
                area0,
                bytes,
                limit,
                checkpoints,
                frames,
                store,
                parts,
                malformed,
                hints,
                confirmed,
            );
            let y = commit_body(
                second,
                area1,
                bytes,
                limit,
                other_checkpoints,
                other_frames,
                other_store,
                other_parts,
                other_malformed,
                other_hints,
                other_confirmed,
            );
            Loaded::Lists(x, y)
        }
    }
}
