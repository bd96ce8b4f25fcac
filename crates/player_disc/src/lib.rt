// What the player's C program calls for disc files: each call over blocks and lent tables, answered by a number.
#![tactic(auto)]

mod block;

ghost use Rattle.std.specs.Prelude.{◌≡◌};
ghost use Rattle.tables.specs.Index.{tables};
ghost use Rattle.blocks.specs.Calls.{called, given_area};
ghost use Rattle.player_disc.specs.Block.{called_lists};
ghost use Rattle.player_disc.specs.PlayerDisc.{disc_contents_call, disc_sizes_call, disc_length_call, disc_length_both_call, disc_save_call_as, disc_save_both_call_as, called_disc, disc_load_call_as};

use crate::block::{put_contents, put_disc_sizes, put_loaded};
use blocks::HEAD_BYTES;
use blocks::calls::{area_from, index_in, saved_number};
use blocks::read::is_index;
use tables::lent::Tables;
use view::is_workshop;

// ---- what a disc file holds
// Whether there is a list of each slot, and where its file lies.
pub fn seek_raw_disc_contents(file: &[u8], answer: &mut [u8]) -> u32
    ensures { called result answer.new
        ≡ disc_contents_call answer.old file.now }
{
    if answer.len() < HEAD_BYTES {
        return 3;
    }
    let contents = disc_load::contents::read_contents(file);
    put_contents(answer, contents)
}

// The bytes of each table of both slots, for a disc file and a load limit.
pub fn seek_raw_disc_sizes(
    slot0: u8,
    channels0: u8,
    key_start0: u32,
    key_end0: u32,
    sectors0: u64,
    start0: u64,
    end0: u64,
    slot1: u8,
    channels1: u8,
    key_start1: u32,
    key_end1: u32,
    sectors1: u64,
    start1: u64,
    end1: u64,
    file: &[u8],
    limit: u64,
    answer: &mut [u8],
) -> u32
    ensures { called result answer.new
        ≡ disc_sizes_call answer.old
        (given_area slot0 channels0 key_start0 key_end0 sectors0 start0 end0)
        (given_area slot1 channels1 key_start1 key_end1 sectors1 start1 end1) file.now limit }
{
    if answer.len() < HEAD_BYTES {
        return 3;
    }
    let area0 = area_from(
        slot0, channels0, key_start0, key_end0, sectors0, start0, end0,
    );
    let area1 = area_from(
        slot1, channels1, key_start1, key_end1, sectors1, start1, end1,
    );
    let sized = disc_load::table_sizes::disc_sizes(area0, area1, file, limit);
    put_disc_sizes(answer, sized)
}

// The lists of a disc file, limited, each into the tables of its slot. The answer says which are there.
pub fn seek_raw_disc_load(
    role: u32,
    head: &mut [u8],
    other: &mut [u8],
    slot0: u8,
    channels0: u8,
    key_start0: u32,
    key_end0: u32,
    sectors0: u64,
    start0: u64,
    end0: u64,
    slot1: u8,
    channels1: u8,
    key_start1: u32,
    key_end1: u32,
    sectors1: u64,
    start1: u64,
    end1: u64,
    file: &[u8],
    limit: u64,
    answer: &mut [u8],
    checkpoints: &mut [u8],
    frames: &mut [u8],
    store: &mut [u8],
    parts: &mut [u8],
    malformed: &mut [u8],
    hints: &mut [u8],
    confirmed: &mut [u8],
    other_checkpoints: &mut [u8],
    other_frames: &mut [u8],
    other_store: &mut [u8],
    other_parts: &mut [u8],
    other_malformed: &mut [u8],
    other_hints: &mut [u8],
    other_confirmed: &mut [u8],
) -> u32
    ensures { called_disc (called_lists result head.new other.new answer.new)
        (tables checkpoints.new frames.new store.new parts.new
        malformed.new hints.new confirmed.new)
        (tables other_checkpoints.new other_frames.new other_store.new
        other_parts.new other_malformed.new other_hints.new
        other_confirmed.new)
        ≡ disc_load_call_as role head.old other.old
        (given_area slot0 channels0 key_start0 key_end0 sectors0 start0 end0)
        (given_area slot1 channels1 key_start1 key_end1 sectors1 start1 end1) file.now limit
        answer.old
        (tables checkpoints.old frames.old store.old parts.old
        malformed.old hints.old confirmed.old)
        (tables other_checkpoints.old other_frames.old
        other_store.old other_parts.old other_malformed.old
        other_hints.old other_confirmed.old) }
{
    if !is_workshop(role) {
        return 52;
    }
    if head.len() < HEAD_BYTES {
        return 3;
    }
    if other.len() < HEAD_BYTES {
        return 3;
    }
    if answer.len() < HEAD_BYTES {
        return 3;
    }
    let area0 = area_from(
        slot0, channels0, key_start0, key_end0, sectors0, start0, end0,
    );
    let area1 = area_from(
        slot1, channels1, key_start1, key_end1, sectors1, start1, end1,
    );
    let loaded = disc_load::from_disc(
        area0,
        area1,
        file,
        limit,
        checkpoints,
        frames,
        store,
        parts,
        malformed,
        hints,
        confirmed,
        other_checkpoints,
        other_frames,
        other_store,
        other_parts,
        other_malformed,
        other_hints,
        other_confirmed,
    );
    put_loaded(head, other, answer, loaded)
}

// ---- saving
// The length that saving one list will write, or the refusal number.
pub fn seek_raw_disc_saved_length(
    head: &[u8],
    checkpoints: &[u8],
    frames: &[u8],
    store: &[u8],
    parts: &[u8],
    malformed: &[u8],
    hints: &[u8],
    confirmed: &[u8],
) -> u64
    ensures { result
        ≡ disc_length_call head.now
        (tables checkpoints.now frames.now store.now parts.now
        malformed.now hints.now confirmed.now) }
{
    if !is_index(head) {
        return 3;
    }
    let x = index_in(head);
    let length = disc_save::length::one_length(
        x,
        &Tables {
            checkpoints,
            frames,
            store,
            parts,
            malformed,
            hints,
            confirmed,
        },
    );
    saved_number(length)
}

// The length that saving both lists will write, or the refusal number.
pub fn seek_raw_disc_saved_length_both(
    head: &[u8],
    other: &[u8],
    checkpoints: &[u8],
    frames: &[u8],
    store: &[u8],
    parts: &[u8],
    malformed: &[u8],
    hints: &[u8],
    confirmed: &[u8],
    other_checkpoints: &[u8],
    other_frames: &[u8],
    other_store: &[u8],
    other_parts: &[u8],
    other_malformed: &[u8],
    other_hints: &[u8],
    other_confirmed: &[u8],
) -> u64
    ensures { result
        ≡ disc_length_both_call head.now other.now
        (tables checkpoints.now frames.now store.now parts.now
        malformed.now hints.now confirmed.now)
        (tables other_checkpoints.now other_frames.now
        other_store.now other_parts.now other_malformed.now
        other_hints.now other_confirmed.now) }
{
    if !is_index(head) {
        return 3;
    }
    if !is_index(other) {
        return 3;
    }
    let x = index_in(head);
    let y = index_in(other);
    let length = disc_save::length::both_length(
        x,
        y,
        &Tables {
            checkpoints,
            frames,
            store,
            parts,
            malformed,
            hints,
            confirmed,
        },
        &Tables {
            checkpoints: other_checkpoints,
            frames: other_frames,
            store: other_store,
            parts: other_parts,
            malformed: other_malformed,
            hints: other_hints,
            confirmed: other_confirmed,
        },
    );
    saved_number(length)
}

// Writes the disc file of one list. The length, or the refusal number.
pub fn seek_raw_disc_save(
    role: u32,
    head: &[u8],
    checkpoints: &[u8],
    frames: &[u8],
    store: &[u8],
    parts: &[u8],
    malformed: &[u8],
    hints: &[u8],
    confirmed: &[u8],
    out: &mut [u8],
) -> u64
    ensures { called result out.new
        ≡ disc_save_call_as role head.now
        (tables checkpoints.now frames.now store.now parts.now
        malformed.now hints.now confirmed.now)
        out.old }
{
    if !is_workshop(role) {
        return 52;
    }
    if !is_index(head) {
        return 3;
    }
    let x = index_in(head);
    let saved = disc_save::save_one(
        x,
        &Tables {
            checkpoints,
            frames,
            store,
            parts,
            malformed,
            hints,
            confirmed,
        },
        out,
    );
    saved_number(saved)
}

// Writes the disc file of two lists, whichever is given first. The length, or the refusal number.
pub fn seek_raw_disc_save_both(
    role: u32,
    head: &[u8],
    other: &[u8],
    checkpoints: &[u8],
    frames: &[u8],
    store: &[u8],
    parts: &[u8],
    malformed: &[u8],
    hints: &[u8],
    confirmed: &[u8],
    other_checkpoints: &[u8],
    other_frames: &[u8],
    other_store: &[u8],
    other_parts: &[u8],
    other_malformed: &[u8],
    other_hints: &[u8],
    other_confirmed: &[u8],
    out: &mut [u8],
) -> u64
    ensures { called result out.new
        ≡ disc_save_both_call_as role head.now other.now
        (tables checkpoints.now frames.now store.now parts.now
        malformed.now hints.now confirmed.now)
        (tables other_checkpoints.now other_frames.now
        other_store.now other_parts.now other_malformed.now
        other_hints.now other_confirmed.now)
        out.old }
{
    if !is_workshop(role) {
        return 52;
    }
    if !is_index(head) {
        return 3;
    }
    if !is_index(other) {
        return 3;
    }
    let x = index_in(head);
    let y = index_in(other);
    let saved = disc_save::save_both(
        x,
        y,
        &Tables {
            checkpoints,
            frames,
            store,
            parts,
            malformed,
            hints,
            confirmed,
        },
        &Tables {
            checkpoints: other_checkpoints,
            frames: other_frames,
            store: other_store,
            parts: other_parts,
            malformed: other_malformed,
            hints: other_hints,
            confirmed: other_confirmed,
        },
        out,
    );
    saved_number(saved)
}
