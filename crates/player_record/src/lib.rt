// What the player's C program calls for recorders, hints and confirmations: each call over blocks and lent tables, answered by a number.
#![tactic(auto)]

mod block;
pub mod hint_calls;

ghost use Rattle.std.specs.Prelude.{◌≡◌};
ghost use Rattle.blocks.specs.Blocks.{image_read};
ghost use Rattle.tables.specs.Index.{tables};
ghost use Rattle.tables.specs.Recorder.{recorder_tables};
ghost use Rattle.blocks.specs.Calls.{called};
ghost use Rattle.player_record.specs.Block.{frame_from};
ghost use Rattle.player_record.specs.PlayerRecord.{called_four, end_state, recorder_call, record_call, finish_call, due_call, boundary_call, frontier_call, called_absorbed, absorb_call};

use crate::block::{
    frame_from, image_given, put_absorbed, put_boundary, put_frontier, put_recorded,
};
use blocks::HEAD_BYTES;
use blocks::calls::{index_in, recorder_in};
use blocks::read::{is_index, is_recorder};
use rules::EndState;
use tables::lent::{RecorderTables, RecorderTablesMut, Tables};

// The recorder of a list, from an LSN on, into its block.
pub fn seek_raw_recorder(
    head: &[u8],
    from: u64,
    block: &mut [u8],
    checkpoints: &[u8],
    frames: &[u8],
    store: &[u8],
    parts: &[u8],
    malformed: &[u8],
    hints: &[u8],
    confirmed: &[u8],
) -> u32
    ensures { called result block.new
        ≡ recorder_call head.now from block.old
        (tables checkpoints.now frames.now store.now parts.now
        malformed.now hints.now confirmed.now) }
{
    if !is_index(head) {
        return 3;
    }
    if block.len() < HEAD_BYTES {
        return 3;
    }
    let x = index_in(head);
    let t = Tables {
        checkpoints,
        frames,
        store,
        parts,
        malformed,
        hints,
        confirmed,
    };
    let made = recorder::recorder(x, from, &t);
    put_recorded(block, made)
}

// A checkpoint at the due LSN; mark, start, number, kind, remaining and bytes are those of the frame under assembly.
pub fn seek_raw_record(
    block: &mut [u8],
    lsn: u64,
    threshold: u32,
    malformed: u64,
    mark: u8,
    start: u64,
    number: u32,
    kind: u8,
    remaining: i32,
    bytes: &[u8],
    sector: &[u8],
    checkpoints: &mut [u8],
    frames: &mut [u8],
    store: &mut [u8],
    parts: &mut [u8],
) -> u32
    ensures { called_four result block.new
        (recorder_tables checkpoints.new frames.new store.new
        parts.new)
        ≡ record_call block.old lsn threshold malformed
        (frame_from mark start number kind remaining) bytes.now sector.now
        (recorder_tables checkpoints.old frames.old store.old
        parts.old) }
{
    if !is_recorder(block) {
        return 3;
    }
    let r = recorder_in(block);
    let frame = frame_from(mark, start, number, kind, remaining);
    let mut t = RecorderTablesMut {
        checkpoints,
        frames,
        store,
        parts,
    };
    let made = recorder::record::record(r, lsn, threshold, malformed, frame, bytes, sector, &mut t);
    put_recorded(block, made)
}

// The end state of a recorder that passed every boundary.
pub fn seek_raw_finish(
    block: &mut [u8],
    threshold: u32,
    malformed: u64,
    checkpoints: &[u8],
    frames: &[u8],
    store: &[u8],
    parts: &[u8],
) -> u32
    ensures { called result block.new
        ≡ finish_call block.old (end_state threshold malformed)
        (recorder_tables checkpoints.now frames.now store.now
        parts.now) }
{
    if !is_recorder(block) {
        return 3;
    }
    let r = recorder_in(block);
    let e = EndState {
        threshold,
        malformed,
    };
    let t = RecorderTables {
        checkpoints,
        frames,
        store,
        parts,
    };
    let made = recorder::finish(r, e, &t);
    put_recorded(block, made)
}

// The due LSN of a recorder, from its block alone.
pub fn seek_raw_due(block: &[u8], answer: &mut [u8]) -> u32
    ensures { called result answer.new ≡ due_call block.now answer.old }
{
    if !is_recorder(block) {
        return 3;
    }
    if answer.len() < HEAD_BYTES {
        return 3;
    }
    let r = recorder_in(block);
    let due = recorder::boundary::due_lsn(r);
    put_boundary(answer, due)
}

// The LSN of a list's checkpoint by its number, from its head alone.
pub fn seek_raw_boundary(head: &[u8], number: u32, answer: &mut [u8]) -> u32
    ensures { called result answer.new
        ≡ boundary_call head.now number answer.old }
{
    if !is_index(head) {
        return 3;
    }
    if answer.len() < HEAD_BYTES {
        return 3;
    }
    let x = index_in(head);
    let lsn = recorder::boundary::checkpoint_lsn(x, number);
    put_boundary(answer, lsn)
}

// How far a list reaches, from its head alone.
pub fn seek_raw_frontier(head: &[u8], answer: &mut [u8]) -> u32
    ensures { called result answer.new ≡ frontier_call head.now answer.old }
{
    if !is_index(head) {
        return 3;
    }
    if answer.len() < HEAD_BYTES {
        return 3;
    }
    let x = index_in(head);
    let lsn = index::frontier(x);
    put_frontier(answer, lsn)
}

// The version of the library, as SEEK_VERSION in include/seek.h.
pub fn seek_raw_version() -> u32
    ensures { result ≡ 20000 }
{
    20000
}

// Absorbs a recorder's stretch; mark and image are the image id of the reading, given its malformed LSNs, 4 bytes each. 8 stops the recorder.
pub fn seek_raw_absorb(
    head: &mut [u8],
    block: &mut [u8],
    mark: u8,
    image: u64,
    given: &[u8],
    checkpoints: &mut [u8],
    frames: &mut [u8],
    store: &mut [u8],
    parts: &mut [u8],
    malformed: &mut [u8],
    hints: &[u8],
    confirmed: &[u8],
    new_checkpoints: &[u8],
    new_frames: &[u8],
    new_store: &[u8],
    new_parts: &[u8],
) -> u32
    ensures { called_absorbed result head.new block.new
        (tables checkpoints.new frames.new store.new parts.new
        malformed.new hints.now confirmed.now)
        ≡ absorb_call head.old block.old (image_read mark image) given.now
        (tables checkpoints.old frames.old store.old parts.old
        malformed.old hints.now confirmed.now)
        (recorder_tables new_checkpoints.now new_frames.now
        new_store.now new_parts.now) }
{
    if !is_index(head) {
        return 3;
    }
    if !is_recorder(block) {
        return 3;
    }
    let x = index_in(head);
    let r = recorder_in(block);
    let id = image_given(mark, image);
    let u = RecorderTables {
        checkpoints: new_checkpoints,
        frames: new_frames,
        store: new_store,
        parts: new_parts,
    };
    let made = absorb::absorb(
        x,
        r,
        id,
        given,
        checkpoints,
        frames,
        store,
        parts,
        malformed,
        hints,
        confirmed,
        &u,
    );
    put_absorbed(head, block, made)
}
