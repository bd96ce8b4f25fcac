// What the player's C program calls for hints and confirmations: each call over blocks and lent tables, answered by a number.
ghost use Rattle.std.specs.Prelude.{◌≡◌};
ghost use Rattle.tables.specs.Index.{tables};
ghost use Rattle.confirmations.specs.Confirmations.{given};
ghost use Rattle.blocks.specs.Calls.{called};
ghost use Rattle.player_record.specs.Block.{called_both};
ghost use Rattle.player_record.specs.PlayerRecord.{called_list, called_kept, called_tables, hint_recorder_call, see_call, flush_call, take_call, keep_call, keep_hint_call, hint_call};

use crate::block::{made_number, put_created, put_hint, put_kept, put_saw, put_seen, put_taken};
use blocks::HEAD_BYTES;
use blocks::calls::{hint_recorder_in, index_in};
use blocks::read::{is_hint_recorder, is_index};
use tables::lent::Tables;

// The hint recorder of a list, into its block; 24 words of 0 where there is none.
pub fn seek_raw_hint_recorder(
    head: &[u8],
    block: &mut [u8],
    checkpoints: &[u8],
    frames: &[u8],
    store: &[u8],
    parts: &[u8],
    malformed: &[u8],
    hints: &[u8],
    confirmed: &[u8],
) -> u32
    ensures { called result block.new
        ≡ hint_recorder_call head.now block.old
        (tables checkpoints.now frames.now store.now parts.now
        malformed.now hints.now confirmed.now) }
{
    if !is_index(head) {
        return 3;
    }
    if block.len() < HEAD_BYTES {
        return 3;
    }
    let x = index_in(head);
    let made = hint_recorder::hint_recorder(
        x,
        &Tables {
            checkpoints,
            frames,
            store,
            parts,
            malformed,
            hints,
            confirmed,
        },
    );
    put_created(block, made)
}

// A sector seen at an LSN: words 7 to 10 of the block tell its first record.
pub fn seek_raw_see(block: &mut [u8], lsn: u64, sector: &[u8], list: &mut [u8]) -> u32
    ensures { called_list result block.new list.new
        ≡ see_call block.old lsn sector.now list.old }
{
    if !is_hint_recorder(block) {
        return 3;
    }
    let r = hint_recorder_in(block);
    let saw = hint_recorder::see(r, lsn, sector, list);
    put_saw(block, saw)
}

// The tail listed.
pub fn seek_raw_flush(block: &mut [u8], list: &mut [u8]) -> u32
    ensures { called_list result block.new list.new
        ≡ flush_call block.old list.old }
{
    if !is_hint_recorder(block) {
        return 3;
    }
    let r = hint_recorder_in(block);
    let made = hint_recorder::flush(r, list);
    put_seen(block, made)
}

// The list taken: how many hints of its table is the answer's first word.
pub fn seek_raw_take(block: &mut [u8], answer: &mut [u8], list: &[u8]) -> u32
    ensures { called_both result block.new answer.new
        ≡ take_call block.old answer.old list.now }
{
    if !is_hint_recorder(block) {
        return 3;
    }
    if answer.len() < HEAD_BYTES {
        return 3;
    }
    let r = hint_recorder_in(block);
    let taken = hint_recorder::take(r, list);
    put_taken(block, answer, taken)
}

// A confirmation kept by its rule: the answer's first word is 1, or 0 where nothing is kept.
pub fn seek_raw_keep_confirmation(
    head: &mut [u8],
    lsn: u64,
    threshold: u32,
    digest: u64,
    answer: &mut [u8],
    checkpoints: &[u8],
    frames: &[u8],
    store: &[u8],
    parts: &[u8],
    malformed: &[u8],
    hints: &[u8],
    confirmed: &mut [u8],
) -> u32
    ensures { called_kept result head.new answer.new
        (tables checkpoints.now frames.now store.now parts.now
        malformed.now hints.now confirmed.new)
        ≡ keep_call head.old (given lsn threshold digest) answer.old
        (tables checkpoints.now frames.now store.now parts.now
        malformed.now hints.now confirmed.old) }
{
    if !is_index(head) {
        return 3;
    }
    if answer.len() < HEAD_BYTES {
        return 3;
    }
    let x = index_in(head);
    let kept = confirmations::keep_confirmation(
        x,
        lsn,
        threshold,
        digest,
        checkpoints,
        frames,
        store,
        parts,
        malformed,
        hints,
        confirmed,
    );
    put_kept(head, answer, kept)
}

// The hint with that LSN marked, so that thinning passes over it; the head is only read.
pub fn seek_raw_keep_hint(
    head: &[u8],
    lsn: u64,
    checkpoints: &[u8],
    frames: &[u8],
    store: &[u8],
    parts: &[u8],
    malformed: &[u8],
    hints: &mut [u8],
    confirmed: &[u8],
) -> u32
    ensures { called_tables result
        (tables checkpoints.now frames.now store.now parts.now
        malformed.now hints.new confirmed.now)
        ≡ keep_hint_call head.now lsn
        (tables checkpoints.now frames.now store.now parts.now
        malformed.now hints.old confirmed.now) }
{
    if !is_index(head) {
        return 3;
    }
    let x = index_in(head);
    let made = keep_hint::keep_hint(
        x,
        lsn,
        checkpoints,
        frames,
        store,
        parts,
        malformed,
        hints,
        confirmed,
    );
    made_number(made)
}

// The hint for the frames from first up to end of an area of so many frames.
pub fn seek_raw_hint(
    head: &[u8],
    first: u32,
    end: u32,
    playtime: u32,
    answer: &mut [u8],
    checkpoints: &[u8],
    frames: &[u8],
    store: &[u8],
    parts: &[u8],
    malformed: &[u8],
    hints: &[u8],
    confirmed: &[u8],
) -> u32
    ensures { called result answer.new
        ≡ hint_call head.now first end playtime answer.old
        (tables checkpoints.now frames.now store.now parts.now
        malformed.now hints.now confirmed.now) }
{
    if !is_index(head) {
        return 3;
    }
    if answer.len() < HEAD_BYTES {
        return 3;
    }
    let x = index_in(head);
    let hinted = hint::hint(
        x,
        first,
        end,
        playtime,
        &Tables {
            checkpoints,
            frames,
            store,
            parts,
            malformed,
            hints,
            confirmed,
        },
    );
    put_hint(answer, hinted)
}
