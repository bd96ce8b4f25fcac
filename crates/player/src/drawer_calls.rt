// What the player's C program calls for all lists of a drawer together.
ghost use Rattle.std.specs.Prelude.{◌≡◌};
ghost use Rattle.tables.specs.Index.{tables};
ghost use Rattle.player.specs.Player.{called_over, merge_all_call_as};

use crate::block::put_made;
use blocks::calls::index_in;
use blocks::read::is_index;
use drawer::merge_all;
use view::is_workshop;

// The files, end to end in one buffer, merged into the list of a head, all of them or none.
pub fn seek_raw_merge_all(
    role: u32,
    head: &mut [u8],
    lengths: &[u8],
    files: &[u8],
    limit: u64,
    checkpoints: &mut [u8],
    frames: &mut [u8],
    store: &mut [u8],
    parts: &mut [u8],
    malformed: &mut [u8],
    hints: &mut [u8],
    confirmed: &mut [u8],
    work_checkpoints: &mut [u8],
    work_frames: &mut [u8],
    work_store: &mut [u8],
    work_parts: &mut [u8],
    work_malformed: &mut [u8],
    work_hints: &mut [u8],
    work_confirmed: &mut [u8],
) -> u32
    ensures { called_over result head.new
        (tables checkpoints.new frames.new store.new parts.new
        malformed.new hints.new confirmed.new)
        ≡ merge_all_call_as role head.old lengths.now files.now limit
        (tables checkpoints.old frames.old store.old parts.old
        malformed.old hints.old confirmed.old)
        (tables work_checkpoints.old work_frames.old work_store.old
        work_parts.old work_malformed.old work_hints.old
        work_confirmed.old) }
{
    if !is_workshop(role) {
        return 52;
    }
    if !is_index(head) {
        return 3;
    }
    let x = index_in(head);
    let made = merge_all(
        x,
        lengths,
        files,
        limit,
        checkpoints,
        frames,
        store,
        parts,
        malformed,
        hints,
        confirmed,
        work_checkpoints,
        work_frames,
        work_store,
        work_parts,
        work_malformed,
        work_hints,
        work_confirmed,
    );
    put_made(head, made)
}
