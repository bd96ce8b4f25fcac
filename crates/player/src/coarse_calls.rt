// What the player's C program calls for a coarser list from a finer one.
ghost use Rattle.std.specs.Prelude.{◌≡◌};
ghost use Rattle.tables.specs.Index.{tables};
ghost use Rattle.player.specs.Player.{called_over, coarse_call};

use crate::block::put_made;
use blocks::HEAD_BYTES;
use blocks::calls::index_in;
use blocks::read::is_index;

// The list of a head, which is only read, at a wider interval.
pub fn seek_raw_coarse(
    head: &[u8],
    interval: u32,
    coarse: &mut [u8],
    checkpoints: &[u8],
    frames: &[u8],
    store: &[u8],
    parts: &[u8],
    malformed: &[u8],
    hints: &[u8],
    confirmed: &[u8],
    coarse_checkpoints: &mut [u8],
    coarse_frames: &mut [u8],
    coarse_store: &mut [u8],
    coarse_parts: &mut [u8],
    coarse_malformed: &mut [u8],
    coarse_hints: &mut [u8],
    coarse_confirmed: &mut [u8],
) -> u32
    ensures { called_over result coarse.new
        (tables coarse_checkpoints.new coarse_frames.new
        coarse_store.new coarse_parts.new coarse_malformed.new
        coarse_hints.new coarse_confirmed.new)
        ≡ coarse_call head.now interval coarse.old
        (tables checkpoints.now frames.now store.now parts.now
        malformed.now hints.now confirmed.now)
        (tables coarse_checkpoints.old coarse_frames.old
        coarse_store.old coarse_parts.old coarse_malformed.old
        coarse_hints.old coarse_confirmed.old) }
{
    if !is_index(head) {
        return 3;
    }
    if coarse.len() < HEAD_BYTES {
        return 3;
    }
    let x = index_in(head);
    let made = coarsen::coarse(
        x,
        interval,
        checkpoints,
        frames,
        store,
        parts,
        malformed,
        hints,
        confirmed,
        coarse_checkpoints,
        coarse_frames,
        coarse_store,
        coarse_parts,
        coarse_malformed,
        coarse_hints,
        coarse_confirmed,
    );
    put_made(coarse, made)
}
