// Calls for C on recorders and hints.
ghost use Rattle.std.specs.Prelude.{◌≡◌};
ghost use Rattle.tables.specs.Index.{tables};
ghost use Rattle.blocks.specs.Calls.{called};
ghost use Rattle.player_record.specs.PlayerRecord.{recorder_call, called_four, record_call, end_state, finish_call, due_call, boundary_call, frontier_call, called_absorbed, absorb_call, hint_recorder_call, called_list, see_call, flush_call, take_call, called_kept, keep_call, called_tables, keep_hint_call, hint_call};
ghost use Rattle.tables.specs.Recorder.{recorder_tables};
ghost use Rattle.player_record.specs.Block.{frame_from, called_both};
ghost use Rattle.blocks.specs.Blocks.{image_read};
ghost use Rattle.confirmations.specs.Confirmations.{given};

// The recorder of a list, from an LSN on, into its block.
#[unsafe(no_mangle)]
pub extern "C" fn seek_raw_recorder(
    head: &[u8],
    from: u64,
    block: &mut [u8],
    checkpoints: &[u8],
    frames: &[u8],
    store: &[u8],
    parts: &[u8],
    malformed: &[u8],
    hints: &[u8],
    confirmed: &[u8],
) -> u32
    ensures { called result block.new
        ≡ recorder_call head.now from block.old
        (tables checkpoints.now frames.now store.now parts.now
        malformed.now hints.now confirmed.now) }
{
    player_record::seek_raw_recorder(
        head,
        from,
        block,
        checkpoints,
        frames,
        store,
        parts,
        malformed,
        hints,
        confirmed,
    )
}

// A checkpoint at the due LSN; mark, start, number, kind, remaining and bytes are those of the frame under assembly.
#[unsafe(no_mangle)]
pub extern "C" fn seek_raw_record(
    block: &mut [u8],
    lsn: u64,
    threshold: u32,
    malformed: u64,
    mark: u8,
    start: u64,
    number: u32,
    kind: u8,
    remaining: i32,
    bytes: &[u8],
    sector: &[u8],
    checkpoints: &mut [u8],
    frames: &mut [u8],
    store: &mut [u8],
    parts: &mut [u8],
) -> u32
    ensures { called_four result block.new
        (recorder_tables checkpoints.new frames.new store.new
        parts.new)
        ≡ record_call block.old lsn threshold malformed
        (frame_from mark start number kind remaining) bytes.now sector.now
        (recorder_tables checkpoints.old frames.old store.old
        parts.old) }
{
    player_record::seek_raw_record(
        block,
        lsn,
        threshold,
        malformed,
        mark,
        start,
        number,
        kind,
        remaining,
        bytes,
        sector,
        checkpoints,
        frames,
        store,
        parts,
    )
}

// The end state of a recorder that passed every boundary.
#[unsafe(no_mangle)]
pub extern "C" fn seek_raw_finish(
    block: &mut [u8],
    threshold: u32,
    malformed: u64,
    checkpoints: &[u8],
    frames: &[u8],
    store: &[u8],
    parts: &[u8],
) -> u32
    ensures { called result block.new
        ≡ finish_call block.old (end_state threshold malformed)
        (recorder_tables checkpoints.now frames.now store.now
        parts.now) }
{
    player_record::seek_raw_finish(
        block,
        threshold,
        malformed,
        checkpoints,
        frames,
        store,
        parts,
    )
}

// The due LSN of a recorder, from its block alone.
#[unsafe(no_mangle)]
pub extern "C" fn seek_raw_due(block: &[u8], answer: &mut [u8]) -> u32
    ensures { called result answer.new ≡ due_call block.now answer.old }
{
    player_record::seek_raw_due(block, answer)
}

// The LSN of a list's checkpoint by its number, from its head alone.
#[unsafe(no_mangle)]
pub extern "C" fn seek_raw_boundary(head: &[u8], number: u32, answer: &mut [u8]) -> u32
    ensures { called result answer.new
        ≡ boundary_call head.now number answer.old }
{
    player_record::seek_raw_boundary(head, number, answer)
}

// How far a list reaches, from its head alone.
#[unsafe(no_mangle)]
pub extern "C" fn seek_raw_frontier(head: &[u8], answer: &mut [u8]) -> u32
    ensures { called result answer.new ≡ frontier_call head.now answer.old }
{
    player_record::seek_raw_frontier(head, answer)
}

// The version of the library, as SEEK_VERSION in include/seek.h.
#[unsafe(no_mangle)]
pub extern "C" fn seek_raw_version() -> u32
    ensures { result ≡ 20000 }
{
    player_record::seek_raw_version()
}

// Absorbs a recorder's stretch; mark and image are the image id of the reading, given its malformed LSNs, 4 bytes each. 8 stops the recorder.
#[unsafe(no_mangle)]
pub extern "C" fn seek_raw_absorb(
    head: &mut [u8],
    block: &mut [u8],
    mark: u8,
    image: u64,
    given: &[u8],
    checkpoints: &mut [u8],
    frames: &mut [u8],
    store: &mut [u8],
    parts: &mut [u8],
    malformed: &mut [u8],
    hints: &[u8],
    confirmed: &[u8],
    new_checkpoints: &[u8],
    new_frames: &[u8],
    new_store: &[u8],
    new_parts: &[u8],
) -> u32
    ensures { called_absorbed result head.new block.new
        (tables checkpoints.new frames.new store.new parts.new
        malformed.new hints.now confirmed.now)
        ≡ absorb_call head.old block.old (image_read mark image) given.now
        (tables checkpoints.old frames.old store.old parts.old
        malformed.old hints.now confirmed.now)
        (recorder_tables new_checkpoints.now new_frames.now
        new_store.now new_parts.now) }
{
    player_record::seek_raw_absorb(
        head,
        block,
        mark,
        image,
        given,
        checkpoints,
        frames,
        store,
        parts,
        malformed,
        hints,
        confirmed,
        new_checkpoints,
        new_frames,
        new_store,
        new_parts,
    )
}

// The hint recorder of a list, into its block; 24 words of 0 where there is none.
#[unsafe(no_mangle)]
pub extern "C" fn seek_raw_hint_recorder(
    head: &[u8],
    block: &mut [u8],
    checkpoints: &[u8],
    frames: &[u8],
    store: &[u8],
    parts: &[u8],
    malformed: &[u8],
    hints: &[u8],
    confirmed: &[u8],
) -> u32
    ensures { called result block.new
        ≡ hint_recorder_call head.now block.old
        (tables checkpoints.now frames.now store.now parts.now
        malformed.now hints.now confirmed.now) }
{
    player_record::hint_calls::seek_raw_hint_recorder(
        head,
        block,
        checkpoints,
        frames,
        store,
        parts,
        malformed,
        hints,
        confirmed,
    )
}

// A sector seen at an LSN: words 7 to 10 of the block tell its first record.
#[unsafe(no_mangle)]
pub extern "C" fn seek_raw_see(block: &mut [u8], lsn: u64, sector: &[u8], list: &mut [u8]) -> u32
    ensures { called_list result block.new list.new
        ≡ see_call block.old lsn sector.now list.old }
{
    player_record::hint_calls::seek_raw_see(block, lsn, sector, list)
}

// The tail listed.
#[unsafe(no_mangle)]
pub extern "C" fn seek_raw_flush(block: &mut [u8], list: &mut [u8]) -> u32
    ensures { called_list result block.new list.new
        ≡ flush_call block.old list.old }
{
    player_record::hint_calls::seek_raw_flush(block, list)
}

// The list taken: how many hints of its table is the answer's first word.
#[unsafe(no_mangle)]
pub extern "C" fn seek_raw_take(block: &mut [u8], answer: &mut [u8], list: &[u8]) -> u32
    ensures { called_both result block.new answer.new
        ≡ take_call block.old answer.old list.now }
{
    player_record::hint_calls::seek_raw_take(block, answer, list)
}

// A confirmation kept by its rule: the answer's first word is 1, or 0 where nothing is kept.
#[unsafe(no_mangle)]
pub extern "C" fn seek_raw_keep_confirmation(
    head: &mut [u8],
    lsn: u64,
    threshold: u32,
    digest: u64,
    answer: &mut [u8],
    checkpoints: &[u8],
    frames: &[u8],
    store: &[u8],
    parts: &[u8],
    malformed: &[u8],
    hints: &[u8],
    confirmed: &mut [u8],
) -> u32
    ensures { called_kept result head.new answer.new
        (tables checkpoints.now frames.now store.now parts.now
        malformed.now hints.now confirmed.new)
        ≡ keep_call head.old (given lsn threshold digest) answer.old
        (tables checkpoints.now frames.now store.now parts.now
        malformed.now hints.now confirmed.old) }
{
    player_record::hint_calls::seek_raw_keep_confirmation(
        head,
        lsn,
        threshold,
        digest,
        answer,
        checkpoints,
        frames,
        store,
        parts,
        malformed,
        hints,
        confirmed,
    )
}

// The hint with that LSN marked, so that thinning passes over it; the head is only read.
#[unsafe(no_mangle)]
pub extern "C" fn seek_raw_keep_hint(
    head: &[u8],
    lsn: u64,
    checkpoints: &[u8],
    frames: &[u8],
    store: &[u8],
    parts: &[u8],
    malformed: &[u8],
    hints: &mut [u8],
    confirmed: &[u8],
) -> u32
    ensures { called_tables result
        (tables checkpoints.now frames.now store.now parts.now
        malformed.now hints.new confirmed.now)
        ≡ keep_hint_call head.now lsn
        (tables checkpoints.now frames.now store.now parts.now
        malformed.now hints.old confirmed.now) }
{
    player_record::hint_calls::seek_raw_keep_hint(
        head,
        lsn,
        checkpoints,
        frames,
        store,
        parts,
        malformed,
        hints,
        confirmed,
    )
}

// The hint for the frames from first up to end of an area of so many frames.
#[unsafe(no_mangle)]
pub extern "C" fn seek_raw_hint(
    head: &[u8],
    first: u32,
    end: u32,
    playtime: u32,
    answer: &mut [u8],
    checkpoints: &[u8],
    frames: &[u8],
    store: &[u8],
    parts: &[u8],
    malformed: &[u8],
    hints: &[u8],
    confirmed: &[u8],
) -> u32
    ensures { called result answer.new
        ≡ hint_call head.now first end playtime answer.old
        (tables checkpoints.now frames.now store.now parts.now
        malformed.now hints.now confirmed.now) }
{
    player_record::hint_calls::seek_raw_hint(
        head,
        first,
        end,
        playtime,
        answer,
        checkpoints,
        frames,
        store,
        parts,
        malformed,
        hints,
        confirmed,
    )
}
