// Calls for C on disc files.
ghost use Rattle.std.specs.Prelude.{◌≡◌};
ghost use Rattle.blocks.specs.Calls.{called, given_area};
ghost use Rattle.player_disc.specs.PlayerDisc.{disc_contents_call, disc_sizes_call, called_disc, disc_load_call_as, disc_length_call, disc_length_both_call, disc_save_call_as, disc_save_both_call_as};
ghost use Rattle.tables.specs.Index.{tables};
ghost use Rattle.player_disc.specs.Block.{called_lists};

// ---- what a disc file holds
// Whether there is a list of each slot, and where its file lies.
#[unsafe(no_mangle)]
pub extern "C" fn seek_raw_disc_contents(file: &[u8], answer: &mut [u8]) -> u32
    ensures { called result answer.new
        ≡ disc_contents_call answer.old file.now }
{
    player_disc::seek_raw_disc_contents(file, answer)
}

// The bytes of each table of both slots, for a disc file and a load limit.
#[unsafe(no_mangle)]
pub extern "C" fn seek_raw_disc_sizes(
    slot0: u8,
    channels0: u8,
    key_start0: u32,
    key_end0: u32,
    sectors0: u64,
    start0: u64,
    end0: u64,
    slot1: u8,
    channels1: u8,
    key_start1: u32,
    key_end1: u32,
    sectors1: u64,
    start1: u64,
    end1: u64,
    file: &[u8],
    limit: u64,
    answer: &mut [u8],
) -> u32
    ensures { called result answer.new
        ≡ disc_sizes_call answer.old
        (given_area slot0 channels0 key_start0 key_end0 sectors0 start0 end0)
        (given_area slot1 channels1 key_start1 key_end1 sectors1 start1 end1) file.now limit }
{
    player_disc::seek_raw_disc_sizes(
        slot0, channels0, key_start0, key_end0, sectors0, start0, end0, slot1, channels1,
        key_start1, key_end1, sectors1, start1, end1, file, limit, answer,
    )
}

// The lists of a disc file, limited, each into the tables of its slot. The answer says which are there.
#[unsafe(no_mangle)]
pub extern "C" fn seek_raw_disc_load(
    role: u32,
    head: &mut [u8],
    other: &mut [u8],
    slot0: u8,
    channels0: u8,
    key_start0: u32,
    key_end0: u32,
    sectors0: u64,
    start0: u64,
    end0: u64,
    slot1: u8,
    channels1: u8,
    key_start1: u32,
    key_end1: u32,
    sectors1: u64,
    start1: u64,
    end1: u64,
    file: &[u8],
    limit: u64,
    answer: &mut [u8],
    checkpoints: &mut [u8],
    frames: &mut [u8],
    store: &mut [u8],
    parts: &mut [u8],
    malformed: &mut [u8],
    hints: &mut [u8],
    confirmed: &mut [u8],
    other_checkpoints: &mut [u8],
    other_frames: &mut [u8],
    other_store: &mut [u8],
    other_parts: &mut [u8],
    other_malformed: &mut [u8],
    other_hints: &mut [u8],
    other_confirmed: &mut [u8],
) -> u32
    ensures { called_disc (called_lists result head.new other.new answer.new)
        (tables checkpoints.new frames.new store.new parts.new
        malformed.new hints.new confirmed.new)
        (tables other_checkpoints.new other_frames.new other_store.new
        other_parts.new other_malformed.new other_hints.new
        other_confirmed.new)
        ≡ disc_load_call_as role head.old other.old
        (given_area slot0 channels0 key_start0 key_end0 sectors0 start0 end0)
        (given_area slot1 channels1 key_start1 key_end1 sectors1 start1 end1) file.now limit
        answer.old
        (tables checkpoints.old frames.old store.old parts.old
        malformed.old hints.old confirmed.old)
        (tables other_checkpoints.old other_frames.old
        other_store.old other_parts.old other_malformed.old
        other_hints.old other_confirmed.old) }
{
    player_disc::seek_raw_disc_load(
        role,
        head,
        other,
        slot0,
        channels0,
        key_start0,
        key_end0,
        sectors0,
        start0,
        end0,
        slot1,
        channels1,
        key_start1,
        key_end1,
        sectors1,
        start1,
        end1,
        file,
        limit,
        answer,
        checkpoints,
        frames,
        store,
        parts,
        malformed,
        hints,
        confirmed,
        other_checkpoints,
        other_frames,
        other_store,
        other_parts,
        other_malformed,
        other_hints,
        other_confirmed,
    )
}

// ---- saving
// The length that saving one list will write, or the refusal number.
#[unsafe(no_mangle)]
pub extern "C" fn seek_raw_disc_saved_length(
    head: &[u8],
    checkpoints: &[u8],
    frames: &[u8],
    store: &[u8],
    parts: &[u8],
    malformed: &[u8],
    hints: &[u8],
    confirmed: &[u8],
) -> u64
    ensures { result
        ≡ disc_length_call head.now
        (tables checkpoints.now frames.now store.now parts.now
        malformed.now hints.now confirmed.now) }
{
    player_disc::seek_raw_disc_saved_length(
        head,
        checkpoints,
        frames,
        store,
        parts,
        malformed,
        hints,
        confirmed,
    )
}

// The length that saving both lists will write, or the refusal number.
#[unsafe(no_mangle)]
pub extern "C" fn seek_raw_disc_saved_length_both(
    head: &[u8],
    other: &[u8],
    checkpoints: &[u8],
    frames: &[u8],
    store: &[u8],
    parts: &[u8],
    malformed: &[u8],
    hints: &[u8],
    confirmed: &[u8],
    other_checkpoints: &[u8],
    other_frames: &[u8],
    other_store: &[u8],
    other_parts: &[u8],
    other_malformed: &[u8],
    other_hints: &[u8],
    other_confirmed: &[u8],
) -> u64
    ensures { result
        ≡ disc_length_both_call head.now other.now
        (tables checkpoints.now frames.now store.now parts.now
        malformed.now hints.now confirmed.now)
        (tables other_checkpoints.now other_frames.now
        other_store.now other_parts.now other_malformed.now
        other_hints.now other_confirmed.now) }
{
    player_disc::seek_raw_disc_saved_length_both(
        head,
        other,
        checkpoints,
        frames,
        store,
        parts,
        malformed,
        hints,
        confirmed,
        other_checkpoints,
        other_frames,
        other_store,
        other_parts,
        other_malformed,
        other_hints,
        other_confirmed,
    )
}

// Writes the disc file of one list. The length, or the refusal number.
#[unsafe(no_mangle)]
pub extern "C" fn seek_raw_disc_save(
    role: u32,
    head: &[u8],
    checkpoints: &[u8],
    frames: &[u8],
    store: &[u8],
    parts: &[u8],
    malformed: &[u8],
    hints: &[u8],
    confirmed: &[u8],
    out: &mut [u8],
) -> u64
    ensures { called result out.new
        ≡ disc_save_call_as role head.now
        (tables checkpoints.now frames.now store.now parts.now
        malformed.now hints.now confirmed.now)
        out.old }
{
    player_disc::seek_raw_disc_save(
        role,
        head,
        checkpoints,
        frames,
        store,
        parts,
        malformed,
        hints,
        confirmed,
        out,
    )
}

// Writes the disc file of two lists, whichever is given first. The length, or the refusal number.
#[unsafe(no_mangle)]
pub extern "C" fn seek_raw_disc_save_both(
    role: u32,
    head: &[u8],
    other: &[u8],
    checkpoints: &[u8],
    frames: &[u8],
    store: &[u8],
    parts: &[u8],
    malformed: &[u8],
    hints: &[u8],
    confirmed: &[u8],
    other_checkpoints: &[u8],
    other_frames: &[u8],
    other_store: &[u8],
    other_parts: &[u8],
    other_malformed: &[u8],
    other_hints: &[u8],
    other_confirmed: &[u8],
    out: &mut [u8],
) -> u64
    ensures { called result out.new
        ≡ disc_save_both_call_as role head.now other.now
        (tables checkpoints.now frames.now store.now parts.now
        malformed.now hints.now confirmed.now)
        (tables other_checkpoints.now other_frames.now
        other_store.now other_parts.now other_malformed.now
        other_hints.now other_confirmed.now)
        out.old }
{
    player_disc::seek_raw_disc_save_both(
        role,
        head,
        other,
        checkpoints,
        frames,
        store,
        parts,
        malformed,
        hints,
        confirmed,
        other_checkpoints,
        other_frames,
        other_store,
        other_parts,
        other_malformed,
        other_hints,
        other_confirmed,
        out,
    )
}
