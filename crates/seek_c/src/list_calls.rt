// Calls for C on lists.
ghost use Rattle.std.specs.Prelude.{◌≡◌};
ghost use Rattle.fnv.specs.Fnv.{fnv64};
ghost use Rattle.blocks.specs.Calls.{called, given_area};
ghost use Rattle.player.specs.Player.{first_call, sizes_call, file_area_call, file_sizes_call, new_call, called_over, load_call_as, fingerprint_call, plan_call, length_call, save_call_as, merge_call_as, adds_call, add_hints_call, fold_call, lacks_call, coarse_call, view_length_call, view_call, merge_all_call_as};
ghost use Rattle.tables.specs.Index.{tables};
ghost use Rattle.plan.specs.Plan.{lies_in};
ghost use Rattle.rules.specs.File.{bit};
ghost use Rattle.short_sum.specs.ShortSum.{fnv32};

// ---- sums, sectors and sizes
// The sum of bytes.
#[unsafe(no_mangle)]
pub extern "C" fn seek_raw_sum(bytes: &[u8]) -> u64
    ensures { result ≡ fnv64 bytes.now }
{
    player::seek_raw_sum(bytes)
}

// The first record of a sector: its number and where its three bytes lie, or why there is none.
#[unsafe(no_mangle)]
pub extern "C" fn seek_raw_first_record(sector: &[u8], answer: &mut [u8]) -> u32
    ensures { called result answer.new
        ≡ first_call answer.old sector.now }
{
    player::seek_raw_first_record(sector, answer)
}

// The bytes of each table, for a new list.
#[unsafe(no_mangle)]
pub extern "C" fn seek_raw_sizes(
    slot: u8,
    channels: u8,
    key_start: u32,
    key_end: u32,
    sectors: u64,
    start: u64,
    end: u64,
    interval: u32,
    budget: u64,
    most: u32,
    answer: &mut [u8],
) -> u32
    ensures { called result answer.new
        ≡ sizes_call answer.old (given_area slot channels key_start key_end sectors start end)
        interval budget most }
{
    player::seek_raw_sizes(
        slot, channels, key_start, key_end, sectors, start, end, interval, budget, most, answer,
    )
}

// The area that a file says it is of.
#[unsafe(no_mangle)]
pub extern "C" fn seek_raw_file_area(file: &[u8], answer: &mut [u8]) -> u32
    ensures { called result answer.new
        ≡ file_area_call answer.old file.now }
{
    player::seek_raw_file_area(file, answer)
}

// The bytes of each table, for a file and a load limit.
#[unsafe(no_mangle)]
pub extern "C" fn seek_raw_file_sizes(
    slot: u8,
    channels: u8,
    key_start: u32,
    key_end: u32,
    sectors: u64,
    start: u64,
    end: u64,
    file: &[u8],
    limit: u64,
    answer: &mut [u8],
) -> u32
    ensures { called result answer.new
        ≡ file_sizes_call answer.old
        (given_area slot channels key_start key_end sectors start end) file.now limit }
{
    player::seek_raw_file_sizes(
        slot, channels, key_start, key_end, sectors, start, end, file, limit, answer,
    )
}

// ---- lists
// A list with nothing in it; its numbers go into the head.
#[unsafe(no_mangle)]
pub extern "C" fn seek_raw_new(
    head: &mut [u8],
    slot: u8,
    channels: u8,
    key_start: u32,
    key_end: u32,
    sectors: u64,
    start: u64,
    end: u64,
    interval: u32,
    budget: u64,
    spacing: u32,
    most: u32,
    checkpoints: &[u8],
    frames: &[u8],
    store: &[u8],
    parts: &[u8],
    malformed: &[u8],
    hints: &[u8],
    confirmed: &[u8],
) -> u32
    ensures { called result head.new
        ≡ new_call head.old (given_area slot channels key_start key_end sectors start end)
        interval budget spacing most
        (tables checkpoints.now frames.now store.now parts.now
        malformed.now hints.now confirmed.now) }
{
    player::seek_raw_new(
        head,
        slot,
        channels,
        key_start,
        key_end,
        sectors,
        start,
        end,
        interval,
        budget,
        spacing,
        most,
        checkpoints,
        frames,
        store,
        parts,
        malformed,
        hints,
        confirmed,
    )
}

// The list of a file, limited, into the tables.
#[unsafe(no_mangle)]
pub extern "C" fn seek_raw_load(
    role: u32,
    head: &mut [u8],
    slot: u8,
    channels: u8,
    key_start: u32,
    key_end: u32,
    sectors: u64,
    start: u64,
    end: u64,
    file: &[u8],
    limit: u64,
    checkpoints: &mut [u8],
    frames: &mut [u8],
    store: &mut [u8],
    parts: &mut [u8],
    malformed: &mut [u8],
    hints: &mut [u8],
    confirmed: &mut [u8],
) -> u32
    ensures { called_over result head.new
        (tables checkpoints.new frames.new store.new parts.new
        malformed.new hints.new confirmed.new)
        ≡ load_call_as role head.old
        (given_area slot channels key_start key_end sectors start end) file.now limit
        (tables checkpoints.old frames.old store.old parts.old
        malformed.old hints.old confirmed.old) }
{
    player::seek_raw_load(
        role,
        head,
        slot,
        channels,
        key_start,
        key_end,
        sectors,
        start,
        end,
        file,
        limit,
        checkpoints,
        frames,
        store,
        parts,
        malformed,
        hints,
        confirmed,
    )
}

// States the disc's fingerprint.
#[unsafe(no_mangle)]
pub extern "C" fn seek_raw_fingerprint(
    head: &mut [u8],
    value: u64,
    checkpoints: &[u8],
    frames: &[u8],
    store: &[u8],
    parts: &[u8],
    malformed: &[u8],
    hints: &[u8],
    confirmed: &[u8],
) -> u32
    ensures { called result head.new
        ≡ fingerprint_call head.old value
        (tables checkpoints.now frames.now store.now parts.now
        malformed.now hints.now confirmed.now) }
{
    player::seek_raw_fingerprint(
        head,
        value,
        checkpoints,
        frames,
        store,
        parts,
        malformed,
        hints,
        confirmed,
    )
}

// Where a jump to a frame starts.
#[unsafe(no_mangle)]
pub extern "C" fn seek_raw_plan(
    head: &[u8],
    frame: u32,
    answer: &mut [u8],
    checkpoints: &[u8],
    frames: &[u8],
    store: &[u8],
    parts: &[u8],
    malformed: &[u8],
    hints: &[u8],
    confirmed: &[u8],
) -> u32
    ensures { called result answer.new
        ≡ plan_call head.now frame answer.old
        (tables checkpoints.now frames.now store.now parts.now
        malformed.now hints.now confirmed.now) }
{
    player::seek_raw_plan(
        head,
        frame,
        answer,
        checkpoints,
        frames,
        store,
        parts,
        malformed,
        hints,
        confirmed,
    )
}

// 1 where the bytes of a held part lie in the store, at its offset; else 0.
#[unsafe(no_mangle)]
pub extern "C" fn seek_raw_part(store: &[u8], offset: u64, len: u64) -> u64
    ensures { result ≡ bit (lies_in store.now offset len) }
{
    player::seek_raw_part(store, offset, len)
}

// The length that saving will write, or the refusal number.
#[unsafe(no_mangle)]
pub extern "C" fn seek_raw_saved_length(
    head: &[u8],
    checkpoints: &[u8],
    frames: &[u8],
    store: &[u8],
    parts: &[u8],
    malformed: &[u8],
    hints: &[u8],
    confirmed: &[u8],
) -> u64
    ensures { result
        ≡ length_call head.now
        (tables checkpoints.now frames.now store.now parts.now
        malformed.now hints.now confirmed.now) }
{
    player::seek_raw_saved_length(
        head,
        checkpoints,
        frames,
        store,
        parts,
        malformed,
        hints,
        confirmed,
    )
}

// Writes the list file. The length, or the refusal number.
#[unsafe(no_mangle)]
pub extern "C" fn seek_raw_save(
    role: u32,
    head: &[u8],
    checkpoints: &[u8],
    frames: &[u8],
    store: &[u8],
    parts: &[u8],
    malformed: &[u8],
    hints: &[u8],
    confirmed: &[u8],
    out: &mut [u8],
) -> u64
    ensures { called result out.new
        ≡ save_call_as role head.now
        (tables checkpoints.now frames.now store.now parts.now
        malformed.now hints.now confirmed.now)
        out.old }
{
    player::seek_raw_save(
        role,
        head,
        checkpoints,
        frames,
        store,
        parts,
        malformed,
        hints,
        confirmed,
        out,
    )
}

// Merges the other list, which is only read, into the own one.
#[unsafe(no_mangle)]
pub extern "C" fn seek_raw_merge(
    role: u32,
    head: &mut [u8],
    other: &[u8],
    checkpoints: &mut [u8],
    frames: &mut [u8],
    store: &mut [u8],
    parts: &mut [u8],
    malformed: &mut [u8],
    hints: &mut [u8],
    confirmed: &mut [u8],
    other_checkpoints: &[u8],
    other_frames: &[u8],
    other_store: &[u8],
    other_parts: &[u8],
    other_malformed: &[u8],
    other_hints: &[u8],
    other_confirmed: &[u8],
) -> u32
    ensures { called_over result head.new
        (tables checkpoints.new frames.new store.new parts.new
        malformed.new hints.new confirmed.new)
        ≡ merge_call_as role head.old other.now
        (tables checkpoints.old frames.old store.old parts.old
        malformed.old hints.old confirmed.old)
        (tables other_checkpoints.now other_frames.now
        other_store.now other_parts.now other_malformed.now
        other_hints.now other_confirmed.now) }
{
    player::seek_raw_merge(
        role,
        head,
        other,
        checkpoints,
        frames,
        store,
        parts,
        malformed,
        hints,
        confirmed,
        other_checkpoints,
        other_frames,
        other_store,
        other_parts,
        other_malformed,
        other_hints,
        other_confirmed,
    )
}

// What merging the other list would bring.
#[unsafe(no_mangle)]
pub extern "C" fn seek_raw_adds(
    head: &[u8],
    other: &[u8],
    answer: &mut [u8],
    checkpoints: &[u8],
    frames: &[u8],
    store: &[u8],
    parts: &[u8],
    malformed: &[u8],
    hints: &[u8],
    confirmed: &[u8],
    other_checkpoints: &[u8],
    other_frames: &[u8],
    other_store: &[u8],
    other_parts: &[u8],
    other_malformed: &[u8],
    other_hints: &[u8],
    other_confirmed: &[u8],
) -> u32
    ensures { called result answer.new
        ≡ adds_call head.now other.now answer.old
        (tables checkpoints.now frames.now store.now parts.now
        malformed.now hints.now confirmed.now)
        (tables other_checkpoints.now other_frames.now
        other_store.now other_parts.now other_malformed.now
        other_hints.now other_confirmed.now) }
{
    player::seek_raw_adds(
        head,
        other,
        answer,
        checkpoints,
        frames,
        store,
        parts,
        malformed,
        hints,
        confirmed,
        other_checkpoints,
        other_frames,
        other_store,
        other_parts,
        other_malformed,
        other_hints,
        other_confirmed,
    )
}

// Adds hints, 8 bytes each.
#[unsafe(no_mangle)]
pub extern "C" fn seek_raw_add_hints(
    head: &mut [u8],
    list: &[u8],
    checkpoints: &[u8],
    frames: &[u8],
    store: &[u8],
    parts: &[u8],
    malformed: &[u8],
    hints: &mut [u8],
    confirmed: &[u8],
) -> u32
    ensures { called_over result head.new
        (tables checkpoints.now frames.now store.now parts.now
        malformed.now hints.new confirmed.now)
        ≡ add_hints_call head.old list.now
        (tables checkpoints.now frames.now store.now parts.now
        malformed.now hints.old confirmed.now) }
{
    player::seek_raw_add_hints(
        head,
        list,
        checkpoints,
        frames,
        store,
        parts,
        malformed,
        hints,
        confirmed,
    )
}

// The short sum of bytes.
#[unsafe(no_mangle)]
pub extern "C" fn seek_raw_sum32(bytes: &[u8]) -> u32
    ensures { result ≡ fnv32 bytes.now }
{
    player::sums::seek_raw_sum32(bytes)
}

// A 32-bit sum folded to k bits.
#[unsafe(no_mangle)]
pub extern "C" fn seek_raw_fold32(sum: u32, k: u32, answer: &mut [u8]) -> u32
    ensures { called result answer.new ≡ fold_call 32 k sum answer.old }
{
    player::sums::seek_raw_fold32(sum, k, answer)
}

// A 64-bit sum folded to k bits.
#[unsafe(no_mangle)]
pub extern "C" fn seek_raw_fold64(sum: u64, k: u32, answer: &mut [u8]) -> u32
    ensures { called result answer.new ≡ fold_call 64 k sum answer.old }
{
    player::sums::seek_raw_fold64(sum, k, answer)
}

// What the other list holds and the own one does not.
#[unsafe(no_mangle)]
pub extern "C" fn seek_raw_lacks(
    head: &[u8],
    other: &[u8],
    answer: &mut [u8],
    checkpoints: &[u8],
    frames: &[u8],
    store: &[u8],
    parts: &[u8],
    malformed: &[u8],
    hints: &[u8],
    confirmed: &[u8],
    other_checkpoints: &[u8],
    other_frames: &[u8],
    other_store: &[u8],
    other_parts: &[u8],
    other_malformed: &[u8],
    other_hints: &[u8],
    other_confirmed: &[u8],
) -> u32
    ensures { called result answer.new
        ≡ lacks_call head.now other.now answer.old
        (tables checkpoints.now frames.now store.now parts.now
        malformed.now hints.now confirmed.now)
        (tables other_checkpoints.now other_frames.now
        other_store.now other_parts.now other_malformed.now
        other_hints.now other_confirmed.now) }
{
    player::lacks_calls::seek_raw_lacks(
        head,
        other,
        answer,
        checkpoints,
        frames,
        store,
        parts,
        malformed,
        hints,
        confirmed,
        other_checkpoints,
        other_frames,
        other_store,
        other_parts,
        other_malformed,
        other_hints,
        other_confirmed,
    )
}

// The list of a head, which is only read, at a wider interval.
#[unsafe(no_mangle)]
pub extern "C" fn seek_raw_coarse(
    head: &[u8],
    interval: u32,
    coarse: &mut [u8],
    checkpoints: &[u8],
    frames: &[u8],
    store: &[u8],
    parts: &[u8],
    malformed: &[u8],
    hints: &[u8],
    confirmed: &[u8],
    coarse_checkpoints: &mut [u8],
    coarse_frames: &mut [u8],
    coarse_store: &mut [u8],
    coarse_parts: &mut [u8],
    coarse_malformed: &mut [u8],
    coarse_hints: &mut [u8],
    coarse_confirmed: &mut [u8],
) -> u32
    ensures { called_over result coarse.new
        (tables coarse_checkpoints.new coarse_frames.new
        coarse_store.new coarse_parts.new coarse_malformed.new
        coarse_hints.new coarse_confirmed.new)
        ≡ coarse_call head.now interval coarse.old
        (tables checkpoints.now frames.now store.now parts.now
        malformed.now hints.now confirmed.now)
        (tables coarse_checkpoints.old coarse_frames.old
        coarse_store.old coarse_parts.old coarse_malformed.old
        coarse_hints.old coarse_confirmed.old) }
{
    player::coarse_calls::seek_raw_coarse(
        head,
        interval,
        coarse,
        checkpoints,
        frames,
        store,
        parts,
        malformed,
        hints,
        confirmed,
        coarse_checkpoints,
        coarse_frames,
        coarse_store,
        coarse_parts,
        coarse_malformed,
        coarse_hints,
        coarse_confirmed,
    )
}

// The length that a view will have, or the refusal number.
#[unsafe(no_mangle)]
pub extern "C" fn seek_raw_view_length(
    role: u32,
    head: &[u8],
    checkpoints: &[u8],
    frames: &[u8],
    store: &[u8],
    parts: &[u8],
    malformed: &[u8],
    hints: &[u8],
    confirmed: &[u8],
) -> u64
    ensures { result
        ≡ view_length_call role head.now
        (tables checkpoints.now frames.now store.now parts.now
        malformed.now hints.now confirmed.now) }
{
    player::view_calls::seek_raw_view_length(
        role,
        head,
        checkpoints,
        frames,
        store,
        parts,
        malformed,
        hints,
        confirmed,
    )
}

// Writes a view: 1 the listener's, 2 the workshop's. The length, or the refusal number.
#[unsafe(no_mangle)]
pub extern "C" fn seek_raw_view(
    role: u32,
    head: &[u8],
    checkpoints: &[u8],
    frames: &[u8],
    store: &[u8],
    parts: &[u8],
    malformed: &[u8],
    hints: &[u8],
    confirmed: &[u8],
    out: &mut [u8],
) -> u64
    ensures { called result out.new
        ≡ view_call role head.now
        (tables checkpoints.now frames.now store.now parts.now
        malformed.now hints.now confirmed.now)
        out.old }
{
    player::view_calls::seek_raw_view(
        role,
        head,
        checkpoints,
        frames,
        store,
        parts,
        malformed,
        hints,
        confirmed,
        out,
    )
}

// The files, end to end in one buffer, merged into the list of a head, all of them or none.
#[unsafe(no_mangle)]
pub extern "C" fn seek_raw_merge_all(
    role: u32,
    head: &mut [u8],
    lengths: &[u8],
    files: &[u8],
    limit: u64,
    checkpoints: &mut [u8],
    frames: &mut [u8],
    store: &mut [u8],
    parts: &mut [u8],
    malformed: &mut [u8],
    hints: &mut [u8],
    confirmed: &mut [u8],
    work_checkpoints: &mut [u8],
    work_frames: &mut [u8],
    work_store: &mut [u8],
    work_parts: &mut [u8],
    work_malformed: &mut [u8],
    work_hints: &mut [u8],
    work_confirmed: &mut [u8],
) -> u32
    ensures { called_over result head.new
        (tables checkpoints.new frames.new store.new parts.new
        malformed.new hints.new confirmed.new)
        ≡ merge_all_call_as role head.old lengths.now files.now limit
        (tables checkpoints.old frames.old store.old parts.old
        malformed.old hints.old confirmed.old)
        (tables work_checkpoints.old work_frames.old work_store.old
        work_parts.old work_malformed.old work_hints.old
        work_confirmed.old) }
{
    player::drawer_calls::seek_raw_merge_all(
        role,
        head,
        lengths,
        files,
        limit,
        checkpoints,
        frames,
        store,
        parts,
        malformed,
        hints,
        confirmed,
        work_checkpoints,
        work_frames,
        work_store,
        work_parts,
        work_malformed,
        work_hints,
        work_confirmed,
    )
}
