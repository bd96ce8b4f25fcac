// What the player's C program calls for lists: each call over blocks and lent tables, answered by a number.
#![tactic(auto)]

mod block;
pub mod coarse_calls;
pub mod drawer_calls;
pub mod lacks_calls;
pub mod sums;
pub mod view_calls;

ghost use Rattle.std.specs.Prelude.{◌≡◌};
ghost use Rattle.fnv.specs.Fnv.{fnv64};
ghost use Rattle.plan.specs.Plan.{lies_in};
ghost use Rattle.rules.specs.File.{bit};
ghost use Rattle.tables.specs.Index.{tables};
ghost use Rattle.blocks.specs.Calls.{called, given_area};
ghost use Rattle.player.specs.Player.{called_over, merge_call_as, adds_call, add_hints_call, new_call, load_call_as, fingerprint_call, plan_call, save_call_as, length_call, sizes_call, file_sizes_call, file_area_call, first_call};

use crate::block::{put_area, put_brings, put_first, put_made, put_plan, put_sizes};
use blocks::HEAD_BYTES;
use blocks::calls::{area_from, bit_word, index_in, saved_number};
use blocks::read::is_index;
use tables::lent::Tables;
use view::is_workshop;

// ---- sums, sectors and sizes
// The sum of bytes.
pub fn seek_raw_sum(bytes: &[u8]) -> u64
    ensures { result ≡ fnv64 bytes.now }
{
    fnv::fnv(bytes)
}

// The first record of a sector: its number and where its three bytes lie, or why there is none.
pub fn seek_raw_first_record(sector: &[u8], answer: &mut [u8]) -> u32
    ensures { called result answer.new
        ≡ first_call answer.old sector.now }
{
    if answer.len() < HEAD_BYTES {
        return 3;
    }
    let first = first_record::first_record(sector);
    put_first(answer, first)
}

// The bytes of each table, for a new list.
pub fn seek_raw_sizes(
    slot: u8,
    channels: u8,
    key_start: u32,
    key_end: u32,
    sectors: u64,
    start: u64,
    end: u64,
    interval: u32,
    budget: u64,
    most: u32,
    answer: &mut [u8],
) -> u32
    ensures { called result answer.new
        ≡ sizes_call answer.old (given_area slot channels key_start key_end sectors start end)
        interval budget most }
{
    if answer.len() < HEAD_BYTES {
        return 3;
    }
    let area = area_from(slot, channels, key_start, key_end, sectors, start, end);
    let sized = sizes::sizes(area, interval, budget, most);
    put_sizes(answer, sized)
}

// The area that a file says it is of.
pub fn seek_raw_file_area(file: &[u8], answer: &mut [u8]) -> u32
    ensures { called result answer.new
        ≡ file_area_call answer.old file.now }
{
    if answer.len() < HEAD_BYTES {
        return 3;
    }
    let area = sizes::file_area(file);
    put_area(answer, area)
}

// The bytes of each table, for a file and a load limit.
pub fn seek_raw_file_sizes(
    slot: u8,
    channels: u8,
    key_start: u32,
    key_end: u32,
    sectors: u64,
    start: u64,
    end: u64,
    file: &[u8],
    limit: u64,
    answer: &mut [u8],
) -> u32
    ensures { called result answer.new
        ≡ file_sizes_call answer.old
        (given_area slot channels key_start key_end sectors start end) file.now limit }
{
    if answer.len() < HEAD_BYTES {
        return 3;
    }
    let area = area_from(slot, channels, key_start, key_end, sectors, start, end);
    let sized = sizes::file_sizes(area, file, limit);
    put_sizes(answer, sized)
}

// ---- lists
pub fn seek_raw_new(
    head: &mut [u8],
    slot: u8,
    channels: u8,
    key_start: u32,
    key_end: u32,
    sectors: u64,
    start: u64,
    end: u64,
    interval: u32,
    budget: u64,
    spacing: u32,
    most: u32,
    checkpoints: &[u8],
    frames: &[u8],
    store: &[u8],
    parts: &[u8],
    malformed: &[u8],
    hints: &[u8],
    confirmed: &[u8],
) -> u32
    ensures { called result head.new
        ≡ new_call head.old (given_area slot channels key_start key_end sectors start end)
        interval budget spacing most
        (tables checkpoints.now frames.now store.now parts.now
        malformed.now hints.now confirmed.now) }
{
    if head.len() < HEAD_BYTES {
        return 3;
    }
    let area = area_from(slot, channels, key_start, key_end, sectors, start, end);
    let made = index::create::new(
        area,
        interval,
        budget,
        spacing,
        most,
        checkpoints,
        frames,
        store,
        parts,
        malformed,
        hints,
        confirmed,
    );
    put_made(head, made)
}

// The list of a file, limited, into the tables.
pub fn seek_raw_load(
    role: u32,
    head: &mut [u8],
    slot: u8,
    channels: u8,
    key_start: u32,
    key_end: u32,
    sectors: u64,
    start: u64,
    end: u64,
    file: &[u8],
    limit: u64,
    checkpoints: &mut [u8],
    frames: &mut [u8],
    store: &mut [u8],
    parts: &mut [u8],
    malformed: &mut [u8],
    hints: &mut [u8],
    confirmed: &mut [u8],
) -> u32
    ensures { called_over result head.new
        (tables checkpoints.new frames.new store.new parts.new
        malformed.new hints.new confirmed.new)
        ≡ load_call_as role head.old
        (given_area slot channels key_start key_end sectors start end) file.now limit
        (tables checkpoints.old frames.old store.old parts.old
        malformed.old hints.old confirmed.old) }
{
    if !is_workshop(role) {
        return 52;
    }
    if head.len() < HEAD_BYTES {
        return 3;
    }
    let area = area_from(slot, channels, key_start, key_end, sectors, start, end);
    let made = load::from_bytes(
        area,
        file,
        limit,
        checkpoints,
        frames,
        store,
        parts,
        malformed,
        hints,
        confirmed,
    );
    put_made(head, made)
}

// States the disc's fingerprint.
pub fn seek_raw_fingerprint(
    head: &mut [u8],
    value: u64,
    checkpoints: &[u8],
    frames: &[u8],
    store: &[u8],
    parts: &[u8],
    malformed: &[u8],
    hints: &[u8],
    confirmed: &[u8],
) -> u32
    ensures { called result head.new
        ≡ fingerprint_call head.old value
        (tables checkpoints.now frames.now store.now parts.now
        malformed.now hints.now confirmed.now) }
{
    if !is_index(head) {
        return 3;
    }
    let x = index_in(head);
    let made = index::create::bind_fingerprint(
        x,
        value,
        checkpoints,
        frames,
        store,
        parts,
        malformed,
        hints,
        confirmed,
    );
    put_made(head, made)
}

// Where a jump to a frame starts.
pub fn seek_raw_plan(
    head: &[u8],
    frame: u32,
    answer: &mut [u8],
    checkpoints: &[u8],
    frames: &[u8],
    store: &[u8],
    parts: &[u8],
    malformed: &[u8],
    hints: &[u8],
    confirmed: &[u8],
) -> u32
    ensures { called result answer.new
        ≡ plan_call head.now frame answer.old
        (tables checkpoints.now frames.now store.now parts.now
        malformed.now hints.now confirmed.now) }
{
    if !is_index(head) {
        return 3;
    }
    if answer.len() < HEAD_BYTES {
        return 3;
    }
    let x = index_in(head);
    let planned = plan::plan(
        x,
        frame,
        &Tables {
            checkpoints,
            frames,
            store,
            parts,
            malformed,
            hints,
            confirmed,
        },
    );
    put_plan(answer, planned)
}

// 1 where the bytes of a held part lie in the store, at its offset; else 0.
pub fn seek_raw_part(store: &[u8], offset: u64, len: u64) -> u64
    ensures { result ≡ bit (lies_in store.now offset len) }
{
    let lies = plan::part_lies(store, offset, len);
    bit_word(lies)
}

// The length that saving will write, or the refusal number.
pub fn seek_raw_saved_length(
    head: &[u8],
    checkpoints: &[u8],
    frames: &[u8],
    store: &[u8],
    parts: &[u8],
    malformed: &[u8],
    hints: &[u8],
    confirmed: &[u8],
) -> u64
    ensures { result
        ≡ length_call head.now
        (tables checkpoints.now frames.now store.now parts.now
        malformed.now hints.now confirmed.now) }
{
    if !is_index(head) {
        return 3;
    }
    let x = index_in(head);
    let length = sizes::file_length(
        x,
        &Tables {
            checkpoints,
            frames,
            store,
            parts,
            malformed,
            hints,
            confirmed,
        },
    );
    saved_number(length)
}

// Writes the list file. The length, or the refusal number.
pub fn seek_raw_save(
    role: u32,
    head: &[u8],
    checkpoints: &[u8],
    frames: &[u8],
    store: &[u8],
    parts: &[u8],
    malformed: &[u8],
    hints: &[u8],
    confirmed: &[u8],
    out: &mut [u8],
) -> u64
    ensures { called result out.new
        ≡ save_call_as role head.now
        (tables checkpoints.now frames.now store.now parts.now
        malformed.now hints.now confirmed.now)
        out.old }
{
    if !is_workshop(role) {
        return 52;
    }
    if !is_index(head) {
        return 3;
    }
    let x = index_in(head);
    let saved = save::to_bytes(
        x,
        &Tables {
            checkpoints,
            frames,
            store,
            parts,
            malformed,
            hints,
            confirmed,
        },
        out,
    );
    saved_number(saved)
}

// Merges the other list, which is only read, into the own one.
pub fn seek_raw_merge(
    role: u32,
    head: &mut [u8],
    other: &[u8],
    checkpoints: &mut [u8],
    frames: &mut [u8],
    store: &mut [u8],
    parts: &mut [u8],
    malformed: &mut [u8],
    hints: &mut [u8],
    confirmed: &mut [u8],
    other_checkpoints: &[u8],
    other_frames: &[u8],
    other_store: &[u8],
    other_parts: &[u8],
    other_malformed: &[u8],
    other_hints: &[u8],
    other_confirmed: &[u8],
) -> u32
    ensures { called_over result head.new
        (tables checkpoints.new frames.new store.new parts.new
        malformed.new hints.new confirmed.new)
        ≡ merge_call_as role head.old other.now
        (tables checkpoints.old frames.old store.old parts.old
        malformed.old hints.old confirmed.old)
        (tables other_checkpoints.now other_frames.now
        other_store.now other_parts.now other_malformed.now
        other_hints.now other_confirmed.now) }
{
    if !is_workshop(role) {
        return 52;
    }
    if !is_index(head) {
        return 3;
    }
    if !is_index(other) {
        return 3;
    }
    let x = index_in(head);
    let y = index_in(other);
    let made = merge::merge(
        x,
        y,
        checkpoints,
        frames,
        store,
        parts,
        malformed,
        hints,
        confirmed,
        other_checkpoints,
        other_frames,
        other_store,
        other_parts,
        other_malformed,
        other_hints,
        other_confirmed,
    );
    put_made(head, made)
}

// What merging the other list would bring.
pub fn seek_raw_adds(
    head: &[u8],
    other: &[u8],
    answer: &mut [u8],
    checkpoints: &[u8],
    frames: &[u8],
    store: &[u8],
    parts: &[u8],
    malformed: &[u8],
    hints: &[u8],
    confirmed: &[u8],
    other_checkpoints: &[u8],
    other_frames: &[u8],
    other_store: &[u8],
    other_parts: &[u8],
    other_malformed: &[u8],
    other_hints: &[u8],
    other_confirmed: &[u8],
) -> u32
    ensures { called result answer.new
        ≡ adds_call head.now other.now answer.old
        (tables checkpoints.now frames.now store.now parts.now
        malformed.now hints.now confirmed.now)
        (tables other_checkpoints.now other_frames.now
        other_store.now other_parts.now other_malformed.now
        other_hints.now other_confirmed.now) }
{
    if !is_index(head) {
        return 3;
    }
    if !is_index(other) {
        return 3;
    }
    if answer.len() < HEAD_BYTES {
        return 3;
    }
    let x = index_in(head);
    let y = index_in(other);
    let added = adds::adds(
        x,
        y,
        &Tables {
            checkpoints,
            frames,
            store,
            parts,
            malformed,
            hints,
            confirmed,
        },
        &Tables {
            checkpoints: other_checkpoints,
            frames: other_frames,
            store: other_store,
            parts: other_parts,
            malformed: other_malformed,
            hints: other_hints,
            confirmed: other_confirmed,
        },
    );
    put_brings(answer, added)
}

// Adds hints, 8 bytes each.
pub fn seek_raw_add_hints(
    head: &mut [u8],
    list: &[u8],
    checkpoints: &[u8],
    frames: &[u8],
    store: &[u8],
    parts: &[u8],
    malformed: &[u8],
    hints: &mut [u8],
    confirmed: &[u8],
) -> u32
    ensures { called_over result head.new
        (tables checkpoints.now frames.now store.now parts.now
        malformed.now hints.new confirmed.now)
        ≡ add_hints_call head.old list.now
        (tables checkpoints.now frames.now store.now parts.now
        malformed.now hints.old confirmed.now) }
{
    if !is_index(head) {
        return 3;
    }
    let x = index_in(head);
    let made = add_hints::add_hints(
        x,
        list,
        checkpoints,
        frames,
        store,
        parts,
        malformed,
        hints,
        confirmed,
    );
    put_made(head, made)
}
