// The sections of a view, each written into its own stretch of a lent output.
ghost use Rattle.std.specs.Prelude.{◌≡◌, ◌+◌, ◌*◌, ◌≤◌, length};
ghost use Rattle.std.proofs.lemmas.List.Edits.{sets};
ghost use Rattle.field.specs.Records.{bytes_of};
ghost use Rattle.rules.specs.File.{encode_lsn, encode_hint, encode_confirmation, bit, over};
ghost use Rattle.rules_view.specs.View.{word_bytes, head_words, total_words, backings_of, lengths_of, encode_seen, encode_backing, encode_held_length, encode_mark, seen_bytes};
ghost use Rattle.tables.specs.Tables.{checkpoints_in, parts_in, lsns_in, kept_in, confirmations_in};
ghost use Rattle.save.specs.Output.{Put};
ghost use Rattle.view.specs.Sections.{head_in, totals_in, seen_of, backing_of, listener_in, behind_bytes, behind_size, Shown};

use field::{copy_first, write_u32, write_u64};
use index::{is_complete, is_stated};
use rules::{AreaIndex, Checkpoint};
use save::layout::hint_header_of;
use sections::lsn_at;
use tables::part_records::write_header;
use tables::{read_checkpoint, read_held, read_hint, write_given};

#[tactic(auto, unfolding(rules::specs::File::bit))]
fn bit(b: bool) -> u64
    ensures { result ≡ bit b }
{
    u64::from(b)
}

// ---- words
fn head_words(role: u32, x: AreaIndex) -> [u64; 11]
    ensures { result ≡ head_words (head_in role x) }
{
    let key = x.area.key;
    [
        role as u64,
        key.slot as u64,
        key.channels as u64,
        key.start as u64,
        key.end as u64,
        key.sectors,
        x.area.start,
        x.area.end,
        x.interval as u64,
        bit(is_complete(x)),
        x.checkpoints as u64,
    ]
}

// Counts, and the fingerprint, 0 where it is unknown.
fn total_words(x: AreaIndex) -> [u64; 6]
    ensures { result ≡ total_words (totals_in x) }
{
    [
        x.malformed as u64,
        x.parts as u64,
        x.hints as u64,
        bit(is_stated(x.fingerprint)),
        hint_header_of(x).fingerprint,
        x.confirmed as u64,
    ]
}

// ---- each section over the start of the stretch that is lent
// Words of eight bytes each.
fn write_words(out: &mut [u8], words: &[u64])
    requires { length words.now * 8 ≤ length out.old }
    ensures { out.new ≡ over (word_bytes words.now) out.old }
{
    for (i, word) in words.iter().enumerate() {
        write_u64(out, i * 8, *word);
    }
}

// LSN and threshold of each checkpoint.
fn write_seen(out: &mut [u8], x: AreaIndex, table: &[u8])
    requires { (x.area.start ≤ 4294967295)
        × (x.checkpoints * 24 ≤ length table.now)
        × (x.checkpoints * 8 ≤ length out.old) }
    ensures { out.new
        ≡ over (bytes_of encode_seen (seen_of x table.now)) out.old }
{
    for j in 0..x.checkpoints {
        let c = read_checkpoint(table, j as usize);
        let lsn = lsn_at(x.area, x.interval, j);
        write_header(out, j as usize, (lsn % 4294967296) as u32, c.threshold);
    }
}

// Back and digest as record number j.
fn write_backing(out: &mut [u8], j: usize, c: Checkpoint)
    requires { j * 12 + 12 ≤ length out.old }
    ensures { out.new ≡ sets out.old (j * 12) (encode_backing (backing_of c)) }
{
    let at = j * 12;
    write_u32(out, at, c.back);
    write_u64(out, at + 4, c.digest);
}

// Back and digest of each checkpoint.
fn write_backings(out: &mut [u8], table: &[u8], n: u32)
    requires { (n * 24 ≤ length table.now) × (n * 12 ≤ length out.old) }
    ensures { out.new
        ≡ over (bytes_of encode_backing (backings_of (checkpoints_in n table.now)))
        out.old }
{
    for j in 0..n as usize {
        write_backing(out, j, read_checkpoint(table, j));
    }
}

// The checkpoint's number and the length of each held part.
fn write_lengths(out: &mut [u8], table: &[u8], n: u32)
    requires { (n * 24 ≤ length table.now) × (n * 8 ≤ length out.old) }
    ensures { out.new
        ≡ over (bytes_of encode_held_length (lengths_of (parts_in n table.now))) out.old }
{
    for j in 0..n as usize {
        let p = read_held(table, j);
        write_header(out, j, p.at, p.len);
    }
}

// LSN and frame number of each hint.
fn write_hints(out: &mut [u8], table: &[u8], n: u32)
    requires { (n * 8 ≤ length table.now) × (n * 8 ≤ length out.old) }
    ensures { out.new
        ≡ over (bytes_of encode_hint (kept_in n table.now)) out.old }
{
    for j in 0..n as usize {
        write_given(out, j, read_hint(table, j));
    }
}

// The kept mark of each hint.
fn write_marks(out: &mut [u8], table: &[u8], n: u32)
    requires { (n * 8 ≤ length table.now) × (n ≤ length out.old) }
    ensures { out.new
        ≡ over (bytes_of encode_mark (kept_in n table.now)) out.old }
{
    for j in 0..n as usize {
        out[j] = table[j * 8 + 7];
    }
}

// ---- the stretch of each section: from at on, up to what is answered
fn put_seen(out: &mut [u8], at: usize, x: AreaIndex, table: &[u8]) -> usize
    requires { (x.area.start ≤ 4294967295)
        × (x.checkpoints * 24 ≤ length table.now)
        × (at + x.checkpoints * 8 ≤ length out.old) }
    ensures { Put (bytes_of encode_seen (seen_of x table.now)) (x.checkpoints * 8)
        out.old at result out.new }
{
    let to = at + x.checkpoints as usize * 8;
    write_seen(&mut out[at..to], x, table);
    to
}

fn put_totals(out: &mut [u8], at: usize, x: AreaIndex) -> usize
    requires { at + 48 ≤ length out.old }
    ensures { Put (word_bytes (total_words (totals_in x))) 48 out.old at result out.new }
{
    let to = at + 48;
    write_words(&mut out[at..to], &total_words(x));
    to
}

fn put_backings(out: &mut [u8], at: usize, table: &[u8], n: u32) -> usize
    requires { (n * 24 ≤ length table.now) × (at + n * 12 ≤ length out.old) }
    ensures { Put (bytes_of encode_backing (backings_of (checkpoints_in n table.now)))
        (n * 12) out.old at result out.new }
{
    let to = at + n as usize * 12;
    write_backings(&mut out[at..to], table, n);
    to
}

fn put_malformed(out: &mut [u8], at: usize, table: &[u8], n: u32) -> usize
    requires { (n * 4 ≤ length table.now) × (at + n * 4 ≤ length out.old) }
    ensures { Put (bytes_of encode_lsn (lsns_in n table.now)) (n * 4) out.old at result
        out.new }
{
    let k = n as usize * 4;
    let to = at + k;
    copy_first(&mut out[at..to], table, k);
    to
}

fn put_lengths(out: &mut [u8], at: usize, table: &[u8], n: u32) -> usize
    requires { (n * 24 ≤ length table.now) × (at + n * 8 ≤ length out.old) }
    ensures { Put (bytes_of encode_held_length (lengths_of (parts_in n table.now))) (n * 8)
        out.old at result out.new }
{
    let to = at + n as usize * 8;
    write_lengths(&mut out[at..to], table, n);
    to
}

fn put_hints(out: &mut [u8], at: usize, table: &[u8], n: u32) -> usize
    requires { (n * 8 ≤ length table.now) × (at + n * 8 ≤ length out.old) }
    ensures { Put (bytes_of encode_hint (kept_in n table.now)) (n * 8) out.old at
        result out.new }
{
    let to = at + n as usize * 8;
    write_hints(&mut out[at..to], table, n);
    to
}

fn put_marks(out: &mut [u8], at: usize, table: &[u8], n: u32) -> usize
    requires { (n * 8 ≤ length table.now) × (at + n ≤ length out.old) }
    ensures { Put (bytes_of encode_mark (kept_in n table.now)) n out.old at result
        out.new }
{
    let to = at + n as usize;
    write_marks(&mut out[at..to], table, n);
    to
}

fn put_confirmations(out: &mut [u8], at: usize, table: &[u8], n: u32) -> usize
    requires { (n * 16 ≤ length table.now) × (at + n * 16 ≤ length out.old) }
    ensures { Put (bytes_of encode_confirmation (confirmations_in n table.now)) (n * 16)
        out.old at result out.new }
{
    let k = n as usize * 16;
    let to = at + k;
    copy_first(&mut out[at..to], table, k);
    to
}

// ---- the sections in a line
// What both views begin with.
pub fn put_listener(out: &mut [u8], role: u32, x: AreaIndex, checkpoints: &[u8]) -> usize
    requires { (x.area.start ≤ 4294967295)
        × (x.checkpoints * 24 ≤ length checkpoints.now)
        × (88 + x.checkpoints * 8 ≤ length out.old) }
    ensures { Put (seen_bytes role (listener_in x checkpoints.now))
        (88 + x.checkpoints * 8) out.old 0 result out.new }
{
    write_words(out, &head_words(role, x));
    put_seen(out, 88, x, checkpoints)
}

// What the workshop's view adds.
pub fn put_workshop(
    out: &mut [u8],
    at: usize,
    x: AreaIndex,
    checkpoints: &[u8],
    parts: &[u8],
    malformed: &[u8],
    hints: &[u8],
    confirmed: &[u8],
) -> usize
    requires { Shown x checkpoints.now parts.now malformed.now hints.now confirmed.now
        × (at + behind_size x ≤ length out.old) }
    ensures { Put
        (behind_bytes x checkpoints.now parts.now malformed.now
        hints.now confirmed.now)
        (behind_size x) out.old at result out.new }
{
    let at = put_totals(out, at, x);
    let at = put_backings(out, at, checkpoints, x.checkpoints);
    let at = put_malformed(out, at, malformed, x.malformed);
    let at = put_lengths(out, at, parts, x.parts);
    let at = put_hints(out, at, hints, x.hints);
    let at = put_marks(out, at, hints, x.hints);
    put_confirmations(out, at, confirmed, x.confirmed)
}
