// The sections of a file, each written into its own stretch of a lent output, and summed.
ghost use Rattle.std.specs.Prelude.{◌≡◌, true, ◌+◌, ◌*◌, ◌≤◌, length, take, drop};
ghost use Rattle.std.proofs.lemmas.List.Edits.{sets};
ghost use Rattle.field.specs.Records.{bytes_of, record_at};
ghost use Rattle.fnv.specs.Fnv.{fnv_from, prime64};
ghost use Rattle.rules.specs.Values.{used};
ghost use Rattle.rules.specs.File.{encode_checkpoint, encode_frame, encode_held, encode_lsn, encode_hint, encode_confirmation};
ghost use Rattle.tables.specs.Tables.{checkpoints_in, parts_in, lsns_in, kept_in, confirmations_in, frames_in, decode_header, frame_of};
ghost use Rattle.tables.specs.Index.{kinds_ok};
ghost use Rattle.save.specs.Output.{Filled, Summed, up_to};

use crate::output::Written;
use rules::{CHECKPOINT, CONFIRMED, FRAME_HEADER, HELD, HINT, Hint};
use summing::{copy_first_summed, copy_part_summed, sum_u32};
use tables::{read_header, read_hint, write_given};

// ---- the stretch of each section: from w on, up to what is answered
// The first size bytes of a table.
fn put_table(out: &mut [u8], w: Written, table: &[u8], size: usize) -> Written
    requires { (size ≤ length table.now) × (w.next + size ≤ length out.old) }
    ensures { Summed (take size table.now) size out.old w result out.new }
{
    let to = w.next + size;
    let sum = copy_first_summed(&mut out[w.next..to], table, size, w.sum);
    Written { next: to, sum }
}

pub fn put_checkpoints(out: &mut [u8], w: Written, table: &[u8], count: u32) -> Written
    requires { (count * 24 ≤ length table.now) × (w.next + count * 24 ≤ length out.old) }
    ensures { Summed (bytes_of encode_checkpoint (checkpoints_in count table.now)) (count * 24) out.old w result out.new }
{
    put_table(out, w, table, count as usize * CHECKPOINT)
}

// Each kind is 0 or 1.
pub fn put_parts(out: &mut [u8], w: Written, table: &[u8], count: u32) -> Written
    requires { (count * 24 ≤ length table.now) × (w.next + count * 24 ≤ length out.old) × (kinds_ok count table.now ≡ true) }
    ensures { Summed (bytes_of encode_held (parts_in count table.now)) (count * 24) out.old w result out.new }
{
    put_table(out, w, table, count as usize * HELD)
}

pub fn put_malformed(out: &mut [u8], w: Written, table: &[u8], count: u32) -> Written
    requires { (count * 4 ≤ length table.now) × (w.next + count * 4 ≤ length out.old) }
    ensures { Summed (bytes_of encode_lsn (lsns_in count table.now)) (count * 4) out.old w result out.new }
{
    put_table(out, w, table, count as usize * 4)
}

pub fn put_confirmations(out: &mut [u8], w: Written, table: &[u8], count: u32) -> Written
    requires { (count * 16 ≤ length table.now) × (w.next + count * 16 ≤ length out.old) }
    ensures { Summed (bytes_of encode_confirmation (confirmations_in count table.now)) (count * 16) out.old w result out.new }
{
    put_table(out, w, table, count as usize * CONFIRMED)
}

// ---- hints, one by one
// Hint number j of a file, which holds no mark, and the hash of it from sum.
fn put_hint(out: &mut [u8], j: usize, h: Hint, sum: u64) -> u64
    requires { j * 8 + 8 ≤ length out.old }
    ensures { (out.new ≡ sets out.old (j * 8) (encode_hint h)) × (result ≡ fnv_from 64 prime64 sum (encode_hint h)) }
{
    write_given(out, j, h);
    sum_u32(sum_u32(sum, h.lsn), h.number)
}

// The first n hints of a table at the start of out, and the hash of them from sum.
fn write_hints(out: &mut [u8], table: &[u8], n: usize, sum: u64) -> u64
    requires { (n * 8 ≤ length table.now) × (n * 8 ≤ length out.old) }
    ensures { Filled (bytes_of encode_hint (kept_in n table.now)) out.old sum result out.new }
{
    let mut x = sum;
    for j in 0..n {
        x = put_hint(out, j, read_hint(table, j), x);
    }
    x
}

pub fn put_hints(out: &mut [u8], w: Written, table: &[u8], count: u32) -> Written
    requires { (count * 8 ≤ length table.now) × (w.next + count * 8 ≤ length out.old) }
    ensures { Summed (bytes_of encode_hint (kept_in count table.now)) (count * 8) out.old w result out.new }
{
    let to = w.next + count as usize * HINT;
    let sum = write_hints(&mut out[w.next..to], table, count as usize, w.sum);
    Written { next: to, sum }
}

// ---- frames: start, length and the bytes
// The length of a frame, and the sum up to its end.
#[derive(Clone, Copy)]
struct FrameEnd {
    len: usize,
    sum: u64,
}

// Frame number k, whose bytes lie in the store from its byte `from` on, into out from at on.
fn put_frame(
    out: &mut [u8],
    at: usize,
    headers: &[u8],
    k: usize,
    store: &[u8],
    from: usize,
    sum: u64,
) -> FrameEnd
    requires { (k * 8 + 8 ≤ length headers.now) × (at + 8 + (record_at 8 decode_header headers.now k).len ≤ length out.old) × (from + (record_at 8 decode_header headers.now k).len ≤ length store.now) }
    ensures { (result.len ≡ (record_at 8 decode_header headers.now k).len) × Summed (encode_frame (frame_of (record_at 8 decode_header headers.now k) (drop from store.now))) (8 + result.len) out.old (up_to at sum) (up_to (at + 8 + result.len) result.sum) out.new }
{
    let h = read_header(headers, k);
    let len = h.len as usize;
    let before = copy_part_summed(out, at, headers, k * FRAME_HEADER, FRAME_HEADER, sum);
    let behind = copy_part_summed(out, at + FRAME_HEADER, store, from, len, before);
    FrameEnd { len, sum: behind }
}

fn write_frames(out: &mut [u8], headers: &[u8], store: &[u8], f: usize, sum: u64) -> u64
    requires { (f * 8 ≤ length headers.now) × (used (frames_in f headers.now store.now) ≤ length store.now) × (f * 8 + used (frames_in f headers.now store.now) ≤ length out.old) }
    ensures { Filled (bytes_of encode_frame (frames_in f headers.now store.now)) out.old sum result out.new }
{
    let mut at = 0;
    let mut from = 0;
    let mut x = sum;
    for k in 0..f {
        let e = put_frame(out, at, headers, k, store, from, x);
        at += FRAME_HEADER + e.len;
        from += e.len;
        x = e.sum;
    }
    x
}

// bytes is what all frames hold.
pub fn put_frames(
    out: &mut [u8],
    w: Written,
    headers: &[u8],
    store: &[u8],
    count: u32,
    bytes: u64,
) -> Written
    requires { (count * 8 ≤ length headers.now) × (used (frames_in count headers.now store.now) ≤ length store.now) × (w.next + (count * 8 + bytes) ≤ length out.old) × (bytes ≡ used (frames_in count headers.now store.now)) }
    ensures { Summed (bytes_of encode_frame (frames_in count headers.now store.now)) (count * 8 + used (frames_in count headers.now store.now)) out.old w result out.new }
{
    let f = count as usize;
    let to = w.next + (f * FRAME_HEADER + bytes as usize);
    let sum = write_frames(&mut out[w.next..to], headers, store, f, w.sum);
    Written { next: to, sum }
}
