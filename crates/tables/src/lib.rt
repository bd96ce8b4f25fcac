// The bridge from tables to lists: what a table's bytes stand for; readers and writers of records, and the kinds of parts.
#![tactic(auto)]

pub mod kinds;
pub mod lent;
pub mod part_records;

ghost use Rattle.std.specs.Prelude.{◌≡◌, ◌+◌, ◌*◌, ◌≤◌, length, take, drop};
ghost use Rattle.std.proofs.lemmas.List.Edits.{sets};
ghost use Rattle.field.specs.Records.{record_at};
ghost use Rattle.rules.specs.Values.{checkpoint_at};
ghost use Rattle.rules.specs.File.{kind_of, signed32, decode_checkpoint, decode_held, decode_lsn, encode_hint, decode_hint, decode_confirmation};
ghost use Rattle.tables.specs.Tables.{checkpoints_in, decode_header, headers_in, header_at, encode_kept, decode_kept, kept_word};

use field::{read_u32, read_u64, write_u32};
use rules::{Checkpoint, Confirmation, FrameKind, Held, Hint};

// Start and length of a frame, as they lie in a table.
#[derive(Clone, Copy)]
pub struct FrameHeader {
    pub start: u32,
    pub len: u32,
}

// ---- records read
pub fn read_checkpoint(t: &[u8], j: usize) -> Checkpoint
    requires { j * 24 + 24 ≤ length t.now }
    ensures { result ≡ record_at 24 decode_checkpoint t.now j }
{
    let at = j * 24;
    Checkpoint {
        threshold: read_u32(t, at),
        back: read_u32(t, at + 4),
        malformed: read_u64(t, at + 8),
        digest: read_u64(t, at + 16),
    }
}

// The header in the bytes from at on.
pub fn header_at(t: &[u8], at: usize) -> FrameHeader
    requires { at + 8 ≤ length t.now }
    ensures { result ≡ decode_header (take 8 (drop at t.now)) }
{
    FrameHeader {
        start: read_u32(t, at),
        len: read_u32(t, at + 4),
    }
}

pub fn read_header(t: &[u8], j: usize) -> FrameHeader
    requires { j * 8 + 8 ≤ length t.now }
    ensures { result ≡ record_at 8 decode_header t.now j }
{
    header_at(t, j * 8)
}

#[tactic(auto, using(std::proofs::lemmas::Bool::Decides::nat_tests), unfolding(rules::specs::File::kind_of))]
pub fn kind_of(v: u32) -> FrameKind
    ensures { result ≡ kind_of v }
{
    if v == 0 {
        FrameKind::Dst
    } else {
        FrameKind::Dsd
    }
}

// The signed number that four bytes stand for.
#[tactic(auto, using(std::proofs::lemmas::Bool::Decides::nat_tests), unfolding(rules::specs::File::signed32))]
pub fn signed(v: u32) -> i32
    ensures { result ≡ signed32 v }
{
    v.cast_signed()
}

// The part in the bytes from at on.
fn held_at(t: &[u8], at: usize) -> Held
    requires { at + 24 ≤ length t.now }
    ensures { result ≡ decode_held (take 24 (drop at t.now)) }
{
    Held {
        at: read_u32(t, at),
        frame: read_u32(t, at + 4),
        len: read_u32(t, at + 8),
        number: read_u32(t, at + 12),
        kind: kind_of(read_u32(t, at + 20)),
        remaining: signed(read_u32(t, at + 16)),
    }
}

pub fn read_held(t: &[u8], j: usize) -> Held
    requires { j * 24 + 24 ≤ length t.now }
    ensures { result ≡ record_at 24 decode_held t.now j }
{
    held_at(t, j * 24)
}

// An LSN and a number behind it, as a hint of a file or a delivered list begins and a confirmation does.
pub fn hint_at(t: &[u8], at: usize) -> Hint
    requires { at + 8 ≤ length t.now }
    ensures { result ≡ decode_hint (drop at t.now) }
{
    Hint {
        lsn: read_u32(t, at),
        number: read_u32(t, at + 4),
        mark: 0,
    }
}

// Hint number j of a delivered list, a hint recorder's list or a file, which hold no mark.
pub fn read_given(t: &[u8], j: usize) -> Hint
    requires { j * 8 + 8 ≤ length t.now }
    ensures { result ≡ record_at 8 decode_hint t.now j }
{
    hint_at(t, j * 8)
}

// Hint number j of an index's table, with its mark.
pub fn read_hint(t: &[u8], j: usize) -> Hint
    requires { j * 8 + 8 ≤ length t.now }
    ensures { result ≡ record_at 8 decode_kept t.now j }
{
    let at = j * 8;
    Hint {
        lsn: read_u32(t, at),
        number: read_u32(t, at + 4) % 16777216,
        mark: t[at + 7],
    }
}

pub fn read_confirmation(t: &[u8], j: usize) -> Confirmation
    requires { j * 16 + 16 ≤ length t.now }
    ensures { result ≡ record_at 16 decode_confirmation t.now j }
{
    let at = j * 16;
    Confirmation {
        lsn: read_u32(t, at),
        threshold: read_u32(t, at + 4),
        digest: read_u64(t, at + 8),
    }
}

pub fn read_lsn(t: &[u8], j: usize) -> u32
    requires { j * 4 + 4 ≤ length t.now }
    ensures { result ≡ record_at 4 decode_lsn t.now j }
{
    read_u32(t, j * 4)
}

// ---- records of a list: zeros past its end
pub fn get_checkpoint(t: &[u8], n: usize, i: usize) -> Checkpoint
    requires { n * 24 ≤ length t.now }
    ensures { result ≡ checkpoint_at (checkpoints_in n t.now) i }
{
    if i < n {
        return read_checkpoint(t, i);
    }
    Checkpoint {
        threshold: 0,
        back: 0,
        malformed: 0,
        digest: 0,
    }
}

pub fn get_header(t: &[u8], f: usize, i: usize) -> FrameHeader
    requires { f * 8 ≤ length t.now }
    ensures { result ≡ header_at (headers_in f t.now) i }
{
    if i < f {
        return read_header(t, i);
    }
    FrameHeader { start: 0, len: 0 }
}

// ---- hints written
// The four bytes of a frame number and a mark, as a number.
fn word_of(number: u32, mark: u8) -> u32
    ensures { result ≡ kept_word number mark }
{
    number % 16777216 + mark as u32 * 16777216
}

// Hint number j of an index's table.
pub fn write_hint(t: &mut [u8], j: usize, h: Hint)
    requires { j * 8 + 8 ≤ length t.old }
    ensures { t.new ≡ sets t.old (j * 8) (encode_kept h) }
{
    let at = j * 8;
    write_u32(t, at, h.lsn);
    write_u32(t, at + 4, word_of(h.number, h.mark));
}

// Hint number j of a hint recorder's list, which holds no mark.
pub fn write_given(t: &mut [u8], j: usize, h: Hint)
    requires { j * 8 + 8 ≤ length t.old }
    ensures { t.new ≡ sets t.old (j * 8) (encode_hint h) }
{
    let at = j * 8;
    write_u32(t, at, h.lsn);
    write_u32(t, at + 4, h.number);
}

// ---- sections of a file
// The bytes of b from at on.
pub fn behind(b: &[u8], at: usize) -> &[u8]
    requires { at ≤ length b.now }
    ensures { result.now ≡ drop at b.now }
{
    &b[at..]
}
