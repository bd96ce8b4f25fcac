// The records of held parts and of their frames, written: a frame's start and length, a held part.
ghost use Rattle.std.specs.Prelude.{◌≡◌, ◌++◌, ◌+◌, ◌*◌, ◌≤◌, length};
ghost use Rattle.std.proofs.lemmas.List.Edits.{sets};
ghost use Rattle.field.specs.Number.{encode};
ghost use Rattle.rules.specs.File.{unsigned32, kind_number, encode_held};

use field::write_u32;
use rules::{FrameKind, Held};

#[tactic(auto, unfolding(rules::specs::File::kind_number))]
pub fn kind_number(k: FrameKind) -> u32
    ensures { result ≡ kind_number k }
{
    match k {
        FrameKind::Dst => 0,
        FrameKind::Dsd => 1,
    }
}

// The four bytes of a signed number, as a number.
#[tactic(auto, unfolding(rules::specs::File::unsigned32))]
pub fn unsigned(x: i32) -> u32
    ensures { result ≡ unsigned32 x }
{
    x.cast_unsigned()
}

pub fn write_header(t: &mut [u8], j: usize, start: u32, len: u32)
    requires { j * 8 + 8 ≤ length t.old }
    ensures { t.new ≡ sets t.old (j * 8) (encode 4 start ++ encode 4 len) }
{
    let at = j * 8;
    write_u32(t, at, start);
    write_u32(t, at + 4, len);
}

// Three numbers into the twelve bytes of t from at on.
fn write_three(t: &mut [u8], at: usize, a: u32, b: u32, c: u32)
    requires { at + 12 ≤ length t.old }
    ensures { t.new ≡ sets t.old at (encode 4 a ++ (encode 4 b ++ encode 4 c)) }
{
    write_u32(t, at, a);
    write_u32(t, at + 4, b);
    write_u32(t, at + 8, c);
}

pub fn write_held(t: &mut [u8], j: usize, p: Held)
    requires { j * 24 + 24 ≤ length t.old }
    ensures { t.new ≡ sets t.old (j * 24) (encode_held p) }
{
    let at = j * 24;
    write_three(t, at, p.at, p.frame, p.len);
    write_three(
        t,
        at + 12,
        p.number,
        unsigned(p.remaining),
        kind_number(p.kind),
    );
}
