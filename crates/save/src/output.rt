// A lent output: how far it is written, whether there is a hint section, its header, and question 40.
ghost use Rattle.std.specs.Prelude.{◌≡◌, not, ◌&&◌, ◌||◌, ◌≤◌, eqb, leb, length};
ghost use Rattle.fnv.specs.Fnv.{fnv_from, prime64};
ghost use Rattle.rules.specs.Values.{default_spacing, default_hints};
ghost use Rattle.save.specs.Output.{Summed, up_to, hint_header};

use field::{write_u32, write_u64};
use rules::{DEFAULT_HINT_SPACING, DEFAULT_MAX_HINTS, HintHeader};
use summing::{sum_u32, sum_u64};

// Do so many hints, a spacing and a limit M need a hint section?
pub fn is_hinting(hints: u32, spacing: u32, most: u32) -> bool
    ensures { result ≡ (not (eqb hints 0) || not (eqb spacing default_spacing && eqb most default_hints)) }
{
    hints != 0 || spacing != DEFAULT_HINT_SPACING || most != DEFAULT_MAX_HINTS
}

// How far an output is written, and the sum of all bytes up to there.
#[derive(Clone, Copy)]
pub struct Written {
    pub next: usize,
    pub sum: u64,
}

// The hash of a hint header's bytes from sum.
fn sum_hint_header(h: HintHeader, sum: u64) -> u64
    ensures { result ≡ fnv_from 64 prime64 sum (hint_header h) }
{
    let a = sum_u64(sum, h.fingerprint);
    let b = sum_u32(a, h.spacing);
    let c = sum_u32(b, h.most);
    let d = sum_u32(c, h.count);
    sum_u32(d, h.zero20)
}

// A hint header at the start of out, and the hash of its bytes from sum.
pub fn write_hint_header(out: &mut [u8], h: HintHeader, sum: u64) -> u64
    requires { 24 ≤ length out.old }
    ensures { Summed (hint_header h) 24 out.old (up_to 0 sum) (up_to 24 result) out.new }
{
    write_u64(out, 0, h.fingerprint);
    write_u32(out, 8, h.spacing);
    write_u32(out, 12, h.most);
    write_u32(out, 16, h.count);
    write_u32(out, 20, h.zero20);
    sum_hint_header(h, sum)
}

// 40: is an output of room bytes long enough for a file of so many?
pub fn long_enough(room: u64, file: u64) -> bool
    ensures { result ≡ leb file room }
{
    file <= room
}
