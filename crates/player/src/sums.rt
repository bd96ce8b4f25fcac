// What the player's C program calls for short sums: a sum as a number, a folded sum in an answer block.
ghost use Rattle.std.specs.Prelude.{◌≡◌, ◌≤◌, length};
ghost use Rattle.short_sum.specs.ShortSum.{fnv32};
ghost use Rattle.blocks.specs.Calls.{called, into, one_word};
ghost use Rattle.player.specs.Player.{folded_of, fold_call};

use blocks::calls::one_word;
use blocks::{HEAD_BYTES, write_words};
use short_sum::Folded;

// The short sum of bytes.
pub fn seek_raw_sum32(bytes: &[u8]) -> u32
    ensures { result ≡ fnv32 bytes.now }
{
    short_sum::fnv32(bytes)
}

// A folded sum is the answer's first word.
fn put_folded(answer: &mut [u8], folded: Folded) -> u32
    requires { 192 ≤ length answer.old }
    ensures { called result answer.new
        ≡ into one_word answer.old (folded_of folded) }
{
    match folded {
        Folded::Refused(n) => n,
        Folded::Sum(s) => {
            write_words(answer, one_word(s));
            0
        }
    }
}

// A 32-bit sum folded to k bits.
pub fn seek_raw_fold32(sum: u32, k: u32, answer: &mut [u8]) -> u32
    ensures { called result answer.new ≡ fold_call 32 k sum answer.old }
{
    if answer.len() < HEAD_BYTES {
        return 3;
    }
    let folded = short_sum::fold32(sum, k);
    put_folded(answer, folded)
}

// A 64-bit sum folded to k bits.
pub fn seek_raw_fold64(sum: u64, k: u32, answer: &mut [u8]) -> u32
    ensures { called result answer.new ≡ fold_call 64 k sum answer.old }
{
    if answer.len() < HEAD_BYTES {
        return 3;
    }
    let folded = short_sum::fold64(sum, k);
    put_folded(answer, folded)
}
