// Bytes copied and summed in one pass, and the sum of a number's bytes.
#![tactic(auto)]

ghost use Rattle.std.specs.Prelude.{◌≡◌, ◌++◌, ◌+◌, ◌≤◌, length, take, drop};
ghost use Rattle.field.specs.Number.{encode};
ghost use Rattle.fnv.specs.Fnv.{fnv_from, prime64};

use fnv::{fnv_from, step};

// All of src over the start of dst, and the hash of it from sum.
pub fn copy_summed(dst: &mut [u8], src: &[u8], sum: u64) -> u64
    requires { length src.now ≤ length dst.old }
    ensures { (dst.new ≡ src.now ++ drop (length src.now) dst.old)
        × (result ≡ fnv_from 64 prime64 sum src.now) }
{
    let mut x = sum;
    for (i, &b) in src.iter().enumerate() {
        dst[i] = b;
        x = step(x, b);
    }
    x
}

// The first k bytes of src over the start of dst, and the hash of them from sum.
pub fn copy_first_summed(dst: &mut [u8], src: &[u8], k: usize, sum: u64) -> u64
    requires { (k ≤ length src.now) × (k ≤ length dst.old) }
    ensures { (dst.new ≡ take k src.now ++ drop k dst.old)
        × (result ≡ fnv_from 64 prime64 sum (take k src.now)) }
{
    copy_summed(dst, &src[..k], sum)
}

// The k bytes of src from a on, to dst from at on, and the hash of them from sum.
pub fn copy_part_summed(dst: &mut [u8], at: usize, src: &[u8], a: usize, k: usize, sum: u64) -> u64
    requires { (at + k ≤ length dst.old) × (a + k ≤ length src.now) }
    ensures { (dst.new ≡ take at dst.old
        ++ (take k (drop a src.now) ++ drop (at + k) dst.old))
        × (result ≡ fnv_from 64 prime64 sum (take k (drop a src.now))) }
{
    copy_summed(&mut dst[at..at + k], &src[a..a + k], sum)
}

// The hash of the four bytes of v from sum.
pub fn sum_u32(sum: u64, v: u32) -> u64
    ensures { result ≡ fnv_from 64 prime64 sum (encode 4 v) }
{
    fnv_from(sum, &u32::to_le_bytes(v))
}

// The hash of the eight bytes of v from sum.
pub fn sum_u64(sum: u64, v: u64) -> u64
    ensures { result ≡ fnv_from 64 prime64 sum (encode 8 v) }
{
    fnv_from(sum, &u64::to_le_bytes(v))
}
