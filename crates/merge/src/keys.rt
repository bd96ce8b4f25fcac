// Tables whose records are in the order of a key, the number in their first four bytes.
ghost use Rattle.std.specs.Prelude.{◌≡◌, ◌+◌, ◌*◌, ◌≤◌, length, drop};
ghost use Rattle.merge.specs.Keys.{keys_in, below};

use field::read_u32;

// The first of n records of w bytes, from number i on, whose key is low or more; n where there is none.
pub fn skip(t: &[u8], w: usize, n: usize, i: usize, low: u32) -> usize
    requires { (4 ≤ w) × (n * w ≤ length t.now) × (i ≤ n) }
    ensures { result ≡ i + below low (drop i (keys_in w n t.now)) }
{
    for k in i..n {
        if low <= read_u32(t, k * w) {
            return k;
        }
    }
    n
}
