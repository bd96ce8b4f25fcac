// Numbers in bytes, copies and comparisons, and lists of records in bytes.
#![tactic(auto)]

ghost use Rattle.std.specs.Prelude.{◌≡◌, ◌+◌, ◌≤◌, ◌++◌, length, take, drop, replicate};
ghost use Rattle.field.specs.Number.{number_at, put, same_bytes};

// The number in the four bytes of s from at on.
#[tactic(auto, using(std::proofs::lemmas::Grind::common_steps, crate::proofs::Native::number_four))]
pub fn read_u32(s: &[u8], at: usize) -> u32
    requires { at + 4 ≤ length s.now }
    ensures { result ≡ number_at 4 s.now at }
{
    u32::from_le_bytes(s[at..at + 4].try_into().unwrap())
}

// The number in the eight bytes of s from at on.
pub fn read_u64(s: &[u8], at: usize) -> u64
    requires { at + 8 ≤ length s.now }
    ensures { result ≡ number_at 8 s.now at }
{
    u64::from_le_bytes(s[at..at + 8].try_into().unwrap())
}

// v into the four bytes of s from at on.
#[tactic(auto, using(crate::proofs::Native::put_four))]
pub fn write_u32(s: &mut [u8], at: usize, v: u32)
    requires { at + 4 ≤ length s.old }
    ensures { s.new ≡ put 4 s.old at v }
{
    s[at..at + 4].copy_from_slice(&v.to_le_bytes());
}

// v into the eight bytes of s from at on.
pub fn write_u64(s: &mut [u8], at: usize, v: u64)
    requires { at + 8 ≤ length s.old }
    ensures { s.new ≡ put 8 s.old at v }
{
    s[at..at + 8].copy_from_slice(&v.to_le_bytes());
}

// All of src over the start of dst. By a loop: for copy_from_slice the compiler calls memmove, which no other code of
// the archive for C needs.
pub fn copy_into(dst: &mut [u8], src: &[u8])
    requires { length src.now ≤ length dst.old }
    ensures { dst.new ≡ src.now ++ drop (length src.now) dst.old }
{
    for i in 0..src.len() {
        dst[i] = src[i];
    }
}

// The first k bytes of src over the start of dst.
pub fn copy_first(dst: &mut [u8], src: &[u8], k: usize)
    requires { (k ≤ length src.now) × (k ≤ length dst.old) }
    ensures { dst.new ≡ take k src.now ++ drop k dst.old }
{
    copy_into(dst, &src[..k]);
}

// The k bytes of src from a on, to dst from at on.
pub fn copy_part(dst: &mut [u8], at: usize, src: &[u8], a: usize, k: usize)
    requires { (at + k ≤ length dst.old) × (a + k ≤ length src.now) }
    ensures { dst.new ≡ take at dst.old ++ (take k (drop a src.now) ++ drop (at + k) dst.old) }
{
    copy_into(&mut dst[at..at + k], &src[a..a + k]);
}

// Each byte of s becomes 0.
pub fn clear(s: &mut [u8])
    ensures { s.new ≡ replicate (length s.old) 0 }
{
    s.fill(0);
}

// Are a and b the same?
#[tactic(auto, using(std::proofs::lemmas::Grind::common_steps, crate::proofs::Native::pointwise_same, crate::proofs::Native::lengths_apart))]
pub fn same(a: &[u8], b: &[u8]) -> bool
    ensures { result ≡ same_bytes a.now b.now }
{
    a == b
}
