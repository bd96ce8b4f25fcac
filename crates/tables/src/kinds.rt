// The check of the kind bytes of parts.
ghost use Rattle.std.specs.Prelude.{◌≡◌, ◌*◌, ◌≤◌, length};
ghost use Rattle.tables.specs.Index.{kinds_ok};

use field::read_u32;

// The kinds are 0 and 1.
const LAST_KIND: u32 = 1;

// Is the kind of each of the first h parts 0 or 1?
pub fn check_kinds(parts: &[u8], h: usize) -> bool
    requires { h * 24 ≤ length parts.now }
    ensures { result ≡ kinds_ok h parts.now }
{
    for j in 0..h {
        if LAST_KIND < read_u32(parts, j * 24 + 20) {
            return false;
        }
    }
    true
}
