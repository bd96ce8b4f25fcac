// Of question 43: the checkpoints that two lists both have, compared.
ghost use Rattle.std.specs.Prelude.{◌≡◌, ◌*◌, ◌≤◌, length};
ghost use Rattle.rules.specs.Tests.{agrees};
ghost use Rattle.rules.specs.Values.{same_checkpoint};
ghost use Rattle.tables.specs.Tables.{checkpoints_in};

use field::same;

// The checkpoints that both have, compared as bytes.
pub fn same_checkpoints(a: &[u8], n: u32, b: &[u8], m: u32) -> bool
    requires { (n * 24 ≤ length a.now) × (m * 24 ≤ length b.now) }
    ensures { result ≡ agrees same_checkpoint (checkpoints_in n a.now) (checkpoints_in m b.now) }
{
    let common = n.min(m) as usize * 24;
    same(&a[..common], &b[..common])
}
