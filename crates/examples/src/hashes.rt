// The vectors of draft-eastlake-fnv for 64-bit FNV-1a.
ghost use Rattle.std.specs.Prelude.{◌≡◌};
ghost use Rattle.examples.specs.Count.{all_right};

use crate::lines;
use crate::tally::Tally;

// The lines, each counted as right.
pub fn vectors(rt: &HostRuntime, t: Tally) -> Tally
    ensures { result ≡ all_right 4 t }
{
    let t = lines::hex(rt, t, b"fnv64 \"\"", fnv::fnv(b""), 0xcbf2_9ce4_8422_2325);
    let t = lines::hex(rt, t, b"fnv64 \"a\"", fnv::fnv(b"a"), 0xaf63_dc4c_8601_ec8c);
    let t = lines::hex(
        rt,
        t,
        b"fnv64 \"foobar\"",
        fnv::fnv(b"foobar"),
        0x8594_4171_f739_67e8,
    );
    lines::hex(
        rt,
        t,
        b"fnv64 \"Hello!\" 01 ff ed",
        fnv::fnv(b"Hello!\x01\xff\xed"),
        0xbd51_ea70_94ee_6fa1,
    )
}
