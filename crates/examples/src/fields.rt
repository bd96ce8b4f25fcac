// The header's table of offsets and widths.
ghost use Rattle.std.specs.Prelude.{◌<◌};

use crate::lines;

// The line of field number i.
fn line(rt: &HostRuntime, i: usize)
    requires { i < 19 }
{
    let f = header::field_of(i);
    lines::say(rt, b"header field ");
    lines::say_decimal(rt, i as u64);
    lines::say(rt, b": offset ");
    lines::say_decimal(rt, f.offset as u64);
    lines::say(rt, b", width ");
    lines::say_decimal(rt, f.width as u64);
    lines::say(rt, b"\n");
}

// One line for each field, in the order of the file.
pub fn table(rt: &HostRuntime) {
    for i in 0..19 {
        line(rt, i);
    }
}
