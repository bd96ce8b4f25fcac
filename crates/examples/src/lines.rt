// One line for each example.
ghost use Rattle.std.specs.Prelude.{◌≡◌, ◌==◌};
ghost use Rattle.examples.specs.Count.{ended};

use crate::tally::{Tally, counted};
use std::io::Write;

// Writes text. Here and in the two calls below a write that fails is passed over.
pub fn say(rt: &HostRuntime, text: &[u8]) {
    let _ = rt.stdout().write_all(text);
}

// Writes n in decimal digits.
pub fn say_decimal(rt: &HostRuntime, n: u64) {
    let _ = print!(rt; "{n}");
}

// Writes n in 16 hexadecimal digits.
fn say_hex(rt: &HostRuntime, n: u64) {
    let _ = print!(rt; "{n:016x}");
}

// Ends a line, and counts its example.
pub fn end(rt: &HostRuntime, t: Tally, right: bool) -> Tally
    ensures { result ≡ ended t right }
{
    say(rt, b"\n");
    counted(t, right)
}

// A line of two numbers of 16 hexadecimal digits.
pub fn hex(rt: &HostRuntime, t: Tally, name: &[u8], got: u64, want: u64) -> Tally
    ensures { result ≡ ended t (got == want) }
{
    say(rt, name);
    say(rt, b": ");
    say_hex(rt, got);
    say(rt, b", should be ");
    say_hex(rt, want);
    end(rt, t, got == want)
}

// A line of two decimal numbers.
pub fn decimal(rt: &HostRuntime, t: Tally, name: &[u8], got: u64, want: u64) -> Tally
    ensures { result ≡ ended t (got == want) }
{
    say(rt, name);
    say(rt, b": ");
    say_decimal(rt, got);
    say(rt, b", should be ");
    say_decimal(rt, want);
    end(rt, t, got == want)
}

// The last line.
pub fn total(rt: &HostRuntime, t: Tally) {
    say_decimal(rt, t.right);
    say(rt, b" of ");
    say_decimal(rt, t.run);
    say(rt, b" as they should be\n");
}
