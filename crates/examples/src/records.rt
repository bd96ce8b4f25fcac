// Examples of the first record of a sector.
ghost use Rattle.std.specs.Prelude.{◌≡◌};
ghost use Rattle.examples.specs.Count.{ended, all_right};
ghost use Rattle.rules.specs.declared.First.TheVariants.{Number, Nothing};
ghost use Rattle.examples.specs.Same.{absence_number, same_first};

use crate::lines;
use crate::tally::Tally;
use rules::{Absence, First, TimeBytes};

// Writes a first record: its number and offset, or why there is none.
fn say_record(rt: &HostRuntime, r: First) {
    match r {
        First::Number(t) => {
            lines::say_decimal(rt, t.number as u64);
            lines::say(rt, b" at ");
            lines::say_decimal(rt, t.offset as u64);
        }
        First::Nothing(a) => {
            say_absence(rt, a);
        }
    }
}

fn say_absence(rt: &HostRuntime, a: Absence) {
    match a {
        Absence::NoFrame => {
            lines::say(rt, b"no frame");
        }
        Absence::Missing => {
            lines::say(rt, b"bytes missing");
        }
    }
}

// 1 no frame starts there, 2 bytes are missing.
fn absence_number(a: Absence) -> u8
    ensures { result ≡ absence_number a }
{
    match a {
        Absence::NoFrame => 1,
        Absence::Missing => 2,
    }
}

#[tactic(auto, using(std::proofs::lemmas::Bool::Decides::nat_tests))]
fn same_number(m: TimeBytes, b: First) -> bool
    ensures { result ≡ same_first (Number m) b }
{
    let First::Number(n) = b else {
        return false;
    };
    m.number == n.number && m.offset == n.offset
}

fn same_absence(a: Absence, b: First) -> bool
    ensures { result ≡ same_first (Nothing a) b }
{
    let First::Nothing(c) = b else {
        return false;
    };
    absence_number(a) == absence_number(c)
}

// Are two first records the same?
fn same(a: First, b: First) -> bool
    ensures { result ≡ same_first a b }
{
    match a {
        First::Number(m) => same_number(m, b),
        First::Nothing(c) => same_absence(c, b),
    }
}

// A line of two first records.
fn line(rt: &HostRuntime, t: Tally, name: &[u8], got: First, want: First) -> Tally
    ensures { result ≡ ended t (same_first got want) }
{
    lines::say(rt, name);
    lines::say(rt, b": ");
    say_record(rt, got);
    lines::say(rt, b", should be ");
    say_record(rt, want);
    lines::end(rt, t, same(got, want))
}

// The lines, each counted as right.
pub fn examples(rt: &HostRuntime, t: Tally) -> Tally
    ensures { result ≡ all_right 4 t }
{
    let whole = first_record::first_record(b"\x24\0\0\x01\x02\x03");
    let t = line(
        rt,
        t,
        b"first record, header 0x24 with 1 2 3 at 3",
        whole,
        First::Number(TimeBytes {
            number: 4653,
            offset: 3,
        }),
    );
    let frameless = first_record::first_record(b"\x20\0\0\x01\x02\x03");
    let t = line(
        rt,
        t,
        b"first record, header 0x20 with 1 2 3 at 3",
        frameless,
        First::Nothing(Absence::NoFrame),
    );
    let short = first_record::first_record(b"\x24\0\0\x01\x02");
    let t = line(
        rt,
        t,
        b"first record, header 0x24 with 1 2 at 3",
        short,
        First::Nothing(Absence::Missing),
    );
    let empty = first_record::first_record(b"");
    line(
        rt,
        t,
        b"first record, no bytes",
        empty,
        First::Nothing(Absence::Missing),
    )
}
