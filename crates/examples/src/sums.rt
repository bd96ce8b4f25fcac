// The vectors of the hash text for short sums, more of them for 64 bits, and folded sums.
ghost use Rattle.std.specs.Prelude.{◌≡◌, ◌==◌};
ghost use Rattle.fnv.specs.Fnv.{fnv64};
ghost use Rattle.short_sum.specs.ShortSum.{fnv32};
ghost use Rattle.examples.specs.Count.{ended, all_right};

use crate::lines;
use crate::tally::Tally;
use short_sum::Folded;

// A line of the short sum of bytes.
fn short_line(rt: &HostRuntime, t: Tally, name: &[u8], bytes: &[u8], want: u64) -> Tally
    ensures { result ≡ ended t (fnv32 bytes.now == want) }
{
    lines::hex(rt, t, name, short_sum::fnv32(bytes) as u64, want)
}

// A line of the 64-bit sum of bytes.
fn long_line(rt: &HostRuntime, t: Tally, name: &[u8], bytes: &[u8], want: u64) -> Tally
    ensures { result ≡ ended t (fnv64 bytes.now == want) }
{
    lines::hex(rt, t, name, fnv::fnv(bytes), want)
}

// No byte and one letter.
fn letters(rt: &HostRuntime, t: Tally) -> Tally
    ensures { result ≡ all_right 7 t }
{
    let t = short_line(rt, t, b"fnv32 \"\"", b"", 0x811c_9dc5);
    let t = short_line(rt, t, b"fnv32 \"a\"", b"a", 0xe40c_292c);
    let t = short_line(rt, t, b"fnv32 \"b\"", b"b", 0xe70c_2de5);
    let t = short_line(rt, t, b"fnv32 \"c\"", b"c", 0xe60c_2c52);
    let t = short_line(rt, t, b"fnv32 \"d\"", b"d", 0xe10c_2473);
    let t = short_line(rt, t, b"fnv32 \"e\"", b"e", 0xe00c_22e0);
    short_line(rt, t, b"fnv32 \"f\"", b"f", 0xe30c_2799)
}

// Several letters.
fn words(rt: &HostRuntime, t: Tally) -> Tally
    ensures { result ≡ all_right 5 t }
{
    let t = short_line(rt, t, b"fnv32 \"fo\"", b"fo", 0x6222_e842);
    let t = short_line(rt, t, b"fnv32 \"foo\"", b"foo", 0xa9f3_7ed7);
    let t = short_line(rt, t, b"fnv32 \"foob\"", b"foob", 0x3f50_76ef);
    let t = short_line(rt, t, b"fnv32 \"fooba\"", b"fooba", 0x39aa_a18a);
    short_line(rt, t, b"fnv32 \"foobar\"", b"foobar", 0xbf9c_f968)
}

// Zero bytes.
fn zeros(rt: &HostRuntime, t: Tally) -> Tally
    ensures { result ≡ all_right 3 t }
{
    let t = short_line(rt, t, b"fnv32 00", b"\0", 0x050c_5d1f);
    let t = short_line(rt, t, b"fnv32 \"a\" 00", b"a\0", 0x2b24_d044);
    short_line(rt, t, b"fnv32 \"foobar\" 00", b"foobar\0", 0x0c1c_9eb8)
}

// 64 bits.
fn long_sums(rt: &HostRuntime, t: Tally) -> Tally
    ensures { result ≡ all_right 3 t }
{
    let t = long_line(rt, t, b"fnv64 \"b\"", b"b", 0xaf63_df4c_8601_f1a5);
    let t = long_line(rt, t, b"fnv64 \"c\"", b"c", 0xaf63_de4c_8601_eff2);
    long_line(rt, t, b"fnv64 00", b"\0", 0xaf63_bd4c_8601_b7df)
}

// A line of a folded sum.
fn folded(rt: &HostRuntime, t: Tally, name: &[u8], got: Folded, want: u64) -> Tally {
    match got {
        Folded::Refused(_) => {
            lines::say(rt, name);
            lines::say(rt, b": refused");
            lines::end(rt, t, false)
        }
        Folded::Sum(s) => lines::hex(rt, t, name, s, want),
    }
}

// A line of a fold that is refused with 49.
fn refused(rt: &HostRuntime, t: Tally, name: &[u8], got: Folded) -> Tally {
    match got {
        Folded::Refused(n) => lines::decimal(rt, t, name, n as u64, 49),
        Folded::Sum(_) => {
            lines::say(rt, name);
            lines::say(rt, b": not refused");
            lines::end(rt, t, false)
        }
    }
}

// Sums of 32 bits, folded.
fn folds32(rt: &HostRuntime, t: Tally) -> Tally {
    let s = 0xbf9c_f968;
    let t = folded(
        rt,
        t,
        b"bf9cf968 to 16 bits",
        short_sum::fold32(s, 16),
        0x46f4,
    );
    let t = folded(
        rt,
        t,
        b"bf9cf968 to 24 bits",
        short_sum::fold32(s, 24),
        0x009c_f9d7,
    );
    let t = folded(
        rt,
        t,
        b"bf9cf968 to 31 bits",
        short_sum::fold32(s, 31),
        0x3f9c_f969,
    );
    folded(
        rt,
        t,
        b"811c9dc5 to 16 bits",
        short_sum::fold32(0x811c_9dc5, 16),
        0x1cd9,
    )
}

// Sums of 64 bits, folded.
fn folds64(rt: &HostRuntime, t: Tally) -> Tally {
    let s = 0x8594_4171_f739_67e8;
    let t = folded(
        rt,
        t,
        b"85944171f73967e8 to 32 bits",
        short_sum::fold64(s, 32),
        0x72ad_2699,
    );
    let t = folded(
        rt,
        t,
        b"85944171f73967e8 to 48 bits",
        short_sum::fold64(s, 48),
        0x4171_f739_e27c,
    );
    let t = folded(
        rt,
        t,
        b"85944171f73967e8 to 56 bits",
        short_sum::fold64(s, 56),
        0x0094_4171_f739_676d,
    );
    let t = folded(
        rt,
        t,
        b"85944171f73967e8 to 63 bits",
        short_sum::fold64(s, 63),
        0x0594_4171_f739_67e9,
    );
    folded(
        rt,
        t,
        b"cbf29ce484222325 to 32 bits",
        short_sum::fold64(0xcbf2_9ce4_8422_2325, 32),
        0x4fd0_bfc1,
    )
}

// k below half the width, and at the width.
fn refusals(rt: &HostRuntime, t: Tally) -> Tally {
    let s = 0xbf9c_f968;
    let l = 0x8594_4171_f739_67e8;
    let t = refused(rt, t, b"bf9cf968 to 15 bits", short_sum::fold32(s, 15));
    let t = refused(rt, t, b"bf9cf968 to 32 bits", short_sum::fold32(s, 32));
    let t = refused(
        rt,
        t,
        b"85944171f73967e8 to 31 bits",
        short_sum::fold64(l, 31),
    );
    refused(
        rt,
        t,
        b"85944171f73967e8 to 64 bits",
        short_sum::fold64(l, 64),
    )
}

pub fn examples(rt: &HostRuntime, t: Tally) -> Tally {
    let t = letters(rt, t);
    let t = words(rt, t);
    let t = zeros(rt, t);
    let t = long_sums(rt, t);
    let t = folds32(rt, t);
    let t = folds64(rt, t);
    refusals(rt, t)
}
