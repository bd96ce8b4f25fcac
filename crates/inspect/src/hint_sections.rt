// The two sections of a file that have a header of their own: hints, from version 2, and confirmations, from version 3.
ghost use Rattle.std.specs.Prelude.{◌≡◌, ◌+◌, ◌*◌, ◌≤◌, leb, length, drop};
ghost use Rattle.rules.specs.Sections.{hints_ok, confirmations_ok};
ghost use Rattle.rules.specs.Load.{read_hint_section, read_confirmed_section, adds, most_ok, may_confirm, no_hint_header};
ghost use Rattle.tables.specs.Tables.{hints_in, confirmations_in};
ghost use Rattle.inspect.specs.Behind.{headed_of, counted_of};
ghost use Rattle.inspect.specs.Steps.{hint_rest, confirmed_rest, hints_from, confirmed_from};

use crate::cursor::{Cursor, Headed, Pair, Word, cut};
use header::has_fingerprint;
use rules::{
    Area, CONFIRMED, DEFAULT_HINT_SPACING, DEFAULT_MAX_HINTS, HINT, Header, HintHeader, MAX_HINTS,
    MAX_SHORT_HINTS, VERSION_CONFIRMED, VERSION_HINTS, VERSION_MORE_HINTS,
};
use sections::ask;
use sections::records::{check_confirmations, check_hints};

// ---- questions of the sections' headers
// Does version 2 add something? A later version does.
#[tactic(auto, using(std::proofs::lemmas::Bool::Decides::nat_tests), unfolding(rules::specs::Load::adds))]
fn adds_to(h: Header, g: HintHeader) -> bool
    ensures { result ≡ adds h g }
{
    let usual = g.spacing == DEFAULT_HINT_SPACING && g.most == DEFAULT_MAX_HINTS;
    has_fingerprint(h) || 0 < g.count || !usual || VERSION_CONFIRMED <= h.version
}

// May a file of this version have the limit M?
#[tactic(auto, using(std::proofs::lemmas::Bool::Decides::nat_tests), unfolding(rules::specs::Load::most_ok))]
fn most_ok(h: Header, most: u32) -> bool
    ensures { result ≡ most_ok h most }
{
    if h.version < VERSION_MORE_HINTS {
        return most <= MAX_SHORT_HINTS;
    }
    MAX_SHORT_HINTS < most && most <= MAX_HINTS
}

// 28 and 36; there: are the hints there?
#[tactic(auto, using(std::proofs::lemmas::Bool::Decides::nat_tests), unfolding(crate::specs::Steps::hint_rest, rules::specs::Tests::all, rules::specs::Tests::first_no, sections::specs::Sections::asked))]
fn hint_number(h: Header, g: HintHeader, there: bool) -> u32
    ensures { result ≡ hint_rest h g there }
{
    let stated = has_fingerprint(h) || g.fingerprint == 0;
    let counts = most_ok(h, g.most) && g.count <= g.most && there;
    let n = ask(0, g.zero20 == 0, 28);
    ask(n, adds_to(h, g) && stated && counts, 36)
}

// May there be n confirmations?
#[tactic(auto, using(std::proofs::lemmas::Bool::Decides::nat_tests), unfolding(rules::specs::Load::may_confirm))]
fn may_have(h: Header, n: u32) -> bool
    ensures { result ≡ may_confirm h n }
{
    let stated = has_fingerprint(h);
    if h.version < VERSION_MORE_HINTS {
        return stated && 0 < n;
    }
    stated || n == 0
}

// 37; there: are the n confirmations there?
#[tactic(auto, using(std::proofs::lemmas::Bool::Decides::nat_tests), unfolding(crate::specs::Steps::confirmed_rest, rules::specs::Tests::all, rules::specs::Tests::first_no, sections::specs::Sections::asked))]
fn confirmed_number(h: Header, n: u32, reserved: u32, most: u32, there: bool) -> u32
    ensures { result ≡ confirmed_rest h n reserved most there }
{
    ask(0, reserved == 0 && may_have(h, n) && n <= most && there, 37)
}

// What a version 1 file stands for.
fn no_hint_header() -> HintHeader
    ensures { result ≡ no_hint_header }
{
    HintHeader {
        fingerprint: 0,
        spacing: DEFAULT_HINT_SPACING,
        most: DEFAULT_MAX_HINTS,
        count: 0,
        zero20: 0,
    }
}

// ---- the sections, each cut at its count
fn hints_ok(c: Cursor, body: &[u8], n: usize, area: Area) -> bool
    requires { c.at + n * 8 ≤ length body.now }
    ensures { result ≡ hints_ok area (hints_in n (drop c.at body.now)) }
{
    check_hints(cut(&body[c.at..], n * HINT), n, area)
}

fn confirmations_ok(c: Cursor, body: &[u8], n: usize, area: Area) -> bool
    requires { c.at + n * 16 ≤ length body.now }
    ensures { result ≡ confirmations_ok area (confirmations_in n (drop c.at body.now)) }
{
    check_confirmations(cut(&body[c.at..], n * CONFIRMED), n, area)
}

// 28 or 36, or the header g and the cursor behind its hints.
fn hint_list(c: Cursor, body: &[u8], area: Area, h: Header, g: HintHeader) -> Headed
    ensures { result ≡ headed_of body.now (hints_from area h g (leb (c.at + g.count * 8) (length body.now)) (drop c.at body.now)) }
{
    let n = g.count as usize;
    let number = hint_number(h, g, c.holds(body, n * HINT));
    if number != 0 {
        return Headed::Refused(number);
    }
    if !hints_ok(c, body, n, area) {
        return Headed::Refused(36);
    }
    Headed::Header(g, c.past(n * HINT))
}

// 20, 28 or 36, or the hint section's header and the cursor behind the section.
pub fn hint_section(c: Cursor, body: &[u8], area: Area, h: Header) -> Headed
    requires { c.at ≤ length body.now }
    ensures { result ≡ headed_of body.now (read_hint_section area h (drop c.at body.now)) }
{
    if h.version < VERSION_HINTS {
        return Headed::Header(no_hint_header(), c);
    }
    let Headed::Header(g, d) = c.hint_header(body) else {
        return Headed::Refused(20);
    };
    hint_list(d, body, area, h, g)
}

// 37, or the count n of the confirmations and the cursor behind them.
fn confirmed_list(
    c: Cursor,
    body: &[u8],
    area: Area,
    h: Header,
    most: u32,
    n: u32,
    reserved: u32,
) -> Word
    ensures { result ≡ counted_of body.now (confirmed_from area h most n reserved (leb (c.at + n * 16) (length body.now)) (drop c.at body.now)) }
{
    let k = n as usize;
    let number = confirmed_number(h, n, reserved, most, c.holds(body, k * CONFIRMED));
    if number != 0 {
        return Word::Refused(number);
    }
    if !confirmations_ok(c, body, k, area) {
        return Word::Refused(37);
    }
    Word::Number(n, c.past(k * CONFIRMED))
}

// 20 or 37, or the count of the confirmations and the cursor behind them.
pub fn confirmed_section(c: Cursor, body: &[u8], area: Area, h: Header, most: u32) -> Word
    requires { c.at ≤ length body.now }
    ensures { result ≡ counted_of body.now (read_confirmed_section area h most (drop c.at body.now)) }
{
    if h.version < VERSION_CONFIRMED {
        return Word::Number(0, c);
    }
    let Pair::Numbers(n, reserved, d) = c.pair(body) else {
        return Word::Refused(20);
    };
    confirmed_list(d, body, area, h, most, n, reserved)
}
