// hint: the hint that a read for a range of frames begins at, and the end of the read.
#![tactic(auto)]

mod density;
mod nearest;

ghost use Rattle.std.specs.Prelude.{◌≡◌, ◌*◌, ◌<◌, ◌≤◌, length, drop};
ghost use Rattle.rules.specs.Hints.{first_from};
ghost use Rattle.tables.specs.Tables.{kept_in};
ghost use Rattle.tables.specs.Loans.{tables_in};
ghost use Rattle.hint.specs.Hint.{named_of, read_of, answer_of, hint_in};
ghost use Rattle.rules_jump.specs.Names.{named, named_end};
ghost use Rattle.rules.specs.Refusals.{answer_in};
ghost use Rattle.hint.specs.Steps.{HintReads, later_end, hinted_from, read_for};

use crate::density::local_end;
use crate::nearest::hint_place;
use index::{check, is_checked};
use rules::{Area, AreaIndex, HINT_REACH, Hinted, Refusal};
use rules_jump::{HintEnd, HintStart, NamedHint};
use tables::lent::Tables;
use tables::read_hint;

// The upper end through the first of the hints from place i on that is numbered end or more, if at most 64 frames
// past it; 0 where there is none.
fn later_end(hints: &[u8], n: usize, i: usize, end: u32) -> u64
    requires { (n * 8 ≤ length hints.now) × (i ≤ n) }
    ensures { result ≡ later_end end (first_from end (drop i (kept_in n hints.now))) }
{
    for j in i..n {
        let s = read_hint(hints, j);
        if end <= s.number {
            return if s.number - end <= HINT_REACH {
                s.lsn as u64 + 1
            } else {
                0
            };
        }
    }
    0
}

// An upper end at the area's end is named so instead.
#[tactic(auto, unfolding(rules_jump::specs::Names::named_end))]
fn named_end(area: Area, upper: u64, rule: HintEnd) -> HintEnd
    ensures { result ≡ named_end area upper rule }
{
    if upper == area.end {
        HintEnd::AreaEnd
    } else {
        rule
    }
}

// The read from the hint at place i on.
fn hinted_from(
    area: Area,
    hints: &[u8],
    n: usize,
    i: usize,
    end: u32,
    playtime: u32,
    start: HintStart,
) -> NamedHint
    requires { (n * 8 ≤ length hints.now) × (i < n) × (area.start ≤ area.end) × (area.end ≤ 4294967295) }
    ensures { named_of result ≡ named area (kept_in n hints.now) end playtime start i
        (hinted_from area (kept_in n hints.now) i end playtime) }
{
    let h = read_hint(hints, i);
    let upper = later_end(hints, n, i + 1, end);
    if upper != 0 {
        let hint = Hinted {
            lsn: h.lsn,
            number: h.number,
            upper,
            later: true,
        };
        return NamedHint {
            hint,
            start,
            end: named_end(area, upper, HintEnd::Later),
        };
    }
    let local = local_end(area, hints, n, i, end, playtime);
    let hint = Hinted {
        lsn: h.lsn,
        number: h.number,
        upper: local.upper,
        later: false,
    };
    NamedHint {
        hint,
        start,
        end: named_end(area, local.upper, local.rule),
    }
}

// The questions apart.
fn read_for(
    x: AreaIndex,
    first: u32,
    end: u32,
    playtime: u32,
    hints: &[u8],
    confirmed: &[u8],
) -> Option<NamedHint>
    requires { HintReads x hints.now confirmed.now }
    ensures { read_of result ≡ read_for x hints.now confirmed.now first end playtime }
{
    let n = x.hints as usize;
    let found = hint_place(
        hints,
        n,
        confirmed,
        x.confirmed as usize,
        is_checked(x.fingerprint),
        first,
    );
    let i = found.place?;
    Some(hinted_from(x.area, hints, n, i, end, playtime, found.start))
}

// The hint to begin at for frames first to end, and the end of the read.
#[tactic(auto, using(crate::proofs::Answers::hint_no, rules::proofs::Refusals::number_ne0), unfolding(crate::specs::Hint::answer_of, rules::specs::Refusals::answer_in, rules::specs::Refusals::number_in))]
pub fn hint(
    x: AreaIndex,
    first: u32,
    end: u32,
    playtime: u32,
    t: &Tables,
) -> Result<Option<NamedHint>, Refusal>
    ensures { answer_of (answer_in result) ≡ hint_in x (tables_in t.now) first end playtime }
{
    check(x, t)?;
    if end < first {
        return Err(Refusal::HintRange);
    }
    Ok(read_for(x, first, end, playtime, t.hints, t.confirmed))
}
