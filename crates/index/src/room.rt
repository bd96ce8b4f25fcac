// Questions 1 and 2, the space that 3 asks of the tables of hints, and the lower of two refusals.
#![tactic(auto, using(std::proofs::lemmas::Bool::Decides::nat_tests), unfolding(rules::specs::Questions::area_ok, rules::specs::Questions::numbers_ok, rules::specs::Questions::hinting_room, rules::specs::Tests::all, tables::specs::Index::hint_room, tables::specs::Index::lowest))]

ghost use Rattle.std.specs.Prelude.{◌≡◌, ◌/◌, ◌<◌, leb, length};
ghost use Rattle.rules.specs.Questions.{area_ok, numbers_ok};
ghost use Rattle.rules.specs.Refusals.{number_in};
ghost use Rattle.tables.specs.Index.{hint_room, lowest};

use rules::{Area, MAX_INTERVAL, MAX_U32, MERGE_ROOM, Refusal};

// Question 1 of an area.
pub fn question1(area: Area) -> bool
    ensures { result ≡ area_ok area }
{
    area.key.slot <= 1 && area.start <= area.end && area.end <= MAX_U32
}

// Question 2 of an interval and a budget.
pub fn question2(interval: u32, budget: u64) -> bool
    ensures { result ≡ numbers_ok interval budget }
{
    1 <= interval && interval <= MAX_INTERVAL && budget <= MAX_U32
}

// Has t space for count records of width bytes?
pub fn fits(count: u64, t: &[u8], width: usize) -> bool
    requires { 0 < width }
    ensures { result ≡ leb count (length t.now / width) }
{
    count <= (t.len() / width) as u64
}

// The tables of hints and confirmations.
pub fn hinting_room(most: u32, hints: &[u8], confirmed: &[u8]) -> bool
    ensures { result ≡ hint_room most hints.now confirmed.now }
{
    fits(most as u64 + MERGE_ROOM, hints, 8) && fits(most as u64 + 1, confirmed, 16)
}

// The lower of two refusal numbers, where 0 is none.
pub fn lowest(m: u32, n: u32) -> u32
    ensures { result ≡ lowest m n }
{
    if m == 0 {
        return n;
    }
    if n == 0 {
        return m;
    }
    m.min(n)
}

// Of the answers of two lists the refusal with the lower number; an acceptance where both accept.
#[tactic(auto, using(std::proofs::lemmas::Bool::Decides::nat_tests, rules::proofs::Refusals::number_ne0), unfolding(tables::specs::Index::lowest, rules::specs::Refusals::number_in))]
pub fn lower(own: Result<(), Refusal>, other: Result<(), Refusal>) -> Result<(), Refusal>
    ensures { number_in result ≡ lowest (number_in own) (number_in other) }
{
    let Err(m) = own else {
        return other;
    };
    let Err(n) = other else {
        return own;
    };
    if u32::from(m) <= u32::from(n) {
        own
    } else {
        other
    }
}
