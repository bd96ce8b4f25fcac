// How long the disc file of one list, or of both lists, will be.
ghost use Rattle.std.specs.Prelude.{◌≡◌};
ghost use Rattle.std.specs.Result.{result_unwrap_or};
ghost use Rattle.rules.specs.Refusals.{answer_in, number_in};
ghost use Rattle.tables.specs.Loans.{tables_in};
ghost use Rattle.disc_save.specs.DiscSave.{one_length, both_length, one_length_in, both_length_in};
ghost use Rattle.disc_save.specs.Steps.{length_of_two, length_by_slot};

use crate::ask_both;
use crate::layout::slot_of;
use disc_load::questions::{one_fits, two_fit};
use index::check;
use rules::{AreaIndex, Refusal};
use save::layout::saved_length;
use tables::lent::Tables;

// 1 to 4, 54, then the length; as one number the length, or that of the refusal.
#[tactic(auto, using(crate::proofs::length::Lengths::one_refused, crate::proofs::length::Lengths::one_number_refused, rules::proofs::Refusals::number_ne0), unfolding(rules::specs::Refusals::answer_in, rules::specs::Refusals::number_in))]
pub fn one_length(x: AreaIndex, t: &Tables) -> Result<u64, Refusal>
    ensures answer { answer_in result ≡ one_length_in x (tables_in t.now) }
    ensures number { result_unwrap_or result (number_in result) ≡ one_length x (tables_in t.now) }
{
    check(x, t)?;
    let m = saved_length(x, t.frames);
    if !one_fits(m) {
        return Err(Refusal::Disc);
    }
    Ok(16 + m)
}

// Two lists in the order of their slots, whose files have m and n bytes: 54, then the length.
fn two_length(slot: u8, m: u64, next: u8, n: u64) -> Result<u64, Refusal>
    ensures { answer_in result ≡ length_of_two slot m next n }
{
    if !two_fit(slot, m, next, n) {
        return Err(Refusal::Disc);
    }
    Ok(28 + m + n)
}

// Two lists, whichever is given first.
#[tactic(auto, unfolding(crate::specs::Steps::length_by_slot))]
fn length_by_slot(slot: u8, m: u64, next: u8, n: u64) -> Result<u64, Refusal>
    ensures { answer_in result ≡ length_by_slot slot m next n }
{
    if slot < next {
        two_length(slot, m, next, n)
    } else {
        two_length(next, n, slot, m)
    }
}

// 1 to 4 of both, 54, then the length; as one number the length, or that of the refusal.
#[tactic(auto, using(crate::proofs::length::Lengths::both_refused, crate::proofs::length::Lengths::both_number_refused, rules::proofs::Refusals::number_ne0), unfolding(rules::specs::Refusals::answer_in, rules::specs::Refusals::number_in))]
pub fn both_length(x: AreaIndex, y: AreaIndex, t: &Tables, other: &Tables) -> Result<u64, Refusal>
    ensures answer { answer_in result ≡ both_length_in x (tables_in t.now) y (tables_in other.now) }
    ensures number { result_unwrap_or result (number_in result) ≡ both_length x (tables_in t.now) y (tables_in other.now) }
{
    ask_both(x, y, t, other)?;
    let m = saved_length(x, t.frames);
    let n = saved_length(y, other.frames);
    length_by_slot(slot_of(x), m, slot_of(y), n)
}
