// Saving one list, or both lists of a disc, as a disc file.
#![tactic(auto)]

mod layout;
pub mod length;

ghost use Rattle.std.specs.Prelude.{◌≡◌, ◌+◌, ◌≤◌, [], ◌∷◌, length};
ghost use Rattle.rules.specs.File.{saved, saved_length};
ghost use Rattle.rules_disc.specs.Disc.{by_slot};
ghost use Rattle.rules.specs.Refusals.{answer_in, number_in};
ghost use Rattle.tables.specs.Index.{index_in, refusal, lowest};
ghost use Rattle.save.specs.Output.{Put};
ghost use Rattle.save.specs.Save.{made};
ghost use Rattle.disc_save.specs.DiscSave.{save_one_in, save_both_in};
ghost use Rattle.disc_save.specs.Steps.{table_of_two, saved_as};
ghost use Rattle.tables.specs.Loans.{tables_in};

use crate::layout::{entry_of_one, length_of_one, slot_of, stands_first};
use disc_load::contents::{write_one, write_two};
use disc_load::questions::{one_fits, two_fit};
use index::check;
use index::room::lower;
use rules::{AreaIndex, Refusal};
use rules_disc::Entry;
use save::layout::saved_length;
use save::output::long_enough;
use save::write_saved;
use tables::lent::Tables;

// The list's file into its own stretch of the output.
fn put_list(out: &mut [u8], at: usize, len: u64, x: AreaIndex, t: &Tables) -> usize
    requires { (refusal x (tables_in t.now) ≡ 0)
        × (len ≡ saved_length (index_in x (tables_in t.now)))
        × (at + len ≤ length out.old) }
    ensures { Put (saved (index_in x (tables_in t.now))) len out.old at result out.new }
{
    let to = at + len as usize;
    write_saved(&mut out[at..to], x, t);
    to
}

// ---- one list
// A list that passes 1 to 4: 54, 40, then the file.
fn write_list(x: AreaIndex, t: &Tables, out: &mut [u8]) -> Result<u64, Refusal>
    requires { refusal x (tables_in t.now) ≡ 0 }
    ensures { made (answer_in result) out.new ≡ saved_as (index_in x (tables_in t.now) ∷ []) out.old }
{
    let slot = slot_of(x);
    let m = saved_length(x, t.frames);
    if !one_fits(m) {
        return Err(Refusal::Disc);
    }
    let total = length_of_one(m);
    if !long_enough(out.len() as u64, total) {
        return Err(Refusal::Output);
    }
    let at = write_one(out, entry_of_one(slot, m));
    put_list(out, at, m, x, t);
    Ok(total)
}

// The disc file of one list: 1 to 4, 54, 40. What lies past the length stays.
#[tactic(auto, using(crate::proofs::Answers::one_refused, rules::proofs::Refusals::number_ne0), unfolding(rules::specs::Refusals::answer_in, rules::specs::Refusals::number_in))]
pub fn save_one(x: AreaIndex, t: &Tables, out: &mut [u8]) -> Result<u64, Refusal>
    ensures { made (answer_in result) out.new ≡ save_one_in x (tables_in t.now) out.old }
{
    check(x, t)?;
    write_list(x, t, out)
}

// ---- both lists
// The contents table of two lists whose files have m and n bytes.
fn write_table(out: &mut [u8], slot: u8, m: u64, next: u8, n: u64) -> usize
    requires { (m ≤ 4294967267) × (n ≤ 4294967295) × (28 ≤ length out.old) }
    ensures { Put (table_of_two slot m next n) 28 out.old 0 result out.new }
{
    let first = Entry {
        slot: slot as u32,
        offset: 28,
        len: m as u32,
    };
    let second = Entry {
        slot: next as u32,
        offset: (28 + m) as u32,
        len: n as u32,
    };
    write_two(out, first, second)
}

// Two lists that pass 1 to 4, in the order of their slots: 54, 40, then the file.
fn write_lists(
    x: AreaIndex,
    y: AreaIndex,
    t: &Tables,
    other: &Tables,
    out: &mut [u8],
) -> Result<u64, Refusal>
    requires { (refusal x (tables_in t.now) ≡ 0) × (refusal y (tables_in other.now) ≡ 0) }
    ensures { made (answer_in result) out.new
        ≡ saved_as (index_in x (tables_in t.now) ∷ index_in y (tables_in other.now) ∷ []) out.old }
{
    let slot = slot_of(x);
    let next = slot_of(y);
    let m = saved_length(x, t.frames);
    let n = saved_length(y, other.frames);
    if !two_fit(slot, m, next, n) {
        return Err(Refusal::Disc);
    }
    let total = 28 + m + n;
    if !long_enough(out.len() as u64, total) {
        return Err(Refusal::Output);
    }
    let at = write_table(out, slot, m, next, n);
    let at = put_list(out, at, m, x, t);
    put_list(out, at, n, y, other);
    Ok(total)
}

// 1 to 4 of both lists: the first answered no.
pub fn ask_both(x: AreaIndex, y: AreaIndex, t: &Tables, other: &Tables) -> Result<(), Refusal>
    ensures { number_in result ≡ lowest (refusal x (tables_in t.now)) (refusal y (tables_in other.now)) }
{
    lower(check(x, t), check(y, other))
}

// Two lists that pass 1 to 4, by slot.
fn write_by_slot(
    x: AreaIndex,
    y: AreaIndex,
    t: &Tables,
    other: &Tables,
    out: &mut [u8],
) -> Result<u64, Refusal>
    requires { (refusal x (tables_in t.now) ≡ 0) × (refusal y (tables_in other.now) ≡ 0) }
    ensures { made (answer_in result) out.new
        ≡ saved_as (by_slot (index_in x (tables_in t.now)) (index_in y (tables_in other.now))) out.old }
{
    if stands_first(x, y) {
        write_lists(x, y, t, other, out)
    } else {
        write_lists(y, x, other, t, out)
    }
}

// The disc file of two lists, whichever is given first: 1 to 4 of both, 54, 40. What lies past the length stays.
#[tactic(auto, using(crate::proofs::Answers::both_refused, rules::proofs::Refusals::number_ne0), unfolding(rules::specs::Refusals::answer_in, rules::specs::Refusals::number_in))]
pub fn save_both(
    x: AreaIndex,
    y: AreaIndex,
    t: &Tables,
    other: &Tables,
    out: &mut [u8],
) -> Result<u64, Refusal>
    ensures { made (answer_in result) out.new ≡ save_both_in x (tables_in t.now) y (tables_in other.now) out.old }
{
    ask_both(x, y, t, other)?;
    write_by_slot(x, y, t, other, out)
}
