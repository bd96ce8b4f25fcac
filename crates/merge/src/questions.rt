// What a merge asks of two lists in their tables: 1 to 4 of both, and 41 to 43.

ghost use Rattle.std.specs.Prelude.{◌≡◌, ◌*◌, ◌≤◌, eqb, length};
ghost use Rattle.rules.specs.Tests.{agree};
ghost use Rattle.rules.specs.Values.{stated, same_area, same_end};
ghost use Rattle.rules.specs.Refusals.{number_in};
ghost use Rattle.tables.specs.Loans.{tables_in};
ghost use Rattle.merge.specs.Merge.{merge_refusal};
ghost use Rattle.merge.specs.Steps.{area_agrees, image_agrees, reading_agrees, join_number};

use crate::common::same_checkpoints;
use index::check;
use index::create::agrees;
use index::room::lower;
use rules::{Area, AreaIndex, EndState, Fingerprint, Refusal};
use tables::lent::Tables;

// ---- 41
#[tactic(auto, unfolding(rules::specs::Values::same_area, rules::specs::Values::same_key, rules::specs::Tests::all))]
pub fn same_area(a: Area, b: Area) -> bool
    ensures { result ≡ same_area a b }
{
    a == b
}

// 41: same area and interval?
#[tactic(auto, unfolding(crate::specs::Steps::area_agrees, rules::specs::Merge::question41, rules::specs::Tests::all))]
fn question41(x: AreaIndex, y: AreaIndex) -> bool
    ensures { result ≡ area_agrees x y }
{
    same_area(x.area, y.area) && x.interval == y.interval
}

// ---- 42
#[tactic(auto, unfolding(rules::specs::Tests::agree))]
pub fn same_image(a: Option<u64>, b: Option<u64>) -> bool
    ensures { result ≡ agree eqb a b }
{
    match (a, b) {
        (Some(v), Some(w)) => v == w,
        _ => true,
    }
}

#[tactic(auto, unfolding(rules::specs::Values::stated, rules::specs::Tests::agree))]
fn same_fingerprint(a: Fingerprint, b: Fingerprint) -> bool
    ensures { result ≡ agree eqb (stated a) (stated b) }
{
    match b {
        Fingerprint::Unknown => true,
        Fingerprint::Held(v) | Fingerprint::Checked(v) => agrees(a, v),
    }
}

// 42: no differing image id or fingerprint?
#[tactic(auto, unfolding(crate::specs::Steps::image_agrees, rules::specs::Merge::question42, rules::specs::Tests::all))]
fn question42(x: AreaIndex, y: AreaIndex) -> bool
    ensures { result ≡ image_agrees x y }
{
    same_image(x.image, y.image) && same_fingerprint(x.fingerprint, y.fingerprint)
}

// ---- 43
#[tactic(auto, unfolding(rules::specs::Values::same_end, rules::specs::Tests::all))]
fn same_state(a: EndState, b: EndState) -> bool
    ensures { result ≡ same_end a b }
{
    a.threshold == b.threshold && a.malformed == b.malformed
}

#[tactic(auto, unfolding(rules::specs::Tests::agree))]
pub fn same_end(a: Option<EndState>, b: Option<EndState>) -> bool
    ensures { result ≡ agree same_end a b }
{
    match (a, b) {
        (Some(e), Some(f)) => same_state(e, f),
        _ => true,
    }
}

// 43: common checkpoints, all four fields, and, where both have them, end states equal?
#[tactic(auto, unfolding(crate::specs::Steps::reading_agrees, rules::specs::Merge::question43, rules::specs::Tests::all))]
fn question43(x: AreaIndex, y: AreaIndex, checkpoints: &[u8], other: &[u8]) -> bool
    requires { (x.checkpoints * 24 ≤ length checkpoints.now) × (y.checkpoints * 24 ≤ length other.now) }
    ensures { result ≡ reading_agrees x checkpoints.now y other.now }
{
    same_checkpoints(checkpoints, x.checkpoints, other, y.checkpoints)
        && same_end(x.ending, y.ending)
}

// Questions 41 to 43.
#[tactic(auto, unfolding(crate::specs::Steps::join_number, crate::specs::Steps::area_agrees, crate::specs::Steps::image_agrees, crate::specs::Steps::reading_agrees, rules::specs::Merge::question41, rules::specs::Merge::question42, rules::specs::Tests::first_no, rules::specs::Refusals::number_in, rules::specs::Refusals::refusal_number))]
pub fn check_join(
    x: AreaIndex,
    y: AreaIndex,
    checkpoints: &[u8],
    other: &[u8],
) -> Result<(), Refusal>
    requires { (x.checkpoints * 24 ≤ length checkpoints.now) × (y.checkpoints * 24 ≤ length other.now) }
    ensures { number_in result ≡ join_number x checkpoints.now y other.now }
{
    if !question41(x, y) {
        return Err(Refusal::MergeArea);
    }
    if !question42(x, y) {
        return Err(Refusal::MergeIds);
    }
    if !question43(x, y, checkpoints, other) {
        return Err(Refusal::MergeCheckpoints);
    }
    Ok(())
}

// ---- all questions of a merge
// Questions 1 to 4 of the lists x and y, in t and other, then 41 to 43.
#[tactic(auto, using(crate::proofs::questions::Refusal::first_refuses, rules::proofs::Refusals::number_ne0), unfolding(rules::specs::Refusals::number_in))]
pub fn check_merge(x: AreaIndex, y: AreaIndex, t: &Tables, other: &Tables) -> Result<(), Refusal>
    ensures { number_in result ≡ merge_refusal x (tables_in t.now) y (tables_in other.now) }
{
    let own = check(x, t);
    let theirs = check(y, other);
    lower(own, theirs)?;
    check_join(x, y, t.checkpoints, other.checkpoints)
}
