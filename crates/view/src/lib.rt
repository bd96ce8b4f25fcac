// Views of a list (change request 10): what a listener and what the workshop sees of it, as bytes in a lent output.
#![tactic(auto)]

pub mod write;

ghost use Rattle.std.specs.Prelude.{◌≡◌, true, [], ◌+◌, ◌*◌, ◌≤◌, length};
ghost use Rattle.rules.specs.File.{over};
ghost use Rattle.rules_view.specs.View.{is_role, is_workshop, view_bytes, view_length};
ghost use Rattle.rules.specs.Refusals.{answer_in, number_in};
ghost use Rattle.tables.specs.Index.{index_in, tables};
ghost use Rattle.tables.specs.Index as lists;
ghost use Rattle.tables.specs.Loans.{tables_in};
ghost use Rattle.view.specs.Sections.{Shown};
ghost use Rattle.view.specs.View.{viewed, view_in, view_size_in, block_refusal};
ghost use Rattle.view.specs.Steps.{asked};

use crate::write::{put_listener, put_workshop};
use blocks::read::is_index;
use index::check;
use rules::{AreaIndex, Refusal};
use save::output::long_enough;
use tables::lent::Tables;

// ---- questions and lengths
// 52: is the role 1 (listener) or 2 (workshop)?
#[tactic(auto, unfolding(rules_view::specs::View::is_role))]
pub fn is_role(role: u32) -> bool
    ensures { result ≡ is_role role }
{
    role == 1 || role == 2
}

// 52 of what the workshop alone may call: is the role 2?
pub fn is_workshop(role: u32) -> bool
    ensures { result ≡ is_workshop role }
{
    role == 2
}

// 52, then 3 of the block with the list's numbers.
#[tactic(auto, unfolding(crate::specs::View::block_refusal, rules::specs::Tests::first_no, rules::specs::Refusals::number_in, rules::specs::Refusals::refusal_number))]
pub fn check_block(role: u32, head: &[u8]) -> Result<(), Refusal>
    ensures { number_in result ≡ block_refusal role head.now }
{
    if !is_role(role) {
        return Err(Refusal::Role);
    }
    if !is_index(head) {
        return Err(Refusal::Room);
    }
    Ok(())
}

// 52, then 1 to 4.
#[tactic(auto, unfolding(crate::specs::Steps::asked, rules::specs::Refusals::number_in, rules::specs::Refusals::refusal_number))]
fn check_view(role: u32, x: AreaIndex, t: &Tables) -> Result<(), Refusal>
    ensures { number_in result ≡ asked role x (tables_in t.now) }
{
    if is_role(role) {
        check(x, t)
    } else {
        Err(Refusal::Role)
    }
}

// Of n checkpoints, m malformed LSNs, h held parts, s hints and c confirmations.
fn workshop_size(n: u32, m: u32, h: u32, s: u32, c: u32) -> u64
    ensures { result ≡ 136 + 20 * n + 4 * m + 8 * h + 9 * s + 16 * c }
{
    136 + 20 * n as u64 + 4 * m as u64 + 8 * h as u64 + 9 * s as u64 + 16 * c as u64
}

// The bytes of a view.
fn size(role: u32, x: AreaIndex) -> u64
    ensures { (t : lists.Tables) → result ≡ view_length role (index_in x t) }
{
    if role == 1 {
        88 + 8 * x.checkpoints as u64
    } else {
        workshop_size(x.checkpoints, x.malformed, x.parts, x.hints, x.confirmed)
    }
}

// The length that a view will have: 52, then 1 to 4.
pub fn view_length(role: u32, x: AreaIndex, t: &Tables) -> Result<u64, Refusal>
    ensures { answer_in result ≡ view_size_in role x (tables_in t.now) }
{
    check_view(role, x, t)?;
    Ok(size(role, x))
}

// ---- the view
// Over the start of the output.
fn write_view(
    out: &mut [u8],
    role: u32,
    x: AreaIndex,
    checkpoints: &[u8],
    parts: &[u8],
    malformed: &[u8],
    hints: &[u8],
    confirmed: &[u8],
)
    requires { Shown x checkpoints.now parts.now malformed.now hints.now confirmed.now
        × (is_role role ≡ true)
        × (view_length role
        (index_in x (tables checkpoints.now [] [] parts.now malformed.now hints.now confirmed.now))
        ≤ length out.old) }
    ensures { out.new
        ≡ over
        (view_bytes role
        (index_in x
        (tables checkpoints.now [] [] parts.now malformed.now
        hints.now confirmed.now)))
        out.old }
{
    let at = put_listener(out, role, x, checkpoints);
    if role != 1 {
        put_workshop(out, at, x, checkpoints, parts, malformed, hints, confirmed);
    }
}

// 52, then 1 to 4, then 40: is the output long enough? What lies past the length stays.
pub fn view(role: u32, x: AreaIndex, t: &Tables, out: &mut [u8]) -> Result<u64, Refusal>
    ensures { viewed (answer_in result) out.new ≡ view_in role x (tables_in t.now) out.old }
{
    check_view(role, x, t)?;
    let length = size(role, x);
    if !long_enough(out.len() as u64, length) {
        return Err(Refusal::Output);
    }
    write_view(
        out,
        role,
        x,
        t.checkpoints,
        t.parts,
        t.malformed,
        t.hints,
        t.confirmed,
    );
    Ok(length)
}
