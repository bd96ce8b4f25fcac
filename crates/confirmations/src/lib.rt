// keep_confirmation: one confirmation kept beside those of an index.
#![tactic(auto)]

pub mod confirm;

ghost use Rattle.std.specs.Prelude.{◌≡◌, true, ◌&&◌, ltb};
ghost use Rattle.rules.specs.Values.{lim};
ghost use Rattle.rules.specs.File.{encode_confirmation};
ghost use Rattle.rules.specs.Hints.{in_area, keep};
ghost use Rattle.rules.specs.Refusals.{answer_in};
ghost use Rattle.laws.specs.Passes.{Begins};
ghost use Rattle.tables.specs.Tables.{confirmations_in};
ghost use Rattle.tables.specs.Index.{tables};
ghost use Rattle.confirmations.specs.Confirmations.{given, kept_out, keep_in};
ghost use Rattle.confirmations.specs.Steps.{Room, with_count};

use crate::confirm::{merge_confirmations, write_confirmation};
use index::{check, is_checked};
use rules::{Area, AreaIndex, CONFIRMED, Confirmation, MAX_NEXT_ACCEPTABLE, Refusal};
use tables::lent::Tables;

// 14: LSN in the area, threshold < LIM?
#[tactic(auto, unfolding(rules::specs::Hints::in_area))]
fn question14(area: Area, lsn: u64, threshold: u32) -> bool
    ensures { result ≡ (in_area area lsn && ltb threshold lim) }
{
    area.start <= lsn && lsn < area.end && threshold < MAX_NEXT_ACCEPTABLE
}

// c kept beside the first n confirmations of t, of which there are at most M.
fn keep_one(most: u32, n: u32, t: &mut [u8], c: Confirmation) -> u32
    requires { Room most n t.old }
    ensures { Begins 16 encode_confirmation (keep true most (confirmations_in n t.old) c) result t.old
        t.new }
{
    let mut one = [0u8; CONFIRMED];
    write_confirmation(&mut one, 0, c);
    merge_confirmations(true, most, n, t, &one, 1)
}

fn with_count(x: AreaIndex, n: u32) -> AreaIndex
    ensures { result ≡ with_count x n }
{
    AreaIndex { confirmed: n, ..x }
}

// The confirmation kept by its rule.
#[tactic(auto, using(crate::proofs::Keeping::keep_no, rules::proofs::Refusals::number_ne0), unfolding(rules::specs::Refusals::answer_in, rules::specs::Refusals::number_in))]
pub fn keep_confirmation(
    x: AreaIndex,
    lsn: u64,
    threshold: u32,
    digest: u64,
    checkpoints: &[u8],
    frames: &[u8],
    store: &[u8],
    parts: &[u8],
    malformed: &[u8],
    hints: &[u8],
    confirmed: &mut [u8],
) -> Result<Option<AreaIndex>, Refusal>
    ensures { kept_out (answer_in result) (tables checkpoints.now frames.now store.now parts.now
        malformed.now hints.now confirmed.new)
        ≡ keep_in x (tables checkpoints.now frames.now store.now parts.now
        malformed.now hints.now confirmed.old) (given lsn threshold digest) }
{
    let t = Tables {
        checkpoints,
        frames,
        store,
        parts,
        malformed,
        hints,
        confirmed: &*confirmed,
    };
    check(x, &t)?;
    if !question14(x.area, lsn, threshold) {
        return Err(Refusal::Confirmation);
    }
    if !is_checked(x.fingerprint) || x.most == 0 {
        return Ok(None);
    }
    let c = Confirmation {
        lsn: lsn as u32,
        threshold,
        digest,
    };
    let count = keep_one(x.most, x.confirmed, confirmed, c);
    Ok(Some(with_count(x, count)))
}
