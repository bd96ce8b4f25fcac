// merge: two lists joined in their tables, and questions 41 to 43.
#![tactic(auto)]

pub mod common;
pub mod goes_further;
pub mod keys;
pub mod numbers;
pub mod questions;
pub mod take;

ghost use Rattle.std.specs.Prelude.{◌≡◌};
ghost use Rattle.tables.specs.Index.{tables, made_out};
ghost use Rattle.merge.specs.Steps.{Joins, out_index, merged_in};
ghost use Rattle.merge.specs.Merge.{merge_in};

use crate::goes_further::further;
use crate::numbers::numbers;
use crate::questions::check_merge;
use crate::take::{append_checkpoints, join_hints, take_malformed, take_parts};
use confirmations::confirm::merge_confirmations;
use index::is_checked;
use rules::{AreaIndex, Made};
use tables::lent::Tables;

// ---- the call
// The merge of y into x, which nothing refuses.
fn commit(
    x: AreaIndex,
    y: AreaIndex,
    checkpoints: &mut [u8],
    frames: &mut [u8],
    store: &mut [u8],
    parts: &mut [u8],
    malformed: &mut [u8],
    hints: &mut [u8],
    confirmed: &mut [u8],
    other_checkpoints: &[u8],
    other_frames: &[u8],
    other_store: &[u8],
    other_parts: &[u8],
    other_malformed: &[u8],
    other_hints: &[u8],
    other_confirmed: &[u8],
) -> AreaIndex
    requires { Joins x (tables checkpoints.old frames.old store.old parts.old malformed.old hints.old confirmed.old) y (tables other_checkpoints.now other_frames.now other_store.now other_parts.now other_malformed.now other_hints.now other_confirmed.now) }
    ensures { out_index result (tables checkpoints.new frames.new store.new parts.new malformed.new hints.new confirmed.new) ≡ merged_in x (tables checkpoints.old frames.old store.old parts.old malformed.old hints.old confirmed.old) y (tables other_checkpoints.now other_frames.now other_store.now other_parts.now other_malformed.now other_hints.now other_confirmed.now) }
{
    let go = further(x, y);
    let (k, h) = if go { (y.checkpoints, y.parts) } else { (0, 0) };
    let n = append_checkpoints(
        checkpoints,
        x.checkpoints,
        other_checkpoints,
        k,
        x.checkpoints,
    );
    let c = take_parts(
        x,
        y.frames,
        h,
        other_frames,
        other_store,
        other_parts,
        frames,
        store,
        parts,
    );
    let m = take_malformed(malformed, x.malformed, other_malformed, y.malformed, go);
    let s = join_hints(x.area, x.most, hints, x.hints, other_hints, y.hints);
    let d = merge_confirmations(
        is_checked(x.fingerprint),
        x.most,
        x.confirmed,
        confirmed,
        other_confirmed,
        y.confirmed,
    );
    numbers(x, y, go, n, c, m, s, d)
}

// The other list y, only read, into the own one x.
pub fn merge(
    x: AreaIndex,
    y: AreaIndex,
    checkpoints: &mut [u8],
    frames: &mut [u8],
    store: &mut [u8],
    parts: &mut [u8],
    malformed: &mut [u8],
    hints: &mut [u8],
    confirmed: &mut [u8],
    other_checkpoints: &[u8],
    other_frames: &[u8],
    other_store: &[u8],
    other_parts: &[u8],
    other_malformed: &[u8],
    other_hints: &[u8],
    other_confirmed: &[u8],
) -> Made
    ensures { made_out result (tables checkpoints.new frames.new store.new parts.new malformed.new hints.new confirmed.new) ≡ merge_in x (tables checkpoints.old frames.old store.old parts.old malformed.old hints.old confirmed.old) y (tables other_checkpoints.now other_frames.now other_store.now other_parts.now other_malformed.now other_hints.now other_confirmed.now) }
{
    let t = Tables {
        checkpoints: &*checkpoints,
        frames: &*frames,
        store: &*store,
        parts: &*parts,
        malformed: &*malformed,
        hints: &*hints,
        confirmed: &*confirmed,
    };
    let other = Tables {
        checkpoints: other_checkpoints,
        frames: other_frames,
        store: other_store,
        parts: other_parts,
        malformed: other_malformed,
        hints: other_hints,
        confirmed: other_confirmed,
    };
    if let Err(e) = check_merge(x, y, &t, &other) {
        return Made::Refused(u32::from(e));
    }
    Made::Index(commit(
        x,
        y,
        checkpoints,
        frames,
        store,
        parts,
        malformed,
        hints,
        confirmed,
        other_checkpoints,
        other_frames,
        other_store,
        other_parts,
        other_malformed,
        other_hints,
        other_confirmed,
    ))
}
