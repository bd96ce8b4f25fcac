// What a merge takes of the other list by value, and the numbers of the merged list.

ghost use Rattle.std.specs.Prelude.{◌≡◌};
ghost use Rattle.rules.specs.Tests.{or_else};
ghost use Rattle.rules.specs.Merge.{merged_fingerprint};
ghost use Rattle.rules.specs.declared.Fingerprint.TheVariants.{Unknown};
ghost use Rattle.merge.specs.Numbers.{numbers_by};

use parts::Counts;
use rules::{AreaIndex, Fingerprint};

// The own image id, or the other's where there is none.
#[tactic(auto, unfolding(rules::specs::Tests::or_else))]
pub fn image_of(a: Option<u64>, b: Option<u64>) -> Option<u64>
    ensures { result ≡ (or_else a b) }
{
    match a {
        None => b,
        Some(_) => a,
    }
}

// A fingerprint without its checked mark.
#[tactic(auto, unfolding(rules::specs::Merge::merged_fingerprint, rules::specs::Merge::held_from, rules::specs::Values::stated))]
fn unchecked(f: Fingerprint) -> Fingerprint
    ensures { result ≡ merged_fingerprint Unknown f }
{
    match f {
        Fingerprint::Unknown => Fingerprint::Unknown,
        Fingerprint::Held(v) | Fingerprint::Checked(v) => Fingerprint::Held(v),
    }
}

// The own fingerprint, or the other's where none is held.
#[tactic(auto, unfolding(rules::specs::Merge::merged_fingerprint))]
fn fingerprint_of(a: Fingerprint, b: Fingerprint) -> Fingerprint
    ensures { result ≡ merged_fingerprint a b }
{
    match a {
        Fingerprint::Unknown => unchecked(b),
        Fingerprint::Held(_) | Fingerprint::Checked(_) => a,
    }
}

// The numbers of the merged list, with these counts.
#[tactic(auto, unfolding(crate::specs::Numbers::numbers_by))]
pub fn numbers(
    x: AreaIndex,
    y: AreaIndex,
    go: bool,
    n: u32,
    c: Counts,
    m: u32,
    s: u32,
    d: u32,
) -> AreaIndex
    ensures { result ≡ numbers_by x y go n c m s d }
{
    AreaIndex {
        checkpoints: n,
        frames: c.frames,
        parts: c.parts,
        malformed: m,
        hints: s,
        confirmed: d,
        ending: if go { y.ending } else { x.ending },
        fingerprint: fingerprint_of(x.fingerprint, y.fingerprint),
        image: image_of(x.image, y.image),
        ..x
    }
}
