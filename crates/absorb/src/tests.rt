// What questions 11 and 12 compare in the tables of an index and a recorder, and the end of the joined list.
ghost use Rattle.std.specs.Prelude.{◌≡◌, cond, ◌++◌, ◌+◌, ◌*◌, ◌≤◌, ◌<◌, length, take, drop};
ghost use Rattle.field.specs.Number.{same_bytes};
ghost use Rattle.rules.specs.Tests.{agrees};
ghost use Rattle.rules.specs.Values.{last_checkpoint};
ghost use Rattle.rules.specs.Record.{same_counts, below};
ghost use Rattle.laws.specs.Twelve.{not_below, continues};
ghost use Rattle.tables.specs.Tables.{checkpoints_in, lsns_in};

use field::same;
use rules::Checkpoint;
use sections::last_checkpoint;
use tables::{get_checkpoint, read_checkpoint, read_lsn};

// ---- checkpoints
// The same threshold and malformed count?
#[tactic(auto, unfolding(rules::specs::Record::same_counts, rules::specs::Tests::all))]
fn same_pair(c: Checkpoint, d: Checkpoint) -> bool
    ensures { result ≡ same_counts c d }
{
    c.threshold == d.threshold && c.malformed == d.malformed
}

// 11: the checkpoints that both have, of which the other's first is number first.
pub fn same_counts(t: &[u8], n: usize, first: usize, other: &[u8], m: usize) -> bool
    requires { (n * 24 ≤ length t.now) × (m * 24 ≤ length other.now) × (first ≤ n) }
    ensures { result ≡ agrees same_counts (drop first (checkpoints_in n t.now)) (checkpoints_in m other.now) }
{
    for i in 0..m.min(n - first) {
        let c = read_checkpoint(t, first + i);
        let d = read_checkpoint(other, i);
        if !same_pair(c, d) {
            return false;
        }
    }
    true
}

#[tactic(auto, unfolding(laws::specs::Twelve::not_below, rules::specs::Tests::all))]
fn not_below(c: Checkpoint, d: Checkpoint) -> bool
    ensures { result ≡ not_below c d }
{
    c.threshold <= d.threshold && c.malformed <= d.malformed
}

// May the first further checkpoint, number i of the other's, if there is one, come after the n of t?
pub fn continues(t: &[u8], n: usize, other: &[u8], m: usize, i: usize) -> bool
    requires { (n * 24 ≤ length t.now) × (m * 24 ≤ length other.now) }
    ensures { result ≡ continues (checkpoints_in n t.now) i (checkpoints_in m other.now) }
{
    m <= i || not_below(last_checkpoint(t, n), get_checkpoint(other, m, i))
}

// The last of the n checkpoints of t and the other's from number i on.
pub fn joined_last(t: &[u8], n: usize, other: &[u8], m: usize, i: usize) -> Checkpoint
    requires { (n * 24 ≤ length t.now) × (m * 24 ≤ length other.now) }
    ensures { result ≡ last_checkpoint (checkpoints_in n t.now ++ drop i (checkpoints_in m other.now)) }
{
    if m <= i {
        last_checkpoint(t, n)
    } else {
        last_checkpoint(other, m)
    }
}

// ---- malformed LSNs
// Do the k given LSNs open with the m held ones?
pub fn opens_with(given: &[u8], k: usize, held: &[u8], m: usize) -> bool
    requires { (k * 4 ≤ length given.now) × (m * 4 ≤ length held.now) }
    ensures { result ≡ same_bytes (take m (lsns_in k given.now)) (lsns_in m held.now) }
{
    m <= k && same(&given[..m * 4], &held[..m * 4])
}

// How many of the k given LSNs lie below front.
pub fn count_below(given: &[u8], k: usize, front: u64) -> usize
    requires { k * 4 ≤ length given.now }
    ensures { result ≡ length (below front (lsns_in k given.now)) }
{
    let mut count = 0;
    for j in 0..k {
        if (read_lsn(given, j) as u64) < front {
            count += 1;
        }
    }
    count
}
