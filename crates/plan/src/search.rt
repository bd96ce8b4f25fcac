// Of plan: how many checkpoints are not above a frame.
ghost use Rattle.std.specs.Prelude.{◌≡◌, ◌*◌, ◌≤◌, length};
ghost use Rattle.rules.specs.Plan.{last_not_above};
ghost use Rattle.tables.specs.Tables.{checkpoints_in};
ghost use Rattle.plan.specs.Search.{last_in, Rising};

use tables::read_checkpoint;

// How many checkpoints are not above frame first.
pub fn not_above(checkpoints: &[u8], n: usize, first: u32) -> usize
    requires { (n * 24 ≤ length checkpoints.now) × Rising n checkpoints.now }
    ensures { (last_in result ≡ last_not_above first (checkpoints_in n checkpoints.now) n) × (result ≤ n) }
{
    // partition_point by hand: the checkpoints are bytes, and no slice of records.
    let mut lo = 0;
    let mut hi = n;
    while lo < hi {
        let mid = lo + (hi - lo) / 2;
        if read_checkpoint(checkpoints, mid).threshold <= first {
            lo = mid + 1;
        } else {
            hi = mid;
        }
    }
    lo
}
