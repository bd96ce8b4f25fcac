// What an accepted absorb writes: the recorder's further checkpoints with their parts, its end state, the malformed LSNs below the frontier and
// the image id.
ghost use Rattle.std.specs.Prelude.{◌≡◌, List, ℕ, length, take};
ghost use Rattle.rules.specs.Values.{max_malformed};
ghost use Rattle.rules.specs.Record.{below};
ghost use Rattle.tables.specs.Index.{tables};
ghost use Rattle.tables.specs.Loans.{recorder_tables_in};
ghost use Rattle.tables.specs.Tables.{given_in};
ghost use Rattle.absorb.specs.Steps.{written, Kept, absorbed_in, AbsorbReady, TakesBelow, TakenBelow, numbers_by};

use crate::tests::count_below;
use merge::numbers::image_of;
use merge::take::{append_checkpoints, take_malformed, take_parts};
use parts::Counts;
use recorder::end_of;
use rules::{AreaIndex, EndState, MAX_MALFORMED_WARNINGS, Recorder};
use sections::frontier_of;
use tables::lent::RecorderTables;

// ---- malformed LSNs
// How many of the given LSNs are taken: those below front, at most 4,096.
fn count_taken(given: &[u8], front: u64) -> u32
    ensures { result ≡ length (take max_malformed (below front (given_in given.now))) }
{
    count_below(given, given.len() / 4, front).min(MAX_MALFORMED_WARNINGS as usize) as u32
}

// The given LSNs below the frontier over the held ones, where n checkpoints and this end state move it. Answers how many there are then.
fn take_below(
    x: AreaIndex,
    n: u32,
    end: Option<EndState>,
    given: &[u8],
    malformed: &mut [u8],
) -> u32
    requires { TakesBelow x n end malformed.old given.now }
    ensures { TakenBelow x n end malformed.old given.now result malformed.new }
{
    let before = frontier_of(x.area, x.interval, x.checkpoints, x.ending);
    let front = frontier_of(x.area, x.interval, n, end);
    let m = count_taken(given, front);
    take_malformed(malformed, x.malformed, given, m, before < front)
}

// ---- the numbers
// With these counts and this end state; the image id is filled in.
#[tactic(auto, unfolding(crate::specs::Steps::numbers_by))]
fn numbers(
    x: AreaIndex,
    image: Option<u64>,
    n: u32,
    c: Counts,
    m: u32,
    ending: Option<EndState>,
) -> AreaIndex
    ensures { result ≡ numbers_by x image n c m ending }
{
    AreaIndex {
        checkpoints: n,
        frames: c.frames,
        parts: c.parts,
        malformed: m,
        ending,
        image: image_of(x.image, image),
        ..x
    }
}

// ---- the index
// The recorder r into the index x, where nothing refuses. Hints and confirmations, in whatever tables they lie, stay.
pub fn commit(
    x: AreaIndex,
    r: Recorder,
    image: Option<u64>,
    given: &[u8],
    checkpoints: &mut [u8],
    frames: &mut [u8],
    store: &mut [u8],
    parts: &mut [u8],
    malformed: &mut [u8],
    u: &RecorderTables,
) -> AreaIndex
    requires { AbsorbReady x checkpoints.old frames.old store.old parts.old malformed.old r
        (recorder_tables_in u.now) given.now }
    ensures { (hints confirmed : List ℕ) → Kept x hints confirmed
        → written result (tables checkpoints.new frames.new store.new parts.new malformed.new hints confirmed)
        ≡ absorbed_in x (tables checkpoints.old frames.old store.old parts.old malformed.old hints confirmed) r
        (recorder_tables_in u.now) image given.now }
{
    let skip = x.checkpoints - r.first;
    let end = end_of(r.mode).or(x.ending);
    let n = append_checkpoints(
        checkpoints,
        x.checkpoints,
        u.checkpoints,
        r.checkpoints,
        skip,
    );
    let c = take_parts(
        x, r.frames, r.parts, u.frames, u.store, u.parts, frames, store, parts,
    );
    let m = take_below(x, n, end, given, malformed);
    numbers(x, image, n, c, m, end)
}
