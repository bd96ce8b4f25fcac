// Questions 9, 11 and 12 of an index and a recorder in their tables, asked before anything is joined.
ghost use Rattle.std.specs.Prelude.{◌≡◌, ◌||◌, ◌+◌, ◌-◌, ◌*◌, ◌≤◌, eqb, leb, length, get_or};
ghost use Rattle.tables.specs.Tables.{lsns_in};
ghost use Rattle.absorb.specs.Steps.{nine_in, eleven_in, list_in, moved_in, twelve_in, Joinable};

use crate::tests::{continues, count_below, joined_last, opens_with, same_counts};
use merge::questions::{same_area, same_end};
use recorder::end_of;
use rules::{Area, AreaIndex, EndState, MAX_MALFORMED_WARNINGS, MAX_U32, Recorder};
use sections::records::check_lsns;
use sections::{counted, ending_ok, frontier_of};
use tables::read_lsn;

// ---- 9 and 11
// 9: same area and interval?
#[tactic(auto, unfolding(crate::specs::Steps::nine_in, rules::specs::Record::question9, rules::specs::Tests::all))]
pub fn question9(x: AreaIndex, r: Recorder) -> bool
    ensures { result ≡ nine_in x r }
{
    same_area(x.area, r.area) && x.interval == r.interval
}

// 11: thresholds, malformed counts and end state agree where both have them?
#[tactic(auto, unfolding(crate::specs::Steps::eleven_in, rules::specs::Record::question11, rules::specs::Tests::all))]
pub fn question11(x: AreaIndex, r: Recorder, checkpoints: &[u8], theirs: &[u8]) -> bool
    requires { (x.checkpoints * 24 ≤ length checkpoints.now) × (r.checkpoints * 24 ≤ length theirs.now) × (r.first ≤ x.checkpoints) }
    ensures { result ≡ eleven_in x checkpoints.now r theirs.now }
{
    let n = x.checkpoints as usize;
    let m = r.checkpoints as usize;
    same_counts(checkpoints, n, r.first as usize, theirs, m) && same_end(x.ending, end_of(r.mode))
}

// ---- malformed LSNs
// Does the first of the k given LSNs, of which c are taken, lie at start or later, if any is taken?
fn starts_in(start: u64, given: &[u8], k: usize, c: usize) -> bool
    requires { (k * 4 ≤ length given.now) × (c ≤ k) }
    ensures { result ≡ (eqb c 0 || leb start (get_or (lsns_in k given.now) 0 start)) }
{
    c == 0 || start <= read_lsn(given, 0) as u64
}

// Do the k given LSNs, those below front, fit n counted ones and the m held ones?
fn list_ok(area: Area, front: u64, n: u64, given: &[u8], k: usize, held: &[u8], m: usize) -> bool
    requires { (k * 4 ≤ length given.now) × (m * 4 ≤ length held.now) }
    ensures { result ≡ list_in area.start front n (lsns_in k given.now) (lsns_in m held.now) }
{
    let rises = check_lsns(given, k, Area { start: 0, ..area }, MAX_U32 + 1);
    let opens = opens_with(given, k, held, m);
    let c = count_below(given, k, front);
    let most = MAX_MALFORMED_WARNINGS as u64;
    let counts = (c as u64).min(most) == n.min(most);
    let starts = starts_in(area.start, given, k, c);
    rises && opens && counts && starts
}

// ---- 12
// 12 where the frontier moves to front: the other's checkpoints from number i on are further, and end is the end state then.
fn moved_ok(
    x: AreaIndex,
    r: Recorder,
    i: usize,
    end: Option<EndState>,
    front: u64,
    given: &[u8],
    checkpoints: &[u8],
    malformed: &[u8],
    theirs: &[u8],
) -> bool
    requires { Joinable x checkpoints.now malformed.now r theirs.now }
    ensures { result ≡ moved_in x checkpoints.now malformed.now r theirs.now given.now i end front }
{
    let n = x.checkpoints as usize;
    let m = r.checkpoints as usize;
    let h = x.malformed as usize;
    let last = joined_last(checkpoints, n, theirs, m, i);
    let goes = continues(checkpoints, n, theirs, m, i);
    let ends = ending_ok(x.area, last, end);
    let count = counted(last, end);
    let lists = list_ok(x.area, front, count, given, given.len() / 4, malformed, h);
    lists && goes && ends
}

// 12, where 4 holds of both and 9 to 11 hold.
pub fn question12(
    x: AreaIndex,
    r: Recorder,
    given: &[u8],
    checkpoints: &[u8],
    malformed: &[u8],
    theirs: &[u8],
) -> bool
    requires { Joinable x checkpoints.now malformed.now r theirs.now }
    ensures { result ≡ twelve_in x checkpoints.now malformed.now r theirs.now given.now }
{
    let i = x.checkpoints - r.first;
    let end = end_of(r.mode).or(x.ending);
    let count = x.checkpoints + r.checkpoints.saturating_sub(i);
    let before = frontier_of(x.area, x.interval, x.checkpoints, x.ending);
    let front = frontier_of(x.area, x.interval, count, end);
    front <= before
        || moved_ok(
            x,
            r,
            i as usize,
            end,
            front,
            given,
            checkpoints,
            malformed,
            theirs,
        )
}
