// The check of each section of a list that needs no other, over its records in a table.
ghost use Rattle.std.specs.Prelude.{◌≡◌, List, ◌&&◌, eqb, leb, ltb, ℕ, ◌+◌, ◌*◌, ◌≤◌, ◌<◌, length};
ghost use Rattle.field.specs.Records.{records};
ghost use Rattle.rules.specs.Values.{lim};
ghost use Rattle.rules.specs.Sections.{checkpoint_ok, checkpoints_ok, frames_ok, rising, own_lsn, any_lsn, hints_ok, marks_ok, confirmations_ok};
ghost use Rattle.rules.specs.File.{decode_hint};
ghost use Rattle.tables.specs.Tables.{checkpoints_in, lsns_in, hints_in, kept_in, confirmations_in, frames_in, header_ok, filled_to, passed_at, Checked};

use rules::{Area, CONFIRMED, Checkpoint, HINT, Hint, MAX_FRAME_BYTES, MAX_NEXT_ACCEPTABLE};
use tables::{FrameHeader, hint_at, read_checkpoint, read_given, read_header, read_hint, read_lsn};

// b is the checkpoint before c, which is number.
#[tactic(auto, using(std::proofs::lemmas::Bool::Decides::nat_tests), unfolding(rules::specs::Sections::checkpoint_ok, rules::specs::Tests::all))]
fn checkpoint_ok(interval: u32, number: usize, b: Checkpoint, c: Checkpoint) -> bool
    requires { number < 4294967296 }
    ensures { result ≡ checkpoint_ok interval (passed_at number b) c }
{
    let most = number as u64 * interval as u64;
    b.threshold <= c.threshold
        && c.threshold <= MAX_NEXT_ACCEPTABLE
        && b.malformed <= c.malformed
        && c.malformed <= most
        && c.back as u64 <= most
}

// floor and used are of the frames before it.
#[tactic(auto, using(std::proofs::lemmas::Bool::Decides::nat_tests, tables::proofs::Frames::header_is))]
pub fn header_ok(area: Area, budget: u64, floor: u64, used: u64, h: FrameHeader) -> bool
    requires { used ≤ budget }
    ensures { result ≡ header_ok area budget (filled_to floor used) h }
{
    let start = h.start as u64;
    let len = h.len as u64;
    floor <= start && start < area.end && h.len <= MAX_FRAME_BYTES && len <= budget - used
}

// Is the LSN at floor or above and below end?
fn rising_ok(end: u64, floor: u64, lsn: u64) -> bool
    ensures { result ≡ (leb floor lsn && ltb lsn end) }
{
    floor <= lsn && lsn < end
}

pub fn check_checkpoints(section: &[u8], n: usize, interval: u32, first: usize) -> bool
    requires { (n * 24 ≤ length section.now) × (first + n ≤ 4294967296) }
    ensures { result ≡ checkpoints_ok interval first (checkpoints_in n section.now) }
{
    let mut b = Checkpoint {
        threshold: 0,
        back: 0,
        malformed: 0,
        digest: 0,
    };
    for j in 0..n {
        let c = read_checkpoint(section, j);
        if !checkpoint_ok(interval, first + j, b, c) {
            return false;
        }
        b = c;
    }
    true
}

pub fn check_lsns(section: &[u8], m: usize, area: Area, front: u64) -> bool
    requires { m * 4 ≤ length section.now }
    ensures { result ≡ rising own_lsn any_lsn area.start front (lsns_in m section.now) }
{
    let mut floor = area.start;
    for j in 0..m {
        let lsn = read_lsn(section, j) as u64;
        if !rising_ok(front, floor, lsn) {
            return false;
        }
        floor = lsn + 1;
    }
    true
}

// Records of w bytes that begin as hints of a file do.
fn check_numbered(section: &[u8], n: usize, w: usize, area: Area) -> bool
    requires { (n * w ≤ length section.now) × (8 ≤ w) }
    ensures { result ≡ hints_ok area (records w decode_hint n section.now) }
{
    let mut floor = area.start;
    for j in 0..n {
        let h = hint_at(section, j * w);
        if !rising_ok(area.end, floor, h.lsn as u64) || MAX_NEXT_ACCEPTABLE <= h.number {
            return false;
        }
        floor = h.lsn as u64 + 1;
    }
    true
}

pub fn check_hints(section: &[u8], n: usize, area: Area) -> bool
    requires { n * 8 ≤ length section.now }
    ensures { result ≡ hints_ok area (hints_in n section.now) }
{
    check_numbered(section, n, HINT, area)
}

// Is the hint kept, its number below LIM?
fn kept_ok(h: Hint) -> bool
    ensures { result ≡ (eqb h.mark 1 && ltb h.number lim) }
{
    h.mark == 1 && h.number < MAX_NEXT_ACCEPTABLE
}

// Hints of an index's table and their marks. A number below LIM with the mark behind it has the mark 0.
pub fn check_kept(hints: &[u8], n: usize, area: Area, most: u32) -> bool
    requires { n * 8 ≤ length hints.now }
    ensures { result ≡ (hints_ok area (kept_in n hints.now) && marks_ok most (kept_in n hints.now)) }
{
    let mut floor = area.start;
    let mut kept = 0;
    for j in 0..n {
        let given = read_given(hints, j);
        if !rising_ok(area.end, floor, given.lsn as u64) {
            return false;
        }
        floor = given.lsn as u64 + 1;
        if MAX_NEXT_ACCEPTABLE <= given.number {
            if !kept_ok(read_hint(hints, j)) {
                return false;
            }
            kept += 1;
        }
    }
    kept <= (most / 4) as usize
}

pub fn check_confirmations(section: &[u8], n: usize, area: Area) -> bool
    requires { n * 16 ≤ length section.now }
    ensures { result ≡ confirmations_ok area (confirmations_in n section.now) }
{
    check_numbered(section, n, CONFIRMED, area)
}

// What a check of frames answers: used only where ok.
#[derive(Clone, Copy)]
pub struct Filling {
    pub ok: bool,
    pub used: u64,
}

pub fn check_frames(headers: &[u8], f: usize, area: Area, budget: u64) -> Filling
    requires { f * 8 ≤ length headers.now }
    ensures { (store : List ℕ) → Checked (frames_ok area budget) (frames_in f headers.now store) result.ok result.used }
{
    let mut floor = area.start;
    let mut used = 0;
    for j in 0..f {
        let h = read_header(headers, j);
        if !header_ok(area, budget, floor, used, h) {
            return Filling { ok: false, used: 0 };
        }
        floor = h.start as u64 + 1;
        used += h.len as u64;
    }
    Filling { ok: true, used }
}
