// The row of a file, from its bytes and a range; no index is built.
ghost use Rattle.std.specs.Prelude.{◌≡◌, true, ◌≤◌};
ghost use Rattle.rules.specs.Questions.{area_ok};
ghost use Rattle.rules_coverage.specs.Lines.{line_of};
ghost use Rattle.rules_coverage.specs.Coverage.{range_ok, row_of, file_row, line_row};
ghost use Rattle.sheet.specs.Rows.{answer_in, found_row, file_in, asked_key, asked_slot};

use crate::line::{Parsed, parse};
use header::read_header;
use inspect::{Found, Inspected, inspect};
use rules::{Area, AreaKey, MAX_U32};
use sections::area_boundaries;

// The number that refuses a file; or checkpoints, boundaries and held bytes.
#[derive(Clone, Copy)]
pub enum RowAnswer {
    Refused(u32),
    Accepted(u32, u32, u32),
}

// ---- the area
// 1, of the range only.
#[tactic(auto, unfolding(rules::specs::Tests::all, rules_coverage::specs::Coverage::range_ok))]
fn range_ok(start: u64, end: u64) -> bool
    ensures { result ≡ range_ok start end }
{
    start <= end && end <= MAX_U32
}

// Slot 0 stands in for one above 1, which 24 refuses whatever the area's.
fn asked_slot(slot: u8) -> u8
    ensures { result ≡ asked_slot slot }
{
    if slot <= 1 { slot } else { 0 }
}

// The file's own five key numbers; zeros stand in where there is no header, which 20 or 21 refuses.
fn asked_key(bytes: &[u8]) -> AreaKey
    ensures { result ≡ asked_key bytes.now }
{
    if bytes.len() < 88 {
        return AreaKey {
            slot: 0,
            start: 0,
            end: 0,
            channels: 0,
            sectors: 0,
        };
    }
    let h = read_header(&bytes[..bytes.len() - 8]);
    AreaKey {
        slot: asked_slot(h.slot),
        start: h.start,
        end: h.end,
        channels: h.channels,
        sectors: h.sectors,
    }
}

// ---- the row
fn found_row(found: Found) -> RowAnswer
    requires { (area_ok found.index.area ≡ true) × (found.used ≤ 4294967295) }
    ensures { result ≡ found_row found }
{
    let x = found.index;
    let boundaries = area_boundaries(x.area, x.interval);
    RowAnswer::Accepted(x.checkpoints, boundaries as u32, found.used as u32)
}

// 1, then 20 to 38, or the row.
pub fn row_of(bytes: &[u8], start: u64, end: u64) -> RowAnswer
    ensures { answer_in result ≡ row_of bytes.now start end }
{
    if !range_ok(start, end) {
        return RowAnswer::Refused(1);
    }
    let key = asked_key(bytes);
    match inspect(Area { key, start, end }, bytes) {
        Inspected::Refused(n) => RowAnswer::Refused(n),
        Inspected::Passed(found) => found_row(found),
    }
}

// 45, then those of the row; whole tells whether bytes are all that the file has, or its first 65,537.
#[tactic(auto, unfolding(rules::specs::Tests::first_no, rules::specs::Tests::after, rules_coverage::specs::Coverage::file_row, crate::specs::Rows::answer_in, crate::specs::Rows::file_in))]
fn file_row(whole: bool, bytes: &[u8], start: u64, end: u64) -> RowAnswer
    ensures { answer_in result ≡ file_row (file_in whole bytes.now) start end }
{
    if !whole || 65536 < bytes.len() {
        return RowAnswer::Refused(45);
    }
    row_of(bytes, start, end)
}

// 46, then those of the file that the line names.
pub fn line_row(line: &[u8], whole: bool, bytes: &[u8]) -> RowAnswer
    ensures { answer_in result ≡ line_row (line_of line.now) (file_in whole bytes.now) }
{
    match parse(line) {
        Parsed::Broken => RowAnswer::Refused(46),
        Parsed::Line(_, start, end) => file_row(whole, bytes, start, end),
    }
}
