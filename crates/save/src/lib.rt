// Saving an index: the file's bytes, section by section, into a lent output.
#![tactic(auto)]

pub mod layout;
pub mod output;
mod write;

ghost use Rattle.std.specs.Prelude.{◌≡◌, ◌++◌, ◌+◌, ◌*◌, ◌≤◌, length};
ghost use Rattle.rules.specs.Values.{used};
ghost use Rattle.rules.specs.File.{hint_section, confirmed_section, body_of, saved, saved_length, over};
ghost use Rattle.rules.specs.Refusals.{answer_in};
ghost use Rattle.tables.specs.Tables.{frames_in};
ghost use Rattle.tables.specs.Index.{index_in, refusal};
ghost use Rattle.save.specs.Output.{Filled, Summed, nothing_written};
ghost use Rattle.save.specs.Save.{made, save_in};
ghost use Rattle.save.specs.Steps.{hint_bytes, confirmed_bytes, Scanned, Hinted, scan_size, scan_bytes, hint_index, hinting_size};
ghost use Rattle.tables.specs.Loans.{tables_in};

use crate::layout::{frame_bytes, header_of, hint_header_of, saved_length, version_of};
use crate::output::{Written, long_enough, write_hint_header};
use crate::write::{
    put_checkpoints, put_confirmations, put_frames, put_hints, put_malformed, put_parts,
};
use field::{write_u32, write_u64};
use header::write_header;
use index::check;
use rules::{
    AreaIndex, CONFIRMED, CONFIRMED_HEADER, HEADER, HINT, HINTS_HEADER, HintHeader, Refusal,
    VERSION_CONFIRMED, VERSION_HINTS,
};
use summing::sum_u32;
use tables::lent::Tables;

// ---- hints and confirmations, each with its header
fn write_hint_section(out: &mut [u8], h: HintHeader, table: &[u8], sum: u64) -> u64
    requires { (h.count * 8 ≤ length table.now) × (24 + h.count * 8 ≤ length out.old) }
    ensures { Filled (hint_bytes h table.now) out.old sum result out.new }
{
    let w = Written {
        next: HINTS_HEADER,
        sum: write_hint_header(out, h, sum),
    };
    put_hints(out, w, table, h.count).sum
}

fn write_confirmed_section(out: &mut [u8], n: u32, table: &[u8], sum: u64) -> u64
    requires { (n * 16 ≤ length table.now) × (8 + n * 16 ≤ length out.old) }
    ensures { Filled (confirmed_bytes n table.now) out.old sum result out.new }
{
    write_u32(out, 0, n);
    write_u32(out, 4, 0);
    let w = Written {
        next: CONFIRMED_HEADER,
        sum: sum_u32(sum_u32(sum, n), 0),
    };
    put_confirmations(out, w, table, n).sum
}

fn put_hint_section(out: &mut [u8], w: Written, h: HintHeader, table: &[u8]) -> Written
    requires { (h.count * 8 ≤ length table.now) × (w.next + (24 + 8 * h.count) ≤ length out.old) }
    ensures { Summed (hint_bytes h table.now) (24 + 8 * h.count) out.old w result out.new }
{
    let to = w.next + (HINTS_HEADER + h.count as usize * HINT);
    let sum = write_hint_section(&mut out[w.next..to], h, table, w.sum);
    Written { next: to, sum }
}

fn put_confirmed_section(out: &mut [u8], w: Written, n: u32, table: &[u8]) -> Written
    requires { (n * 16 ≤ length table.now) × (w.next + (8 + 16 * n) ≤ length out.old) }
    ensures { Summed (confirmed_bytes n table.now) (8 + 16 * n) out.old w result out.new }
{
    let to = w.next + (CONFIRMED_HEADER + n as usize * CONFIRMED);
    let sum = write_confirmed_section(&mut out[w.next..to], n, table, w.sum);
    Written { next: to, sum }
}

// ---- the file
// Checkpoints, frames, parts and malformed LSNs.
fn put_scan(out: &mut [u8], w: Written, x: AreaIndex, t: &Tables) -> Written
    requires { Scanned x (tables_in t.now) × (w.next + scan_size x (used (frames_in x.frames t.now.frames.now t.now.store.now)) ≤ length out.old) }
    ensures { Summed (scan_bytes x (tables_in t.now)) (scan_size x (used (frames_in x.frames t.now.frames.now t.now.store.now))) out.old w result out.new }
{
    let bytes = frame_bytes(x, t.frames);
    let behind = put_checkpoints(out, w, t.checkpoints, x.checkpoints);
    let behind = put_frames(out, behind, t.frames, t.store, x.frames, bytes);
    let behind = put_parts(out, behind, t.parts, x.parts);
    put_malformed(out, behind, t.malformed, x.malformed)
}

// The sections that a version from 2 on has, and one from 3 on.
fn put_hinting(out: &mut [u8], w: Written, x: AreaIndex, hints: &[u8], confirmed: &[u8]) -> Written
    requires { Hinted x hints.now confirmed.now × (w.next + hinting_size x ≤ length out.old) }
    ensures { Summed (hint_section (hint_index x hints.now confirmed.now) ++ confirmed_section (hint_index x hints.now confirmed.now)) (hinting_size x) out.old w result out.new }
{
    let version = version_of(x);
    if version < VERSION_HINTS {
        return w;
    }
    let behind = put_hint_section(out, w, hint_header_of(x), hints);
    if version < VERSION_CONFIRMED {
        return behind;
    }
    put_confirmed_section(out, behind, x.confirmed, confirmed)
}

// Everything before the sum.
fn write_body(out: &mut [u8], x: AreaIndex, t: &Tables) -> Written
    requires { Scanned x (tables_in t.now) × Hinted x t.now.hints.now t.now.confirmed.now × (saved_length (index_in x (tables_in t.now)) ≤ length out.old) }
    ensures { Summed (body_of (index_in x (tables_in t.now))) (length (body_of (index_in x (tables_in t.now)))) out.old nothing_written result out.new }
{
    let sum = write_header(out, header_of(x));
    let header = Written { next: HEADER, sum };
    let scan = put_scan(out, header, x, t);
    put_hinting(out, scan, x, t.hints, t.confirmed)
}

// The file of a list that passes questions 1 to 4.
pub fn write_saved(out: &mut [u8], x: AreaIndex, t: &Tables)
    requires { (refusal x (tables_in t.now) ≡ 0) × (saved_length (index_in x (tables_in t.now)) ≤ length out.old) }
    ensures { out.new ≡ over (saved (index_in x (tables_in t.now))) out.old }
{
    let body = write_body(out, x, t);
    write_u64(out, body.next, body.sum);
}

// Questions 1 to 4, then 40: is the output long enough? What lies past the length stays.
#[tactic(auto, using(crate::proofs::Saving::save_refused, rules::proofs::Refusals::number_ne0), unfolding(rules::specs::Refusals::answer_in, rules::specs::Refusals::number_in))]
pub fn to_bytes(x: AreaIndex, t: &Tables, out: &mut [u8]) -> Result<u64, Refusal>
    ensures { made (answer_in result) out.new ≡ save_in x (tables_in t.now) out.old }
{
    check(x, t)?;
    let length = saved_length(x, t.frames);
    if !long_enough(out.len() as u64, length) {
        return Err(Refusal::Output);
    }
    write_saved(out, x, t);
    Ok(length)
}
