// Recording a checkpoint: record.
ghost use Rattle.std.specs.Prelude.{◌≡◌, List, ℕ, ◌+◌, ◌*◌, ◌≤◌, ◌<◌, length};
ghost use Rattle.std.proofs.lemmas.List.Edits.{sets};
ghost use Rattle.field.specs.Records.{Bytes};
ghost use Rattle.rules.specs.Record.{back_of};
ghost use Rattle.rules.specs.File.{encode_checkpoint};
ghost use Rattle.rules.specs.Refusals.{answer_in, number_in};
ghost use Rattle.parts.specs.Parts.{part_tables, stored_in, held, held_from};
ghost use Rattle.parts.specs.Steps.{Room};
ghost use Rattle.tables.specs.Loans.{SameRecorderLoans, recorder_tables_in, recorder_tables_mut_in};
ghost use Rattle.tables.specs.Recorder.{assembling_in};
ghost use Rattle.recorder.specs.Recorder.{recorder_out, record_in};
ghost use Rattle.recorder.specs.Steps.{due_in, rises_in, starts_in, assembled_in, record_number, advanced_of};

use crate::check;
use crate::modes::is_running;
use field::{write_u32, write_u64};
use fnv::digest;
use parts::{Counts, Piece, add_part, used_bytes};
use rules::{
    Area, Assembling, Checkpoint, MAX_NEXT_ACCEPTABLE, REPLAY_SECTORS, Recorder, Refusal,
    SECTOR_BYTES,
};
use sections::last_checkpoint;
use tables::lent::{RecorderTables, RecorderTablesMut};

// ---- 5 to 7
// 5: is it the due LSN, inside the area, not finished or stopped, with a sector of 2,048 bytes?
#[tactic(auto, unfolding(crate::specs::Steps::due_in))]
fn due(r: Recorder, lsn: u64, len: usize) -> bool
    requires { (r.area.start ≤ 4294967295) × (r.first + r.checkpoints ≤ 4294967295) }
    ensures { result ≡ due_in r lsn len }
{
    let j = r.first as u64 + r.checkpoints as u64;
    let at = r.area.start + j * r.interval as u64;
    is_running(r.mode) && lsn == at && lsn < r.area.end && len == SECTOR_BYTES
}

// 6: do threshold and malformed count not fall after those of c, for checkpoint number j?
#[tactic(auto, unfolding(crate::specs::Steps::rises_in))]
fn rises(c: Checkpoint, j: u64, interval: u32, threshold: u32, malformed: u64) -> bool
    requires { j ≤ 4294967295 }
    ensures { result ≡ rises_in c j interval threshold malformed }
{
    let most = j * interval as u64;
    c.threshold <= threshold
        && threshold <= MAX_NEXT_ACCEPTABLE
        && c.malformed <= malformed
        && malformed <= most
}

// 7: does the frame start in the area before this LSN, with a number below LIM?
#[tactic(auto, unfolding(crate::specs::Steps::starts_in))]
fn starts(area: Area, lsn: u64, frame: Option<Assembling>) -> bool
    ensures { result ≡ starts_in area lsn frame }
{
    match frame {
        None => true,
        Some(a) => { area.start <= a.start && a.start < lsn && a.number < MAX_NEXT_ACCEPTABLE }
    }
}

// ---- what is written
#[tactic(auto, unfolding(rules::specs::Record::back_of, tables::specs::Recorder::assembling_in))]
fn back_of(lsn: u64, frame: Option<Assembling>) -> u32
    requires { lsn < 4294967296 }
    ensures { (b : List ℕ) → result ≡ back_of lsn (assembling_in frame b) }
{
    match frame {
        None => 0,
        Some(a) => lsn.saturating_sub(a.start) as u32,
    }
}

fn write_checkpoint(t: &mut [u8], j: usize, c: Checkpoint)
    requires { j * 24 + 24 ≤ length t.old }
    ensures { (t.new ≡ sets t.old (j * 24) (encode_checkpoint c)) × Bytes t.old }
{
    let at = j * 24;
    write_u32(t, at, c.threshold);
    write_u32(t, at + 4, c.back);
    write_u64(t, at + 8, c.malformed);
    write_u64(t, at + 16, c.digest);
}

// The part of checkpoint number j goes in where back exceeds 32.
fn assemble(
    budget: u64,
    c: Counts,
    j: u32,
    lsn: u64,
    frame: Option<Assembling>,
    bytes: &[u8],
    frames: &mut [u8],
    store: &mut [u8],
    parts: &mut [u8],
) -> Counts
    requires { Room 1 budget c (part_tables frames.old store.old parts.old) × (lsn < 4294967296) }
    ensures { held result (part_tables frames.new store.new parts.new) ≡ held_from (assembled_in budget (stored_in c.frames c.parts (part_tables frames.old store.old parts.old)) j lsn (assembling_in frame bytes.now)) (part_tables frames.old store.old parts.old) }
{
    let Some(a) = frame else {
        return c;
    };
    if lsn.saturating_sub(a.start) <= REPLAY_SECTORS {
        return c;
    }
    let piece = Piece {
        at: j,
        start: a.start as u32,
        number: a.number,
        kind: a.kind,
        remaining: a.remaining,
    };
    add_part(budget, c, piece, bytes, frames, store, parts)
}

// ---- record
// Questions 1 to 7; the sector has len bytes.
#[tactic(auto, unfolding(crate::specs::Steps::record_number, rules::specs::Tests::first_no, rules::specs::Refusals::number_in, rules::specs::Refusals::refusal_number))]
fn check_record(
    r: Recorder,
    lsn: u64,
    threshold: u32,
    malformed: u64,
    frame: Option<Assembling>,
    len: usize,
    t: &RecorderTables,
) -> Result<(), Refusal>
    ensures { number_in result ≡ record_number r (recorder_tables_in t.now) lsn threshold malformed frame len }
{
    check(r, t)?;
    if !due(r, lsn, len) {
        return Err(Refusal::RecordDue);
    }
    let j = r.first as u64 + r.checkpoints as u64;
    let last = last_checkpoint(t.checkpoints, r.checkpoints as usize);
    if !rises(last, j, r.interval, threshold, malformed) {
        return Err(Refusal::RecordFalls);
    }
    if !starts(r.area, lsn, frame) {
        return Err(Refusal::RecordFrame);
    }
    Ok(())
}

// One checkpoint more.
#[tactic(auto, unfolding(crate::specs::Steps::advanced_of))]
fn advanced(r: Recorder, c: Counts) -> Recorder
    requires { r.checkpoints < 4294967295 }
    ensures { result ≡ advanced_of r c }
{
    Recorder {
        checkpoints: r.checkpoints + 1,
        frames: c.frames,
        parts: c.parts,
        ..r
    }
}

// A checkpoint at the due LSN; the bytes of the frame under assembly are lent beside it.
#[tactic(auto, using(crate::proofs::record::Recording::record_no, rules::proofs::Refusals::number_ne0), unfolding(rules::specs::Refusals::answer_in, rules::specs::Refusals::number_in))]
pub fn record(
    r: Recorder,
    lsn: u64,
    threshold: u32,
    malformed: u64,
    frame: Option<Assembling>,
    bytes: &[u8],
    sector: &[u8],
    t: &mut RecorderTablesMut,
) -> Result<Recorder, Refusal>
    ensures recorded { recorder_out (answer_in result) (recorder_tables_mut_in t.new)
        ≡ record_in r (recorder_tables_mut_in t.old) lsn threshold malformed frame bytes.now sector.now }
    ensures same { SameRecorderLoans t.old t.new }
{
    let lent = t.read();
    check_record(r, lsn, threshold, malformed, frame, sector.len(), &lent)?;
    let j = r.first + r.checkpoints;
    let held = Counts {
        frames: r.frames,
        parts: r.parts,
        used: used_bytes(lent.frames, r.frames),
    };
    let checkpoint = Checkpoint {
        threshold,
        back: back_of(lsn, frame),
        malformed,
        digest: digest(sector),
    };
    let after = assemble(
        r.budget, held, j, lsn, frame, bytes, t.frames, t.store, t.parts,
    );
    write_checkpoint(t.checkpoints, r.checkpoints as usize, checkpoint);
    Ok(advanced(r, after))
}
