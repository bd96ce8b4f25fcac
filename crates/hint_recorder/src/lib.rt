// The hint recorder: its numbers by value, and its list in a lent table.
#![tactic(auto)]

mod spacing;

ghost use Rattle.std.specs.Prelude.{◌≡◌};
ghost use Rattle.rules.specs.Hints.{seen_record};
ghost use Rattle.rules.specs.Refusals.{answer_in, number_in};
ghost use Rattle.tables.specs.HintRecorder.{hint_recorder_in};
ghost use Rattle.hint_recorder.specs.HintRecorder.{seen_out, saw_out, see_in, flush_in, take_in, created_in};
ghost use Rattle.hint_recorder.specs.Steps.{refusal_of, Roomy, Steps, flushed_record, hint_seen};
ghost use Rattle.tables.specs.Loans.{tables_in};

use crate::spacing::{cleared, emptied, has_room, is_spaced};
use first_record::first_record;
use rules::{
    AreaIndex, First, HINT, Hint, HintRecorder, MAX_LIST, MAX_U32, Refusal, SeenSector, TakenList,
};
use tables::lent::Tables;
use tables::write_given;

// Questions 3 and 4 of a hint recorder.
#[tactic(auto, using(crate::proofs::Recorder::short_list, crate::proofs::Recorder::long_count, crate::proofs::Recorder::asked_both), unfolding(rules::specs::Refusals::number_in, rules::specs::Refusals::refusal_number))]
fn check_list(r: HintRecorder, list: &[u8]) -> Result<(), Refusal>
    ensures { number_in result ≡ refusal_of r list.now }
{
    if list.len() / HINT < MAX_LIST as usize {
        return Err(Refusal::Room);
    }
    if MAX_LIST < r.count {
        return Err(Refusal::Content);
    }
    Ok(())
}

// A hint listed, under the bound, or made the tail.
fn list_or_keep(r: HintRecorder, h: Hint, list: &mut [u8]) -> HintRecorder
    requires { Roomy r list.old }
    ensures { Steps result (hint_seen (hint_recorder_in r list.old) h) list.old list.new }
{
    if is_spaced(r.last, r.spacing, h.number) && has_room(r.count) {
        write_given(list, r.count as usize, h);
        return cleared(r.spacing, Some(h.number), r.count + 1);
    }
    HintRecorder { tail: Some(h), ..r }
}

// A hint recorder in its step: a struct of this crate, for the form `else { return self; }` (docs/DECISIONS.md).
#[derive(Clone, Copy)]
struct Step {
    recorder: HintRecorder,
}

impl Step {
    // The first record of a sector seen: listed, or the tail.
    fn seen(self, lsn: u64, first: First, list: &mut [u8]) -> Step
        requires { Roomy self.recorder list.old }
        ensures { Steps result.recorder (seen_record (hint_recorder_in self.recorder list.old) lsn first)
            list.old list.new }
    {
        let First::Number(t) = first else {
            return self;
        };
        if MAX_U32 < lsn {
            return self;
        }
        let h = Hint {
            lsn: lsn as u32,
            number: t.number,
            mark: 0,
        };
        Step {
            recorder: list_or_keep(self.recorder, h, list),
        }
    }
}

// A sector seen at an LSN: its first record is told, also where it is passed over.
#[tactic(auto, using(crate::proofs::Recorder::see_no, rules::proofs::Refusals::number_ne0), unfolding(rules::specs::Refusals::answer_in, rules::specs::Refusals::number_in))]
pub fn see(r: HintRecorder, lsn: u64, sector: &[u8], list: &mut [u8]) -> Result<SeenSector, Refusal>
    ensures { saw_out (answer_in result) list.new ≡ see_in r list.old lsn sector.now }
{
    check_list(r, list)?;
    let first = first_record(sector);
    let step = Step { recorder: r };
    let recorder = step.seen(lsn, first, list).recorder;
    Ok(SeenSector { first, recorder })
}

// The tail listed, under the same bound, and cleared.
fn flushed(r: HintRecorder, list: &mut [u8]) -> HintRecorder
    requires { Roomy r list.old }
    ensures { Steps result (flushed_record (hint_recorder_in r list.old)) list.old list.new }
{
    let Some(h) = r.tail else {
        return cleared(r.spacing, r.last, r.count);
    };
    if !has_room(r.count) {
        return cleared(r.spacing, r.last, r.count);
    }
    write_given(list, r.count as usize, h);
    cleared(r.spacing, r.last, r.count + 1)
}

#[tactic(auto, using(crate::proofs::Recorder::flush_no, rules::proofs::Refusals::number_ne0), unfolding(rules::specs::Refusals::answer_in, rules::specs::Refusals::number_in))]
pub fn flush(r: HintRecorder, list: &mut [u8]) -> Result<HintRecorder, Refusal>
    ensures { seen_out (answer_in result) list.new ≡ flush_in r list.old }
{
    check_list(r, list)?;
    Ok(flushed(r, list))
}

// The list taken: its hints are the first of the table, and the recorder has none then.
#[tactic(auto, using(crate::proofs::Recorder::take_no, rules::proofs::Refusals::number_ne0), unfolding(rules::specs::Refusals::answer_in, rules::specs::Refusals::number_in))]
pub fn take(r: HintRecorder, list: &[u8]) -> Result<TakenList, Refusal>
    ensures { answer_in result ≡ take_in r list.now }
{
    check_list(r, list)?;
    Ok(TakenList {
        count: r.count,
        recorder: emptied(r),
    })
}

// The hint recorder of an index.
#[tactic(auto, using(crate::proofs::Recorder::created_no, rules::proofs::Refusals::number_ne0), unfolding(rules::specs::Refusals::answer_in, rules::specs::Refusals::number_in))]
pub fn hint_recorder(x: AreaIndex, t: &Tables) -> Result<Option<HintRecorder>, Refusal>
    ensures { answer_in result ≡ created_in x (tables_in t.now) }
{
    index::check(x, t)?;
    if x.spacing == 0 || x.most == 0 {
        return Ok(None);
    }
    Ok(Some(HintRecorder {
        spacing: x.spacing,
        last: None,
        tail: None,
        count: 0,
    }))
}
