// Answers of recorders, hint recorders, hint, keep_hint and keep_confirmation as a number and blocks; a frame under assembly and an image id from numbers.
ghost use Rattle.std.specs.Prelude.{◌≡◌, ◌≤◌, length};
ghost use Rattle.blocks.specs.Blocks.{image_read, recorder_words, hint_recorder_words};
ghost use Rattle.rules.specs.Tests.{number_of};
ghost use Rattle.rules.specs.Refusals.{answer_in};
ghost use Rattle.index.specs.Index.{made_of};
ghost use Rattle.hint.specs.Hint.{named_of, answer_of};
ghost use Rattle.blocks.specs.Calls.{called, into};
ghost use Rattle.player_record.specs.Block.{kind_from, number_from, frame_from, sector_words, created_words, hint_words, found_words, called_both, taken_into, kept_into, absorbed_into, lsn_words, boundary_words};

use blocks::calls::{bit_word, one_word};
use blocks::{hint_recorder_words, index_words, recorder_words, seen_words, write_words};
use rules::{
    Absorbed, AreaIndex, Assembling, FrameKind, HintRecorder, MAX_NEXT_ACCEPTABLE, Made, Recorder,
    Refusal, SeenSector, TakenList,
};
use rules_jump::{NamedHint, end_rule_number, start_rule_number};

// ---- a frame under assembly
// 0 Dst, anything else Dsd; number_from asks whether it is one of the two.
fn kind_from(kind: u8) -> FrameKind
    ensures { result ≡ kind_from kind }
{
    if kind == 0 {
        return FrameKind::Dst;
    }
    FrameKind::Dsd
}

// A frame whose kind is neither 0 nor 1 gets the number LIM, which 7 refuses.
fn number_from(kind: u8, number: u32) -> u32
    ensures { result ≡ number_from kind number }
{
    if kind <= 1 {
        return number;
    }
    MAX_NEXT_ACCEPTABLE
}

// A mark of 0 is no frame, anything else one.
pub fn frame_from(mark: u8, start: u64, number: u32, kind: u8, remaining: i32) -> Option<Assembling>
    ensures { result ≡ frame_from mark start number kind remaining }
{
    if mark == 0 {
        return None;
    }
    Some(Assembling {
        start,
        number: number_from(kind, number),
        kind: kind_from(kind),
        remaining,
    })
}

// A mark of 0 is no image id, anything else one.
pub fn image_given(mark: u8, image: u64) -> Option<u64>
    ensures { result ≡ image_read mark image }
{
    if mark == 0 {
        return None;
    }
    Some(image)
}

// ---- into blocks
#[tactic(auto, unfolding(blocks::specs::Calls::into, rules::specs::Refusals::answer_in))]
pub fn put_recorded(block: &mut [u8], recorded: Result<Recorder, Refusal>) -> u32
    requires { 192 ≤ length block.old }
    ensures { called result block.new
        ≡ into recorder_words block.old (answer_in recorded) }
{
    match recorded {
        Err(e) => u32::from(e),
        Ok(r) => {
            write_words(block, recorder_words(r));
            0
        }
    }
}

#[tactic(auto, unfolding(rules::specs::Refusals::answer_in, blocks::specs::Calls::into))]
pub fn put_seen(block: &mut [u8], seen: Result<HintRecorder, Refusal>) -> u32
    requires { 192 ≤ length block.old }
    ensures { called result block.new
        ≡ into hint_recorder_words block.old (answer_in seen) }
{
    match seen {
        Err(e) => u32::from(e),
        Ok(r) => {
            write_words(block, hint_recorder_words(r));
            0
        }
    }
}

// Words 7 to 10 tell the first record of the sector that was seen.
#[tactic(auto, unfolding(rules::specs::Refusals::answer_in, blocks::specs::Calls::into))]
pub fn put_saw(block: &mut [u8], saw: Result<SeenSector, Refusal>) -> u32
    requires { 192 ≤ length block.old }
    ensures { called result block.new ≡ into sector_words block.old (answer_in saw) }
{
    match saw {
        Err(e) => u32::from(e),
        Ok(s) => {
            write_words(block, seen_words(s.recorder, s.first));
            0
        }
    }
}

// Where there is no hint recorder, the words are 0.
#[tactic(auto, unfolding(rules::specs::Refusals::answer_in, blocks::specs::Calls::into, crate::specs::Block::created_words))]
pub fn put_created(block: &mut [u8], created: Result<Option<HintRecorder>, Refusal>) -> u32
    requires { 192 ≤ length block.old }
    ensures { called result block.new
        ≡ into created_words block.old (answer_in created) }
{
    match created {
        Err(e) => u32::from(e),
        Ok(None) => {
            write_words(block, one_word(0));
            0
        }
        Ok(Some(r)) => {
            write_words(block, hint_recorder_words(r));
            0
        }
    }
}

fn found_words(named: NamedHint) -> [u64; 24]
    ensures { result ≡ found_words (named_of named) }
{
    let h = named.hint;
    let later = bit_word(h.later);
    let s = named.start;
    let e = named.end;
    let start = start_rule_number(s);
    let end = end_rule_number(e);
    [
        1,
        h.lsn as u64,
        h.number as u64,
        h.upper,
        later,
        start,
        end,
        0,
        0,
        0,
        0,
        0,
        0,
        0,
        0,
        0,
        0,
        0,
        0,
        0,
        0,
        0,
        0,
        0,
    ]
}

// 0, or the refusal number.
pub fn made_number(made: Made) -> u32
    ensures { result ≡ number_of (made_of made) }
{
    match made {
        Made::Refused(n) => n,
        Made::Index(_) => 0,
    }
}

// Where there is no hint, the words are 0.
#[tactic(auto, unfolding(rules::specs::Refusals::answer_in, hint::specs::Hint::answer_of, blocks::specs::Calls::into, crate::specs::Block::hint_words))]
pub fn put_hint(answer: &mut [u8], hinted: Result<Option<NamedHint>, Refusal>) -> u32
    requires { 192 ≤ length answer.old }
    ensures { called result answer.new
        ≡ into hint_words answer.old (answer_of (answer_in hinted)) }
{
    match hinted {
        Err(e) => u32::from(e),
        Ok(None) => {
            write_words(answer, one_word(0));
            0
        }
        Ok(Some(h)) => {
            write_words(answer, found_words(h));
            0
        }
    }
}

// How many hints are taken is the answer's first word.
#[tactic(auto, unfolding(rules::specs::Refusals::answer_in, crate::specs::Block::taken_into))]
pub fn put_taken(block: &mut [u8], answer: &mut [u8], taken: Result<TakenList, Refusal>) -> u32
    requires in_bounds { 192 ≤ length block.old }
    requires in_bounds_2 { 192 ≤ length answer.old }
    ensures { called_both result block.new answer.new
        ≡ taken_into block.old answer.old (answer_in taken) }
{
    match taken {
        Err(e) => u32::from(e),
        Ok(k) => {
            write_words(block, hint_recorder_words(k.recorder));
            write_words(answer, one_word(k.count as u64));
            0
        }
    }
}

// The answer's first word is 1 where the confirmation is kept by its rule, 0 where nothing is kept.
#[tactic(auto, unfolding(rules::specs::Refusals::answer_in, crate::specs::Block::kept_into))]
pub fn put_kept(head: &mut [u8], answer: &mut [u8], kept: Result<Option<AreaIndex>, Refusal>) -> u32
    requires in_bounds { 192 ≤ length head.old }
    requires in_bounds_2 { 192 ≤ length answer.old }
    ensures { called_both result head.new answer.new
        ≡ kept_into head.old answer.old (answer_in kept) }
{
    match kept {
        Err(e) => u32::from(e),
        Ok(None) => {
            write_words(answer, one_word(0));
            0
        }
        Ok(Some(x)) => {
            write_words(head, index_words(x));
            write_words(answer, one_word(1));
            0
        }
    }
}

// 0 writes both blocks, 8 the recorder's.
pub fn put_absorbed(head: &mut [u8], block: &mut [u8], absorbed: Absorbed) -> u32
    requires in_bounds { 192 ≤ length head.old }
    requires in_bounds_2 { 192 ≤ length block.old }
    ensures { called_both result head.new block.new
        ≡ absorbed_into head.old block.old absorbed }
{
    let number = absorbed.number;
    let x = absorbed.index;
    let r = absorbed.recorder;
    if number == 0 {
        write_words(head, index_words(x));
        write_words(block, recorder_words(r));
        return 0;
    }
    if number == 8 {
        write_words(block, recorder_words(r));
        return 8;
    }
    number
}

// 1 and the LSN.
fn lsn_words(lsn: u64) -> [u64; 24]
    ensures { result ≡ lsn_words lsn }
{
    [
        1, lsn, 0, 0, 0, 0, 0, 0, 0, 0, 0, 0, 0, 0, 0, 0, 0, 0, 0, 0, 0, 0, 0, 0,
    ]
}

#[tactic(auto, unfolding(blocks::specs::Calls::into, rules::specs::Refusals::answer_in))]
pub fn put_frontier(answer: &mut [u8], frontier: Result<u64, Refusal>) -> u32
    requires { 192 ≤ length answer.old }
    ensures { called result answer.new
        ≡ into lsn_words answer.old (answer_in frontier) }
{
    match frontier {
        Err(e) => u32::from(e),
        Ok(lsn) => {
            write_words(answer, lsn_words(lsn));
            0
        }
    }
}

// Where there is no such boundary, the words are 0.
#[tactic(auto, unfolding(blocks::specs::Calls::into, rules::specs::Refusals::answer_in, crate::specs::Block::boundary_words))]
pub fn put_boundary(answer: &mut [u8], boundary: Result<Option<u64>, Refusal>) -> u32
    requires { 192 ≤ length answer.old }
    ensures { called result answer.new
        ≡ into boundary_words answer.old (answer_in boundary) }
{
    match boundary {
        Err(e) => u32::from(e),
        Ok(None) => {
            write_words(answer, one_word(0));
            0
        }
        Ok(Some(lsn)) => {
            write_words(answer, lsn_words(lsn));
            0
        }
    }
}
