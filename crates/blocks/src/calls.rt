// What the calls for C share: numbers from blocks and from arguments, and words and numbers of answers.
ghost use Rattle.std.specs.Prelude.{◌≡◌, ◌≤◌, length};
ghost use Rattle.rules.specs.File.{bit};
ghost use Rattle.rules.specs.Refusals.{answer_in};
ghost use Rattle.blocks.specs.Calls.{head_index, head_recorder, head_hint_recorder, given_area, one_word, saved_number};

use crate::read::{hint_recorder_from, index_from, recorder_from};
use crate::read_words;
use rules::{Area, AreaIndex, AreaKey, HintRecorder, Recorder, Refusal};

// ---- from blocks
#[tactic(auto, unfolding(crate::specs::Calls::head_index))]
pub fn index_in(head: &[u8]) -> AreaIndex
    requires { 192 ≤ length head.now }
    ensures { result ≡ head_index head.now }
{
    index_from(read_words(head))
}

#[tactic(auto, unfolding(crate::specs::Calls::head_recorder))]
pub fn recorder_in(head: &[u8]) -> Recorder
    requires { 192 ≤ length head.now }
    ensures { result ≡ head_recorder head.now }
{
    recorder_from(read_words(head))
}

#[tactic(auto, unfolding(crate::specs::Calls::head_hint_recorder))]
pub fn hint_recorder_in(head: &[u8]) -> HintRecorder
    requires { 192 ≤ length head.now }
    ensures { result ≡ head_hint_recorder head.now }
{
    hint_recorder_from(read_words(head))
}

// An area's seven numbers.
#[tactic(auto, unfolding(crate::specs::Blocks::area_read))]
pub fn area_from(
    slot: u8,
    channels: u8,
    key_start: u32,
    key_end: u32,
    sectors: u64,
    start: u64,
    end: u64,
) -> Area
    ensures { result ≡ given_area slot channels key_start key_end sectors start end }
{
    let key = AreaKey {
        slot,
        start: key_start,
        end: key_end,
        channels,
        sectors,
    };
    Area { key, start, end }
}

// ---- answers
#[tactic(auto, unfolding(rules::specs::File::bit))]
pub fn bit_word(b: bool) -> u64
    ensures { result ≡ bit b }
{
    u64::from(b)
}

// One word, and words of 0.
pub fn one_word(v: u64) -> [u64; 24]
    ensures { result ≡ one_word v }
{
    let mut words = [0; 24];
    words[0] = v;
    words
}

// The length, or the refusal number.
#[tactic(auto, unfolding(crate::specs::Calls::saved_number, rules::specs::Refusals::answer_in))]
pub fn saved_number(saved: Result<u64, Refusal>) -> u64
    ensures { result ≡ saved_number (answer_in saved) }
{
    match saved {
        Ok(length) => length,
        Err(e) => u64::from(e),
    }
}
