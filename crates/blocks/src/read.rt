// The numbers of an index, a recorder and a hint recorder, read from the 24 words of a head; and whether a block is a head.
ghost use Rattle.std.specs.Prelude.{◌≡◌};
ghost use Rattle.blocks.specs.Blocks.{low8, low32, end_read, fingerprint_read, image_read, mode_read, last_read, tail_read, area_read, index_read, recorder_read, hint_recorder_read, with_free, is_index, is_recorder, is_hint_recorder};

use crate::{HEAD_BYTES, hint_recorder_words, index_words, read_words, recorder_words};
use rules::{Area, AreaIndex, AreaKey, EndState, Fingerprint, Hint, HintRecorder, Mode, Recorder};

// ---- what may be unknown; what a field is too narrow for is cut off
fn low8(v: u64) -> u8
    ensures { result ≡ low8 v }
{
    (v % 256) as u8
}

fn low32(v: u64) -> u32
    ensures { result ≡ low32 v }
{
    (v % 4294967296) as u32
}

// A flag of 0 is unknown, anything else known.
#[tactic(auto, unfolding(crate::specs::Blocks::end_read))]
fn end_from(known: u64, threshold: u64, malformed: u64) -> Option<EndState>
    ensures { result ≡ end_read known threshold malformed }
{
    match known {
        0 => None,
        _ => Some(EndState {
            threshold: low32(threshold),
            malformed,
        }),
    }
}

// 0 unknown, 1 held, anything else checked.
#[tactic(auto, unfolding(crate::specs::Blocks::fingerprint_read))]
fn fingerprint_from(mark: u64, value: u64) -> Fingerprint
    ensures { result ≡ fingerprint_read mark value }
{
    match mark {
        0 => Fingerprint::Unknown,
        1 => Fingerprint::Held(value),
        _ => Fingerprint::Checked(value),
    }
}

#[tactic(auto, unfolding(crate::specs::Blocks::image_read))]
fn image_from(known: u64, value: u64) -> Option<u64>
    ensures { result ≡ image_read known value }
{
    match known {
        0 => None,
        _ => Some(value),
    }
}

// 0 running, 1 finished, anything else stopped.
#[tactic(auto, unfolding(crate::specs::Blocks::mode_read))]
fn mode_from(mark: u64, threshold: u64, malformed: u64) -> Mode
    ensures { result ≡ mode_read mark threshold malformed }
{
    match mark {
        0 => Mode::Running,
        1 => Mode::Finished(EndState {
            threshold: low32(threshold),
            malformed,
        }),
        _ => Mode::Stopped,
    }
}

#[tactic(auto, unfolding(crate::specs::Blocks::last_read))]
fn last_from(known: u64, number: u64) -> Option<u32>
    ensures { result ≡ last_read known number }
{
    match known {
        0 => None,
        _ => Some(low32(number)),
    }
}

#[tactic(auto, unfolding(crate::specs::Blocks::tail_read))]
fn tail_from(known: u64, lsn: u64, number: u64) -> Option<Hint>
    ensures { result ≡ tail_read known lsn number }
{
    match known {
        0 => None,
        _ => Some(Hint {
            lsn: low32(lsn),
            number: low32(number),
            mark: 0,
        }),
    }
}

// ---- heads
#[tactic(auto, unfolding(crate::specs::Blocks::area_read))]
fn area_from(w: [u64; 24]) -> Area
    ensures { result ≡ area_read w }
{
    let key = AreaKey {
        slot: low8(w[0]),
        start: low32(w[2]),
        end: low32(w[3]),
        channels: low8(w[1]),
        sectors: w[4],
    };
    Area {
        key,
        start: w[5],
        end: w[6],
    }
}

#[tactic(auto, unfolding(crate::specs::Blocks::index_read))]
pub fn index_from(w: [u64; 24]) -> AreaIndex
    ensures { result ≡ index_read w }
{
    AreaIndex {
        area: area_from(w),
        interval: low32(w[7]),
        budget: w[8],
        spacing: low32(w[9]),
        most: low32(w[10]),
        checkpoints: low32(w[11]),
        frames: low32(w[12]),
        parts: low32(w[13]),
        malformed: low32(w[14]),
        hints: low32(w[15]),
        confirmed: low32(w[16]),
        ending: end_from(w[17], w[18], w[19]),
        fingerprint: fingerprint_from(w[20], w[21]),
        image: image_from(w[22], w[23]),
    }
}

#[tactic(auto, unfolding(crate::specs::Blocks::recorder_read))]
pub fn recorder_from(w: [u64; 24]) -> Recorder
    ensures { result ≡ recorder_read w }
{
    Recorder {
        area: area_from(w),
        interval: low32(w[7]),
        budget: w[8],
        first: low32(w[9]),
        from: w[10],
        checkpoints: low32(w[11]),
        frames: low32(w[12]),
        parts: low32(w[13]),
        mode: mode_from(w[14], w[15], w[16]),
    }
}

#[tactic(auto, unfolding(crate::specs::Blocks::hint_recorder_read))]
pub fn hint_recorder_from(w: [u64; 24]) -> HintRecorder
    ensures { result ≡ hint_recorder_read w }
{
    HintRecorder {
        spacing: low32(w[0]),
        last: last_from(w[1], w[2]),
        tail: tail_from(w[3], w[4], w[5]),
        count: low32(w[6]),
    }
}

// ---- is a block a head? What is read from it, written again, is its words.
#[tactic(auto, using(field::proofs::Native::pointwise_same), unfolding(crate::specs::Blocks::is_index, crate::specs::Blocks::is_head))]
pub fn is_index(head: &[u8]) -> bool
    ensures { result ≡ is_index head.now }
{
    if head.len() < HEAD_BYTES {
        return false;
    }
    let words = read_words(head);
    words == index_words(index_from(words))
}

#[tactic(auto, using(field::proofs::Native::pointwise_same), unfolding(crate::specs::Blocks::is_recorder, crate::specs::Blocks::is_head))]
pub fn is_recorder(head: &[u8]) -> bool
    ensures { result ≡ is_recorder head.now }
{
    if head.len() < HEAD_BYTES {
        return false;
    }
    let words = read_words(head);
    words == recorder_words(recorder_from(words))
}

// Words 7 to 10 of a hint recorder are free: they are taken as they are.
#[tactic(auto, unfolding(crate::specs::Blocks::with_free))]
fn with_free(words: [u64; 24], again: [u64; 24]) -> [u64; 24]
    ensures { result ≡ with_free words again }
{
    let mut r = again;
    r[7..11].copy_from_slice(&words[7..11]);
    r
}

#[tactic(auto, using(field::proofs::Native::pointwise_same), unfolding(crate::specs::Blocks::is_hint_recorder, crate::specs::Blocks::is_head))]
pub fn is_hint_recorder(head: &[u8]) -> bool
    ensures { result ≡ is_hint_recorder head.now }
{
    if head.len() < HEAD_BYTES {
        return false;
    }
    let words = read_words(head);
    let again = hint_recorder_words(hint_recorder_from(words));
    words == with_free(words, again)
}
