// A head: the numbers of an index, a recorder or a hint recorder in one lent block of 192 bytes, 24 words of eight bytes each.
#![tactic(auto)]

pub mod calls;
pub mod read;

ghost use Rattle.std.specs.Prelude.{◌≡◌, ◌≤◌, ◌<◌, ◌*◌, length};
ghost use Rattle.rules.specs.File.{over};
ghost use Rattle.blocks.specs.Blocks.{words_in, block_of, marked, index_array, recorder_array, index_words, recorder_words, hint_recorder_array, hint_recorder_words, seen_words, end_words, fingerprint_words, image_words, last_words, tail_words, mode_words, absence_number, first_told};

use field::{read_u64, write_u64};
use rules::{Absence, AreaIndex, EndState, Fingerprint, First, Hint, HintRecorder, Mode, Recorder};

// The words of a head.
pub const HEAD_WORDS: usize = 24;
// The bytes of a head.
pub const HEAD_BYTES: usize = 192;

// ---- words in bytes
pub fn read_words(head: &[u8]) -> [u64; 24]
    requires { 192 ≤ length head.now }
    ensures { result ≡ words_in 24 head.now }
{
    let mut words = [0u64; 24];
    for i in 0..24 {
        words[i] = read_u64(head, i * 8);
    }
    words
}

pub fn write_words(head: &mut [u8], words: [u64; 24])
    requires { 192 ≤ length head.old }
    ensures { head.new ≡ over (block_of words) head.old }
{
    for i in 0..24 {
        write_u64(head, i * 8, words[i]);
    }
}

// ---- to words
// A thing that may be unknown: its mark, and up to two numbers.
#[derive(Clone, Copy)]
pub struct Marked {
    pub mark: u64,
    pub first: u64,
    pub second: u64,
}

impl Marked {
    fn new(mark: u64, first: u64, second: u64) -> Marked
        ensures { result ≡ marked mark first second }
    {
        Marked {
            mark,
            first,
            second,
        }
    }
}

#[tactic(auto, unfolding(crate::specs::Blocks::end_words))]
fn end_words(e: Option<EndState>) -> Marked
    ensures { result ≡ end_words e }
{
    match e {
        None => Marked::new(0, 0, 0),
        Some(s) => Marked::new(1, s.threshold as u64, s.malformed),
    }
}

#[tactic(auto, unfolding(crate::specs::Blocks::fingerprint_words))]
fn fingerprint_words(f: Fingerprint) -> Marked
    ensures { result ≡ fingerprint_words f }
{
    match f {
        Fingerprint::Unknown => Marked::new(0, 0, 0),
        Fingerprint::Held(v) => Marked::new(1, v, 0),
        Fingerprint::Checked(v) => Marked::new(2, v, 0),
    }
}

#[tactic(auto, unfolding(crate::specs::Blocks::image_words))]
fn image_words(i: Option<u64>) -> Marked
    ensures { result ≡ image_words i }
{
    match i {
        None => Marked::new(0, 0, 0),
        Some(v) => Marked::new(1, v, 0),
    }
}

#[tactic(auto, unfolding(crate::specs::Blocks::mode_words))]
fn mode_words(m: Mode) -> Marked
    ensures { result ≡ mode_words m }
{
    match m {
        Mode::Running => Marked::new(0, 0, 0),
        Mode::Finished(s) => Marked::new(1, s.threshold as u64, s.malformed),
        Mode::Stopped => Marked::new(2, 0, 0),
    }
}

#[tactic(auto, unfolding(crate::specs::Blocks::last_words))]
fn last_words(l: Option<u32>) -> Marked
    ensures { result ≡ last_words l }
{
    match l {
        None => Marked::new(0, 0, 0),
        Some(t) => Marked::new(1, t as u64, 0),
    }
}

#[tactic(auto, unfolding(crate::specs::Blocks::tail_words))]
fn tail_words(t: Option<Hint>) -> Marked
    ensures { result ≡ tail_words t }
{
    match t {
        None => Marked::new(0, 0, 0),
        Some(h) => Marked::new(1, h.lsn as u64, h.number as u64),
    }
}

fn index_array(x: AreaIndex, e: Marked, f: Marked, i: Marked) -> [u64; 24]
    ensures { result ≡ index_array x e f i }
{
    let key = x.area.key;
    [
        key.slot as u64,
        key.channels as u64,
        key.start as u64,
        key.end as u64,
        key.sectors,
        x.area.start,
        x.area.end,
        x.interval as u64,
        x.budget,
        x.spacing as u64,
        x.most as u64,
        x.checkpoints as u64,
        x.frames as u64,
        x.parts as u64,
        x.malformed as u64,
        x.hints as u64,
        x.confirmed as u64,
        e.mark,
        e.first,
        e.second,
        f.mark,
        f.first,
        i.mark,
        i.first,
    ]
}

#[tactic(auto, unfolding(crate::specs::Blocks::index_words))]
pub fn index_words(x: AreaIndex) -> [u64; 24]
    ensures { result ≡ index_words x }
{
    index_array(
        x,
        end_words(x.ending),
        fingerprint_words(x.fingerprint),
        image_words(x.image),
    )
}

fn recorder_array(x: Recorder, m: Marked) -> [u64; 24]
    ensures { result ≡ recorder_array x m }
{
    let key = x.area.key;
    [
        key.slot as u64,
        key.channels as u64,
        key.start as u64,
        key.end as u64,
        key.sectors,
        x.area.start,
        x.area.end,
        x.interval as u64,
        x.budget,
        x.first as u64,
        x.from,
        x.checkpoints as u64,
        x.frames as u64,
        x.parts as u64,
        m.mark,
        m.first,
        m.second,
        0,
        0,
        0,
        0,
        0,
        0,
        0,
    ]
}

#[tactic(auto, unfolding(crate::specs::Blocks::recorder_words))]
pub fn recorder_words(x: Recorder) -> [u64; 24]
    ensures { result ≡ recorder_words x }
{
    recorder_array(x, mode_words(x.mode))
}

// The words that tell a first record: whether there is one, its frame number, its offset, and why there is none.
#[derive(Clone, Copy)]
pub struct Told {
    pub found: u64,
    pub number: u64,
    pub offset: u64,
    pub why: u64,
}

#[tactic(auto, unfolding(crate::specs::Blocks::absence_number))]
fn absence_number(a: Absence) -> u64
    ensures { result ≡ absence_number a }
{
    match a {
        Absence::NoFrame => 1,
        Absence::Missing => 2,
    }
}

#[tactic(auto, unfolding(crate::specs::Blocks::first_told))]
pub fn first_told(f: First) -> Told
    ensures { result ≡ first_told f }
{
    match f {
        First::Number(t) => Told {
            found: 1,
            number: t.number as u64,
            offset: t.offset as u64,
            why: 0,
        },
        First::Nothing(a) => Told {
            found: 0,
            number: 0,
            offset: 0,
            why: absence_number(a),
        },
    }
}

#[tactic(auto, unfolding(crate::specs::Blocks::hint_recorder_array))]
fn hint_recorder_array(x: HintRecorder, f: Told) -> [u64; 24]
    ensures { result ≡ hint_recorder_array x f }
{
    let l = last_words(x.last);
    let t = tail_words(x.tail);
    [
        x.spacing as u64,
        l.mark,
        l.first,
        t.mark,
        t.first,
        t.second,
        x.count as u64,
        f.found,
        f.number,
        f.offset,
        f.why,
        0,
        0,
        0,
        0,
        0,
        0,
        0,
        0,
        0,
        0,
        0,
        0,
        0,
    ]
}

#[tactic(auto, unfolding(crate::specs::Blocks::hint_recorder_words))]
pub fn hint_recorder_words(x: HintRecorder) -> [u64; 24]
    ensures { result ≡ hint_recorder_words x }
{
    let f = Told {
        found: 0,
        number: 0,
        offset: 0,
        why: 0,
    };
    hint_recorder_array(x, f)
}

// A hint recorder, and the first record of the sector that it has seen.
#[tactic(auto, unfolding(crate::specs::Blocks::seen_words))]
pub fn seen_words(x: HintRecorder, first: First) -> [u64; 24]
    ensures { result ≡ seen_words x first }
{
    hint_recorder_array(x, first_told(first))
}
