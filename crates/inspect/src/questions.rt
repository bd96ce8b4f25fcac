// Of a file: questions 32, 34, 28 and 35 of its end state, whether bytes are left over, and the bytes that its sum is of.
ghost use Rattle.std.specs.Prelude.{◌≡◌, true, ◌&&◌, ◌||◌, List, eqb, ltb, ◌≤◌, length};
ghost use Rattle.rules.specs.declared.Checkpoint.{Checkpoint};
ghost use Rattle.rules.specs.declared.Held.{Held};
ghost use Rattle.rules.specs.Questions.{area_ok};
ghost use Rattle.rules.specs.Values.{last_checkpoint};
ghost use Rattle.rules.specs.Sections.{reached as framesReached};
ghost use Rattle.rules.specs.Load.{is_complete, ending_of, end_number, body_in};

use crate::cursor::cut;
use header::complete;
use rules::{Area, Checkpoint, EndState, Header, MAX_MALFORMED_WARNINGS};
use sections::{ask, counted, ending_ok};

// The end state of a header.
#[tactic(auto)]
pub fn ending_of(h: Header) -> Option<EndState>
    ensures { (result ≡ (ending_of h)) × (result ≡ ending_of h) }
{
    if !complete(h) {
        return None;
    }
    Some(EndState {
        threshold: h.threshold,
        malformed: h.counted,
    })
}

// 28 of the end state: has a list that is not complete none?
#[tactic(auto, using(std::proofs::lemmas::Bool::Decides::nat_tests))]
fn unset_ok(h: Header) -> bool
    ensures { result ≡ (is_complete h || (eqb h.threshold 0 && eqb h.counted 0)) }
{
    complete(h) || h.threshold == 0 && h.counted == 0
}

// 32, 34, 28 and 35, by the last checkpoint and the count of frames that the parts reach.
pub fn end_questions(area: Area, h: Header, last: Checkpoint, reached: u64) -> u32
    requires { area_ok area ≡ true }
    ensures { (cs : List Checkpoint) → (ps : List Held) → last ≡ last_checkpoint cs → reached ≡ framesReached ps → result ≡ end_number area h cs ps }
{
    let ending = ending_of(h);
    let n = ask(0, reached == h.frames as u64, 32);
    let n = ask(n, ending_ok(area, last, ending), 34);
    let n = ask(n, unset_ok(h), 28);
    let count = counted(last, ending).min(MAX_MALFORMED_WARNINGS as u64);
    ask(n, h.malformed as u64 == count, 35)
}

// 38: are bytes left behind the last section, which ends at a place?
pub fn left_over(at: usize, len: usize) -> bool
    ensures { result ≡ ltb at len }
{
    at < len
}

// What the sum of a file is of: all but its last eight bytes.
pub fn body_of(bytes: &[u8]) -> &[u8]
    requires { 8 ≤ length bytes.now }
    ensures { result.now ≡ body_in bytes.now }
{
    cut(bytes, bytes.len() - 8)
}
