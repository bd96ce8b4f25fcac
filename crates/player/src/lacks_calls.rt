// What the player's C program calls to know what another list holds and the own one does not.
ghost use Rattle.std.specs.Prelude.{◌≡◌, ◌≤◌, length};
ghost use Rattle.rules.specs.Refusals.{answer_in};
ghost use Rattle.tables.specs.Index.{tables};
ghost use Rattle.blocks.specs.Calls.{called, into};
ghost use Rattle.player.specs.Player.{lacks_words, lacks_call};

use blocks::calls::{bit_word, index_in};
use blocks::read::is_index;
use blocks::{HEAD_BYTES, write_words};
use rules::Refusal;
use rules_lacks::Lacks;
use tables::lent::Tables;

fn lacks_words(l: Lacks) -> [u64; 24]
    ensures { result ≡ lacks_words l }
{
    let ending = bit_word(l.ending);
    let fingerprint = bit_word(l.fingerprint);
    let image = bit_word(l.image);
    let budget = bit_word(l.budget);
    let most = bit_word(l.most);
    [
        l.checkpoints as u64,
        ending,
        l.parts as u64,
        l.malformed as u64,
        l.hints as u64,
        l.confirmed as u64,
        fingerprint,
        image,
        budget,
        most,
        0,
        0,
        0,
        0,
        0,
        0,
        0,
        0,
        0,
        0,
        0,
        0,
        0,
        0,
    ]
}

#[tactic(auto, unfolding(rules::specs::Refusals::answer_in, blocks::specs::Calls::into))]
fn put_lacks(answer: &mut [u8], lacked: Result<Lacks, Refusal>) -> u32
    requires { 192 ≤ length answer.old }
    ensures { called result answer.new
        ≡ into lacks_words answer.old (answer_in lacked) }
{
    match lacked {
        Err(e) => u32::from(e),
        Ok(l) => {
            write_words(answer, lacks_words(l));
            0
        }
    }
}

// What the other list holds and the own one does not.
pub fn seek_raw_lacks(
    head: &[u8],
    other: &[u8],
    answer: &mut [u8],
    checkpoints: &[u8],
    frames: &[u8],
    store: &[u8],
    parts: &[u8],
    malformed: &[u8],
    hints: &[u8],
    confirmed: &[u8],
    other_checkpoints: &[u8],
    other_frames: &[u8],
    other_store: &[u8],
    other_parts: &[u8],
    other_malformed: &[u8],
    other_hints: &[u8],
    other_confirmed: &[u8],
) -> u32
    ensures { called result answer.new
        ≡ lacks_call head.now other.now answer.old
        (tables checkpoints.now frames.now store.now parts.now
        malformed.now hints.now confirmed.now)
        (tables other_checkpoints.now other_frames.now
        other_store.now other_parts.now other_malformed.now
        other_hints.now other_confirmed.now) }
{
    if !is_index(head) {
        return 3;
    }
    if !is_index(other) {
        return 3;
    }
    if answer.len() < HEAD_BYTES {
        return 3;
    }
    let x = index_in(head);
    let y = index_in(other);
    let lacked = lacks::lacks(
        x,
        y,
        &Tables {
            checkpoints,
            frames,
            store,
            parts,
            malformed,
            hints,
            confirmed,
        },
        &Tables {
            checkpoints: other_checkpoints,
            frames: other_frames,
            store: other_store,
            parts: other_parts,
            malformed: other_malformed,
            hints: other_hints,
            confirmed: other_confirmed,
        },
    );
    put_lacks(answer, lacked)
}
