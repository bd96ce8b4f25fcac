// What the player's C program calls for the views of a list.
ghost use Rattle.std.specs.Prelude.{◌≡◌};
ghost use Rattle.rules.specs.Refusals.{answer_in};
ghost use Rattle.tables.specs.Index.{tables};
ghost use Rattle.blocks.specs.Calls.{called};
ghost use Rattle.player.specs.Player.{length_number, view_length_call, view_call};

use blocks::calls::index_in;
use rules::Refusal;
use tables::lent::Tables;
use view::check_block;

// The length, or the refusal number.
#[tactic(auto, unfolding(crate::specs::Player::length_number, rules::specs::Refusals::answer_in))]
fn length_number(viewed: Result<u64, Refusal>) -> u64
    ensures { result ≡ length_number (answer_in viewed) }
{
    match viewed {
        Err(e) => u64::from(e),
        Ok(n) => n,
    }
}

// The length that a view will have, or the refusal number.
pub fn seek_raw_view_length(
    role: u32,
    head: &[u8],
    checkpoints: &[u8],
    frames: &[u8],
    store: &[u8],
    parts: &[u8],
    malformed: &[u8],
    hints: &[u8],
    confirmed: &[u8],
) -> u64
    ensures { result
        ≡ view_length_call role head.now
        (tables checkpoints.now frames.now store.now parts.now
        malformed.now hints.now confirmed.now) }
{
    if let Err(e) = check_block(role, head) {
        return u64::from(e);
    }
    let x = index_in(head);
    let viewed = view::view_length(
        role,
        x,
        &Tables {
            checkpoints,
            frames,
            store,
            parts,
            malformed,
            hints,
            confirmed,
        },
    );
    length_number(viewed)
}

// Writes a view: 1 the listener's, 2 the workshop's. The length, or the refusal number.
pub fn seek_raw_view(
    role: u32,
    head: &[u8],
    checkpoints: &[u8],
    frames: &[u8],
    store: &[u8],
    parts: &[u8],
    malformed: &[u8],
    hints: &[u8],
    confirmed: &[u8],
    out: &mut [u8],
) -> u64
    ensures { called result out.new
        ≡ view_call role head.now
        (tables checkpoints.now frames.now store.now parts.now
        malformed.now hints.now confirmed.now)
        out.old }
{
    if let Err(e) = check_block(role, head) {
        return u64::from(e);
    }
    let x = index_in(head);
    let viewed = view::view(
        role,
        x,
        &Tables {
            checkpoints,
            frames,
            store,
            parts,
            malformed,
            hints,
            confirmed,
        },
        out,
    );
    length_number(viewed)
}
