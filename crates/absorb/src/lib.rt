// Absorbing a recorder into an index, in their tables.
#![tactic(auto)]

mod committed;
mod questions;
mod refusal;
mod tests;

ghost use Rattle.std.specs.Prelude.{◌≡◌, cond, ◌+◌, ◌≤◌, eqb};
ghost use Rattle.rules.specs.declared.Mode.TheVariants.{Stopped};
ghost use Rattle.rules.specs.Record.{drained};
ghost use Rattle.tables.specs.Index.{tables};
ghost use Rattle.tables.specs.Loans.{recorder_tables_in};
ghost use Rattle.recorder.specs.Recorder.{mode_of};
ghost use Rattle.absorb.specs.Absorb.{absorbed, absorbed_out, absorb_in};
ghost use Rattle.absorb.specs.Steps.{drained_of};

use crate::committed::commit;
use crate::refusal::{check_absorb, is_stopped};
use recorder::with_mode;
use rules::{Absorbed, AreaIndex, Mode, Recorder};
use tables::lent::{RecorderTables, Tables};

// ---- the recorder afterwards
// 8 stops the recorder; another refusal leaves it.
fn stop_recording(r: Recorder, number: u32) -> Recorder
    ensures { result ≡ cond (eqb number 8) (mode_of r Stopped) r }
{
    if number == 8 {
        with_mode(r, Mode::Stopped)
    } else {
        r
    }
}

// The mode of an emptied recorder: stopped if finished.
#[tactic(auto, unfolding(rules::specs::Record::drained))]
fn drained(mode: Mode) -> Mode
    ensures { result ≡ drained mode }
{
    match mode {
        Mode::Running => Mode::Running,
        Mode::Finished(_) | Mode::Stopped => Mode::Stopped,
    }
}

// The recorder emptied.
#[tactic(auto, unfolding(crate::specs::Steps::drained_of))]
fn drain(r: Recorder) -> Recorder
    requires { r.first + r.checkpoints ≤ 4294967295 }
    ensures { result ≡ drained_of r }
{
    Recorder {
        first: r.first + r.checkpoints,
        checkpoints: 0,
        frames: 0,
        parts: 0,
        mode: drained(r.mode),
        ..r
    }
}

// What is answered where nothing is absorbed, for a refusal number or for 0.
fn nothing_absorbed(x: AreaIndex, r: Recorder, number: u32) -> Absorbed
    ensures { result ≡ absorbed number x (cond (eqb number 8) (mode_of r Stopped) r) }
{
    Absorbed {
        number,
        index: x,
        recorder: stop_recording(r, number),
    }
}

// ---- the call
// What the recorder r has, only read in u, into the index x; image is the image that was read, and given the malformed
// LSNs of the reading.
// An own struct and no Result: 8 stops the recorder, so that an answer stands beside the refusal.
pub fn absorb(
    x: AreaIndex,
    r: Recorder,
    image: Option<u64>,
    given: &[u8],
    checkpoints: &mut [u8],
    frames: &mut [u8],
    store: &mut [u8],
    parts: &mut [u8],
    malformed: &mut [u8],
    hints: &[u8],
    confirmed: &[u8],
    u: &RecorderTables,
) -> Absorbed
    ensures { absorbed_out result
        (tables checkpoints.new frames.new store.new parts.new malformed.new hints.now confirmed.now)
        ≡ absorb_in x
        (tables checkpoints.old frames.old store.old parts.old malformed.old hints.now confirmed.now)
        image given.now r (recorder_tables_in u.now) }
{
    let t = Tables {
        checkpoints: &*checkpoints,
        frames: &*frames,
        store: &*store,
        parts: &*parts,
        malformed: &*malformed,
        hints,
        confirmed,
    };
    if let Err(e) = check_absorb(x, r, image, given, &t, u) {
        return nothing_absorbed(x, r, u32::from(e));
    }
    if is_stopped(r.mode) {
        return nothing_absorbed(x, r, 0);
    }
    let index = commit(
        x,
        r,
        image,
        given,
        checkpoints,
        frames,
        store,
        parts,
        malformed,
        u,
    );
    Absorbed {
        number: 0,
        index,
        recorder: drain(r),
    }
}
