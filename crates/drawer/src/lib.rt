// All lists of a drawer together (change request 1): every file and every pair is asked, then the lists are merged in turn.
#![tactic(auto)]

mod ask;

ghost use Rattle.std.specs.Prelude.{◌≡◌, true};
ghost use Rattle.tables.specs.Index.{tables, made_out};
ghost use Rattle.merge.specs.Steps.{out_index};
ghost use Rattle.drawer.specs.Ask.{list_at, lists_at};
ghost use Rattle.drawer.specs.Drawer.{merge_all_in};
ghost use Rattle.drawer.specs.Turns.{numbers_after, Turning, turn_in, Turns, turns_out};

use crate::ask::{Asked, Entry, ask};
use load::commit;
use merge::merge;
use rules::{Area, AreaIndex, Made};

// The numbers of the list that a call left: x where it is a refusal.
fn numbers_after(x: AreaIndex, made: Made) -> AreaIndex
    ensures { result ≡ numbers_after x made }
{
    match made {
        Made::Refused(_) => x,
        Made::Index(y) => y,
    }
}

// One file, loaded into the working tables, and its list merged into the own one x.
fn turn(
    area: Area,
    x: AreaIndex,
    e: Entry,
    files: &[u8],
    limit: u64,
    checkpoints: &mut [u8],
    frames: &mut [u8],
    store: &mut [u8],
    parts: &mut [u8],
    malformed: &mut [u8],
    hints: &mut [u8],
    confirmed: &mut [u8],
    work_checkpoints: &mut [u8],
    work_frames: &mut [u8],
    work_store: &mut [u8],
    work_parts: &mut [u8],
    work_malformed: &mut [u8],
    work_hints: &mut [u8],
    work_confirmed: &mut [u8],
) -> AreaIndex
    requires { Turning area x
        (tables checkpoints.old frames.old store.old parts.old malformed.old hints.old
        confirmed.old)
        e files.now limit
        (tables work_checkpoints.old work_frames.old work_store.old work_parts.old
        work_malformed.old work_hints.old work_confirmed.old) }
    ensures { out_index result
        (tables checkpoints.new frames.new store.new parts.new
        malformed.new hints.new confirmed.new)
        ≡ turn_in x
        (tables checkpoints.old frames.old store.old parts.old
        malformed.old hints.old confirmed.old)
        (list_at area files.now limit e) }
{
    let to = e.from + e.len;
    commit(
        area,
        e.found,
        e.index,
        &files[e.from..to],
        limit,
        work_checkpoints,
        work_frames,
        work_store,
        work_parts,
        work_malformed,
        work_hints,
        work_confirmed,
    );
    let made = merge(
        x,
        e.index,
        checkpoints,
        frames,
        store,
        parts,
        malformed,
        hints,
        confirmed,
        work_checkpoints,
        work_frames,
        work_store,
        work_parts,
        work_malformed,
        work_hints,
        work_confirmed,
    );
    numbers_after(x, made)
}

// The refusal of the set, or the lists of its files, in their order, merged into the own one x.
fn turns(
    x: AreaIndex,
    asked: Asked,
    files: &[u8],
    limit: u64,
    checkpoints: &mut [u8],
    frames: &mut [u8],
    store: &mut [u8],
    parts: &mut [u8],
    malformed: &mut [u8],
    hints: &mut [u8],
    confirmed: &mut [u8],
    work_checkpoints: &mut [u8],
    work_frames: &mut [u8],
    work_store: &mut [u8],
    work_parts: &mut [u8],
    work_malformed: &mut [u8],
    work_hints: &mut [u8],
    work_confirmed: &mut [u8],
) -> Made
    requires { asked.ok ≡ true
        → Turns x.area x
        (tables checkpoints.old frames.old store.old parts.old malformed.old hints.old
        confirmed.old)
        asked files.now limit
        (tables work_checkpoints.old work_frames.old work_store.old work_parts.old
        work_malformed.old work_hints.old work_confirmed.old) }
    ensures { made_out result
        (tables checkpoints.new frames.new store.new parts.new
        malformed.new hints.new confirmed.new)
        ≡ turns_out x
        (tables checkpoints.old frames.old store.old parts.old
        malformed.old hints.old confirmed.old)
        asked
        (lists_at x.area files.now limit asked) }
{
    if !asked.ok {
        return Made::Refused(asked.number);
    }
    let mut y = x;
    for i in 0..asked.count {
        y = turn(
            x.area,
            y,
            asked.entries[i],
            files,
            limit,
            checkpoints,
            frames,
            store,
            parts,
            malformed,
            hints,
            confirmed,
            work_checkpoints,
            work_frames,
            work_store,
            work_parts,
            work_malformed,
            work_hints,
            work_confirmed,
        );
    }
    Made::Index(y)
}

// The files, which lie end to end in one buffer, merged into the own list x, all of them or none.
pub fn merge_all(
    x: AreaIndex,
    lengths: &[u8],
    files: &[u8],
    limit: u64,
    checkpoints: &mut [u8],
    frames: &mut [u8],
    store: &mut [u8],
    parts: &mut [u8],
    malformed: &mut [u8],
    hints: &mut [u8],
    confirmed: &mut [u8],
    work_checkpoints: &mut [u8],
    work_frames: &mut [u8],
    work_store: &mut [u8],
    work_parts: &mut [u8],
    work_malformed: &mut [u8],
    work_hints: &mut [u8],
    work_confirmed: &mut [u8],
) -> Made
    ensures { made_out result
        (tables checkpoints.new frames.new store.new parts.new
        malformed.new hints.new confirmed.new)
        ≡ merge_all_in x
        (tables checkpoints.old frames.old store.old parts.old
        malformed.old hints.old confirmed.old)
        lengths.now files.now limit
        (tables work_checkpoints.old work_frames.old work_store.old
        work_parts.old work_malformed.old work_hints.old
        work_confirmed.old) }
{
    let asked = ask(
        x,
        lengths,
        files,
        limit,
        checkpoints,
        frames,
        store,
        parts,
        malformed,
        hints,
        confirmed,
        work_checkpoints,
        work_frames,
        work_store,
        work_parts,
        work_malformed,
        work_hints,
        work_confirmed,
    );
    turns(
        x,
        asked,
        files,
        limit,
        checkpoints,
        frames,
        store,
        parts,
        malformed,
        hints,
        confirmed,
        work_checkpoints,
        work_frames,
        work_store,
        work_parts,
        work_malformed,
        work_hints,
        work_confirmed,
    )
}
