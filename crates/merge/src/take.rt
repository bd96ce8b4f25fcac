// The steps of a merge, of which an absorb takes some: what is taken of the other list, table by table.
ghost use Rattle.std.specs.Prelude.{◌≡◌};
ghost use Rattle.parts.specs.Parts.{part_tables, held};
ghost use Rattle.merge.specs.Steps.{Appends, Appended, Takes, LsnsTaken, PartsReady, parts_taken, HintsReady, hints_joined, counted_table};

use add_hints::sort::merge_hints;
use field::{copy_first, copy_part};
use parts::{Counts, add_parts, used_bytes};
use rules::{Area, AreaIndex};

// The other's checkpoints from number i on behind the n of t. Answers how many there are then.
pub fn append_checkpoints(t: &mut [u8], n: u32, other: &[u8], m: u32, i: u32) -> u32
    requires { Appends n m i t.old other.now }
    ensures { Appended n m i t.old other.now result t.new }
{
    let k = m.saturating_sub(i);
    let at = n as usize * 24;
    let from = (m - k) as usize * 24;
    copy_part(t, at, other, from, k as usize * 24);
    n + k
}

// The other's malformed LSNs over those of t, where go holds. Answers how many there are then.
pub fn take_malformed(t: &mut [u8], n: u32, other: &[u8], m: u32, go: bool) -> u32
    requires { Takes n m t.old other.now }
    ensures { LsnsTaken go n m t.old other.now result t.new }
{
    if go {
        copy_first(t, other, m as usize * 4);
        m
    } else {
        n
    }
}

// The own frames and parts, and of the h parts of another list, which has f frames, those for the checkpoints that are appended.
pub fn take_parts(
    x: AreaIndex,
    f: u32,
    h: u32,
    headers: &[u8],
    other: &[u8],
    theirs: &[u8],
    frames: &mut [u8],
    store: &mut [u8],
    parts: &mut [u8],
) -> Counts
    requires { PartsReady x f h (part_tables frames.old store.old parts.old) (part_tables headers.now other.now theirs.now) }
    ensures { held result (part_tables frames.new store.new parts.new) ≡ parts_taken x f h (part_tables frames.old store.old parts.old) (part_tables headers.now other.now theirs.now) }
{
    let c = Counts {
        frames: x.frames,
        parts: x.parts,
        used: used_bytes(frames, x.frames),
    };
    add_parts(
        x.budget,
        x.checkpoints,
        c,
        f,
        h,
        headers,
        other,
        theirs,
        frames,
        store,
        parts,
    )
}

// The m hints of another list joined to the n held ones.
pub fn join_hints(area: Area, most: u32, hints: &mut [u8], n: u32, other: &[u8], m: u32) -> u32
    requires { HintsReady area n m hints.old other.now }
    ensures { counted_table result hints.new ≡ hints_joined area most n m hints.old other.now }
{
    merge_hints(area, most, n, hints, &other[..m as usize * 8])
}
