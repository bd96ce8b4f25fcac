// What a merge of two lists would bring, from their tables, which are only read.
#![tactic(auto)]

pub mod compare;

ghost use Rattle.std.specs.Prelude.{◌≡◌, ◌&&◌, not, ◌+◌, ◌*◌, ◌≤◌, eqb, ltb, length, take, drop};
ghost use Rattle.rules.specs.Tests.{or_else};
ghost use Rattle.rules.specs.PartRule.{stores};
ghost use Rattle.rules.specs.Merge.{merged_fingerprint};
ghost use Rattle.rules.specs.Refusals.{answer_in};
ghost use Rattle.tables.specs.Tables.{lsns_in, frames_in, parts_in};
ghost use Rattle.tables.specs.Loans.{tables_in};
ghost use Rattle.merge.specs.Steps.{Joins};
ghost use Rattle.parts.specs.Parts.{part_tables, stored_in};
ghost use Rattle.parts.specs.Steps.{CountsReady, Lent, held_piece};
ghost use Rattle.adds.specs.Adds.{same_list, same_known, same_fingerprint, adds_in};
ghost use Rattle.adds.specs.Steps.{some_stored, PartsRead, parts_change, brings_in};

use crate::compare::{changes_confirmed, changes_hints};
use field::same;
use index::{is_checked, is_complete, is_stated};
use merge::goes_further::further;
use merge::questions::check_merge;
use parts::{Counts, Piece, Source, source_at, stores, used_bytes};
use rules::{AreaIndex, Brings, Fingerprint, Held, Refusal};
use tables::lent::Tables;
use tables::{read_header, read_held};

// ---- fingerprint and image id
// Would b fill in a fingerprint?
#[tactic(auto, using(crate::proofs::Fields::fingerprint_change))]
fn fills_fingerprint(a: Fingerprint, b: Fingerprint) -> bool
    ensures { result ≡ not (same_fingerprint a (merged_fingerprint a b)) }
{
    !is_stated(a) && is_stated(b)
}

// Would b fill in an image id?
#[tactic(auto, using(crate::proofs::Fields::image_change))]
fn fills_image(a: Option<u64>, b: Option<u64>) -> bool
    ensures { result ≡ not (same_known eqb a (or_else a b)) }
{
    a.is_none() && b.is_some()
}

// ---- malformed LSNs
fn same_lsns(a: &[u8], n: u32, b: &[u8], m: u32) -> bool
    requires { (n * 4 ≤ length a.now) × (m * 4 ≤ length b.now) }
    ensures { result ≡ same_list eqb (lsns_in n a.now) (lsns_in m b.now) }
{
    same(&a[..n as usize * 4], &b[..m as usize * 4])
}

// ---- held parts
// Would part p of another list, whose frame starts at start and has its bytes in other from from on, be stored?
fn stores_one(
    budget: u64,
    n: u32,
    c: Counts,
    p: Held,
    start: u32,
    from: usize,
    other: &[u8],
    frames: &[u8],
    store: &[u8],
    parts: &[u8],
) -> bool
    requires { CountsReady budget c (part_tables frames.now store.now parts.now)
        × (from + p.len ≤ length other.now) }
    ensures { result
        ≡ (not (ltb p.at n) && stores budget
        (stored_in c.frames c.parts
        (part_tables frames.now store.now parts.now))
        (held_piece p p.at start (take p.len (drop from other.now)))) }
{
    if p.at < n {
        return false;
    }
    let piece = Piece {
        at: p.at,
        start,
        number: p.number,
        kind: p.kind,
        remaining: p.remaining,
    };
    let e = from + p.len as usize;
    stores(budget, c, piece, &other[from..e], frames, store, parts)
}

// Would one of the h parts of another list for checkpoint number n or later be stored?
fn stores_some(
    budget: u64,
    n: u32,
    c: Counts,
    f: u32,
    h: u32,
    headers: &[u8],
    other: &[u8],
    theirs: &[u8],
    frames: &[u8],
    store: &[u8],
    parts: &[u8],
) -> bool
    requires { Lent f h (part_tables headers.now other.now theirs.now)
        × CountsReady budget c (part_tables frames.now store.now parts.now) }
    ensures { result ≡ some_stored budget (frames_in f headers.now other.now) n
        (parts_in h theirs.now)
        (stored_in c.frames c.parts
        (part_tables frames.now store.now parts.now)) }
{
    let mut at = Source {
        frame: 0,
        offset: 0,
    };
    for j in 0..h {
        let p = read_held(theirs, j as usize);
        at = source_at(headers, f as usize, at, p.frame);
        let header = read_header(headers, p.frame as usize);
        if stores_one(
            budget,
            n,
            c,
            p,
            header.start,
            at.offset as usize,
            other,
            frames,
            store,
            parts,
        ) {
            return true;
        }
    }
    false
}

// Would the other's parts for checkpoints that are appended, where go holds, change the held ones?
fn changes_parts(
    go: bool,
    x: AreaIndex,
    y: AreaIndex,
    headers: &[u8],
    other: &[u8],
    theirs: &[u8],
    frames: &[u8],
    store: &[u8],
    parts: &[u8],
) -> bool
    requires { PartsRead go x y (part_tables frames.now store.now parts.now)
        (part_tables headers.now other.now theirs.now) }
    ensures { result ≡ parts_change go x y
        (part_tables frames.now store.now parts.now)
        (part_tables headers.now other.now theirs.now) }
{
    let c = Counts {
        frames: x.frames,
        parts: x.parts,
        used: used_bytes(frames, x.frames),
    };
    let h = if go { y.parts } else { 0 };
    stores_some(
        x.budget,
        x.checkpoints,
        c,
        y.frames,
        h,
        headers,
        other,
        theirs,
        frames,
        store,
        parts,
    )
}

// ---- the call
// What a merge of y into x, which nothing refuses, would bring.
fn brought(x: AreaIndex, y: AreaIndex, t: &Tables, other: &Tables) -> Brings
    requires { Joins x (tables_in t.now) y (tables_in other.now) }
    ensures { result ≡ brings_in x (tables_in t.now) y (tables_in other.now) }
{
    let go = further(x, y);
    let lsns = same_lsns(t.malformed, x.malformed, other.malformed, y.malformed);
    Brings {
        checkpoints: go && x.checkpoints < y.checkpoints,
        ending: go && is_complete(y),
        parts: changes_parts(
            go,
            x,
            y,
            other.frames,
            other.store,
            other.parts,
            t.frames,
            t.store,
            t.parts,
        ),
        malformed: go && !lsns,
        hints: changes_hints(x.most, t.hints, x.hints, other.hints, y.hints),
        confirmed: changes_confirmed(
            is_checked(x.fingerprint),
            x.most,
            t.confirmed,
            x.confirmed,
            other.confirmed,
            y.confirmed,
        ),
        fingerprint: fills_fingerprint(x.fingerprint, y.fingerprint),
        image: fills_image(x.image, y.image),
    }
}

// What merging the other list y into the own one x would bring.
pub fn adds(x: AreaIndex, y: AreaIndex, t: &Tables, other: &Tables) -> Result<Brings, Refusal>
    ensures { answer_in result ≡ adds_in x (tables_in t.now) y (tables_in other.now) }
{
    check_merge(x, y, t, other)?;
    Ok(brought(x, y, t, other))
}
