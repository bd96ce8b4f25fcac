// What another list holds and the own one does not, decided over lent tables that are only read.
#![tactic(auto)]

ghost use Rattle.std.specs.Prelude.{◌≡◌, cond, ◌+◌, ◌-◌, ◌*◌, ◌<◌, ◌≤◌, length, take, drop};
ghost use Rattle.tables.specs.Tables.{parts_in};
ghost use Rattle.tables.specs.Loans.{tables_in};
ghost use Rattle.parts.specs.Steps.{offset_to};
ghost use Rattle.merge.specs.Steps.{Joins};
ghost use Rattle.rules_lacks.specs.Lacks.{same_hint, confirms_also, same_signed};
ghost use Rattle.rules.specs.Refusals.{answer_in};
ghost use Rattle.lacks.specs.Steps.{lacks_by, counts_in};
ghost use Rattle.lacks.specs.Lacks.{lacks_in};
ghost use Rattle.lacks.specs.Pass.{first_stands, missed, common};
ghost use Rattle.lacks.specs.Sections.{width_of, item_key, stands_for, items_in, item_at};
ghost use Rattle.lacks.specs.Parts.{nearest_to, FramesLent, PairIs, PairAt, same_part_by, part_key, PartWithin};
ghost use Rattle.lacks.specs.Parts.{PartsWithin, stands_in, StepIs, unpaired_yet, PartsLent};

use field::read_u32;
use index::{is_complete, is_stated};
use merge::keys::skip;
use merge::questions::check_merge;
use parts::Source;
use parts::admits::alike;
use rules::{AreaIndex, Confirmation, Held, Hint, Refusal};
use rules_lacks::Lacks;
use tables::lent::Tables;
use tables::{get_header, read_confirmation, read_held, read_hint, read_lsn};

// How many of what lies in tables.
#[derive(Clone, Copy)]
pub struct Missing {
    pub checkpoints: u32,
    pub parts: u32,
    pub malformed: u32,
    pub hints: u32,
    pub confirmed: u32,
}

// The sections whose records begin with an LSN, in their order.
#[derive(Clone, Copy)]
pub enum Section {
    Malformed,
    Hints,
    Confirmed,
}

// Where a frame of each of two lists lies and, if known, how many bytes they begin with alike.
#[derive(Clone, Copy)]
pub struct Paired {
    pub known: bool,
    pub own: Source,
    pub other: Source,
    pub common: usize,
}

// Has a part of the other list one that stands for it? And the pair of frames that was looked at last.
#[derive(Clone, Copy)]
pub struct PartStep {
    pub stands: bool,
    pub pair: Paired,
}

// ---- malformed LSNs, hints, confirmations
// The bytes of a record of the section.
fn width(s: Section) -> usize
    ensures { result ≡ width_of s }
{
    match s {
        Section::Malformed => 4,
        Section::Hints => 8,
        Section::Confirmed => 16,
    }
}

#[tactic(auto, unfolding(rules_lacks::specs::Lacks::same_hint, rules::specs::Tests::all))]
fn same_hint(h: Hint, k: Hint) -> bool
    ensures { result ≡ same_hint h k }
{
    h.lsn == k.lsn && h.number == k.number
}

#[tactic(auto, unfolding(rules_lacks::specs::Lacks::confirms_also, rules::specs::Tests::all))]
fn confirms_also(c: Confirmation, d: Confirmation) -> bool
    ensures { result ≡ confirms_also c d }
{
    c.lsn == d.lsn && c.digest == d.digest && c.threshold <= d.threshold
}

// Does the own record number i stand for the other's number j?
fn stands_for(s: Section, own: &[u8], i: usize, other: &[u8], j: usize) -> bool
    requires { (i * width_of s + width_of s ≤ length own.now) × (j * width_of s + width_of s ≤ length other.now) }
    ensures { result ≡ stands_for s (item_at s own.now i) (item_at s other.now j) }
{
    match s {
        Section::Malformed => read_lsn(own, i) == read_lsn(other, j),
        Section::Hints => same_hint(read_hint(own, i), read_hint(other, j)),
        Section::Confirmed => confirms_also(read_confirmation(own, i), read_confirmation(other, j)),
    }
}

// Is there an own record number i, of n, and does it stand for the other's number j?
fn stands_at(s: Section, own: &[u8], n: usize, i: usize, other: &[u8], j: usize) -> bool
    requires { (n * width_of s ≤ length own.now) × (j * width_of s + width_of s ≤ length other.now) }
    ensures { result ≡ first_stands (stands_for s) (drop i (items_in s n own.now)) (item_at s other.now j) }
{
    i < n && stands_for(s, own, i, other, j)
}

// How many of the other's m records the n own ones lack: one pass over both tables.
fn missing_records(s: Section, own: &[u8], n: u32, other: &[u8], m: u32) -> u32
    requires { (n * width_of s ≤ length own.now) × (m * width_of s ≤ length other.now) }
    ensures { result ≡ missed (item_key s) (stands_for s) (items_in s n own.now)
        (items_in s m other.now) }
{
    let w = width(s);
    let n = n as usize;
    let mut i = 0;
    let mut count = 0;
    for j in 0..m as usize {
        let low = read_u32(other, j * w);
        i = skip(own, w, n, i, low);
        if !stands_at(s, own, n, i, other, j) {
            count += 1;
        }
    }
    count
}

// ---- held parts
// How many bytes a and b begin with alike.
fn common_of(a: &[u8], b: &[u8]) -> usize
    ensures { result ≡ common a.now b.now }
{
    let n = a.len().min(b.len());
    for i in 0..n {
        if a[i] != b[i] {
            return i;
        }
    }
    n
}

// Of a stretch of each of two stores.
fn stretch_common(store: &[u8], from: usize, len: usize, other: &[u8], at: usize, n: usize) -> usize
    requires { (from + len ≤ length store.now) × (at + n ≤ length other.now) }
    ensures { result ≡ common (take len (drop from store.now)) (take n (drop at other.now)) }
{
    common_of(&store[from..from + len], &other[at..at + n])
}

// s where it does not lie behind frame number g, else the start.
fn nearest(s: Source, g: u32) -> Source
    ensures { result ≡ nearest_to s g }
{
    if g < s.frame {
        Source {
            frame: 0,
            offset: 0,
        }
    } else {
        s
    }
}

// From s to frame number g.
fn source_to(frames: &[u8], f: usize, s: Source, g: u32) -> Source
    requires { (s.offset ≡ offset_to f frames.now s.frame) × (s.offset ≤ s.frame * 4294967295)
        × (f * 8 ≤ length frames.now) }
    ensures { (result.frame ≡ g) × (result.offset ≡ offset_to f frames.now g)
        × (result.offset ≤ g * 4294967295) }
{
    let from = nearest(s, g);
    let mut offset = from.offset;
    for k in from.frame..g {
        offset += get_header(frames, f, k as usize).len as u64;
    }
    Source { frame: g, offset }
}

// The pair of frame number g of f and frame number k of m others: s where it is that.
fn pair_at(
    s: Paired,
    f: usize,
    frames: &[u8],
    store: &[u8],
    g: u32,
    m: usize,
    other_frames: &[u8],
    other_store: &[u8],
    k: u32,
) -> Paired
    requires { PairIs f frames.now store.now m other_frames.now other_store.now s
        × FramesLent f frames.now store.now × FramesLent m other_frames.now other_store.now
        × (g < f) × (k < m) }
    ensures { PairAt f frames.now store.now g m other_frames.now
        other_store.now k result }
{
    if s.known && s.own.frame == g && s.other.frame == k {
        return s;
    }
    let p = source_to(frames, f, s.own, g);
    let q = source_to(other_frames, m, s.other, k);
    let h = get_header(frames, f, g as usize);
    let i = get_header(other_frames, m, k as usize);
    let c = stretch_common(
        store,
        p.offset as usize,
        h.len as usize,
        other_store,
        q.offset as usize,
        i.len as usize,
    );
    Paired {
        known: true,
        own: p,
        other: q,
        common: c,
    }
}

fn same_remaining(a: i32, b: i32) -> bool
    ensures { result ≡ same_signed a b }
{
    a == b
}

fn same_part(p: Held, q: Held, n: usize) -> bool
    ensures { result ≡ same_part_by p q n }
{
    let same = same_remaining(p.remaining, q.remaining);
    let rest = alike(p, q.number, q.kind, n);
    p.at == q.at && p.len == q.len && same && rest
}

// Does part number i of n stand for q?
fn lacks_part(
    parts: &[u8],
    n: usize,
    i: usize,
    q: Held,
    s: Paired,
    f: usize,
    frames: &[u8],
    store: &[u8],
    m: usize,
    other_frames: &[u8],
    other_store: &[u8],
) -> PartStep
    requires { (n * 24 ≤ length parts.now)
        × PairIs f frames.now store.now m other_frames.now other_store.now s
        × FramesLent f frames.now store.now × FramesLent m other_frames.now other_store.now
        × PartsWithin f frames.now store.now (parts_in n parts.now)
        × PartWithin m other_frames.now other_store.now q }
    ensures { StepIs n parts.now i q f frames.now store.now m
        other_frames.now other_store.now result }
{
    if n <= i {
        return PartStep {
            stands: false,
            pair: s,
        };
    }
    let p = read_held(parts, i);
    let t = pair_at(
        s,
        f,
        frames,
        store,
        p.frame,
        m,
        other_frames,
        other_store,
        q.frame,
    );
    PartStep {
        stands: same_part(p, q, t.common),
        pair: t,
    }
}

fn unpaired() -> Paired
    ensures { result ≡ unpaired_yet }
{
    Paired {
        known: false,
        own: Source {
            frame: 0,
            offset: 0,
        },
        other: Source {
            frame: 0,
            offset: 0,
        },
        common: 0,
    }
}

// How many of the h parts of another list the n own ones lack: one pass over both tables.
fn missing_parts(
    n: u32,
    parts: &[u8],
    f: u32,
    frames: &[u8],
    store: &[u8],
    h: u32,
    theirs: &[u8],
    m: u32,
    other_frames: &[u8],
    other_store: &[u8],
) -> u32
    requires { PartsLent n parts.now f frames.now store.now
        × PartsLent h theirs.now m other_frames.now other_store.now }
    ensures { result ≡ missed part_key
        (stands_in f frames.now store.now m other_frames.now
        other_store.now) (parts_in n parts.now) (parts_in h theirs.now) }
{
    let mut i = 0;
    let mut count = 0;
    let mut s = unpaired();
    for j in 0..h as usize {
        let q = read_held(theirs, j);
        i = skip(parts, 24, n as usize, i, q.at);
        let t = lacks_part(
            parts,
            n as usize,
            i,
            q,
            s,
            f as usize,
            frames,
            store,
            m as usize,
            other_frames,
            other_store,
        );
        if !t.stands {
            count += 1;
        }
        s = t.pair;
    }
    count
}

// ---- the call
// What is lacking, by the counts and the numbers.
#[tactic(auto, unfolding(crate::specs::Steps::lacks_by, rules::specs::Tests::is_some))]
fn lacks_by(x: AreaIndex, y: AreaIndex, c: Missing) -> Lacks
    ensures { result ≡ lacks_by x y c }
{
    Lacks {
        checkpoints: c.checkpoints,
        ending: is_complete(y) && !is_complete(x),
        parts: c.parts,
        malformed: c.malformed,
        hints: c.hints,
        confirmed: c.confirmed,
        fingerprint: is_stated(y.fingerprint) && !is_stated(x.fingerprint),
        image: y.image.is_some() && x.image.is_none(),
        budget: x.budget < y.budget,
        most: x.most < y.most,
    }
}

// How many of each thing the list x lacks of y, where nothing refuses a merge.
fn counts(x: AreaIndex, y: AreaIndex, t: &Tables, other: &Tables) -> Missing
    requires { Joins x (tables_in t.now) y (tables_in other.now) }
    ensures { result ≡ counts_in x (tables_in t.now) y (tables_in other.now) }
{
    Missing {
        checkpoints: y.checkpoints.saturating_sub(x.checkpoints),
        parts: missing_parts(
            x.parts,
            t.parts,
            x.frames,
            t.frames,
            t.store,
            y.parts,
            other.parts,
            y.frames,
            other.frames,
            other.store,
        ),
        malformed: missing_records(
            Section::Malformed,
            t.malformed,
            x.malformed,
            other.malformed,
            y.malformed,
        ),
        hints: missing_records(Section::Hints, t.hints, x.hints, other.hints, y.hints),
        confirmed: missing_records(
            Section::Confirmed,
            t.confirmed,
            x.confirmed,
            other.confirmed,
            y.confirmed,
        ),
    }
}

// What the own list x lacks of the other list y.
pub fn lacks(x: AreaIndex, y: AreaIndex, t: &Tables, other: &Tables) -> Result<Lacks, Refusal>
    ensures { answer_in result ≡ lacks_in x (tables_in t.now) y (tables_in other.now) }
{
    check_merge(x, y, t, other)?;
    Ok(lacks_by(x, y, counts(x, y, t, other)))
}
