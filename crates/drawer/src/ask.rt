// What is asked before any list is merged: 1 to 4 of the own list, 44, each file, each pair.
ghost use Rattle.std.specs.Prelude.{◌≡◌, ◌+◌, ◌*◌, ◌≤◌, length};
ghost use Rattle.rules.specs.Refusals.{number_in};
ghost use Rattle.tables.specs.Index.{tables};
ghost use Rattle.rules_drawer.specs.Drawer.{lengths_in};
ghost use Rattle.drawer.specs.Ask.{blank, unasked, refused_by, size_ok, FileAsked, Few, FilesAsked, checkpoints_at, Joinable, join_each, join_pairs, numbered, SetAsked};

use field::read_u64;
use index::refuses;
use inspect::Found;
use load::{Decided, decide};
use merge::questions::check_join;
use rules::{Area, AreaIndex, AreaKey, Fingerprint, HEADER, Refusal};
use tables::behind;

// The most files of one set.
pub const MAX_FILES: usize = 16;

// A file that loads: where it begins, its length, what it says, and the numbers of its limited list.
#[derive(Clone, Copy)]
pub struct Entry {
    pub from: usize,
    pub len: usize,
    pub found: Found,
    pub index: AreaIndex,
}

// What the questions of one file answer: its entry, or a refusal number.
#[derive(Clone, Copy)]
pub enum File {
    Refused(u32),
    Loads(Entry),
}

// What the questions answer: where ok holds, the entries of the first count files, all that there are; else a refusal number.
#[derive(Clone, Copy)]
pub struct Asked {
    pub ok: bool,
    pub number: u32,
    pub count: usize,
    pub entries: [Entry; 16],
}

// ---- answers
fn blank_index() -> AreaIndex
    ensures { result ≡ blank }
{
    AreaIndex {
        area: Area {
            key: AreaKey {
                slot: 0,
                start: 0,
                end: 0,
                channels: 0,
                sectors: 0,
            },
            start: 0,
            end: 0,
        },
        interval: 0,
        budget: 0,
        spacing: 0,
        most: 0,
        checkpoints: 0,
        frames: 0,
        parts: 0,
        malformed: 0,
        hints: 0,
        confirmed: 0,
        ending: None,
        fingerprint: Fingerprint::Unknown,
        image: None,
    }
}

// No file is asked yet.
fn unasked_files() -> Asked
    ensures { result ≡ unasked }
{
    let index = blank_index();
    let found = Found {
        index,
        used: 0,
        version: 0,
    };
    let e = Entry {
        from: 0,
        len: 0,
        found,
        index,
    };
    Asked {
        ok: true,
        number: 0,
        count: 0,
        entries: [e; 16],
    }
}

// The answer with a refusal number.
fn refused(asked: Asked, number: u32) -> Asked
    ensures { result ≡ refused_by asked number }
{
    Asked {
        ok: false,
        number,
        ..asked
    }
}

// The answer with the refusal of the first failing pair.
fn with_pairs(asked: Asked, pairs: Result<(), Refusal>) -> Asked
    ensures { result ≡ numbered asked (number_in pairs) }
{
    match pairs {
        Ok(()) => asked,
        Err(e) => refused(asked, u32::from(e)),
    }
}

// ---- 44
#[tactic(auto, unfolding(crate::specs::Ask::size_ok))]
fn question44(count: usize) -> bool
    ensures { result ≡ size_ok count }
{
    1 <= count && count <= MAX_FILES
}

// ---- the files
// The file of len bytes at from: 20 where it goes past what is left, else what load answers in the working tables.
fn ask_file(
    area: Area,
    files: &[u8],
    from: usize,
    len: u64,
    limit: u64,
    checkpoints: &[u8],
    frames: &[u8],
    store: &[u8],
    parts: &[u8],
    malformed: &[u8],
    hints: &[u8],
    confirmed: &[u8],
) -> File
    requires { from ≤ length files.now }
    ensures { FileAsked area files.now from len limit
        (tables checkpoints.now frames.now store.now parts.now
        malformed.now hints.now confirmed.now)
        result }
{
    let left = files.len() - from;
    if (left as u64) < len {
        return File::Refused(20);
    }
    let n = len as usize;
    match decide(
        area,
        &files[from..from + n],
        limit,
        checkpoints,
        frames,
        store,
        parts,
        malformed,
        hints,
        confirmed,
    ) {
        Decided::Refused(n) => File::Refused(n),
        Decided::Ready(found, index) => File::Loads(Entry {
            from,
            len: n,
            found,
            index,
        }),
    }
}

// The files in their order; the first failing one gives the number.
fn ask_files(
    area: Area,
    lengths: &[u8],
    files: &[u8],
    limit: u64,
    checkpoints: &[u8],
    frames: &[u8],
    store: &[u8],
    parts: &[u8],
    malformed: &[u8],
    hints: &[u8],
    confirmed: &[u8],
) -> Asked
    requires { Few lengths.now }
    ensures { FilesAsked area (lengths_in lengths.now) files.now limit
        (tables checkpoints.now frames.now store.now parts.now
        malformed.now hints.now confirmed.now)
        result }
{
    let count = lengths.len() / 8;
    let mut asked = unasked_files();
    let mut from = 0;
    for i in 0..count {
        let len = read_u64(lengths, i * 8);
        let said = ask_file(
            area,
            files,
            from,
            len,
            limit,
            checkpoints,
            frames,
            store,
            parts,
            malformed,
            hints,
            confirmed,
        );
        match said {
            File::Refused(n) => return refused(asked, n),
            File::Loads(e) => {
                asked.entries[i] = e;
                from += e.len;
            }
        }
    }
    asked.count = count;
    asked
}

// ---- the pairs
// The checkpoints of a list, which stand behind the header of its file.
fn checkpoints_of(files: &[u8], e: Entry) -> &[u8]
    requires { e.from + 80 ≤ length files.now }
    ensures { result.now ≡ checkpoints_at files.now e }
{
    behind(files, e.from + HEADER)
}

// Can x be merged with each of the lists from number first on? The refusal of the first where it cannot.
fn join_each(
    x: AreaIndex,
    checkpoints: &[u8],
    asked: Asked,
    files: &[u8],
    first: usize,
) -> Result<(), Refusal>
    requires { (x.checkpoints * 24 ≤ length checkpoints.now) × Joinable files.now asked }
    ensures { number_in result ≡ join_each x checkpoints.now asked files.now first }
{
    for k in first..asked.count {
        let e = asked.entries[k];
        check_join(x, e.index, checkpoints, checkpoints_of(files, e))?;
    }
    Ok(())
}

// The refusal of the first failing pair, by the earlier list, then by the later; the own list x stands first.
fn join_pairs(x: AreaIndex, checkpoints: &[u8], asked: Asked, files: &[u8]) -> Result<(), Refusal>
    requires { (x.checkpoints * 24 ≤ length checkpoints.now) × Joinable files.now asked }
    ensures { number_in result ≡ join_pairs x checkpoints.now asked files.now }
{
    join_each(x, checkpoints, asked, files, 0)?;
    for i in 0..asked.count {
        let e = asked.entries[i];
        join_each(e.index, checkpoints_of(files, e), asked, files, i + 1)?;
    }
    Ok(())
}

// ---- all questions
// 1 to 4 of the own list x, 44, the files, the pairs.
pub fn ask(
    x: AreaIndex,
    lengths: &[u8],
    files: &[u8],
    limit: u64,
    checkpoints: &[u8],
    frames: &[u8],
    store: &[u8],
    parts: &[u8],
    malformed: &[u8],
    hints: &[u8],
    confirmed: &[u8],
    work_checkpoints: &[u8],
    work_frames: &[u8],
    work_store: &[u8],
    work_parts: &[u8],
    work_malformed: &[u8],
    work_hints: &[u8],
    work_confirmed: &[u8],
) -> Asked
    ensures { SetAsked x
        (tables checkpoints.now frames.now store.now parts.now
        malformed.now hints.now confirmed.now)
        lengths.now files.now limit
        (tables work_checkpoints.now work_frames.now work_store.now
        work_parts.now work_malformed.now work_hints.now
        work_confirmed.now)
        result }
{
    let number = refuses(
        x,
        checkpoints,
        frames,
        store,
        parts,
        malformed,
        hints,
        confirmed,
    );
    if number != 0 {
        return refused(unasked_files(), number);
    }
    if !question44(lengths.len() / 8) {
        return refused(unasked_files(), 44);
    }
    let asked = ask_files(
        x.area,
        lengths,
        files,
        limit,
        work_checkpoints,
        work_frames,
        work_store,
        work_parts,
        work_malformed,
        work_hints,
        work_confirmed,
    );
    if !asked.ok {
        return asked;
    }
    with_pairs(asked, join_pairs(x, checkpoints, asked, files))
}
