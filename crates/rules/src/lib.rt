// Document 01 as definitions on values (specs), the types they speak of, and evaluated examples.
#![tactic(auto)]

ghost use Rattle.std.specs.Prelude.{◌≡◌};

// LIM: one more than the largest frame number of a first record.
pub const MAX_NEXT_ACCEPTABLE: u32 = 1166881;
// The most bytes of a held part.
pub const MAX_FRAME_BYTES: u32 = 65536;
// The most malformed LSNs of a list.
pub const MAX_MALFORMED_WARNINGS: u32 = 4096;
// The most that M may be, and the most in versions 1 to 3 of the file.
pub const MAX_HINTS: u32 = 262144;

pub const MAX_SHORT_HINTS: u32 = 65536;
// The most hints of one delivered list, and of a hint recorder.
pub const MAX_LIST: u32 = 65536;
// The room that a hint table has above M.
pub const MERGE_ROOM: u64 = 262144;

pub const MAX_INTERVAL: u32 = 65536;
// The most that an area's end, or a budget, may be.
pub const MAX_U32: u64 = 4294967295;
// A part is stored only where back exceeds this.
pub const REPLAY_SECTORS: u64 = 32;
// How far below a frame a hint may lie.
pub const HINT_REACH: u32 = 64;
// Spacing and M of a version 1 file.
pub const DEFAULT_HINT_SPACING: u32 = 8;

pub const DEFAULT_MAX_HINTS: u32 = 2048;
// The bytes of a sector.
pub const SECTOR_BYTES: usize = 2048;
// SBSEEKIX, as a number of eight bytes.
pub const MAGIC: u64 = 6361698709525447251;

// The first version of a file.
pub const VERSION: u32 = 1;
// With hints.
pub const VERSION_HINTS: u32 = 2;
// With confirmations.
pub const VERSION_CONFIRMED: u32 = 3;
// With a hint limit above MAX_SHORT_HINTS.
pub const VERSION_MORE_HINTS: u32 = 4;

// The bytes of a file's header and of a record of each section, by the source's names.
pub const HEADER: usize = 80;

pub const CHECKPOINT: usize = 24;

pub const FRAME_HEADER: usize = 8;

pub const HELD: usize = 24;

pub const HINTS_HEADER: usize = 24;

pub const HINT: usize = 8;

pub const CONFIRMED_HEADER: usize = 8;

pub const CONFIRMED: usize = 16;

// Why a call is refused: the question answered no, by its number.
#[derive(Clone, Copy, Debug, PartialEq, Eq)]
pub enum Refusal {
    // the area's slot or range
    Area = 1,
    // interval or budget
    Numbers = 2,
    // a table or block is too short, or a block is none that a call wrote
    Room = 3,
    // the tables do not hold a list
    Content = 4,
    // not the due sector, or nothing to finish
    RecordDue = 5,
    // the threshold or the malformed count falls or is too large
    RecordFalls = 6,
    // the frame under assembly: its start, number or kind
    RecordFrame = 7,
    // another image: the recorder is stopped
    AbsorbImage = 8,
    // another area or interval
    AbsorbArea = 9,
    // the recorder began past the list's end
    AbsorbJoins = 10,
    // two readings differ
    AbsorbAgrees = 11,
    // the joined list would break a rule
    AbsorbResult = 12,
    // too many hints in one delivery, or a frame number too large
    Hints = 13,
    // outside the area, or its threshold too large
    Confirmation = 14,
    // another fingerprint is held
    Fingerprint = 15,
    // the range's end lies below its first frame
    HintRange = 16,
    // the file ends too early
    FileShort = 20,
    // no list file
    FileMagic = 21,
    // the sum does not match
    FileSum = 22,
    FileVersion = 23,
    FileSlot = 24,
    FileFlags = 25,
    // of another image or area
    FileArea = 26,
    FileInterval = 27,
    // a field that has to be 0 is not
    FileReserved = 28,
    FileBudget = 29,
    // more than the area or the file can hold
    FileCounts = 30,
    FileCheckpoints = 31,
    // a frame or a held part
    FileFrames = 32,
    // a held part's kind
    FileKind = 33,
    // the end state
    FileEnd = 34,
    FileMalformed = 35,
    FileHints = 36,
    FileConfirmations = 37,
    // bytes behind the list
    FileLeftOver = 38,
    // the output is too short
    Output = 40,
    // different areas or intervals
    MergeArea = 41,
    // different images or fingerprints
    MergeIds = 42,
    // a common checkpoint or the end states differ
    MergeCheckpoints = 43,
    // a set of no file or of more than 16
    Set = 44,
    // a file cannot be read
    SheetFile = 45,
    // no line of a coverage sheet
    SheetLine = 46,
    // the wider interval of a coarser list
    CoarseInterval = 47,
    // the coarser list would not be a list
    CoarseContent = 48,
    // the bits that a sum is folded to
    Fold = 49,
    // the new list alone exceeds the limit
    ShelfList = 50,
    // the count is at its largest
    ShelfCount = 51,
    // neither of the two, or a listener's at a workshop's call
    Role = 52,
    // no hint has this LSN, or a quarter of M is kept already
    Keep = 53,
    // the contents table of a disc file
    Disc = 54,
}

impl From<Refusal> for u32 {
    ghost use Rattle.rules.specs.Refusals.{refusal_number};

    ghost from_gives = { λ e n. n ≡ refusal_number e };

    #[tactic(auto, unfolding(crate::specs::Refusals::refusal_number))]
    fn from(e: Refusal) -> u32 {
        e as u32
    }
}

impl From<Refusal> for u64 {
    ghost use Rattle.rules.specs.Refusals.{refusal_number};

    ghost from_gives = { λ e n. n ≡ refusal_number e };

    fn from(e: Refusal) -> u64 {
        u32::from(e) as u64
    }
}

// A frame number, and how far behind the sector's first byte its three bytes begin.
#[derive(Clone, Copy)]
pub struct TimeBytes {
    pub number: u32,
    pub offset: u32,
}

// Why a sector has no first record: no frame starts in it, or bytes are missing.
#[derive(Clone, Copy)]
pub enum Absence {
    NoFrame,
    Missing,
}

// The first record of a sector: its time bytes, or why there is none.
#[derive(Clone, Copy)]
pub enum First {
    Number(TimeBytes),
    Nothing(Absence),
}

// What tells areas apart in a file (source: AreaKey): the five numbers that question 26 compares.
#[derive(Clone, Copy, PartialEq, Eq)]
pub struct AreaKey {
    pub slot: u8,
    pub start: u32,
    pub end: u32,
    pub channels: u8,
    pub sectors: u64,
}

// Area: its key, and its range of sectors, the end excluded.
#[derive(Clone, Copy, PartialEq, Eq)]
pub struct Area {
    pub key: AreaKey,
    pub start: u64,
    pub end: u64,
}

// Checkpoint (source: next_acceptable and malformed_before for threshold and malformed).
#[derive(Clone, Copy, PartialEq, Eq)]
pub struct Checkpoint {
    pub threshold: u32,
    pub back: u32,
    pub malformed: u64,
    pub digest: u64,
}

// The end state of a complete list.
#[derive(Clone, Copy, PartialEq, Eq)]
pub struct EndState {
    pub threshold: u32,
    pub malformed: u64,
}

#[derive(Clone, Copy, PartialEq, Eq)]
pub enum FrameKind {
    Dst,
    Dsd,
}

// Held part: the first len bytes of frame number frame, for checkpoint number at.
#[derive(Clone, Copy, PartialEq, Eq)]
pub struct Held {
    pub at: u32,
    pub frame: u32,
    pub len: u32,
    pub number: u32,
    pub kind: FrameKind,
    pub remaining: i32,
}

// A hint; its mark is 1 where it is kept, so that thinning passes over it, and else 0.
#[derive(Clone, Copy, PartialEq, Eq)]
pub struct Hint {
    pub lsn: u32,
    pub number: u32,
    pub mark: u8,
}

#[derive(Clone, Copy, PartialEq, Eq)]
pub struct Confirmation {
    pub lsn: u32,
    pub threshold: u32,
    pub digest: u64,
}

// A fingerprint is unknown, held, or held with the checked mark.
#[derive(Clone, Copy)]
pub enum Fingerprint {
    Unknown,
    Held(u64),
    Checked(u64),
}

// What a recorder is at: it records, it has the end state, or it is stopped.
#[derive(Clone, Copy)]
pub enum Mode {
    Running,
    Finished(EndState),
    Stopped,
}

// A held part as a plan names it: where its bytes lie in the lent store, and what it is of.
#[derive(Clone, Copy)]
pub struct HeldPart {
    pub kind: FrameKind,
    pub number: u32,
    pub remaining: i32,
    pub offset: u64,
    pub len: u32,
}

// A jump that starts at a checkpoint.
#[derive(Clone, Copy)]
pub struct Resume {
    pub number: u32,
    pub lsn: u64,
    pub checkpoint: Checkpoint,
    // Where no part is stored, the stretch before the checkpoint is read again.
    pub assembly: Option<HeldPart>,
}

// Where a jump starts.
#[derive(Clone, Copy)]
pub enum Plan {
    Start,
    At(Resume),
    End(EndState),
}

// The nineteen fields of a file's header, in the order of the file; counted is the end state's malformed count.
#[derive(Clone, Copy)]
pub struct Header {
    pub magic: u64,
    pub version: u32,
    pub slot: u8,
    pub channels: u8,
    pub flags: u8,
    pub zero15: u8,
    pub start: u32,
    pub end: u32,
    pub sectors: u64,
    pub interval: u32,
    pub checkpoints: u32,
    pub frames: u32,
    pub parts: u32,
    pub malformed: u32,
    pub zero52: u32,
    pub budget: u64,
    pub threshold: u32,
    pub zero68: u32,
    pub counted: u64,
}

// The header of a file's hint section.
#[derive(Clone, Copy)]
pub struct HintHeader {
    pub fingerprint: u64,
    pub spacing: u32,
    pub most: u32,
    pub count: u32,
    pub zero20: u32,
}

// The numbers of an index (source: AreaIndex); its lists lie in lent tables, with these counts.
#[derive(Clone, Copy)]
pub struct AreaIndex {
    pub area: Area,
    pub interval: u32,
    pub budget: u64,
    pub spacing: u32,
    pub most: u32,
    pub checkpoints: u32,
    pub frames: u32,
    pub parts: u32,
    pub malformed: u32,
    pub hints: u32,
    pub confirmed: u32,
    // A list is complete where it has one.
    pub ending: Option<EndState>,
    pub fingerprint: Fingerprint,
    pub image: Option<u64>,
}

// The numbers of a recorder (source: Recorder): its own stretch begins with checkpoint number first. Its lists lie in four lent tables, with these
// counts.
#[derive(Clone, Copy)]
pub struct Recorder {
    pub area: Area,
    pub interval: u32,
    pub budget: u64,
    pub first: u32,
    pub from: u64,
    pub checkpoints: u32,
    pub frames: u32,
    pub parts: u32,
    pub mode: Mode,
}

// A frame under assembly where a checkpoint is recorded; its bytes are lent beside it.
#[derive(Clone, Copy)]
pub struct Assembling {
    pub start: u64,
    pub number: u32,
    pub kind: FrameKind,
    pub remaining: i32,
}

// The numbers of a hint recorder (source: HintRecorder); its list lies in a lent table, with this count.
#[derive(Clone, Copy)]
pub struct HintRecorder {
    pub spacing: u32,
    // The number of the hint listed last; none where none was ever listed.
    pub last: Option<u32>,
    pub tail: Option<Hint>,
    pub count: u32,
}

// The answer of hint: LSN, frame number, upper end of the read, and whether a later hint gave it.
#[derive(Clone, Copy)]
pub struct Hinted {
    pub lsn: u32,
    pub number: u32,
    pub upper: u64,
    pub later: bool,
}

// What a call answers that gives an index: a refusal number, or the numbers of the list that the tables then hold.
#[derive(Clone, Copy)]
pub enum Made {
    Refused(u32),
    Index(AreaIndex),
}

// The bytes of each table.
#[derive(Clone, Copy)]
pub struct TableSizes {
    pub checkpoints: u64,
    pub frames: u64,
    pub store: u64,
    pub parts: u64,
    pub malformed: u64,
    pub hints: u64,
    pub confirmed: u64,
}

// What the sizes of tables are told by: a refusal number, or the sizes.
#[derive(Clone, Copy)]
pub enum Sized {
    Refused(u32),
    Sizes(TableSizes),
}

// The refusal number, 0 where it is accepted, and the numbers of both afterwards.
#[derive(Clone, Copy)]
pub struct Absorbed {
    pub number: u32,
    pub index: AreaIndex,
    pub recorder: Recorder,
}

// What a sector says, and the recorder afterwards.
#[derive(Clone, Copy)]
pub struct SeenSector {
    pub first: First,
    pub recorder: HintRecorder,
}

// How many hints are taken, and the recorder afterwards.
#[derive(Clone, Copy)]
pub struct TakenList {
    pub count: u32,
    pub recorder: HintRecorder,
}

// In what the own list would change.
#[derive(Clone, Copy)]
pub struct Brings {
    pub checkpoints: bool,
    pub ending: bool,
    pub parts: bool,
    pub malformed: bool,
    pub hints: bool,
    pub confirmed: bool,
    pub fingerprint: bool,
    pub image: bool,
}
