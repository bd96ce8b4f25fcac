// Answers of calls as a number and a block: 0 and words over the start of the block, or the refusal number and the block as it was.
ghost use Rattle.std.specs.Prelude.{◌≡◌, ◌≤◌, length};
ghost use Rattle.rules.specs.Tests.{Accepted};
ghost use Rattle.rules.specs.Refusals.{answer_in};
ghost use Rattle.blocks.specs.Blocks.{index_words};
ghost use Rattle.index.specs.Index.{made_of};
ghost use Rattle.sizes.specs.Sizes.{sized_of};
ghost use Rattle.blocks.specs.Calls.{called, into};
ghost use Rattle.player.specs.Block.{plan_array, rule_word, assembly_words, plan_words, first_words, size_words, area_words, brings_words};
ghost use Rattle.player.specs.Steps.{resume_words};

use blocks::calls::bit_word;
use blocks::{first_told, index_words, write_words};
use rules::{Area, Brings, First, HeldPart, Made, Plan, Refusal, Resume, Sized, TableSizes};
use rules_jump::{plan_rule, plan_rule_number};
use tables::part_records::{kind_number, unsigned};

// ---- words of answers
// A held part as words: whether there is one, its kind, frame number, remaining, offset and length.
#[derive(Clone, Copy)]
pub struct HeldWords {
    pub held: u64,
    pub kind: u64,
    pub number: u64,
    pub remaining: u64,
    pub offset: u64,
    pub len: u64,
}

fn assembly_words(a: Option<HeldPart>) -> HeldWords
    ensures { result ≡ assembly_words a }
{
    match a {
        None => HeldWords {
            held: 0,
            kind: 0,
            number: 0,
            remaining: 0,
            offset: 0,
            len: 0,
        },
        Some(p) => {
            let kind = p.kind;
            HeldWords {
                held: 1,
                kind: kind_number(kind) as u64,
                number: p.number as u64,
                remaining: unsigned(p.remaining) as u64,
                offset: p.offset,
                len: p.len as u64,
            }
        }
    }
}

fn plan_array(
    place: u64,
    number: u64,
    lsn: u64,
    threshold: u64,
    back: u64,
    malformed: u64,
    digest: u64,
    h: HeldWords,
    rule: u64,
) -> [u64; 24]
    ensures { result ≡ plan_array place number lsn threshold back malformed digest h rule }
{
    [
        place,
        number,
        lsn,
        threshold,
        back,
        malformed,
        digest,
        h.held,
        h.kind,
        h.number,
        h.remaining,
        h.offset,
        h.len,
        rule,
        0,
        0,
        0,
        0,
        0,
        0,
        0,
        0,
        0,
        0,
    ]
}

fn resume_words(r: Resume) -> [u64; 24]
    ensures { result ≡ resume_words r }
{
    let rule = rule_word(Plan::At(r));
    let c = r.checkpoint;
    let assembly = r.assembly;
    let h = assembly_words(assembly);
    plan_array(
        1,
        r.number as u64,
        r.lsn,
        c.threshold as u64,
        c.back as u64,
        c.malformed,
        c.digest,
        h,
        rule,
    )
}

// The number of a plan's rule.
fn rule_word(p: Plan) -> u64
    ensures { result ≡ rule_word p }
{
    plan_rule_number(plan_rule(p))
}

// 0 the area's start, 1 a checkpoint, 2 the area's end; word 13 is the rule.
pub fn plan_words(p: Plan) -> [u64; 24]
    ensures { result ≡ plan_words p }
{
    let rule = rule_word(p);
    match p {
        Plan::Start => plan_array(0, 0, 0, 0, 0, 0, 0, assembly_words(None), rule),
        Plan::At(r) => resume_words(r),
        Plan::End(e) => plan_array(
            2,
            0,
            0,
            e.threshold as u64,
            0,
            e.malformed,
            0,
            assembly_words(None),
            rule,
        ),
    }
}

fn first_words(f: First) -> [u64; 24]
    ensures { result ≡ first_words f }
{
    let t = first_told(f);
    [
        t.found, t.number, t.offset, t.why, 0, 0, 0, 0, 0, 0, 0, 0, 0, 0, 0, 0, 0, 0, 0, 0, 0, 0,
        0, 0,
    ]
}

fn size_words(s: TableSizes) -> [u64; 24]
    ensures { result ≡ size_words s }
{
    [
        s.checkpoints,
        s.frames,
        s.store,
        s.parts,
        s.malformed,
        s.hints,
        s.confirmed,
        0,
        0,
        0,
        0,
        0,
        0,
        0,
        0,
        0,
        0,
        0,
        0,
        0,
        0,
        0,
        0,
        0,
    ]
}

fn area_words(a: Area) -> [u64; 24]
    ensures { result ≡ area_words a }
{
    let key = a.key;
    [
        key.slot as u64,
        key.channels as u64,
        key.start as u64,
        key.end as u64,
        key.sectors,
        a.start,
        a.end,
        0,
        0,
        0,
        0,
        0,
        0,
        0,
        0,
        0,
        0,
        0,
        0,
        0,
        0,
        0,
        0,
        0,
    ]
}

fn brings_words(b: Brings) -> [u64; 24]
    ensures { result ≡ brings_words b }
{
    let checkpoints = bit_word(b.checkpoints);
    let ending = bit_word(b.ending);
    let parts = bit_word(b.parts);
    let malformed = bit_word(b.malformed);
    let hints = bit_word(b.hints);
    let confirmed = bit_word(b.confirmed);
    let fingerprint = bit_word(b.fingerprint);
    let image = bit_word(b.image);
    [
        checkpoints,
        ending,
        parts,
        malformed,
        hints,
        confirmed,
        fingerprint,
        image,
        0,
        0,
        0,
        0,
        0,
        0,
        0,
        0,
        0,
        0,
        0,
        0,
        0,
        0,
        0,
        0,
    ]
}

// ---- into blocks
pub fn put_made(head: &mut [u8], made: Made) -> u32
    requires { 192 ≤ length head.old }
    ensures { called result head.new ≡ into index_words head.old (made_of made) }
{
    match made {
        Made::Refused(n) => n,
        Made::Index(x) => {
            write_words(head, index_words(x));
            0
        }
    }
}

#[tactic(auto, unfolding(rules::specs::Refusals::answer_in, blocks::specs::Calls::into))]
pub fn put_plan(answer: &mut [u8], planned: Result<Plan, Refusal>) -> u32
    requires { 192 ≤ length answer.old }
    ensures { called result answer.new
        ≡ into plan_words answer.old (answer_in planned) }
{
    match planned {
        Err(e) => u32::from(e),
        Ok(p) => {
            write_words(answer, plan_words(p));
            0
        }
    }
}

pub fn put_sizes(answer: &mut [u8], sized: Sized) -> u32
    requires { 192 ≤ length answer.old }
    ensures { called result answer.new
        ≡ into size_words answer.old (sized_of sized) }
{
    match sized {
        Sized::Refused(n) => n,
        Sized::Sizes(s) => {
            write_words(answer, size_words(s));
            0
        }
    }
}

#[tactic(auto, unfolding(rules::specs::Refusals::answer_in, blocks::specs::Calls::into))]
pub fn put_area(answer: &mut [u8], area: Result<Area, Refusal>) -> u32
    requires { 192 ≤ length answer.old }
    ensures { called result answer.new
        ≡ into area_words answer.old (answer_in area) }
{
    match area {
        Err(e) => u32::from(e),
        Ok(a) => {
            write_words(answer, area_words(a));
            0
        }
    }
}

#[tactic(auto, unfolding(rules::specs::Refusals::answer_in, blocks::specs::Calls::into))]
pub fn put_brings(answer: &mut [u8], added: Result<Brings, Refusal>) -> u32
    requires { 192 ≤ length answer.old }
    ensures { called result answer.new
        ≡ into brings_words answer.old (answer_in added) }
{
    match added {
        Err(e) => u32::from(e),
        Ok(b) => {
            write_words(answer, brings_words(b));
            0
        }
    }
}

pub fn put_first(answer: &mut [u8], first: First) -> u32
    requires { 192 ≤ length answer.old }
    ensures { called result answer.new
        ≡ into first_words answer.old (Accepted first) }
{
    write_words(answer, first_words(first));
    0
}
