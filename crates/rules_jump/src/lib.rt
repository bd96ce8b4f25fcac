// Change request 7: the rule by which a plan or a hint gets its answer.
#![tactic(auto)]

ghost use Rattle.std.specs.Prelude.{◌≡◌};
ghost use Rattle.rules_jump.specs.Names.{held_rule, plan_rule, plan_rule_number, start_rule_number, end_rule_number};

use rules::{HeldPart, Hinted, Plan};

// Where a plan starts: the area's start, a checkpoint, a checkpoint with its held part, the end state.
#[derive(Clone, Copy)]
pub enum PlanRule {
    AreaStart,
    Checkpoint,
    HeldPart,
    Ending,
}

// How a hint was chosen.
#[derive(Clone, Copy)]
pub enum HintStart {
    Confirmed,
    Nearest,
}

// Where a hint's upper end came from: a later hint, local spacing, the area's average; at the area's end that.
#[derive(Clone, Copy)]
pub enum HintEnd {
    Later,
    Local,
    Average,
    AreaEnd,
}

// The rule of a plan that starts at a checkpoint.
fn held_rule(a: Option<HeldPart>) -> PlanRule
    ensures { result ≡ held_rule a }
{
    match a {
        None => PlanRule::Checkpoint,
        Some(_) => PlanRule::HeldPart,
    }
}

// The rule of a plan.
pub fn plan_rule(p: Plan) -> PlanRule
    ensures { result ≡ plan_rule p }
{
    match p {
        Plan::Start => PlanRule::AreaStart,
        Plan::At(r) => {
            let a = r.assembly;
            held_rule(a)
        }
        Plan::End(_) => PlanRule::Ending,
    }
}

// 1 to 4, in the order above.
pub fn plan_rule_number(rule: PlanRule) -> u64
    ensures { result ≡ plan_rule_number rule }
{
    match rule {
        PlanRule::AreaStart => 1,
        PlanRule::Checkpoint => 2,
        PlanRule::HeldPart => 3,
        PlanRule::Ending => 4,
    }
}

pub fn start_rule_number(rule: HintStart) -> u64
    ensures { result ≡ start_rule_number rule }
{
    match rule {
        HintStart::Confirmed => 1,
        HintStart::Nearest => 2,
    }
}

pub fn end_rule_number(rule: HintEnd) -> u64
    ensures { result ≡ end_rule_number rule }
{
    match rule {
        HintEnd::Later => 1,
        HintEnd::Local => 2,
        HintEnd::Average => 3,
        HintEnd::AreaEnd => 4,
    }
}

// The read, how its hint was chosen, and where its upper end came from.
#[derive(Clone, Copy)]
pub struct NamedHint {
    pub hint: Hinted,
    pub start: HintStart,
    pub end: HintEnd,
}
