// The numbers of a hint recorder: whether a record is listed, and the recorder without its tail or its list.
ghost use Rattle.std.specs.Prelude.{◌≡◌, ltb};
ghost use Rattle.rules.specs.Values.{max_list};
ghost use Rattle.rules.specs.Hints.{spaced};
ghost use Rattle.hint_recorder.specs.Steps.{tailless, emptied};

use rules::{HintRecorder, MAX_LIST};

// None was ever listed, or it is at least last + spacing, or below last.
#[tactic(auto, unfolding(rules::specs::Hints::spaced))]
pub fn is_spaced(last: Option<u32>, spacing: u32, t: u32) -> bool
    ensures { result ≡ spaced last spacing t }
{
    match last {
        None => true,
        Some(l) => l.saturating_add(spacing) <= t || t < l,
    }
}

// Has the list under 65,536?
pub fn has_room(count: u32) -> bool
    ensures { result ≡ ltb count max_list }
{
    count < MAX_LIST
}

// A recorder without a tail.
pub fn cleared(spacing: u32, last: Option<u32>, count: u32) -> HintRecorder
    ensures { result ≡ tailless spacing last count }
{
    HintRecorder {
        spacing,
        last,
        tail: None,
        count,
    }
}

// A recorder without its list; last and tail stay.
pub fn emptied(r: HintRecorder) -> HintRecorder
    ensures { result ≡ emptied r }
{
    HintRecorder { count: 0, ..r }
}
