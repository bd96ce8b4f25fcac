// Does the other list of a merge go further than the own one?
ghost use Rattle.std.specs.Prelude.{◌≡◌};
ghost use Rattle.merge.specs.Merge.{further_in};

use index::is_complete;
use rules::AreaIndex;

// Is the own list not complete and the other is, or has more checkpoints?
#[tactic(auto, unfolding(crate::specs::Merge::further_in))]
pub fn further(x: AreaIndex, y: AreaIndex) -> bool
    ensures { result ≡ further_in x y }
{
    !is_complete(x) && (is_complete(y) || x.checkpoints < y.checkpoints)
}
