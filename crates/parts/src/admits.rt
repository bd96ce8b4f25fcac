// What a part is asked by its numbers: is it like the last one, and does the list already have its checkpoint?
ghost use Rattle.std.specs.Prelude.{◌≡◌, ◌&&◌, eqb, leb, ltb};
ghost use Rattle.rules.specs.Values.{same_kind};

use rules::{FrameKind, Held};

// Is q, the last part, of this number and kind, with no more than n bytes?
#[tactic(auto, using(std::proofs::lemmas::Bool::Decides::nat_tests), unfolding(rules::specs::Values::same_kind))]
pub fn alike(q: Held, number: u32, other: FrameKind, n: usize) -> bool
    ensures { result ≡ (eqb q.number number && (same_kind q.kind other && leb q.len n)) }
{
    q.number == number && q.kind == other && q.len as usize <= n
}

// Is the part, for checkpoint number at, passed over by a list that has n?
pub fn passed_over(at: u32, n: u32) -> bool
    ensures { result ≡ ltb at n }
{
    at < n
}
