// The gap of a hint, and whether a hint stays at a cutoff.
ghost use Rattle.std.specs.Prelude.{◌≡◌, ◌&&◌, ◌||◌, ◌+◌, eqb, ltb};
ghost use Rattle.rules.specs.Hints.{rise};
ghost use Rattle.thin.specs.Thin.{gap_from};

use rules::Hint;

// The rise from the number before.
#[tactic(auto, unfolding(rules::specs::Hints::rise))]
pub fn rise_of(p: u32, t: u32) -> u64
    ensures { result ≡ rise p t }
{
    if p < t { (t - p) as u64 } else { 4294967295 }
}

// The gap of a hint: its rise from the number before; of a kept hint 4,294,967,296, above every rise.
#[tactic(auto, unfolding(crate::specs::Thin::gap_from, rules::specs::Sections::is_kept))]
pub fn gap_of(before: u32, h: Hint) -> u64
    ensures { result ≡ gap_from before h }
{
    if h.mark == 1 {
        4294967296
    } else {
        rise_of(before, h.number)
    }
}

// Is the gap of a hint at most g? That of a kept hint is above every g.
#[tactic(auto, unfolding(crate::specs::Thin::gap_from, rules::specs::Sections::is_kept))]
pub fn is_within(before: u32, h: Hint, g: u32) -> bool
    ensures { result ≡ ltb (gap_from before h) (g + 1) }
{
    h.mark != 1 && rise_of(before, h.number) <= g as u64
}

// Does a hint with gap g stay, where `left` more at the cutoff c go?
pub fn stays_at(g: u64, c: u64, left: usize) -> bool
    ensures { result ≡ (ltb c g || (eqb g c && eqb left 0)) }
{
    c < g || (g == c && left == 0)
}
