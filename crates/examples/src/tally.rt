// The count of examples, and of those that are as they should be.
ghost use Rattle.std.specs.Prelude.{◌≡◌, if◌then◌else◌};
ghost use Rattle.examples.specs.Count.{ended};

// How many examples were run, and how many of them were right.
#[derive(Clone, Copy)]
pub struct Tally {
    pub run: u64,
    pub right: u64,
}

// No example was run yet.
pub fn start() -> Tally
    ensures { (result.run ≡ 0) × (result.right ≡ 0) }
{
    Tally { run: 0, right: 0 }
}

// 1 for true, 0 for false.
fn one(b: bool) -> u64
    ensures { result ≡ (if b then 1 else 0) }
{
    if b { 1 } else { 0 }
}

// Counts an example that was run.
pub fn counted(t: Tally, right: bool) -> Tally
    ensures { result ≡ ended t right }
{
    Tally {
        run: t.run.wrapping_add(1),
        right: t.right.wrapping_add(one(right)),
    }
}
