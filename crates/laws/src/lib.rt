// Laws of the definitions that only proofs use: saving and loading, scans, hint lists, absorbing; no function.
#![tactic(auto)]

pub mod absorbing;
pub mod hint_lists;
pub mod scans;
