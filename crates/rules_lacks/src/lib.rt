// What another list holds and the own one does not, as definitions.
#![tactic(auto)]

// How many of each thing are lacking; of what there is once at most, whether it is.
#[derive(Clone, Copy)]
pub struct Lacks {
    pub checkpoints: u32,
    pub ending: bool,
    pub parts: u32,
    pub malformed: u32,
    pub hints: u32,
    pub confirmed: u32,
    pub fingerprint: bool,
    pub image: bool,
    pub budget: bool,
    pub most: bool,
}
