// Change request 2 as definitions: the coverage sheet.
#![tactic(auto)]

// The numbers of a row, of one file or summed: checkpoints, boundaries and held bytes.
#[derive(Clone, Copy)]
pub struct Row {
    pub checkpoints: u64,
    pub boundaries: u64,
    pub held: u64,
}
