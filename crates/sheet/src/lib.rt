// The coverage sheet without input or output: a line of the input, the row of a file, the totals over a table of rows, and their text.
#![tactic(auto)]

pub mod line;
pub mod row;
pub mod text;
pub mod totals;
