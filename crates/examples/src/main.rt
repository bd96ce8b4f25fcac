// Runs the examples and the vectors, and prints each with what it should be; then the header's table.
#![tactic(auto)]

mod fields;
mod files;
mod hashes;
mod lines;
mod records;
mod sums;
mod tally;

fn main(rt: HostRuntime) {
    let t = crate::tally::start();
    let t = hashes::vectors(&rt, t);
    let t = records::examples(&rt, t);
    let t = files::examples(&rt, t);
    let t = sums::examples(&rt, t);
    lines::total(&rt, t);
    fields::table(&rt);
}
