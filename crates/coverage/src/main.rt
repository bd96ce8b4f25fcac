// The coverage sheet of the files named on standard input, a row for each line and a last one with the totals.
#![tactic(auto)]

mod file;
mod input;
mod sheets;

fn main(rt: HostRuntime) {
    let mut chunk = [0u8; 65536];
    let mut line = [0u8; 278];
    let mut file = [0u8; 65537];
    let mut out = [0u8; 512];
    let mut table = [0u32; 4000];
    sheets::sheet(&rt, &mut chunk, &mut line, &mut file, &mut out, &mut table);
}
