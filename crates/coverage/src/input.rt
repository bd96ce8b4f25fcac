// Standard input line by line: a chunk of it, and the first bytes of a line.
ghost use Rattle.std.specs.Prelude.{◌≤◌, length};

use std::io::Read;

// The chunk's next byte and its length; how many bytes of the line are kept, whether it is whole, and whether the input is over.
#[derive(Clone, Copy)]
pub struct Reading {
    pub at: usize,
    pub n: usize,
    pub len: usize,
    pub whole: bool,
    pub over: bool,
}

pub fn start() -> Reading {
    Reading {
        at: 0,
        n: 0,
        len: 0,
        whole: false,
        over: false,
    }
}

// The next chunk, where this one is used up; a read that fails ends the input.
fn fill(rt: &HostRuntime, chunk: &mut [u8], r: Reading) -> Reading {
    if r.at < r.n {
        return r;
    }
    let n = rt.stdin().read(chunk).unwrap_or(0);
    Reading {
        at: 0,
        n,
        over: n == 0,
        ..r
    }
}

// How far the line goes before the chunk's next byte.
fn begun(r: Reading) -> usize {
    if r.whole { 0 } else { r.len }
}

// b behind the first n bytes of line; what does not fit is dropped.
fn keep(line: &mut [u8], n: usize, b: u8) -> usize
    requires { n ≤ length line.old }
    ensures { result ≤ length line.new }
{
    if n < line.len() {
        line[n] = b;
        n + 1
    } else {
        n
    }
}

// The chunk's bytes up to a newline, behind what the line has.
fn gather(chunk: &[u8], line: &mut [u8], r: Reading) -> Reading
    ensures { result.len ≤ length line.new }
{
    let n = r.n.min(chunk.len());
    let mut len = begun(r).min(line.len());
    for i in r.at..n {
        if chunk[i] == b'\n' {
            return Reading {
                at: i + 1,
                n,
                len,
                whole: true,
                over: false,
            };
        }
        len = keep(line, len, chunk[i]);
    }
    Reading {
        at: n,
        n,
        len,
        whole: false,
        over: r.over,
    }
}

// One chunk's share of a line more.
pub fn next(rt: &HostRuntime, chunk: &mut [u8], line: &mut [u8], r: Reading) -> Reading
    ensures { result.len ≤ length line.new }
{
    let filled = fill(rt, chunk, r);
    gather(chunk, line, filled)
}

// Is a line there: one that ends, or the last, without its newline?
pub fn has_line(r: Reading) -> bool {
    r.whole || r.over && 0 < r.len
}
