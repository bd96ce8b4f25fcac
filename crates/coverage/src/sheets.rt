// All lines of the input, and the totals.
ghost use Rattle.std.specs.Prelude.{◌+◌, ◌≤◌, ◌<◌};
ghost use Rattle.sheet.specs.Rows.{answer_in};
ghost use Rattle.coverage.specs.Sheets.{RowOfLine, Answered, Rows};

use crate::file::read_file;
use crate::input::{Reading, has_line, next, start};
use sheet::line::{Parsed, parse};
use sheet::row::{RowAnswer, line_row};
use sheet::text::{line_text, total_text};
use sheet::totals::put_row;
use std::io::Write;

// What was read, the rows in the table, whether there may be more of them, and whether each was written.
#[derive(Clone, Copy)]
struct State {
    read: Reading,
    count: usize,
    more: bool,
    written: bool,
}

// The row of a line, with the file that it names.
fn row_of_line(rt: &HostRuntime, line: &[u8], file: &mut [u8]) -> RowAnswer
    ensures { RowOfLine line.now (answer_in result) }
{
    match parse(line) {
        Parsed::Broken => line_row(line, false, line),
        Parsed::Line(k, _, _) => {
            let content = read_file(rt, &line[..k], file);
            line_row(line, content.whole, &file[..content.n])
        }
    }
}

// A row into the table and onto standard output.
fn answer_line(
    rt: &HostRuntime,
    line: &[u8],
    file: &mut [u8],
    out: &mut [u8],
    table: &mut [u32; 4000],
    count: usize,
) -> bool
    ensures { Answered count line.now table.old table.new out.old out.new }
{
    let row = row_of_line(rt, line, file);
    put_row(table, count, row);
    let n = line_text(out, line, row);
    rt.stdout().write_all(&out[..n]).is_ok()
}

// A chunk's share of the input: no line, or one.
fn turn(
    rt: &HostRuntime,
    chunk: &mut [u8],
    line: &mut [u8],
    file: &mut [u8],
    out: &mut [u8],
    table: &mut [u32; 4000],
    s: State,
) -> State
    requires { (s.count < 1000) × (Rows s.count table.old) }
    ensures { (result.count ≤ 1000) × (Rows result.count table.new) }
{
    let read = next(rt, chunk, line, s.read);
    let count = s.count;
    if !has_line(read) {
        return State {
            read,
            count,
            more: !read.over,
            written: true,
        };
    }
    let written = answer_line(rt, &line[..read.len], file, out, table, count);
    State {
        read,
        count: count + 1,
        more: !read.over,
        written,
    }
}

// May there be a further row: the input is not over, and the last could be written?
fn goes_on(s: State) -> bool {
    s.more && s.written
}

// Every row; a write that fails ends it.
fn rows(
    rt: &HostRuntime,
    chunk: &mut [u8],
    line: &mut [u8],
    file: &mut [u8],
    out: &mut [u8],
    table: &mut [u32; 4000],
) -> State
    ensures { (result.count ≤ 1000) × (Rows result.count table.new) }
{
    let mut s = State {
        read: start(),
        count: 0,
        more: true,
        written: true,
    };
    for _ in 0..u64::MAX {
        if 1000 <= s.count || !goes_on(s) {
            return s;
        }
        s = turn(rt, chunk, line, file, out, table, s);
    }
    s
}

pub fn sheet(
    rt: &HostRuntime,
    chunk: &mut [u8],
    line: &mut [u8],
    file: &mut [u8],
    out: &mut [u8],
    table: &mut [u32; 4000],
) {
    let s = rows(rt, chunk, line, file, out, table);
    if s.written {
        let n = total_text(out, table, s.count);
        let _ = rt.stdout().write_all(&out[..n]);
    }
}
