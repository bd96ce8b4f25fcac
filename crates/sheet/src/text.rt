// Rows and totals as text, at the start of a lent output.
ghost use Rattle.std.specs.Prelude.{◌≡◌, ◌+◌, ◌*◌, ◌/◌, ◌≤◌, length, drop};
ghost use Rattle.rules.specs.Tests.{Refused, Accepted};
ghost use Rattle.rules_coverage.specs.Lines.{line_of};
ghost use Rattle.rules_coverage.specs.Coverage.{coverage, totals, decimal_text, number_text, answer_text, name_of, row_text, total_text};
ghost use Rattle.sheet.specs.Lines.{line_in, name_length};
ghost use Rattle.sheet.specs.Rows.{answer_in, rows_in};
ghost use Rattle.sheet.specs.Steps.{Small};
ghost use Rattle.sheet.specs.Text.{Written, output, put, puts};

use crate::line::{Parsed, parse};
use crate::row::RowAnswer;
use crate::totals::totals;
use rules_coverage::Row;

// ---- bytes behind each other; what does not fit is left out
#[tactic(auto, unfolding(crate::specs::Text::put))]
fn put_byte(out: &mut [u8], at: usize, b: u8) -> usize
    ensures { output out.new result ≡ put (output out.old at) b }
{
    if at < out.len() {
        out[at] = b;
        at + 1
    } else {
        at
    }
}

fn put_bytes(out: &mut [u8], at: usize, s: &[u8]) -> usize
    ensures { output out.new result ≡ puts (output out.old at) s.now }
{
    let mut q = at;
    for b in s {
        q = put_byte(out, q, *b);
    }
    q
}

// ---- numbers
// The decimal digits of v, at the end of text; answers where they begin.
fn spell(v: u64, text: &mut [u8]) -> usize
    requires { length text.old ≡ 20 }
    ensures { (drop result text.new ≡ decimal_text v) × (result ≤ length text.new) }
{
    let mut at = 20;
    let mut rest = v;
    // A digit a turn, from the last on: how many there are is not known before.
    while 10 <= rest {
        at -= 1;
        text[at] = b'0' + (rest % 10) as u8;
        rest /= 10;
    }
    at -= 1;
    text[at] = b'0' + rest as u8;
    at
}

fn put_decimal(out: &mut [u8], at: usize, v: u64) -> usize
    ensures { output out.new result ≡ puts (output out.old at) (decimal_text v) }
{
    let mut text = [0u8; 20];
    let from = spell(v, &mut text);
    put_bytes(out, at, &text[from..])
}

// A space and the number behind it.
fn put_number(out: &mut [u8], at: usize, v: u64) -> usize
    ensures { output out.new result ≡ puts (output out.old at) (number_text v) }
{
    let q = put_byte(out, at, b' ');
    put_decimal(out, q, v)
}

// In ten-thousandths, rounded down; 10,000 without boundaries.
fn coverage(r: Row) -> u64
    requires { Small 1000 r }
    ensures { result ≡ coverage r }
{
    if r.boundaries == 0 {
        return 10000;
    }
    r.checkpoints * 10000 / r.boundaries
}

// ---- what follows the name
fn put_numbers(out: &mut [u8], at: usize, r: Row) -> usize
    requires { Small 1000 r }
    ensures { output out.new result ≡ puts (output out.old at) (answer_text (Accepted r)) }
{
    let a = put_number(out, at, r.checkpoints);
    let b = put_number(out, a, r.boundaries);
    let c = put_number(out, b, r.held);
    let d = put_number(out, c, coverage(r));
    put_byte(out, d, b'\n')
}

fn put_refused(out: &mut [u8], at: usize, n: u32) -> usize
    ensures { output out.new result ≡ puts (output out.old at) (answer_text (Refused n)) }
{
    let a = put_bytes(out, at, b" refused");
    let b = put_number(out, a, n as u64);
    put_byte(out, b, b'\n')
}

fn put_answer(out: &mut [u8], at: usize, row: RowAnswer) -> usize
    ensures { output out.new result ≡ puts (output out.old at) (answer_text (answer_in row)) }
{
    match row {
        RowAnswer::Refused(n) => put_refused(out, at, n),
        RowAnswer::Accepted(n, b, h) => put_numbers(
            out,
            at,
            Row {
                checkpoints: n as u64,
                boundaries: b as u64,
                held: h as u64,
            },
        ),
    }
}

// ---- lines of the sheet
// The name of a line, or a dash.
fn put_name(out: &mut [u8], line: &[u8], said: Parsed) -> usize
    requires { name_length said ≤ length line.now }
    ensures { output out.new result ≡ puts (output out.old 0) (name_of (line_in line.now said)) }
{
    match said {
        Parsed::Broken => put_byte(out, 0, b'-'),
        Parsed::Line(k, _, _) => put_bytes(out, 0, &line[..k]),
    }
}

// The row of a line, at the start of out; answers its length.
pub fn line_text(out: &mut [u8], line: &[u8], row: RowAnswer) -> usize
    ensures { Written out.old out.new result (row_text (name_of (line_of line.now)) (answer_in row)) }
{
    let said = parse(line);
    let at = put_name(out, line, said);
    put_answer(out, at, row)
}

// The last line, of the first n rows of a table.
pub fn total_text(out: &mut [u8], table: &[u32; 4000], n: usize) -> usize
    ensures { Written out.old out.new result (total_text (totals (rows_in n table.now))) }
{
    let r = totals(table, n);
    let at = put_bytes(out, 0, b"total");
    put_numbers(out, at, r)
}
