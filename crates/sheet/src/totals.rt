// The rows of a sheet in a lent table, and the sums over the accepted ones.
ghost use Rattle.std.specs.Prelude.{◌≡◌, [], ◌∷◌, ◌++◌, ◌+◌, ◌*◌, ◌≤◌, ◌<◌, length, take};
ghost use Rattle.std.proofs.lemmas.List.Edits.{sets};
ghost use Rattle.rules_coverage.specs.Lines.{most_lines};
ghost use Rattle.rules_coverage.specs.Coverage.{totals};
ghost use Rattle.sheet.specs.Rows.{answer_in, rows_in};
ghost use Rattle.sheet.specs.Steps.{row_words, added, Small};

use crate::row::RowAnswer;
use rules_coverage::Row;

// ---- a row into the table
// The four words of a row.
#[tactic(auto, unfolding(crate::specs::Steps::row_words))]
fn row_words(row: RowAnswer) -> [u32; 4]
    ensures { result ≡ row_words row }
{
    match row {
        RowAnswer::Refused(k) => [0, k, 0, 0],
        RowAnswer::Accepted(k, b, h) => [1, k, b, h],
    }
}

fn put_at(table: &mut [u32], n: usize, row: RowAnswer)
    requires { (n * 4 + 4 ≤ length table.old) × (n < 1000) }
    ensures { table.new ≡ sets table.old (n * 4) (row_words row) }
{
    table[n * 4..n * 4 + 4].copy_from_slice(&row_words(row));
}

// The row number n, behind the first n; nothing where there are 1,000.
pub fn put_row(table: &mut [u32; 4000], n: usize, row: RowAnswer)
    ensures { rows_in (n + 1) table.new ≡ take most_lines (rows_in n table.old ++ (answer_in row ∷ [])) }
{
    if n < 1000 {
        put_at(table, n, row);
    }
}

// ---- the sums
// With record number i of the table.
fn add_row(t: Row, table: &[u32], i: usize) -> Row
    requires { (i * 4 + 4 ≤ length table.now) × (i < 1000) × (Small i t) }
    ensures { (result ≡ added t table.now i) × (Small (i + 1) result) }
{
    let at = i * 4;
    if table[at] != 1 {
        return t;
    }
    Row {
        checkpoints: t.checkpoints + table[at + 1] as u64,
        boundaries: t.boundaries + table[at + 2] as u64,
        held: t.held + table[at + 3] as u64,
    }
}

fn sum(table: &[u32], n: usize) -> Row
    requires { (n * 4 ≤ length table.now) × (n ≤ 1000) }
    ensures { (result ≡ totals (rows_in n table.now)) × (Small n result) }
{
    let mut t = Row {
        checkpoints: 0,
        boundaries: 0,
        held: 0,
    };
    for i in 0..n {
        t = add_row(t, table, i);
    }
    t
}

// Of the first n rows.
pub fn totals(table: &[u32; 4000], n: usize) -> Row
    ensures { (result ≡ totals (rows_in n table.now)) × (Small 1000 result) }
{
    sum(table, n.min(1000))
}
