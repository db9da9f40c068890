//! 256 columns of the closure of a graph without cycles, as rows of bits.
ghost use Rattle.std.specs.Prelude.{◌≡◌, ◌==◌, ◌<◌, ◌≤◌, ◌+◌, ◌||◌, ℕ, length};
ghost use Rattle.std.specs.List.{AllByRecursion};
ghost use Rattle.rel_model.specs.Relation.{IsIncreasing};
ghost use Rattle.rel_model.specs.Listed.{AreWithin};
ghost use Rattle.bit_rows.specs.Rows.{has_bit, row_has, rows_cells};
ghost use Rattle.rel_joins.specs.Starts.{IsIndex};
ghost use Rattle.rel_joins.specs.Postorder.{IsPostorder};
ghost use Rattle.rel_joins.specs.Columns.{closed_cells, leads_to, AreBare};

use crate::joining::row_of;
use bit_rows::{Row, joined};

/// The bit of a column in the word of a row that begins with column `from`.
fn one_bit(k: usize, from: usize) -> u64
    requires { k < 256 }
    ensures { (j : ℕ) → j < 64 → has_bit result j ≡ (k == from + j) }
{
    if k < from || k - from >= 64 {
        return 0;
    }
    1 << (k - from)
}

/// A row with one column.
fn one_column(k: usize) -> Row
    requires { k < 256 }
    ensures { (j : ℕ) → j < 256 → row_has result j ≡ (k == j) }
{
    Row {
        w0: one_bit(k, 0),
        w1: one_bit(k, 64),
        w2: one_bit(k, 128),
        w3: one_bit(k, 192),
    }
}

/// A row of 256 columns from `col` on, with an element too.
fn with_element(row: Row, x: usize, col: usize) -> Row
    ensures { (j : ℕ) → j < 256 → row_has result j ≡ (row_has row j || (x == col + j)) }
{
    if x < col || x - col >= 256 {
        return row;
    }
    joined(row, one_column(x - col))
}

/// What pairs with one beginning lead to: their ends, and what the rows of these have.
fn reached(rows: &[Row], row: &[(u32, u32)], col: usize) -> Row
    requires ends { AllByRecursion (λ q. q.1 < length rows.now) row.now }
    ensures { (j : ℕ) → j < 256 → row_has result j ≡ leads_to rows.now col row.now j }
{
    let mut all = Row {
        w0: 0,
        w1: 0,
        w2: 0,
        w3: 0,
    };
    'pairs: for (_, y) in row {
        let place = *y as usize;
        all = joined(all, with_element(rows[place], place, col));
    }
    all
}

/// 256 columns of the closure of pairs, from column `col` on: each row is united from those of its pairs' ends, which
/// come first in the order.
pub(crate) fn close_columns(
    n: u32,
    rows: &mut [Row],
    order: &[u32],
    pairs: &[(u32, u32)],
    starts: &[usize],
    col: usize,
)
    requires size { n ≤ length rows.old }
    requires index { IsIndex n pairs.now starts.now }
    requires within { AreWithin n n pairs.now }
    requires sorted { IsIncreasing pairs.now }
    requires order { IsPostorder n pairs.now order.now }
    requires bare { AreBare n rows.old }
    ensures len { length rows.new ≡ length rows.old }
    ensures bare { AreBare n rows.new }
    ensures cells { (x j : ℕ) → j < 256 → rows_cells rows.new x j ≡ closed_cells n pairs.now x (col + j) }
{
    'elements: for x in order {
        rows[*x as usize] = reached(rows, row_of(pairs, starts, *x), col);
    }
}
