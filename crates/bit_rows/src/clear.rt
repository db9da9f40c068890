//! Parts of rows without a cell.
ghost use Rattle.std.specs.Prelude.{◌≡◌, ◌<◌, ◌≤◌, ◌+◌, ◌%◌, ℕ, true, false, length};
ghost use Rattle.rel_model.specs.Cells.{no_cells};
ghost use Rattle.bit_rows.specs.Rows.{row_has, rows_cells, HasColumns};
ghost use Rattle.bit_rows.specs.Places.{window};

use crate::block::byte_at;
use crate::row::{Row, joined};

/// A row with at least the columns of `count` rows, from a row on: their union.
fn columns_of(z: &[Row], row: usize, count: usize) -> Row
    requires { row + count ≤ length z.now }
    ensures { HasColumns z.now row count result }
{
    let mut all = Row {
        w0: 0,
        w1: 0,
        w2: 0,
        w3: 0,
    };
    'rows: for t in 0..count {
        all = joined(all, z[row + t]);
    }
    all
}

/// Whether a row has none of `count` columns, from a column on.
fn has_none(r: Row, col: usize, count: usize) -> bool
    requires on { col % 8 ≡ 0 }
    requires whole { count % 8 ≡ 0 }
    requires within { col + count ≤ 256 }
    ensures { result ≡ true → (j : ℕ) → j < count → row_has r (col + j) ≡ false }
{
    'bytes: for k in 0..count / 8 {
        if byte_at(r, col + 8 * k) != 0 {
            return false;
        }
    }
    true
}

/// Whether a square of a given side, with its first cell at a row and a column, has no cell.
pub fn is_clear(z: &[Row], row: usize, col: usize, side: usize) -> bool
    requires z_len { length z.now ≡ 256 }
    requires row_in { row + side ≤ 256 }
    requires col_in { col + side ≤ 256 }
    requires col_on { col % 8 ≡ 0 }
    requires side_on { side % 8 ≡ 0 }
    ensures { result ≡ true → window row col side (rows_cells z.now) ≡ no_cells }
{
    let all = columns_of(z, row, side);
    has_none(all, col, side)
}
