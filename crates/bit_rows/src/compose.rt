//! The composition of two squares of rows.
ghost use Rattle.std.specs.Prelude.{◌≡◌, ◌<◌, ◌≤◌, ◌+◌, ◌||◌, ℕ, length};
ghost use Rattle.rel_model.specs.Cells.{cells_union, cells_compose, some_below};
ghost use Rattle.bit_rows.specs.Rows.{row_has, rows_cells, product_has};

use crate::row::{Row, with_picked};
use crate::tables::{compose_by_tables, has_many_cells};

/// A row, with all rows added whose number is a column of another row.
#[inline(always)]
fn with_product(sum: Row, row: Row, rows: &[Row]) -> Row
    requires { length rows.now ≡ 256 }
    ensures { (j : ℕ) → row_has result j ≡ (row_has sum j || product_has row rows.now j) }
{
    let sum = with_picked(sum, row.w0, rows, 0);
    let sum = with_picked(sum, row.w1, rows, 64);
    let sum = with_picked(sum, row.w2, rows, 128);
    with_picked(sum, row.w3, rows, 192)
}

/// Adds the composition of two squares to a third, bit by bit.
fn compose_by_bits(z: &mut [Row], a: &[Row], b: &[Row])
    requires z_len { length z.old ≡ 256 }
    requires a_len { length a.now ≡ 256 }
    requires b_len { length b.now ≡ 256 }
    ensures len { length z.new ≡ 256 }
    ensures cells { rows_cells z.new ≡ cells_union (rows_cells z.old)
        (cells_compose (length b.now) (rows_cells a.now) (rows_cells b.now)) }
{
    'rows: for i in 0..256 {
        z[i] = with_product(z[i], a[i], b);
    }
}

/// `z | {(i, k) : (i, j) in a and (j, k) in b for some j}`: adds the composition of two squares of rows to a third.
pub fn rows_compose_into(z: &mut [Row], a: &[Row], b: &[Row])
    requires z_len { length z.old ≡ 256 }
    requires a_len { length a.now ≡ 256 }
    requires b_len { length b.now ≡ 256 }
    ensures len { length z.new ≡ 256 }
    ensures cells { rows_cells z.new ≡ cells_union (rows_cells z.old)
        (cells_compose (length b.now) (rows_cells a.now) (rows_cells b.now)) }
{
    if has_many_cells(a) {
        compose_by_tables(z, a, b);
        return;
    }
    compose_by_bits(z, a, b);
}
