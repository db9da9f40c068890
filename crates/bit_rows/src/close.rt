//! The transitive closure of a square of rows.
ghost use Rattle.std.specs.Prelude.{◌≡◌, ◌<◌, ◌&&◌, ◌||◌, ℕ, length};
ghost use Rattle.bit_rows.specs.Rows.{row_has, rows_cells, has_bit};
ghost use Rattle.bit_rows.specs.Closing.{IsClosure};

use crate::row::{Row, joined};

/// Whether a word has a bit.
#[inline(always)]
fn test_bit(w: u64, k: usize) -> bool
    requires { k < 64 }
    ensures { result ≡ has_bit w k }
{
    (w >> k) & 1 == 1
}

/// Whether a row has a column.
#[inline(always)]
#[tactic(auto, unfolding(crate::specs::Rows::row_has))]
pub fn row_test(row: Row, j: usize) -> bool
    requires { j < 256 }
    ensures { result ≡ row_has row j }
{
    if j < 64 {
        return test_bit(row.w0, j);
    }
    if j < 128 {
        return test_bit(row.w1, j - 64);
    }
    if j < 192 {
        return test_bit(row.w2, j - 128);
    }
    test_bit(row.w3, j - 192)
}

/// A row; with another row added if it has a column.
#[inline(always)]
fn stepped(x: Row, k: usize, row: Row) -> Row
    requires { k < 256 }
    ensures { (j : ℕ) → row_has result j ≡ (row_has x j || (row_has x k && row_has row j)) }
{
    if row_test(x, k) { joined(x, row) } else { x }
}

/// Adds a row to each row that has a column (one step of Warshall's algorithm).
fn step_all(z: &mut [Row], k: usize, row: Row)
    requires z_len { length z.old ≡ 256 }
    requires column { k < 256 }
    ensures len { length z.new ≡ 256 }
    ensures cells { (i j : ℕ) → rows_cells z.new i j
        ≡ (rows_cells z.old i j || (rows_cells z.old i k && row_has row j)) }
{
    'rows: for i in 0..256 {
        z[i] = stepped(z[i], k, row);
    }
}

/// `trans(z)`: replaces a square of rows by its transitive closure (Warshall's algorithm).
pub fn rows_close(z: &mut [Row])
    requires { length z.old ≡ 256 }
    ensures len { length z.new ≡ 256 }
    ensures closure { IsClosure (rows_cells z.old) (rows_cells z.new) }
{
    'middles: for k in 0..256 {
        let row = z[k];
        step_all(z, k, row);
    }
}
