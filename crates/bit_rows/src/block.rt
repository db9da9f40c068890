//! Blocks of 8 by 8 cells, written to rows and read back from them.
ghost use Rattle.std.specs.Prelude.{◌≡◌, ◌<◌, ◌≤◌, ◌+◌, ◌*◌, ◌%◌, ◌||◌, ℕ, length};
ghost use Rattle.rel_model.specs.Cells.{block_cells, cells_union};
ghost use Rattle.bit_rows.specs.Rows.{row_has, rows_cells, has_bit};
ghost use Rattle.bit_rows.specs.Places.{byte_has, placed, window, IsByte, IsByteOf};

use crate::row::Row;

/// Eight bits of a word from a place on.
#[inline(always)]
fn byte_of(w: u64, from: usize) -> u64
    requires { from + 8 ≤ 64 }
    ensures { IsByteOf w from result }
{
    (w >> from) & 255
}

/// A row with the bits of a byte added from a column on.
#[inline(always)]
fn with_byte(r: Row, byte: u64, col: usize) -> Row
    requires small { byte < 256 }
    requires on { col % 8 ≡ 0 }
    requires within { col < 256 }
    ensures { (j : ℕ) → row_has result j ≡ (row_has r j || byte_has byte col j) }
{
    if col < 64 {
        return Row {
            w0: r.w0 | (byte << col),
            w1: r.w1,
            w2: r.w2,
            w3: r.w3,
        };
    }
    if col < 128 {
        return Row {
            w0: r.w0,
            w1: r.w1 | (byte << (col - 64)),
            w2: r.w2,
            w3: r.w3,
        };
    }
    if col < 192 {
        return Row {
            w0: r.w0,
            w1: r.w1,
            w2: r.w2 | (byte << (col - 128)),
            w3: r.w3,
        };
    }
    Row {
        w0: r.w0,
        w1: r.w1,
        w2: r.w2,
        w3: r.w3 | (byte << (col - 192)),
    }
}

/// Eight columns of a row.
#[inline(always)]
pub(crate) fn byte_at(r: Row, col: usize) -> u64
    requires on { col % 8 ≡ 0 }
    requires within { col < 256 }
    ensures { IsByte r col result }
{
    if col < 64 {
        return byte_of(r.w0, col);
    }
    if col < 128 {
        return byte_of(r.w1, col - 64);
    }
    if col < 192 {
        return byte_of(r.w2, col - 128);
    }
    byte_of(r.w3, col - 192)
}

/// Adds the cells of a block to rows, with its first cell at a row and a column.
pub fn add_block(z: &mut [Row], bits: u64, row: usize, col: usize)
    requires z_len { length z.old ≡ 256 }
    requires row_in { row + 8 ≤ 256 }
    requires col_on { col % 8 ≡ 0 }
    requires col_in { col < 256 }
    ensures len { length z.new ≡ 256 }
    ensures cells { rows_cells z.new ≡ cells_union (rows_cells z.old) (placed row col (block_cells bits)) }
{
    'lines: for t in 0..8 {
        z[row + t] = with_byte(z[row + t], byte_of(bits, 8 * t), col);
    }
}

/// The block of 8 by 8 cells whose first cell is at a row and a column.
pub fn block_at(z: &[Row], row: usize, col: usize) -> u64
    requires z_len { length z.now ≡ 256 }
    requires row_in { row + 8 ≤ 256 }
    requires col_on { col % 8 ≡ 0 }
    requires col_in { col < 256 }
    ensures { block_cells result ≡ window row col 8 (rows_cells z.now) }
{
    let mut bits = 0u64;
    'lines: for t in 0..8 {
        bits |= byte_at(z[row + t], col) << (8 * t);
    }
    bits
}
