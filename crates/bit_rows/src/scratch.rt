//! Rows to work on, on the stack.
ghost use Rattle.std.specs.Prelude.{◌≡◌, length};
ghost use Rattle.rel_model.specs.Cells.{no_cells};
ghost use Rattle.bit_rows.specs.Rows.{rows_cells};

use crate::row::Row;

/// 256 rows with no column. 8 KB.
#[inline(always)]
pub fn no_rows() -> [Row; 256]
    ensures len { length result ≡ 256 }
    ensures cells { rows_cells result ≡ no_cells }
{
    [Row {
        w0: 0,
        w1: 0,
        w2: 0,
        w3: 0,
    }; 256]
}
