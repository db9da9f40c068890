//! Blocks that are full up to a row and a column.
ghost use Rattle.std.specs.Prelude.{◌≡◌, ◌≤◌};
ghost use Rattle.rel_model.specs.Cells.{block_cells, cells_rect};

use std::simd::prelude::*;

/// `{(i, j) : i < rows, j < cols}`: the first rows and columns of a block, at most 8 of each.
pub fn block_rect(rows: u32, cols: u32) -> u64
    requires row { rows ≤ 8 }
    requires col { cols ≤ 8 }
    ensures { block_cells result ≡ cells_rect rows cols }
{
    let row = u8x8::splat(((1u32 << cols) - 1) as u8);
    let places = u8x8::from_array([0, 1, 2, 3, 4, 5, 6, 7]);
    let lanes = places
        .simd_lt(u8x8::splat(rows as u8))
        .select(row, u8x8::splat(0));
    let word = u64x1::from_le_bytes(lanes).to_array();
    word[0]
}
