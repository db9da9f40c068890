//! The transposition of a block.
ghost use Rattle.std.specs.Prelude.{◌≡◌, ◌<◌, map};
ghost use Rattle.rel_model.specs.Cells.{block_cells, cells_transpose};
ghost use Rattle.leaf_block.specs.Lanes.{swapped};

use std::simd::prelude::*;

/// Exchanges the cells under the mask with those `by` places after them.
#[inline(always)]
fn swap(x: u64x1, by: u64, mask: u64) -> u64x1
    requires { by < 64 }
    ensures { result ≡ map (swapped by mask) x }
{
    let places = u64x1::splat(by);
    let turned = (x ^ (x >> places)) & u64x1::splat(mask);
    x ^ turned ^ (turned << places)
}

/// `{(i, j) : (j, i) in a}`: the transposition of a block.
///
/// Three swaps, of the off-diagonal quarters in each square of 2, of 4 and of 8 rows. The eight rows are one lane of 64
/// bits.
pub fn block_transpose(a: u64) -> u64
    ensures { block_cells result ≡ cells_transpose (block_cells a) }
{
    let cells = swap(u64x1::splat(a), 7, 0x00AA_00AA_00AA_00AA);
    let pairs = swap(cells, 14, 0x0000_CCCC_0000_CCCC);
    let fours = swap(pairs, 28, 0x0000_0000_F0F0_F0F0).to_array();
    fours[0]
}
