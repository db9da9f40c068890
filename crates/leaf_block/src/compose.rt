//! The composition of two blocks.
ghost use Rattle.std.specs.Prelude.{◌≡◌};
ghost use Rattle.rel_model.specs.Cells.{block_cells, cells_compose};
ghost use Rattle.leaf_block.specs.Lanes.{IsPicked};

use std::simd::prelude::*;

/// The lanes of `row` in which `rows` has all bits of `bits`; 0 in the other lanes.
#[inline(always)]
fn picked(rows: u8x16, bits: u8x16, row: u8x16) -> u8x16
    ensures { IsPicked rows bits row result }
{
    (rows & bits).simd_eq(bits).select(row, u8x16::splat(0))
}

/// `{(i, j) : (i, k) in a and (k, j) in b for some k}`: the composition of two blocks.
///
/// The eight rows of `a` are in the lanes twice. Step k takes row k of `b` into each of the first eight lanes whose row
/// has column k, and row k + 4 into each of the last eight whose row has column k + 4.
pub fn block_compose(a: u64, b: u64) -> u64
    ensures { block_cells result ≡ cells_compose 8 (block_cells a) (block_cells b) }
{
    let rows = u64x2::splat(a).to_le_bytes();
    let from = u64x2::splat(b).to_le_bytes();
    let step_0 = picked(
        rows,
        u8x16::from_array([1, 1, 1, 1, 1, 1, 1, 1, 16, 16, 16, 16, 16, 16, 16, 16]),
        from.swizzle::<16>([0, 0, 0, 0, 0, 0, 0, 0, 4, 4, 4, 4, 4, 4, 4, 4]),
    );
    let step_1 = picked(
        rows,
        u8x16::from_array([2, 2, 2, 2, 2, 2, 2, 2, 32, 32, 32, 32, 32, 32, 32, 32]),
        from.swizzle::<16>([1, 1, 1, 1, 1, 1, 1, 1, 5, 5, 5, 5, 5, 5, 5, 5]),
    );
    let step_2 = picked(
        rows,
        u8x16::from_array([4, 4, 4, 4, 4, 4, 4, 4, 64, 64, 64, 64, 64, 64, 64, 64]),
        from.swizzle::<16>([2, 2, 2, 2, 2, 2, 2, 2, 6, 6, 6, 6, 6, 6, 6, 6]),
    );
    let step_3 = picked(
        rows,
        u8x16::from_array([
            8, 8, 8, 8, 8, 8, 8, 8, 128, 128, 128, 128, 128, 128, 128, 128,
        ]),
        from.swizzle::<16>([3, 3, 3, 3, 3, 3, 3, 3, 7, 7, 7, 7, 7, 7, 7, 7]),
    );
    let halves = u64x2::from_le_bytes(step_3 | (step_2 | (step_1 | step_0))).to_array();
    halves[1] | halves[0]
}
