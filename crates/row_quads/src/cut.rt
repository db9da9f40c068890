//! Rows of bits, cut into blocks.
ghost use Rattle.std.specs.Prelude.{ℕ, ◌≡◌, ◌≢◌, ◌≤◌, ◌+◌, ◌-◌, ◌*◌, ◌%◌, length};
ghost use Rattle.rel_model.specs.Trees.{bottom_height, top_height};
ghost use Rattle.rel_model.specs.Equations.{side_of};
ghost use Rattle.bit_rows.specs.Rows.{rows_cells};
ghost use Rattle.bit_rows.specs.Places.{window};
ghost use Rattle.tree_blocks.specs.Order.{blocks_count, square_cells};

use bit_rows::{Row, block_at};
use quad_nodes::side_of_height;

/// Writes square `k` of a height, whose first cell is at a row and a column, as blocks in tree order.
pub fn cut_square(z: &[Row], height: u8, row: usize, col: usize, k: usize, blocks: &mut [u64])
    requires z_len { length z.now ≡ 256 }
    requires low { bottom_height ≤ height }
    requires high { height ≤ top_height }
    requires row_in { row + side_of height ≤ 256 }
    requires col_in { col + side_of height ≤ 256 }
    requires col_on { col % 8 ≡ 0 }
    requires room { (k + 1) * blocks_count (height - bottom_height) ≤ length blocks.old }
    ensures len { length blocks.new ≡ length blocks.old }
    ensures cells { square_cells (height - bottom_height) blocks.new k
        ≡ window row col (side_of height) (rows_cells z.now) }
    ensures rest { (j : ℕ) → j ≢ k → square_cells (height - bottom_height) blocks.new j
        ≡ square_cells (height - bottom_height) blocks.old j }
{
    if height <= 3 {
        blocks[k] = block_at(z, row, col);
        return;
    }
    let half = side_of_height(height - 1) as usize;
    cut_square(z, height - 1, row, col, 4 * k, blocks);
    cut_square(z, height - 1, row, col + half, 4 * k + 1, blocks);
    cut_square(z, height - 1, row + half, col, 4 * k + 2, blocks);
    cut_square(z, height - 1, row + half, col + half, 4 * k + 3, blocks);
}
