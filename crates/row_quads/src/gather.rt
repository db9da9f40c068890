//! The quad of the cells of rows.
ghost use Rattle.std.specs.Prelude.{◌≡◌, ◌≤◌, ◌+◌, ◌%◌, length};
ghost use Rattle.rel_model.specs.Trees.{bottom_height, top_height};
ghost use Rattle.rel_model.specs.Equations.{side_of};
ghost use Rattle.rel_model.specs.Quads.{Keeper, quad_room};
ghost use Rattle.quad_nodes.specs.Making.{MakesQuad};
ghost use Rattle.bit_rows.specs.Rows.{rows_cells};
ghost use Rattle.bit_rows.specs.Places.{window};

use crate::cut::cut_square;
use bit_rows::{Row, is_clear};
use pair_table::Missed;
use quad_nodes::{Nodes, side_of_height};
use rel_model::Quad;
use tree_blocks::gather_blocks;

/// The quad of the cells of rows from a row and a column on. A square without a cell is recognised before it is cut
/// into blocks. Refused only if the table is full.
///
/// The blocks take 8 KB of stack; keeping this a separate call puts them there only while it runs.
#[inline(never)]
pub fn gather_quad(
    nodes: &mut Nodes,
    z: &[Row],
    height: u8,
    row: usize,
    col: usize,
) -> Result<Quad, Missed>
    requires z_len { length z.now ≡ 256 }
    requires low { bottom_height ≤ height }
    requires high { height ≤ top_height }
    requires row_in { row + side_of height ≤ 256 }
    requires col_in { col + side_of height ≤ 256 }
    requires col_on { col % 8 ≡ 0 }
    ensures { MakesQuad (quad_room height) height (window row col (side_of height) (rows_cells z.now))
        nodes.old nodes.new result }
{
    // This use makes the checker open the invariant of `nodes`, which the early return below needs.
    let _ = nodes.bottom();
    let side = side_of_height(height) as usize;
    if is_clear(z, row, col, side) {
        return Ok(Quad::empty(height));
    }
    let mut blocks = [0u64; 1024];
    cut_square(z, height, row, col, 0, &mut blocks);
    gather_blocks(nodes, &blocks, height)
}
