//! The cells of a quad, written to rows.
ghost use Rattle.std.specs.Prelude.{◌≡◌, ◌<◌, ◌≤◌, ◌+◌, ◌%◌, length};
ghost use Rattle.rel_model.specs.Cells.{cells_union};
ghost use Rattle.rel_model.specs.Trees.{bottom_height};
ghost use Rattle.rel_model.specs.Equations.{side_of};
ghost use Rattle.rel_model.specs.Quads.{Keeper, QuadStands, AreQuarters, quad_cells, ReadsQuads};
ghost use Rattle.bit_rows.specs.Rows.{rows_cells};
ghost use Rattle.bit_rows.specs.Places.{placed};

use bit_rows::{Row, add_block};
use quad_nodes::{Nodes, side_of_height};
use rel_model::{Quad, Quarters};

/// Adds the cells of a block to rows, from a row and a column on.
fn spill_block(nodes: &mut Nodes, q: Quad, z: &mut [Row], row: usize, col: usize)
    requires stands { QuadStands nodes.old q }
    requires block { q.height ≡ bottom_height }
    requires z_len { length z.old ≡ 256 }
    requires row_in { row + side_of q.height ≤ 256 }
    requires col_in { col + side_of q.height ≤ 256 }
    requires col_on { col % 8 ≡ 0 }
    ensures len { length z.new ≡ 256 }
    ensures cells { rows_cells z.new ≡ cells_union (rows_cells z.old) (placed row col (quad_cells nodes.old q)) }
    ensures reads { ReadsQuads nodes.old nodes.new }
{
    let _ = nodes.bottom();
    if q.is_empty() {
        return;
    }
    let bits = nodes.bits(q);
    add_block(z, bits, row, col);
}

/// Adds the cells of a quad whose quarters are blocks.
fn spill_blocks(nodes: &mut Nodes, q: Quad, four: Quarters, z: &mut [Row], row: usize, col: usize)
    requires stands { QuadStands nodes.old q }
    requires quarters { AreQuarters nodes.old nodes.old q four }
    requires blocks { four.nw.height ≡ bottom_height }
    requires z_len { length z.old ≡ 256 }
    requires row_in { row + side_of q.height ≤ 256 }
    requires col_in { col + side_of q.height ≤ 256 }
    requires col_on { col % 8 ≡ 0 }
    ensures len { length z.new ≡ 256 }
    ensures cells { rows_cells z.new ≡ cells_union (rows_cells z.old) (placed row col (quad_cells nodes.old q)) }
    ensures reads { ReadsQuads nodes.old nodes.new }
{
    let half = side_of_height(four.nw.height) as usize;
    spill_block(nodes, four.nw, z, row, col);
    spill_block(nodes, four.ne, z, row, col + half);
    spill_block(nodes, four.sw, z, row + half, col);
    spill_block(nodes, four.se, z, row + half, col + half);
}

/// Adds the cells of a quad whose quarters are known. Reads the words of all four quarters before writing any of them,
/// so that these reads need not wait for one another.
fn spill_quarters(nodes: &mut Nodes, q: Quad, four: Quarters, z: &mut [Row], row: usize, col: usize)
    requires stands { QuadStands nodes.old q }
    requires quarters { AreQuarters nodes.old nodes.old q four }
    requires z_len { length z.old ≡ 256 }
    requires row_in { row + side_of q.height ≤ 256 }
    requires col_in { col + side_of q.height ≤ 256 }
    requires col_on { col % 8 ≡ 0 }
    ensures len { length z.new ≡ 256 }
    ensures cells { rows_cells z.new ≡ cells_union (rows_cells z.old) (placed row col (quad_cells nodes.old q)) }
    ensures reads { ReadsQuads nodes.old nodes.new }
{
    let bottom = nodes.bottom();
    if q.is_empty() {
        return;
    }
    if four.nw.height == bottom {
        spill_blocks(nodes, q, four, z, row, col);
        return;
    }
    let half = side_of_height(four.nw.height) as usize;
    let of_nw = nodes.quarters(four.nw);
    let of_ne = nodes.quarters(four.ne);
    let of_sw = nodes.quarters(four.sw);
    let of_se = nodes.quarters(four.se);
    spill_quarters(nodes, four.nw, of_nw, z, row, col);
    spill_quarters(nodes, four.ne, of_ne, z, row, col + half);
    spill_quarters(nodes, four.sw, of_sw, z, row + half, col);
    spill_quarters(nodes, four.se, of_se, z, row + half, col + half);
}

/// Adds the cells of a quad to rows, from a row and a column on.
pub fn spill_quad(nodes: &mut Nodes, q: Quad, z: &mut [Row], row: usize, col: usize)
    requires stands { QuadStands nodes.old q }
    requires z_len { length z.old ≡ 256 }
    requires row_in { row + side_of q.height ≤ 256 }
    requires col_in { col + side_of q.height ≤ 256 }
    requires col_on { col % 8 ≡ 0 }
    ensures len { length z.new ≡ 256 }
    ensures cells { rows_cells z.new ≡ cells_union (rows_cells z.old) (placed row col (quad_cells nodes.old q)) }
    ensures reads { ReadsQuads nodes.old nodes.new }
{
    let bottom = nodes.bottom();
    if q.height == bottom {
        spill_block(nodes, q, z, row, col);
        return;
    }
    let four = nodes.quarters(q);
    spill_quarters(nodes, q, four, z, row, col);
}
