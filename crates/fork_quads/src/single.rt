//! A single cell: its block, and the corners above it.
ghost use Rattle.std.specs.Prelude.{◌≡◌, ◌<◌, ◌≤◌, ◌-◌, ◌&&◌, cond, nat_lt, IfOk};
ghost use Rattle.rel_model.specs.Cells.{block_cells};
ghost use Rattle.rel_model.specs.Trees.{bottom_height, top_height};
ghost use Rattle.rel_model.specs.Equations.{side_of};
ghost use Rattle.rel_model.specs.Quads.{Keeper, IsQuad, KeepsQuads, Counts, quad_room};
ghost use Rattle.fork_quads.specs.Crew.{one_cell, placed as placed_quad};

use pair_table::Missed;
use quad_nodes::{Nodes, side_of_height};
use rel_model::Quad;

/// The block of one cell.
fn one_bit(i: u32, j: u32) -> u64
    requires row { i < 8 }
    requires col { j < 8 }
    ensures { block_cells result ≡ one_cell i j }
{
    1 << (8 * i + j)
}

/// The place of a row or column within its half.
fn in_half(place: u32, half: u32) -> u32
    ensures { result ≡ cond (nat_lt place half) place (place - half) }
{
    if place < half { place } else { place - half }
}

/// The quad if both hold, and otherwise the empty one.
fn placed(row: bool, col: bool, quad: Quad) -> Quad
    ensures { result ≡ placed_quad (row && col) quad }
{
    if row && col {
        quad
    } else {
        Quad::empty(quad.height)
    }
}

/// `{(i, j)}`, in the square of a height, which must hold the cell.
pub(crate) fn single_quad(nodes: &mut Nodes, height: u8, i: u32, j: u32) -> Result<Quad, Missed>
    requires low { bottom_height ≤ height }
    requires high { height ≤ top_height }
    requires row { i < side_of height }
    requires col { j < side_of height }
    ensures value { IfOk result (IsQuad nodes.new height (one_cell i j)) }
    ensures keeps { KeepsQuads (quad_room height) nodes.old nodes.new }
    ensures counts { Counts nodes.old nodes.new result }
{
    let bottom = nodes.bottom();
    if height == bottom {
        return nodes.block(one_bit(i, j));
    }
    let half = side_of_height(height - 1);
    let one = single_quad(nodes, height - 1, in_half(i, half), in_half(j, half))?;
    let (north, west) = (i < half, j < half);
    nodes.corner(
        placed(north, west, one),
        placed(north, !west, one),
        placed(!north, west, one),
        placed(!north, !west, one),
    )
}
