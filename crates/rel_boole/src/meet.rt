//! Whether two quads have a cell in common: a walk by quarters that stops at the first common cell.
ghost use Rattle.std.specs.Prelude.{◌≡◌, ◌<◌, ◌↔◌, false};
ghost use Rattle.rel_model.specs.Cells.{no_cells, cells_inter};
ghost use Rattle.rel_model.specs.Trees.{bottom_height};
ghost use Rattle.rel_model.specs.Quads.{Keeper, QuadStands, quad_cells, ReadsQuads};

use crate::boole::Boole;
use crate::cuts::cut_off;
use crate::found::found_before;
use crate::leaf::block_by;
use memo_laws::Op;
use quad_nodes::Nodes;
use rel_model::Quad;

/// Whether two quads of the height of blocks have a cell in common.
fn blocks_meet(nodes: &mut Nodes, a: Quad, b: Quad) -> bool
    requires a_stands { QuadStands nodes.old a }
    requires b_stands { QuadStands nodes.old b }
    requires a_bottom { a.height ≡ bottom_height }
    requires b_bottom { b.height ≡ bottom_height }
    ensures value { (result ≡ false) ↔ (cells_inter (quad_cells nodes.old a) (quad_cells nodes.old b) ≡ no_cells) }
    ensures reads { ReadsQuads nodes.old nodes.new }
{
    let first = nodes.bits(a);
    let second = nodes.bits(b);
    let common = block_by(Boole::Inter, first, second);
    common != 0
}

/// `(i, j) in a and (i, j) in b` for some i and j: whether two quads of one height have a cell in common.
///
/// It makes no node and takes no memory. If there is no common cell, it notes that the intersection is empty, so that
/// each pair of nodes is walked only once.
#[cycle(meeting)]
pub fn quads_meet(nodes: &mut Nodes, a: Quad, b: Quad) -> bool
    requires a_stands { QuadStands nodes.old a }
    requires b_stands { QuadStands nodes.old b }
    requires one_height { b.height ≡ a.height }
    ensures value { (result ≡ false) ↔ (cells_inter (quad_cells nodes.old a) (quad_cells nodes.old b) ≡ no_cells) }
    ensures reads { ReadsQuads nodes.old nodes.new }
{
    let bottom = nodes.bottom();
    if let Some(common) = cut_off(Boole::Inter, a, b) {
        return !common.is_empty();
    }
    if a.height == bottom {
        return blocks_meet(nodes, a, b);
    }
    meet_over(nodes, a, b)
}

/// The same above the blocks: a full operand settles the answer, or a noted result is found.
#[cycle(meeting)]
fn meet_over(nodes: &mut Nodes, a: Quad, b: Quad) -> bool
    requires a_stands { QuadStands nodes.old a }
    requires b_stands { QuadStands nodes.old b }
    requires one_height { b.height ≡ a.height }
    requires over { bottom_height < a.height }
    ensures value { (result ≡ false) ↔ (cells_inter (quad_cells nodes.old a) (quad_cells nodes.old b) ≡ no_cells) }
    ensures reads { ReadsQuads nodes.old nodes.new }
{
    if let Some(common) = found_before(nodes, Boole::Inter, a, b) {
        return !common.is_empty();
    }
    meet_by_quarters(nodes, a, b)
}

/// The same by quarters, up to the first two that meet. If none do, this is noted.
#[cycle(meeting)]
fn meet_by_quarters(nodes: &mut Nodes, a: Quad, b: Quad) -> bool
    requires a_stands { QuadStands nodes.old a }
    requires b_stands { QuadStands nodes.old b }
    requires one_height { b.height ≡ a.height }
    requires over { bottom_height < a.height }
    ensures value { (result ≡ false) ↔ (cells_inter (quad_cells nodes.old a) (quad_cells nodes.old b) ≡ no_cells) }
    ensures reads { ReadsQuads nodes.old nodes.new }
{
    let (of_a, of_b) = nodes.quarters_of_both(a, b);
    if quads_meet(nodes, of_a.nw, of_b.nw) {
        return true;
    }
    if quads_meet(nodes, of_a.ne, of_b.ne) {
        return true;
    }
    if quads_meet(nodes, of_a.sw, of_b.sw) {
        return true;
    }
    if quads_meet(nodes, of_a.se, of_b.se) {
        return true;
    }
    nodes.note(Op::Inter, a, b, Quad::empty(a.height));
    false
}
