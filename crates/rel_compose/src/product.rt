//! Products without recursion: of blocks, and of full squares.
ghost use Rattle.std.specs.Prelude.{◌≡◌, true, IfOk};
ghost use Rattle.rel_model.specs.Cells.{cells_compose};
ghost use Rattle.rel_model.specs.Trees.{bottom_height};
ghost use Rattle.rel_model.specs.Equations.{side_of};
ghost use Rattle.rel_model.specs.Quads.{Keeper, QuadStands, IsQuad, quad_cells, KeepsQuads, ReadsQuads, Counts};
ghost use Rattle.quad_nodes.specs.Finding.{FindsQuad};
ghost use Rattle.rel_compose.specs.Products.{IsComposition, IsFull};

use leaf_block::block_compose;
use pair_table::Missed;
use quad_nodes::Nodes;
use rel_model::Quad;

/// `{(i, k) : (i, j) in a and (j, k) in b for some j}` of two quads of the height of blocks, where the recursion ends.
/// Refused only if the table is full.
pub fn leaf(nodes: &mut Nodes, a: Quad, b: Quad) -> Result<Quad, Missed>
    requires a_stands { QuadStands nodes.old a }
    requires b_stands { QuadStands nodes.old b }
    requires a_bottom { a.height ≡ bottom_height }
    requires b_bottom { b.height ≡ bottom_height }
    ensures value { IfOk result (IsQuad nodes.new bottom_height
        (cells_compose (side_of bottom_height) (quad_cells nodes.old a) (quad_cells nodes.old b))) }
    ensures stood { FindsQuad nodes.old nodes.new bottom_height
        (cells_compose (side_of bottom_height) (quad_cells nodes.old a) (quad_cells nodes.old b)) result }
    ensures keeps { KeepsQuads 1 nodes.old nodes.new }
    ensures counts { Counts nodes.old nodes.new result }
{
    let first = nodes.bits(a);
    let second = nodes.bits(b);
    nodes.block(block_compose(first, second))
}

/// Whether both operands are full squares, so that their composition is `a`.
pub fn both_full(nodes: &mut Nodes, a: Quad, b: Quad) -> bool
    requires a_stands { QuadStands nodes.old a }
    requires b_stands { QuadStands nodes.old b }
    requires one_height { b.height ≡ a.height }
    ensures full { result ≡ true → IsComposition nodes.old nodes.new a b a }
    ensures only_full { IsFull nodes.old a → IsFull nodes.old b → result ≡ true }
    ensures reads { ReadsQuads nodes.old nodes.new }
{
    if !nodes.is_full(a) {
        return false;
    }
    nodes.is_full(b)
}
