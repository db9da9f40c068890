//! Blocks, combined by one operation on words.
ghost use Rattle.std.specs.Prelude.{◌≡◌};
ghost use Rattle.rel_model.specs.Cells.{block_cells};
ghost use Rattle.rel_model.specs.Trees.{bottom_height};
ghost use Rattle.rel_model.specs.Quads.{Keeper, QuadStands, quad_cells};
ghost use Rattle.quad_nodes.specs.Making.{MakesQuad};
ghost use Rattle.rel_boole.specs.Cellwise.{cells_by};

use crate::boole::Boole;
use leaf_block::{block_diff, block_inter, block_union};
use pair_table::Missed;
use quad_nodes::Nodes;
use rel_model::Quad;

/// `{(i, j) : op holds of (i, j) in a and (i, j) in b}` for two blocks.
pub fn block_by(op: Boole, a: u64, b: u64) -> u64
    ensures { block_cells result ≡ cells_by op (block_cells a) (block_cells b) }
{
    match op {
        Boole::Union => block_union(a, b),
        Boole::Inter => block_inter(a, b),
        Boole::Diff => block_diff(a, b),
    }
}

/// The same for two quads of the height of blocks. Refused only if the table is full.
pub fn leaf(nodes: &mut Nodes, op: Boole, a: Quad, b: Quad) -> Result<Quad, Missed>
    requires a_stands { QuadStands nodes.old a }
    requires b_stands { QuadStands nodes.old b }
    requires a_bottom { a.height ≡ bottom_height }
    requires b_bottom { b.height ≡ bottom_height }
    ensures { MakesQuad 1 bottom_height
        (cells_by op (quad_cells nodes.old a) (quad_cells nodes.old b)) nodes.old nodes.new result }
{
    let first = nodes.bits(a);
    let second = nodes.bits(b);
    nodes.block(block_by(op, first, second))
}
