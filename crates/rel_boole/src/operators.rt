//! The three operators.
ghost use Rattle.std.specs.Prelude.{◌≡◌};
ghost use Rattle.rel_model.specs.Cells.{cells_union, cells_inter, cells_diff};
ghost use Rattle.rel_model.specs.Quads.{Keeper, QuadStands, quad_cells, quad_room};
ghost use Rattle.quad_nodes.specs.Making.{MakesQuad};

use crate::boole::{Boole, combined};
use pair_table::Missed;
use quad_nodes::Nodes;
use rel_model::Quad;

/// `{(i, j) : (i, j) in a or (i, j) in b}`: the union of two quads of one height. Refused only if the table is full.
pub fn union_quads(nodes: &mut Nodes, a: Quad, b: Quad) -> Result<Quad, Missed>
    requires a_stands { QuadStands nodes.old a }
    requires b_stands { QuadStands nodes.old b }
    requires one_height { b.height ≡ a.height }
    ensures { MakesQuad (quad_room a.height) a.height
        (cells_union (quad_cells nodes.old a) (quad_cells nodes.old b)) nodes.old nodes.new result }
{
    combined(nodes, Boole::Union, a, b)
}

/// `{(i, j) : (i, j) in a and (i, j) in b}`: the intersection of two quads of one height. Refused only if the table is
/// full.
pub fn inter_quads(nodes: &mut Nodes, a: Quad, b: Quad) -> Result<Quad, Missed>
    requires a_stands { QuadStands nodes.old a }
    requires b_stands { QuadStands nodes.old b }
    requires one_height { b.height ≡ a.height }
    ensures { MakesQuad (quad_room a.height) a.height
        (cells_inter (quad_cells nodes.old a) (quad_cells nodes.old b)) nodes.old nodes.new result }
{
    combined(nodes, Boole::Inter, a, b)
}

/// `{(i, j) : (i, j) in a and not (i, j) in b}`: the difference of two quads of one height. Refused only if the table
/// is full.
pub fn diff_quads(nodes: &mut Nodes, a: Quad, b: Quad) -> Result<Quad, Missed>
    requires a_stands { QuadStands nodes.old a }
    requires b_stands { QuadStands nodes.old b }
    requires one_height { b.height ≡ a.height }
    ensures { MakesQuad (quad_room a.height) a.height
        (cells_diff (quad_cells nodes.old a) (quad_cells nodes.old b)) nodes.old nodes.new result }
{
    combined(nodes, Boole::Diff, a, b)
}
