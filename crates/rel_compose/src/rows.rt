//! The composition by rows of bits, with the result noted.
ghost use Rattle.std.specs.Prelude.{◌≡◌, ◌≤◌};
ghost use Rattle.rel_model.specs.Equations.{side_of};
ghost use Rattle.rel_model.specs.Quads.{Keeper, QuadStands, compose_room};
ghost use Rattle.rel_compose.specs.Products.{IsComposition, Gives};

use memo_laws::Op;
use pair_table::Missed;
use quad_nodes::Nodes;
use rel_model::Quad;
use row_quads::compose_by_rows;

/// The composition of two quads of one height, up to 8, by rows of bits. Notes the result.
pub(crate) fn noted_by_rows(nodes: &mut Nodes, a: Quad, b: Quad) -> Result<Quad, Missed>
    requires a_stands { QuadStands nodes.old a }
    requires b_stands { QuadStands nodes.old b }
    requires one_height { b.height ≡ a.height }
    requires small { side_of a.height ≤ 256 }
    ensures { Gives (compose_room a.height) (IsComposition nodes.old nodes.new a b) nodes.old nodes.new result }
{
    let found = compose_by_rows(nodes, a, b)?;
    nodes.note(Op::Compose, a, b, found);
    Ok(found)
}
