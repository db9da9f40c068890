//! The recursion, with the operator as an argument.
ghost use Rattle.std.specs.Prelude.{◌≡◌, ◌<◌};
ghost use Rattle.rel_model.specs.Trees.{bottom_height};
ghost use Rattle.rel_model.specs.Quads.{Keeper, QuadStands, quad_cells, quad_room};
ghost use Rattle.quad_nodes.specs.Making.{MakesQuad};
ghost use Rattle.rel_boole.specs.Cellwise.{cells_by};

use crate::ahead::quarters_to_combine;
use crate::blocks::{both_pay, combined_by_blocks};
use crate::cuts::cut_off;
use crate::found::{found_before, op_of};
use crate::leaf::leaf;
use pair_table::Missed;
use quad_nodes::Nodes;
use rel_model::Quad;

/// An operator that works cell by cell. 1 byte.
#[derive(Clone, Copy, Debug, PartialEq, Eq)]
pub enum Boole {
    Union,
    Inter,
    Diff,
}

/// `{(i, j) : op holds of (i, j) in a and (i, j) in b}`: the result of the operator on two quads of one height. Refused
/// only if the table is full.
#[cycle(combining)]
pub fn combined(nodes: &mut Nodes, op: Boole, a: Quad, b: Quad) -> Result<Quad, Missed>
    requires a_stands { QuadStands nodes.old a }
    requires b_stands { QuadStands nodes.old b }
    requires one_height { b.height ≡ a.height }
    ensures { MakesQuad (quad_room a.height) a.height
        (cells_by op (quad_cells nodes.old a) (quad_cells nodes.old b)) nodes.old nodes.new result }
{
    let bottom = nodes.bottom();
    if let Some(found) = cut_off(op, a, b) {
        return Ok(found);
    }
    if a.height == bottom {
        return leaf(nodes, op, a, b);
    }
    combined_over(nodes, op, a, b)
}

/// The same above the blocks: a full operand settles the result, or a noted result is found; otherwise it goes by
/// blocks if both operands are dense squares of 256 rows, and by quarters if not.
#[cycle(combining)]
fn combined_over(nodes: &mut Nodes, op: Boole, a: Quad, b: Quad) -> Result<Quad, Missed>
    requires a_stands { QuadStands nodes.old a }
    requires b_stands { QuadStands nodes.old b }
    requires one_height { b.height ≡ a.height }
    requires over { bottom_height < a.height }
    ensures { MakesQuad (quad_room a.height) a.height
        (cells_by op (quad_cells nodes.old a) (quad_cells nodes.old b)) nodes.old nodes.new result }
{
    if let Some(found) = found_before(nodes, op, a, b) {
        return Ok(found);
    }
    if both_pay(nodes, a, b) {
        return combined_by_blocks(nodes, op, a, b);
    }
    combined_by_quarters(nodes, op, a, b)
}

/// The same by quarters. Notes the result.
#[cycle(combining)]
fn combined_by_quarters(nodes: &mut Nodes, op: Boole, a: Quad, b: Quad) -> Result<Quad, Missed>
    requires a_stands { QuadStands nodes.old a }
    requires b_stands { QuadStands nodes.old b }
    requires one_height { b.height ≡ a.height }
    requires over { bottom_height < a.height }
    ensures { MakesQuad (quad_room a.height) a.height
        (cells_by op (quad_cells nodes.old a) (quad_cells nodes.old b)) nodes.old nodes.new result }
{
    let (of_a, of_b) = quarters_to_combine(nodes, op, a, b);
    let nw = combined(nodes, op, of_a.nw, of_b.nw)?;
    let ne = combined(nodes, op, of_a.ne, of_b.ne)?;
    let sw = combined(nodes, op, of_a.sw, of_b.sw)?;
    let se = combined(nodes, op, of_a.se, of_b.se)?;
    let found = nodes.corner(nw, ne, sw, se)?;
    nodes.note(op_of(op), a, b, found);
    Ok(found)
}
