//! A quad joined with a product.
ghost use Rattle.std.specs.Prelude.{◌≡◌, ◌+◌, IfOk};
ghost use Rattle.rel_model.specs.Cells.{cells_union, cells_compose};
ghost use Rattle.rel_model.specs.Equations.{side_of};
ghost use Rattle.rel_model.specs.Quads.{Keeper, QuadStands, IsQuad, quad_cells, KeepsQuads, ReadsQuads, quad_room, compose_room};
ghost use Rattle.fork_quads.specs.Forks.{TellsMisses};

use crate::fork::{Team, compute, cuts_for};
use crate::gate::Gate;
use crate::middle::WHOLE;
use memo_laws::Op;
use pair_table::Missed;
use quad_nodes::Nodes;
use rel_compose::{joined_by_rows, joins_by_rows};
use rel_model::Quad;
use std::thread::Threads;

/// `x | y*z`, of quads of one height: first the product, and then the union.
pub(crate) fn product_then_union<R: Threads, G: Gate>(
    team: &Team<'_, R, G>,
    nodes: &mut Nodes,
    x: Quad,
    y: Quad,
    z: Quad,
) -> Result<Quad, Missed>
    requires x_stands { QuadStands nodes.old x }
    requires y_stands { QuadStands nodes.old y }
    requires z_stands { QuadStands nodes.old z }
    requires y_height { y.height ≡ x.height }
    requires z_height { z.height ≡ x.height }
    ensures value { IfOk result (IsQuad nodes.new x.height (cells_union (quad_cells nodes.old x)
        (cells_compose (side_of x.height) (quad_cells nodes.old y) (quad_cells nodes.old z)))) }
    ensures keeps { KeepsQuads (compose_room x.height + quad_room x.height) nodes.old nodes.new }
    ensures misses { TellsMisses nodes.old nodes.new result }
{
    let product = compute(team, nodes, Op::Compose, y, z, WHOLE)?;
    let both = compute(team, nodes, Op::Union, x, product, WHOLE)?;
    Ok(both)
}

/// Whether `x | y*z` should go by rows of bits: no piece of it would be forked, and `y` and `z` are dense.
fn goes_by_rows<R: Threads, G: Gate>(
    team: &Team<'_, R, G>,
    nodes: &mut Nodes,
    y: Quad,
    z: Quad,
) -> bool
    requires y_stands { QuadStands nodes.old y }
    requires z_stands { QuadStands nodes.old z }
    requires one_height { z.height ≡ y.height }
    ensures reads { ReadsQuads nodes.old nodes.new }
{
    let _ = nodes.bottom();
    if cuts_for(team.workers, y.height, nodes.spare()) != 0 {
        return false;
    }
    joins_by_rows(nodes, y, z)
}

/// `x | y*z`, of quads of one height: in rows of bits if that pays, so that no product is named; otherwise the product
/// and then the union.
pub(crate) fn union_with_product<R: Threads, G: Gate>(
    team: &Team<'_, R, G>,
    nodes: &mut Nodes,
    x: Quad,
    y: Quad,
    z: Quad,
) -> Result<Quad, Missed>
    requires x_stands { QuadStands nodes.old x }
    requires y_stands { QuadStands nodes.old y }
    requires z_stands { QuadStands nodes.old z }
    requires y_height { y.height ≡ x.height }
    requires z_height { z.height ≡ x.height }
    ensures value { IfOk result (IsQuad nodes.new x.height (cells_union (quad_cells nodes.old x)
        (cells_compose (side_of x.height) (quad_cells nodes.old y) (quad_cells nodes.old z)))) }
    ensures keeps { KeepsQuads (compose_room x.height + quad_room x.height) nodes.old nodes.new }
    ensures misses { TellsMisses nodes.old nodes.new result }
{
    if goes_by_rows(team, nodes, y, z) {
        return joined_by_rows(nodes, x, y, z);
    }
    product_then_union(team, nodes, x, y, z)
}
