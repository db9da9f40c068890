//! The squares of a composition by sums of rows, each on its own.
ghost use Rattle.std.specs.Prelude.{◌≡◌, ◌≤◌, ◌+◌, ◌-◌, IfOk};
ghost use Rattle.rel_model.specs.Trees.{bottom_height, top_height};
ghost use Rattle.rel_model.specs.Quads.{Keeper, QuadStands, IsQuad, KeepsQuads, Counts, quad_room};
ghost use Rattle.fork_quads.specs.Forks.{first_at, south, east, product_of};

use crate::pieces::{picked, place};
use pair_table::Missed;
use quad_nodes::{Nodes, side_of_height};
use rel_compose::compose_window;
use rel_model::Quad;

/// The first row and the first column of the square with this number, in the square of a height after this many cuts.
fn first_of(height: u8, cuts: u8, number: u32) -> (u32, u32)
    requires deep { bottom_height + cuts ≤ height }
    requires high { height ≤ top_height }
    ensures row { result.0 ≡ first_at south height cuts number }
    ensures col { result.1 ≡ first_at east height cuts number }
{
    if cuts == 0 {
        return (0, 0);
    }
    let half = side_of_height(height - 1);
    let k = place(cuts - 1, number);
    let (row, col) = first_of(height - 1, cuts - 1, number);
    let down = picked(0, 0, half, half, k);
    let across = picked(0, half, 0, half, k);
    (down + row, across + col)
}

/// The square of a composition with this number, by sums of rows.
pub(crate) fn window_part(
    nodes: &mut Nodes,
    a: Quad,
    b: Quad,
    cuts: u8,
    number: u32,
) -> Result<Quad, Missed>
    requires a_stands { QuadStands nodes.old a }
    requires b_stands { QuadStands nodes.old b }
    requires one_height { b.height ≡ a.height }
    requires tall { 8 + cuts ≤ a.height }
    ensures value { IfOk result (IsQuad nodes.new (a.height - cuts) (product_of nodes.old a b cuts number)) }
    ensures keeps { KeepsQuads (quad_room (a.height - cuts)) nodes.old nodes.new }
    ensures counts { Counts nodes.old nodes.new result }
{
    let _ = nodes.bottom();
    let (row, col) = first_of(a.height, cuts, number);
    compose_window(nodes, a, b, a.height - cuts, row, col)
}
