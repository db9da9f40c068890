//! The quarters of two quads, with prefetching of what the recursion reads first.
ghost use Rattle.std.specs.Prelude.{◌≡◌, ◌<◌};
ghost use Rattle.rel_model.specs.Trees.{bottom_height};
ghost use Rattle.rel_model.specs.Quads.{Keeper, QuadStands, AreQuarters, ReadsQuads};

use crate::boole::Boole;
use crate::found::op_of;
use quad_nodes::Nodes;
use rel_model::{Quad, Quarters};

/// Reads the memo word of two quads above the blocks, so that looking it up later need not wait.
#[inline(always)]
fn look_ahead(nodes: &mut Nodes, op: Boole, a: Quad, b: Quad)
    requires a_stands { QuadStands nodes.old a }
    requires b_stands { QuadStands nodes.old b }
    requires one_height { b.height ≡ a.height }
    ensures reads { ReadsQuads nodes.old nodes.new }
{
    let bottom = nodes.bottom();
    if a.height == bottom {
        return;
    }
    nodes.look(op_of(op), a, b);
}

/// Reads what the recursion on two quads reads first, unless the result follows at once.
#[inline(always)]
fn read_ahead(nodes: &mut Nodes, op: Boole, a: Quad, b: Quad)
    requires a_stands { QuadStands nodes.old a }
    requires b_stands { QuadStands nodes.old b }
    requires one_height { b.height ≡ a.height }
    ensures reads { ReadsQuads nodes.old nodes.new }
{
    // This use makes the checker open the invariant of `nodes`, which the early return below needs.
    let _ = nodes.bottom();
    if a.is_empty() || b.is_empty() || a.name == b.name {
        return;
    }
    nodes.read_ahead(a);
    nodes.read_ahead(b);
    look_ahead(nodes, op, a, b);
}

/// The quarters of two quads. What the recursion reads first of each two quarters is read in one go, so that these
/// reads wait neither for one another nor for words that are placed meanwhile.
#[inline(always)]
pub fn quarters_to_combine(nodes: &mut Nodes, op: Boole, a: Quad, b: Quad) -> (Quarters, Quarters)
    requires a_stands { QuadStands nodes.old a }
    requires b_stands { QuadStands nodes.old b }
    requires one_height { b.height ≡ a.height }
    requires over { bottom_height < a.height }
    ensures first { AreQuarters nodes.old nodes.new a result.0 }
    ensures second { AreQuarters nodes.old nodes.new b result.1 }
    ensures reads { ReadsQuads nodes.old nodes.new }
{
    let of_a = nodes.quarters(a);
    let of_b = nodes.quarters(b);
    read_ahead(nodes, op, of_a.nw, of_b.nw);
    read_ahead(nodes, op, of_a.ne, of_b.ne);
    read_ahead(nodes, op, of_a.sw, of_b.sw);
    read_ahead(nodes, op, of_a.se, of_b.se);
    (of_a, of_b)
}
