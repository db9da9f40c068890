//! Whether the two halves of the middle are lighter than the whole, judged by the quads under them.
ghost use Rattle.std.specs.Prelude.{◌≤◌, ◌*◌};
ghost use Rattle.rel_model.specs.Quads.{Keeper, QuadStands, ReadsQuads};
ghost use Rattle.fork_quads.specs.Middle.{AreStanding};

use quad_nodes::Nodes;
use rel_compose::distinct_under;
use rel_model::Quad;

/// How many quads are counted at most.
const MOST_COUNTED: u32 = 16384;

/// How many quads of at least a height are under a quad, counted up to 16384. Keeping this a separate call puts its
/// array on the stack once.
#[inline(never)]
fn weight(nodes: &mut Nodes, q: Quad, least: u8) -> u64
    requires stands { QuadStands nodes.old q }
    ensures few { result ≤ 16384 }
    ensures reads { ReadsQuads nodes.old nodes.new }
{
    let mut seen = [0; 16384];
    distinct_under(nodes, q, least, &mut seen, 0, MOST_COUNTED) as u64
}

/// The product of the weights of two quads.
fn weights(nodes: &mut Nodes, a: Quad, b: Quad, least: u8) -> u64
    requires a_stands { QuadStands nodes.old a }
    requires b_stands { QuadStands nodes.old b }
    ensures few { result ≤ 16384 * 16384 }
    ensures reads { ReadsQuads nodes.old nodes.new }
{
    let first = weight(nodes, a, least);
    let second = weight(nodes, b, least);
    first * second
}

/// Whether both halves together have at most half as many pairs of quads as the whole.
pub(crate) fn lighter(
    nodes: &mut Nodes,
    whole: (Quad, Quad),
    first: (Quad, Quad),
    second: (Quad, Quad),
    least: u8,
) -> bool
    requires whole_stands { AreStanding nodes.old whole }
    requires first_stands { AreStanding nodes.old first }
    requires second_stands { AreStanding nodes.old second }
    ensures reads { ReadsQuads nodes.old nodes.new }
{
    let of_whole = weights(nodes, whole.0, whole.1, least);
    let of_first = weights(nodes, first.0, first.1, least);
    let of_second = weights(nodes, second.0, second.1, least);
    2 * (of_first + of_second) <= of_whole
}
