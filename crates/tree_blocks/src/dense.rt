//! Whether a square is so dense that going by blocks is quicker than by quarters.
ghost use Rattle.std.specs.Prelude.{◌≡◌, true, length};
ghost use Rattle.rel_model.specs.Quads.{Keeper, QuadStands, ReadsQuads};

use quad_nodes::Nodes;
use rel_model::{Quad, Quarters};

/// The weight with which the count of a square begins.
const FIRST: u32 = 12;

/// The weight of a dense square.
const DENSE: u32 = 42;

/// How much an empty square lowers the weight.
const EMPTY: u32 = 4;

/// Adds up a weight over the distinct squares of at least 16 rows under a quad, starting from `weight`: each new square
/// adds 1, and each empty one subtracts `EMPTY`. The walk stops once the weight is that of a dense square, or 0. `seen`
/// is a direct-mapped cache of the names met so far, so a square may be counted twice.
fn weighed_under(nodes: &mut Nodes, q: Quad, seen: &mut [u32], weight: u32) -> u32
    requires stands { QuadStands nodes.old q }
    requires places { length seen.old ≡ 256 }
    ensures same_places { length seen.new ≡ 256 }
    ensures reads { ReadsQuads nodes.old nodes.new }
{
    // This use makes the checker open the invariant of `nodes`, which the early returns below need.
    let _ = nodes.bottom();
    if weight == 0 || weight >= DENSE {
        return weight;
    }
    if q.is_empty() {
        return weight.saturating_sub(EMPTY);
    }
    let place = (q.name % 256) as usize;
    if seen[place] == q.name {
        return weight;
    }
    seen[place] = q.name;
    if q.height < 5 {
        return weight + 1;
    }
    let Quarters { nw, ne, sw, se } = nodes.quarters(q);
    let first = weighed_under(nodes, nw, seen, weight + 1);
    let second = weighed_under(nodes, ne, seen, first);
    let third = weighed_under(nodes, sw, seen, second);
    weighed_under(nodes, se, seen, third)
}

/// Whether going by blocks is quicker for a quad: it is a square of 256 rows with many different squares under it and
/// few empty ones. This is a guess; no result depends on it.
///
/// Keeping this a separate call puts its array on the stack once, not in each frame of a recursion.
#[inline(never)]
pub fn blocks_pay(nodes: &mut Nodes, q: Quad) -> bool
    requires stands { QuadStands nodes.old q }
    ensures rows { result ≡ true → q.height ≡ 8 }
    ensures reads { ReadsQuads nodes.old nodes.new }
{
    let _ = nodes.bottom();
    if q.height != 8 {
        return false;
    }
    let mut seen = [0; 256];
    weighed_under(nodes, q, &mut seen, FIRST) >= DENSE
}
