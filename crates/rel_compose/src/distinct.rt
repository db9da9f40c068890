//! How many distinct quads are under a quad.
ghost use Rattle.std.specs.Prelude.{◌≡◌, ◌<◌, ◌≤◌, length};
ghost use Rattle.rel_model.specs.Quads.{Keeper, QuadStands, ReadsQuads};

use quad_nodes::Nodes;
use rel_model::{Quad, Quarters};

/// Puts a name into a direct-mapped cache of the names met so far. Whether it was not there; a name met before may have
/// been displaced.
#[inline(always)]
pub(crate) fn is_new(seen: &mut [u32], name: u32) -> bool
    requires some { 0 < length seen.old }
    ensures same { length seen.new ≡ length seen.old }
{
    let place = name as usize & (seen.len() - 1);
    if seen[place] == name {
        return false;
    }
    seen[place] = name;
    true
}

/// Counts distinct quads of at least a height from `q` down, adding to `met`, and stops at `most`. `seen` is a cache of
/// the names met so far, of any size that is a power of two; a quad may be counted twice.
pub fn distinct_under(
    nodes: &mut Nodes,
    q: Quad,
    least: u8,
    seen: &mut [u32],
    met: u32,
    most: u32,
) -> u32
    requires stands { QuadStands nodes.old q }
    requires some { 0 < length seen.old }
    ensures same { length seen.new ≡ length seen.old }
    ensures few { met ≤ most → result ≤ most }
    ensures reads { ReadsQuads nodes.old nodes.new }
{
    let bottom = nodes.bottom();
    if q.is_empty() || met >= most {
        return met;
    }
    if !is_new(seen, q.name) {
        return met;
    }
    if q.height == bottom || q.height <= least {
        return met + 1;
    }
    let Quarters { nw, ne, sw, se } = nodes.quarters(q);
    let first = distinct_under(nodes, nw, least, seen, met + 1, most);
    let second = distinct_under(nodes, ne, least, seen, first, most);
    let third = distinct_under(nodes, sw, least, seen, second, most);
    distinct_under(nodes, se, least, seen, third, most)
}

/// Whether at least `least` distinct quads are under a quad.
///
/// Keeping this a separate call puts its array on the stack once, not in each frame of a recursion.
#[inline(never)]
pub(crate) fn has_distinct(nodes: &mut Nodes, q: Quad, least: u32) -> bool
    requires stands { QuadStands nodes.old q }
    ensures reads { ReadsQuads nodes.old nodes.new }
{
    let mut seen = [0; 256];
    distinct_under(nodes, q, 0, &mut seen, 0, least) >= least
}
