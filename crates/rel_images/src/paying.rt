//! Whether a walk pays, estimated from a sample. No result depends on it.
ghost use Rattle.std.specs.Prelude.{◌≡◌, ◌⊎◌, length};
ghost use Rattle.rel_model.specs.Worker.{HasQuad};
ghost use Rattle.rel_steps.specs.Reading.{OnlyReads};

use rel_model::quads_trait::Quads;
use rel_model::{Quad, Quarters};

/// A walk pays only for a relation that reaches at least this many heights above its leaves.
const LEAST_DEPTH: u8 = 6;

/// A sample leaves out this many of the lowest heights: that low, there are few distinct quads with a single pair.
const LOW_DEPTH: u8 = 3;

/// How many random descents a sample makes.
const DESCENTS: u32 = 48;

/// What a sample met: how many quads, and how many of them for the first time. 8 bytes.
#[derive(Clone, Copy, Debug)]
struct Met {
    quads: u32,
    fresh: u32,
}

/// The next pseudo-random number.
fn next(state: u64) -> u64 {
    state
        .wrapping_mul(6364136223846793005)
        .wrapping_add(1442695040888963407)
}

/// The quarter at a place, or another one if that is empty.
fn picked(nw: Quad, ne: Quad, sw: Quad, se: Quad, place: u64) -> Quad
    ensures { (result ≡ nw) ⊎ (result ≡ ne) ⊎ (result ≡ sw) ⊎ (result ≡ se) }
{
    let first = match place {
        0 => nw,
        1 => ne,
        2 => sw,
        _ => se,
    };
    if !first.is_empty() {
        return first;
    }
    if !nw.is_empty() {
        return nw;
    }
    if !ne.is_empty() {
        return ne;
    }
    if !sw.is_empty() {
        return sw;
    }
    se
}

/// Adds a quad to what was met, unless it is so high that there are few others of its height. `seen` is a direct-mapped
/// cache of the names met so far, so a quad may be counted twice.
fn counted(met: Met, seen: &mut [u32], quad: Quad, from: u8) -> Met
    requires { length seen.old ≡ 1024 }
    ensures { length seen.new ≡ 1024 }
{
    if quad.height > from {
        return met;
    }
    let place = (quad.name % 1024) as usize;
    let quads = met.quads.saturating_add(1);
    if seen[place] == quad.name {
        return Met {
            quads,
            fresh: met.fresh,
        };
    }
    seen[place] = quad.name;
    Met {
        quads,
        fresh: met.fresh.saturating_add(1),
    }
}

/// Descends from a quad to one of a low height, choosing a random quarter at each step, and counts the quads on the
/// way.
fn descent<Q: Quads>(
    q: &mut Q,
    quad: Quad,
    low: u8,
    from: u8,
    chance: u64,
    seen: &mut [u32],
    met: Met,
) -> Met
    requires stands { HasQuad (Q.worker q.old) quad }
    requires places { length seen.old ≡ 1024 }
    ensures same_places { length seen.new ≡ 1024 }
    ensures reads { OnlyReads (Q.worker q.old) (Q.worker q.new) }
{
    if quad.is_empty() {
        return met;
    }
    let now = counted(met, seen, quad, from);
    if quad.height <= low {
        return now;
    }
    if quad.height == q.bottom() {
        return now;
    }
    let Quarters { nw, ne, sw, se } = q.quarters(quad);
    let next = picked(nw, ne, sw, se, chance % 4);
    descent(q, next, low, from, chance / 4, seen, now)
}

/// Whether many of the quads that a sample meets are distinct.
///
/// Keeping this a separate call puts its array on the stack once, not in each frame of a recursion.
#[inline(never)]
fn is_scattered<Q: Quads>(q: &mut Q, quad: Quad, low: u8, from: u8) -> bool
    requires stands { HasQuad (Q.worker q.old) quad }
    ensures reads { OnlyReads (Q.worker q.old) (Q.worker q.new) }
{
    let mut seen = [0; 1024];
    let mut met = Met { quads: 0, fresh: 0 };
    let mut chance = 1;
    'descents: for _ in 0..DESCENTS {
        chance = next(chance);
        met = descent(q, quad, low, from, chance >> 16, &mut seen, met);
    }
    met.fresh > met.quads / 3
}

/// Whether walking a relation's tree with a line pays: both have pairs, and the tree is high and scattered.
pub(crate) fn pays<Q: Quads>(q: &mut Q, line: Quad, quad: Quad) -> bool
    requires stands { HasQuad (Q.worker q.old) quad }
    ensures reads { OnlyReads (Q.worker q.old) (Q.worker q.new) }
{
    let bottom = q.bottom();
    if line.is_empty() || quad.is_empty() {
        return false;
    }
    if quad.height < bottom || quad.height - bottom < LEAST_DEPTH {
        return false;
    }
    is_scattered(q, quad, bottom + LOW_DEPTH, quad.height - 3)
}
