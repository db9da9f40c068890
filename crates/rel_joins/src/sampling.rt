//! A random sample of a tree: whether it is scattered, and how many pairs it may have. No result depends on it.
ghost use Rattle.std.specs.Prelude.{◌≡◌, ◌⊎◌, length};
ghost use Rattle.rel_model.specs.Worker.{HasQuad};
ghost use Rattle.rel_steps.specs.Reading.{OnlyReads};

use rel_model::quads_trait::Quads;
use rel_model::{Quad, Quarters};

/// A sample looks only at quads that are at least this many heights above the leaves: that low, there are few distinct
/// quads with a single pair.
const LOW_DEPTH: u8 = 3;

/// A sample leaves out this many of the greatest heights, since there are few quads so high.
const HIGH_DEPTH: u8 = 3;

/// How many random descents a sample makes.
const DESCENTS: u64 = 64;

/// What a sample met: how many quads of the heights that it looks at, how many of them for the first time, and the sum
/// of what each descent takes for the number of pairs. 16 bytes.
#[derive(Clone, Copy, Debug)]
pub(crate) struct Sample {
    quads: u32,
    fresh: u32,
    pairs: u64,
}

impl Sample {
    /// Whether many of the quads are distinct.
    pub(crate) fn is_scattered(self) -> bool {
        self.fresh > self.quads / 3
    }

    /// How many pairs the tree may have.
    pub(crate) fn pairs(self) -> u64 {
        self.pairs / DESCENTS
    }
}

/// The next pseudo-random number.
fn next(state: u64) -> u64 {
    state
        .wrapping_mul(6364136223846793005)
        .wrapping_add(1442695040888963407)
}

/// The quarter at a place, or another one if that is empty.
fn picked(nw: Quad, ne: Quad, sw: Quad, se: Quad, place: u64) -> Quad
    ensures { (result ≡ nw) ⊎ (result ≡ ne) ⊎ (result ≡ sw) ⊎ (result ≡ se) }
{
    let first = match place {
        0 => nw,
        1 => ne,
        2 => sw,
        _ => se,
    };
    if !first.is_empty() {
        return first;
    }
    if !nw.is_empty() {
        return nw;
    }
    if !ne.is_empty() {
        return ne;
    }
    if !sw.is_empty() {
        return sw;
    }
    se
}

/// How many of the four quarters are not empty.
fn filled(nw: Quad, ne: Quad, sw: Quad, se: Quad) -> u64 {
    u64::from(!nw.is_empty())
        + u64::from(!ne.is_empty())
        + u64::from(!sw.is_empty())
        + u64::from(!se.is_empty())
}

/// Adds a quad to what was met. `seen` is a direct-mapped cache of the names met so far, so a quad may be counted
/// twice.
fn counted(met: Sample, seen: &mut [u32], quad: Quad) -> Sample
    requires { length seen.old ≡ 1024 }
    ensures { length seen.new ≡ 1024 }
{
    let place = (quad.name % 1024) as usize;
    let mut now = met;
    now.quads = met.quads.saturating_add(1);
    if seen[place] != quad.name {
        seen[place] = quad.name;
        now.fresh = met.fresh.saturating_add(1);
    }
    now
}

/// Descends from a quad to a leaf, choosing a random quarter at each step. `weight` is the product of the numbers of
/// quarters to choose from so far. Quads up to height `high` are counted.
fn descent<Q: Quads>(
    q: &mut Q,
    quad: Quad,
    high: u8,
    weight: u64,
    chance: u64,
    seen: &mut [u32],
    met: Sample,
) -> Sample
    requires stands { HasQuad (Q.worker q.old) quad }
    requires places { length seen.old ≡ 1024 }
    ensures same_places { length seen.new ≡ 1024 }
    ensures reads { OnlyReads (Q.worker q.old) (Q.worker q.new) }
{
    if quad.is_empty() {
        return met;
    }
    let bottom = q.bottom();
    if quad.height == bottom {
        let pairs = weight.saturating_mul(u64::from(q.bits(quad).count_ones()));
        let mut now = met;
        now.pairs = met.pairs.saturating_add(pairs);
        return now;
    }
    let mut now = met;
    if quad.height <= high && quad.height - bottom >= LOW_DEPTH {
        now = counted(met, seen, quad);
    }
    let Quarters { nw, ne, sw, se } = q.quarters(quad);
    let weight = weight.saturating_mul(filled(nw, ne, sw, se));
    let quarter = picked(nw, ne, sw, se, chance % 4);
    descent(q, quarter, high, weight, chance / 4, seen, now)
}

/// Samples the tree of a quad.
///
/// Keeping this a separate call puts its array on the stack once, not in each frame of a recursion.
#[inline(never)]
pub(crate) fn sampled<Q: Quads>(q: &mut Q, quad: Quad) -> Sample
    requires stands { HasQuad (Q.worker q.old) quad }
    ensures reads { OnlyReads (Q.worker q.old) (Q.worker q.new) }
{
    let high = quad.height.saturating_sub(HIGH_DEPTH);
    let mut seen = [0; 1024];
    let mut met = Sample {
        quads: 0,
        fresh: 0,
        pairs: 0,
    };
    let mut chance = 1;
    'descents: for _ in 0..DESCENTS {
        chance = next(chance);
        met = descent(q, quad, high, 1, chance >> 16, &mut seen, met);
    }
    met
}
