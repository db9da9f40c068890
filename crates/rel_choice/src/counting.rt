//! The number of pairs of a relation.
ghost use Rattle.std.specs.Prelude.{◌≡◌, ◌<◌, IfOk, OnErr};
ghost use Rattle.std.specs.HashMap.{get};
ghost use Rattle.rel_model.specs.Choice.{count as count_of};
ghost use Rattle.rel_model.specs.Roots.{height_over};
ghost use Rattle.rel_model.specs.Worker.{Stands, set_of, HasQuad, Keeps, MakesAtMost, MissesNothing};
ghost use Rattle.rel_choice.specs.Counts.{quad_count, same_key, AreCounts};

use rel_model::quads_trait::Quads;
use rel_model::{NoMemory, Quad, Quarters, Rel};
use std::alloc::Global;
use std::collections::HashMap;

/// Once so many sums are remembered, only those of each third height are.
const MANY: usize = 4096;

/// How many pairs a relation has, as a sum over a shared tree that remembers the sums of its parts (Knuth). The empty
/// relation, and one whose tree is a leaf, take no memory. Refused only if memory runs out.
pub fn count<Q: Quads>(alloc: Global, q: &mut Q, r: Rel) -> Result<u64, NoMemory>
    requires { Stands (Q.worker q.old) r }
    ensures value { IfOk result (λ n. n ≡ count_of (set_of (Q.worker q.old) r)) }
    ensures keeps { Keeps (Q.worker q.old) (Q.worker q.new) }
    ensures room { MakesAtMost 0 (Q.worker q.old) (Q.worker q.new) }
    ensures misses { MissesNothing (Q.worker q.old) (Q.worker q.new) }
    ensures some { OnErr result (0 < count_of (set_of (Q.worker q.old) r)) }
    ensures over { OnErr result (Q.least < height_over Q.least r.rows r.cols) }
{
    let quad = q.root(r);
    let mut counts = HashMap::new(alloc);
    counted(q, &mut counts, quad)
}

/// Whether the sum of a quad of this height need not be remembered beside so many others. A large tree has most of its
/// quads once, and to look for a sum takes longer than to open a few quads; a small one is remembered whole.
fn is_passed_over(remembered: usize, height: u8) -> bool {
    remembered > MANY && height % 3 != 0
}

/// How many cells a quad has. A quad whose sum is remembered is opened once, and each other one for the quads that are
/// opened over it, up to the next height at which sums are remembered.
#[cycle(counted)]
fn counted<Q: Quads>(
    q: &mut Q,
    counts: &mut HashMap<(u8, u32), u64>,
    quad: Quad,
) -> Result<u64, NoMemory>
    requires stands { HasQuad (Q.worker q.old) quad }
    requires known { AreCounts (Q.worker q.old) (get same_key counts.old) }
    ensures value { IfOk result (λ n. n ≡ quad_count (Q.worker q.old) quad) }
    ensures known { AreCounts (Q.worker q.new) (get same_key counts.new) }
    ensures keeps { Keeps (Q.worker q.old) (Q.worker q.new) }
    ensures room { MakesAtMost 0 (Q.worker q.old) (Q.worker q.new) }
    ensures misses { MissesNothing (Q.worker q.old) (Q.worker q.new) }
    ensures some { OnErr result (0 < quad.name) }
    ensures over { OnErr result (Q.least < quad.height) }
{
    if quad.is_empty() {
        return Ok(0);
    }
    if quad.height == q.bottom() {
        let bits = q.bits(quad);
        return Ok(u64::from(bits.count_ones()));
    }
    if is_passed_over(counts.len(), quad.height) {
        return counted_over(q, counts, quad);
    }
    if let Some(found) = counts.get(&(quad.height, quad.name)).copied() {
        return Ok(found);
    }
    let sum = counted_over(q, counts, quad)?;
    counts.insert((quad.height, quad.name), sum)?;
    Ok(sum)
}

/// The same above the leaves, as the sum over the quarters.
#[cycle(counted)]
fn counted_over<Q: Quads>(
    q: &mut Q,
    counts: &mut HashMap<(u8, u32), u64>,
    quad: Quad,
) -> Result<u64, NoMemory>
    requires stands { HasQuad (Q.worker q.old) quad }
    requires over { Q.least < quad.height }
    requires known { AreCounts (Q.worker q.old) (get same_key counts.old) }
    ensures value { IfOk result (λ n. n ≡ quad_count (Q.worker q.old) quad) }
    ensures known { AreCounts (Q.worker q.new) (get same_key counts.new) }
    ensures keeps { Keeps (Q.worker q.old) (Q.worker q.new) }
    ensures room { MakesAtMost 0 (Q.worker q.old) (Q.worker q.new) }
    ensures misses { MissesNothing (Q.worker q.old) (Q.worker q.new) }
{
    let Quarters { nw, ne, sw, se } = q.quarters_ahead(quad);
    let north_west = counted(q, counts, nw)?;
    let north_east = counted(q, counts, ne)?;
    let south_west = counted(q, counts, sw)?;
    let south_east = counted(q, counts, se)?;
    Ok(north_west + north_east + south_west + south_east)
}
