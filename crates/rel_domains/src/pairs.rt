//! Relations from lists of pairs.
ghost use Rattle.std.specs.Prelude.{◌≡◌, ◌≤◌, ◌<◌, ◌-◌, ℕ, length, true, false, IfOk, IfSome, IfNone, OnErr, IsErrOf};
ghost use Rattle.rel_model.specs.declared.Lack.TheVariants.{NoMemory};
ghost use Rattle.rel_model.specs.Relation.{relation_of, size_limit};
ghost use Rattle.rel_model.specs.Worker.{Gives, Keeps, MakesAtMost, HasCause, listed_room, pairs_room};
ghost use Rattle.rel_model.specs.Roots.{height_over};
ghost use Rattle.rel_model.specs.Listed.{AreWithin, is_among};

use crate::build::quad_of_places;
use crate::curve::places_of;
use crate::heights::depth_over;
use rel_model::core_trait::Core;
use rel_model::quads_trait::Quads;
use rel_model::{Lack, Rel, Shape};
use std::alloc::Global;

/// `{p : p in pairs}`: the relation of a list of pairs, in any order and with repeats allowed. It sorts the list, which
/// takes memory, but not if the list is empty. `None`: there is no memory for that; no node has been made then.
#[tactic(auto, unfolding(rel_model::specs::Trees::top_height))]
pub fn from_pairs_or_none<Q: Quads>(
    alloc: Global,
    q: &mut Q,
    shape: Shape,
    pairs: &[(u32, u32)],
) -> Result<Option<Rel>, Lack>
    requires row_limit { shape.rows ≤ size_limit }
    requires col_limit { shape.cols ≤ size_limit }
    requires within { AreWithin shape.rows shape.cols pairs.now }
    ensures value { IfOk result (λ given. IfSome given (Gives (Q.worker q.new) shape.rows shape.cols
        (relation_of shape.rows shape.cols (is_among pairs.now)))) }
    ensures keeps { Keeps (Q.worker q.old) (Q.worker q.new) }
    ensures nothing { IfOk result (λ given. IfNone given (MakesAtMost 0 (Q.worker q.old) (Q.worker q.new))) }
    ensures listed { IfOk result (λ given. IfNone given (0 < length pairs.now)) }
    ensures room { MakesAtMost (pairs_room (length pairs.now) shape.rows shape.cols) (Q.worker q.old) (Q.worker q.new) }
    ensures few { MakesAtMost (listed_room (length pairs.now) (height_over Q.least shape.rows shape.cols - Q.least))
        (Q.worker q.old) (Q.worker q.new) }
    ensures cause { HasCause Q.lean (Q.worker q.old) (Q.worker q.new) result }
    ensures some { OnErr result (0 < length pairs.now) }
{
    let least = q.bottom();
    let depth = depth_over(least, shape.rows, shape.cols);
    let Ok(mut places) = places_of(alloc, least, depth, pairs) else {
        return Ok(None);
    };
    places.sort_unstable();
    match quad_of_places(q, depth, places.as_slice()) {
        Ok(quad) => Ok(Some(q.rel(shape, quad))),
        Err(lack) => Err(lack),
    }
}

/// `{p : p in pairs}`: the relation of a list of pairs, in any order and with repeats allowed. It sorts the list, so
/// memory may run out whatever worker it is, but not if the list is empty. If memory runs out over a lean worker, no
/// node was made.
pub fn from_pairs<Q: Quads>(
    alloc: Global,
    q: &mut Q,
    shape: Shape,
    pairs: &[(u32, u32)],
) -> Result<Rel, Lack>
    requires row_limit { shape.rows ≤ size_limit }
    requires col_limit { shape.cols ≤ size_limit }
    requires within { AreWithin shape.rows shape.cols pairs.now }
    ensures value { IfOk result (Gives (Q.worker q.new) shape.rows shape.cols
        (relation_of shape.rows shape.cols (is_among pairs.now))) }
    ensures keeps { Keeps (Q.worker q.old) (Q.worker q.new) }
    ensures room { MakesAtMost (pairs_room (length pairs.now) shape.rows shape.cols) (Q.worker q.old) (Q.worker q.new) }
    ensures few { MakesAtMost (listed_room (length pairs.now) (height_over Q.least shape.rows shape.cols - Q.least))
        (Q.worker q.old) (Q.worker q.new) }
    ensures cause { HasCause false (Q.worker q.old) (Q.worker q.new) result }
    ensures some { OnErr result (0 < length pairs.now) }
    ensures untouched { Q.lean ≡ true → IsErrOf result NoMemory → MakesAtMost 0 (Q.worker q.old) (Q.worker q.new) }
{
    let given = from_pairs_or_none(alloc, q, shape, pairs)?;
    match given {
        Some(rel) => Ok(rel),
        None => Err(Lack::NoMemory),
    }
}
