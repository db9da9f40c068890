//! The identity as a tree, one quad for each height, and the reflexive closure by it.
ghost use Rattle.std.specs.Prelude.{◌≡◌, ◌≤◌, ◌+◌, IfOk};
ghost use Rattle.rel_model.specs.Relation.{size_limit};
ghost use Rattle.rel_model.specs.Operators.{identity as identity_relation};
ghost use Rattle.rel_model.specs.Closures.{reflexive_closure};
ghost use Rattle.rel_model.specs.Roots.{relation_room};
ghost use Rattle.rel_model.specs.Worker.{Stands, set_of, Keeps, MakesAtMost, Gives, HasCause, operator_room, derived_room, wide_room};

use rel_model::core_trait::Core;
use rel_model::faults::DomainError;
use rel_model::quads_trait::Quads;
use rel_model::{Lack, Rel};

/// `I = {(i, i)}`: the identity of n elements, built as the injection of n elements into their sum with none.
pub fn identity_of<Q: Quads>(q: &mut Q, n: u32) -> Result<Rel, Lack>
    requires limit { n ≤ size_limit }
    ensures value { IfOk result (Gives (Q.worker q.new) n n (identity_relation n)) }
    ensures keeps { Keeps (Q.worker q.old) (Q.worker q.new) }
    ensures room { MakesAtMost (derived_room n n n) (Q.worker q.old) (Q.worker q.new) }
    ensures tree { MakesAtMost (relation_room Q.least n n) (Q.worker q.old) (Q.worker q.new) }
    ensures cause { HasCause Q.lean (Q.worker q.old) (Q.worker q.new) result }
{
    match rel_domains::inl(q, n, 0) {
        Ok(rel) => Ok(rel),
        Err(DomainError::NoMemory) => Err(Lack::NoMemory),
        Err(_) => Err(Lack::Full),
    }
}

/// `refl(R) = R | I`: the reflexive closure, a square relation with all pairs (i, i) added (Schmidt and Ströhlein).
pub fn with_identity<Q: Quads>(q: &mut Q, r: Rel) -> Result<Rel, Lack>
    requires standing { Stands (Q.worker q.old) r }
    requires square { r.rows ≡ r.cols }
    ensures value { IfOk result (Gives (Q.worker q.new) r.rows r.cols (reflexive_closure (set_of (Q.worker q.old) r))) }
    ensures keeps { Keeps (Q.worker q.old) (Q.worker q.new) }
    ensures room { MakesAtMost (wide_room r.rows r.rows r.rows) (Q.worker q.old) (Q.worker q.new) }
    ensures few { MakesAtMost (relation_room Q.least r.rows r.rows + operator_room r.rows r.cols) (Q.worker q.old)
        (Q.worker q.new) }
    ensures cause { HasCause Q.lean (Q.worker q.old) (Q.worker q.new) result }
{
    let same = identity_of(q, r.rows)?;
    let both = q.union(r, same)?;
    Ok(both)
}
