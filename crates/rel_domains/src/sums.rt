//! Injections of sums.
ghost use Rattle.std.specs.Prelude.{◌≡◌, ◌<◌, ◌≤◌, ◌+◌, IfOk};
ghost use Rattle.rel_model.specs.Relation.{size_limit};
ghost use Rattle.rel_model.specs.Worker.{Gives, Keeps, MakesAtMost, derived_room};
ghost use Rattle.rel_model.specs.Domains.{HasDomainCause, left_injection, right_injection};
ghost use Rattle.rel_model.specs.Roots.{relation_room};

use crate::limit::wide;
use crate::rule::Rule;
use rel_model::Rel;
use rel_model::core_trait::Core;
use rel_model::faults::DomainError;
use rel_model::quads_trait::Quads;

/// `{(i, i) : i < x}`: the injection of the first summand, with x rows and x + y columns (Schmidt and Ströhlein,
/// *Relations and Graphs*). Refused if x + y exceeds the limit.
#[tactic(auto, using(crate::proofs::Named::inl_is))]
pub fn inl<Q: Quads>(q: &mut Q, x: u32, y: u32) -> Result<Rel, DomainError>
    requires x_limit { x ≤ size_limit }
    requires y_limit { y ≤ size_limit }
    ensures value { IfOk result (Gives (Q.worker q.new) x (x + y) (left_injection x y)) }
    ensures keeps { Keeps (Q.worker q.old) (Q.worker q.new) }
    ensures room { MakesAtMost (derived_room x (x + y) (x + y)) (Q.worker q.old) (Q.worker q.new) }
    ensures tree { MakesAtMost (relation_room Q.least x (x + y)) (Q.worker q.old) (Q.worker q.new) }
    ensures nothing { size_limit < x + y → MakesAtMost 0 (Q.worker q.old) (Q.worker q.new) }
    ensures cause { HasDomainCause Q.lean (x + y) (Q.worker q.old) (Q.worker q.new) result }
{
    wide(q, x, u64::from(x + y), Rule::Shift { by: 0 })
}

/// `{(j, x + j) : j < y}`: the injection of the second summand, with y rows and x + y columns (Schmidt and Ströhlein,
/// *Relations and Graphs*). Refused if x + y exceeds the limit.
#[tactic(auto, using(crate::proofs::Named::inr_is))]
pub fn inr<Q: Quads>(q: &mut Q, x: u32, y: u32) -> Result<Rel, DomainError>
    requires x_limit { x ≤ size_limit }
    requires y_limit { y ≤ size_limit }
    ensures value { IfOk result (Gives (Q.worker q.new) y (x + y) (right_injection x y)) }
    ensures keeps { Keeps (Q.worker q.old) (Q.worker q.new) }
    ensures room { MakesAtMost (derived_room y (x + y) (x + y)) (Q.worker q.old) (Q.worker q.new) }
    ensures tree { MakesAtMost (relation_room Q.least y (x + y)) (Q.worker q.old) (Q.worker q.new) }
    ensures nothing { size_limit < x + y → MakesAtMost 0 (Q.worker q.old) (Q.worker q.new) }
    ensures cause { HasDomainCause Q.lean (x + y) (Q.worker q.old) (Q.worker q.new) result }
{
    wide(q, y, u64::from(x + y), Rule::Shift { by: x })
}
