//! Projections of products.
ghost use Rattle.std.specs.Prelude.{◌≡◌, ◌<◌, ◌≤◌, ◌*◌, IfOk};
ghost use Rattle.rel_model.specs.Relation.{size_limit};
ghost use Rattle.rel_model.specs.Worker.{Gives, Keeps, MakesAtMost, derived_room};
ghost use Rattle.rel_model.specs.Domains.{HasDomainCause, first_projection, second_projection};
ghost use Rattle.rel_model.specs.Roots.{relation_room};

use crate::limit::tall;
use crate::rule::Rule;
use rel_model::Rel;
use rel_model::core_trait::Core;
use rel_model::faults::DomainError;
use rel_model::quads_trait::Quads;

/// `{(i * y + j, i) : i < x, j < y}`: the projection of a product to its first factor, with x * y rows and x columns
/// (Schmidt and Ströhlein, *Relations and Graphs*). Refused if x * y exceeds the limit.
#[tactic(auto, using(crate::proofs::Named::first_is))]
pub fn first<Q: Quads>(q: &mut Q, x: u32, y: u32) -> Result<Rel, DomainError>
    requires x_limit { x ≤ size_limit }
    requires y_limit { y ≤ size_limit }
    ensures value { IfOk result (Gives (Q.worker q.new) (x * y) x (first_projection x y)) }
    ensures keeps { Keeps (Q.worker q.old) (Q.worker q.new) }
    ensures room { MakesAtMost (derived_room (x * y) x x) (Q.worker q.old) (Q.worker q.new) }
    ensures tree { MakesAtMost (relation_room Q.least (x * y) x) (Q.worker q.old) (Q.worker q.new) }
    ensures nothing { size_limit < x * y → MakesAtMost 0 (Q.worker q.old) (Q.worker q.new) }
    ensures cause { HasDomainCause Q.lean (x * y) (Q.worker q.old) (Q.worker q.new) result }
{
    let rule = Rule::Quotient { by: y.max(1) };
    tall(q, u64::from(x) * u64::from(y), x, rule)
}

/// `{(i * y + j, j) : i < x, j < y}`: the projection of a product to its second factor, with x * y rows and y columns
/// (Schmidt and Ströhlein, *Relations and Graphs*). Refused if x * y exceeds the limit.
#[tactic(auto, using(crate::proofs::Named::second_is))]
pub fn second<Q: Quads>(q: &mut Q, x: u32, y: u32) -> Result<Rel, DomainError>
    requires x_limit { x ≤ size_limit }
    requires y_limit { y ≤ size_limit }
    ensures value { IfOk result (Gives (Q.worker q.new) (x * y) y (second_projection x y)) }
    ensures keeps { Keeps (Q.worker q.old) (Q.worker q.new) }
    ensures room { MakesAtMost (derived_room (x * y) y y) (Q.worker q.old) (Q.worker q.new) }
    ensures tree { MakesAtMost (relation_room Q.least (x * y) y) (Q.worker q.old) (Q.worker q.new) }
    ensures nothing { size_limit < x * y → MakesAtMost 0 (Q.worker q.old) (Q.worker q.new) }
    ensures cause { HasDomainCause Q.lean (x * y) (Q.worker q.old) (Q.worker q.new) result }
{
    let rule = Rule::Remainder { by: y.max(1) };
    tall(q, u64::from(x) * u64::from(y), y, rule)
}
