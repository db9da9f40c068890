//! Membership in subsets.
ghost use Rattle.std.specs.Prelude.{◌≡◌, ◌<◌, ◌≤◌, ◌^◌, IfOk};
ghost use Rattle.rel_model.specs.Relation.{size_limit};
ghost use Rattle.rel_model.specs.Worker.{Gives, Keeps, MakesAtMost, derived_room};
ghost use Rattle.rel_model.specs.Domains.{HasDomainCause, membership};
ghost use Rattle.rel_model.specs.Roots.{relation_room};

use crate::limit::{too_large, wide};
use crate::rule::Rule;
use rel_model::Rel;
use rel_model::core_trait::Core;
use rel_model::faults::DomainError;
use rel_model::quads_trait::Quads;

/// `{(i, s) : bit i of s is 1}`: the membership relation between the elements of a domain and its subsets, with x rows
/// and 2 ^ x columns (Schmidt and Ströhlein, *Relations and Graphs*). Refused if 2 ^ x exceeds the limit.
pub fn epsi<Q: Quads>(q: &mut Q, x: u32) -> Result<Rel, DomainError>
    requires { x ≤ size_limit }
    ensures value { IfOk result (Gives (Q.worker q.new) x (2 ^ x) (membership x)) }
    ensures keeps { Keeps (Q.worker q.old) (Q.worker q.new) }
    ensures room { MakesAtMost (derived_room x (2 ^ x) (2 ^ x)) (Q.worker q.old) (Q.worker q.new) }
    ensures tree { MakesAtMost (relation_room Q.least x (2 ^ x)) (Q.worker q.old) (Q.worker q.new) }
    ensures nothing { size_limit < 2 ^ x → MakesAtMost 0 (Q.worker q.old) (Q.worker q.new) }
    ensures cause { HasDomainCause Q.lean (2 ^ x) (Q.worker q.old) (Q.worker q.new) result }
{
    if x >= 64 {
        return Err(too_large(u64::MAX));
    }
    wide(q, x, 1 << x, Rule::Member)
}
