//! Relations defined by rules, with a size that may exceed the limit.
ghost use Rattle.std.specs.Prelude.{◌≡◌, ◌<◌, ◌≤◌, ◌-◌, ◌^◌, min, IfOk};
ghost use Rattle.rel_model.specs.declared.faults.DomainError.TheVariants.{Size};
ghost use Rattle.rel_model.specs.Relation.{relation_of, size_limit};
ghost use Rattle.rel_model.specs.Worker.{Gives, Keeps, MakesAtMost, derived_room};
ghost use Rattle.rel_model.specs.Domains.{HasDomainCause};
ghost use Rattle.rel_domains.specs.Rules.{IsRule, passes};
ghost use Rattle.rel_domains.specs.Refusals.{refusal_of};
ghost use Rattle.rel_model.specs.Roots.{relation_room};

use crate::rule::Rule;
use crate::square::relation_by;
use rel_model::core_trait::Core;
use rel_model::faults::DomainError;
use rel_model::quads_trait::Quads;
use rel_model::{Lack, Rel, SIZE_LIMIT, Shape};

/// The refusal for a size that exceeds the limit.
pub fn too_large(wanted: u64) -> DomainError
    ensures { result ≡ Size wanted size_limit }
{
    DomainError::Size {
        wanted,
        limit: u64::from(SIZE_LIMIT),
    }
}

/// A refusal of an operator as that of an operation on domains.
pub fn refusal(lack: Lack) -> DomainError
    ensures { result ≡ refusal_of lack }
{
    match lack {
        Lack::Full => DomainError::Full,
        Lack::NoMemory => DomainError::NoMemory,
    }
}

/// `{(i, j) : row i has column j}`: the relation of a rule. Refused if the number of rows exceeds the limit.
#[tactic(auto, using(crate::proofs::Named::rooms_derived))]
pub fn tall<Q: Quads>(q: &mut Q, rows: u64, cols: u32, rule: Rule) -> Result<Rel, DomainError>
    requires limit { cols ≤ size_limit }
    requires rule { rows ≤ size_limit → IsRule rows rule }
    ensures value { IfOk result (Gives (Q.worker q.new) rows cols (relation_of rows cols (passes rule))) }
    ensures keeps { Keeps (Q.worker q.old) (Q.worker q.new) }
    ensures room { MakesAtMost (derived_room rows cols cols) (Q.worker q.old) (Q.worker q.new) }
    ensures tree { MakesAtMost (relation_room Q.least rows cols) (Q.worker q.old) (Q.worker q.new) }
    ensures nothing { size_limit < rows → MakesAtMost 0 (Q.worker q.old) (Q.worker q.new) }
    ensures cause { HasDomainCause Q.lean rows (Q.worker q.old) (Q.worker q.new) result }
{
    if rows > u64::from(SIZE_LIMIT) {
        return Err(too_large(rows));
    }
    let shape = Shape {
        rows: rows as u32,
        cols,
    };
    match relation_by(q, shape, rule) {
        Ok(rel) => Ok(rel),
        Err(lack) => Err(refusal(lack)),
    }
}

/// `{(i, j) : row i has column j}`: the relation of a rule. Refused if the number of columns exceeds the limit.
#[tactic(auto, using(crate::proofs::Named::rooms_derived))]
pub fn wide<Q: Quads>(q: &mut Q, rows: u32, cols: u64, rule: Rule) -> Result<Rel, DomainError>
    requires limit { rows ≤ size_limit }
    requires rule { cols ≤ size_limit → IsRule rows rule }
    ensures value { IfOk result (Gives (Q.worker q.new) rows cols (relation_of rows cols (passes rule))) }
    ensures keeps { Keeps (Q.worker q.old) (Q.worker q.new) }
    ensures room { MakesAtMost (derived_room rows cols cols) (Q.worker q.old) (Q.worker q.new) }
    ensures tree { MakesAtMost (relation_room Q.least rows cols) (Q.worker q.old) (Q.worker q.new) }
    ensures nothing { size_limit < cols → MakesAtMost 0 (Q.worker q.old) (Q.worker q.new) }
    ensures cause { HasDomainCause Q.lean cols (Q.worker q.old) (Q.worker q.new) result }
{
    if cols > u64::from(SIZE_LIMIT) {
        return Err(too_large(cols));
    }
    let shape = Shape {
        rows,
        cols: cols as u32,
    };
    match relation_by(q, shape, rule) {
        Ok(rel) => Ok(rel),
        Err(lack) => Err(refusal(lack)),
    }
}
