//! Pairings.
ghost use Rattle.std.specs.Prelude.{◌≡◌, ◌<◌, ◌≤◌, ◌*◌, ◌^◌, max, IfOk};
ghost use Rattle.rel_model.specs.Relation.{relation_of, size_limit};
ghost use Rattle.rel_model.specs.Operators.{compose as compose_of, transpose as transpose_of};
ghost use Rattle.rel_model.specs.Worker.{Stands, set_of, Gives, Keeps, MakesAtMost, HasCause, height_of_three, derived_room};
ghost use Rattle.rel_model.specs.Domains.{HasDomainCause, pairing};
ghost use Rattle.rel_domains.specs.Rules.{IsRule, passes};
ghost use Rattle.rel_domains.specs.Refusals.{refusal_of};

use crate::limit::{refusal, too_large};
use crate::rule::Rule;
use crate::square::relation_by;
use rel_model::core_trait::Core;
use rel_model::faults::DomainError;
use rel_model::quads_trait::Quads;
use rel_model::{Lack, Rel, SIZE_LIMIT, Shape};

/// `{(i, c) : (i, j) in r and row c has column j}`: the composition of a relation with the transposed relation of a
/// rule, which has `cols` rows.
fn through<Q: Quads>(q: &mut Q, r: Rel, cols: u32, rule: Rule) -> Result<Rel, Lack>
    requires stands { Stands (Q.worker q.old) r }
    requires limit { cols ≤ size_limit }
    requires rule { IsRule cols rule }
    ensures value { IfOk result (Gives (Q.worker q.new) r.rows cols
        (compose_of (set_of (Q.worker q.old) r) (transpose_of (relation_of cols r.cols (passes rule))))) }
    ensures keeps { Keeps (Q.worker q.old) (Q.worker q.new) }
    ensures room { MakesAtMost (24 * 8 ^ height_of_three r.rows r.cols cols) (Q.worker q.old) (Q.worker q.new) }
    ensures cause { HasCause Q.lean (Q.worker q.old) (Q.worker q.new) result }
{
    let shape = Shape {
        rows: cols,
        cols: r.cols,
    };
    let ruled = relation_by(q, shape, rule)?;
    let turned = q.transpose(ruled)?;
    let joined = q.compose(r, turned)?;
    Ok(joined)
}

/// The pairing of two relations, if the product of their columns is within the limit.
fn paired<Q: Quads>(q: &mut Q, r: Rel, s: Rel, cols: u32) -> Result<Rel, Lack>
    requires left { Stands (Q.worker q.old) r }
    requires right { Stands (Q.worker q.old) s }
    requires rows { r.rows ≡ s.rows }
    requires cols { cols ≡ r.cols * s.cols }
    requires limit { cols ≤ size_limit }
    ensures value { IfOk result (Gives (Q.worker q.new) r.rows cols
        (pairing (set_of (Q.worker q.old) r) (set_of (Q.worker q.old) s))) }
    ensures keeps { Keeps (Q.worker q.old) (Q.worker q.new) }
    ensures room { MakesAtMost (derived_room r.rows (max r.cols s.cols) cols) (Q.worker q.old) (Q.worker q.new) }
    ensures cause { HasCause Q.lean (Q.worker q.old) (Q.worker q.new) result }
{
    let by = s.cols.max(1);
    let left = through(q, r, cols, Rule::Quotient { by })?;
    let right = through(q, s, cols, Rule::Remainder { by })?;
    let both = q.inter(left, right)?;
    Ok(both)
}

/// `[R,S] = {(i, j * n + k) : (i, j) in r and (i, k) in s}`: the pairing of two relations with the same number of rows,
/// where s has n columns (Schmidt and Ströhlein, *Relations and Graphs*). Refused if the number of columns of the
/// result exceeds the limit.
///
/// It is computed as `(R * p^) & (S * q^)`, with the projections p and q of the product of their columns.
pub fn fork<Q: Quads>(q: &mut Q, r: Rel, s: Rel) -> Result<Rel, DomainError>
    requires left { Stands (Q.worker q.old) r }
    requires right { Stands (Q.worker q.old) s }
    requires rows { r.rows ≡ s.rows }
    ensures value { IfOk result (Gives (Q.worker q.new) r.rows (r.cols * s.cols)
        (pairing (set_of (Q.worker q.old) r) (set_of (Q.worker q.old) s))) }
    ensures keeps { Keeps (Q.worker q.old) (Q.worker q.new) }
    ensures room { MakesAtMost (derived_room r.rows (max r.cols s.cols) (r.cols * s.cols)) (Q.worker q.old)
        (Q.worker q.new) }
    ensures nothing { size_limit < r.cols * s.cols → MakesAtMost 0 (Q.worker q.old) (Q.worker q.new) }
    ensures cause { HasDomainCause Q.lean (r.cols * s.cols) (Q.worker q.old) (Q.worker q.new) result }
{
    let cols = u64::from(r.cols) * u64::from(s.cols);
    if cols > u64::from(SIZE_LIMIT) {
        return Err(too_large(cols));
    }
    match paired(q, r, s, cols as u32) {
        Ok(rel) => Ok(rel),
        Err(lack) => Err(refusal(lack)),
    }
}
