//! Pairing and domain operators, whose results may be too large.
ghost use Rattle.std.specs.Prelude.{◌≡◌, ◌≤◌};
ghost use Rattle.rel_model.specs.Relation.{size_limit};
ghost use Rattle.rel_slices.specs.Thin.{value_of, value_rows, value_cols};
ghost use Rattle.rel_values.specs.Values.{Fits};
ghost use Rattle.lang_model.specs.Mean.{paired, domain_made};
ghost use Rattle.rv_eval.specs.Ends.{Performs, domain_lifted};

use crate::faults::no_pair;
use crate::halt::Halt;
use crate::operators::as_whole;
use crate::shapes::shape_in;
use lang_model::syntax::{Base, Place};
use rel_model::Lack;
use rel_model::engine_trait::Engine;
use rel_model::faults::DomainError;
use rel_slices::Value;
use std::alloc::Global;

/// The result of an operation that may be too large, as an evaluation reports it.
pub fn lift_domain(at: Place, given: Result<Value, DomainError>) -> Result<Value, Halt>
    ensures { result ≡ domain_lifted at given }
{
    match given {
        Ok(value) => Ok(value),
        Err(DomainError::Size { wanted, .. }) => Err(Halt::Size { at, wanted }),
        Err(DomainError::Full) => Err(Halt::Lack(Lack::Full)),
        Err(DomainError::NoMemory) => Err(Halt::Lack(Lack::NoMemory)),
    }
}

/// `[R,S] = {(i, j * n + k) : (i, j) in r and (i, k) in s}`: the pairing of two relations, where s has n columns. Both
/// must have the same number of rows.
pub fn pair<E: Engine>(
    alloc: Global,
    engine: &mut E,
    at: Place,
    r: &Value,
    s: &Value,
) -> Result<Value, Halt>
    requires left { Fits (E.worker engine.old) r.now }
    requires right { Fits (E.worker engine.old) s.now }
    ensures { let w = E.worker engine.old in
        Performs E.least w (E.worker engine.new) (paired at (value_of w r.now) (value_of w s.now)) result }
{
    let a = shape_in(engine, r);
    let b = shape_in(engine, s);
    if a.rows == b.rows {
        lift_domain(at, rel_values::pair(engine, r, s))
    } else {
        Err(no_pair(alloc, at, a, b))
    }
}

/// A domain operator, for domains of `x` and `y` elements.
pub fn domain_call<E: Engine>(
    engine: &mut E,
    at: Place,
    base: Base,
    x: u32,
    y: u32,
) -> Result<Value, Halt>
    requires x_limit { x ≤ size_limit }
    requires y_limit { y ≤ size_limit }
    ensures { let w = E.worker engine.old in
        Performs E.least w (E.worker engine.new) (domain_made at base x y) result }
{
    match base {
        Base::P1 => lift_domain(at, as_whole(engine.first(x, y))),
        Base::P2 => lift_domain(at, as_whole(engine.second(x, y))),
        Base::I1 => lift_domain(at, as_whole(engine.inl(x, y))),
        _ => lift_domain(at, as_whole(engine.inr(x, y))),
    }
}
