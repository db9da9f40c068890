//! `-R`, `R^` and the operators on two relations, with their type tests.
ghost use Rattle.std.specs.Prelude.{◌≡◌, true};
ghost use Rattle.rel_slices.specs.Thin.{value_of, value_rows, value_cols};
ghost use Rattle.rel_values.specs.Values.{Fits};
ghost use Rattle.lang_model.specs.Types.{known, takes as takes_types};
ghost use Rattle.lang_model.specs.Mean.{linked, complemented, turned};
ghost use Rattle.rv_eval.specs.Ends.{Performs, wholly, lifted};
ghost use Rattle.rv_eval.specs.Turned.{turned_linked, linked_at_start};

use crate::faults::mismatch;
use crate::halt::Halt;
use crate::here::Start;
use crate::shapes::shape_in;
use lang_model::syntax::{Op2, Place};
use rel_model::engine_trait::Engine;
use rel_model::{Lack, Rel, Shape};
use rel_slices::{Remembers, Value};
use rel_values::{compose, compose_turned, inter, left, right, union};
use std::alloc::Global;

/// The result of a worker's operation, as a whole value.
pub fn as_whole<X>(given: Result<Rel, X>) -> Result<Value, X>
    ensures { result ≡ wholly given }
{
    match given {
        Ok(rel) => Ok(Value::Whole(rel)),
        Err(fault) => Err(fault),
    }
}

/// The result of an operation on values, as an evaluation reports it.
pub fn lift(given: Result<Value, Lack>) -> Result<Value, Halt>
    ensures { result ≡ lifted given }
{
    match given {
        Ok(value) => Ok(value),
        Err(lack) => Err(Halt::Lack(lack)),
    }
}

/// Whether an operator accepts operands of these sizes.
fn takes(op: Op2, r: Shape, s: Shape) -> bool
    ensures { result ≡ takes_types op (known r.rows r.cols) (known s.rows s.cols) }
{
    match op {
        Op2::Or => r.rows == s.rows && r.cols == s.cols,
        Op2::And => r.rows == s.rows && r.cols == s.cols,
        Op2::Times => r.cols == s.rows,
        Op2::Under => r.rows == s.rows,
        Op2::Over => r.cols == s.cols,
    }
}

/// `-R = {(i, j) : not (i, j) in r}`: the complement within the sizes of R.
pub fn complement<E: Remembers>(engine: &mut E, r: &Value) -> Result<Value, Halt>
    requires standing { Fits (E.worker engine.old) r.now }
    ensures { let w = E.worker engine.old in
        Performs E.least w (E.worker engine.new) (complemented (value_of w r.now)) result }
{
    lift(rel_values::complement(engine, r))
}

/// `R^...^`: a relation transposed `times` times.
pub fn transposed<E: Remembers>(engine: &mut E, r: &Value, times: u32) -> Result<Value, Halt>
    requires standing { Fits (E.worker engine.old) r.now }
    ensures { let w = E.worker engine.old in
        Performs E.least w (E.worker engine.new) (turned times (value_of w r.now)) result }
{
    lift(rel_values::turned(engine, r, times))
}

/// `R | S`, `R & S`, `R * S`, `R \ S` or `R / S`, for operands that fit.
fn applied<E: Remembers>(
    alloc: Global,
    engine: &mut E,
    at: Place,
    op: Op2,
    r: &Value,
    s: &Value,
) -> Result<Value, Halt>
    requires left { Fits (E.worker engine.old) r.now }
    requires right { Fits (E.worker engine.old) s.now }
    requires takes { takes_types op (known (value_rows r.now) (value_cols r.now))
        (known (value_rows s.now) (value_cols s.now)) ≡ true }
    ensures { let w = E.worker engine.old in
        Performs E.least w (E.worker engine.new) (linked at op (value_of w r.now) (value_of w s.now)) result }
{
    match op {
        Op2::Or => lift(union(engine, r, s)),
        Op2::And => lift(inter(engine, r, s)),
        Op2::Times => lift(compose(alloc, engine, r, s)),
        Op2::Under => lift(right(alloc, engine, r, s)),
        Op2::Over => lift(left(alloc, engine, r, s)),
    }
}

/// `R | S`, `R & S`, `R * S`, `R \ S` or `R / S`. The operands are tested first.
pub fn link<E: Remembers>(
    alloc: Global,
    engine: &mut E,
    at: Place,
    op: Op2,
    r: &Value,
    s: &Value,
) -> Result<Value, Halt>
    requires left { Fits (E.worker engine.old) r.now }
    requires right { Fits (E.worker engine.old) s.now }
    ensures { let w = E.worker engine.old in
        Performs E.least w (E.worker engine.new) (linked at op (value_of w r.now) (value_of w s.now)) result }
{
    let a = shape_in(engine, r);
    let b = shape_in(engine, s);
    if takes(op, a, b) {
        applied(alloc, engine, at, op, r, s)
    } else {
        Err(mismatch(alloc, at, op, a, b))
    }
}

/// `R^ * S`. The operands are tested first.
fn link_turned_once<E: Remembers>(
    alloc: Global,
    engine: &mut E,
    at: Place,
    r: &Value,
    s: &Value,
) -> Result<Value, Halt>
    requires left { Fits (E.worker engine.old) r.now }
    requires right { Fits (E.worker engine.old) s.now }
    ensures { let w = E.worker engine.old in
        Performs E.least w (E.worker engine.new) (turned_linked at 1 (value_of w r.now) (value_of w s.now)) result }
{
    let a = shape_in(engine, r);
    let b = shape_in(engine, s);
    if a.rows == b.rows {
        return lift(compose_turned(alloc, engine, r, s));
    }
    let turned = Shape {
        rows: a.cols,
        cols: a.rows,
    };
    Err(mismatch(alloc, at, Op2::Times, turned, b))
}

/// `R^...^ * S`, the start of a chain. The transposition is not made where lines can be turned in its place.
pub fn link_turned<E: Remembers>(
    alloc: Global,
    engine: &mut E,
    start: Start,
    r: &Value,
    s: &Value,
) -> Result<Value, Halt>
    requires left { Fits (E.worker engine.old) r.now }
    requires right { Fits (E.worker engine.old) s.now }
    ensures { let w = E.worker engine.old in
        let o = linked_at_start start.entry (value_of w r.now) (value_of w s.now) in
        Performs E.least w (E.worker engine.new) o result }
{
    let at = start.link.at;
    if start.times % 2 == 0 {
        return link(alloc, engine, at, Op2::Times, r, s);
    }
    link_turned_once(alloc, engine, at, r, s)
}
