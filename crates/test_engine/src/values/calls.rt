//! Calls the operations on values by name.
#![tactic(auto, using(rel_values::proofs::Operating::operates_fits, rel_values::proofs::Operating::operates_within_fits))]

ghost use Rattle.std.specs.Prelude.{◌≡◌, IfOk};
ghost use Rattle.rel_values.specs.Values.{Fits};

use crate::cells::{Op, Sizes};
use rel_model::faults::DomainError;
use rel_model::{Lack, Shape};
use rel_slices::{Remembers, Value, shape_of};
use rel_values::{
    Bound, atom, bounds, complement, compose, compose_turned, dom, empty, epsi, full, init, inj,
    inter, left, next, pair, point, ran, right, syq, turned, union,
};
use std::alloc::Global;
use std::process::Abort;

/// The answer of an operation.
pub(crate) fn answer_of<E: Remembers>(
    rt: &impl Abort,
    alloc: Global,
    engine: &mut E,
    op: Op,
    sizes: Sizes,
    x: &Value,
    y: &Value,
) -> Value
    requires left { Fits (E.worker engine.old) x.now }
    requires right { Fits (E.worker engine.old) y.now }
    ensures { Fits (E.worker engine.new) result }
{
    match op {
        Op::Epsi | Op::Pair => match of_domains(rt, engine, op, sizes, x, y) {
            Ok(value) => value,
            Err(_) => panic!(rt; "refused"),
        },
        Op::Union | Op::Inter | Op::Compose | Op::ComposeTurned | Op::Right | Op::Left | Op::Syq =>
            { given(rt, of_two(rt, alloc, engine, op, x, y)) }
        Op::Point | Op::Init | Op::Next | Op::Inj => given(rt, of_vector(rt, engine, op, x)),
        Op::Complement | Op::Turned(_) | Op::Dom | Op::Ran | Op::Atom => {
            given(rt, of_one(alloc, engine, op, x))
        }
        Op::Diff => panic!(rt; "{op:?} is not tried"),
        Op::Full | Op::Empty => given(rt, of_sizes(rt, engine, op, sizes)),
        _ => given(rt, of_order(rt, engine, op, x, y)),
    }
}

/// The value of an answer; a refusal ends the test.
fn given(rt: &impl Abort, answer: Result<Value, Lack>) -> Value
    ensures { answer ≡ Ok result }
{
    match answer {
        Ok(value) => value,
        Err(_) => panic!(rt; "refused"),
    }
}

/// The operators on two values.
fn of_two<E: Remembers>(
    rt: &impl Abort,
    alloc: Global,
    engine: &mut E,
    op: Op,
    x: &Value,
    y: &Value,
) -> Result<Value, Lack>
    requires left { Fits (E.worker engine.old) x.now }
    requires right { Fits (E.worker engine.old) y.now }
    ensures { IfOk result (Fits (E.worker engine.new)) }
{
    let a = shape_of(x);
    let b = shape_of(y);
    match op {
        Op::Union => {
            assert!(rt; a.rows == b.rows && a.cols == b.cols);
            union(engine, x, y)
        }
        Op::Inter => {
            assert!(rt; a.rows == b.rows && a.cols == b.cols);
            inter(engine, x, y)
        }
        Op::Compose => {
            assert!(rt; a.cols == b.rows);
            compose(alloc, engine, x, y)
        }
        Op::ComposeTurned => {
            assert!(rt; a.rows == b.rows);
            compose_turned(alloc, engine, x, y)
        }
        _ => residual(rt, alloc, engine, op, x, y),
    }
}

/// Residuals and the symmetric quotient.
fn residual<E: Remembers>(
    rt: &impl Abort,
    alloc: Global,
    engine: &mut E,
    op: Op,
    x: &Value,
    y: &Value,
) -> Result<Value, Lack>
    requires left { Fits (E.worker engine.old) x.now }
    requires right { Fits (E.worker engine.old) y.now }
    ensures { IfOk result (Fits (E.worker engine.new)) }
{
    let a = shape_of(x);
    let b = shape_of(y);
    match op {
        Op::Right => {
            assert!(rt; a.rows == b.rows);
            right(alloc, engine, x, y)
        }
        Op::Left => {
            assert!(rt; a.cols == b.cols);
            left(alloc, engine, x, y)
        }
        _ => {
            assert!(rt; a.rows == b.rows);
            syq(alloc, engine, x, y)
        }
    }
}

/// The operations on one value.
fn of_one<E: Remembers>(alloc: Global, engine: &mut E, op: Op, x: &Value) -> Result<Value, Lack>
    requires { Fits (E.worker engine.old) x.now }
    ensures { IfOk result (Fits (E.worker engine.new)) }
{
    match op {
        Op::Complement => complement(engine, x),
        Op::Turned(times) => turned(engine, x, times),
        Op::Dom => dom(alloc, engine, x),
        Op::Ran => ran(alloc, engine, x),
        _ => atom(engine, x),
    }
}

/// The operations on a vector.
fn of_vector<E: Remembers>(
    rt: &impl Abort,
    engine: &mut E,
    op: Op,
    x: &Value,
) -> Result<Value, Lack>
    requires { Fits (E.worker engine.old) x.now }
    ensures { IfOk result (Fits (E.worker engine.new)) }
{
    assert!(rt; shape_of(x).cols == 1);
    match op {
        Op::Point => point(engine, x),
        Op::Init => init(engine, x),
        Op::Next => next(engine, x),
        _ => inj(engine, x),
    }
}

/// The values that are given by sizes alone.
fn of_sizes<E: Remembers>(
    rt: &impl Abort,
    engine: &mut E,
    op: Op,
    sizes: Sizes,
) -> Result<Value, Lack>
    ensures { IfOk result (Fits (E.worker engine.new)) }
{
    let shape = Shape {
        rows: sizes.k,
        cols: sizes.n,
    };
    assert!(rt; shape.rows <= 1024 && shape.cols <= 1024);
    match op {
        Op::Full => full(engine, shape),
        _ => empty(engine, shape),
    }
}

/// Bounds and extremes.
fn of_order<E: Remembers>(
    rt: &impl Abort,
    engine: &mut E,
    op: Op,
    x: &Value,
    y: &Value,
) -> Result<Value, Lack>
    requires left { Fits (E.worker engine.old) x.now }
    requires right { Fits (E.worker engine.old) y.now }
    ensures { IfOk result (Fits (E.worker engine.new)) }
{
    let a = shape_of(x);
    let b = shape_of(y);
    assert!(rt; a.rows == a.cols && a.rows == b.rows);
    bounds(engine, bound_of(op), x, y)
}

/// Which bounds or extremes an operation computes.
fn bound_of(op: Op) -> Bound {
    match op {
        Op::Upper => Bound::Upper,
        Op::Lower => Bound::Lower,
        Op::Least => Bound::Least,
        Op::Greatest => Bound::Greatest,
        Op::Suprema => Bound::Suprema,
        _ => Bound::Infima,
    }
}

/// Membership and pairing.
pub(crate) fn of_domains<E: Remembers>(
    rt: &impl Abort,
    engine: &mut E,
    op: Op,
    sizes: Sizes,
    x: &Value,
    y: &Value,
) -> Result<Value, DomainError>
    requires left { Fits (E.worker engine.old) x.now }
    requires right { Fits (E.worker engine.old) y.now }
    ensures { IfOk result (Fits (E.worker engine.new)) }
{
    assert!(rt; sizes.k <= 1024);
    assert!(rt; shape_of(x).rows == shape_of(y).rows);
    match op {
        Op::Epsi => epsi(engine, sizes.k),
        _ => pair(engine, x, y),
    }
}
