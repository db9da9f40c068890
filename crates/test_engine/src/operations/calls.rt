//! The operations that give a relation, and an engine's answers to them.
ghost use Rattle.std.specs.Prelude.{◌≡◌, ◌≤◌, IfSome, IfOk};
ghost use Rattle.rel_model.specs.Worker.{Stands, Keeps};

use rel_model::core_trait::Core;
use rel_model::engine_trait::Engine;
use rel_model::faults::DomainError;
use rel_model::{Lack, Rel, Shape};
use std::process::Abort;

/// An operation on two relations, on one, or on sizes only.
#[derive(Clone, Copy, Debug, PartialEq, Eq)]
pub(crate) enum Operation {
    Empty,
    Full,
    Single,
    Union,
    Inter,
    Diff,
    Transpose,
    Compose,
    Right,
    Left,
    Syq,
    Trans,
    Refl,
    Identity,
    First,
    Second,
    Inl,
    Inr,
    Epsi,
    Fork,
    Inj,
    Point,
    Atom,
    Init,
    Next,
    Dom,
    Ran,
}

/// All of them.
pub(crate) const OPERATIONS: [Operation; 27] = [
    Operation::Empty,
    Operation::Full,
    Operation::Single,
    Operation::Union,
    Operation::Inter,
    Operation::Diff,
    Operation::Transpose,
    Operation::Compose,
    Operation::Right,
    Operation::Left,
    Operation::Syq,
    Operation::Trans,
    Operation::Refl,
    Operation::Identity,
    Operation::First,
    Operation::Second,
    Operation::Inl,
    Operation::Inr,
    Operation::Epsi,
    Operation::Fork,
    Operation::Inj,
    Operation::Point,
    Operation::Atom,
    Operation::Init,
    Operation::Next,
    Operation::Dom,
    Operation::Ran,
];

/// The answer of an operator that is not refused.
fn given(rt: &impl Abort, answer: Result<Rel, Lack>) -> Rel
    ensures { answer ≡ Ok result }
{
    match answer {
        Ok(rel) => rel,
        Err(_) => panic!(rt; "refused"),
    }
}

/// The answer of a call on domains that is not refused.
fn wanted(rt: &impl Abort, answer: Result<Rel, DomainError>) -> Rel
    ensures { answer ≡ Ok result }
{
    match answer {
        Ok(rel) => rel,
        Err(_) => panic!(rt; "refused"),
    }
}

/// The sizes of a relation.
fn shape_of(r: Rel) -> Shape
    ensures { result ≡ record { rows = r.rows; cols = r.cols } }
{
    Shape {
        rows: r.rows,
        cols: r.cols,
    }
}

/// The result of an operation, if the operands fit.
pub(crate) fn answer<E: Engine>(
    rt: &impl Abort,
    engine: &mut E,
    operation: Operation,
    r: Rel,
    s: Rel,
) -> Option<Rel>
    requires left { Stands (E.worker engine.old) r }
    requires right { Stands (E.worker engine.old) s }
    ensures standing { IfSome result (Stands (E.worker engine.new)) }
    ensures keeps { Keeps (E.worker engine.old) (E.worker engine.new) }
{
    if r.rows > 40 || r.cols > 40 || s.rows > 40 || s.cols > 40 {
        return None;
    }
    let shape = shape_of(r);
    match operation {
        Operation::Empty => Some(given(rt, engine.empty(shape))),
        Operation::Full => Some(given(rt, engine.full(shape))),
        Operation::Single => single(rt, engine, shape),
        Operation::Transpose => Some(given(rt, engine.transpose(r))),
        Operation::Union | Operation::Inter | Operation::Diff => {
            of_one_type(rt, engine, operation, r, s)
        }
        Operation::Compose | Operation::Right | Operation::Left | Operation::Syq => {
            of_two_types(rt, engine, operation, r, s)
        }
        Operation::Trans | Operation::Refl | Operation::Identity => closed(
            rt, engine, operation, r,
        ),
        Operation::First | Operation::Second | Operation::Inl | Operation::Inr => {
            Some(of_sizes(rt, engine, operation, r.rows, s.cols))
        }
        Operation::Epsi | Operation::Fork => subsets_or_pairs(rt, engine, operation, r, s),
        _ => chosen(rt, engine, operation, r),
    }
}

/// The relation of the last pair of the grid.
fn single<E: Engine>(rt: &impl Abort, engine: &mut E, shape: Shape) -> Option<Rel>
    requires row { shape.rows ≤ 40 }
    requires col { shape.cols ≤ 40 }
    ensures standing { IfSome result (Stands (E.worker engine.new)) }
    ensures keeps { Keeps (E.worker engine.old) (E.worker engine.new) }
{
    if shape.rows == 0 || shape.cols == 0 {
        return None;
    }
    Some(given(rt, engine.single(shape, shape.rows - 1, shape.cols - 1)))
}

/// The cell-wise operators, on relations of one type.
fn of_one_type<E: Engine>(
    rt: &impl Abort,
    engine: &mut E,
    operation: Operation,
    r: Rel,
    s: Rel,
) -> Option<Rel>
    requires left { Stands (E.worker engine.old) r }
    requires right { Stands (E.worker engine.old) s }
    ensures standing { IfSome result (Stands (E.worker engine.new)) }
    ensures keeps { Keeps (E.worker engine.old) (E.worker engine.new) }
{
    if r.rows != s.rows || r.cols != s.cols {
        return None;
    }
    let answer = match operation {
        Operation::Union => engine.union(r, s),
        Operation::Inter => engine.inter(r, s),
        _ => engine.diff(r, s),
    };
    Some(given(rt, answer))
}

/// Composition, residuals and the symmetric quotient, on relations with one size in common.
fn of_two_types<E: Engine>(
    rt: &impl Abort,
    engine: &mut E,
    operation: Operation,
    r: Rel,
    s: Rel,
) -> Option<Rel>
    requires left { Stands (E.worker engine.old) r }
    requires right { Stands (E.worker engine.old) s }
    ensures standing { IfSome result (Stands (E.worker engine.new)) }
    ensures keeps { Keeps (E.worker engine.old) (E.worker engine.new) }
{
    match operation {
        Operation::Compose if r.cols == s.rows => Some(given(rt, engine.compose(r, s))),
        Operation::Right if r.rows == s.rows => Some(given(rt, engine.right(r, s))),
        Operation::Left if r.cols == s.cols => Some(given(rt, engine.left(r, s))),
        Operation::Syq if r.rows == s.rows => Some(given(rt, engine.syq(r, s))),
        _ => None,
    }
}

/// Closures of a square relation, and the identity on its rows.
fn closed<E: Engine>(rt: &impl Abort, engine: &mut E, operation: Operation, r: Rel) -> Option<Rel>
    requires standing { Stands (E.worker engine.old) r }
    requires row { r.rows ≤ 40 }
    ensures standing { IfSome result (Stands (E.worker engine.new)) }
    ensures keeps { Keeps (E.worker engine.old) (E.worker engine.new) }
{
    match operation {
        Operation::Identity => Some(given(rt, engine.identity(r.rows))),
        Operation::Trans if r.rows == r.cols => Some(given(rt, engine.trans(r))),
        Operation::Refl if r.rows == r.cols => Some(given(rt, engine.refl(r))),
        _ => None,
    }
}

/// Projections and injections, from two sizes.
fn of_sizes<E: Engine>(rt: &impl Abort, engine: &mut E, operation: Operation, x: u32, y: u32) -> Rel
    requires row { x ≤ 40 }
    requires col { y ≤ 40 }
    ensures standing { Stands (E.worker engine.new) result }
    ensures keeps { Keeps (E.worker engine.old) (E.worker engine.new) }
{
    let answer = match operation {
        Operation::First => engine.first(x, y),
        Operation::Second => engine.second(x, y),
        Operation::Inl => engine.inl(x, y),
        _ => engine.inr(x, y),
    };
    wanted(rt, answer)
}

/// Membership of few elements, and the pairing.
fn subsets_or_pairs<E: Engine>(
    rt: &impl Abort,
    engine: &mut E,
    operation: Operation,
    r: Rel,
    s: Rel,
) -> Option<Rel>
    requires left { Stands (E.worker engine.old) r }
    requires right { Stands (E.worker engine.old) s }
    ensures standing { IfSome result (Stands (E.worker engine.new)) }
    ensures keeps { Keeps (E.worker engine.old) (E.worker engine.new) }
{
    match operation {
        Operation::Epsi if r.rows <= 6 => Some(wanted(rt, engine.epsi(r.rows))),
        Operation::Fork if r.rows == s.rows => Some(wanted(rt, engine.fork(r, s))),
        _ => None,
    }
}

/// Choice, and the elements of a vector.
fn chosen<E: Engine>(rt: &impl Abort, engine: &mut E, operation: Operation, r: Rel) -> Option<Rel>
    requires standing { Stands (E.worker engine.old) r }
    ensures standing { IfSome result (Stands (E.worker engine.new)) }
    ensures keeps { Keeps (E.worker engine.old) (E.worker engine.new) }
{
    match operation {
        Operation::Atom => Some(given(rt, engine.atom(r))),
        Operation::Dom => Some(given(rt, engine.dom(r))),
        Operation::Ran => Some(given(rt, engine.ran(r))),
        Operation::Inj if r.cols == 1 => Some(given(rt, engine.inj(r))),
        Operation::Point if r.cols == 1 => Some(given(rt, engine.point(r))),
        Operation::Init if r.cols == 1 => Some(given(rt, engine.init(r))),
        Operation::Next if r.cols == 1 => Some(given(rt, engine.next(r))),
        _ => None,
    }
}
