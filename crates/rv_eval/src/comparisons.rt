//! Base calls of two operands, with their type tests.
ghost use Rattle.std.specs.Prelude.{◌≡◌, ◌==◌, ◌&&◌, [], ◌∷◌};
ghost use Rattle.rel_slices.specs.Thin.{value_of, value_rows, value_cols};
ghost use Rattle.rel_values.specs.Values.{Fits};
ghost use Rattle.lang_model.specs.declared.syntax.Base.TheVariants.{Syq, Eq, Incl};
ghost use Rattle.lang_model.specs.Mean.{based};
ghost use Rattle.rv_eval.specs.Ends.{Performs};

use crate::bases::{none_given, truth};
use crate::bounds::bounding;
use crate::faults::not_alike;
use crate::halt::Halt;
use crate::operators::lift;
use crate::shapes::shape_in;
use lang_model::syntax::{Base, Place};
use rel_model::Shape;
use rel_slices::{Remembers, Value};
use rel_values::{included, same, syq};
use std::alloc::Global;

/// Whether relations of these sizes have the same type.
fn alike(r: Shape, s: Shape) -> bool
    ensures { result ≡ ((r.rows == s.rows) && (r.cols == s.cols)) }
{
    r.rows == s.rows && r.cols == s.cols
}

/// `syq(R,S) = {(j, k) : (i, j) in r exactly if (i, k) in s, for all i}`: the symmetric quotient. Both operands must
/// have equally many rows.
fn quotient<E: Remembers>(
    alloc: Global,
    engine: &mut E,
    at: Place,
    r: &Value,
    s: &Value,
) -> Result<Value, Halt>
    requires left { Fits (E.worker engine.old) r.now }
    requires right { Fits (E.worker engine.old) s.now }
    ensures { let w = E.worker engine.old in
        Performs E.least w (E.worker engine.new) (based at Syq (value_of w r.now ∷ value_of w s.now ∷ [])) result }
{
    let a = shape_in(engine, r);
    let b = shape_in(engine, s);
    if a.rows == b.rows {
        lift(syq(alloc, engine, r, s))
    } else {
        Err(not_alike(alloc, at, Base::Syq, a, b))
    }
}

/// `eq(R,S)`: whether two relations of one type have the same pairs.
fn equality<E: Remembers>(
    alloc: Global,
    engine: &mut E,
    at: Place,
    r: &Value,
    s: &Value,
) -> Result<Value, Halt>
    requires left { Fits (E.worker engine.old) r.now }
    requires right { Fits (E.worker engine.old) s.now }
    ensures { let w = E.worker engine.old in
        Performs E.least w (E.worker engine.new) (based at Eq (value_of w r.now ∷ value_of w s.now ∷ [])) result }
{
    let a = shape_in(engine, r);
    let b = shape_in(engine, s);
    if alike(a, b) {
        let yes = match same(engine, r, s) {
            Ok(yes) => yes,
            Err(lack) => return Err(Halt::Lack(lack)),
        };
        truth(engine, yes)
    } else {
        Err(not_alike(alloc, at, Base::Eq, a, b))
    }
}

/// `incl(R,S)`: whether each pair of the first relation is in the second. Both must have one type.
fn inclusion<E: Remembers>(
    alloc: Global,
    engine: &mut E,
    at: Place,
    r: &Value,
    s: &Value,
) -> Result<Value, Halt>
    requires left { Fits (E.worker engine.old) r.now }
    requires right { Fits (E.worker engine.old) s.now }
    ensures { let w = E.worker engine.old in
        Performs E.least w (E.worker engine.new) (based at Incl (value_of w r.now ∷ value_of w s.now ∷ [])) result }
{
    let a = shape_in(engine, r);
    let b = shape_in(engine, s);
    if alike(a, b) {
        let yes = match included(engine, r, s) {
            Ok(yes) => yes,
            Err(lack) => return Err(Halt::Lack(lack)),
        };
        truth(engine, yes)
    } else {
        Err(not_alike(alloc, at, Base::Incl, a, b))
    }
}

/// A base call of two operands. If the base name never takes two operands in a script text, the result is the empty
/// relation with no rows and no columns.
pub fn base_of_two<E: Remembers>(
    alloc: Global,
    engine: &mut E,
    at: Place,
    base: Base,
    r: &Value,
    s: &Value,
) -> Result<Value, Halt>
    requires left { Fits (E.worker engine.old) r.now }
    requires right { Fits (E.worker engine.old) s.now }
    ensures { let w = E.worker engine.old in
        Performs E.least w (E.worker engine.new) (based at base (value_of w r.now ∷ value_of w s.now ∷ [])) result }
{
    match base {
        Base::Syq => quotient(alloc, engine, at, r, s),
        Base::Eq => equality(alloc, engine, at, r, s),
        Base::Incl => inclusion(alloc, engine, at, r, s),
        Base::Ubd => bounding(alloc, engine, at, Base::Ubd, r, s),
        Base::Lbd => bounding(alloc, engine, at, Base::Lbd, r, s),
        Base::Least => bounding(alloc, engine, at, Base::Least, r, s),
        Base::Greatest => bounding(alloc, engine, at, Base::Greatest, r, s),
        Base::Sup => bounding(alloc, engine, at, Base::Sup, r, s),
        Base::Inf => bounding(alloc, engine, at, Base::Inf, r, s),
        _ => none_given(engine),
    }
}
