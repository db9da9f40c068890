//! Base calls for bounds and extremes, with their type tests.
ghost use Rattle.std.specs.Prelude.{◌≡◌, [], ◌∷◌, true};
ghost use Rattle.rel_slices.specs.Thin.{value_of, value_rows, value_cols};
ghost use Rattle.rel_values.specs.Values.{Fits};
ghost use Rattle.rel_model.specs.Relation.{Relation};
ghost use Rattle.lang_model.specs.Rooms.{order_cost};
ghost use Rattle.lang_model.specs.Outcomes.{Makes};
ghost use Rattle.lang_model.specs.Mean.{based, base_made_of_two};
ghost use Rattle.rel_values.specs.Bounds.{bound_of};
ghost use Rattle.rv_eval.specs.Demands.{bounds};
ghost use Rattle.rv_eval.specs.Ends.{Performs};

use crate::faults::{not_alike, not_square};
use crate::halt::Halt;
use crate::operators::lift;
use crate::shapes::shape_in;
use lang_model::syntax::{Base, Place};
use rel_model::engine_trait::Engine;
use rel_slices::Value;
use rel_values::Bound;
use std::alloc::Global;

/// Which bounds or extremes a base call asks for.
fn bound_named(base: Base) -> Bound
    requires { bounds base ≡ true }
    ensures { (r s : Relation) → base_made_of_two base r s ≡
        Makes (bound_of result r s) (order_cost r.rows r.cols s.cols) }
{
    match base {
        Base::Ubd => Bound::Upper,
        Base::Lbd => Bound::Lower,
        Base::Least => Bound::Least,
        Base::Greatest => Bound::Greatest,
        Base::Sup => Bound::Suprema,
        _ => Bound::Infima,
    }
}

/// A base call for bounds or extremes whose operands fit.
fn bounded<E: Engine>(
    engine: &mut E,
    at: Place,
    base: Base,
    r: &Value,
    s: &Value,
) -> Result<Value, Halt>
    requires bounds { bounds base ≡ true }
    requires left { Fits (E.worker engine.old) r.now }
    requires right { Fits (E.worker engine.old) s.now }
    requires square { value_rows r.now ≡ value_cols r.now }
    requires rows { value_rows r.now ≡ value_rows s.now }
    ensures { let w = E.worker engine.old in
        Performs E.least w (E.worker engine.new) (based at base (value_of w r.now ∷ value_of w s.now ∷ [])) result }
{
    lift(rel_values::bounds(engine, bound_named(base), r, s))
}

/// A base call for bounds or extremes. The first operand must be square, and the second must have as many rows.
pub fn bounding<E: Engine>(
    alloc: Global,
    engine: &mut E,
    at: Place,
    base: Base,
    r: &Value,
    s: &Value,
) -> Result<Value, Halt>
    requires bounds { bounds base ≡ true }
    requires left { Fits (E.worker engine.old) r.now }
    requires right { Fits (E.worker engine.old) s.now }
    ensures { let w = E.worker engine.old in
        Performs E.least w (E.worker engine.new) (based at base (value_of w r.now ∷ value_of w s.now ∷ [])) result }
{
    let a = shape_in(engine, r);
    let b = shape_in(engine, s);
    if a.rows != a.cols {
        Err(not_square(alloc, at, base, a))
    } else if a.rows != b.rows {
        Err(not_alike(alloc, at, base, a, b))
    } else {
        bounded(engine, at, base, r, s)
    }
}
