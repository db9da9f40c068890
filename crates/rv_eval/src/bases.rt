//! Calls of base names, with their type tests.
ghost use Rattle.std.specs.Prelude.{◌≡◌, [], ◌∷◌, map};
ghost use Rattle.std.specs.List.{AllByRecursion};
ghost use Rattle.rel_model.specs.Worker.{Stands, set_of, operator_room};
ghost use Rattle.rel_slices.specs.Thin.{value_of, value_rows, value_cols};
ghost use Rattle.rel_values.specs.Values.{Fits};
ghost use Rattle.rel_model.specs.Operators.{empty as empty_relation};
ghost use Rattle.lang_model.specs.Outcomes.{no_cost, Makes};
ghost use Rattle.lang_model.specs.Mean.{based, answer_of_test};
ghost use Rattle.rv_eval.specs.declared.bases.Demand.TheVariants.{Nothing, Square, OneColumn};
ghost use Rattle.rv_eval.specs.Demands.{demanded};
ghost use Rattle.rv_eval.specs.Ends.{Performs};

use crate::comparisons::base_of_two;
use crate::domain_calls::lift_domain;
use crate::faults::{not_square, not_vector};
use crate::halt::Halt;
use crate::operators::{as_whole, lift};
use crate::shapes::shape_in;
use lang_model::syntax::{Base, Place};
use rel_model::engine_trait::Engine;
use rel_model::{Rel, Shape};
use rel_order::{hasse, less, quot};
use rel_slices::{Remembers, Value, is_empty, trans};
use rel_values::{atom, dom, empty, epsi, full, init, inj, next, point, ran, square, unival};
use std::alloc::Global;

/// A truth value: the full or the empty relation with one row and one column.
pub fn truth<E: Engine>(engine: &mut E, yes: bool) -> Result<Value, Halt>
    ensures { let w = E.worker engine.old in
        Performs E.least w (E.worker engine.new) (Makes (answer_of_test yes) (λ leaf. operator_room 1 1)) result }
{
    let shape = Shape { rows: 1, cols: 1 };
    if yes {
        lift(as_whole(engine.full(shape)))
    } else {
        lift(as_whole(engine.empty(shape)))
    }
}

/// The empty relation with no rows and no columns. It stands in for calls that no script text can contain.
pub fn none_given<E: Engine>(engine: &mut E) -> Result<Value, Halt>
    ensures { let w = E.worker engine.old in
        Performs E.least w (E.worker engine.new) (Makes (empty_relation 0 0) no_cost) result }
{
    lift(as_whole(engine.empty(Shape { rows: 0, cols: 0 })))
}

/// A base call whose one operand may have any type. If the base name never takes one operand in a script text, the
/// result is the empty relation with no rows and no columns.
fn plain_base<E: Remembers>(
    alloc: Global,
    engine: &mut E,
    at: Place,
    base: Base,
    r: &Value,
) -> Result<Value, Halt>
    requires demands { demanded base ≡ Nothing }
    requires standing { Fits (E.worker engine.old) r.now }
    ensures { let w = E.worker engine.old in
        Performs E.least w (E.worker engine.new) (based at base (value_of w r.now ∷ [])) result }
{
    let shape = shape_in(engine, r);
    let rows = shape.rows;
    let cols = shape.cols;
    match base {
        Base::L => lift(full(engine, Shape { rows, cols })),
        Base::O => lift(empty(engine, Shape { rows, cols })),
        Base::Ln1 => lift(full(engine, Shape { rows, cols: 1 })),
        Base::On1 => lift(empty(engine, Shape { rows, cols: 1 })),
        Base::L1n => lift(full(engine, Shape { rows: 1, cols })),
        Base::O1n => lift(empty(engine, Shape { rows: 1, cols })),
        Base::Dom => lift(dom(alloc, engine, r)),
        Base::Ran => lift(ran(alloc, engine, r)),
        Base::Atom => lift(atom(engine, r)),
        Base::Empty => {
            let yes = is_empty(engine, r);
            truth(engine, yes)
        }
        Base::Unival => {
            let yes = unival(alloc, engine, r);
            truth(engine, yes)
        }
        _ => none_given(engine),
    }
}

/// A base call of a square operand that is whole.
fn square_base<E: Engine>(
    alloc: Global,
    engine: &mut E,
    at: Place,
    base: Base,
    r: Rel,
) -> Result<Value, Halt>
    requires demands { demanded base ≡ Square }
    requires standing { Stands (E.worker engine.old) r }
    requires square { r.rows ≡ r.cols }
    ensures { let w = E.worker engine.old in
        Performs E.least w (E.worker engine.new) (based at base (set_of w r ∷ [])) result }
{
    match base {
        Base::I => lift(as_whole(engine.identity(r.rows))),
        Base::Trans => lift(as_whole(trans(alloc, engine, r))),
        Base::Less => lift(as_whole(less(engine, r.rows))),
        Base::Hasse => lift(as_whole(hasse(engine, r))),
        Base::Quot => lift(as_whole(quot(engine, r))),
        _ => lift(as_whole(engine.refl(r))),
    }
}

/// A base call of a square operand; a square is never thin.
fn square_value<E: Engine>(
    alloc: Global,
    engine: &mut E,
    at: Place,
    base: Base,
    r: &Value,
) -> Result<Value, Halt>
    requires demands { demanded base ≡ Square }
    requires standing { Fits (E.worker engine.old) r.now }
    requires square { value_rows r.now ≡ value_cols r.now }
    ensures { let w = E.worker engine.old in
        Performs E.least w (E.worker engine.new) (based at base (value_of w r.now ∷ [])) result }
{
    let whole = square(engine, r);
    square_base(alloc, engine, at, base, whole)
}

/// A base call of a vector.
fn vector_base<E: Engine>(engine: &mut E, at: Place, base: Base, r: &Value) -> Result<Value, Halt>
    requires demands { demanded base ≡ OneColumn }
    requires standing { Fits (E.worker engine.old) r.now }
    requires one_column { value_cols r.now ≡ 1 }
    ensures { let w = E.worker engine.old in
        Performs E.least w (E.worker engine.new) (based at base (value_of w r.now ∷ [])) result }
{
    let shape = shape_in(engine, r);
    match base {
        Base::Epsi => lift_domain(at, epsi(engine, shape.rows)),
        Base::Point => lift(point(engine, r)),
        Base::Init => lift(init(engine, r)),
        Base::Next => lift(next(engine, r)),
        _ => lift(inj(engine, r)),
    }
}

/// What a base call requires of its one operand. One byte.
#[derive(Clone, Copy)]
enum Demand {
    Nothing,
    Square,
    OneColumn,
}

/// What a base call requires of its one operand.
fn demand_of(base: Base) -> Demand
    ensures { result ≡ demanded base }
{
    match base {
        Base::I => Demand::Square,
        Base::Trans => Demand::Square,
        Base::Refl => Demand::Square,
        Base::Less => Demand::Square,
        Base::Hasse => Demand::Square,
        Base::Quot => Demand::Square,
        Base::Epsi => Demand::OneColumn,
        Base::Point => Demand::OneColumn,
        Base::Init => Demand::OneColumn,
        Base::Next => Demand::OneColumn,
        Base::Inj => Demand::OneColumn,
        _ => Demand::Nothing,
    }
}

/// A base call of one operand.
fn base_of_one<E: Remembers>(
    alloc: Global,
    engine: &mut E,
    at: Place,
    base: Base,
    r: &Value,
) -> Result<Value, Halt>
    requires standing { Fits (E.worker engine.old) r.now }
    ensures { let w = E.worker engine.old in
        Performs E.least w (E.worker engine.new) (based at base (value_of w r.now ∷ [])) result }
{
    let shape = shape_in(engine, r);
    match demand_of(base) {
        Demand::Nothing => plain_base(alloc, engine, at, base, r),
        Demand::Square => {
            if shape.rows == shape.cols {
                square_value(alloc, engine, at, base, r)
            } else {
                Err(not_square(alloc, at, base, shape))
            }
        }
        Demand::OneColumn => {
            if shape.cols == 1 {
                vector_base(engine, at, base, r)
            } else {
                Err(not_vector(alloc, at, base, shape))
            }
        }
    }
}

/// A base call. With no operand, or with more than two, which no script text can contain, the result is the empty
/// relation with no rows and no columns.
pub fn base_call<E: Remembers>(
    alloc: Global,
    engine: &mut E,
    at: Place,
    base: Base,
    values: &[Value],
) -> Result<Value, Halt>
    requires standing { AllByRecursion (Fits (E.worker engine.old)) values.now }
    ensures { let w = E.worker engine.old in
        Performs E.least w (E.worker engine.new) (based at base (map (value_of w) values.now)) result }
{
    if values.len() == 1 {
        base_of_one(alloc, engine, at, base, &values[0])
    } else if values.len() == 2 {
        base_of_two(alloc, engine, at, base, &values[0], &values[1])
    } else {
        none_given(engine)
    }
}
