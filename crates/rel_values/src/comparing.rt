//! Tests: whether two values are equal, or one is contained in the other.
ghost use Rattle.std.specs.Prelude.{◌≡◌, ◌↔◌, IfOk, IsTrue};
ghost use Rattle.rel_model.specs.Operators.{diff as diff_of, empty as empty_relation};
ghost use Rattle.rel_model.specs.Worker.{Stands, set_of, Keeps, MakesAtMost, HasCause, operator_room};
ghost use Rattle.rel_slices.specs.Thin.{value_of, value_rows, value_cols};
ghost use Rattle.rel_values.specs.Values.{Fits};
ghost use Rattle.rel_values.specs.Deciding.{Decides};

use crate::shaping::both_in_form;
use rel_model::engine_trait::Engine;
use rel_model::{Lack, Rel};
use rel_slices::{Remembers, Value};

/// Whether two values of one type have the same pairs, after bringing each into the form of its sizes.
fn same_in_form<E: Remembers>(engine: &mut E, x: &Value, y: &Value) -> Result<bool, Lack>
    requires left { Fits (E.worker engine.old) x.now }
    requires right { Fits (E.worker engine.old) y.now }
    requires rows { value_rows x.now ≡ value_rows y.now }
    requires cols { value_cols x.now ≡ value_cols y.now }
    ensures decides { let w = E.worker engine.old in Decides E.lean w (E.worker engine.new)
        (value_of w x.now ≡ value_of w y.now)
        (operator_room (value_rows x.now) (value_cols x.now)) result }
{
    let two = both_in_form(engine, x, y)?;
    Ok(rel_slices::same(engine, &two.0, &two.1))
}

/// `R = S`: whether two values of one type have the same pairs.
pub fn same<E: Remembers>(engine: &mut E, x: &Value, y: &Value) -> Result<bool, Lack>
    requires left { Fits (E.worker engine.old) x.now }
    requires right { Fits (E.worker engine.old) y.now }
    requires rows { value_rows x.now ≡ value_rows y.now }
    requires cols { value_cols x.now ≡ value_cols y.now }
    ensures value { let w = E.worker engine.old in
        IfOk result (λ yes. IsTrue yes ↔ (value_of w x.now ≡ value_of w y.now)) }
    ensures keeps { Keeps (E.worker engine.old) (E.worker engine.new) }
    ensures room { MakesAtMost (operator_room (value_rows x.now) (value_cols x.now)) (E.worker engine.old)
        (E.worker engine.new) }
    ensures cause { HasCause E.lean (E.worker engine.old) (E.worker engine.new) result }
{
    match x {
        Value::Whole(r) => match y {
            Value::Whole(s) => Ok(engine.same(*r, *s)),
            Value::Lines(_) => same_in_form(engine, x, y),
        },
        Value::Lines(_) => same_in_form(engine, x, y),
    }
}

/// Whether the first value is contained in the second, after bringing each into the form of its sizes.
fn included_in_form<E: Remembers>(engine: &mut E, x: &Value, y: &Value) -> Result<bool, Lack>
    requires left { Fits (E.worker engine.old) x.now }
    requires right { Fits (E.worker engine.old) y.now }
    requires rows { value_rows x.now ≡ value_rows y.now }
    requires cols { value_cols x.now ≡ value_cols y.now }
    ensures decides { let w = E.worker engine.old in Decides E.lean w (E.worker engine.new)
        (diff_of (value_of w x.now) (value_of w y.now) ≡ empty_relation (value_rows x.now) (value_cols x.now))
        (operator_room (value_rows x.now) (value_cols x.now)) result }
{
    let two = both_in_form(engine, x, y)?;
    let yes = rel_slices::included(engine, &two.0, &two.1)?;
    Ok(yes)
}

/// Whether the first of two whole relations is contained in the second.
fn included_whole<E: Engine>(engine: &mut E, r: Rel, s: Rel) -> Result<bool, Lack>
    requires left { Stands (E.worker engine.old) r }
    requires right { Stands (E.worker engine.old) s }
    requires rows { r.rows ≡ s.rows }
    requires cols { r.cols ≡ s.cols }
    ensures decides { let w = E.worker engine.old in Decides E.lean w (E.worker engine.new)
        (diff_of (set_of w r) (set_of w s) ≡ empty_relation r.rows r.cols)
        (operator_room r.rows r.cols) result }
{
    let rest = engine.diff(r, s)?;
    Ok(engine.is_empty(rest))
}

/// `R <= S`: whether each pair of the first value is in the second. Both have one type.
pub fn included<E: Remembers>(engine: &mut E, x: &Value, y: &Value) -> Result<bool, Lack>
    requires left { Fits (E.worker engine.old) x.now }
    requires right { Fits (E.worker engine.old) y.now }
    requires rows { value_rows x.now ≡ value_rows y.now }
    requires cols { value_cols x.now ≡ value_cols y.now }
    ensures value { let w = E.worker engine.old in IfOk result (λ yes. IsTrue yes
        ↔ (diff_of (value_of w x.now) (value_of w y.now) ≡ empty_relation (value_rows x.now) (value_cols x.now))) }
    ensures keeps { Keeps (E.worker engine.old) (E.worker engine.new) }
    ensures room { MakesAtMost (operator_room (value_rows x.now) (value_cols x.now)) (E.worker engine.old)
        (E.worker engine.new) }
    ensures cause { HasCause E.lean (E.worker engine.old) (E.worker engine.new) result }
{
    match x {
        Value::Whole(r) => match y {
            Value::Whole(s) => included_whole(engine, *r, *s),
            Value::Lines(_) => included_in_form(engine, x, y),
        },
        Value::Lines(_) => included_in_form(engine, x, y),
    }
}
