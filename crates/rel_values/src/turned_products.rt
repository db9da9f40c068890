//! Compositions with a transposition on the left, which need not be made.
ghost use Rattle.std.specs.Prelude.{◌≡◌, ◌≤◌};
ghost use Rattle.rel_model.specs.Worker.{operator_room, plain_room};
ghost use Rattle.rel_slices.specs.Thin.{IsLines, HasForm, value_rows, value_cols};
ghost use Rattle.rel_values.specs.Values.{Fits, ComposesTurned};

use crate::products::{SMALL, compose};
use crate::shaping::in_form;
use crate::transposing::transposed;
use rel_model::Lack;
use rel_slices::{Remembers, Value, shape_of, transpose};
use std::alloc::Global;

/// `R^*S` with the transposition made.
fn by_transposition<E: Remembers>(
    alloc: Global,
    engine: &mut E,
    x: &Value,
    y: &Value,
) -> Result<Value, Lack>
    requires left { Fits (E.worker engine.old) x.now }
    requires right { Fits (E.worker engine.old) y.now }
    requires rows { value_rows x.now ≡ value_rows y.now }
    ensures operates { ComposesTurned E.least E.lean (E.worker engine.old) (E.worker engine.new) x.now y.now
        (operator_room (value_rows x.now) (value_cols x.now)) result }
{
    let turned = transposed(engine, x)?;
    compose(alloc, engine, &turned, y)
}

/// `R^*S` as `(S^*R)^`, for an S that is lines and has no more columns than rows.
fn by_lines<E: Remembers>(
    alloc: Global,
    engine: &mut E,
    x: &Value,
    y: &Value,
) -> Result<Value, Lack>
    requires left { Fits (E.worker engine.old) x.now }
    requires right { Fits (E.worker engine.old) y.now }
    requires form { HasForm y.now }
    requires lines { IsLines y.now }
    requires rows { value_rows x.now ≡ value_rows y.now }
    requires tall { value_cols y.now ≤ value_rows y.now }
    ensures operates { ComposesTurned E.least E.lean (E.worker engine.old) (E.worker engine.new) x.now y.now
        (operator_room (value_rows x.now) (value_cols x.now)) result }
{
    let turned = transpose(engine, y)?;
    let product = compose(alloc, engine, &turned, x)?;
    transposed(engine, &product)
}

/// `R^*S` for an S in the form of its sizes that has no more columns than rows.
fn by_form<E: Remembers>(alloc: Global, engine: &mut E, x: &Value, y: &Value) -> Result<Value, Lack>
    requires left { Fits (E.worker engine.old) x.now }
    requires right { Fits (E.worker engine.old) y.now }
    requires form { HasForm y.now }
    requires rows { value_rows x.now ≡ value_rows y.now }
    requires tall { value_cols y.now ≤ value_rows y.now }
    ensures operates { ComposesTurned E.least E.lean (E.worker engine.old) (E.worker engine.new) x.now y.now
        (operator_room (value_rows x.now) (value_cols x.now)) result }
{
    match y {
        Value::Lines(_) => by_lines(alloc, engine, x, y),
        Value::Whole(_) => by_transposition(alloc, engine, x, y),
    }
}

/// `R^*S = {(j, k) : (i, j) in r and (i, k) in s for some i}`: the composition of the transposition of an m × n value
/// with an m × p value (Schmidt and Ströhlein). Of a large R and few columns it is `(S^*R)^`, so only lines are turned.
pub fn compose_turned<E: Remembers>(
    alloc: Global,
    engine: &mut E,
    x: &Value,
    y: &Value,
) -> Result<Value, Lack>
    requires left { Fits (E.worker engine.old) x.now }
    requires right { Fits (E.worker engine.old) y.now }
    requires rows { value_rows x.now ≡ value_rows y.now }
    ensures operates { ComposesTurned E.least E.lean (E.worker engine.old) (E.worker engine.new) x.now y.now
        (plain_room (value_rows x.now) (value_cols x.now)) result }
{
    let (left, right) = (shape_of(x), shape_of(y));
    if left.cols <= SMALL || right.rows < right.cols {
        return by_transposition(alloc, engine, x, y);
    }
    let second = in_form(engine, y)?;
    by_form(alloc, engine, x, &second)
}
