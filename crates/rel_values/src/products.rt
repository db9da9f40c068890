//! Composition, residuals, the symmetric quotient, the domain of definition and the range.
ghost use Rattle.std.specs.Prelude.{◌≡◌, IfSome};
ghost use Rattle.rel_model.specs.Operators.{compose as compose_of, right_residual, left_residual, symmetric_quotient};
ghost use Rattle.rel_model.specs.Choice.{dom as dom_of, ran as ran_of};
ghost use Rattle.rel_model.specs.Worker.{product_room, wide_room};
ghost use Rattle.rel_steps.specs.Reading.{OnlyReads};
ghost use Rattle.rel_slices.specs.Thin.{ValueStands, value_of, value_rows, value_cols};
ghost use Rattle.rel_slices.specs.declared.thin.Value.TheVariants.{Whole};
ghost use Rattle.rel_values.specs.Values.{Fits, Operates};

use crate::shaping::both_in_form;
use crate::standing::{both_left_whole, both_whole, stays_whole};
use rel_model::{Lack, Rel, Shape};
use rel_slices::{Remembers, Value, full, shape_of, transpose};
use std::alloc::Global;

/// A product has a small result up to this many rows and columns.
pub(crate) const SMALL: u32 = 256;

/// The relations of two values, if both are whole, one of them is better left so, and their composition is small. For
/// one with a large result, lines are better.
fn both_left_for_product<E: Remembers>(engine: &mut E, x: &Value, y: &Value) -> Option<(Rel, Rel)>
    requires left { ValueStands (E.worker engine.old) x.now }
    requires right { ValueStands (E.worker engine.old) y.now }
    ensures some { IfSome result (λ p. (x.now ≡ Whole p.0) × (y.now ≡ Whole p.1)) }
    ensures reads { OnlyReads (E.worker engine.old) (E.worker engine.new) }
{
    if shape_of(x).rows > SMALL || shape_of(y).cols > SMALL {
        return None;
    }
    both_left_whole(engine, x, y)
}

/// `R*S = {(i, k) : (i, j) in r and (j, k) in s for some j}`: the composition of a k × m and an m × n value (Schmidt
/// and Ströhlein).
pub fn compose<E: Remembers>(
    alloc: Global,
    engine: &mut E,
    x: &Value,
    y: &Value,
) -> Result<Value, Lack>
    requires left { Fits (E.worker engine.old) x.now }
    requires right { Fits (E.worker engine.old) y.now }
    requires middle { value_cols x.now ≡ value_rows y.now }
    ensures operates { let w = E.worker engine.old in Operates E.least E.lean w (E.worker engine.new)
        (value_rows x.now) (value_cols y.now)
        (compose_of (value_of w x.now) (value_of w y.now))
        (product_room (value_rows x.now) (value_cols x.now) (value_cols y.now)) result }
{
    if let Some((r, s)) = both_left_for_product(engine, x, y) {
        return stays_whole(engine.compose(r, s));
    }
    compose_in_form(alloc, engine, x, y)
}

/// The same, by values in their forms.
fn compose_in_form<E: Remembers>(
    alloc: Global,
    engine: &mut E,
    x: &Value,
    y: &Value,
) -> Result<Value, Lack>
    requires left { Fits (E.worker engine.old) x.now }
    requires right { Fits (E.worker engine.old) y.now }
    requires middle { value_cols x.now ≡ value_rows y.now }
    ensures operates { let w = E.worker engine.old in Operates E.least E.lean w (E.worker engine.new)
        (value_rows x.now) (value_cols y.now)
        (compose_of (value_of w x.now) (value_of w y.now))
        (product_room (value_rows x.now) (value_cols x.now) (value_cols y.now)) result }
{
    let two = both_in_form(engine, x, y)?;
    rel_slices::compose(alloc, engine, &two.0, &two.1)
}

/// `R\S = {(j, k) : (i, j) in r implies (i, k) in s, for all i}`: the right residual of an m × n and an m × p value
/// (Schmidt and Ströhlein).
pub fn right<E: Remembers>(
    alloc: Global,
    engine: &mut E,
    x: &Value,
    y: &Value,
) -> Result<Value, Lack>
    requires left { Fits (E.worker engine.old) x.now }
    requires right { Fits (E.worker engine.old) y.now }
    requires rows { value_rows x.now ≡ value_rows y.now }
    ensures operates { let w = E.worker engine.old in Operates E.least E.lean w (E.worker engine.new)
        (value_cols x.now) (value_cols y.now)
        (right_residual (value_of w x.now) (value_of w y.now))
        (wide_room (value_rows x.now) (value_cols x.now) (value_cols y.now)) result }
{
    if let Some((r, s)) = both_left_whole(engine, x, y) {
        return stays_whole(engine.right(r, s));
    }
    right_in_form(alloc, engine, x, y)
}

/// The same, by values in their forms.
fn right_in_form<E: Remembers>(
    alloc: Global,
    engine: &mut E,
    x: &Value,
    y: &Value,
) -> Result<Value, Lack>
    requires left { Fits (E.worker engine.old) x.now }
    requires right { Fits (E.worker engine.old) y.now }
    requires rows { value_rows x.now ≡ value_rows y.now }
    ensures operates { let w = E.worker engine.old in Operates E.least E.lean w (E.worker engine.new)
        (value_cols x.now) (value_cols y.now)
        (right_residual (value_of w x.now) (value_of w y.now))
        (wide_room (value_rows x.now) (value_cols x.now) (value_cols y.now)) result }
{
    let two = both_in_form(engine, x, y)?;
    if let Some((r, s)) = both_whole(&two.0, &two.1) {
        return stays_whole(engine.right(r, s));
    }
    rel_slices::right(alloc, engine, &two.0, &two.1)
}

/// `S/R = {(i, j) : (j, k) in r implies (i, k) in s, for all k}`: the left residual of an m × p and an n × p value
/// (Schmidt and Ströhlein).
pub fn left<E: Remembers>(
    alloc: Global,
    engine: &mut E,
    x: &Value,
    y: &Value,
) -> Result<Value, Lack>
    requires left { Fits (E.worker engine.old) x.now }
    requires right { Fits (E.worker engine.old) y.now }
    requires cols { value_cols x.now ≡ value_cols y.now }
    ensures operates { let w = E.worker engine.old in Operates E.least E.lean w (E.worker engine.new)
        (value_rows x.now) (value_rows y.now)
        (left_residual (value_of w x.now) (value_of w y.now))
        (wide_room (value_rows x.now) (value_cols x.now) (value_rows y.now)) result }
{
    if let Some((r, s)) = both_left_whole(engine, x, y) {
        return stays_whole(engine.left(r, s));
    }
    left_in_form(alloc, engine, x, y)
}

/// The same, by values in their forms.
fn left_in_form<E: Remembers>(
    alloc: Global,
    engine: &mut E,
    x: &Value,
    y: &Value,
) -> Result<Value, Lack>
    requires left { Fits (E.worker engine.old) x.now }
    requires right { Fits (E.worker engine.old) y.now }
    requires cols { value_cols x.now ≡ value_cols y.now }
    ensures operates { let w = E.worker engine.old in Operates E.least E.lean w (E.worker engine.new)
        (value_rows x.now) (value_rows y.now)
        (left_residual (value_of w x.now) (value_of w y.now))
        (wide_room (value_rows x.now) (value_cols x.now) (value_rows y.now)) result }
{
    let two = both_in_form(engine, x, y)?;
    if let Some((r, s)) = both_whole(&two.0, &two.1) {
        return stays_whole(engine.left(r, s));
    }
    rel_slices::left(alloc, engine, &two.0, &two.1)
}

/// `syq(R,S) = {(j, k) : (i, j) in r exactly if (i, k) in s, for all i}`: the symmetric quotient of an m × n and an m ×
/// p value (Schmidt and Ströhlein).
pub fn syq<E: Remembers>(alloc: Global, engine: &mut E, x: &Value, y: &Value) -> Result<Value, Lack>
    requires left { Fits (E.worker engine.old) x.now }
    requires right { Fits (E.worker engine.old) y.now }
    requires rows { value_rows x.now ≡ value_rows y.now }
    ensures operates { let w = E.worker engine.old in Operates E.least E.lean w (E.worker engine.new)
        (value_cols x.now) (value_cols y.now)
        (symmetric_quotient (value_of w x.now) (value_of w y.now))
        (wide_room (value_rows x.now) (value_cols x.now) (value_cols y.now)) result }
{
    if let Some((r, s)) = both_left_whole(engine, x, y) {
        return stays_whole(engine.syq(r, s));
    }
    syq_in_form(alloc, engine, x, y)
}

/// The same, by values in their forms.
fn syq_in_form<E: Remembers>(
    alloc: Global,
    engine: &mut E,
    x: &Value,
    y: &Value,
) -> Result<Value, Lack>
    requires left { Fits (E.worker engine.old) x.now }
    requires right { Fits (E.worker engine.old) y.now }
    requires rows { value_rows x.now ≡ value_rows y.now }
    ensures operates { let w = E.worker engine.old in Operates E.least E.lean w (E.worker engine.new)
        (value_cols x.now) (value_cols y.now)
        (symmetric_quotient (value_of w x.now) (value_of w y.now))
        (wide_room (value_rows x.now) (value_cols x.now) (value_cols y.now)) result }
{
    let two = both_in_form(engine, x, y)?;
    if let Some((r, s)) = both_whole(&two.0, &two.1) {
        return stays_whole(engine.syq(r, s));
    }
    rel_slices::syq(alloc, engine, &two.0, &two.1)
}

/// `R*L`, where L is a full column: the domain of definition.
fn with_ones<E: Remembers>(alloc: Global, engine: &mut E, v: &Value) -> Result<Value, Lack>
    requires fits { Fits (E.worker engine.old) v.now }
    ensures operates { let w = E.worker engine.old in Operates E.least E.lean w (E.worker engine.new)
        (value_rows v.now) 1
        (dom_of (value_of w v.now))
        (wide_room (value_rows v.now) (value_cols v.now) 1) result }
{
    let ones = full(
        engine,
        Shape {
            rows: shape_of(v).cols,
            cols: 1,
        },
    )?;
    compose(alloc, engine, v, &ones)
}

/// `{(i, 0) : (i, j) in r for some j}`: the domain of definition, as a vector (Schmidt and Ströhlein).
pub fn dom<E: Remembers>(alloc: Global, engine: &mut E, v: &Value) -> Result<Value, Lack>
    requires fits { Fits (E.worker engine.old) v.now }
    ensures operates { let w = E.worker engine.old in Operates E.least E.lean w (E.worker engine.new)
        (value_rows v.now) 1
        (dom_of (value_of w v.now))
        (wide_room (value_rows v.now) (value_cols v.now) 1) result }
{
    match v {
        Value::Whole(r) => stays_whole(engine.dom(*r)),
        Value::Lines(_) => with_ones(alloc, engine, v),
    }
}

/// `{(j, 0) : (i, j) in r for some i}`: the range, as a vector (Schmidt and Ströhlein).
pub fn ran<E: Remembers>(alloc: Global, engine: &mut E, v: &Value) -> Result<Value, Lack>
    requires fits { Fits (E.worker engine.old) v.now }
    ensures operates { let w = E.worker engine.old in Operates E.least E.lean w (E.worker engine.new)
        (value_cols v.now) 1
        (ran_of (value_of w v.now))
        (wide_room (value_rows v.now) (value_cols v.now) 1) result }
{
    match v {
        Value::Whole(r) => stays_whole(engine.ran(*r)),
        Value::Lines(_) => {
            let turned = transpose(engine, v)?;
            with_ones(alloc, engine, &turned)
        }
    }
}
