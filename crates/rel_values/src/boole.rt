//! The Boolean operators, and the full and the empty relation.
ghost use Rattle.std.specs.Prelude.{◌≡◌, ◌≤◌, IfOk};
ghost use Rattle.rel_model.specs.Operators.{union as union_of, inter as inter_of, complement as complement_of, full as full_relation, empty as empty_relation};
ghost use Rattle.rel_model.specs.Relation.{size_limit};
ghost use Rattle.rel_model.specs.Worker.{Stands, set_of, Gives, Keeps, MakesAtMost, HasCause, plain_room};
ghost use Rattle.rel_slices.specs.Ops.{boole_of};
ghost use Rattle.rel_slices.specs.Thin.{value_of, value_rows, value_cols};
ghost use Rattle.rel_values.specs.Values.{Fits, Operates};

use crate::shaping::{both_in_form, in_form};
use crate::standing::{both_left_whole, left_whole, stays_whole};
use rel_model::engine_trait::Engine;
use rel_model::{Lack, Rel, Shape};
use rel_slices::{Boole, Remembers, Value};

/// Applies an operator to two values of one type.
fn between<E: Remembers>(engine: &mut E, op: Boole, x: &Value, y: &Value) -> Result<Value, Lack>
    requires left { Fits (E.worker engine.old) x.now }
    requires right { Fits (E.worker engine.old) y.now }
    requires rows { value_rows x.now ≡ value_rows y.now }
    requires cols { value_cols x.now ≡ value_cols y.now }
    ensures operates { let w = E.worker engine.old in Operates E.least E.lean w (E.worker engine.new)
        (value_rows x.now) (value_cols x.now)
        (boole_of op (value_of w x.now) (value_of w y.now))
        (plain_room (value_rows x.now) (value_cols x.now)) result }
{
    let two = both_in_form(engine, x, y)?;
    let made = rel_slices::boole(engine, op, &two.0, &two.1)?;
    Ok(made)
}

/// `R | S = {(i, j) : (i, j) in r or (i, j) in s}`: the union of two values of one type (Schmidt and Ströhlein).
pub fn union<E: Remembers>(engine: &mut E, x: &Value, y: &Value) -> Result<Value, Lack>
    requires left { Fits (E.worker engine.old) x.now }
    requires right { Fits (E.worker engine.old) y.now }
    requires rows { value_rows x.now ≡ value_rows y.now }
    requires cols { value_cols x.now ≡ value_cols y.now }
    ensures operates { let w = E.worker engine.old in Operates E.least E.lean w (E.worker engine.new)
        (value_rows x.now) (value_cols x.now)
        (union_of (value_of w x.now) (value_of w y.now))
        (plain_room (value_rows x.now) (value_cols x.now)) result }
{
    if let Some((r, s)) = both_left_whole(engine, x, y) {
        return stays_whole(engine.union(r, s));
    }
    between(engine, Boole::Union, x, y)
}

/// `R & S = {(i, j) : (i, j) in r and (i, j) in s}`: the intersection of two values of one type (Schmidt and
/// Ströhlein).
pub fn inter<E: Remembers>(engine: &mut E, x: &Value, y: &Value) -> Result<Value, Lack>
    requires left { Fits (E.worker engine.old) x.now }
    requires right { Fits (E.worker engine.old) y.now }
    requires rows { value_rows x.now ≡ value_rows y.now }
    requires cols { value_cols x.now ≡ value_cols y.now }
    ensures operates { let w = E.worker engine.old in Operates E.least E.lean w (E.worker engine.new)
        (value_rows x.now) (value_cols x.now)
        (inter_of (value_of w x.now) (value_of w y.now))
        (plain_room (value_rows x.now) (value_cols x.now)) result }
{
    if let Some((r, s)) = both_left_whole(engine, x, y) {
        return stays_whole(engine.inter(r, s));
    }
    between(engine, Boole::Inter, x, y)
}

/// The complement of a whole relation within its sizes.
fn whole_complement<E: Engine>(engine: &mut E, r: Rel) -> Result<Rel, Lack>
    requires { Stands (E.worker engine.old) r }
    ensures value { IfOk result (Gives (E.worker engine.new) r.rows r.cols
        (complement_of (set_of (E.worker engine.old) r))) }
    ensures keeps { Keeps (E.worker engine.old) (E.worker engine.new) }
    ensures room { MakesAtMost (plain_room r.rows r.cols) (E.worker engine.old) (E.worker engine.new) }
    ensures cause { HasCause E.lean (E.worker engine.old) (E.worker engine.new) result }
{
    let shape = Shape {
        rows: r.rows,
        cols: r.cols,
    };
    let all = engine.full(shape)?;
    let rest = engine.diff(all, r)?;
    Ok(rest)
}

/// `-R = {(i, j) : not (i, j) in r}`: the complement within the sizes of R (Schmidt and Ströhlein).
pub fn complement<E: Remembers>(engine: &mut E, v: &Value) -> Result<Value, Lack>
    requires fits { Fits (E.worker engine.old) v.now }
    ensures operates { let w = E.worker engine.old in Operates E.least E.lean w (E.worker engine.new)
        (value_rows v.now) (value_cols v.now)
        (complement_of (value_of w v.now))
        (plain_room (value_rows v.now) (value_cols v.now)) result }
{
    if let Some(r) = left_whole(engine, v) {
        return stays_whole(whole_complement(engine, r));
    }
    complement_in_form(engine, v)
}

/// The same, by a value in its form.
fn complement_in_form<E: Remembers>(engine: &mut E, v: &Value) -> Result<Value, Lack>
    requires fits { Fits (E.worker engine.old) v.now }
    ensures operates { let w = E.worker engine.old in Operates E.least E.lean w (E.worker engine.new)
        (value_rows v.now) (value_cols v.now)
        (complement_of (value_of w v.now))
        (plain_room (value_rows v.now) (value_cols v.now)) result }
{
    let a = in_form(engine, v)?;
    let rest = rel_slices::complement(engine, &a)?;
    Ok(rest)
}

/// `{(i, j) : i < rows, j < cols}`: the full relation of these sizes, which must be within the limit.
pub fn full<E: Engine>(engine: &mut E, shape: Shape) -> Result<Value, Lack>
    requires row_limit { shape.rows ≤ size_limit }
    requires col_limit { shape.cols ≤ size_limit }
    ensures operates { let w = E.worker engine.old in Operates E.least E.lean w (E.worker engine.new)
        shape.rows shape.cols
        (full_relation shape.rows shape.cols)
        (plain_room shape.rows shape.cols) result }
{
    let all = rel_slices::full(engine, shape)?;
    Ok(all)
}

/// `{}`: the empty relation of these sizes, which must be within the limit.
pub fn empty<E: Engine>(engine: &mut E, shape: Shape) -> Result<Value, Lack>
    requires row_limit { shape.rows ≤ size_limit }
    requires col_limit { shape.cols ≤ size_limit }
    ensures operates { let w = E.worker engine.old in Operates E.least E.lean w (E.worker engine.new)
        shape.rows shape.cols
        (empty_relation shape.rows shape.cols)
        (plain_room shape.rows shape.cols) result }
{
    let none = rel_slices::empty(engine, shape)?;
    Ok(none)
}
