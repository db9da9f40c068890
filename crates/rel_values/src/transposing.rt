//! Transposition.
ghost use Rattle.std.specs.Prelude.{◌≡◌, IfOk};
ghost use Rattle.rel_model.specs.Operators.{transpose as transpose_of, transposed_by};
ghost use Rattle.rel_model.specs.Worker.{Stands, set_of, Gives, Keeps, MakesAtMost, HasCause, operator_room, plain_room};
ghost use Rattle.rel_slices.specs.Thin.{value_of, value_rows, value_cols};
ghost use Rattle.rel_values.specs.Values.{Fits, Operates};

use rel_model::{Lack, Rel};
use rel_slices::{Remembers, Value};

/// The transposition of a whole relation, recalled if it is remembered, and otherwise made and noted.
fn whole_transposed<E: Remembers>(engine: &mut E, r: Rel) -> Result<Rel, Lack>
    requires { Stands (E.worker engine.old) r }
    ensures value { IfOk result (Gives (E.worker engine.new) r.cols r.rows
        (transpose_of (set_of (E.worker engine.old) r))) }
    ensures keeps { Keeps (E.worker engine.old) (E.worker engine.new) }
    ensures room { MakesAtMost (operator_room r.rows r.cols) (E.worker engine.old) (E.worker engine.new) }
    ensures cause { HasCause E.lean (E.worker engine.old) (E.worker engine.new) result }
{
    if let Some(transposed) = engine.transposed(r) {
        return Ok(transposed);
    }
    let transposed = engine.transpose(r)?;
    engine.note_transposed(r, transposed);
    Ok(transposed)
}

/// `R^ = {(j, i) : (i, j) in r}`: the transposition (Schmidt and Ströhlein). Lines are transposed without making a
/// node, and a whole value stays whole.
pub(crate) fn transposed<E: Remembers>(engine: &mut E, v: &Value) -> Result<Value, Lack>
    requires fits { Fits (E.worker engine.old) v.now }
    ensures operates { let w = E.worker engine.old in Operates E.least E.lean w (E.worker engine.new)
        (value_cols v.now) (value_rows v.now)
        (transpose_of (value_of w v.now))
        (operator_room (value_rows v.now) (value_cols v.now)) result }
{
    match v {
        Value::Whole(r) => {
            let turned = whole_transposed(engine, *r)?;
            Ok(Value::Whole(turned))
        }
        Value::Lines(_) => {
            let turned = rel_slices::transpose(engine, v)?;
            Ok(turned)
        }
    }
}

/// `R^...^`: a value transposed `times` times.
pub fn turned<E: Remembers>(engine: &mut E, v: &Value, times: u32) -> Result<Value, Lack>
    requires fits { Fits (E.worker engine.old) v.now }
    ensures operates { let w = E.worker engine.old in Operates E.least E.lean w (E.worker engine.new)
        (transposed_by times (value_of w v.now)).rows (transposed_by times (value_of w v.now)).cols
        (transposed_by times (value_of w v.now))
        (plain_room (value_rows v.now) (value_cols v.now)) result }
{
    if times % 2 == 0 {
        return Ok(*v);
    }
    transposed(engine, v)
}
