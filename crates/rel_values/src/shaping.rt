//! Bringing a value into the form of its sizes.
ghost use Rattle.std.specs.Prelude.{◌≡◌, ◌+◌, IfOk};
ghost use Rattle.rel_model.specs.Worker.{Stands, set_of, Keeps, MakesAtMost, HasCause};
ghost use Rattle.rel_slices.specs.Thin.{value_of, value_rows, value_cols, GivesValue, HasForm};
ghost use Rattle.rel_slices.specs.ValueRooms.{formed_room};
ghost use Rattle.rel_values.specs.Values.{Fits, AreForms};

use rel_model::{Lack, Rel};
use rel_slices::{Remembers, Value, formed};

/// Cuts a relation into its lines if it is thin, and notes the lines.
fn cut<E: Remembers>(engine: &mut E, r: Rel) -> Result<Value, Lack>
    requires { Stands (E.worker engine.old) r }
    ensures value { IfOk result (GivesValue (E.worker engine.new) r.rows r.cols (set_of (E.worker engine.old) r)) }
    ensures form { IfOk result HasForm }
    ensures keeps { Keeps (E.worker engine.old) (E.worker engine.new) }
    ensures room { MakesAtMost (formed_room E.least r.rows r.cols) (E.worker engine.old) (E.worker engine.new) }
    ensures cause { HasCause E.lean (E.worker engine.old) (E.worker engine.new) result }
{
    let value = formed(engine, r)?;
    if let Value::Lines(lines) = &value {
        engine.note_lines(r, lines);
    }
    Ok(value)
}

/// A value in the form of its sizes: if it is whole although its sizes are thin, its lines are recalled, or else cut.
pub fn in_form<E: Remembers>(engine: &mut E, v: &Value) -> Result<Value, Lack>
    requires fits { Fits (E.worker engine.old) v.now }
    ensures value { IfOk result (GivesValue (E.worker engine.new) (value_rows v.now) (value_cols v.now)
        (value_of (E.worker engine.old) v.now)) }
    ensures form { IfOk result HasForm }
    ensures keeps { Keeps (E.worker engine.old) (E.worker engine.new) }
    ensures room { MakesAtMost (formed_room E.least (value_rows v.now) (value_cols v.now)) (E.worker engine.old)
        (E.worker engine.new) }
    ensures cause { HasCause E.lean (E.worker engine.old) (E.worker engine.new) result }
{
    match v {
        Value::Whole(r) => match engine.lines_of(*r) {
            Some(lines) => Ok(Value::Lines(lines)),
            None => cut(engine, *r),
        },
        Value::Lines(s) => Ok(Value::Lines(*s)),
    }
}

/// Two values, each in the form of its sizes.
pub fn both_in_form<E: Remembers>(
    engine: &mut E,
    x: &Value,
    y: &Value,
) -> Result<(Value, Value), Lack>
    requires left { Fits (E.worker engine.old) x.now }
    requires right { Fits (E.worker engine.old) y.now }
    ensures forms { IfOk result (λ p. AreForms (E.worker engine.old) (E.worker engine.new) x.now y.now p.0 p.1) }
    ensures keeps { Keeps (E.worker engine.old) (E.worker engine.new) }
    ensures room { MakesAtMost (formed_room E.least (value_rows x.now) (value_cols x.now)
        + formed_room E.least (value_rows y.now) (value_cols y.now)) (E.worker engine.old) (E.worker engine.new) }
    ensures cause { HasCause E.lean (E.worker engine.old) (E.worker engine.new) result }
{
    let first = in_form(engine, x)?;
    let second = in_form(engine, y)?;
    Ok((first, second))
}
