//! Making values whole.
ghost use Rattle.std.specs.Prelude.{◌≡◌, IfOk};
ghost use Rattle.rel_model.specs.Worker.{Gives, Keeps, MakesAtMost, HasCause};
ghost use Rattle.rel_slices.specs.declared.thin.Value.TheVariants.{Whole};
ghost use Rattle.rel_slices.specs.Thin.{value_of, value_rows, value_cols};
ghost use Rattle.rel_values.specs.Values.{Fits, owed};

use rel_model::engine_trait::Engine;
use rel_model::{Lack, Rel};
use rel_slices::{Remembers, Value};

/// A value as a whole relation. Its lines are noted, so that they need not be cut again when the relation is read
/// later.
pub fn whole<E: Remembers>(engine: &mut E, v: &Value) -> Result<Rel, Lack>
    requires fits { Fits (E.worker engine.old) v.now }
    ensures value { IfOk result (Gives (E.worker engine.new) (value_rows v.now) (value_cols v.now)
        (value_of (E.worker engine.old) v.now)) }
    ensures keeps { Keeps (E.worker engine.old) (E.worker engine.new) }
    ensures room { MakesAtMost (owed E.least v.now) (E.worker engine.old) (E.worker engine.new) }
    ensures cause { HasCause E.lean (E.worker engine.old) (E.worker engine.new) result }
{
    let made = rel_slices::made_whole(engine, v)?;
    if let Value::Lines(lines) = v {
        engine.note_lines(made, lines);
    }
    Ok(made)
}

/// The relation of a square value, which is whole already: a square is never thin.
pub fn square<E: Engine>(engine: &E, v: &Value) -> Rel
    requires fits { Fits (E.worker engine.now) v.now }
    requires square { value_rows v.now ≡ value_cols v.now }
    ensures { v.now ≡ Whole result }
{
    match v {
        Value::Whole(r) => *r,
        Value::Lines(_) => unreachable!(),
    }
}
