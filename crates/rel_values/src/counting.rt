//! How many pairs a value has.
ghost use Rattle.std.specs.Prelude.{◌≡◌, ◌<◌, IfOk, OnErr};
ghost use Rattle.rel_model.specs.Choice.{count as count_of};
ghost use Rattle.rel_model.specs.Worker.{Keeps, MakesAtMost, MissesNothing};
ghost use Rattle.rel_slices.specs.Thin.{ThinStands, ValueStands, thin_of, value_of};

use rel_model::NoMemory;
use rel_model::engine_trait::Engine;
use rel_slices::{Remembers, Thin, Value};
use std::alloc::Global;

/// How many pairs all lines have together.
pub(crate) fn lines_count<E: Engine>(
    alloc: Global,
    engine: &mut E,
    s: &Thin,
) -> Result<u64, NoMemory>
    requires { ThinStands (E.worker engine.old) s.now }
    ensures value { IfOk result (λ n. n ≡ count_of (thin_of (E.worker engine.old) s.now)) }
    ensures keeps { Keeps (E.worker engine.old) (E.worker engine.new) }
    ensures room { MakesAtMost 0 (E.worker engine.old) (E.worker engine.new) }
    ensures misses { MissesNothing (E.worker engine.old) (E.worker engine.new) }
    ensures some { OnErr result (0 < count_of (thin_of (E.worker engine.old) s.now)) }
{
    let mut total = 0;
    'lines: for i in 0..s.count {
        let more = engine.count(alloc, s.line(i))?;
        total += more;
    }
    Ok(total)
}

/// How many pairs a value has. Nothing is made whole, so this makes no node. Refused only if memory runs out, and never
/// if the value is empty.
pub fn count<E: Remembers>(alloc: Global, engine: &mut E, v: &Value) -> Result<u64, NoMemory>
    requires { ValueStands (E.worker engine.old) v.now }
    ensures value { IfOk result (λ n. n ≡ count_of (value_of (E.worker engine.old) v.now)) }
    ensures keeps { Keeps (E.worker engine.old) (E.worker engine.new) }
    ensures room { MakesAtMost 0 (E.worker engine.old) (E.worker engine.new) }
    ensures misses { MissesNothing (E.worker engine.old) (E.worker engine.new) }
    ensures some { OnErr result (0 < count_of (value_of (E.worker engine.old) v.now)) }
{
    match v {
        Value::Whole(r) => engine.count(alloc, *r),
        Value::Lines(s) => lines_count(alloc, engine, s),
    }
}
