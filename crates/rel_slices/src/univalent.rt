//! Whether a value is univalent, by its lines: rows one at a time, columns two at a time. No node is made.
ghost use Rattle.std.specs.Prelude.{◌≡◌, ◌<◌, not, ℕ};
ghost use Rattle.rel_model.specs.Cells.{some_below};
ghost use Rattle.rel_model.specs.Choice.{is_unival};
ghost use Rattle.rel_model.specs.Worker.{Keeps, MakesAtMost, MissesNothing};
ghost use Rattle.rel_slices.specs.Thin.{line_set, ThinStands, ValueStands, value_of};
ghost use Rattle.rel_slices.specs.Ops.{meet};

use crate::thin::{Thin, Value};
use rel_model::core_trait::Core;
use rel_model::engine_trait::Engine;

/// Whether each line has at most one element.
fn each_single<E: Engine>(engine: &mut E, s: &Thin) -> bool
    requires { ThinStands (E.worker engine.old) s.now }
    ensures value { let w = E.worker engine.old in result ≡ not (some_below s.now.count
        (λ i. not (is_unival (line_set w s.now i)))) }
    ensures keeps { Keeps (E.worker engine.old) (E.worker engine.new) }
    ensures room { MakesAtMost 0 (E.worker engine.old) (E.worker engine.new) }
    ensures misses { MissesNothing (E.worker engine.old) (E.worker engine.new) }
{
    'lines: for i in 0..s.count {
        if !engine.unival(s.line(i)) {
            return false;
        }
    }
    true
}

/// Whether line `j` meets none of the lines before it.
fn is_apart<C: Core>(core: &mut C, s: &Thin, j: u32) -> bool
    requires standing { ThinStands (C.worker core.old) s.now }
    requires place { j < s.now.count }
    ensures value { let w = C.worker core.old in result ≡ not (some_below j (λ k. meet s.now.other
        (line_set w s.now k) (line_set w s.now j))) }
    ensures keeps { Keeps (C.worker core.old) (C.worker core.new) }
    ensures room { MakesAtMost 0 (C.worker core.old) (C.worker core.new) }
    ensures misses { MissesNothing (C.worker core.old) (C.worker core.new) }
{
    'earlier: for k in 0..j {
        if core.meets(s.line(k), s.line(j)) {
            return false;
        }
    }
    true
}

/// Whether no two lines meet.
fn all_apart<C: Core>(core: &mut C, s: &Thin) -> bool
    requires { ThinStands (C.worker core.old) s.now }
    ensures value { let w = C.worker core.old in result ≡ not (some_below s.now.count (λ j. some_below j
        (λ k. meet s.now.other (line_set w s.now k) (line_set w s.now j)))) }
    ensures keeps { Keeps (C.worker core.old) (C.worker core.new) }
    ensures room { MakesAtMost 0 (C.worker core.old) (C.worker core.new) }
    ensures misses { MissesNothing (C.worker core.old) (C.worker core.new) }
{
    'lines: for j in 0..s.count {
        if !is_apart(core, s, j) {
            return false;
        }
    }
    true
}

/// Whether no row has two pairs: the value is univalent (Schmidt and Ströhlein).
pub fn unival<E: Engine>(engine: &mut E, v: &Value) -> bool
    requires { ValueStands (E.worker engine.old) v.now }
    ensures value { result ≡ is_unival (value_of (E.worker engine.old) v.now) }
    ensures keeps { Keeps (E.worker engine.old) (E.worker engine.new) }
    ensures room { MakesAtMost 0 (E.worker engine.old) (E.worker engine.new) }
    ensures misses { MissesNothing (E.worker engine.old) (E.worker engine.new) }
{
    match v {
        Value::Whole(r) => engine.unival(*r),
        Value::Lines(s) => {
            if s.turned {
                all_apart(engine, s)
            } else {
                each_single(engine, s)
            }
        }
    }
}
