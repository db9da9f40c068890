//! Whether a value is univalent.
ghost use Rattle.std.specs.Prelude.{◌≡◌};
ghost use Rattle.rel_model.specs.Choice.{is_unival};
ghost use Rattle.rel_model.specs.Relation.{Relation, IsRelation};
ghost use Rattle.rel_model.specs.Worker.{Stands, set_of, Keeps, MakesAtMost, MissesNothing};
ghost use Rattle.rel_steps.specs.Reading.{OnlyReads};
ghost use Rattle.rel_slices.specs.Thin.{ValueStands, value_of};

use rel_joins::scattered_pairs;
use rel_listing::pairs_within;
use rel_model::Rel;
use rel_model::engine_trait::Engine;
use rel_slices::{Remembers, Value};
use std::alloc::Global;

/// Whether no two pairs of an increasing list have one row: only neighbours could.
fn rows_differ(pairs: &[(u32, u32)]) -> bool
    ensures { (r : Relation) → IsRelation r → pairs.now ≡ r.pairs → result ≡ is_unival r }
{
    'pairs: for k in 1..pairs.len() {
        if pairs[k - 1].0 == pairs[k].0 {
            return false;
        }
    }
    true
}

/// Whether a relation is scattered, and may have as few pairs as it has rows: an estimate may be twice too high.
fn may_be_listed<E: Engine>(engine: &mut E, r: Rel) -> bool
    requires { Stands (E.worker engine.old) r }
    ensures { OnlyReads (E.worker engine.old) (E.worker engine.new) }
{
    match scattered_pairs(engine, r) {
        Some(pairs) => pairs / 2 <= u64::from(r.rows),
        None => false,
    }
}

/// Whether no row of a relation has two pairs. A scattered relation is listed, if it has no more pairs than rows and
/// there is memory for them: by quarters, the rows of quarters that lie side by side are compared again and again.
fn whole_unival<E: Engine>(alloc: Global, engine: &mut E, r: Rel) -> bool
    requires { Stands (E.worker engine.old) r }
    ensures value { result ≡ is_unival (set_of (E.worker engine.old) r) }
    ensures keeps { Keeps (E.worker engine.old) (E.worker engine.new) }
    ensures room { MakesAtMost 0 (E.worker engine.old) (E.worker engine.new) }
    ensures misses { MissesNothing (E.worker engine.old) (E.worker engine.new) }
{
    if may_be_listed(engine, r) {
        match pairs_within(alloc, engine, r, r.rows as usize) {
            Some(pairs) => return rows_differ(&pairs),
            None => {}
        }
    }
    engine.unival(r)
}

/// Whether no row has two pairs: the value is univalent (Schmidt and Ströhlein). No node is made.
pub fn unival<E: Remembers>(alloc: Global, engine: &mut E, v: &Value) -> bool
    requires { ValueStands (E.worker engine.old) v.now }
    ensures value { result ≡ is_unival (value_of (E.worker engine.old) v.now) }
    ensures keeps { Keeps (E.worker engine.old) (E.worker engine.new) }
    ensures room { MakesAtMost 0 (E.worker engine.old) (E.worker engine.new) }
    ensures misses { MissesNothing (E.worker engine.old) (E.worker engine.new) }
{
    match v {
        Value::Whole(r) => whole_unival(alloc, engine, *r),
        Value::Lines(_) => rel_slices::unival(engine, v),
    }
}
