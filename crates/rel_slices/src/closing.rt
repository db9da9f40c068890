//! The transitive closure of a whole relation.
ghost use Rattle.std.specs.Prelude.{◌≡◌, IfOk};
ghost use Rattle.rel_model.specs.Closures.{transitive_closure};
ghost use Rattle.rel_model.specs.Worker.{Stands, set_of, Gives, Keeps, MakesAtMost, HasCause, derived_room};

use rel_joins::close_by_lists;
use rel_model::engine_trait::Engine;
use rel_model::{Lack, Rel};
use std::alloc::Global;

/// `trans(R)`: the transitive closure of a square relation, the pairs joined by a walk of at least one step: by lists
/// of pairs if that pays, otherwise by the engine.
pub fn trans<E: Engine>(alloc: Global, engine: &mut E, r: Rel) -> Result<Rel, Lack>
    requires standing { Stands (E.worker engine.old) r }
    requires square { r.rows ≡ r.cols }
    ensures value { IfOk result (Gives (E.worker engine.new) r.rows r.cols
        (transitive_closure (set_of (E.worker engine.old) r))) }
    ensures keeps { Keeps (E.worker engine.old) (E.worker engine.new) }
    ensures room { MakesAtMost (derived_room r.rows r.rows r.rows) (E.worker engine.old) (E.worker engine.new) }
    ensures cause { HasCause E.lean (E.worker engine.old) (E.worker engine.new) result }
{
    let listed = close_by_lists(alloc, engine, r)?;
    match listed {
        Some(closure) => Ok(closure),
        None => {
            let closure = engine.trans(r)?;
            Ok(closure)
        }
    }
}
