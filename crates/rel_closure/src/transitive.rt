ghost use Rattle.std.specs.Prelude.{◌≡◌, ◌≤◌, ◌+◌, ◌-◌, ◌*◌, ◌^◌, ℕ, max, IfOk, OnOk};
ghost use Rattle.rel_model.specs.Closures.{walks_within, transitive_closure};
ghost use Rattle.rel_model.specs.Worker.{Stands, set_of, Keeps, MakesAtMost, Gives, HasCause, derived_room};

use rel_model::core_trait::Core;
use rel_model::counter::Steps;
use rel_model::{Lack, Rel};
use std::marker::Brand;
use std::sync::ledger::{Blank, Ledger};

/// `trans(R)`: the pairs joined by a walk of at least one step (Schmidt and Ströhlein), by squaring. R must be square.
/// Each composition is counted.
///
/// After k squarings the result has the pairs joined by walks of up to `2^k` steps, and as many steps as there are
/// elements are enough. It stops early if a squaring adds no pair. So it counts no fewer than the closure needs: with k
/// counted, walks of up to `2^k` steps are the closure.
pub fn trans_counted<C: Core, L: Ledger>(
    core: &mut C,
    r: Rel,
    steps: &mut Steps<L>,
) -> Result<Rel, Lack>
    requires standing { Stands (C.worker core.old) r }
    requires square { r.rows ≡ r.cols }
    ensures value { IfOk result (Gives (C.worker core.new) r.rows r.cols
        (transitive_closure (set_of (C.worker core.old) r))) }
    ensures keeps { Keeps (C.worker core.old) (C.worker core.new) }
    ensures room { MakesAtMost (derived_room r.rows r.rows r.rows) (C.worker core.old) (C.worker core.new) }
    ensures nothing { r.rows ≤ 1 → MakesAtMost 0 (C.worker core.old) (C.worker core.new) }
    ensures cause { HasCause C.lean (C.worker core.old) (C.worker core.new) result }
    ensures rises { steps.old ≤ steps.new }
    ensures digits { 2 ^ (steps.new - steps.old) ≤ max 1 (2 * r.rows - 1) }
    ensures enough { OnOk result (transitive_closure (set_of (C.worker core.old) r)
        ≡ walks_within (2 ^ (steps.new - steps.old)) (set_of (C.worker core.old) r)) }
{
    let mut walks = r;
    let mut reach: u64 = 1;
    'squares: while reach < r.rows as u64 {
        steps.step();
        let square = core.compose(walks, walks)?;
        let more = core.union(walks, square)?;
        if core.same(walks, more) {
            return Ok(walks);
        }
        walks = more;
        reach += reach;
    }
    Ok(walks)
}

/// The same with a counter of its own.
fn trans_alone<C: Core, L: Ledger>(core: &mut C, r: Rel, blank: Blank) -> Result<Rel, Lack>
    requires standing { Stands (C.worker core.old) r }
    requires square { r.rows ≡ r.cols }
    requires name { blank.name ≡ L.name }
    requires parts { blank.parts ≡ L.parts }
    requires some { blank.parts ≡ 1 }
    ensures value { IfOk result (Gives (C.worker core.new) r.rows r.cols
        (transitive_closure (set_of (C.worker core.old) r))) }
    ensures keeps { Keeps (C.worker core.old) (C.worker core.new) }
    ensures room { MakesAtMost (derived_room r.rows r.rows r.rows) (C.worker core.old) (C.worker core.new) }
    ensures nothing { r.rows ≤ 1 → MakesAtMost 0 (C.worker core.old) (C.worker core.new) }
    ensures cause { HasCause C.lean (C.worker core.old) (C.worker core.new) result }
{
    let mut steps: Steps<L> = Steps::new(blank);
    match trans_counted(core, r, &mut steps) {
        Ok(closure) => Ok(closure),
        Err(lack) => Err(lack),
    }
}

/// `trans(R)`: the transitive closure of a square relation, the pairs joined by a walk of at least one step (Schmidt
/// and Ströhlein).
pub fn trans<C: Core>(core: &mut C, r: Rel) -> Result<Rel, Lack>
    requires standing { Stands (C.worker core.old) r }
    requires square { r.rows ≡ r.cols }
    ensures value { IfOk result (Gives (C.worker core.new) r.rows r.cols
        (transitive_closure (set_of (C.worker core.old) r))) }
    ensures keeps { Keeps (C.worker core.old) (C.worker core.new) }
    ensures room { MakesAtMost (derived_room r.rows r.rows r.rows) (C.worker core.old) (C.worker core.new) }
    ensures nothing { r.rows ≤ 1 → MakesAtMost 0 (C.worker core.old) (C.worker core.new) }
    ensures cause { HasCause C.lean (C.worker core.old) (C.worker core.new) result }
{
    trans_alone::<C, Brand>(core, r, Blank::new(1))
}
