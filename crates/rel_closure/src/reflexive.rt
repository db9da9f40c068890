ghost use Rattle.std.specs.Prelude.{◌≡◌, ◌<◌, ◌≤◌, ◌+◌, ◌-◌, ◌*◌, IfOk};
ghost use Rattle.rel_model.specs.Relation.{size_limit};
ghost use Rattle.rel_model.specs.Operators.{identity as identity_of};
ghost use Rattle.rel_model.specs.Closures.{reflexive_closure};
ghost use Rattle.rel_model.specs.Worker.{Stands, set_of, Keeps, MakesAtMost, Gives, HasCause, operator_room, derived_room, wide_room};
ghost use Rattle.rel_closure.specs.Diagonal.{diagonal};

use rel_model::core_trait::Core;
use rel_model::{Lack, Rel, Shape};

/// `{(i, i) : first <= i < first + count}` of n elements, as the union of two halves.
fn part<C: Core>(core: &mut C, n: u32, first: u32, count: u32) -> Result<Rel, Lack>
    requires limit { n ≤ size_limit }
    requires some { 0 < count }
    requires within { first + count ≤ n }
    ensures value { IfOk result (Gives (C.worker core.new) n n (diagonal n first count)) }
    ensures keeps { Keeps (C.worker core.old) (C.worker core.new) }
    ensures room { MakesAtMost ((count + count - 1) * operator_room n n) (C.worker core.old) (C.worker core.new) }
    ensures cause { HasCause C.lean (C.worker core.old) (C.worker core.new) result }
{
    if count == 1 {
        let one = core.single(Shape { rows: n, cols: n }, first, first)?;
        return Ok(one);
    }
    let half = count / 2;
    let left = part(core, n, first, half)?;
    let right = part(core, n, first + half, count - half)?;
    let both = core.union(left, right)?;
    Ok(both)
}

/// `I = {(i, i)}`: the identity of n elements (Schmidt and Ströhlein), by one call of `single` for each element.
pub fn identity<C: Core>(core: &mut C, n: u32) -> Result<Rel, Lack>
    requires limit { n ≤ size_limit }
    ensures value { IfOk result (Gives (C.worker core.new) n n (identity_of n)) }
    ensures keeps { Keeps (C.worker core.old) (C.worker core.new) }
    ensures room { MakesAtMost (derived_room n n n) (C.worker core.old) (C.worker core.new) }
    ensures cause { HasCause C.lean (C.worker core.old) (C.worker core.new) result }
{
    if n == 0 {
        let none = core.empty(Shape { rows: n, cols: n })?;
        return Ok(none);
    }
    let all = part(core, n, 0, n)?;
    Ok(all)
}

/// `refl(R) = R | I`: the reflexive closure, a square relation with all pairs (i, i) added (Schmidt and Ströhlein).
pub fn refl<C: Core>(core: &mut C, r: Rel) -> Result<Rel, Lack>
    requires standing { Stands (C.worker core.old) r }
    requires square { r.rows ≡ r.cols }
    ensures value { IfOk result (Gives (C.worker core.new) r.rows r.cols
        (reflexive_closure (set_of (C.worker core.old) r))) }
    ensures keeps { Keeps (C.worker core.old) (C.worker core.new) }
    ensures room { MakesAtMost (wide_room r.rows r.rows r.rows) (C.worker core.old) (C.worker core.new) }
    ensures cause { HasCause C.lean (C.worker core.old) (C.worker core.new) result }
{
    let same = identity(core, r.rows)?;
    let both = core.union(r, same)?;
    Ok(both)
}
