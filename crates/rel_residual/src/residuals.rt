ghost use Rattle.std.specs.Prelude.{◌≡◌, IfOk};
ghost use Rattle.rel_model.specs.Operators.{right_residual, left_residual};
ghost use Rattle.rel_model.specs.Worker.{Stands, set_of, Keeps, MakesAtMost, Gives, HasCause, derived_room};

use crate::complement::complement;
use rel_model::core_trait::Core;
use rel_model::{Lack, Rel};

/// `R\S = {(j, k) : (i, j) in r implies (i, k) in s, for all i}`: the right residual of an m × n and an m × p relation
/// (Schmidt and Ströhlein).
///
/// It is computed as `-(R^ * -S)`: the pairs (j, k) for which no i has (i, j) in r but not (i, k) in s.
pub fn right<C: Core>(core: &mut C, r: Rel, s: Rel) -> Result<Rel, Lack>
    requires left { Stands (C.worker core.old) r }
    requires right { Stands (C.worker core.old) s }
    requires rows { r.rows ≡ s.rows }
    ensures value { IfOk result (Gives (C.worker core.new) r.cols s.cols
        (right_residual (set_of (C.worker core.old) r) (set_of (C.worker core.old) s))) }
    ensures keeps { Keeps (C.worker core.old) (C.worker core.new) }
    ensures room { MakesAtMost (derived_room r.rows r.cols s.cols) (C.worker core.old) (C.worker core.new) }
    ensures cause { HasCause C.lean (C.worker core.old) (C.worker core.new) result }
{
    let turned = core.transpose(r)?;
    let lacking = complement(core, s)?;
    let broken = core.compose(turned, lacking)?;
    let rest = complement(core, broken)?;
    Ok(rest)
}

/// `S/R = {(i, j) : (j, k) in r implies (i, k) in s, for all k}`: the left residual of an m × p and an n × p relation
/// (Schmidt and Ströhlein).
///
/// It is computed as `-(-S * R^)`: the pairs (i, j) for which no k has (j, k) in r but not (i, k) in s.
pub fn left<C: Core>(core: &mut C, s: Rel, r: Rel) -> Result<Rel, Lack>
    requires left { Stands (C.worker core.old) s }
    requires right { Stands (C.worker core.old) r }
    requires cols { s.cols ≡ r.cols }
    ensures value { IfOk result (Gives (C.worker core.new) s.rows r.rows
        (left_residual (set_of (C.worker core.old) s) (set_of (C.worker core.old) r))) }
    ensures keeps { Keeps (C.worker core.old) (C.worker core.new) }
    ensures room { MakesAtMost (derived_room s.rows s.cols r.rows) (C.worker core.old) (C.worker core.new) }
    ensures cause { HasCause C.lean (C.worker core.old) (C.worker core.new) result }
{
    let lacking = complement(core, s)?;
    let turned = core.transpose(r)?;
    let broken = core.compose(lacking, turned)?;
    let rest = complement(core, broken)?;
    Ok(rest)
}
