ghost use Rattle.std.specs.Prelude.{◌≡◌, IfOk};
ghost use Rattle.rel_model.specs.Operators.{symmetric_quotient};
ghost use Rattle.rel_model.specs.Worker.{Stands, set_of, Keeps, MakesAtMost, Gives, HasCause, wide_room};

use crate::residuals::{left, right};
use rel_model::core_trait::Core;
use rel_model::{Lack, Rel};

/// `syq(R,S) = {(j, k) : (i, j) in r exactly if (i, k) in s, for all i}`: the symmetric quotient of an m × n and an m ×
/// p relation (Schmidt and Ströhlein).
///
/// It is computed as `(R\S) & (R^/S^)`: both implications.
pub fn syq<C: Core>(core: &mut C, r: Rel, s: Rel) -> Result<Rel, Lack>
    requires left { Stands (C.worker core.old) r }
    requires right { Stands (C.worker core.old) s }
    requires rows { r.rows ≡ s.rows }
    ensures value { IfOk result (Gives (C.worker core.new) r.cols s.cols
        (symmetric_quotient (set_of (C.worker core.old) r) (set_of (C.worker core.old) s))) }
    ensures keeps { Keeps (C.worker core.old) (C.worker core.new) }
    ensures room { MakesAtMost (wide_room r.rows r.cols s.cols) (C.worker core.old) (C.worker core.new) }
    ensures cause { HasCause C.lean (C.worker core.old) (C.worker core.new) result }
{
    let forth = right(core, r, s)?;
    let r_turned = core.transpose(r)?;
    let s_turned = core.transpose(s)?;
    let back = left(core, r_turned, s_turned)?;
    let both = core.inter(forth, back)?;
    Ok(both)
}
