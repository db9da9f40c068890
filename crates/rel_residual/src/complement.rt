ghost use Rattle.std.specs.Prelude.{◌+◌, IfOk};
ghost use Rattle.rel_model.specs.Operators.{complement as complement_of};
ghost use Rattle.rel_model.specs.Worker.{Stands, set_of, Keeps, MakesAtMost, Gives, HasCause, operator_room};

use rel_model::core_trait::Core;
use rel_model::{Lack, Rel, Shape};

/// `{(i, j) : not (i, j) in r}`: the complement, computed as the difference of the full relation and r.
pub fn complement<C: Core>(core: &mut C, r: Rel) -> Result<Rel, Lack>
    requires { Stands (C.worker core.old) r }
    ensures value { IfOk result (Gives (C.worker core.new) r.rows r.cols
        (complement_of (set_of (C.worker core.old) r))) }
    ensures keeps { Keeps (C.worker core.old) (C.worker core.new) }
    ensures room { MakesAtMost (operator_room r.rows r.cols + operator_room r.rows r.cols) (C.worker core.old)
        (C.worker core.new) }
    ensures cause { HasCause C.lean (C.worker core.old) (C.worker core.new) result }
{
    let shape = Shape {
        rows: r.rows,
        cols: r.cols,
    };
    let full = core.full(shape)?;
    let rest = core.diff(full, r)?;
    Ok(rest)
}
