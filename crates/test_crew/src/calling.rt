//! A caller that is generic over any worker.
ghost use Rattle.std.specs.Prelude.{◌≡◌, IfOk};
ghost use Rattle.rel_model.specs.Operators.{union as union_of, transpose as transpose_of};
ghost use Rattle.rel_model.specs.Worker.{Stands, set_of, Keeps, Gives, HasCause};

use crate::twins::given;
use rel_model::core_trait::Core;
use rel_model::{Lack, Rel};
use std::process::Abort;

/// `{(i, j) : (i, j) in a or (j, i) in b}`.
fn union_transposed<C: Core>(core: &mut C, a: Rel, b: Rel) -> Result<Rel, Lack>
    requires left { Stands (C.worker core.old) a }
    requires right { Stands (C.worker core.old) b }
    requires rows { a.rows ≡ b.cols }
    requires cols { a.cols ≡ b.rows }
    ensures value { IfOk result (Gives (C.worker core.new) a.rows a.cols
        (union_of (set_of (C.worker core.old) a) (transpose_of (set_of (C.worker core.old) b)))) }
    ensures keeps { Keeps (C.worker core.old) (C.worker core.new) }
    ensures cause { HasCause C.lean (C.worker core.old) (C.worker core.new) result }
{
    let turned = core.transpose(b)?;
    core.union(a, turned)
}

/// Asserts that the union of a relation and its transposition is symmetric.
pub(crate) fn is_symmetric<C: Core>(rt: &impl Abort, core: &mut C, r: Rel)
    requires standing { Stands (C.worker core.old) r }
    requires square { r.rows ≡ r.cols }
    ensures { Keeps (C.worker core.old) (C.worker core.new) }
{
    let both = given(rt, union_transposed(core, r, r));
    let turned = given(rt, core.transpose(both));
    assert!(rt; core.same(both, turned), "both ways");
}
