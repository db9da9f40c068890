//! The operators that go line by line.
ghost use Rattle.std.specs.Prelude.{◌≡◌, ◌≤◌, ◌*◌, ◌+◌, ℕ, IfOk};
ghost use Rattle.rel_model.specs.Roots.{relation_room};
ghost use Rattle.rel_model.specs.Worker.{Stands, set_of, Gives, Keeps, MakesAtMost, HasCause};
ghost use Rattle.rel_slices.specs.Thin.{line_set, ThinStands, GivesLines};
ghost use Rattle.rel_slices.specs.Ops.{boole_of};

use crate::thin::Thin;
use rel_model::core_trait::Core;
use rel_model::{Lack, Rel};

/// The operators that go line by line. One byte.
#[derive(Clone, Copy)]
pub enum Boole {
    Union,
    Inter,
    Diff,
}

/// Applies such an operator to two relations of one type.
pub fn one<C: Core>(core: &mut C, op: Boole, r: Rel, s: Rel) -> Result<Rel, Lack>
    requires left { Stands (C.worker core.old) r }
    requires right { Stands (C.worker core.old) s }
    requires rows { r.rows ≡ s.rows }
    requires cols { r.cols ≡ s.cols }
    ensures value { IfOk result (Gives (C.worker core.new) r.rows r.cols
        (boole_of op (set_of (C.worker core.old) r) (set_of (C.worker core.old) s))) }
    ensures keeps { Keeps (C.worker core.old) (C.worker core.new) }
    ensures room { MakesAtMost (relation_room C.least r.rows r.cols) (C.worker core.old) (C.worker core.new) }
    ensures cause { HasCause C.lean (C.worker core.old) (C.worker core.new) result }
{
    match op {
        Boole::Union => core.union(r, s),
        Boole::Inter => core.inter(r, s),
        Boole::Diff => core.diff(r, s),
    }
}

/// Applies such an operator to each pair of corresponding lines of two values of one form.
pub fn each<C: Core>(core: &mut C, op: Boole, a: &Thin, b: &Thin) -> Result<Thin, Lack>
    requires left { ThinStands (C.worker core.old) a.now }
    requires right { ThinStands (C.worker core.old) b.now }
    requires counts { a.now.count ≡ b.now.count }
    requires others { a.now.other ≡ b.now.other }
    ensures lines { IfOk result (GivesLines (C.worker core.new) a.now.turned a.now.count a.now.other
        (λ i. boole_of op (line_set (C.worker core.old) a.now i) (line_set (C.worker core.old) b.now i))) }
    ensures keeps { Keeps (C.worker core.old) (C.worker core.new) }
    ensures room { MakesAtMost (a.now.count * relation_room C.least 1 a.now.other) (C.worker core.old)
        (C.worker core.new) }
    ensures cause { HasCause C.lean (C.worker core.old) (C.worker core.new) result }
{
    let mut made = Thin::blank(a.turned, a.count, a.other);
    'lines: for i in 0..a.count {
        let line = one(core, op, a.line(i), b.line(i))?;
        made.put(i, line);
    }
    Ok(made)
}
