//! Tests of two values, line by line; no square is made.
ghost use Rattle.std.specs.Prelude.{◌≡◌, ◌<◌, ◌↔◌, ℕ, IsTrue, IfOk};
ghost use Rattle.rel_model.specs.Operators.{empty as empty_relation, diff as diff_of};
ghost use Rattle.rel_model.specs.Worker.{Keeps, MakesAtMost, HasCause};
ghost use Rattle.rel_slices.specs.Thin.{line_set, thin_of, ThinStands, ValueStands, value_of, value_rows, value_cols, HasForm};
ghost use Rattle.rel_slices.specs.ValueRooms.{pieces_room};

use crate::lines::Boole;
use crate::thin::{Thin, Value};
use crate::values::boole;
use crate::vectors::is_empty;
use rel_model::Lack;
use rel_model::core_trait::Core;

/// Whether each line equals the corresponding line of the other.
fn lines_same<C: Core>(core: &C, a: &Thin, b: &Thin) -> bool
    requires left { ThinStands (C.worker core.now) a.now }
    requires right { ThinStands (C.worker core.now) b.now }
    requires counts { a.now.count ≡ b.now.count }
    requires others { a.now.other ≡ b.now.other }
    ensures { IsTrue result ↔ ((i : ℕ) → i < a.now.count
        → line_set (C.worker core.now) a.now i ≡ line_set (C.worker core.now) b.now i) }
{
    'lines: for i in 0..a.count {
        if !core.same(a.line(i), b.line(i)) {
            return false;
        }
    }
    true
}

/// `R = S`: whether two values of one type have the same pairs.
pub fn same<C: Core>(core: &C, x: &Value, y: &Value) -> bool
    requires left { ValueStands (C.worker core.now) x.now }
    requires right { ValueStands (C.worker core.now) y.now }
    requires left_form { HasForm x.now }
    requires right_form { HasForm y.now }
    requires rows { value_rows x.now ≡ value_rows y.now }
    requires cols { value_cols x.now ≡ value_cols y.now }
    ensures { IsTrue result ↔ (value_of (C.worker core.now) x.now ≡ value_of (C.worker core.now) y.now) }
{
    match x {
        Value::Whole(r) => match y {
            Value::Whole(s) => core.same(*r, *s),
            Value::Lines(_) => unreachable!(),
        },
        Value::Lines(a) => match y {
            Value::Whole(_) => unreachable!(),
            Value::Lines(b) => lines_same(core, a, b),
        },
    }
}

/// `R <= S`: whether each pair of the first value is in the second. Both have one type.
pub fn included<C: Core>(core: &mut C, x: &Value, y: &Value) -> Result<bool, Lack>
    requires left { ValueStands (C.worker core.old) x.now }
    requires right { ValueStands (C.worker core.old) y.now }
    requires left_form { HasForm x.now }
    requires right_form { HasForm y.now }
    requires rows { value_rows x.now ≡ value_rows y.now }
    requires cols { value_cols x.now ≡ value_cols y.now }
    ensures value { let w = C.worker core.old in IfOk result (λ yes. IsTrue yes
        ↔ (diff_of (value_of w x.now) (value_of w y.now) ≡ empty_relation (value_rows x.now) (value_cols x.now))) }
    ensures keeps { Keeps (C.worker core.old) (C.worker core.new) }
    ensures room { MakesAtMost (pieces_room C.least x.now) (C.worker core.old) (C.worker core.new) }
    ensures cause { HasCause C.lean (C.worker core.old) (C.worker core.new) result }
{
    let rest = boole(core, Boole::Diff, x, y)?;
    Ok(is_empty(core, &rest))
}
