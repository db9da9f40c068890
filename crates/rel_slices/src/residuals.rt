//! Residuals and the symmetric quotient of values, by complements and compositions.
ghost use Rattle.std.specs.Prelude.{◌≡◌, ◌≤◌, ◌*◌, ◌^◌, ℕ, IfOk};
ghost use Rattle.rel_model.specs.Operators.{complement as complement_of, compose as compose_of, right_residual, left_residual, symmetric_quotient};
ghost use Rattle.rel_model.specs.Worker.{Keeps, MakesAtMost, HasCause, derived_room, wide_room};
ghost use Rattle.rel_slices.specs.Thin.{ValueStands, value_of, value_rows, value_cols, GivesValue, HasForm};
ghost use Rattle.rel_slices.specs.ValueRooms.{residual_room};
ghost use Rattle.rel_slices.specs.Derived.{Derives};

use crate::composing::compose;
use crate::lines::Boole;
use crate::recall::Remembers;
use crate::thin::Value;
use crate::values::{boole, complement, transpose};
use rel_model::Lack;
use std::alloc::Global;

/// `-(R*S)`: the pairs that the composition of two values lacks.
fn lacked<C: Remembers>(alloc: Global, core: &mut C, x: &Value, y: &Value) -> Result<Value, Lack>
    requires left { ValueStands (C.worker core.old) x.now }
    requires right { ValueStands (C.worker core.old) y.now }
    requires left_form { HasForm x.now }
    requires right_form { HasForm y.now }
    requires middle { value_cols x.now ≡ value_rows y.now }
    ensures value { let w = C.worker core.old in IfOk result (GivesValue (C.worker core.new) (value_rows x.now)
        (value_cols y.now) (complement_of (compose_of (value_of w x.now) (value_of w y.now)))) }
    ensures form { IfOk result HasForm }
    ensures keeps { Keeps (C.worker core.old) (C.worker core.new) }
    ensures room { C.least ≡ 3 → (h : ℕ) → value_rows x.now ≤ 2 ^ h → value_cols x.now ≤ 2 ^ h
        → value_cols y.now ≤ 2 ^ h → MakesAtMost (20 * 8 ^ h) (C.worker core.old) (C.worker core.new) }
    ensures cause { HasCause C.lean (C.worker core.old) (C.worker core.new) result }
{
    let product = compose(alloc, core, x, y)?;
    let rest = complement(core, &product)?;
    Ok(rest)
}

/// `R\S = {(j, k) : (i, j) in r implies (i, k) in s, for all i}`: the right residual of an m × n and an m × p value
/// (Schmidt and Ströhlein).
///
/// It is computed as `-(R^ * -S)`.
pub fn right<C: Remembers>(alloc: Global, core: &mut C, r: &Value, s: &Value) -> Result<Value, Lack>
    requires left { ValueStands (C.worker core.old) r.now }
    requires right { ValueStands (C.worker core.old) s.now }
    requires left_form { HasForm r.now }
    requires right_form { HasForm s.now }
    requires rows { value_rows r.now ≡ value_rows s.now }
    ensures { let w = C.worker core.old in Derives C.least C.lean w (C.worker core.new)
        (value_cols r.now) (value_cols s.now)
        (right_residual (value_of w r.now) (value_of w s.now))
        (derived_room (value_rows r.now) (value_cols r.now) (value_cols s.now))
        (residual_room (value_rows r.now) (value_cols r.now) (value_cols s.now)) result }
{
    let turned = transpose(core, r)?;
    let lacking = complement(core, s)?;
    lacked(alloc, core, &turned, &lacking)
}

/// `S/R = {(i, j) : (j, k) in r implies (i, k) in s, for all k}`: the left residual of an m × p and an n × p value
/// (Schmidt and Ströhlein).
///
/// It is computed as `-(-S * R^)`.
pub fn left<C: Remembers>(alloc: Global, core: &mut C, s: &Value, r: &Value) -> Result<Value, Lack>
    requires left { ValueStands (C.worker core.old) s.now }
    requires right { ValueStands (C.worker core.old) r.now }
    requires left_form { HasForm s.now }
    requires right_form { HasForm r.now }
    requires cols { value_cols s.now ≡ value_cols r.now }
    ensures { let w = C.worker core.old in Derives C.least C.lean w (C.worker core.new)
        (value_rows s.now) (value_rows r.now)
        (left_residual (value_of w s.now) (value_of w r.now))
        (derived_room (value_rows s.now) (value_cols s.now) (value_rows r.now))
        (residual_room (value_rows s.now) (value_cols s.now) (value_rows r.now)) result }
{
    let lacking = complement(core, s)?;
    let turned = transpose(core, r)?;
    lacked(alloc, core, &lacking, &turned)
}

/// `syq(R,S) = {(j, k) : (i, j) in r exactly if (i, k) in s, for all i}`: the symmetric quotient of an m × n and an m ×
/// p value (Schmidt and Ströhlein).
///
/// It is computed as `(R\S) & (R^/S^)`.
pub fn syq<C: Remembers>(alloc: Global, core: &mut C, r: &Value, s: &Value) -> Result<Value, Lack>
    requires left { ValueStands (C.worker core.old) r.now }
    requires right { ValueStands (C.worker core.old) s.now }
    requires left_form { HasForm r.now }
    requires right_form { HasForm s.now }
    requires rows { value_rows r.now ≡ value_rows s.now }
    ensures { let w = C.worker core.old in Derives C.least C.lean w (C.worker core.new)
        (value_cols r.now) (value_cols s.now)
        (symmetric_quotient (value_of w r.now) (value_of w s.now))
        (wide_room (value_rows r.now) (value_cols r.now) (value_cols s.now))
        (derived_room (value_rows r.now) (value_cols r.now) (value_cols s.now)) result }
{
    let forth = right(alloc, core, r, s)?;
    let r_turned = transpose(core, r)?;
    let s_turned = transpose(core, s)?;
    let back = left(alloc, core, &r_turned, &s_turned)?;
    boole(core, Boole::Inter, &forth, &back)
}
