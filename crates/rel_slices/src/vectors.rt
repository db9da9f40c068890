//! The type of a value, and whether it is empty.
ghost use Rattle.std.specs.Prelude.{◌≡◌, ◌<◌, ◌↔◌, ℕ, IsTrue};
ghost use Rattle.rel_model.specs.Operators.{empty as empty_relation};
ghost use Rattle.rel_slices.specs.Thin.{line_set, thin_of, ThinStands, ValueStands, value_of, value_rows, value_cols};

use crate::thin::{Thin, Value};
use rel_model::Shape;
use rel_model::core_trait::Core;

/// Whether no line has an element.
fn lines_empty<C: Core>(core: &C, s: &Thin) -> bool
    requires { ThinStands (C.worker core.now) s.now }
    ensures { IsTrue result ↔ ((i : ℕ) → i < s.now.count
        → line_set (C.worker core.now) s.now i ≡ empty_relation 1 s.now.other) }
{
    'lines: for i in 0..s.count {
        if !core.is_empty(s.line(i)) {
            return false;
        }
    }
    true
}

/// `R = {}`: whether a value has no pair.
pub fn is_empty<C: Core>(core: &C, v: &Value) -> bool
    requires { ValueStands (C.worker core.now) v.now }
    ensures { IsTrue result ↔ (value_of (C.worker core.now) v.now
        ≡ empty_relation (value_rows v.now) (value_cols v.now)) }
{
    match v {
        Value::Whole(r) => core.is_empty(*r),
        Value::Lines(s) => lines_empty(core, s),
    }
}

/// The type of a value.
pub fn shape_of(v: &Value) -> Shape
    ensures rows { result.rows ≡ value_rows v.now }
    ensures cols { result.cols ≡ value_cols v.now }
{
    match v {
        Value::Whole(r) => Shape {
            rows: r.rows,
            cols: r.cols,
        },
        Value::Lines(s) => {
            if s.turned {
                Shape {
                    rows: s.other,
                    cols: s.count,
                }
            } else {
                Shape {
                    rows: s.count,
                    cols: s.other,
                }
            }
        }
    }
}
