//! Composition of two values, chosen by the forms of both.
ghost use Rattle.std.specs.Prelude.{◌≡◌, IfOk};
ghost use Rattle.rel_model.specs.Operators.{compose as compose_of};
ghost use Rattle.rel_model.specs.Worker.{Keeps, MakesAtMost, HasCause, product_room};
ghost use Rattle.rel_slices.specs.Thin.{ValueStands, value_of, value_rows, value_cols, SomeThin, GivesValue, HasForm};
ghost use Rattle.rel_slices.specs.ValueRooms.{thin_room};

use crate::by_lines::{columns_by_rows, rows_by_columns};
use crate::by_whole::{rows_by_whole, whole_by_columns, whole_by_whole};
use crate::few::{columns_by_few, columns_by_many, few_by_rows, many_by_rows};
use crate::recall::Remembers;
use crate::thin::{MOST, Value};
use rel_model::Lack;
use std::alloc::Global;

/// `R*S = {(i, k) : (i, j) in r and (j, k) in s for some j}`: the composition of a k × m and an m × n value (Schmidt
/// and Ströhlein).
pub fn compose<C: Remembers>(
    alloc: Global,
    core: &mut C,
    x: &Value,
    y: &Value,
) -> Result<Value, Lack>
    requires left { ValueStands (C.worker core.old) x.now }
    requires right { ValueStands (C.worker core.old) y.now }
    requires left_form { HasForm x.now }
    requires right_form { HasForm y.now }
    requires middle { value_cols x.now ≡ value_rows y.now }
    ensures value { let w = C.worker core.old in IfOk result (GivesValue (C.worker core.new) (value_rows x.now)
        (value_cols y.now) (compose_of (value_of w x.now) (value_of w y.now))) }
    ensures form { IfOk result HasForm }
    ensures keeps { Keeps (C.worker core.old) (C.worker core.new) }
    ensures cost { C.least ≡ 3 → MakesAtMost (product_room (value_rows x.now) (value_cols x.now) (value_cols y.now))
        (C.worker core.old) (C.worker core.new) }
    ensures thin { C.least ≡ 3 → SomeThin x.now y.now (value_rows x.now) (value_cols y.now) → MakesAtMost
        (thin_room (value_rows x.now) (value_cols x.now) (value_cols y.now)) (C.worker core.old) (C.worker core.new) }
    ensures cause { HasCause C.lean (C.worker core.old) (C.worker core.new) result }
{
    match x {
        Value::Whole(r) => match y {
            Value::Whole(s) => whole_by_whole(alloc, core, *r, *s),
            Value::Lines(b) => {
                if b.turned {
                    whole_by_columns(alloc, core, *r, b)
                } else if r.rows <= MOST {
                    few_by_rows(core, *r, b)
                } else {
                    many_by_rows(core, *r, b)
                }
            }
        },
        Value::Lines(a) => match y {
            Value::Whole(s) => {
                if !a.turned {
                    rows_by_whole(alloc, core, a, *s)
                } else if s.cols <= MOST {
                    columns_by_few(core, a, *s)
                } else {
                    columns_by_many(core, a, *s)
                }
            }
            Value::Lines(b) => {
                if a.turned {
                    columns_by_rows(core, a, b)
                } else {
                    rows_by_columns(core, a, b)
                }
            }
        },
    }
}
