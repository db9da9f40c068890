//! Composition of lines with lines.
ghost use Rattle.std.specs.Prelude.{◌≡◌, ◌≤◌, ◌<◌, ◌*◌, ◌+◌, ℕ, cond, IfOk, true, false};
ghost use Rattle.rel_model.specs.Operators.{compose as compose_of};
ghost use Rattle.rel_model.specs.Roots.{relation_room, line_product_room};
ghost use Rattle.rel_model.specs.Worker.{Stands, set_of, Gives, Keeps, MakesAtMost, HasCause, product_room};
ghost use Rattle.rel_slices.specs.Thin.{most_lines, thin_of, ThinStands, ValueStands, value_of, value_rows, value_cols, GivesValue, HasForm};
ghost use Rattle.rel_slices.specs.Rooms.{line_tree_room, outer_room, coimage_room, meeting_room, cut_room, settled_room};

use crate::outer::outers;
use crate::thin::{Thin, Value};
use crate::through::meets;
use crate::whole::assembled;
use rel_model::Lack;
use rel_model::core_trait::Core;
use rel_model::quads_trait::Quads;

/// `R*S`, with R as its columns and S as its rows: the union of their products, as a whole relation.
pub fn columns_by_rows<C: Core>(core: &mut C, a: &Thin, b: &Thin) -> Result<Value, Lack>
    requires left { ThinStands (C.worker core.old) a.now }
    requires right { ThinStands (C.worker core.old) b.now }
    requires columns { a.now.turned ≡ true }
    requires rows { b.now.turned ≡ false }
    requires middle { a.now.count ≡ b.now.count }
    requires left_long { most_lines < a.now.other }
    requires right_long { most_lines < b.now.other }
    ensures value { let w = C.worker core.old in IfOk result (GivesValue (C.worker core.new) a.now.other b.now.other
        (compose_of (thin_of w a.now) (thin_of w b.now))) }
    ensures form { IfOk result HasForm }
    ensures keeps { Keeps (C.worker core.old) (C.worker core.new) }
    ensures room { MakesAtMost (a.now.count * outer_room C.least a.now.other b.now.other) (C.worker core.old)
        (C.worker core.new) }
    ensures cause { HasCause C.lean (C.worker core.old) (C.worker core.new) result }
{
    let product = outers(core, a, b)?;
    Ok(Value::Whole(product))
}

/// `R*S`, with R as its rows and S as its columns: which of them meet, as a whole relation of few rows and columns.
pub fn rows_by_columns<C: Quads>(core: &mut C, a: &Thin, b: &Thin) -> Result<Value, Lack>
    requires left { ThinStands (C.worker core.old) a.now }
    requires right { ThinStands (C.worker core.old) b.now }
    requires rows { a.now.turned ≡ false }
    requires columns { b.now.turned ≡ true }
    requires middle { a.now.other ≡ b.now.other }
    ensures value { let w = C.worker core.old in IfOk result (GivesValue (C.worker core.new) a.now.count b.now.count
        (compose_of (thin_of w a.now) (thin_of w b.now))) }
    ensures form { IfOk result HasForm }
    ensures keeps { Keeps (C.worker core.old) (C.worker core.new) }
    ensures room { MakesAtMost (meeting_room C.least a.now.count b.now.count) (C.worker core.old)
        (C.worker core.new) }
    ensures cause { HasCause C.lean (C.worker core.old) (C.worker core.new) result }
{
    let lines = meets(core, a, b)?;
    let product = assembled(core, &lines)?;
    Ok(Value::Whole(product))
}
