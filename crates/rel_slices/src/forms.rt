//! Relations in the form of their sizes.
ghost use Rattle.std.specs.Prelude.{◌≡◌, IfOk};
ghost use Rattle.rel_model.specs.Worker.{Stands, set_of, Keeps, MakesAtMost, HasCause};
ghost use Rattle.rel_slices.specs.Thin.{thin_rows, thin_cols, thin_of, ThinStands, GivesValue, HasForm};
ghost use Rattle.rel_slices.specs.Rooms.{settled_room};
ghost use Rattle.rel_slices.specs.ValueRooms.{formed_room};

use crate::thin::{LEAST, MOST, Thin, Value};
use crate::whole::{assembled, cut_columns, cut_rows};
use rel_model::quads_trait::Quads;
use rel_model::{Lack, Rel};

/// A relation in the form of its sizes: as its rows or columns if these are few and long, otherwise whole.
pub fn formed<C: Quads>(core: &mut C, r: Rel) -> Result<Value, Lack>
    requires { Stands (C.worker core.old) r }
    ensures value { IfOk result (GivesValue (C.worker core.new) r.rows r.cols (set_of (C.worker core.old) r)) }
    ensures form { IfOk result HasForm }
    ensures keeps { Keeps (C.worker core.old) (C.worker core.new) }
    ensures room { MakesAtMost (formed_room C.least r.rows r.cols) (C.worker core.old) (C.worker core.new) }
    ensures cause { HasCause C.lean (C.worker core.old) (C.worker core.new) result }
{
    if r.rows <= MOST && r.cols >= LEAST {
        let rows = cut_rows(core, false, r)?;
        return Ok(Value::Lines(rows));
    }
    if r.cols <= MOST && r.rows >= LEAST {
        let columns = cut_columns(core, r)?;
        return Ok(Value::Lines(columns));
    }
    Ok(Value::Whole(r))
}

/// Lines in the form of their sizes: as they are if they are long, otherwise made whole.
pub fn settled<C: Quads>(core: &mut C, lines: &Thin) -> Result<Value, Lack>
    requires { ThinStands (C.worker core.old) lines.now }
    ensures value { IfOk result (GivesValue (C.worker core.new) (thin_rows lines.now) (thin_cols lines.now)
        (thin_of (C.worker core.old) lines.now)) }
    ensures form { IfOk result HasForm }
    ensures keeps { Keeps (C.worker core.old) (C.worker core.new) }
    ensures room { MakesAtMost (settled_room C.least lines.now.turned lines.now.count lines.now.other)
        (C.worker core.old) (C.worker core.new) }
    ensures cause { HasCause C.lean (C.worker core.old) (C.worker core.new) result }
{
    if lines.other >= LEAST {
        return Ok(Value::Lines(*lines));
    }
    let all = assembled(core, lines)?;
    Ok(Value::Whole(all))
}
