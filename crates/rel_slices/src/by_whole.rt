//! Composition of lines with a whole relation, and of two whole relations.
ghost use Rattle.std.specs.Prelude.{◌≡◌, ◌≤◌, ◌<◌, ◌*◌, ◌+◌, ℕ, cond, IfOk, true, false};
ghost use Rattle.rel_model.specs.Operators.{compose as compose_of};
ghost use Rattle.rel_model.specs.Roots.{relation_room, line_product_room};
ghost use Rattle.rel_model.specs.Worker.{Stands, set_of, Gives, Keeps, MakesAtMost, HasCause, product_room};
ghost use Rattle.rel_slices.specs.Thin.{thin_of, ThinStands, ValueStands, value_of, value_rows, value_cols, IsThin, GivesValue, HasForm};
ghost use Rattle.rel_slices.specs.Rooms.{line_tree_room, outer_room, coimage_room, meeting_room, cut_room, settled_room};
ghost use Rattle.rel_slices.specs.ValueRooms.{thin_room};

use crate::forms::settled;
use crate::recall::Remembers;
use crate::thin::{LEAST, MOST, Thin, Value};
use crate::through::{coimages, images};
use crate::whole::{cut_columns, cut_rows};
use rel_joins::compose_by_lists;
use rel_model::quads_trait::Quads;
use rel_model::{Lack, Rel};
use std::alloc::Global;

/// `R*S`, with R as its rows and S whole, row by row.
pub fn rows_by_whole<C: Remembers>(
    alloc: Global,
    core: &mut C,
    a: &Thin,
    s: Rel,
) -> Result<Value, Lack>
    requires left { ThinStands (C.worker core.old) a.now }
    requires right { Stands (C.worker core.old) s }
    requires rows { a.now.turned ≡ false }
    requires middle { a.now.other ≡ s.rows }
    ensures value { let w = C.worker core.old in IfOk result (GivesValue (C.worker core.new) a.now.count s.cols
        (compose_of (thin_of w a.now) (set_of w s))) }
    ensures form { IfOk result HasForm }
    ensures keeps { Keeps (C.worker core.old) (C.worker core.new) }
    ensures room { MakesAtMost (a.now.count * line_product_room C.least 1 a.now.other s.cols
        + settled_room C.least false a.now.count s.cols) (C.worker core.old) (C.worker core.new) }
    ensures cause { HasCause C.lean (C.worker core.old) (C.worker core.new) result }
{
    let lines = images(alloc, core, false, a, s)?;
    let product = settled(core, &lines)?;
    Ok(product)
}

/// `R*S`, with R whole and S as its columns, column by column.
pub fn whole_by_columns<C: Remembers>(
    alloc: Global,
    core: &mut C,
    r: Rel,
    b: &Thin,
) -> Result<Value, Lack>
    requires left { Stands (C.worker core.old) r }
    requires right { ThinStands (C.worker core.old) b.now }
    requires columns { b.now.turned ≡ true }
    requires middle { r.cols ≡ b.now.other }
    ensures value { let w = C.worker core.old in IfOk result (GivesValue (C.worker core.new) r.rows b.now.count
        (compose_of (set_of w r) (thin_of w b.now))) }
    ensures form { IfOk result HasForm }
    ensures keeps { Keeps (C.worker core.old) (C.worker core.new) }
    ensures room { MakesAtMost (b.now.count * coimage_room C.least r.rows r.cols
        + settled_room C.least true b.now.count r.rows) (C.worker core.old) (C.worker core.new) }
    ensures cause { HasCause C.lean (C.worker core.old) (C.worker core.new) result }
{
    let lines = coimages(alloc, core, r, b)?;
    let product = settled(core, &lines)?;
    Ok(product)
}

/// `R*S` as one tree: by lists of pairs if that pays, otherwise by the product of squares.
fn product_of<C: Quads>(alloc: Global, core: &mut C, r: Rel, s: Rel) -> Result<Rel, Lack>
    requires left { Stands (C.worker core.old) r }
    requires right { Stands (C.worker core.old) s }
    requires middle { r.cols ≡ s.rows }
    ensures value { let w = C.worker core.old in IfOk result (Gives (C.worker core.new) r.rows s.cols
        (compose_of (set_of w r) (set_of w s))) }
    ensures keeps { Keeps (C.worker core.old) (C.worker core.new) }
    ensures room { MakesAtMost (product_room r.rows r.cols s.cols) (C.worker core.old) (C.worker core.new) }
    ensures cause { HasCause C.lean (C.worker core.old) (C.worker core.new) result }
{
    let listed = compose_by_lists(alloc, core, r, s)?;
    match listed {
        Some(product) => Ok(product),
        None => {
            let product = core.compose(r, s)?;
            Ok(product)
        }
    }
}

/// `R*S`, with both whole. If the result is thin, one of them is cut into lines.
pub fn whole_by_whole<C: Remembers>(
    alloc: Global,
    core: &mut C,
    r: Rel,
    s: Rel,
) -> Result<Value, Lack>
    requires left { Stands (C.worker core.old) r }
    requires right { Stands (C.worker core.old) s }
    requires middle { r.cols ≡ s.rows }
    ensures value { let w = C.worker core.old in IfOk result (GivesValue (C.worker core.new) r.rows s.cols
        (compose_of (set_of w r) (set_of w s))) }
    ensures form { IfOk result HasForm }
    ensures keeps { Keeps (C.worker core.old) (C.worker core.new) }
    ensures cost { C.least ≡ 3 → MakesAtMost (product_room r.rows r.cols s.cols) (C.worker core.old)
        (C.worker core.new) }
    ensures thin { C.least ≡ 3 → IsThin r.rows s.cols → MakesAtMost (thin_room r.rows r.cols s.cols)
        (C.worker core.old) (C.worker core.new) }
    ensures cause { HasCause C.lean (C.worker core.old) (C.worker core.new) result }
{
    if r.rows <= MOST && s.cols >= LEAST {
        let rows = cut_rows(core, false, r)?;
        return rows_by_whole(alloc, core, &rows, s);
    }
    if s.cols <= MOST && r.rows >= LEAST {
        let columns = cut_columns(core, s)?;
        return whole_by_columns(alloc, core, r, &columns);
    }
    let product = product_of(alloc, core, r, s)?;
    Ok(Value::Whole(product))
}
