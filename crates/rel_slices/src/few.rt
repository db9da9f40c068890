//! Composition of lines with a whole relation that has as many rows, or columns, as there are lines.
ghost use Rattle.std.specs.Prelude.{◌≡◌, ◌≤◌, ◌<◌, ◌*◌, ◌+◌, ℕ, cond, IfOk, true, false};
ghost use Rattle.rel_model.specs.Operators.{compose as compose_of};
ghost use Rattle.rel_model.specs.Roots.{relation_room, line_product_room};
ghost use Rattle.rel_model.specs.Worker.{Stands, set_of, Gives, Keeps, MakesAtMost, HasCause, product_room};
ghost use Rattle.rel_slices.specs.Thin.{most_lines, thin_of, ThinStands, ValueStands, value_of, value_rows, value_cols, GivesValue, HasForm};
ghost use Rattle.rel_slices.specs.Rooms.{line_tree_room, outer_room, coimage_room, meeting_room, cut_room, settled_room};

use crate::by_lines::columns_by_rows;
use crate::picks::pick_lines;
use crate::thin::{Thin, Value};
use crate::whole::{cut_columns, cut_rows};
use rel_model::core_trait::Core;
use rel_model::quads_trait::Quads;
use rel_model::{Lack, Rel};

/// `R*S`, with R a whole relation of few rows and S as its rows: each row of R selects the rows of S to unite.
pub fn few_by_rows<C: Core>(core: &mut C, r: Rel, b: &Thin) -> Result<Value, Lack>
    requires left { Stands (C.worker core.old) r }
    requires right { ThinStands (C.worker core.old) b.now }
    requires long { 257 ≤ b.now.other }
    requires few { r.rows ≤ most_lines }
    requires rows { b.now.turned ≡ false }
    requires middle { r.cols ≡ b.now.count }
    ensures value { let w = C.worker core.old in IfOk result (GivesValue (C.worker core.new) r.rows b.now.other
        (compose_of (set_of w r) (thin_of w b.now))) }
    ensures form { IfOk result HasForm }
    ensures keeps { Keeps (C.worker core.old) (C.worker core.new) }
    ensures room { MakesAtMost (r.rows * (b.now.count * line_tree_room C.least b.now.other)) (C.worker core.old)
        (C.worker core.new) }
    ensures cause { HasCause C.lean (C.worker core.old) (C.worker core.new) result }
{
    let lines = pick_lines(core, false, r, b)?;
    Ok(Value::Lines(lines))
}

/// `R*S`, with R a whole relation of more rows and S as its rows: the union of the products of R's columns with them,
/// as a whole relation.
pub fn many_by_rows<C: Quads>(core: &mut C, r: Rel, b: &Thin) -> Result<Value, Lack>
    requires left { Stands (C.worker core.old) r }
    requires right { ThinStands (C.worker core.old) b.now }
    requires long { 257 ≤ b.now.other }
    requires many { most_lines < r.rows }
    requires rows { b.now.turned ≡ false }
    requires middle { r.cols ≡ b.now.count }
    ensures value { let w = C.worker core.old in IfOk result (GivesValue (C.worker core.new) r.rows b.now.other
        (compose_of (set_of w r) (thin_of w b.now))) }
    ensures form { IfOk result HasForm }
    ensures keeps { Keeps (C.worker core.old) (C.worker core.new) }
    ensures room { MakesAtMost (relation_room C.least r.rows r.cols + cut_room C.least r.cols r.rows
        + r.cols * outer_room C.least r.rows b.now.other) (C.worker core.old) (C.worker core.new) }
    ensures cause { HasCause C.lean (C.worker core.old) (C.worker core.new) result }
{
    let columns = cut_columns(core, r)?;
    let product = columns_by_rows(core, &columns, b)?;
    Ok(product)
}

/// `R*S`, with R as its columns and S a whole relation of few columns: each column of S selects the columns of R to
/// unite.
pub fn columns_by_few<C: Core>(core: &mut C, a: &Thin, s: Rel) -> Result<Value, Lack>
    requires left { ThinStands (C.worker core.old) a.now }
    requires right { Stands (C.worker core.old) s }
    requires long { 257 ≤ a.now.other }
    requires few { s.cols ≤ most_lines }
    requires columns { a.now.turned ≡ true }
    requires middle { a.now.count ≡ s.rows }
    ensures value { let w = C.worker core.old in IfOk result (GivesValue (C.worker core.new) a.now.other s.cols
        (compose_of (thin_of w a.now) (set_of w s))) }
    ensures form { IfOk result HasForm }
    ensures keeps { Keeps (C.worker core.old) (C.worker core.new) }
    ensures room { MakesAtMost (relation_room C.least s.rows s.cols
        + s.cols * (a.now.count * line_tree_room C.least a.now.other)) (C.worker core.old) (C.worker core.new) }
    ensures cause { HasCause C.lean (C.worker core.old) (C.worker core.new) result }
{
    let turned = core.transpose(s)?;
    let lines = pick_lines(core, true, turned, a)?;
    Ok(Value::Lines(lines))
}

/// `R*S`, with R as its columns and S a whole relation of more columns: the union of their products with the rows of S,
/// as a whole relation.
pub fn columns_by_many<C: Quads>(core: &mut C, a: &Thin, s: Rel) -> Result<Value, Lack>
    requires left { ThinStands (C.worker core.old) a.now }
    requires right { Stands (C.worker core.old) s }
    requires long { 257 ≤ a.now.other }
    requires many { most_lines < s.cols }
    requires columns { a.now.turned ≡ true }
    requires middle { a.now.count ≡ s.rows }
    ensures value { let w = C.worker core.old in IfOk result (GivesValue (C.worker core.new) a.now.other s.cols
        (compose_of (thin_of w a.now) (set_of w s))) }
    ensures form { IfOk result HasForm }
    ensures keeps { Keeps (C.worker core.old) (C.worker core.new) }
    ensures room { MakesAtMost (cut_room C.least s.rows s.cols + a.now.count * outer_room C.least a.now.other s.cols)
        (C.worker core.old) (C.worker core.new) }
    ensures cause { HasCause C.lean (C.worker core.old) (C.worker core.new) result }
{
    let rows = cut_rows(core, false, s)?;
    let product = columns_by_rows(core, a, &rows)?;
    Ok(product)
}
