//! Making values whole, and the operators on two values of one type.
ghost use Rattle.std.specs.Prelude.{◌≡◌, ◌≤◌, ◌<◌, ◌*◌, ◌+◌, ℕ, min, max, cond, not, IfOk, true, false};
ghost use Rattle.rel_model.specs.Operators.{complement as complement_of, transpose as transpose_of, full as full_relation};
ghost use Rattle.rel_model.specs.Relation.{size_limit};
ghost use Rattle.rel_model.specs.Roots.{relation_room};
ghost use Rattle.rel_model.specs.Worker.{Stands, set_of, Gives, Keeps, MakesAtMost, HasCause};
ghost use Rattle.rel_slices.specs.Thin.{most_lines, line_of, line_set, thin_rows, thin_cols, thin_of, ThinStands, GivesLines, ValueStands, value_of, value_rows, value_cols, GivesValue, HasForm};
ghost use Rattle.rel_slices.specs.Ops.{boole_of};
ghost use Rattle.rel_slices.specs.Rooms.{line_tree_room};
ghost use Rattle.rel_slices.specs.ValueRooms.{assembly_room, pieces_room, full_room, complement_room, transpose_room};

use crate::lines::{Boole, each, one};
use crate::thin::{Thin, Value};
use crate::whole::assembled;
use rel_model::core_trait::Core;
use rel_model::quads_trait::Quads;
use rel_model::{Lack, Rel, Shape};

/// A value as a whole relation.
pub fn whole<C: Quads>(core: &mut C, v: &Value) -> Result<Rel, Lack>
    requires { ValueStands (C.worker core.old) v.now }
    ensures value { IfOk result (Gives (C.worker core.new) (value_rows v.now) (value_cols v.now)
        (value_of (C.worker core.old) v.now)) }
    ensures keeps { Keeps (C.worker core.old) (C.worker core.new) }
    ensures room { MakesAtMost (assembly_room C.least v.now) (C.worker core.old) (C.worker core.new) }
    ensures cause { HasCause C.lean (C.worker core.old) (C.worker core.new) result }
{
    match v {
        Value::Whole(r) => Ok(*r),
        Value::Lines(s) => assembled(core, s),
    }
}

/// Applies an operator to lines of one form.
fn boole_lines<C: Core>(core: &mut C, op: Boole, a: &Thin, b: &Thin) -> Result<Value, Lack>
    requires left { ThinStands (C.worker core.old) a.now }
    requires right { ThinStands (C.worker core.old) b.now }
    requires turned { a.now.turned ≡ b.now.turned }
    requires counts { a.now.count ≡ b.now.count }
    requires others { a.now.other ≡ b.now.other }
    requires long { 257 ≤ a.now.other }
    ensures value { let w = C.worker core.old in IfOk result (GivesValue (C.worker core.new) (thin_rows a.now)
        (thin_cols a.now) (boole_of op (thin_of w a.now) (thin_of w b.now))) }
    ensures form { IfOk result HasForm }
    ensures keeps { Keeps (C.worker core.old) (C.worker core.new) }
    ensures room { MakesAtMost (a.now.count * line_tree_room C.least a.now.other) (C.worker core.old)
        (C.worker core.new) }
    ensures cause { HasCause C.lean (C.worker core.old) (C.worker core.new) result }
{
    let lines = each(core, op, a, b)?;
    Ok(Value::Lines(lines))
}

/// Applies an operator to whole relations.
fn boole_whole<C: Core>(core: &mut C, op: Boole, r: Rel, s: Rel) -> Result<Value, Lack>
    requires left { Stands (C.worker core.old) r }
    requires right { Stands (C.worker core.old) s }
    requires rows { r.rows ≡ s.rows }
    requires cols { r.cols ≡ s.cols }
    requires form { min r.rows r.cols ≤ most_lines → max r.rows r.cols ≤ 256 }
    ensures value { let w = C.worker core.old in IfOk result (GivesValue (C.worker core.new) r.rows r.cols
        (boole_of op (set_of w r) (set_of w s))) }
    ensures form { IfOk result HasForm }
    ensures keeps { Keeps (C.worker core.old) (C.worker core.new) }
    ensures room { MakesAtMost (relation_room C.least r.rows r.cols) (C.worker core.old) (C.worker core.new) }
    ensures cause { HasCause C.lean (C.worker core.old) (C.worker core.new) result }
{
    let made = one(core, op, r, s)?;
    Ok(Value::Whole(made))
}

/// The union, intersection or difference of two values of one type.
pub fn boole<C: Core>(core: &mut C, op: Boole, x: &Value, y: &Value) -> Result<Value, Lack>
    requires left { ValueStands (C.worker core.old) x.now }
    requires right { ValueStands (C.worker core.old) y.now }
    requires left_form { HasForm x.now }
    requires right_form { HasForm y.now }
    requires rows { value_rows x.now ≡ value_rows y.now }
    requires cols { value_cols x.now ≡ value_cols y.now }
    ensures value { let w = C.worker core.old in IfOk result (GivesValue (C.worker core.new) (value_rows x.now)
        (value_cols x.now) (boole_of op (value_of w x.now) (value_of w y.now))) }
    ensures form { IfOk result HasForm }
    ensures keeps { Keeps (C.worker core.old) (C.worker core.new) }
    ensures room { MakesAtMost (pieces_room C.least x.now) (C.worker core.old) (C.worker core.new) }
    ensures cause { HasCause C.lean (C.worker core.old) (C.worker core.new) result }
{
    match x {
        Value::Whole(r) => match y {
            Value::Whole(s) => boole_whole(core, op, *r, *s),
            Value::Lines(_) => unreachable!(),
        },
        Value::Lines(a) => match y {
            Value::Whole(_) => unreachable!(),
            Value::Lines(b) => boole_lines(core, op, a, b),
        },
    }
}

/// One line, repeated `count` times.
pub fn repeated(turned: bool, count: u32, line: Rel) -> Thin
    requires few { count ≤ most_lines }
    requires row { line.rows ≡ 1 }
    ensures turned { result.turned ≡ turned }
    ensures count { result.count ≡ count }
    ensures other { result.other ≡ line.cols }
    ensures lines { (i : ℕ) → i < count → line_of result i ≡ line }
{
    let mut made = Thin::blank(turned, count, line.cols);
    'lines: for i in 0..count {
        made.put(i, line);
    }
    made
}

/// `count` full lines.
pub fn full_lines<C: Core>(core: &mut C, turned: bool, count: u32, other: u32) -> Result<Thin, Lack>
    requires few { count ≤ most_lines }
    requires limit { other ≤ size_limit }
    ensures lines { IfOk result (GivesLines (C.worker core.new) turned count other (λ i. full_relation 1 other)) }
    ensures keeps { Keeps (C.worker core.old) (C.worker core.new) }
    ensures room { MakesAtMost (line_tree_room C.least other) (C.worker core.old) (C.worker core.new) }
    ensures cause { HasCause C.lean (C.worker core.old) (C.worker core.new) result }
{
    let shape = Shape {
        rows: 1,
        cols: other,
    };
    let line = core.full(shape)?;
    Ok(repeated(turned, count, line))
}

/// `-R = {(i, j) : not (i, j) in r}`: the complement within the sizes of R (Schmidt and Ströhlein).
pub fn complement<C: Core>(core: &mut C, v: &Value) -> Result<Value, Lack>
    requires stands { ValueStands (C.worker core.old) v.now }
    requires form { HasForm v.now }
    ensures value { IfOk result (GivesValue (C.worker core.new) (value_rows v.now) (value_cols v.now)
        (complement_of (value_of (C.worker core.old) v.now))) }
    ensures form { IfOk result HasForm }
    ensures keeps { Keeps (C.worker core.old) (C.worker core.new) }
    ensures room { MakesAtMost (complement_room C.least v.now) (C.worker core.old) (C.worker core.new) }
    ensures cause { HasCause C.lean (C.worker core.old) (C.worker core.new) result }
{
    match v {
        Value::Whole(r) => {
            let shape = Shape {
                rows: r.rows,
                cols: r.cols,
            };
            let full = core.full(shape)?;
            let rest = core.diff(full, *r)?;
            Ok(Value::Whole(rest))
        }
        Value::Lines(s) => {
            let all = full_lines(core, s.turned, s.count, s.other)?;
            let lines = each(core, Boole::Diff, &all, s)?;
            Ok(Value::Lines(lines))
        }
    }
}

/// `R^ = {(j, i) : (i, j) in r}`: the transposition (Schmidt and Ströhlein). If the value is lines, no node is made.
pub fn transpose<C: Core>(core: &mut C, v: &Value) -> Result<Value, Lack>
    requires stands { ValueStands (C.worker core.old) v.now }
    requires form { HasForm v.now }
    ensures value { IfOk result (GivesValue (C.worker core.new) (value_cols v.now) (value_rows v.now)
        (transpose_of (value_of (C.worker core.old) v.now))) }
    ensures form { IfOk result HasForm }
    ensures keeps { Keeps (C.worker core.old) (C.worker core.new) }
    ensures room { MakesAtMost (transpose_room C.least v.now) (C.worker core.old) (C.worker core.new) }
    ensures cause { HasCause C.lean (C.worker core.old) (C.worker core.new) result }
{
    match v {
        Value::Whole(r) => {
            let turned = core.transpose(*r)?;
            Ok(Value::Whole(turned))
        }
        Value::Lines(s) => {
            let turned = turned_over(s);
            Ok(Value::Lines(turned))
        }
    }
}

/// The same lines, as columns if they were rows and as rows if they were columns.
fn turned_over(s: &Thin) -> Thin
    ensures turned { result.turned ≡ not s.now.turned }
    ensures count { result.count ≡ s.now.count }
    ensures other { result.other ≡ s.now.other }
    ensures lines { (i : ℕ) → line_of result i ≡ line_of s.now i }
{
    Thin {
        turned: !s.turned,
        count: s.count,
        other: s.other,
        roots: s.roots,
    }
}
