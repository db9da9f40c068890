//! Values that are given by their sizes alone: the full one and the empty one.
ghost use Rattle.std.specs.Prelude.{◌≤◌, ◌<◌, ℕ, IfOk};
ghost use Rattle.rel_model.specs.Operators.{full as full_relation, empty as empty_relation};
ghost use Rattle.rel_model.specs.Relation.{size_limit};
ghost use Rattle.rel_model.specs.Roots.{relation_room};
ghost use Rattle.rel_model.specs.Worker.{Keeps, MakesAtMost, HasCause};
ghost use Rattle.rel_slices.specs.Thin.{most_lines, line_of, GivesLines, GivesValue, HasForm};
ghost use Rattle.rel_slices.specs.Rooms.{line_tree_room};

use crate::thin::{LEAST, MOST, Thin, Value};
use crate::values::{full_lines, repeated};
use rel_model::core_trait::Core;
use rel_model::{Lack, Shape};

/// `{(i, j) : i < rows, j < cols}`: the full value of these sizes, in the form of its sizes.
pub fn full<C: Core>(core: &mut C, shape: Shape) -> Result<Value, Lack>
    requires row_limit { shape.rows ≤ size_limit }
    requires col_limit { shape.cols ≤ size_limit }
    ensures value { IfOk result (GivesValue (C.worker core.new) shape.rows shape.cols
        (full_relation shape.rows shape.cols)) }
    ensures form { IfOk result HasForm }
    ensures keeps { Keeps (C.worker core.old) (C.worker core.new) }
    ensures room { MakesAtMost (relation_room C.least shape.rows shape.cols) (C.worker core.old)
        (C.worker core.new) }
    ensures cause { HasCause C.lean (C.worker core.old) (C.worker core.new) result }
{
    if shape.rows <= MOST && shape.cols >= LEAST {
        let lines = full_lines(core, false, shape.rows, shape.cols)?;
        return Ok(Value::Lines(lines));
    }
    if shape.cols <= MOST && shape.rows >= LEAST {
        let lines = full_lines(core, true, shape.cols, shape.rows)?;
        return Ok(Value::Lines(lines));
    }
    let all = core.full(shape)?;
    Ok(Value::Whole(all))
}

/// `count` empty lines.
fn empty_lines<C: Core>(core: &mut C, turned: bool, count: u32, other: u32) -> Result<Thin, Lack>
    requires few { count ≤ most_lines }
    requires limit { other ≤ size_limit }
    ensures lines { IfOk result (GivesLines (C.worker core.new) turned count other (λ i. empty_relation 1 other)) }
    ensures keeps { Keeps (C.worker core.old) (C.worker core.new) }
    ensures room { MakesAtMost 0 (C.worker core.old) (C.worker core.new) }
    ensures cause { HasCause C.lean (C.worker core.old) (C.worker core.new) result }
{
    let shape = Shape {
        rows: 1,
        cols: other,
    };
    let line = core.empty(shape)?;
    Ok(repeated(turned, count, line))
}

/// `{}`: the empty value of these sizes, in the form of its sizes.
pub fn empty<C: Core>(core: &mut C, shape: Shape) -> Result<Value, Lack>
    requires row_limit { shape.rows ≤ size_limit }
    requires col_limit { shape.cols ≤ size_limit }
    ensures value { IfOk result (GivesValue (C.worker core.new) shape.rows shape.cols
        (empty_relation shape.rows shape.cols)) }
    ensures form { IfOk result HasForm }
    ensures keeps { Keeps (C.worker core.old) (C.worker core.new) }
    ensures room { MakesAtMost 0 (C.worker core.old) (C.worker core.new) }
    ensures cause { HasCause C.lean (C.worker core.old) (C.worker core.new) result }
{
    if shape.rows <= MOST && shape.cols >= LEAST {
        let lines = empty_lines(core, false, shape.rows, shape.cols)?;
        return Ok(Value::Lines(lines));
    }
    if shape.cols <= MOST && shape.rows >= LEAST {
        let lines = empty_lines(core, true, shape.cols, shape.rows)?;
        return Ok(Value::Lines(lines));
    }
    let none = core.empty(shape)?;
    Ok(Value::Whole(none))
}
