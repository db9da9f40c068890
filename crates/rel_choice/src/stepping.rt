//! The step from each element of a domain to the next one.
ghost use Rattle.std.specs.Prelude.{◌≡◌, ◌<◌, ◌≤◌, ◌*◌, ◌^◌, IfOk};
ghost use Rattle.rel_model.specs.Relation.{size_limit};
ghost use Rattle.rel_model.specs.Cells.{bits_cells};
ghost use Rattle.rel_model.specs.Trees.{top_height};
ghost use Rattle.rel_model.specs.Choice.{next as next_of};
ghost use Rattle.rel_model.specs.Worker.{Stands, set_of, Keeps, MakesAtMost, Gives, HasCause, derived_room};
ghost use Rattle.rel_choice.specs.Steps.{step_cells, carry_cells, step_relation, GivesSteps, steps_room, step_room};

use rel_model::empty::side_of;
use rel_model::quads_trait::Quads;
use rel_model::{Lack, Quad, Rel, Shape};

/// `{(i + 1, 0) : i is in v, i + 1 < rows}`: moves each element up by one and drops the last.
///
/// It is the relation of all steps composed with the vector, so it shares what was composed before.
pub fn next<Q: Quads>(q: &mut Q, v: Rel) -> Result<Rel, Lack>
    requires stands { Stands (Q.worker q.old) v }
    requires column { v.cols ≡ 1 }
    ensures value { IfOk result (Gives (Q.worker q.new) v.rows 1 (next_of (set_of (Q.worker q.old) v))) }
    ensures keeps { Keeps (Q.worker q.old) (Q.worker q.new) }
    ensures room { MakesAtMost (derived_room v.rows 1 1) (Q.worker q.old) (Q.worker q.new) }
    ensures cause { HasCause Q.lean (Q.worker q.old) (Q.worker q.new) result }
{
    if v.rows < 2 {
        return q.empty(Shape {
            rows: v.rows,
            cols: 1,
        });
    }
    let step = step_below(q, v.rows)?;
    q.compose(step, v)
}

/// `{(j + 1, j) : j + 1 < n}`: the steps of the square of n elements, cut to n rows and columns.
fn step_below<Q: Quads>(q: &mut Q, n: u32) -> Result<Rel, Lack>
    requires { n ≤ size_limit }
    ensures value { IfOk result (Gives (Q.worker q.new) n n (step_relation n)) }
    ensures keeps { Keeps (Q.worker q.old) (Q.worker q.new) }
    ensures room { MakesAtMost (step_room Q.least n) (Q.worker q.old) (Q.worker q.new) }
    ensures cause { HasCause Q.lean (Q.worker q.old) (Q.worker q.new) result }
{
    let all = q.full(Shape { rows: n, cols: n })?;
    let bound = q.root(all);
    let steps = steps_of(q, bound.height)?;
    let side = side_of(bound.height);
    let square = Shape {
        rows: side,
        cols: side,
    };
    let whole = q.rel(square, steps.whole);
    let within = q.rel(square, bound);
    let cut = q.inter(whole, within)?;
    let quad = q.root(cut);
    Ok(q.rel(Shape { rows: n, cols: n }, quad))
}

/// The steps within a square, and the step into it from the square before. 16 bytes.
#[derive(Clone, Copy, Debug)]
struct Steps {
    whole: Quad,
    carry: Quad,
}

/// The steps of a height from those of the height below: the same twice, and the step between them.
fn steps_of<Q: Quads>(q: &mut Q, height: u8) -> Result<Steps, Lack>
    requires low { Q.least ≤ height }
    requires high { height ≤ top_height }
    ensures value { IfOk result (GivesSteps (Q.worker q.new) height) }
    ensures keeps { Keeps (Q.worker q.old) (Q.worker q.new) }
    ensures room { MakesAtMost (steps_room Q.least height) (Q.worker q.old) (Q.worker q.new) }
    ensures cause { HasCause Q.lean (Q.worker q.old) (Q.worker q.new) result }
{
    if height == q.bottom() {
        return leaf_steps(q);
    }
    let below = steps_of(q, height - 1)?;
    let none = Quad::empty(height - 1);
    let whole = q.corner(below.whole, none, below.carry, below.whole)?;
    let carry = q.corner(none, below.carry, none, none)?;
    Ok(Steps { whole, carry })
}

/// The steps of a leaf.
fn leaf_steps<Q: Quads>(q: &mut Q) -> Result<Steps, Lack>
    ensures value { IfOk result (GivesSteps (Q.worker q.new) Q.least) }
    ensures keeps { Keeps (Q.worker q.old) (Q.worker q.new) }
    ensures room { MakesAtMost 2 (Q.worker q.old) (Q.worker q.new) }
    ensures cause { HasCause Q.lean (Q.worker q.old) (Q.worker q.new) result }
{
    let bottom = q.bottom();
    let whole = q.block(step_bits(bottom))?;
    let carry = q.block(carry_bits(bottom))?;
    Ok(Steps { whole, carry })
}

/// The cells (j + 1, j) of a leaf.
fn step_bits(bottom: u8) -> u64
    requires { bottom ≤ 3 }
    ensures cells { bits_cells (2 ^ bottom) result ≡ step_cells (2 ^ bottom) }
    ensures none_past { result < 2 ^ (2 ^ bottom * 2 ^ bottom) }
{
    match bottom {
        0 => 0,
        1 => 0x4,
        2 => 0x4210,
        _ => 0x4020_1008_0402_0100,
    }
}

/// The cell in the first row and the last column of a leaf.
fn carry_bits(bottom: u8) -> u64
    requires { bottom ≤ 3 }
    ensures cells { bits_cells (2 ^ bottom) result ≡ carry_cells (2 ^ bottom) }
    ensures none_past { result < 2 ^ (2 ^ bottom * 2 ^ bottom) }
{
    match bottom {
        0 => 0x1,
        1 => 0x2,
        2 => 0x8,
        _ => 0x80,
    }
}
