//! One row of a relation.
ghost use Rattle.std.specs.Prelude.{◌≡◌, ◌<◌, ◌≤◌, ◌-◌, ◌^◌, IfOk};
ghost use Rattle.rel_model.specs.Quarters.{LiesWithin};
ghost use Rattle.rel_model.specs.Relation.{size_limit};
ghost use Rattle.rel_model.specs.Roots.{height_over};
ghost use Rattle.rel_model.specs.Worker.{Stands, set_of, HasQuad, quad_set, Gives, Keeps, MakesAtMost, HasCause};
ghost use Rattle.rel_steps.specs.Making.{MakesQuad};
ghost use Rattle.rel_rows.specs.Rooms.{strip, strip_room};
ghost use Rattle.rel_rows.specs.Rows.{row_of, row_cells};

use crate::strips::row_in_quad;
use rel_model::empty::side_of;
use rel_model::quads_trait::Quads;
use rel_model::{Lack, Quad, Quarters, Rel, Shape};

/// `{(0, j) : (i, j) in r}`: row i of a relation, as a relation of one row.
///
/// It walks down this row only; and if the two quarters that the row crosses are the same quad, it walks down only one
/// of them.
pub fn row<Q: Quads>(q: &mut Q, r: Rel, i: u32) -> Result<Rel, Lack>
    requires standing { Stands (Q.worker q.old) r }
    requires within { i < r.rows }
    ensures value { IfOk result (Gives (Q.worker q.new) 1 r.cols (row_of (set_of (Q.worker q.old) r) i)) }
    ensures keeps { Keeps (Q.worker q.old) (Q.worker q.new) }
    ensures room { MakesAtMost (strip_room Q.least r.rows r.cols) (Q.worker q.old) (Q.worker q.new) }
    ensures cause { HasCause Q.lean (Q.worker q.old) (Q.worker q.new) result }
{
    let quad = q.root(r);
    match row_within(q, quad, r.cols, i) {
        Ok(line) => Ok(q.rel(
            Shape {
                rows: 1,
                cols: r.cols,
            },
            line,
        )),
        Err(lack) => Err(lack),
    }
}

/// Row i of a quad whose cells lie in the first columns, as row 0 of the least quad that is as wide.
fn row_within<Q: Quads>(q: &mut Q, quad: Quad, cols: u32, i: u32) -> Result<Quad, Lack>
    requires stands { HasQuad (Q.worker q.old) quad }
    requires limit { cols ≤ size_limit }
    requires fits { cols ≤ 2 ^ quad.height }
    requires narrow { LiesWithin (2 ^ quad.height) cols (quad_set (Q.worker q.old) quad) }
    requires within { i < 2 ^ quad.height }
    ensures { MakesQuad Q.lean (strip (quad.height - Q.least)) (height_over Q.least 1 cols)
        (row_cells i (quad_set (Q.worker q.old) quad)) (Q.worker q.old) (Q.worker q.new) result }
{
    if quad.height == q.bottom() {
        return row_in_quad(q, quad, i);
    }
    let half = side_of(quad.height - 1);
    if cols > half {
        return row_in_quad(q, quad, i);
    }
    let Quarters { nw, sw, .. } = q.quarters(quad);
    if i < half {
        return row_within(q, nw, cols, i);
    }
    row_within(q, sw, cols, i - half)
}
