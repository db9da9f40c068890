//! One row of a quad, as a quad of one row. If both halves are the same quad, only one is walked.
ghost use Rattle.std.specs.Prelude.{◌≡◌, ◌<◌, ◌-◌, ◌+◌, ◌^◌};
ghost use Rattle.rel_model.specs.Trees.{beside, top_height};
ghost use Rattle.rel_model.specs.Worker.{HasQuad, quad_set};
ghost use Rattle.rel_steps.specs.Making.{MakesQuad};
ghost use Rattle.rel_rows.specs.Rooms.{strip};
ghost use Rattle.rel_rows.specs.Rows.{row_cells};

use crate::leaf::row_in_word;
use rel_model::empty::side_of;
use rel_model::quads_trait::Quads;
use rel_model::{Lack, Quad, Quarters};

/// Row i of a quad, in row 0 of a quad of its height.
#[cycle(row)]
pub(crate) fn row_in_quad<Q: Quads>(q: &mut Q, quad: Quad, i: u32) -> Result<Quad, Lack>
    requires stands { HasQuad (Q.worker q.old) quad }
    requires within { i < 2 ^ quad.height }
    ensures { MakesQuad Q.lean (strip (quad.height - Q.least)) quad.height
        (row_cells i (quad_set (Q.worker q.old) quad)) (Q.worker q.old) (Q.worker q.new) result }
{
    if quad.is_empty() {
        return Ok(quad);
    }
    if quad.height == q.bottom() {
        return row_in_leaf(q, quad, i);
    }
    row_over(q, quad, i)
}

/// The same for a leaf.
fn row_in_leaf<Q: Quads>(q: &mut Q, quad: Quad, i: u32) -> Result<Quad, Lack>
    requires stands { HasQuad (Q.worker q.old) quad }
    requires leaf { quad.height ≡ Q.least }
    requires within { i < 2 ^ quad.height }
    ensures { MakesQuad Q.lean 1 quad.height (row_cells i (quad_set (Q.worker q.old) quad))
        (Q.worker q.old) (Q.worker q.new) result }
{
    let side = side_of(quad.height);
    let bits = q.bits(quad);
    q.block(row_in_word(bits, side, i))
}

/// The same above the leaves.
#[cycle(row)]
fn row_over<Q: Quads>(q: &mut Q, quad: Quad, i: u32) -> Result<Quad, Lack>
    requires stands { HasQuad (Q.worker q.old) quad }
    requires over { Q.least < quad.height }
    requires within { i < 2 ^ quad.height }
    ensures { MakesQuad Q.lean (strip (quad.height - Q.least)) quad.height
        (row_cells i (quad_set (Q.worker q.old) quad)) (Q.worker q.old) (Q.worker q.new) result }
{
    let Quarters { nw, ne, sw, se } = q.quarters(quad);
    let half = side_of(nw.height);
    if i < half {
        return row_of_two(q, nw, ne, i);
    }
    row_of_two(q, sw, se, i - half)
}

/// The same for two quads of one height, side by side.
#[cycle(row)]
fn row_of_two<Q: Quads>(q: &mut Q, west: Quad, east: Quad, i: u32) -> Result<Quad, Lack>
    requires west_stands { HasQuad (Q.worker q.old) west }
    requires east_stands { HasQuad (Q.worker q.old) east }
    requires one_height { east.height ≡ west.height }
    requires below { west.height < top_height }
    requires within { i < 2 ^ west.height }
    ensures { MakesQuad Q.lean (strip (west.height + 1 - Q.least)) (west.height + 1)
        (row_cells i (beside (2 ^ west.height) (quad_set (Q.worker q.old) west) (quad_set (Q.worker q.old) east)))
        (Q.worker q.old) (Q.worker q.new) result }
{
    let none = Quad::empty(west.height);
    let left = row_in_quad(q, west, i)?;
    if east.name == west.name {
        return q.corner(left, left, none, none);
    }
    let right = row_in_quad(q, east, i)?;
    q.corner(left, right, none, none)
}
