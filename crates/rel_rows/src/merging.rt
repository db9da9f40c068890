//! A quad with a line added to one of its rows. If the same is to be added twice to one quad, it is added once.
ghost use Rattle.std.specs.Prelude.{◌≡◌, ◌<◌, ◌≤◌, ◌-◌, ◌+◌, ◌*◌, ◌^◌};
ghost use Rattle.rel_model.specs.Trees.{top_height};
ghost use Rattle.rel_model.specs.Worker.{HasQuad, quad_set};
ghost use Rattle.rel_steps.specs.Making.{MakesQuad};
ghost use Rattle.rel_rows.specs.Making.{MakesTwo};
ghost use Rattle.rel_rows.specs.Rooms.{strip};
ghost use Rattle.rel_rows.specs.Rows.{added_cells};

use crate::leaf::word_with_row;
use rel_model::empty::side_of;
use rel_model::quads_trait::Quads;
use rel_model::{Lack, Quad, Quarters};

/// A quad with the first row of another, which must not be higher, added to its row i.
#[cycle(line)]
pub(crate) fn with_line<Q: Quads>(q: &mut Q, quad: Quad, i: u32, line: Quad) -> Result<Quad, Lack>
    requires stands { HasQuad (Q.worker q.old) quad }
    requires line_stands { HasQuad (Q.worker q.old) line }
    requires no_higher { line.height ≤ quad.height }
    requires within { i < 2 ^ quad.height }
    ensures { MakesQuad Q.lean (strip (quad.height - Q.least)) quad.height
        (added_cells i (quad_set (Q.worker q.old) line) (quad_set (Q.worker q.old) quad))
        (Q.worker q.old) (Q.worker q.new) result }
{
    if line.is_empty() {
        return Ok(quad);
    }
    if quad.height == q.bottom() {
        return with_line_in_leaf(q, quad, i, line);
    }
    if line.height < quad.height {
        return with_low_line(q, quad, i, line);
    }
    with_line_over(q, quad, i, line)
}

/// The same for leaves.
fn with_line_in_leaf<Q: Quads>(q: &mut Q, quad: Quad, i: u32, line: Quad) -> Result<Quad, Lack>
    requires stands { HasQuad (Q.worker q.old) quad }
    requires line_stands { HasQuad (Q.worker q.old) line }
    requires leaf { quad.height ≡ Q.least }
    requires line_leaf { line.height ≡ Q.least }
    requires within { i < 2 ^ quad.height }
    ensures { MakesQuad Q.lean 1 quad.height
        (added_cells i (quad_set (Q.worker q.old) line) (quad_set (Q.worker q.old) quad))
        (Q.worker q.old) (Q.worker q.new) result }
{
    let side = side_of(quad.height);
    let bits = q.bits(quad);
    let more = q.bits(line);
    q.block(word_with_row(bits, side, i, more))
}

/// The same above the leaves, if the line is lower: it lies in the western half.
#[cycle(line)]
fn with_low_line<Q: Quads>(q: &mut Q, quad: Quad, i: u32, line: Quad) -> Result<Quad, Lack>
    requires stands { HasQuad (Q.worker q.old) quad }
    requires line_stands { HasQuad (Q.worker q.old) line }
    requires over { Q.least < quad.height }
    requires low { line.height < quad.height }
    requires within { i < 2 ^ quad.height }
    ensures { MakesQuad Q.lean (strip (quad.height - Q.least)) quad.height
        (added_cells i (quad_set (Q.worker q.old) line) (quad_set (Q.worker q.old) quad))
        (Q.worker q.old) (Q.worker q.new) result }
{
    let Quarters { nw, ne, sw, se } = q.quarters(quad);
    let half = side_of(nw.height);
    if i < half {
        let north = with_line(q, nw, i, line)?;
        return q.corner(north, ne, sw, se);
    }
    let south = with_line(q, sw, i - half, line)?;
    q.corner(nw, ne, south, se)
}

/// The same above the leaves, if both have one height.
#[cycle(line)]
fn with_line_over<Q: Quads>(q: &mut Q, quad: Quad, i: u32, line: Quad) -> Result<Quad, Lack>
    requires stands { HasQuad (Q.worker q.old) quad }
    requires line_stands { HasQuad (Q.worker q.old) line }
    requires over { Q.least < quad.height }
    requires one_height { line.height ≡ quad.height }
    requires within { i < 2 ^ quad.height }
    ensures { MakesQuad Q.lean (strip (quad.height - Q.least)) quad.height
        (added_cells i (quad_set (Q.worker q.old) line) (quad_set (Q.worker q.old) quad))
        (Q.worker q.old) (Q.worker q.new) result }
{
    let Quarters { nw, ne, sw, se } = q.quarters(quad);
    let Quarters {
        nw: west,
        ne: east,
        ..
    } = q.quarters(line);
    let half = side_of(nw.height);
    if i < half {
        let north = with_halves(q, nw, ne, i, west, east)?;
        return q.corner(north.0, north.1, sw, se);
    }
    let south = with_halves(q, sw, se, i - half, west, east)?;
    q.corner(nw, ne, south.0, south.1)
}

/// Two quads side by side, each with its half of a line added.
#[cycle(line)]
fn with_halves<Q: Quads>(
    q: &mut Q,
    west: Quad,
    east: Quad,
    i: u32,
    first: Quad,
    second: Quad,
) -> Result<(Quad, Quad), Lack>
    requires west_stands { HasQuad (Q.worker q.old) west }
    requires east_stands { HasQuad (Q.worker q.old) east }
    requires first_stands { HasQuad (Q.worker q.old) first }
    requires second_stands { HasQuad (Q.worker q.old) second }
    requires east_height { east.height ≡ west.height }
    requires first_height { first.height ≡ west.height }
    requires second_height { second.height ≡ west.height }
    requires within { i < 2 ^ west.height }
    ensures { MakesTwo Q.lean (2 * strip (west.height - Q.least)) west.height
        (added_cells i (quad_set (Q.worker q.old) first) (quad_set (Q.worker q.old) west))
        (added_cells i (quad_set (Q.worker q.old) second) (quad_set (Q.worker q.old) east))
        (Q.worker q.old) (Q.worker q.new) result }
{
    let left = with_line(q, west, i, first)?;
    if east.name == west.name && second.name == first.name {
        return Ok((left, left));
    }
    let right = with_line(q, east, i, second)?;
    Ok((left, right))
}
