//! The next cell of a row, found along the path of the row. If both halves are the same quad and the western one has no
//! cell, the eastern one is not searched.
ghost use Rattle.std.specs.Prelude.{◌≡◌, ◌<◌, ◌≤◌, ◌+◌, ◌^◌};
ghost use Rattle.rel_model.specs.Trees.{beside};
ghost use Rattle.rel_model.specs.Worker.{HasQuad, quad_set, Keeps, MakesAtMost, MissesNothing};
ghost use Rattle.rel_choice.specs.Leasts.{IsLeast};

use crate::leaf::column_in;
use rel_model::empty::side_of;
use rel_model::quads_trait::Quads;
use rel_model::{Quad, Quarters};

/// The least column, at least `from` and below `below`, that has a cell in a row of a quad.
#[cycle(column)]
pub(crate) fn column_from<Q: Quads>(
    q: &mut Q,
    quad: Quad,
    row: u32,
    from: u32,
    below: u32,
) -> Option<u32>
    requires stands { HasQuad (Q.worker q.old) quad }
    requires row_within { row < 2 ^ quad.height }
    requires within { below ≤ 2 ^ quad.height }
    ensures value { IsLeast (quad_set (Q.worker q.old) quad row) from below result }
    ensures keeps { Keeps (Q.worker q.old) (Q.worker q.new) }
    ensures room { MakesAtMost 0 (Q.worker q.old) (Q.worker q.new) }
    ensures misses { MissesNothing (Q.worker q.old) (Q.worker q.new) }
{
    if below <= from {
        return None;
    }
    if quad.is_empty() {
        return None;
    }
    if quad.height == q.bottom() {
        let side = side_of(quad.height);
        let bits = q.bits(quad);
        return column_in(bits, side, row, from, below);
    }
    column_over(q, quad, row, from, below)
}

/// The same above the leaves.
#[cycle(column)]
fn column_over<Q: Quads>(q: &mut Q, quad: Quad, row: u32, from: u32, below: u32) -> Option<u32>
    requires stands { HasQuad (Q.worker q.old) quad }
    requires over { Q.least < quad.height }
    requires row_within { row < 2 ^ quad.height }
    requires within { below ≤ 2 ^ quad.height }
    ensures value { IsLeast (quad_set (Q.worker q.old) quad row) from below result }
    ensures keeps { Keeps (Q.worker q.old) (Q.worker q.new) }
    ensures room { MakesAtMost 0 (Q.worker q.old) (Q.worker q.new) }
    ensures misses { MissesNothing (Q.worker q.old) (Q.worker q.new) }
{
    let Quarters { nw, ne, sw, se } = q.quarters(quad);
    let half = side_of(nw.height);
    if row < half {
        return column_of_two(q, nw, ne, row, from, below);
    }
    column_of_two(q, sw, se, row - half, from, below)
}

/// The same for two quads of one height, side by side.
#[cycle(column)]
fn column_of_two<Q: Quads>(
    q: &mut Q,
    west: Quad,
    east: Quad,
    row: u32,
    from: u32,
    below: u32,
) -> Option<u32>
    requires west_stands { HasQuad (Q.worker q.old) west }
    requires east_stands { HasQuad (Q.worker q.old) east }
    requires one_height { east.height ≡ west.height }
    requires row_within { row < 2 ^ west.height }
    requires within { below ≤ 2 ^ west.height + 2 ^ west.height }
    ensures value { IsLeast (beside (2 ^ west.height) (quad_set (Q.worker q.old) west)
        (quad_set (Q.worker q.old) east) row) from below result }
    ensures keeps { Keeps (Q.worker q.old) (Q.worker q.new) }
    ensures room { MakesAtMost 0 (Q.worker q.old) (Q.worker q.new) }
    ensures misses { MissesNothing (Q.worker q.old) (Q.worker q.new) }
{
    let half = side_of(west.height);
    if let Some(found) = column_from(q, west, row, from, below.min(half)) {
        return Some(found);
    }
    if from == 0 && east.name == west.name {
        return None;
    }
    let found = column_from(
        q,
        east,
        row,
        from.saturating_sub(half),
        below.saturating_sub(half),
    )?;
    Some(half + found)
}
