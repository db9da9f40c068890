//! The next row that has a cell. A half is not searched if it can have no lesser row than the one found, or if it is
//! the same quad as the other half.
ghost use Rattle.std.specs.Prelude.{◌≡◌, ◌<◌, ◌≤◌, ◌^◌};
ghost use Rattle.rel_model.specs.Worker.{HasQuad, quad_set, Keeps, MakesAtMost, MissesNothing};
ghost use Rattle.rel_choice.specs.Leasts.{IsLeast, row_meets, row_meets_either};

use crate::leaf::row_in;
use rel_model::empty::side_of;
use rel_model::quads_trait::Quads;
use rel_model::{Quad, Quarters};

/// The least row, at least `from` and below `below`, that has a cell in a quad.
#[cycle(row)]
pub(crate) fn row_from<Q: Quads>(q: &mut Q, quad: Quad, from: u32, below: u32) -> Option<u32>
    requires stands { HasQuad (Q.worker q.old) quad }
    requires within { below ≤ 2 ^ quad.height }
    ensures value { IsLeast (row_meets (2 ^ quad.height) (quad_set (Q.worker q.old) quad)) from below result }
    ensures keeps { Keeps (Q.worker q.old) (Q.worker q.new) }
    ensures room { MakesAtMost 0 (Q.worker q.old) (Q.worker q.new) }
    ensures misses { MissesNothing (Q.worker q.old) (Q.worker q.new) }
{
    if below <= from {
        return None;
    }
    if quad.is_empty() {
        return None;
    }
    if quad.height == q.bottom() {
        let side = side_of(quad.height);
        let bits = q.bits(quad);
        return row_in(bits, side, from, below);
    }
    row_over(q, quad, from, below)
}

/// The same above the leaves.
#[cycle(row)]
fn row_over<Q: Quads>(q: &mut Q, quad: Quad, from: u32, below: u32) -> Option<u32>
    requires stands { HasQuad (Q.worker q.old) quad }
    requires over { Q.least < quad.height }
    requires within { below ≤ 2 ^ quad.height }
    ensures value { IsLeast (row_meets (2 ^ quad.height) (quad_set (Q.worker q.old) quad)) from below result }
    ensures keeps { Keeps (Q.worker q.old) (Q.worker q.new) }
    ensures room { MakesAtMost 0 (Q.worker q.old) (Q.worker q.new) }
    ensures misses { MissesNothing (Q.worker q.old) (Q.worker q.new) }
{
    let Quarters { nw, ne, sw, se } = q.quarters(quad);
    let half = side_of(nw.height);
    if let Some(found) = row_of_two(q, nw, ne, from, below.min(half)) {
        return Some(found);
    }
    let found = row_of_two(
        q,
        sw,
        se,
        from.saturating_sub(half),
        below.saturating_sub(half),
    )?;
    Some(half + found)
}

/// The same for two quads of one height, side by side.
#[cycle(row)]
fn row_of_two<Q: Quads>(q: &mut Q, west: Quad, east: Quad, from: u32, below: u32) -> Option<u32>
    requires west_stands { HasQuad (Q.worker q.old) west }
    requires east_stands { HasQuad (Q.worker q.old) east }
    requires one_height { east.height ≡ west.height }
    requires within { below ≤ 2 ^ west.height }
    ensures value { IsLeast (row_meets_either (2 ^ west.height) (quad_set (Q.worker q.old) west)
        (quad_set (Q.worker q.old) east)) from below result }
    ensures keeps { Keeps (Q.worker q.old) (Q.worker q.new) }
    ensures room { MakesAtMost 0 (Q.worker q.old) (Q.worker q.new) }
    ensures misses { MissesNothing (Q.worker q.old) (Q.worker q.new) }
{
    if east.name == west.name {
        return row_from(q, west, from, below);
    }
    let Some(found) = row_from(q, west, from, below) else {
        return row_from(q, east, from, below);
    };
    match row_from(q, east, from, found) {
        Some(nearer) => Some(nearer),
        None => Some(found),
    }
}
