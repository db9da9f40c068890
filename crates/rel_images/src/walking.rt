//! The walk of a relation's tree with a line.
ghost use Rattle.std.specs.Prelude.{◌≡◌, ◌<◌, ◌≤◌, ◌+◌, ◌-◌, ◌*◌, ◌^◌, length};
ghost use Rattle.rel_model.specs.Worker.{HasQuad, quad_set};
ghost use Rattle.rel_images.specs.Lines.{Adds, Walks, IsMarked, has_bit, bits_under, image_line, image_bits, turned_cells};
ghost use Rattle.rel_steps.specs.Reading.{OnlyReads};

use crate::leaf::{add_line, leaf_image};
use crate::quarters::turned_quarters;
use rel_model::empty::side_of;
use rel_model::quads_trait::Quads;
use rel_model::{Quad, Quarters};

/// Adds the image, by a leaf, of a line that fits in one leaf.
fn walk_leaf<Q: Quads>(q: &mut Q, turned: bool, quad: Quad, line: u8, ys: &mut [u8], j: usize)
    requires stands { HasQuad (Q.worker q.old) quad }
    requires leaf { quad.height ≡ Q.least }
    requires within { j < length ys.old }
    ensures adds { Adds (bits_under Q.least 0 j (image_line (2 ^ Q.least) (has_bit line)
        (turned_cells turned (quad_set (Q.worker q.old) quad)))) ys.old ys.new }
    ensures reads { OnlyReads (Q.worker q.old) (Q.worker q.new) }
{
    let side = side_of(quad.height);
    let bits = q.bits(quad);
    add_line(ys, j, side, leaf_image(turned, bits, side, line as u64));
}

/// Whether both halves of the line under node `i` have elements. The walk then visits each quarter that is not empty,
/// and so reads their words ahead, for which it waits most. Otherwise it would read some that it does not need.
#[inline(always)]
fn meets_both(xs: &[u8], i: usize) -> bool
    requires { 2 * i + 1 < length xs.now }
{
    xs[2 * i] != 0 && xs[2 * i + 1] != 0
}

/// Adds the image of the line under node `i` by a quad to the leaves under node `j`, and returns the fuel that is left.
///
/// It skips quads that are empty or do not meet the line, and visits the others. Each visit above the leaves takes one
/// unit of fuel; when none is left the walk gives up, and what it has written is then useless. Inlining it leaves one
/// call for each visit.
#[cycle(walk)]
#[inline(always)]
pub(crate) fn walk<Q: Quads>(
    q: &mut Q,
    turned: bool,
    quad: Quad,
    xs: &[u8],
    i: usize,
    ys: &mut [u8],
    j: usize,
    fuel: u64,
) -> u64
    requires stands { HasQuad (Q.worker q.old) quad }
    requires marked { IsMarked Q.least xs.now (quad.height - Q.least) i }
    requires from { (i + 1) * 2 ^ (quad.height - Q.least) ≤ length xs.now }
    requires to { (j + 1) * 2 ^ (quad.height - Q.least) ≤ length ys.old }
    ensures { Walks (image_bits Q.least xs.now i j quad.height (turned_cells turned (quad_set (Q.worker q.old) quad)))
        fuel result (Q.worker q.old) (Q.worker q.new) ys.old ys.new }
{
    if quad.is_empty() {
        return fuel;
    }
    if xs[i] == 0 {
        return fuel;
    }
    visit(q, turned, quad, xs, i, ys, j, fuel)
}

/// The same for a quad that meets the line.
#[cycle(walk)]
fn visit<Q: Quads>(
    q: &mut Q,
    turned: bool,
    quad: Quad,
    xs: &[u8],
    i: usize,
    ys: &mut [u8],
    j: usize,
    fuel: u64,
) -> u64
    requires stands { HasQuad (Q.worker q.old) quad }
    requires marked { IsMarked Q.least xs.now (quad.height - Q.least) i }
    requires from { (i + 1) * 2 ^ (quad.height - Q.least) ≤ length xs.now }
    requires to { (j + 1) * 2 ^ (quad.height - Q.least) ≤ length ys.old }
    ensures { Walks (image_bits Q.least xs.now i j quad.height (turned_cells turned (quad_set (Q.worker q.old) quad)))
        fuel result (Q.worker q.old) (Q.worker q.new) ys.old ys.new }
{
    if fuel == 0 {
        return 0;
    }
    if quad.height == q.bottom() {
        walk_leaf(q, turned, quad, xs[i], ys, j);
        return fuel;
    }
    let ahead = meets_both(xs, i);
    let Quarters { nw, ne, sw, se } = turned_quarters(q, turned, quad, ahead);
    let left = walk(q, turned, nw, xs, 2 * i, ys, 2 * j, fuel - 1);
    let left = walk(q, turned, ne, xs, 2 * i, ys, 2 * j + 1, left);
    let left = walk(q, turned, sw, xs, 2 * i + 1, ys, 2 * j, left);
    walk(q, turned, se, xs, 2 * i + 1, ys, 2 * j + 1, left)
}
