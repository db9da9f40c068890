//! The heap of a line, and the heap of its image.
ghost use Rattle.std.specs.Prelude.{◌≡◌, ◌≤◌, ◌*◌, ◌-◌, ◌^◌, true, length, replicate, IfSome};
ghost use Rattle.rel_model.specs.Relation.{size_height};
ghost use Rattle.rel_model.specs.Worker.{HasQuad, quad_set};
ghost use Rattle.rel_images.specs.Lines.{IsMarked, IsHeap, bits_of, line_under, first_row, image_line, turned_cells};
ghost use Rattle.rel_steps.specs.Reading.{OnlyReads};

use crate::marking::mark;
use crate::spreading::spread;
use crate::walking::walk;
use rel_model::Quad;
use rel_model::quads_trait::Quads;
use std::alloc::Global;

/// A walk visits at most this many quads for each row of the relation's square.
const VISITS_PER_ROW: u64 = 512;

/// How many leaves a heap has.
pub(crate) fn leaves_of(height: u8, bottom: u8) -> usize
    requires low { bottom ≤ height }
    requires high { height ≤ size_height }
    ensures { result ≡ 2 ^ (height - bottom) }
{
    1 << (height - bottom)
}

/// `len` zero bytes. `None`: there is no memory for them.
pub(crate) fn zeros(alloc: Global, len: usize) -> Option<Vec<u8>>
    ensures { IfSome result (λ v. v.items ≡ replicate len 0) }
{
    match vec![in alloc; 0u8; len] {
        Ok(bytes) => Some(bytes),
        Err(_) => None,
    }
}

/// Turns a heap of zeros into the heap of row 0 of a quad, over the elements of a height.
fn fill_line<Q: Quads>(q: &mut Q, line: Quad, height: u8, leaves: usize, xs: &mut [u8])
    requires stands { HasQuad (Q.worker q.old) line }
    requires no_higher { line.height ≤ height }
    requires high { height ≤ size_height }
    requires leaves { leaves ≡ 2 ^ (height - Q.least) }
    requires zeros { xs.old ≡ replicate (2 * leaves) 0 }
    ensures heap { IsHeap Q.least height (first_row (quad_set (Q.worker q.old) line)) xs.new }
    ensures reads { OnlyReads (Q.worker q.old) (Q.worker q.new) }
{
    spread(q, line, height, xs, 1);
    mark(xs, leaves);
}

/// The heap of row 0 of a quad. `None`: there is no memory for it.
pub(crate) fn heap_of<Q: Quads>(alloc: Global, q: &mut Q, line: Quad, height: u8) -> Option<Vec<u8>>
    requires stands { HasQuad (Q.worker q.old) line }
    requires no_higher { line.height ≤ height }
    requires high { height ≤ size_height }
    ensures heap { IfSome result (λ v. IsHeap Q.least height (first_row (quad_set (Q.worker q.old) line)) v.items) }
    ensures reads { OnlyReads (Q.worker q.old) (Q.worker q.new) }
{
    let leaves = leaves_of(height, q.bottom());
    let Some(mut xs) = zeros(alloc, 2 * leaves) else {
        return None;
    };
    fill_line(q, line, height, leaves, &mut xs);
    Some(xs)
}

/// How many quads a walk by a quad of this height visits at most.
fn visits_of(height: u8) -> u64
    requires { height ≤ size_height }
{
    VISITS_PER_ROW << height
}

/// Turns a heap of zeros into the heap of the image of a line by a quad, or by its transpose, in at most `visits`
/// visits. False: the walk gave up.
fn fill_image<Q: Quads>(
    q: &mut Q,
    turned: bool,
    quad: Quad,
    xs: &[u8],
    leaves: usize,
    ys: &mut [u8],
    visits: u64,
) -> bool
    requires stands { HasQuad (Q.worker q.old) quad }
    requires marked { IsMarked Q.least xs.now (quad.height - Q.least) 1 }
    requires places { length xs.now ≡ 2 * 2 ^ (quad.height - Q.least) }
    requires leaves { leaves ≡ 2 ^ (quad.height - Q.least) }
    requires zeros { ys.old ≡ replicate (2 * leaves) 0 }
    ensures heap { result ≡ true → IsHeap Q.least quad.height (image_line (2 ^ quad.height)
        (line_under Q.least (bits_of xs.now) (quad.height - Q.least) 1)
        (turned_cells turned (quad_set (Q.worker q.old) quad))) ys.new }
    ensures reads { OnlyReads (Q.worker q.old) (Q.worker q.new) }
{
    let left = walk(q, turned, quad, xs, 1, ys, 1, visits);
    if left == 0 {
        return false;
    }
    mark(ys, leaves);
    true
}

/// The heap of the image of a heap's line by a quad, or by its transpose, in at most so many visits. `None`: the walk
/// gave up, or there is no memory for it.
pub(crate) fn heap_from<Q: Quads>(
    alloc: Global,
    q: &mut Q,
    turned: bool,
    quad: Quad,
    xs: &[u8],
    visits: u64,
) -> Option<Vec<u8>>
    requires stands { HasQuad (Q.worker q.old) quad }
    requires high { quad.height ≤ size_height }
    requires marked { IsMarked Q.least xs.now (quad.height - Q.least) 1 }
    requires places { length xs.now ≡ 2 * 2 ^ (quad.height - Q.least) }
    ensures heap { IfSome result (λ v. IsHeap Q.least quad.height (image_line (2 ^ quad.height)
        (line_under Q.least (bits_of xs.now) (quad.height - Q.least) 1)
        (turned_cells turned (quad_set (Q.worker q.old) quad))) v.items) }
    ensures reads { OnlyReads (Q.worker q.old) (Q.worker q.new) }
{
    let leaves = leaves_of(quad.height, q.bottom());
    let Some(mut ys) = zeros(alloc, 2 * leaves) else {
        return None;
    };
    if fill_image(q, turned, quad, xs, leaves, &mut ys, visits) {
        return Some(ys);
    }
    None
}

/// The heap of the image of row 0 of a quad by another quad, or by its transpose. `None`: the walk gave up, or there is
/// no memory for it.
pub(crate) fn reached<Q: Quads>(
    alloc: Global,
    q: &mut Q,
    turned: bool,
    line: Quad,
    quad: Quad,
) -> Option<Vec<u8>>
    requires line_stands { HasQuad (Q.worker q.old) line }
    requires stands { HasQuad (Q.worker q.old) quad }
    requires no_higher { line.height ≤ quad.height }
    ensures heap { IfSome result (λ v. IsHeap Q.least quad.height (image_line (2 ^ quad.height)
        (first_row (quad_set (Q.worker q.old) line)) (turned_cells turned (quad_set (Q.worker q.old) quad))) v.items) }
    ensures reads { OnlyReads (Q.worker q.old) (Q.worker q.new) }
{
    let Some(xs) = heap_of(alloc, q, line, quad.height) else {
        return None;
    };
    match heap_from(alloc, q, turned, quad, &xs, visits_of(quad.height)) {
        Some(ys) => Some(ys),
        None => None,
    }
}
