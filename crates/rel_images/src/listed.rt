//! The heap of an image by the pairs of a relation, where a walk of its tree would visit many quads.
ghost use Rattle.std.specs.Prelude.{◌≡◌, ◌<◌, ◌≤◌, ◌+◌, ◌-◌, ◌*◌, ◌/◌, ◌%◌, ◌^◌, cond, true, length, replicate, IfSome};
ghost use Rattle.rel_model.specs.Relation.{size_height};
ghost use Rattle.rel_model.specs.Listed.{AreWithin, is_among};
ghost use Rattle.rel_model.specs.Worker.{HasQuad, quad_set};
ghost use Rattle.rel_images.specs.Lines.{IsHeap, IsMarked, bits_of, line_under, first_row, image_line, turned_cells};
ghost use Rattle.rel_images.specs.Listing.{AddsElement, listed_image};
ghost use Rattle.rel_steps.specs.Reading.{OnlyReads};

use crate::leaf::add_line;
use crate::marking::mark;
use crate::reaching::{heap_from, heap_of, leaves_of, zeros};
use rel_model::Quad;
use rel_model::empty::side_of;
use rel_model::quads_trait::Quads;
use std::alloc::Global;

/// A visit of a quad takes about as long as a pass over this many pairs, since a visit waits for the table.
const PAIRS_PER_VISIT: usize = 64;

/// The entry of a heap that holds an element.
#[inline(always)]
fn entry_of(height: u8, bottom: u8, i: u32) -> usize
    requires low { bottom ≤ height }
    requires high { height ≤ size_height }
    requires within { i < 2 ^ height }
    ensures { result ≡ 2 ^ (height - bottom) + i / 2 ^ bottom }
{
    leaves_of(height, bottom) + (i >> bottom) as usize
}

/// The bit of an element in its entry.
#[inline(always)]
fn bit_of(bottom: u8, i: u32) -> u32
    requires { bottom ≤ 3 }
    ensures { result ≡ i % 2 ^ bottom }
{
    i - (i >> bottom) * side_of(bottom)
}

/// Whether the line of a heap has an element.
#[inline(always)]
fn has_element(xs: &[u8], height: u8, bottom: u8, i: u32) -> bool
    requires small { bottom ≤ 3 }
    requires low { bottom ≤ height }
    requires high { height ≤ size_height }
    requires places { length xs.now ≡ 2 * 2 ^ (height - bottom) }
    requires within { i < 2 ^ height }
    ensures { result ≡ line_under bottom (bits_of xs.now) (height - bottom) 1 i }
{
    let entry = xs[entry_of(height, bottom, i)];
    (entry >> bit_of(bottom, i)) % 2 == 1
}

/// Adds an element to the line of a heap.
#[inline(always)]
fn add_element(ys: &mut [u8], height: u8, bottom: u8, j: u32)
    requires small { bottom ≤ 3 }
    requires low { bottom ≤ height }
    requires high { height ≤ size_height }
    requires places { length ys.old ≡ 2 * 2 ^ (height - bottom) }
    requires within { j < 2 ^ height }
    ensures { AddsElement bottom (height - bottom) true j ys.old ys.new }
{
    let entry = entry_of(height, bottom, j);
    let bit = bit_of(bottom, j);
    add_line(ys, entry, side_of(bottom), 1 << bit);
}

/// Adds an element to the line of one heap if the line of another has an element.
#[inline(always)]
fn add_if(xs: &[u8], ys: &mut [u8], height: u8, bottom: u8, from: u32, to: u32)
    requires small { bottom ≤ 3 }
    requires low { bottom ≤ height }
    requires high { height ≤ size_height }
    requires places { length xs.now ≡ 2 * 2 ^ (height - bottom) }
    requires others { length ys.old ≡ 2 * 2 ^ (height - bottom) }
    requires within { from < 2 ^ height }
    requires over { to < 2 ^ height }
    ensures { AddsElement bottom (height - bottom) (line_under bottom (bits_of xs.now) (height - bottom) 1 from) to
        ys.old ys.new }
{
    if has_element(xs, height, bottom, from) {
        add_element(ys, height, bottom, to);
    }
}

/// Adds what the line of a heap gives by one pair, or by the pair turned.
#[inline(always)]
fn add_by_pair(turned: bool, xs: &[u8], ys: &mut [u8], height: u8, bottom: u8, i: u32, j: u32)
    requires small { bottom ≤ 3 }
    requires low { bottom ≤ height }
    requires high { height ≤ size_height }
    requires places { length xs.now ≡ 2 * 2 ^ (height - bottom) }
    requires others { length ys.old ≡ 2 * 2 ^ (height - bottom) }
    requires within { i < 2 ^ height }
    requires over { j < 2 ^ height }
    ensures { AddsElement bottom (height - bottom) (line_under bottom (bits_of xs.now) (height - bottom) 1
        (cond turned j i)) (cond turned i j) ys.old ys.new }
{
    if turned {
        add_if(xs, ys, height, bottom, j, i);
    } else {
        add_if(xs, ys, height, bottom, i, j);
    }
}

/// Turns a heap of zeros into the heap of the image of another heap's line by these pairs, or by the pairs turned.
fn fill_listed(turned: bool, xs: &[u8], ys: &mut [u8], height: u8, bottom: u8, pairs: &[(u32, u32)])
    requires small { bottom ≤ 3 }
    requires low { bottom ≤ height }
    requires high { height ≤ size_height }
    requires places { length xs.now ≡ 2 * 2 ^ (height - bottom) }
    requires zeros { ys.old ≡ replicate (2 * 2 ^ (height - bottom)) 0 }
    requires within { AreWithin (2 ^ height) (2 ^ height) pairs.now }
    ensures { IsHeap bottom height (listed_image turned (line_under bottom (bits_of xs.now) (height - bottom) 1)
        pairs.now) ys.new }
{
    'pairs: for (i, j) in pairs {
        add_by_pair(turned, xs, ys, height, bottom, *i, *j);
    }
    mark(ys, leaves_of(height, bottom));
}

/// The heap of the image of another heap's line by these pairs, or by the pairs turned. `None`: there is no memory for
/// it.
fn heap_listed(
    alloc: Global,
    turned: bool,
    xs: &[u8],
    height: u8,
    bottom: u8,
    pairs: &[(u32, u32)],
) -> Option<Vec<u8>>
    requires small { bottom ≤ 3 }
    requires low { bottom ≤ height }
    requires high { height ≤ size_height }
    requires places { length xs.now ≡ 2 * 2 ^ (height - bottom) }
    requires within { AreWithin (2 ^ height) (2 ^ height) pairs.now }
    ensures { IfSome result (λ v. IsHeap bottom height (listed_image turned
        (line_under bottom (bits_of xs.now) (height - bottom) 1) pairs.now) v.items) }
{
    let Some(mut ys) = zeros(alloc, 2 * leaves_of(height, bottom)) else {
        return None;
    };
    fill_listed(turned, xs, &mut ys, height, bottom, pairs);
    Some(ys)
}

/// The heap of the image of a heap's line by a quad, or by its transpose, whose pairs are given: by a walk if few
/// visits are enough, otherwise by one pass over the pairs. `None`: there is no memory for it.
fn heap_by_either<Q: Quads>(
    alloc: Global,
    q: &mut Q,
    turned: bool,
    quad: Quad,
    xs: &[u8],
    pairs: &[(u32, u32)],
) -> Option<Vec<u8>>
    requires stands { HasQuad (Q.worker q.old) quad }
    requires high { quad.height ≤ size_height }
    requires marked { IsMarked Q.least xs.now (quad.height - Q.least) 1 }
    requires places { length xs.now ≡ 2 * 2 ^ (quad.height - Q.least) }
    requires pairs { quad_set (Q.worker q.old) quad ≡ is_among pairs.now }
    requires within { AreWithin (2 ^ quad.height) (2 ^ quad.height) pairs.now }
    ensures heap { IfSome result (λ v. IsHeap Q.least quad.height (image_line (2 ^ quad.height)
        (line_under Q.least (bits_of xs.now) (quad.height - Q.least) 1)
        (turned_cells turned (quad_set (Q.worker q.old) quad))) v.items) }
    ensures reads { OnlyReads (Q.worker q.old) (Q.worker q.new) }
{
    let visits = (pairs.len() / PAIRS_PER_VISIT) as u64;
    match heap_from(alloc, q, turned, quad, xs, visits) {
        Some(ys) => Some(ys),
        None => heap_listed(alloc, turned, xs, quad.height, q.bottom(), pairs),
    }
}

/// The heap of the image of row 0 of a quad by another quad, or by its transpose, whose pairs are given. `None`: there
/// is no memory for it.
pub(crate) fn reached_by_pairs<Q: Quads>(
    alloc: Global,
    q: &mut Q,
    turned: bool,
    line: Quad,
    quad: Quad,
    pairs: &[(u32, u32)],
) -> Option<Vec<u8>>
    requires line_stands { HasQuad (Q.worker q.old) line }
    requires stands { HasQuad (Q.worker q.old) quad }
    requires no_higher { line.height ≤ quad.height }
    requires pairs { quad_set (Q.worker q.old) quad ≡ is_among pairs.now }
    requires within { AreWithin (2 ^ quad.height) (2 ^ quad.height) pairs.now }
    ensures heap { IfSome result (λ v. IsHeap Q.least quad.height (image_line (2 ^ quad.height)
        (first_row (quad_set (Q.worker q.old) line)) (turned_cells turned (quad_set (Q.worker q.old) quad))) v.items) }
    ensures reads { OnlyReads (Q.worker q.old) (Q.worker q.new) }
{
    let Some(xs) = heap_of(alloc, q, line, quad.height) else {
        return None;
    };
    match heap_by_either(alloc, q, turned, quad, &xs, pairs) {
        Some(ys) => Some(ys),
        None => None,
    }
}
