//! Whether the product of two squares of more than 256 rows is quicker by sums of rows, and whether the recursion by
//! quarters should ask again. All of this is a guess; no result depends on it.
ghost use Rattle.std.specs.Prelude.{◌≡◌, ◌<◌, ◌≤◌, true, length};
ghost use Rattle.rel_model.specs.Quads.{Keeper, QuadStands, ReadsQuads};

use crate::dense::{Wanted, is_dense, may_be_dense};
use crate::distinct::is_new;
use quad_nodes::Nodes;
use rel_model::{Quad, Quarters};

/// At least how many distinct dense squares of 256 rows are under a square of a height, for products to be summed in
/// rows.
fn least_dense(height: u8) -> u32 {
    match height {
        9 => 2,
        10 => 4,
        11 => 16,
        12 => 64,
        _ => 256,
    }
}

/// Counts distinct dense squares of 256 rows under `q`, adding to `met`, and stops at `most`. `seen` is a cache of the
/// names met so far; a square may be counted twice.
fn dense_under(
    nodes: &mut Nodes,
    q: Quad,
    wanted: Wanted,
    seen: &mut [u32],
    met: u32,
    most: u32,
) -> u32
    requires stands { QuadStands nodes.old q }
    requires tall { 8 ≤ q.height }
    requires some { 0 < length seen.old }
    ensures same { length seen.new ≡ length seen.old }
    ensures reads { ReadsQuads nodes.old nodes.new }
{
    let _ = nodes.bottom();
    if q.is_empty() || met >= most {
        return met;
    }
    if !is_new(seen, q.name) {
        return met;
    }
    if q.height == 8 {
        return met.saturating_add(u32::from(is_dense(nodes, q, wanted)));
    }
    let Quarters { nw, ne, sw, se } = nodes.quarters(q);
    let first = dense_under(nodes, nw, wanted, seen, met, most);
    let second = dense_under(nodes, ne, wanted, seen, first, most);
    let third = dense_under(nodes, sw, wanted, seen, second, most);
    dense_under(nodes, se, wanted, seen, third, most)
}

/// Whether at least `least` distinct dense squares of 256 rows are under a quad.
///
/// Keeping this a separate call puts its array on the stack once.
#[inline(never)]
fn has_dense(nodes: &mut Nodes, q: Quad, wanted: Wanted, least: u32) -> bool
    requires stands { QuadStands nodes.old q }
    requires over { 8 < q.height }
    ensures reads { ReadsQuads nodes.old nodes.new }
{
    let mut seen = [0; 1024];
    dense_under(nodes, q, wanted, &mut seen, 0, least) >= least
}

/// Whether so many distinct dense squares of 256 rows are under a quad that products should be summed in rows.
fn has_many_dense(nodes: &mut Nodes, q: Quad, wanted: Wanted) -> bool
    requires stands { QuadStands nodes.old q }
    requires over { 8 < q.height }
    ensures reads { ReadsQuads nodes.old nodes.new }
{
    let four = nodes.quarters(q);
    if !may_be_dense(four) {
        return false;
    }
    has_dense(nodes, q, wanted, least_dense(q.height))
}

/// Whether the products of two quads should be summed in rows: their height is more than 8 and at most `tallest`, and
/// both have many dense squares.
pub(crate) fn sums_pay(nodes: &mut Nodes, a: Quad, b: Quad, wanted: Wanted, tallest: u8) -> bool
    requires a_stands { QuadStands nodes.old a }
    requires b_stands { QuadStands nodes.old b }
    requires one_height { b.height ≡ a.height }
    ensures tall { result ≡ true → 8 ≤ a.height }
    ensures reads { ReadsQuads nodes.old nodes.new }
{
    let _ = nodes.bottom();
    if a.height < 9 || a.height > tallest {
        return false;
    }
    if !has_many_dense(nodes, a, wanted) {
        return false;
    }
    has_many_dense(nodes, b, wanted)
}

/// Up to which height the recursion asks again whether rows pay, after they did not pay for these two squares. It does
/// not ask at all if one of them has no dense square of 256 rows, nor below squares of 128 rows, since there are many.
pub(crate) fn asked_under(nodes: &mut Nodes, a: Quad, b: Quad, tallest: u8) -> u8
    requires a_stands { QuadStands nodes.old a }
    requires b_stands { QuadStands nodes.old b }
    requires one_height { b.height ≡ a.height }
    ensures reads { ReadsQuads nodes.old nodes.new }
{
    let _ = nodes.bottom();
    if tallest == 0 || a.height < 8 {
        return 0;
    }
    if a.height == 8 || a.height > tallest {
        return tallest;
    }
    if !has_dense(nodes, a, Wanted::Product, 1) {
        return 0;
    }
    if has_dense(nodes, b, Wanted::Product, 1) {
        tallest
    } else {
        0
    }
}
