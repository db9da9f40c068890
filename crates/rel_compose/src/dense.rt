//! Whether two squares of at most 256 rows are so dense that their product is quicker by rows of bits than by quarters.
//! All of this is a guess; no result depends on it.
ghost use Rattle.std.specs.Prelude.{◌≡◌, ◌<◌, ◌≤◌, true};
ghost use Rattle.rel_model.specs.Trees.{bottom_height};
ghost use Rattle.rel_model.specs.Equations.{side_of};
ghost use Rattle.rel_model.specs.Quads.{Keeper, QuadStands, ReadsQuads};

use crate::distinct::has_distinct;
use quad_nodes::Nodes;
use rel_model::{Quad, Quarters};

/// The greatest height of squares that are composed by rows or by sums of rows.
pub(crate) const TALLEST: u8 = 13;

/// What is computed of two squares. 1 byte.
#[derive(Clone, Copy)]
pub(crate) enum Wanted {
    /// Their product.
    Product,
    /// The union of their product with a quad. For rows to pay, fewer quads are needed than for a product alone,
    /// because neither the product nor a partial sum is named.
    Union,
}

/// A dense square has at least this many non-empty squares among the sixteen two heights below it.
const LEAST_FILLED: u32 = 12;

/// At least how many distinct quads are under a dense square of a height.
fn least_distinct(height: u8, wanted: Wanted) -> u32 {
    let least = match height {
        8 => 80,
        7 => 40,
        _ => 20,
    };
    match wanted {
        Wanted::Product => least,
        Wanted::Union => least / 2,
    }
}

/// Whether a square with these quarters may be dense: at most one is empty, and the first and the last differ. In many
/// regular relations these are equal.
pub(crate) fn may_be_dense(four: Quarters) -> bool {
    let Quarters { nw, ne, sw, se } = four;
    if nw.name == se.name {
        return false;
    }
    if nw.is_empty() || se.is_empty() {
        return !ne.is_empty() && !sw.is_empty();
    }
    !ne.is_empty() || !sw.is_empty()
}

/// How many quarters of a quad are non-empty; 0 for a block.
fn filled_quarters(nodes: &mut Nodes, q: Quad) -> u32
    requires stands { QuadStands nodes.old q }
    ensures reads { ReadsQuads nodes.old nodes.new }
{
    let bottom = nodes.bottom();
    if q.is_empty() || q.height == bottom {
        return 0;
    }
    let Quarters { nw, ne, sw, se } = nodes.quarters(q);
    let north = u32::from(!nw.is_empty()).saturating_add(u32::from(!ne.is_empty()));
    let south = u32::from(!sw.is_empty()).saturating_add(u32::from(!se.is_empty()));
    north.saturating_add(south)
}

/// Whether most of the sixteen quarters of four quads are non-empty, as in dense squares of 256 rows.
fn are_filled(nodes: &mut Nodes, four: Quarters) -> bool
    requires nw { QuadStands nodes.old four.nw }
    requires ne { QuadStands nodes.old four.ne }
    requires sw { QuadStands nodes.old four.sw }
    requires se { QuadStands nodes.old four.se }
    ensures reads { ReadsQuads nodes.old nodes.new }
{
    let Quarters { nw, ne, sw, se } = four;
    let first = filled_quarters(nodes, nw);
    let second = filled_quarters(nodes, ne);
    let third = filled_quarters(nodes, sw);
    let fourth = filled_quarters(nodes, se);
    let north = first.saturating_add(second);
    let south = third.saturating_add(fourth);
    north.saturating_add(south) >= LEAST_FILLED
}

/// Whether a square may be dense by its quarters and theirs. For a union that is not asked.
fn looks_dense(nodes: &mut Nodes, q: Quad, wanted: Wanted) -> bool
    requires stands { QuadStands nodes.old q }
    requires over { bottom_height < q.height }
    ensures reads { ReadsQuads nodes.old nodes.new }
{
    let _ = nodes.bottom();
    if let Wanted::Union = wanted {
        return true;
    }
    let four = nodes.quarters(q);
    if !may_be_dense(four) {
        return false;
    }
    are_filled(nodes, four)
}

/// Whether a square is dense: it looks so by its quarters, and it has many distinct quads under it.
pub(crate) fn is_dense(nodes: &mut Nodes, q: Quad, wanted: Wanted) -> bool
    requires stands { QuadStands nodes.old q }
    requires over { bottom_height < q.height }
    ensures reads { ReadsQuads nodes.old nodes.new }
{
    if !looks_dense(nodes, q, wanted) {
        return false;
    }
    has_distinct(nodes, q, least_distinct(q.height, wanted))
}

/// Whether two squares are both dense and have a height at which rows pay (6 to 8, and at most `tallest`).
pub(crate) fn rows_pay(nodes: &mut Nodes, a: Quad, b: Quad, wanted: Wanted, tallest: u8) -> bool
    requires a_stands { QuadStands nodes.old a }
    requires b_stands { QuadStands nodes.old b }
    requires one_height { b.height ≡ a.height }
    requires over { bottom_height < a.height }
    ensures small { result ≡ true → side_of a.height ≤ 256 }
    ensures reads { ReadsQuads nodes.old nodes.new }
{
    let _ = nodes.bottom();
    if a.height < 6 || a.height > 8 || a.height > tallest {
        return false;
    }
    if !is_dense(nodes, a, wanted) {
        return false;
    }
    is_dense(nodes, b, wanted)
}
