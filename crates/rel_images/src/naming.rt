//! From the heap of a line to its tree.
ghost use Rattle.std.specs.Prelude.{◌≡◌, ◌<◌, ◌≤◌, ◌+◌, ◌-◌, ◌*◌, ◌^◌, ℕ, true, length};
ghost use Rattle.rel_model.specs.Relation.{size_limit};
ghost use Rattle.rel_model.specs.Trees.{top_height};
ghost use Rattle.rel_model.specs.Roots.{height_over};
ghost use Rattle.rel_steps.specs.Making.{MakesQuad};
ghost use Rattle.rel_images.specs.Lines.{IsMarked, bits_of, line_under, one_row, has_bit, byte_line};
ghost use Rattle.rel_rows.specs.Rooms.{strip};
ghost use Rattle.rel_images.specs.Rooms.{line_room};

use crate::leaf::line_block;
use rel_model::empty::side_of;
use rel_model::quads_trait::Quads;
use rel_model::{Lack, Quad};

/// The leaf of one entry.
fn named_leaf<Q: Quads>(q: &mut Q, entry: u8) -> Result<Quad, Lack>
    ensures { MakesQuad Q.lean 1 Q.least (one_row (byte_line (2 ^ Q.least) entry)) (Q.worker q.old) (Q.worker q.new)
        result }
{
    let side = side_of(q.bottom());
    q.block(line_block(entry as u64, side))
}

/// The quad whose row 0 is the line under node `k`.
pub(crate) fn named<Q: Quads>(q: &mut Q, ys: &[u8], height: u8, k: usize) -> Result<Quad, Lack>
    requires low { Q.least ≤ height }
    requires high { height ≤ top_height }
    requires marked { IsMarked Q.least ys.now (height - Q.least) k }
    requires within { (k + 1) * 2 ^ (height - Q.least) ≤ length ys.now }
    ensures { MakesQuad Q.lean (strip (height - Q.least)) height
        (one_row (line_under Q.least (bits_of ys.now) (height - Q.least) k)) (Q.worker q.old) (Q.worker q.new) result }
{
    if ys[k] == 0 {
        return Ok(Quad::empty(height));
    }
    if height == q.bottom() {
        return named_leaf(q, ys[k]);
    }
    let none = Quad::empty(height - 1);
    let west = named(q, ys, height - 1, 2 * k)?;
    let east = named(q, ys, height - 1, 2 * k + 1)?;
    q.corner(west, east, none, none)
}

/// The same for a line of `cols` elements, as row 0 of the smallest quad that is as wide.
pub(crate) fn named_within<Q: Quads>(
    q: &mut Q,
    ys: &[u8],
    height: u8,
    k: usize,
    cols: u32,
) -> Result<Quad, Lack>
    requires low { Q.least ≤ height }
    requires high { height ≤ top_height }
    requires marked { IsMarked Q.least ys.now (height - Q.least) k }
    requires within { (k + 1) * 2 ^ (height - Q.least) ≤ length ys.now }
    requires limit { cols ≤ size_limit }
    requires fits { cols ≤ 2 ^ height }
    requires narrow { (j : ℕ) → line_under Q.least (bits_of ys.now) (height - Q.least) k j ≡ true → j < cols }
    ensures { MakesQuad Q.lean (line_room Q.least cols) (height_over Q.least 1 cols)
        (one_row (line_under Q.least (bits_of ys.now) (height - Q.least) k)) (Q.worker q.old) (Q.worker q.new) result }
{
    if height == q.bottom() {
        return named(q, ys, height, k);
    }
    let half = side_of(height - 1);
    if cols > half {
        return named(q, ys, height, k);
    }
    named_within(q, ys, height - 1, 2 * k, cols)
}
