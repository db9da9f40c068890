//! From the tree of a line to its heap of bytes.
ghost use Rattle.std.specs.Prelude.{◌≤◌, ◌+◌, ◌-◌, ◌*◌, ◌^◌, length};
ghost use Rattle.rel_model.specs.Relation.{size_height};
ghost use Rattle.rel_model.specs.Worker.{HasQuad, quad_set};
ghost use Rattle.rel_images.specs.Lines.{Adds, bits_under, first_row};
ghost use Rattle.rel_steps.specs.Reading.{OnlyReads};

use crate::leaf::{add_line, first_line};
use rel_model::empty::side_of;
use rel_model::quads_trait::Quads;
use rel_model::{Quad, Quarters};

/// Adds row 0 of a quad to the leaves under a node. The node stands for the elements of a height, which may be more
/// than the quad has columns.
pub(crate) fn spread<Q: Quads>(q: &mut Q, quad: Quad, height: u8, xs: &mut [u8], k: usize)
    requires stands { HasQuad (Q.worker q.old) quad }
    requires no_higher { quad.height ≤ height }
    requires high { height ≤ size_height }
    requires within { (k + 1) * 2 ^ (height - Q.least) ≤ length xs.old }
    ensures adds { Adds (bits_under Q.least (height - Q.least) k (first_row (quad_set (Q.worker q.old) quad)))
        xs.old xs.new }
    ensures reads { OnlyReads (Q.worker q.old) (Q.worker q.new) }
{
    if quad.is_empty() {
        return;
    }
    if height == q.bottom() {
        let side = side_of(height);
        let bits = q.bits(quad);
        add_line(xs, k, side, first_line(bits, side));
        return;
    }
    if quad.height < height {
        spread(q, quad, height - 1, xs, 2 * k);
        return;
    }
    let Quarters { nw, ne, .. } = q.quarters(quad);
    spread(q, nw, height - 1, xs, 2 * k);
    spread(q, ne, height - 1, xs, 2 * k + 1);
}
