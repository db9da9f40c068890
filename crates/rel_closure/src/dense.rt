//! Whether a square is so dense that its closure is quicker by rows of bits than by quarters. All of this is a guess;
//! no result depends on it.
ghost use Rattle.std.specs.Prelude.{◌≡◌, ◌<◌, ◌≤◌, true, length};
ghost use Rattle.rel_model.specs.Worker.{HasQuad};
ghost use Rattle.rel_steps.specs.Reading.{OnlyReads};

use rel_model::quads_trait::Quads;
use rel_model::{Quad, Quarters};

/// A dense square of a height has at least this many distinct quads under it.
fn least_under(height: u8) -> u32 {
    match height {
        8 => 80,
        7 => 40,
        _ => 20,
    }
}

/// Counts distinct quads from `q` down, adding to `met`, and stops at `most`. `seen` is a direct-mapped cache of the
/// names met so far, so a quad may be counted twice.
fn met_under<Q: Quads>(quads: &mut Q, q: Quad, seen: &mut [u32], met: u32, most: u32) -> u32
    requires stands { HasQuad (Q.worker quads.old) q }
    requires places { length seen.old ≡ 256 }
    ensures same_places { length seen.new ≡ 256 }
    ensures reads { OnlyReads (Q.worker quads.old) (Q.worker quads.new) }
{
    if q.is_empty() || met >= most {
        return met;
    }
    let place = (q.name % 256) as usize;
    if seen[place] == q.name {
        return met;
    }
    seen[place] = q.name;
    if q.height == quads.bottom() {
        return met + 1;
    }
    let Quarters { nw, ne, sw, se } = quads.quarters(q);
    let first = met_under(quads, nw, seen, met + 1, most);
    let second = met_under(quads, ne, seen, first, most);
    let third = met_under(quads, sw, seen, second, most);
    met_under(quads, se, seen, third, most)
}

/// Whether the first and the last quarter of a square differ. In many regular relations they are equal.
fn ends_differ<Q: Quads>(quads: &mut Q, q: Quad) -> bool
    requires stands { HasQuad (Q.worker quads.old) q }
    requires over { Q.least < q.height }
    ensures reads { OnlyReads (Q.worker quads.old) (Q.worker quads.new) }
{
    let Quarters { nw, se, .. } = quads.quarters(q);
    nw.name != se.name
}

/// Whether many distinct quads are under a square.
///
/// Keeping this a separate call puts its array on the stack once, not in each frame of a recursion.
#[inline(never)]
fn has_many<Q: Quads>(quads: &mut Q, q: Quad) -> bool
    requires stands { HasQuad (Q.worker quads.old) q }
    ensures reads { OnlyReads (Q.worker quads.old) (Q.worker quads.new) }
{
    let most = least_under(q.height);
    let mut seen = [0; 256];
    met_under(quads, q, &mut seen, 0, most) >= most
}

/// Whether a square has 64, 128 or 256 rows over blocks of 8 by 8, and is dense.
pub(crate) fn rows_pay<Q: Quads>(quads: &mut Q, q: Quad) -> bool
    requires stands { HasQuad (Q.worker quads.old) q }
    ensures leaf { result ≡ true → Q.least ≡ 3 }
    ensures small { result ≡ true → q.height ≤ 8 }
    ensures reads { OnlyReads (Q.worker quads.old) (Q.worker quads.new) }
{
    if quads.bottom() != 3 || q.height < 6 || q.height > 8 {
        return false;
    }
    if !ends_differ(quads, q) {
        return false;
    }
    has_many(quads, q)
}
