//! The two halves of a strip: its northern and its southern quarters.
ghost use Rattle.std.specs.Prelude.{◌≡◌, ◌<◌, ◌≤◌, ◌+◌, ◌^◌, ◌++◌, IfOk, OnOk, []};
ghost use Rattle.rel_model.specs.Relation.{size_limit};
ghost use Rattle.rel_model.specs.Worker.{HasQuad};
ghost use Rattle.rel_steps.specs.Reading.{OnlyReads};
ghost use Rattle.rel_listing.specs.Strips.{IsStrip, kept, Halves, Quartered};

use rel_model::empty::side_of;
use rel_model::quads_trait::Quads;
use rel_model::{NoMemory, Quad, Quarters};
use std::alloc::Global;

/// How many quads a strip has at least if their words are read before the first is opened. A guess: it only costs time.
const MANY: usize = 8;

/// Reads the words of a strip's quads, whose quarters have this height, if they are many (prefetch). They lie all over
/// the table, and opening the quads one by one would wait for each of them.
fn read_strip<Q: Quads>(q: &mut Q, strip: &[(Quad, u32)], height: u8)
    requires strip { IsStrip (Q.worker q.old) (height + 1) size_limit strip.now }
    requires low { Q.least ≤ height }
    ensures { OnlyReads (Q.worker q.old) (Q.worker q.new) }
{
    if strip.len() < MANY {
        return;
    }
    'quads: for (quad, _) in strip {
        q.read_ahead(*quad);
    }
}

/// An empty strip with room for so many quads, so that a half of a sparse strip seldom grows.
pub(crate) fn room_for_strip(alloc: Global, quads: usize) -> Result<Vec<(Quad, u32)>, NoMemory>
    ensures { IfOk result (λ v. v.items ≡ []) }
{
    let strip = Vec::with_capacity(alloc, quads)?;
    Ok(strip)
}

/// Puts the quarters, of a height, of a strip's quads into two strips, from left to right.
pub(crate) fn halve<Q: Quads>(
    q: &mut Q,
    strip: &[(Quad, u32)],
    height: u8,
    upper: &mut Vec<(Quad, u32)>,
    lower: &mut Vec<(Quad, u32)>,
) -> Result<(), NoMemory>
    requires strip { IsStrip (Q.worker q.old) (height + 1) size_limit strip.now }
    requires low { Q.least ≤ height }
    requires no_upper { upper.old.items ≡ [] }
    requires no_lower { lower.old.items ≡ [] }
    ensures halves { OnOk result
        (Halves (Q.worker q.old) (Q.worker q.new) height strip.now upper.new.items lower.new.items) }
    ensures reads { OnlyReads (Q.worker q.old) (Q.worker q.new) }
{
    read_strip(q, strip, height);
    'quads: for (quad, column) in strip {
        push_quarters(q, *quad, *column, upper, lower)?;
    }
    Ok(())
}

/// Puts the northern quarters of a quad into one strip, and the southern ones into another.
#[tactic(auto, using(rel_steps::proofs::Reading::reads))]
fn push_quarters<Q: Quads>(
    q: &mut Q,
    quad: Quad,
    column: u32,
    upper: &mut Vec<(Quad, u32)>,
    lower: &mut Vec<(Quad, u32)>,
) -> Result<(), NoMemory>
    requires stands { HasQuad (Q.worker q.old) quad }
    requires over { Q.least < quad.height }
    requires fits { column + 2 ^ quad.height ≤ size_limit }
    ensures quarters { OnOk result (Quartered (Q.worker q.old) (Q.worker q.new) quad column
        upper.old.items upper.new.items lower.old.items lower.new.items) }
    ensures reads { OnlyReads (Q.worker q.old) (Q.worker q.new) }
{
    let Quarters { nw, ne, sw, se } = q.quarters(quad);
    let east = column + side_of(nw.height);
    push_quad(upper, nw, column)?;
    push_quad(upper, ne, east)?;
    push_quad(lower, sw, column)?;
    push_quad(lower, se, east)
}

/// Appends a quad to a strip, unless it is empty.
fn push_quad(strip: &mut Vec<(Quad, u32)>, quad: Quad, column: u32) -> Result<(), NoMemory>
    ensures { OnOk result (strip.new.items ≡ strip.old.items ++ kept quad column) }
{
    if quad.is_empty() {
        return Ok(());
    }
    strip.push((quad, column))?;
    Ok(())
}
