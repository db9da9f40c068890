//! The pairs of a relation, strip by strip.
ghost use Rattle.std.specs.Prelude.{◌≡◌, ◌<◌, ◌≤◌, ◌+◌, ◌^◌, IfOk, IfSome, OnOk, OnErr, length};
ghost use Rattle.rel_model.specs.Relation.{size_limit};
ghost use Rattle.rel_model.specs.Worker.{Stands, set_of, HasQuad, quad_set, Keeps, MakesAtMost, MissesNothing};
ghost use Rattle.rel_steps.specs.Reading.{OnlyReads};
ghost use Rattle.rel_listing.specs.Lists.{Adds};
ghost use Rattle.rel_listing.specs.Strips.{IsStrip, laid};

use crate::halving::{halve, room_for_strip};
use crate::rows::list_rows;
use crate::words::{cells_of, words_of};
use rel_model::empty::side_of;
use rel_model::quads_trait::Quads;
use rel_model::{NoMemory, Quad, Rel};
use std::alloc::Global;

/// Why a listing ended before its last pair.
#[derive(Clone, Copy, Debug)]
enum Stop {
    /// Memory ran out.
    NoMemory,
    /// There are more pairs than wanted.
    TooMany,
}

impl From<NoMemory> for Stop {
    fn from(_lack: NoMemory) -> Stop {
        Stop::NoMemory
    }
}

/// The pairs of a relation, by row and then by column. Goes down by strips of rows, so each quad that a strip crosses
/// is read once. Refused only if memory runs out; an empty relation takes none.
pub fn pairs_of<Q: Quads>(alloc: Global, q: &mut Q, r: Rel) -> Result<Vec<(u32, u32)>, NoMemory>
    requires { Stands (Q.worker q.old) r }
    ensures value { IfOk result (λ v. v.items ≡ (set_of (Q.worker q.old) r).pairs) }
    ensures keeps { Keeps (Q.worker q.old) (Q.worker q.new) }
    ensures room { MakesAtMost 0 (Q.worker q.old) (Q.worker q.new) }
    ensures misses { MissesNothing (Q.worker q.old) (Q.worker q.new) }
    ensures some { OnErr result (0 < length (set_of (Q.worker q.old) r).pairs) }
{
    let mut pairs = Vec::new(alloc);
    let quad = q.root(r);
    if quad.is_empty() {
        return Ok(pairs);
    }
    match list_root(alloc, q, &mut pairs, quad, usize::MAX) {
        Ok(()) => Ok(pairs),
        Err(_) => Err(NoMemory),
    }
}

/// The same for a relation of at most `most` pairs. `None`: it has more, or memory ran out.
///
/// Counts the cells of eight rows at most before it lists them, so a relation of far more pairs costs little more.
pub fn pairs_within<Q: Quads>(
    alloc: Global,
    q: &mut Q,
    r: Rel,
    most: usize,
) -> Option<Vec<(u32, u32)>>
    requires { Stands (Q.worker q.old) r }
    ensures value { IfSome result (λ v. v.items ≡ (set_of (Q.worker q.old) r).pairs) }
    ensures few { IfSome result (λ v. length v.items ≤ most) }
    ensures reads { OnlyReads (Q.worker q.old) (Q.worker q.new) }
{
    let mut pairs = Vec::new(alloc);
    let quad = q.root(r);
    match list_root(alloc, q, &mut pairs, quad, most) {
        Ok(()) => {}
        Err(_) => return None,
    }
    if pairs.len() > most {
        return None;
    }
    Some(pairs)
}

/// Appends the pairs of a quad, as the strip of its own rows.
fn list_root<Q: Quads>(
    alloc: Global,
    q: &mut Q,
    pairs: &mut Vec<(u32, u32)>,
    quad: Quad,
    most: usize,
) -> Result<(), Stop>
    requires stands { HasQuad (Q.worker q.old) quad }
    ensures pairs { OnOk result (Adds (quad_set (Q.worker q.old) quad) pairs.old.items pairs.new.items) }
    ensures reads { OnlyReads (Q.worker q.old) (Q.worker q.new) }
{
    if quad.is_empty() {
        return Ok(());
    }
    list_strip(alloc, q, pairs, &[(quad, 0)], quad.height, 0, most)
}

/// Appends the pairs of a strip of a height, whose first row is given, by row and then by column. Ends where there
/// would be more than `most` pairs.
fn list_strip<Q: Quads>(
    alloc: Global,
    q: &mut Q,
    pairs: &mut Vec<(u32, u32)>,
    strip: &[(Quad, u32)],
    height: u8,
    row: u32,
    most: usize,
) -> Result<(), Stop>
    requires strip { IsStrip (Q.worker q.old) height size_limit strip.now }
    requires low { Q.least ≤ height }
    requires rows { row + 2 ^ height ≤ size_limit }
    ensures pairs { OnOk result (Adds (laid (quad_set (Q.worker q.old)) row strip.now)
        pairs.old.items pairs.new.items) }
    ensures reads { OnlyReads (Q.worker q.old) (Q.worker q.new) }
{
    if strip.is_empty() {
        return Ok(());
    }
    if height == q.bottom() {
        let words = words_of(alloc, q, strip)?;
        if cells_of(&words) > most.saturating_sub(pairs.len()) {
            return Err(Stop::TooMany);
        }
        list_rows(pairs, &words, side_of(height), row)?;
        return Ok(());
    }
    let mut upper = room_for_strip(alloc, strip.len())?;
    let mut lower = room_for_strip(alloc, strip.len())?;
    halve(q, strip, height - 1, &mut upper, &mut lower)?;
    list_strip(alloc, q, pairs, &upper, height - 1, row, most)?;
    let middle = row + side_of(height - 1);
    list_strip(alloc, q, pairs, &lower, height - 1, middle, most)
}
