//! The image of a line.
ghost use Rattle.std.specs.Prelude.{◌≡◌, ◌<◌, ◌≤◌, ◌-◌, ◌*◌, ◌^◌, ℕ, true, cond, length, IfOk, IfSome, IfNone};
ghost use Rattle.rel_model.specs.Relation.{relation_of, size_limit};
ghost use Rattle.rel_model.specs.Trees.{top_height};
ghost use Rattle.rel_model.specs.Worker.{Stands, set_of, Gives, Keeps, MakesAtMost, HasCause};
ghost use Rattle.rel_images.specs.Images.{image_of};
ghost use Rattle.rel_images.specs.Lines.{IsMarked, bits_of, line_under, one_row};
ghost use Rattle.rel_images.specs.Rooms.{line_room};

use crate::listed::reached_by_pairs;
use crate::naming::named_within;
use crate::paying::pays;
use crate::reaching::reached;
use rel_model::quads_trait::Quads;
use rel_model::{Lack, Rel, Shape};
use std::alloc::Global;

/// How many columns a relation has, or its transpose if `turned`.
fn width_of(turned: bool, r: Rel) -> u32
    ensures { result ≡ cond turned r.rows r.cols }
{
    if turned {
        return r.rows;
    }
    r.cols
}

/// The line of a heap, as a relation of one row.
fn answered<Q: Quads>(q: &mut Q, ys: &[u8], height: u8, cols: u32) -> Result<Rel, Lack>
    requires low { Q.least ≤ height }
    requires high { height ≤ top_height }
    requires marked { IsMarked Q.least ys.now (height - Q.least) 1 }
    requires places { length ys.now ≡ 2 * 2 ^ (height - Q.least) }
    requires limit { cols ≤ size_limit }
    requires fits { cols ≤ 2 ^ height }
    requires narrow { (j : ℕ) → line_under Q.least (bits_of ys.now) (height - Q.least) 1 j ≡ true → j < cols }
    ensures value { IfOk result (Gives (Q.worker q.new) 1 cols
        (relation_of 1 cols (one_row (line_under Q.least (bits_of ys.now) (height - Q.least) 1)))) }
    ensures keeps { Keeps (Q.worker q.old) (Q.worker q.new) }
    ensures room { MakesAtMost (line_room Q.least cols) (Q.worker q.old) (Q.worker q.new) }
    ensures cause { HasCause Q.lean (Q.worker q.old) (Q.worker q.new) result }
{
    match named_within(q, ys, height, 1, cols) {
        Ok(line) => Ok(q.rel(Shape { rows: 1, cols }, line)),
        Err(lack) => Err(lack),
    }
}

/// `u*r`, or `(r*u^)^` if `turned`, for a line `u`, which is a relation of one row.
///
/// Walks the tree of `r` once, with `u` as a heap of bytes, and visits only the quads that meet the line. `None`: the
/// walk does not pay here, or there is no memory for it; no node has been made then.
pub fn image<Q: Quads>(
    alloc: Global,
    q: &mut Q,
    turned: bool,
    u: Rel,
    r: Rel,
) -> Result<Option<Rel>, Lack>
    requires line { Stands (Q.worker q.old) u }
    requires standing { Stands (Q.worker q.old) r }
    requires row { u.rows ≡ 1 }
    requires middle { u.cols ≡ cond turned r.cols r.rows }
    ensures value { IfOk result (λ given. IfSome given (Gives (Q.worker q.new) 1 (cond turned r.rows r.cols)
        (image_of turned (set_of (Q.worker q.old) u) (set_of (Q.worker q.old) r)))) }
    ensures keeps { Keeps (Q.worker q.old) (Q.worker q.new) }
    ensures nothing { IfOk result (λ given. IfNone given (MakesAtMost 0 (Q.worker q.old) (Q.worker q.new))) }
    ensures room { MakesAtMost (line_room Q.least (cond turned r.rows r.cols)) (Q.worker q.old) (Q.worker q.new) }
    ensures cause { HasCause Q.lean (Q.worker q.old) (Q.worker q.new) result }
{
    let quad = q.root(r);
    let line = q.root(u);
    if !pays(q, line, quad) {
        return Ok(None);
    }
    let Some(ys) = reached(alloc, q, turned, line, quad) else {
        return Ok(None);
    };
    let cols = width_of(turned, r);
    match answered(q, &ys, quad.height, cols) {
        Ok(answer) => Ok(Some(answer)),
        Err(lack) => Err(lack),
    }
}

/// The same with the pairs of `r` at hand, and without a sample: by a walk if few visits are enough, otherwise by one
/// pass over the pairs. `None`: there is no memory for it; no node has been made then.
pub fn image_of_pairs<Q: Quads>(
    alloc: Global,
    q: &mut Q,
    turned: bool,
    u: Rel,
    r: Rel,
    pairs: &[(u32, u32)],
) -> Result<Option<Rel>, Lack>
    requires line { Stands (Q.worker q.old) u }
    requires standing { Stands (Q.worker q.old) r }
    requires row { u.rows ≡ 1 }
    requires middle { u.cols ≡ cond turned r.cols r.rows }
    requires pairs { pairs.now ≡ (set_of (Q.worker q.old) r).pairs }
    ensures value { IfOk result (λ given. IfSome given (Gives (Q.worker q.new) 1 (cond turned r.rows r.cols)
        (image_of turned (set_of (Q.worker q.old) u) (set_of (Q.worker q.old) r)))) }
    ensures keeps { Keeps (Q.worker q.old) (Q.worker q.new) }
    ensures nothing { IfOk result (λ given. IfNone given (MakesAtMost 0 (Q.worker q.old) (Q.worker q.new))) }
    ensures room { MakesAtMost (line_room Q.least (cond turned r.rows r.cols)) (Q.worker q.old) (Q.worker q.new) }
    ensures cause { HasCause Q.lean (Q.worker q.old) (Q.worker q.new) result }
{
    let quad = q.root(r);
    let line = q.root(u);
    let Some(ys) = reached_by_pairs(alloc, q, turned, line, quad, pairs) else {
        return Ok(None);
    };
    let cols = width_of(turned, r);
    match answered(q, &ys, quad.height, cols) {
        Ok(answer) => Ok(Some(answer)),
        Err(lack) => Err(lack),
    }
}
