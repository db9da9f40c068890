//! The image of a line by a scattered relation: by its kept pairs, or by one walk of it.
ghost use Rattle.std.specs.Prelude.{◌≡◌, cond, IfOk, IfSome, IfNone};
ghost use Rattle.rel_images.specs.Images.{image_of};
ghost use Rattle.rel_images.specs.Rooms.{line_room};
ghost use Rattle.rel_model.specs.Worker.{Stands, set_of, Gives, Keeps, MakesAtMost, HasCause};
ghost use Rattle.rel_steps.specs.Reading.{OnlyReads};

use crate::recall::Remembers;
use rel_images::{image, image_of_pairs};
use rel_listing::pairs_within;
use rel_model::{Lack, Rel};
use std::alloc::Global;

/// Pairs are kept if they are at most this many, which take 32 MB.
const MOST_PAIRS: usize = 1 << 22;

/// Lists the pairs of a relation that was walked, and keeps them, if it was walked several times lately, they are not
/// too many, and there is memory for the list.
fn note_walk<C: Remembers>(alloc: Global, core: &mut C, r: Rel)
    requires { Stands (C.worker core.old) r }
    ensures { OnlyReads (C.worker core.old) (C.worker core.new) }
{
    if !core.is_worth_listing(r) {
        return;
    }
    match pairs_within(alloc, core, r, MOST_PAIRS) {
        Some(pairs) => core.keep_listing(r, pairs),
        None => {}
    }
}

/// The image by one walk, if that pays.
fn image_by_walk<C: Remembers>(
    alloc: Global,
    core: &mut C,
    turned: bool,
    u: Rel,
    r: Rel,
) -> Result<Option<Rel>, Lack>
    requires line { Stands (C.worker core.old) u }
    requires standing { Stands (C.worker core.old) r }
    requires row { u.rows ≡ 1 }
    requires middle { u.cols ≡ cond turned r.cols r.rows }
    ensures value { IfOk result (λ given. IfSome given (Gives (C.worker core.new) 1 (cond turned r.rows r.cols)
        (image_of turned (set_of (C.worker core.old) u) (set_of (C.worker core.old) r)))) }
    ensures keeps { Keeps (C.worker core.old) (C.worker core.new) }
    ensures nothing { IfOk result (λ given. IfNone given (MakesAtMost 0 (C.worker core.old) (C.worker core.new))) }
    ensures room { MakesAtMost (line_room C.least (cond turned r.rows r.cols)) (C.worker core.old) (C.worker core.new) }
    ensures cause { HasCause C.lean (C.worker core.old) (C.worker core.new) result }
{
    let walked = image(alloc, core, turned, u, r)?;
    if walked.is_some() {
        note_walk(alloc, core, r);
    }
    Ok(walked)
}

/// The image by the pairs of the relation, which are kept again.
fn image_by_listing<C: Remembers>(
    alloc: Global,
    core: &mut C,
    turned: bool,
    u: Rel,
    r: Rel,
    pairs: Vec<(u32, u32)>,
) -> Result<Option<Rel>, Lack>
    requires line { Stands (C.worker core.old) u }
    requires standing { Stands (C.worker core.old) r }
    requires row { u.rows ≡ 1 }
    requires middle { u.cols ≡ cond turned r.cols r.rows }
    requires pairs { pairs.items ≡ (set_of (C.worker core.old) r).pairs }
    ensures value { IfOk result (λ given. IfSome given (Gives (C.worker core.new) 1 (cond turned r.rows r.cols)
        (image_of turned (set_of (C.worker core.old) u) (set_of (C.worker core.old) r)))) }
    ensures keeps { Keeps (C.worker core.old) (C.worker core.new) }
    ensures nothing { IfOk result (λ given. IfNone given (MakesAtMost 0 (C.worker core.old) (C.worker core.new))) }
    ensures room { MakesAtMost (line_room C.least (cond turned r.rows r.cols)) (C.worker core.old) (C.worker core.new) }
    ensures cause { HasCause C.lean (C.worker core.old) (C.worker core.new) result }
{
    let given = image_of_pairs(alloc, core, turned, u, r, &pairs)?;
    core.keep_listing(r, pairs);
    Ok(given)
}

/// `u*r`, or `(r*u^)^` if `turned`, for a line `u`, by the kept pairs of `r`, otherwise by one walk of it. `None`:
/// neither pays here, or there is no memory for it; no node has been made then.
pub(crate) fn sparse_image<C: Remembers>(
    alloc: Global,
    core: &mut C,
    turned: bool,
    u: Rel,
    r: Rel,
) -> Result<Option<Rel>, Lack>
    requires line { Stands (C.worker core.old) u }
    requires standing { Stands (C.worker core.old) r }
    requires row { u.rows ≡ 1 }
    requires middle { u.cols ≡ cond turned r.cols r.rows }
    ensures value { IfOk result (λ given. IfSome given (Gives (C.worker core.new) 1 (cond turned r.rows r.cols)
        (image_of turned (set_of (C.worker core.old) u) (set_of (C.worker core.old) r)))) }
    ensures keeps { Keeps (C.worker core.old) (C.worker core.new) }
    ensures nothing { IfOk result (λ given. IfNone given (MakesAtMost 0 (C.worker core.old) (C.worker core.new))) }
    ensures room { MakesAtMost (line_room C.least (cond turned r.rows r.cols)) (C.worker core.old) (C.worker core.new) }
    ensures cause { HasCause C.lean (C.worker core.old) (C.worker core.new) result }
{
    match core.take_listing(r) {
        Some(pairs) => image_by_listing(alloc, core, turned, u, r, pairs),
        None => image_by_walk(alloc, core, turned, u, r),
    }
}
