//! The trials that any engine can be put through, each over its own table.
#![tactic(auto)]

ghost use Rattle.rel_model.specs.Views.{IsOf};

use crate::cells::{Op, Sizes};
use crate::images::Case;
use crate::slices::forms;
use crate::values::{counts, remembered, scattered};
use crate::{images, slices, values};
use fork_quads::{Crew, OpenGate};
use pair_table::{PairTable, Seat};
use rel_engine::Works;
use rel_model::Shape;
use rel_slices::Remembers;
use std::alloc::Global;
use std::process::Abort;
use std::thread::Threads;

/// What an engine is put through.
pub(crate) enum Trial {
    /// An operation of `rel_values`, on each pair of forms.
    Values(Op, Sizes),
    /// The tests of two values.
    Tests(Shape),
    /// How many pairs values have.
    Counts(Shape),
    /// A pairing that is too wide.
    TooWide,
    /// What the engine remembers of a relation that was cut.
    Remembers,
    /// Maps by chance of a size.
    Maps(u32),
    /// Thin relations by chance of some sizes.
    Wholes(Shape),
    /// An operation of `rel_slices` on two values in the forms of their sizes.
    Slices(Op, Sizes),
    /// Those on one value.
    Slice(Shape),
    /// Membership of some elements, as lines.
    Membership(u32),
    /// A relation put into the form of its sizes, and made whole again.
    BackAndForth(Shape),
    /// An image, and whether there is one by a walk.
    Image(Case, bool),
    /// No image by the identity.
    Identity(u32),
}

/// Puts an engine through a trial.
fn put<E: Remembers>(rt: &impl Abort, alloc: Global, engine: &mut E, trial: Trial) {
    match trial {
        Trial::Values(op, sizes) => values::in_each_form(rt, alloc, engine, op, sizes),
        Trial::Tests(shape) => values::tests_agree(rt, alloc, engine, shape),
        Trial::Counts(shape) => counts::are_counted(rt, alloc, engine, shape),
        Trial::TooWide => values::is_too_wide(rt, engine),
        Trial::Remembers => remembered::are_told_apart(rt, alloc, engine),
        Trial::Maps(size) => scattered::maps_are_told(rt, alloc, engine, size),
        Trial::Wholes(shape) => scattered::wholes_agree_with_lines(rt, alloc, engine, shape),
        Trial::Slices(op, sizes) => slices::agrees(rt, alloc, engine, op, sizes),
        Trial::Slice(shape) => slices::one_agrees(rt, engine, shape),
        Trial::Membership(x) => forms::is_membership(rt, engine, x),
        Trial::BackAndForth(shape) => forms::comes_back(rt, engine, shape),
        Trial::Image(case, wanted) => images::agrees(rt, alloc, engine, case, wanted),
        Trial::Identity(size) => images::none_by_identity(rt, alloc, engine, size),
    }
}

/// A table of `2 ^ bits` node words, and its first seat.
pub(crate) fn table(rt: &impl Abort, alloc: Global, bits: u32) -> (PairTable, Seat)
    ensures { IsOf result.1 result.0 }
{
    assert!(rt; 10 <= bits && bits <= 24);
    match PairTable::make(alloc, bits, 1) {
        Ok(made) => made,
        Err(_) => panic!(rt; "no memory"),
    }
}

/// Puts an engine with one worker, over its own table of `2 ^ bits` node words, through a trial.
pub(crate) fn on_words<R: Threads + Abort + Sync>(rt: &R, alloc: Global, bits: u32, trial: Trial) {
    let (table, seat) = table(rt, alloc, bits);
    let mut works = Works::new(Crew::new(rt, &table, seat, 1, &OpenGate));
    put(rt, alloc, &mut works, trial);
}

/// The same over 2^20 node words.
pub(crate) fn on_a_table<R: Threads + Abort + Sync>(rt: &R, alloc: Global, trial: Trial) {
    on_words(rt, alloc, 20, trial);
}
