//! The trials that any worker of quads is put to, and a crew over a table of its own for each.
#![tactic(auto)]

use crate::choice;
use crate::choice::listing;
use crate::tables::table;
use fork_quads::{Crew, OpenGate};
use rel_model::quads_trait::Quads;
use std::alloc::Global;
use std::process::Abort;
use std::thread::Threads;

/// A trial for a worker of quads: each has an assertion of its own.
pub(crate) enum Trial {
    UpTo3,
    FourByAtMost3,
    FourBy4,
    Vectors,
    PseudoRandom,
    Greatest,
    OneRowAndColumn,
    Listed,
    ListedFarApart,
}

/// Puts a worker of quads to a trial.
fn put<Q: Quads>(rt: &impl Abort, alloc: Global, q: &mut Q, trial: Trial) {
    match trial {
        Trial::UpTo3 => choice::up_to_3(rt, alloc, q),
        Trial::FourByAtMost3 => choice::four_by_at_most_3(rt, alloc, q),
        Trial::FourBy4 => choice::four_by_4(rt, alloc, q),
        Trial::Vectors => choice::vectors(rt, alloc, q),
        Trial::PseudoRandom => choice::pseudo_random(rt, alloc, q),
        Trial::Greatest => choice::greatest(rt, alloc, q),
        Trial::OneRowAndColumn => choice::one_row_and_column(rt, q),
        Trial::Listed => listing::listed(rt, alloc, q),
        Trial::ListedFarApart => listing::listed_far_apart(rt, alloc, q),
    }
}

/// Puts a crew of one worker over a table of its own to a trial.
pub(crate) fn on_a_crew<R: Threads + Abort + Sync>(rt: &R, alloc: Global, trial: Trial) {
    let (table, seat) = table(rt, alloc);
    let mut crew = Crew::new(rt, &table, seat, 1, &OpenGate);
    put(rt, alloc, &mut crew, trial);
}
