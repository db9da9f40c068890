//! The trials that any worker of quads is put to, and a crew over a table of its own for each.
#![tactic(auto)]

use crate::order;
use crate::tables::table;
use fork_quads::{Crew, OpenGate};
use rel_model::quads_trait::Quads;
use std::alloc::Global;
use std::process::Abort;
use std::thread::Threads;

/// A trial for a worker of quads: each has an assertion of its own.
pub(crate) enum Trial {
    UpTo3,
    PseudoRandom,
    Divisors,
    Regular,
}

/// Puts a worker of quads to a trial.
fn put<Q: Quads>(rt: &impl Abort, alloc: Global, q: &mut Q, trial: Trial) {
    match trial {
        Trial::UpTo3 => order::up_to_3(rt, alloc, q),
        Trial::PseudoRandom => order::pseudo_random(rt, alloc, q),
        Trial::Divisors => order::divisors(rt, alloc, q),
        Trial::Regular => order::regular(rt, q),
    }
}

/// Puts a crew of one worker over a table of its own to a trial.
pub(crate) fn on_a_crew<R: Threads + Abort + Sync>(rt: &R, alloc: Global, trial: Trial) {
    let (table, seat) = table(rt, alloc);
    let mut crew = Crew::new(rt, &table, seat, 1, &OpenGate);
    put(rt, alloc, &mut crew, trial);
}
