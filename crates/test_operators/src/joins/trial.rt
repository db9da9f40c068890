//! The trials of a worker, each over its own table.
#![tactic(auto)]

use crate::joins;
use crate::joins::closures::{Kind, closes};
use crate::tables::table;
use fork_quads::{Crew, OpenGate};
use std::alloc::Global;
use std::process::Abort;
use std::thread::Threads;

/// Two random relations, with these three sizes and so many pairs each.
#[derive(Clone, Copy, Debug)]
pub(crate) struct Trial {
    pub(crate) rows: u32,
    pub(crate) middle: u32,
    pub(crate) cols: u32,
    pub(crate) lefts: u32,
    pub(crate) rights: u32,
}

/// Puts a crew of one worker, over its own table, through a trial. Returns whether there was a product.
pub(crate) fn on_a_crew<R: Threads + Abort + Sync>(rt: &R, alloc: Global, trial: Trial) -> bool {
    let (table, seat) = table(rt, alloc);
    let mut crew = Crew::new(rt, &table, seat, 1, &OpenGate);
    joins::agrees(rt, alloc, &mut crew, trial)
}

/// Whether there is a product of a cycle with itself, which has few distinct quads.
pub(crate) fn cycle_has<R: Threads + Abort + Sync>(rt: &R, alloc: Global, size: u32) -> bool {
    let (table, seat) = table(rt, alloc);
    let mut crew = Crew::new(rt, &table, seat, 1, &OpenGate);
    joins::by_cycle(rt, alloc, &mut crew, size)
}

/// Closes a graph with a crew of one worker, over its own table. Returns whether there was a closure by lists.
pub(crate) fn closes_on_a_crew<R: Threads + Abort + Sync>(
    rt: &R,
    alloc: Global,
    kind: Kind,
    n: u32,
) -> bool {
    let (table, seat) = table(rt, alloc);
    let mut crew = Crew::new(rt, &table, seat, 1, &OpenGate);
    closes(rt, alloc, &mut crew, kind, n)
}
