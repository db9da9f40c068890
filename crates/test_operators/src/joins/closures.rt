//! Closures by lists, compared with those by squaring, and cases without one.
#![tactic(auto, using(crate::proofs::Later::rel_later, crate::proofs::Later::made_stands))]

ghost use Rattle.std.specs.Prelude.{◌≡◌, ◌<◌};
ghost use Rattle.rel_model.specs.Listed.{AreWithin};

use crate::joins::chance::{
    chain_of, cycle_of, pairs_by_chance, renumbered, rising_by_chance, tree_by_chance,
};
use crate::joins::of_pairs;
use crate::joins::trial::closes_on_a_crew;
use rel_closure::trans;
use rel_joins::close_by_lists;
use rel_model::Shape;
use rel_model::quads_trait::Quads;
use std::alloc::Global;
use std::process::Abort;
use std::thread::Threads;

/// A kind of graph: a chain, a cycle, a random tree, or so many random pairs: all rising, so that they do not go in a
/// circle, the same with other numbers for the elements, or any.
#[derive(Clone, Copy, Debug)]
pub(crate) enum Kind {
    Chain,
    Cycle,
    Tree,
    Rising(u32),
    Renumbered(u32),
    Any(u32),
}

/// The pairs of a graph of n elements.
fn edges(rt: &impl Abort, alloc: Global, kind: Kind, n: u32) -> Vec<(u32, u32)>
    requires some { 0 < n }
    ensures within { AreWithin n n result.items }
{
    let made = match kind {
        Kind::Chain => chain_of(alloc, n),
        Kind::Cycle => cycle_of(alloc, n),
        Kind::Tree => tree_by_chance(alloc, n, 5),
        Kind::Rising(count) => rising_by_chance(alloc, n, count, 7),
        Kind::Renumbered(count) => match rising_by_chance(alloc, n, count, 13) {
            Ok(rising) => renumbered(alloc, n, &rising),
            Err(error) => Err(error),
        },
        Kind::Any(count) => pairs_by_chance(alloc, Shape { rows: n, cols: n }, count, 11),
    };
    let Ok(pairs) = made else {
        panic!(rt; "no memory")
    };
    pairs
}

/// Asserts that a closure by lists is the one by squaring. Returns whether there is one.
pub(crate) fn closes<Q: Quads>(
    rt: &impl Abort,
    alloc: Global,
    q: &mut Q,
    kind: Kind,
    n: u32,
) -> bool {
    assert!(rt; n > 0);
    let pairs = edges(rt, alloc, kind, n);
    let r = of_pairs(rt, alloc, q, Shape { rows: n, cols: n }, &pairs);
    let Ok(given) = close_by_lists(alloc, q, r) else {
        panic!(rt; "no room")
    };
    let Some(closure) = given else { return false };
    let Ok(squared) = trans(q, r) else {
        panic!(rt; "no room")
    };
    assert!(rt; closure == squared, "{kind:?} of {n}");
    true
}

/// Asserts whether there is a closure by lists of this graph. If so, it must be the one by squaring.
fn has<R: Threads + Abort + Sync>(rt: &R, alloc: Global, kind: Kind, n: u32, wanted: bool) {
    let given = closes_on_a_crew(rt, alloc, kind, n);
    assert!(rt; given == wanted, "{kind:?} of {n}");
}

#[test]
fn closures_of_scattered_graphs_are_those_by_squaring(rt: HostRuntime) {
    has(&rt, rt.alloc(), Kind::Tree, 1000, true);
    has(&rt, rt.alloc(), Kind::Tree, 4000, true);
    has(&rt, rt.alloc(), Kind::Rising(1000), 1000, true);
    has(&rt, rt.alloc(), Kind::Rising(3000), 2000, true);
}

#[test]
fn closures_of_graphs_without_cycles_need_not_be_sparse(rt: HostRuntime) {
    has(&rt, rt.alloc(), Kind::Rising(1500), 480, true);
    has(&rt, rt.alloc(), Kind::Rising(1100), 512, true);
    has(&rt, rt.alloc(), Kind::Rising(3000), 769, true);
    has(&rt, rt.alloc(), Kind::Renumbered(2000), 1000, true);
    has(&rt, rt.alloc(), Kind::Renumbered(8192), 4096, true);
}

#[test]
fn closures_of_graphs_with_cycles_are_those_by_squaring(rt: HostRuntime) {
    has(&rt, rt.alloc(), Kind::Any(600), 600, true);
    has(&rt, rt.alloc(), Kind::Any(1000), 1000, true);
}

#[test]
fn there_is_no_closure_where_lists_do_not_pay(rt: HostRuntime) {
    has(&rt, rt.alloc(), Kind::Tree, 256, false);
    has(&rt, rt.alloc(), Kind::Any(0), 600, false);
    has(&rt, rt.alloc(), Kind::Any(6000), 600, false);
    has(&rt, rt.alloc(), Kind::Any(1500), 1000, false);
    has(&rt, rt.alloc(), Kind::Chain, 4096, false);
    has(&rt, rt.alloc(), Kind::Cycle, 4096, false);
}
