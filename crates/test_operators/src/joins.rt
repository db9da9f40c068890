//! Products by lists, compared with slow answers, and cases without one.
#![tactic(auto, using(crate::proofs::Later::rel_later, crate::proofs::Later::made_stands))]

mod chance;
mod closures;
mod trial;

ghost use Rattle.std.specs.Prelude.{◌≡◌, ◌≤◌, ◌<◌};
ghost use Rattle.rel_model.specs.Listed.{AreWithin};
ghost use Rattle.rel_model.specs.Worker.{Stands, Keeps};

use chance::{cycle_of, pairs_by_chance, slow_product};
use rel_domains::from_pairs;
use rel_joins::compose_by_lists;
use rel_model::quads_trait::Quads;
use rel_model::{Rel, Shape};
use std::alloc::Global;
use std::process::Abort;
use std::thread::Threads;
use trial::{Trial, cycle_has, on_a_crew};

/// The relation of these pairs.
pub(crate) fn of_pairs<Q: Quads>(
    rt: &impl Abort,
    alloc: Global,
    q: &mut Q,
    shape: Shape,
    pairs: &[(u32, u32)],
) -> Rel
    requires within { AreWithin shape.rows shape.cols pairs.now }
    ensures standing { Stands (Q.worker q.new) result }
    ensures rows { result.rows ≡ shape.rows }
    ensures cols { result.cols ≡ shape.cols }
    ensures keeps { Keeps (Q.worker q.old) (Q.worker q.new) }
{
    assert!(rt; shape.rows <= 1 << 24 && shape.cols <= 1 << 24);
    let Ok(r) = from_pairs(alloc, q, shape, pairs) else {
        panic!(rt; "no room")
    };
    r
}

/// Asserts that a product is the relation of the slow answer's pairs. Returns whether there is one.
fn is_slow<Q: Quads>(
    rt: &impl Abort,
    alloc: Global,
    q: &mut Q,
    given: Option<Rel>,
    shape: Shape,
    wanted: &[(u32, u32)],
) -> bool
    requires within { AreWithin shape.rows shape.cols wanted.now }
{
    let Some(found) = given else { return false };
    let slow = of_pairs(rt, alloc, q, shape, wanted);
    assert!(rt; found == slow, "{found:?} for {slow:?}");
    true
}

/// Asserts that the product of two random relations is the slow answer. Returns whether there is one.
pub(crate) fn agrees<Q: Quads>(rt: &impl Abort, alloc: Global, q: &mut Q, trial: Trial) -> bool {
    let Trial {
        rows,
        middle,
        cols,
        lefts,
        rights,
    } = trial;
    assert!(rt; rows > 0 && middle > 0 && cols > 0);
    let first = Shape { rows, cols: middle };
    let second = Shape { rows: middle, cols };
    let shape = Shape { rows, cols };
    let Ok(left) = pairs_by_chance(alloc, first, lefts, 7) else {
        panic!(rt; "no memory")
    };
    let Ok(right) = pairs_by_chance(alloc, second, rights, 11) else {
        panic!(rt; "no memory")
    };
    let Ok(wanted) = slow_product(alloc, shape, &left, &right) else {
        panic!(rt; "no memory")
    };
    let r = of_pairs(rt, alloc, q, first, &left);
    let s = of_pairs(rt, alloc, q, second, &right);
    let Ok(given) = compose_by_lists(alloc, q, r, s) else {
        panic!(rt; "no room")
    };
    is_slow(rt, alloc, q, given, shape, &wanted)
}

/// Whether there is a product of a cycle through so many elements with itself.
pub(crate) fn by_cycle<Q: Quads>(rt: &impl Abort, alloc: Global, q: &mut Q, size: u32) -> bool {
    assert!(rt; 0 < size && size <= 1 << 24);
    let shape = Shape {
        rows: size,
        cols: size,
    };
    let Ok(pairs) = cycle_of(alloc, size) else {
        panic!(rt; "no memory")
    };
    let r = of_pairs(rt, alloc, q, shape, &pairs);
    let Ok(given) = compose_by_lists(alloc, q, r, r) else {
        panic!(rt; "no room")
    };
    given.is_some()
}

/// Asserts whether there is a product of two relations with these three sizes and this many pairs each. If so, it must
/// be the slow answer.
fn has<R: Threads + Abort + Sync>(
    rt: &R,
    alloc: Global,
    sizes: (u32, u32, u32),
    pairs: (u32, u32),
    wanted: bool,
) {
    let trial = Trial {
        rows: sizes.0,
        middle: sizes.1,
        cols: sizes.2,
        lefts: pairs.0,
        rights: pairs.1,
    };
    let given = on_a_crew(rt, alloc, trial);
    assert!(rt; given == wanted, "{trial:?}");
}

#[test]
fn products_of_scattered_relations_are_those_of_their_pairs(rt: HostRuntime) {
    let sizes: [u32; 3] = [600, 900, 3000];
    for n in sizes {
        has(&rt, rt.alloc(), (n, n, n), (n, n), true);
        has(&rt, rt.alloc(), (n, n, n), (2 * n, n / 2), true);
    }
}

#[test]
fn products_of_denser_relations_are_those_of_their_pairs(rt: HostRuntime) {
    has(&rt, rt.alloc(), (1500, 1500, 1500), (4000, 3000), true);
    has(&rt, rt.alloc(), (2048, 2048, 2048), (6000, 6000), true);
}

#[test]
fn products_of_three_sizes_are_those_of_their_pairs(rt: HostRuntime) {
    has(&rt, rt.alloc(), (600, 1000, 5000), (2000, 3000), true);
    has(&rt, rt.alloc(), (5000, 600, 900), (4000, 2000), true);
    has(&rt, rt.alloc(), (700, 5000, 600), (3000, 4000), true);
}

#[test]
fn there_is_none_where_lists_do_not_pay(rt: HostRuntime) {
    has(&rt, rt.alloc(), (256, 600, 600), (900, 900), false);
    has(&rt, rt.alloc(), (600, 256, 600), (900, 900), false);
    has(&rt, rt.alloc(), (600, 600, 256), (900, 900), false);
    has(&rt, rt.alloc(), (1000, 1000, 1000), (0, 2000), false);
    has(&rt, rt.alloc(), (1000, 1000, 1000), (2000, 0), false);
    has(&rt, rt.alloc(), (600, 600, 600), (9000, 9000), false);
    assert!(&rt; !cycle_has(&rt, rt.alloc(), 4096));
}
