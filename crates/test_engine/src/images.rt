//! Images in both directions, compared with slow answers, and cases without an image.
#![tactic(auto, using(rel_model::proofs::Workers::keeps_stands, rel_model::proofs::Workers::gives_stands, crate::proofs::Later::pairs_later))]

mod slow;

ghost use Rattle.std.specs.Prelude.{◌≡◌, cond};
ghost use Rattle.rel_model.specs.Worker.{Stands};

use crate::lists::pairs_by_chance;
use crate::made::of_pairs;
use crate::trial::{Trial, on_words};
use rel_images::{image, image_of_pairs};
use rel_listing::pairs_of;
use rel_model::engine_trait::Engine;
use rel_model::{Rel, SIZE_LIMIT, Shape};
use slow::slow_image;
use std::alloc::Global;
use std::process::Abort;
use std::thread::Threads;

/// A random relation of a shape with this many pairs, and a vector with this many elements, in one of the directions.
#[derive(Clone, Copy, Debug)]
pub(crate) struct Case {
    shape: Shape,
    pairs: u32,
    elements: u32,
    turned: bool,
    /// The table has `2 ^ bits` node words.
    bits: u32,
}

/// Asserts that an image is the relation of the slow answer's pairs. Returns whether there is one.
fn is_slow<E: Engine>(
    rt: &impl Abort,
    alloc: Global,
    engine: &mut E,
    given: Option<Rel>,
    cols: u32,
    wanted: &[(u32, u32)],
) -> bool {
    let Some(found) = given else { return false };
    let slow = of_pairs(rt, alloc, engine, Shape { rows: 1, cols }, wanted);
    assert!(rt; found == slow, "{found:?} for {slow:?}");
    true
}

/// Asserts that there is an image by the listed pairs of a relation, and that it is the slow answer.
fn agrees_by_pairs<E: Engine>(
    rt: &impl Abort,
    alloc: Global,
    engine: &mut E,
    turned: bool,
    u: Rel,
    r: Rel,
    wanted: &[(u32, u32)],
)
    requires line { Stands (E.worker engine.old) u }
    requires standing { Stands (E.worker engine.old) r }
    requires row { u.rows ≡ 1 }
    requires middle { u.cols ≡ cond turned r.cols r.rows }
{
    let Ok(pairs) = pairs_of(alloc, engine, r) else {
        panic!(rt; "no memory")
    };
    let Ok(given) = image_of_pairs(alloc, engine, turned, u, r, &pairs) else {
        panic!(rt; "no room")
    };
    let cols = if turned { r.rows } else { r.cols };
    let found = is_slow(rt, alloc, engine, given, cols, wanted);
    assert!(rt; found, "{r:?}");
}

/// Asserts that the image of a random vector by a random relation is the slow answer, by the relation's pairs and, if
/// there is one, by a walk; and that there is one by a walk exactly if wanted.
pub(crate) fn agrees<E: Engine>(
    rt: &impl Abort,
    alloc: Global,
    engine: &mut E,
    case: Case,
    wanted: bool,
) {
    let turned = case.turned;
    let (from, to) = if turned {
        (case.shape.cols, case.shape.rows)
    } else {
        (case.shape.rows, case.shape.cols)
    };
    let one = Shape {
        rows: 1,
        cols: from,
    };
    let list = pairs_by_chance(rt, alloc, case.shape, case.pairs, 7);
    let line = pairs_by_chance(rt, alloc, one, case.elements, 11);
    let slow = slow_image(rt, alloc, turned, &line, &list, from);
    let r = of_pairs(rt, alloc, engine, case.shape, &list);
    let u = of_pairs(rt, alloc, engine, one, &line);
    let Ok(given) = image(alloc, engine, turned, u, r) else {
        panic!(rt; "no room")
    };
    agrees_by_pairs(rt, alloc, engine, turned, u, r, &slow);
    let found = is_slow(rt, alloc, engine, given, to, &slow);
    assert!(rt; found == wanted, "{case:?}");
}

/// Asserts that there is no image of a line by the identity, which has few distinct quads.
pub(crate) fn none_by_identity<E: Engine>(
    rt: &impl Abort,
    alloc: Global,
    engine: &mut E,
    size: u32,
) {
    assert!(rt; size <= SIZE_LIMIT);
    let one = Shape {
        rows: 1,
        cols: size,
    };
    let line = pairs_by_chance(rt, alloc, one, 20, 5);
    let Ok(r) = engine.identity(size) else {
        panic!(rt; "no room")
    };
    let u = of_pairs(rt, alloc, engine, one, &line);
    let Ok(given) = image(alloc, engine, false, u, r) else {
        panic!(rt; "no room")
    };
    assert!(rt; given.is_none());
}

/// Asserts for both directions whether there is an image of a vector; if so, it must be the slow answer.
fn both_ways<R: Threads + Abort + Sync>(rt: &R, alloc: Global, case: Case, wanted: bool) {
    'ways: for turned in [false, true] {
        let case = Case { turned, ..case };
        on_words(rt, alloc, case.bits, Trial::Image(case, wanted));
    }
}

/// A relation of these two sizes and a vector, over a table of this size.
fn by(rows: u32, cols: u32, pairs: u32, elements: u32, bits: u32) -> Case {
    Case {
        shape: Shape { rows, cols },
        pairs,
        elements,
        turned: false,
        bits,
    }
}

#[test]
fn images_by_small_scattered_relations_are_those_of_their_pairs(rt: HostRuntime) {
    both_ways(&rt, rt.alloc(), by(300, 300, 600, 1, 16), true);
    both_ways(&rt, rt.alloc(), by(300, 300, 600, 30, 16), true);
    both_ways(&rt, rt.alloc(), by(300, 300, 600, 900, 16), true);
}

#[test]
fn images_by_large_scattered_relations_are_those_of_their_pairs(rt: HostRuntime) {
    let sizes: [u32; 3] = [1000, 4097, 65536];
    for n in sizes {
        both_ways(&rt, rt.alloc(), by(n, n, 2 * n, 1, 22), true);
        both_ways(&rt, rt.alloc(), by(n, n, 2 * n, n / 10, 22), true);
        both_ways(&rt, rt.alloc(), by(n, n, 2 * n, 3 * n, 22), true);
    }
}

#[test]
fn images_by_relations_of_two_sizes_are_those_of_their_pairs(rt: HostRuntime) {
    both_ways(&rt, rt.alloc(), by(1000, 5000, 9000, 40, 20), true);
    both_ways(&rt, rt.alloc(), by(5000, 1000, 9000, 40, 20), true);
    both_ways(&rt, rt.alloc(), by(600, 4096, 5000, 20, 20), true);
}

#[test]
fn there_is_none_where_the_walk_does_not_pay(rt: HostRuntime) {
    both_ways(&rt, rt.alloc(), by(200, 200, 300, 30, 16), false);
    both_ways(&rt, rt.alloc(), by(4096, 4096, 0, 30, 16), false);
    both_ways(&rt, rt.alloc(), by(4096, 4096, 5000, 0, 20), false);
    on_words(&rt, rt.alloc(), 16, Trial::Identity(4096));
}
