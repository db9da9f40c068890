//! Products and vectors of the greatest sizes, whose trees repeat themselves.
#![tactic(auto, using(crate::proofs::Later::rel_later, crate::proofs::Later::given_stands, crate::proofs::Later::wanted_stands))]

ghost use Rattle.std.specs.Prelude.{◌<◌, ◌≤◌};
ghost use Rattle.rel_model.specs.Relation.{size_limit};
ghost use Rattle.rel_model.specs.Worker.{Stands, Keeps};

use crate::domains::trial::{Trial, on_a_crew};
use crate::grids::stepped;
use rel_domains::{first, inj, second};
use rel_model::core_trait::Core;
use rel_model::quads_trait::Quads;
use rel_model::{Rel, SIZE_LIMIT, Shape};
use std::process::Abort;

/// Asserts that a row of a relation has one column, and neither the one before nor the one after.
fn has_alone<Q: Quads>(rt: &impl Abort, q: &mut Q, r: Rel, row: u32, col: u32)
    requires { Stands (Q.worker q.old) r }
    ensures { Keeps (Q.worker q.old) (Q.worker q.new) }
{
    assert!(rt; row < r.rows && col < r.cols);
    assert!(rt; q.has(r, row, col), "{row} {col} is missing");
    let behind = col + 1 < r.cols && q.has(r, row, col + 1);
    let before = 0 < col && q.has(r, row, col - 1);
    assert!(rt; !behind && !before, "{row} {col} is not alone");
}

/// Asserts that two projections have the parts of numbers that a generator picks, given the size of the second factor.
fn have_the_parts<Q: Quads>(
    rt: &impl Abort,
    q: &mut Q,
    to_first: Rel,
    to_second: Rel,
    size: u64,
    y: u32,
)
    requires first { Stands (Q.worker q.old) to_first }
    requires second { Stands (Q.worker q.old) to_second }
    requires some { 0 < size }
    requires few { size ≤ size_limit }
    requires some_second { 0 < y }
    ensures { Keeps (Q.worker q.old) (Q.worker q.new) }
{
    let mut state = 5;
    'numbers: for _ in 0..500 {
        state = stepped(state);
        let number = ((state >> 33) % size) as u32;
        has_alone(rt, q, to_first, number, number / y);
        has_alone(rt, q, to_second, number, number % y);
    }
}

/// Asserts that both projections of a product have the parts of numbers that a generator picks.
fn are_projected<Q: Quads>(rt: &impl Abort, q: &mut Q, x: u32, y: u32)
    requires x { x ≤ size_limit }
    requires y { y ≤ size_limit }
    ensures { Keeps (Q.worker q.old) (Q.worker q.new) }
{
    assert!(rt; 0 < x && 0 < y);
    let Ok(to_first) = first(q, x, y) else {
        panic!(rt; "refused")
    };
    let Ok(to_second) = second(q, x, y) else {
        panic!(rt; "refused")
    };
    let size = u64::from(x) * u64::from(y);
    assert!(rt; u64::from(to_first.rows) == size && to_first.cols == x);
    assert!(rt; u64::from(to_second.rows) == size && to_second.cols == y);
    assert!(rt; 0 < size && size <= u64::from(SIZE_LIMIT));
    have_the_parts(rt, q, to_first, to_second, size, y);
}

/// Asserts what the projections of products of the greatest size and one are.
pub(crate) fn products_with_one<Q: Quads>(rt: &impl Abort, q: &mut Q) {
    are_projected(rt, q, SIZE_LIMIT, 1);
    are_projected(rt, q, 1, SIZE_LIMIT);
}

#[test]
fn the_projections_of_a_product_with_one_element_are_the_identity_and_full(rt: HostRuntime) {
    on_a_crew(&rt, rt.alloc(), Trial::ProductsWithOne);
}

/// Asserts what the projections of products of powers of two are.
pub(crate) fn products_of_powers<Q: Quads>(rt: &impl Abort, q: &mut Q) {
    'sizes: for (x, y) in [(1024, 1024), (16, 1_048_576), (256, 65_536)] {
        assert!(rt; x <= SIZE_LIMIT && y <= SIZE_LIMIT);
        are_projected(rt, q, x, y);
    }
}

#[test]
fn the_projections_of_products_of_powers_of_two_are_those_of_the_parts(rt: HostRuntime) {
    on_a_crew(&rt, rt.alloc(), Trial::ProductsOfPowers);
}

/// Asserts what the projections of products of other sizes are.
pub(crate) fn products_of_others<Q: Quads>(rt: &impl Abort, q: &mut Q) {
    'sizes: for (x, y) in [(3, 5_592_405), (200, 301)] {
        assert!(rt; x <= SIZE_LIMIT && y <= SIZE_LIMIT);
        are_projected(rt, q, x, y);
    }
}

#[test]
fn the_projections_of_products_of_other_sizes_are_those_of_the_parts(rt: HostRuntime) {
    on_a_crew(&rt, rt.alloc(), Trial::ProductsOfOthers);
}

/// Asserts that the elements of a full vector have their own numbers, in rows that a generator picks.
fn are_numbered_as_they_are<Q: Quads>(rt: &impl Abort, q: &mut Q, rows: u32)
    requires { rows ≤ size_limit }
    ensures { Keeps (Q.worker q.old) (Q.worker q.new) }
{
    let Ok(v) = q.full(Shape { rows, cols: 1 }) else {
        panic!(rt; "no room")
    };
    let Ok(r) = inj(q, v) else {
        panic!(rt; "no room")
    };
    assert!(rt; r.rows == rows && r.cols == rows);
    let mut state = 6;
    'rows: for _ in 0..500 {
        state = stepped(state);
        assert!(rt; 0 < rows);
        let row = ((state >> 33) % u64::from(rows)) as u32;
        has_alone(rt, q, r, row, row);
    }
}

/// Asserts that all elements of full vectors have their own numbers.
pub(crate) fn full_vectors<Q: Quads>(rt: &impl Abort, q: &mut Q) {
    are_numbered_as_they_are(rt, q, SIZE_LIMIT);
    are_numbered_as_they_are(rt, q, 10_000_000);
}

#[test]
fn all_elements_of_full_vectors_are_their_own_numbers(rt: HostRuntime) {
    on_a_crew(&rt, rt.alloc(), Trial::FullVectors);
}
