//! Worked examples, and sizes at the limit and over it.
#![tactic(auto, using(crate::proofs::Later::rel_later, crate::proofs::Later::given_stands, crate::proofs::Later::wanted_stands))]

ghost use Rattle.std.specs.Prelude.{IfOk};
ghost use Rattle.rel_model.specs.Worker.{Stands, Keeps};

use crate::domains::trial::{Trial, on_a_crew};
use crate::made::{is_given, is_made, of_pairs};
use rel_domains::{epsi, first, fork, inj, inl, inr, second};
use rel_model::core_trait::Core;
use rel_model::faults::DomainError;
use rel_model::quads_trait::Quads;
use rel_model::{Rel, SIZE_LIMIT, Shape};
use std::process::Abort;

/// The pairs of three elements and the subsets that contain them.
const MEMBERS: &[(u32, u32)] = &[
    (0, 1),
    (0, 3),
    (0, 5),
    (0, 7),
    (1, 2),
    (1, 3),
    (1, 6),
    (1, 7),
    (2, 4),
    (2, 5),
    (2, 6),
    (2, 7),
];

/// Asserts which subsets three elements are members of.
pub(crate) fn members_of_three<Q: Quads>(rt: &impl Abort, q: &mut Q) {
    let given = epsi(q, 3);
    is_given(rt, q, given, 3, 8, MEMBERS);
}

#[test]
fn three_elements_are_members_of_these_of_eight_subsets(rt: HostRuntime) {
    on_a_crew(&rt, rt.alloc(), Trial::MembersOfThree);
}

/// Asserts that both projections of products with an empty factor are empty.
pub(crate) fn empty_products<Q: Quads>(rt: &impl Abort, q: &mut Q) {
    let given = first(q, 2, 0);
    is_given(rt, q, given, 0, 2, &[]);
    let given = second(q, 0, 2);
    is_given(rt, q, given, 0, 2, &[]);
}

#[test]
fn the_projection_of_a_product_with_an_empty_factor_is_empty(rt: HostRuntime) {
    on_a_crew(&rt, rt.alloc(), Trial::EmptyProducts);
}

/// Asserts how two elements of four are numbered.
pub(crate) fn two_of_four<Q: Quads>(rt: &impl Abort, q: &mut Q) {
    let v = of_pairs(rt, q, Shape { rows: 4, cols: 1 }, &[(1, 0), (3, 0)]);
    let given = inj(q, v);
    is_made(rt, q, given, 2, 4, &[(0, 1), (1, 3)]);
}

#[test]
fn the_elements_1_and_3_of_4_are_numbered_0_and_1(rt: HostRuntime) {
    on_a_crew(&rt, rt.alloc(), Trial::TwoOfFour);
}

/// Asserts how two elements and one are injected into their sum.
pub(crate) fn sum_of_three<Q: Quads>(rt: &impl Abort, q: &mut Q) {
    let given = inl(q, 2, 1);
    is_given(rt, q, given, 2, 3, &[(0, 0), (1, 1)]);
    let given = inr(q, 2, 1);
    is_given(rt, q, given, 1, 3, &[(0, 2)]);
}

#[test]
fn two_and_one_elements_are_injected_into_their_sum_of_three(rt: HostRuntime) {
    on_a_crew(&rt, rt.alloc(), Trial::SumOfThree);
}

/// Asserts that a size was refused as over the limit.
fn is_refused(rt: &impl Abort, given: Result<Rel, DomainError>, size: u64) {
    match given {
        Err(DomainError::Size { wanted, limit }) => {
            assert!(rt;
                wanted == size && limit == 16_777_216,
                "{wanted} for {size}"
            );
        }
        _ => panic!(rt; "not refused"),
    }
}

/// Asserts that products of great sizes are refused.
pub(crate) fn greatest_products<Q: Quads>(rt: &impl Abort, q: &mut Q) {
    is_refused(rt, first(q, 1_048_576, 1_048_576), 1_099_511_627_776);
    is_refused(rt, first(q, 16_777_216, 16_777_216), 281_474_976_710_656);
    is_refused(rt, second(q, 16_777_216, 16_777_216), 281_474_976_710_656);
}

#[test]
fn a_product_of_the_greatest_sizes_is_refused_with_its_size(rt: HostRuntime) {
    on_a_crew(&rt, rt.alloc(), Trial::GreatestProducts);
}

/// Asserts that power sets whose size no number holds are refused.
pub(crate) fn subsets_without_number<Q: Quads>(rt: &impl Abort, q: &mut Q) {
    is_refused(rt, epsi(q, 64), 18_446_744_073_709_551_615);
    is_refused(rt, epsi(q, 1_048_576), 18_446_744_073_709_551_615);
    is_refused(rt, epsi(q, 16_777_216), 18_446_744_073_709_551_615);
}

#[test]
fn subsets_without_number_are_refused_with_the_last_number(rt: HostRuntime) {
    on_a_crew(&rt, rt.alloc(), Trial::SubsetsWithoutNumber);
}

/// Asserts that a relation with these sizes was answered, and has its last pair.
fn has_its_last<Q: Quads>(
    rt: &impl Abort,
    q: &mut Q,
    given: Result<Rel, DomainError>,
    rows: u32,
    cols: u32,
)
    requires { IfOk given (Stands (Q.worker q.old)) }
    ensures { Keeps (Q.worker q.old) (Q.worker q.new) }
{
    let Ok(r) = given else { panic!(rt; "refused") };
    assert!(rt; r.rows == rows && r.cols == cols);
    assert!(rt; 0 < r.rows && 0 < r.cols);
    assert!(rt; q.has(r, r.rows - 1, r.cols - 1));
}

/// Asserts that products and sums one element over the limit are refused.
fn are_refused<Q: Quads>(rt: &impl Abort, q: &mut Q) {
    is_refused(rt, first(q, 4097, 4096), 16_781_312);
    is_refused(rt, second(q, 257, 65_281), 16_777_217);
    is_refused(rt, inl(q, SIZE_LIMIT, 1), 16_777_217);
    is_refused(rt, inr(q, 1, SIZE_LIMIT), 16_777_217);
}

/// Asserts that power sets and pairings over the limit are refused.
fn are_too_many<Q: Quads>(rt: &impl Abort, q: &mut Q) {
    is_refused(rt, epsi(q, 25), 33_554_432);
    is_refused(rt, epsi(q, 63), 9_223_372_036_854_775_808);
    let shape = Shape {
        rows: 1,
        cols: 4097,
    };
    let Ok(row) = q.full(shape) else {
        panic!(rt; "no room")
    };
    is_refused(rt, fork(q, row, row), 16_785_409);
}

/// Asserts that sizes one over the limit are refused, as are larger power sets and pairings.
pub(crate) fn one_over_the_limit<Q: Quads>(rt: &impl Abort, q: &mut Q) {
    are_refused(rt, q);
    are_too_many(rt, q);
}

#[test]
fn a_size_one_over_the_limit_is_refused(rt: HostRuntime) {
    on_a_crew(&rt, rt.alloc(), Trial::OneOverTheLimit);
}

/// Asserts that sums at the limit are not refused.
pub(crate) fn at_the_limit<Q: Quads>(rt: &impl Abort, q: &mut Q) {
    let half = 8_388_608;
    let given = inl(q, SIZE_LIMIT, 0);
    has_its_last(rt, q, given, SIZE_LIMIT, SIZE_LIMIT);
    let given = inr(q, half, half);
    has_its_last(rt, q, given, half, SIZE_LIMIT);
}

#[test]
fn a_size_at_the_limit_is_not_refused(rt: HostRuntime) {
    on_a_crew(&rt, rt.alloc(), Trial::AtTheLimit);
}
