//! Products, sums and power sets over relations in a node table, compared with lists computed from their rules.
#![tactic(auto, using(crate::proofs::Later::rel_later, crate::proofs::Later::given_stands, crate::proofs::Later::wanted_stands))]

mod examples;
mod large;
mod lists;
mod slow;
mod trial;

ghost use Rattle.std.specs.Prelude.{◌≤◌, IfOk};
ghost use Rattle.rel_model.specs.Worker.{Stands, Keeps};

use crate::grids::stepped;
use crate::made::is_given;
use rel_domains::{epsi, first, inl, inr, second};
use rel_model::quads_trait::Quads;
use slow::{injection, membership, projections, size_of};
use std::alloc::Global;
use std::process::Abort;
use trial::{Trial, on_a_crew};

/// Asserts the results of the calls on two sizes.
fn are_counted_out<Q: Quads>(rt: &impl Abort, alloc: Global, q: &mut Q, x: u32, y: u32)
    requires x { x ≤ 40 }
    requires y { y ≤ 40 }
    ensures { Keeps (Q.worker q.old) (Q.worker q.new) }
{
    let (to_first, to_second) = projections(rt, alloc, x, y);
    let given = first(q, x, y);
    is_given(rt, q, given, x * y, x, &to_first);
    let given = second(q, x, y);
    is_given(rt, q, given, x * y, y, &to_second);
    let given = inl(q, x, y);
    is_given(rt, q, given, x, x + y, &injection(rt, alloc, x, 0));
    let given = inr(q, x, y);
    is_given(rt, q, given, y, x + y, &injection(rt, alloc, y, x));
}

/// Asserts the results of the calls on all sizes up to 4.
pub(crate) fn small_sizes<Q: Quads>(rt: &impl Abort, alloc: Global, q: &mut Q) {
    'firsts: for x in 0..5 {
        'seconds: for y in 0..5 {
            are_counted_out(rt, alloc, q, x, y);
        }
    }
}

#[test]
fn projections_and_injections_of_all_sizes_up_to_4_are_those_counted_out(rt: HostRuntime) {
    on_a_crew(&rt, rt.alloc(), Trial::SmallSizes);
}

/// Sizes, at least one of them more than 4.
const LARGER: &[(u32, u32)] = &[
    (0, 40),
    (40, 0),
    (1, 40),
    (40, 1),
    (7, 8),
    (8, 7),
    (8, 8),
    (3, 16),
    (16, 3),
    (5, 32),
    (32, 5),
    (13, 3),
    (3, 13),
];

/// Asserts the results of the calls on listed sizes up to 40, and on some that a generator picks.
pub(crate) fn larger_sizes<Q: Quads>(rt: &impl Abort, alloc: Global, q: &mut Q) {
    'sizes: for &(x, y) in LARGER {
        assert!(rt; x <= 40 && y <= 40);
        are_counted_out(rt, alloc, q, x, y);
    }
    let mut state = 1;
    'rounds: for _ in 0..8 {
        state = stepped(state);
        let x = size_of(state);
        state = stepped(state);
        are_counted_out(rt, alloc, q, x, size_of(state));
    }
}

#[test]
fn projections_and_injections_of_larger_sizes_are_those_counted_out(rt: HostRuntime) {
    on_a_crew(&rt, rt.alloc(), Trial::LargerSizes);
}

/// Numbers of elements, and of their subsets.
const SUBSETS: &[(u32, u32)] = &[
    (0, 1),
    (1, 2),
    (2, 4),
    (3, 8),
    (4, 16),
    (5, 32),
    (8, 256),
    (9, 512),
    (12, 4096),
];

/// Asserts that the subsets of up to 12 elements have the elements given by their bits.
pub(crate) fn subsets<Q: Quads>(rt: &impl Abort, alloc: Global, q: &mut Q) {
    'sizes: for &(x, subsets) in SUBSETS {
        assert!(rt; x <= 40);
        let given = epsi(q, x);
        is_given(rt, q, given, x, subsets, &membership(rt, alloc, x, subsets));
    }
}

#[test]
fn a_subset_has_the_elements_of_its_bits(rt: HostRuntime) {
    on_a_crew(&rt, rt.alloc(), Trial::Subsets);
}
