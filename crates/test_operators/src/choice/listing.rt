//! Listings of all pairs of a relation, compared with its list of pairs and with the walk from pair to pair.
#![tactic(auto, using(crate::proofs::Later::rel_later, crate::proofs::Later::given_stands))]

ghost use Rattle.std.specs.Prelude.{◌≤◌};
ghost use Rattle.rel_model.specs.Relation.{size_limit};
ghost use Rattle.rel_model.specs.Worker.{Stands, Keeps};

use crate::choice::trial::{Trial, on_a_crew};
use crate::choice::walks::walked;
use crate::grids::some_of;
use crate::made::of_pairs;
use rel_listing::{pairs_of, pairs_within};
use rel_model::quads_trait::Quads;
use rel_model::{Rel, Shape};
use std::alloc::Global;
use std::process::Abort;

/// Asserts that the pairs of a relation are listed where as many are wanted, and that there is no list where one fewer
/// is.
fn is_listed_within<Q: Quads>(
    rt: &impl Abort,
    alloc: Global,
    q: &mut Q,
    r: Rel,
    pairs: &[(u32, u32)],
)
    requires standing { Stands (Q.worker q.old) r }
    ensures keeps { Keeps (Q.worker q.old) (Q.worker q.new) }
{
    let Some(all) = pairs_within(alloc, q, r, pairs.len()) else {
        panic!(rt; "no list of {pairs:?}")
    };
    assert!(rt; all.as_slice() == pairs, "{pairs:?}");
    if !pairs.is_empty() {
        let none = pairs_within(alloc, q, r, pairs.len() - 1);
        assert!(rt; none.is_none(), "{pairs:?}");
    }
}

/// Asserts that the pairs of a relation are listed as it is walked.
fn is_listed<Q: Quads>(
    rt: &impl Abort,
    alloc: Global,
    q: &mut Q,
    shape: Shape,
    pairs: &[(u32, u32)],
)
    requires row { shape.rows ≤ size_limit }
    requires col { shape.cols ≤ size_limit }
{
    let r = of_pairs(rt, q, shape, pairs);
    let Ok(listed) = pairs_of(alloc, q, r) else {
        panic!(rt; "no memory")
    };
    assert!(rt; listed.as_slice() == pairs, "{pairs:?}");
    is_listed_within(rt, alloc, q, r, pairs);
    let found = walked(rt, alloc, q, r);
    assert!(rt; listed.as_slice() == found.as_slice(), "{pairs:?}");
}

/// Asserts what is listed of relations that a generator picks.
pub(crate) fn listed<Q: Quads>(rt: &impl Abort, alloc: Global, q: &mut Q) {
    'shapes: for (rows, cols) in [
        (0, 0),
        (0, 9),
        (9, 0),
        (1, 1),
        (7, 8),
        (8, 9),
        (9, 7),
        (63, 20),
        (20, 64),
        (65, 9),
        (1, 1000),
        (1000, 1),
    ] {
        assert!(rt; rows <= 1000 && cols <= 1000);
        let shape = Shape { rows, cols };
        'choices: for (one_in, seed) in [(1, 1), (3, 2), (40, 3), (5000, 4)] {
            let pairs = some_of(rt, alloc, shape, one_in, seed);
            is_listed(rt, alloc, q, shape, &pairs);
        }
    }
}

#[test]
fn pairs_are_listed_as_they_are_walked(rt: HostRuntime) {
    on_a_crew(&rt, rt.alloc(), Trial::Listed);
}

/// Asserts what is listed of relations of sizes 1000 whose pairs are few, or lie in one row, one column or one square.
pub(crate) fn listed_far_apart<Q: Quads>(rt: &impl Abort, alloc: Global, q: &mut Q) {
    let shape = Shape {
        rows: 1000,
        cols: 1000,
    };
    is_listed(rt, alloc, q, shape, &[]);
    is_listed(rt, alloc, q, shape, &[(999, 999)]);
    let corners = [
        (0, 0),
        (0, 999),
        (511, 512),
        (512, 511),
        (999, 0),
        (999, 999),
    ];
    is_listed(rt, alloc, q, shape, &corners);
    let few = some_of(rt, alloc, shape, 1000, 6);
    is_listed(rt, alloc, q, shape, &few);
}

#[test]
fn pairs_far_apart_are_listed_in_order(rt: HostRuntime) {
    on_a_crew(&rt, rt.alloc(), Trial::ListedFarApart);
}
