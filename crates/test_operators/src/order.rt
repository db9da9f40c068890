//! Orders and classes over relations in a node table, compared with what their lists of pairs say.
#![tactic(auto, using(crate::proofs::Later::rel_later, crate::proofs::Later::given_stands))]

mod slow;
mod trial;

ghost use Rattle.std.specs.Prelude.{◌≡◌, ◌≤◌, IfOk};
ghost use Rattle.rel_model.specs.Relation.{size_limit};
ghost use Rattle.rel_model.specs.Worker.{Stands, Keeps};

use crate::grids::{cells_of, put, some_of};
use crate::made::of_pairs;
use rel_domains::{first, second};
use rel_model::core_trait::Core;
use rel_model::quads_trait::Quads;
use rel_model::{Lack, Rel, Shape};
use rel_order::{greatest, hasse, inf, lbd, least, less, quot, sup, ubd};
use slow::{Call, Operands, answers, columns};
use std::alloc::Global;
use std::process::Abort;
use trial::{Trial, on_a_crew};

/// The calls, once each.
const CALLS: &[Call] = &[
    Call::Less,
    Call::Hasse,
    Call::Quot,
    Call::Ubd,
    Call::Lbd,
    Call::Least,
    Call::Greatest,
    Call::Sup,
    Call::Inf,
];

/// The answer of a call.
fn answer_of<Q: Quads>(q: &mut Q, call: Call, r: Rel, s: Rel) -> Result<Rel, Lack>
    requires left { Stands (Q.worker q.old) r }
    requires right { Stands (Q.worker q.old) s }
    requires square { r.rows ≡ r.cols }
    requires rows { r.rows ≡ s.rows }
    ensures standing { IfOk result (Stands (Q.worker q.new)) }
    ensures keeps { Keeps (Q.worker q.old) (Q.worker q.new) }
{
    match call {
        Call::Less => less(q, r.rows),
        Call::Hasse => hasse(q, r),
        Call::Quot => quot(q, r),
        Call::Ubd => ubd(q, r, s),
        Call::Lbd => lbd(q, r, s),
        Call::Least => least(q, r, s),
        Call::Greatest => greatest(q, r, s),
        Call::Sup => sup(q, r, s),
        Call::Inf => inf(q, r, s),
    }
}

/// Asserts that a relation is the slow answer, cell by cell.
fn is_given<Q: Quads>(rt: &impl Abort, q: &mut Q, found: Rel, call: Call, given: Operands)
    requires { Stands (Q.worker q.old) found }
    ensures { Keeps (Q.worker q.old) (Q.worker q.new) }
{
    assert!(rt; found.rows == given.n && found.cols == columns(call, given));
    'rows: for x in 0..found.rows {
        'cols: for y in 0..found.cols {
            let is_in = q.has(found, x, y);
            assert!(rt;
                is_in == answers(call, given, x, y),
                "{call:?} of {given:?} at {x} {y}"
            );
        }
    }
}

/// Asserts what each call answers.
fn are_right<Q: Quads>(rt: &impl Abort, q: &mut Q, r: Rel, s: Rel, given: Operands)
    requires left { Stands (Q.worker q.old) r }
    requires right { Stands (Q.worker q.old) s }
    requires square { r.rows ≡ r.cols }
    requires rows { r.rows ≡ s.rows }
    ensures { Keeps (Q.worker q.old) (Q.worker q.new) }
{
    'calls: for call in CALLS {
        let Ok(found) = answer_of(q, *call, r, s) else {
            panic!(rt; "no room")
        };
        is_given(rt, q, found, *call, given);
    }
}

/// Asserts what each call answers on two lists of pairs.
fn is_right<Q: Quads>(rt: &impl Abort, q: &mut Q, given: Operands)
    requires elements { given.n ≤ size_limit }
    requires columns { given.cols ≤ size_limit }
{
    let n = given.n;
    let r = of_pairs(rt, q, Shape { rows: n, cols: n }, given.r);
    let shape = Shape {
        rows: n,
        cols: given.cols,
    };
    let s = of_pairs(rt, q, shape, given.s);
    are_right(rt, q, r, s, given);
}

/// Asserts what each call answers on a relation of at most 3 elements with all vectors, and with the relation itself.
fn with_all_vectors<Q: Quads>(rt: &impl Abort, alloc: Global, q: &mut Q, n: u32, r: &[(u32, u32)])
    requires { n ≤ 3 }
{
    is_right(
        rt,
        q,
        Operands {
            n,
            r,
            cols: n,
            s: r,
        },
    );
    is_right(
        rt,
        q,
        Operands {
            n,
            r,
            cols: 0,
            s: &[],
        },
    );
    'vectors: for bits in 0..8 {
        if bits >> n == 0 {
            let s = cells_of(rt, alloc, Shape { rows: n, cols: 1 }, bits);
            is_right(
                rt,
                q,
                Operands {
                    n,
                    r,
                    cols: 1,
                    s: &s,
                },
            );
        }
    }
}

/// Asserts what each call answers on all relations of at most 3 elements.
pub(crate) fn up_to_3<Q: Quads>(rt: &impl Abort, alloc: Global, q: &mut Q) {
    'sizes: for n in 0..4 {
        'sets: for bits in 0..512 {
            if bits >> (n * n) == 0 {
                let r = cells_of(rt, alloc, Shape { rows: n, cols: n }, bits);
                with_all_vectors(rt, alloc, q, n, &r);
            }
        }
    }
}

#[test]
fn all_relations_of_up_to_3_elements_are_answered_as_by_lists(rt: HostRuntime) {
    on_a_crew(&rt, rt.alloc(), Trial::UpTo3);
}

/// Asserts what each call answers on relations of 9 and 17 elements that a generator picks.
pub(crate) fn pseudo_random<Q: Quads>(rt: &impl Abort, alloc: Global, q: &mut Q) {
    'sizes: for n in [9, 17] {
        assert!(rt; n <= 17);
        'choices: for (one_in, seed) in [(1, 1), (2, 2), (5, 3), (40, 4), (900, 5)] {
            let r = some_of(rt, alloc, Shape { rows: n, cols: n }, one_in, seed);
            let s = some_of(rt, alloc, Shape { rows: n, cols: 3 }, 3, seed);
            is_right(
                rt,
                q,
                Operands {
                    n,
                    r: &r,
                    cols: 3,
                    s: &s,
                },
            );
        }
    }
}

#[test]
fn pseudo_random_relations_of_9_and_17_elements_are_answered_as_by_lists(rt: HostRuntime) {
    on_a_crew(&rt, rt.alloc(), Trial::PseudoRandom);
}

/// The pairs (i, j) of numbers from 1 on such that the first divides the second, or such that both have the same
/// remainder modulo 3.
fn numbers(rt: &impl Abort, alloc: Global, n: u32, divides: bool) -> Vec<(u32, u32)>
    requires { n ≤ 12 }
{
    let mut pairs = Vec::new(alloc);
    'rows: for i in 0..n {
        'cols: for j in 0..n {
            let is_in = if divides {
                (j + 1) % (i + 1) == 0
            } else {
                i % 3 == j % 3
            };
            if is_in {
                put(rt, &mut pairs, (i, j));
            }
        }
    }
    pairs
}

/// Asserts what each call answers on an order and on an equivalence, with all two-element columns.
pub(crate) fn divisors<Q: Quads>(rt: &impl Abort, alloc: Global, q: &mut Q) {
    let n = 12;
    let mut s = Vec::new(alloc);
    'firsts: for i in 0..n {
        'seconds: for j in 0..n {
            put(rt, &mut s, (i, n * i + j));
            put(rt, &mut s, (j, n * i + j));
        }
    }
    'kinds: for divides in [true, false] {
        let r = numbers(rt, alloc, n, divides);
        is_right(
            rt,
            q,
            Operands {
                n,
                r: &r,
                cols: 144,
                s: &s,
            },
        );
    }
}

#[test]
fn the_divisors_up_to_12_and_the_remainders_by_3_are_answered_as_by_lists(rt: HostRuntime) {
    on_a_crew(&rt, rt.alloc(), Trial::Divisors);
}

/// Asserts that the classes of the pairs of 1,024 elements with one image under a projection are that projection.
fn is_its_projection<Q: Quads>(rt: &impl Abort, q: &mut Q, map: Rel)
    requires { Stands (Q.worker q.old) map }
{
    let Ok(turned) = q.transpose(map) else {
        panic!(rt; "no room")
    };
    let Ok(alike) = q.compose(map, turned) else {
        panic!(rt; "no room")
    };
    let Ok(found) = quot(q, alike) else {
        panic!(rt; "no room")
    };
    assert!(rt; found.rows == map.rows && found.cols == map.cols);
    assert!(rt; q.same(found, map));
}

/// Asserts this for both projections, whose 2^20 elements have 2^10 classes.
pub(crate) fn regular<Q: Quads>(rt: &impl Abort, q: &mut Q) {
    let Ok(quotient) = first(q, 1024, 1024) else {
        panic!(rt; "no room")
    };
    is_its_projection(rt, q, quotient);
    let Ok(remainder) = second(q, 1024, 1024) else {
        panic!(rt; "no room")
    };
    is_its_projection(rt, q, remainder);
}

#[test]
fn the_classes_of_a_projection_are_the_projection(rt: HostRuntime) {
    on_a_crew(&rt, rt.alloc(), Trial::Regular);
}
