//! All operations of an engine over a node table, compared with their membership clauses on lists of pairs.
#![tactic(auto, using(rel_model::proofs::Workers::keeps_stands, rel_model::proofs::Workers::keeps_trans, rel_model::proofs::Workers::gives_stands))]

mod calls;
mod slow;

ghost use Rattle.std.specs.Prelude.{◌≡◌};
ghost use Rattle.rel_model.specs.Worker.{Stands, Keeps};

use crate::lists::{places_by_chance, put};
use crate::made::of_pairs;
use crate::trial::table;
use calls::{OPERATIONS, Operation, answer};
use fork_quads::{Crew, OpenGate};
use rel_engine::Works;
use rel_model::core_trait::Core;
use rel_model::engine_trait::Engine;
use rel_model::{Rel, Shape};
use slow::{Listed, is_in, shape_of};
use std::alloc::Global;
use std::process::Abort;

/// Asserts that a relation has these sizes and exactly the pairs of a list, by every call that answers about them.
fn has_exactly<E: Engine>(rt: &impl Abort, alloc: Global, engine: &mut E, r: Rel, list: &Listed)
    requires standing { Stands (E.worker engine.old) r }
    ensures keeps { Keeps (E.worker engine.old) (E.worker engine.new) }
{
    assert_eq!(rt; (r.rows, r.cols), (list.shape.rows, list.shape.cols));
    walks_over(rt, engine, r, list.pairs.as_slice());
    'rows: for i in 0..r.rows {
        'cols: for j in 0..r.cols {
            let found = engine.has(r, i, j);
            assert_eq!(rt; found, list.has(i, j), "at {i}, {j}");
        }
    }
    assert_eq!(rt; engine.count(alloc, r), Ok(list.pairs.len() as u64));
    assert_eq!(rt; engine.is_empty(r), list.pairs.is_empty());
    assert_eq!(rt; engine.unival(r), list.is_unival());
}

/// Asserts that a walk over a relation meets these pairs, in this order, and no other.
fn walks_over<E: Engine>(rt: &impl Abort, engine: &mut E, r: Rel, pairs: &[(u32, u32)])
    requires standing { Stands (E.worker engine.old) r }
    ensures keeps { Keeps (E.worker engine.old) (E.worker engine.new) }
{
    let mut after = None;
    'pairs: for (i, j) in pairs {
        let next = engine.next_pair(r, after);
        assert_eq!(rt; next, Some((*i, *j)));
        after = next;
    }
    assert_eq!(rt; engine.next_pair(r, after), None);
}

/// The result of an operation by its membership clause, if the operands fit.
fn counted_out(
    rt: &impl Abort,
    alloc: Global,
    operation: Operation,
    r: &Listed,
    s: &Listed,
) -> Option<Listed> {
    let (rows, cols) = shape_of(operation, r, s)?;
    let mut pairs = Vec::new(alloc);
    'rows: for i in 0..rows {
        'cols: for j in 0..cols {
            if is_in(operation, r, s, i, j) {
                put(rt, &mut pairs, (i, j));
            }
        }
    }
    let shape = Shape { rows, cols };
    Some(Listed { shape, pairs })
}

/// Asserts that an operation on two relations gives what its membership clause says of their lists, or fits neither.
/// Answers whether it fits.
fn agrees<E: Engine>(
    rt: &impl Abort,
    alloc: Global,
    engine: &mut E,
    operation: Operation,
    left: &Listed,
    right: &Listed,
) -> bool
    ensures keeps { Keeps (E.worker engine.old) (E.worker engine.new) }
{
    let r = of_pairs(rt, alloc, engine, left.shape, &left.pairs);
    let s = of_pairs(rt, alloc, engine, right.shape, &right.pairs);
    let given = answer(rt, engine, operation, r, s);
    match (given, counted_out(rt, alloc, operation, left, right)) {
        (Some(rel), Some(list)) => {
            has_exactly(rt, alloc, engine, rel, &list);
            true
        }
        (None, None) => false,
        _ => panic!(rt; "{operation:?} fits for one of both"),
    }
}

/// Asserts that all operations on two relations give what their membership clauses say. Answers how many fit.
fn all_agree<E: Engine>(
    rt: &impl Abort,
    alloc: Global,
    engine: &mut E,
    left: &Listed,
    right: &Listed,
) -> u64
    ensures keeps { Keeps (E.worker engine.old) (E.worker engine.new) }
{
    let mut fitting: u64 = 0;
    'operations: for operation in OPERATIONS {
        if agrees(rt, alloc, engine, operation, left, right) {
            fitting = fitting.wrapping_add(1);
        }
    }
    one_set_is_the_same(rt, alloc, engine, left, right);
    fitting
}

/// Asserts that two relations of one type are the same if and only if their lists are.
fn one_set_is_the_same<E: Engine>(
    rt: &impl Abort,
    alloc: Global,
    engine: &mut E,
    left: &Listed,
    right: &Listed,
)
    ensures keeps { Keeps (E.worker engine.old) (E.worker engine.new) }
{
    let r = of_pairs(rt, alloc, engine, left.shape, &left.pairs);
    let s = of_pairs(rt, alloc, engine, right.shape, &right.pairs);
    if r.rows == s.rows && r.cols == s.cols {
        let equal = left.pairs.as_slice() == right.pairs.as_slice();
        assert_eq!(rt; engine.same(r, s), equal);
    }
}

/// The relation of a number: its bits, lowest first, say row by row which pairs are in it.
fn of_number(rt: &impl Abort, alloc: Global, shape: Shape, number: u32) -> Listed {
    let mut pairs = Vec::new(alloc);
    let mut left = number;
    'rows: for i in 0..shape.rows {
        'cols: for j in 0..shape.cols {
            if left % 2 == 1 {
                put(rt, &mut pairs, (i, j));
            }
            left /= 2;
        }
    }
    Listed { shape, pairs }
}

/// A pseudo-random relation that has about one pair in a given number.
fn some_of(rt: &impl Abort, alloc: Global, shape: Shape, one_in: u64, seed: u64) -> Listed {
    let pairs = places_by_chance(rt, alloc, shape, one_in, seed);
    Listed { shape, pairs }
}

/// The shapes with sizes up to 2, and how many relations each of them has.
const SMALL: [(u32, u32, u32); 9] = [
    (0, 0, 1),
    (0, 1, 1),
    (0, 2, 1),
    (1, 0, 1),
    (1, 1, 2),
    (1, 2, 4),
    (2, 0, 1),
    (2, 1, 4),
    (2, 2, 16),
];

#[test]
fn all_operations_on_all_relations_up_to_2_by_2_are_their_membership_clauses(rt: HostRuntime) {
    let alloc = rt.alloc();
    let (table, seat) = table(&rt, alloc, 18);
    let gate = OpenGate;
    let mut works = Works::new(Crew::new(&rt, &table, seat, 1, &gate));
    let mut fitting: u64 = 0;
    'lefts: for (rows, cols, count) in SMALL {
        'left: for number in 0..count {
            let left = of_number(&rt, alloc, Shape { rows, cols }, number);
            'rights: for (rows, cols, count) in SMALL {
                'right: for number in 0..count {
                    let right = of_number(&rt, alloc, Shape { rows, cols }, number);
                    let fit = all_agree(&rt, alloc, &mut works, &left, &right);
                    fitting = fitting.wrapping_add(fit);
                }
            }
        }
    }
    assert!(&rt; fitting > 10_000);
}

#[test]
fn all_operations_on_pseudo_random_relations_up_to_24_by_24_are_their_membership_clauses(
    rt: HostRuntime,
) {
    let alloc = rt.alloc();
    let (table, seat) = table(&rt, alloc, 18);
    let gate = OpenGate;
    let mut works = Works::new(Crew::new(&rt, &table, seat, 8, &gate));
    'cases: for (rows, cols, others, more, one_in) in [
        (24, 24, 24, 24, 12),
        (24, 1, 24, 1, 3),
        (7, 24, 24, 5, 4),
        (17, 9, 17, 3, 5),
        (9, 17, 5, 17, 6),
        (16, 16, 16, 16, 2),
        (1, 24, 1, 24, 2),
    ] {
        let shape = Shape { rows, cols };
        let left = some_of(&rt, alloc, shape, one_in, 1);
        let shape = Shape {
            rows: others,
            cols: more,
        };
        let right = some_of(&rt, alloc, shape, one_in, 2);
        let fitting = all_agree(&rt, alloc, &mut works, &left, &right);
        assert!(&rt; fitting > 12);
    }
}
