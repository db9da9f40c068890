//! Lists of pairs, pairings and the elements of vectors over relations in a node table, compared with slow lists.
#![tactic(auto, using(crate::proofs::Later::rel_later, crate::proofs::Later::given_stands, crate::proofs::Later::wanted_stands, crate::proofs::Listing::within_more))]

ghost use Rattle.std.specs.Prelude.{◌≤◌, ◌<◌};
ghost use Rattle.rel_model.specs.Relation.{size_limit};
ghost use Rattle.rel_model.specs.Listed.{AreWithin};
ghost use Rattle.rel_model.specs.Worker.{Keeps};

use crate::domains::slow::{in_order, numbered, pairing, picked, size_of};
use crate::domains::trial::{Trial, on_a_crew};
use crate::grids::{cells_of, put, some_of, stepped};
use crate::made::{is_given, is_made, of_pairs};
use rel_domains::{fork, from_pairs, inj};
use rel_listing::pairs_of;
use rel_model::Shape;
use rel_model::quads_trait::Quads;
use std::alloc::Global;
use std::process::Abort;

/// Listed pairs, each of which is asserted to be within the sizes.
fn within(
    rt: &impl Abort,
    alloc: Global,
    rows: u32,
    cols: u32,
    pairs: &[(u32, u32)],
) -> Vec<(u32, u32)>
    ensures { AreWithin rows cols result.items }
{
    let mut list = Vec::new(alloc);
    'pairs: for (i, j) in pairs {
        assert!(rt; *i < rows && *j < cols);
        if list.push((*i, *j)).is_err() {
            panic!(rt; "no memory");
        }
    }
    list
}

/// Asserts that listed pairs make the relation whose pairs are these in order.
fn are_collected<Q: Quads>(
    rt: &impl Abort,
    alloc: Global,
    q: &mut Q,
    shape: Shape,
    listed: &[(u32, u32)],
    pairs: &[(u32, u32)],
)
    requires row { shape.rows ≤ size_limit }
    requires col { shape.cols ≤ size_limit }
    ensures { Keeps (Q.worker q.old) (Q.worker q.new) }
{
    let list = within(rt, alloc, shape.rows, shape.cols, listed);
    let given = from_pairs(alloc, q, shape, list.as_slice());
    is_made(rt, q, given, shape.rows, shape.cols, pairs);
}

/// Pairs in reverse order, and then in their own: each twice.
fn twice(rt: &impl Abort, alloc: Global, pairs: &[(u32, u32)]) -> Vec<(u32, u32)> {
    let mut out = Vec::new(alloc);
    'back: for (i, j) in pairs.iter().rev() {
        put(rt, &mut out, (*i, *j));
    }
    'again: for (i, j) in pairs {
        put(rt, &mut out, (*i, *j));
    }
    out
}

/// Asserts that all relations of sizes up to 3 are made from their lists.
pub(crate) fn small_lists<Q: Quads>(rt: &impl Abort, alloc: Global, q: &mut Q) {
    'rows: for rows in 0..4 {
        'cols: for cols in 0..4 {
            'sets: for bits in 0..512 {
                if bits >> (rows * cols) != 0 {
                    break;
                }
                let shape = Shape { rows, cols };
                let pairs = cells_of(rt, alloc, shape, bits);
                are_collected(rt, alloc, q, shape, &pairs, &pairs);
                let listed = twice(rt, alloc, &pairs);
                are_collected(rt, alloc, q, shape, &listed, &pairs);
            }
        }
    }
}

#[test]
fn all_relations_of_sizes_up_to_3_are_made_of_their_lists(rt: HostRuntime) {
    on_a_crew(&rt, rt.alloc(), Trial::SmallLists);
}

/// Asserts that relations of sizes up to 40 are made from lists in the order of a generator.
pub(crate) fn larger_lists<Q: Quads>(rt: &impl Abort, alloc: Global, q: &mut Q) {
    let mut state = 3;
    'rounds: for round in 0..40 {
        state = stepped(state);
        let rows = size_of(state);
        state = stepped(state);
        let cols = size_of(state);
        let count = if rows == 0 || cols == 0 { 0 } else { 7 * round };
        let listed = picked(rt, alloc, rows, cols, count, state);
        let pairs = in_order(rt, alloc, rows, cols, &listed);
        let shape = Shape { rows, cols };
        are_collected(rt, alloc, q, shape, &listed, &pairs);
    }
}

#[test]
fn relations_of_sizes_up_to_40_are_made_of_lists_in_any_order(rt: HostRuntime) {
    on_a_crew(&rt, rt.alloc(), Trial::LargerLists);
}

/// Pairs by chance of a square with this many rows, each third one with its neighbour.
fn by_chance(rt: &impl Abort, alloc: Global, rows: u32, count: u32) -> Vec<(u32, u32)>
    requires { 0 < rows }
{
    let mut pairs = Vec::new(alloc);
    let mut state = 5;
    'pairs: for k in 0..count {
        state = stepped(state);
        let i = (state >> 40) as u32 & (rows - 1);
        state = stepped(state);
        let j = (state >> 40) as u32 & (rows - 1);
        put(rt, &mut pairs, (i, j));
        if k % 3 == 0 {
            put(rt, &mut pairs, (i, j ^ 1));
        }
    }
    pairs
}

/// The pairs of a list in order, each once.
fn once(rt: &impl Abort, alloc: Global, pairs: &[(u32, u32)]) -> Vec<(u32, u32)> {
    let mut sorted = Vec::new(alloc);
    'copies: for pair in pairs {
        put(rt, &mut sorted, *pair);
    }
    sorted.sort_unstable();
    let mut out = Vec::new(alloc);
    let mut last = (u32::MAX, u32::MAX);
    'sorted: for pair in &sorted {
        if *pair != last {
            put(rt, &mut out, *pair);
        }
        last = *pair;
    }
    out
}

/// Asserts that the relation of listed pairs has these pairs in order.
fn are_listed_again<Q: Quads>(
    rt: &impl Abort,
    alloc: Global,
    q: &mut Q,
    shape: Shape,
    listed: &[(u32, u32)],
    wanted: &[(u32, u32)],
)
    requires row { shape.rows ≤ size_limit }
    requires col { shape.cols ≤ size_limit }
{
    let list = within(rt, alloc, shape.rows, shape.cols, listed);
    let Ok(r) = from_pairs(alloc, q, shape, list.as_slice()) else {
        panic!(rt; "no room")
    };
    let Ok(found) = pairs_of(alloc, q, r) else {
        panic!(rt; "no memory")
    };
    assert!(rt; found.as_slice() == wanted, "{} rows", shape.rows);
}

/// Asserts that relations are made from lists of thousands of pairs, which stand alone in their squares or side by
/// side.
pub(crate) fn long_lists<Q: Quads>(rt: &impl Abort, alloc: Global, q: &mut Q) {
    'sizes: for rows in [1 << 9, 1 << 14, 1 << 20] {
        assert!(rt; 0 < rows && rows <= 1 << 20);
        let listed = by_chance(rt, alloc, rows, 6000);
        let wanted = once(rt, alloc, &listed);
        are_listed_again(rt, alloc, q, Shape { rows, cols: rows }, &listed, &wanted);
    }
}

#[test]
fn relations_are_made_of_long_lists(rt: HostRuntime) {
    on_a_crew(&rt, rt.alloc(), Trial::LongLists);
}

/// Asserts that the pairing of two relations with this many rows, listed by row and then by column, is that of their
/// lists.
fn are_paired<Q: Quads>(
    rt: &impl Abort,
    alloc: Global,
    q: &mut Q,
    rows: u32,
    left: (u32, &[(u32, u32)]),
    right: (u32, &[(u32, u32)]),
)
    requires rows { rows ≤ 40 }
    requires left { left.0 ≤ 40 }
    requires right { right.0 ≤ 40 }
    ensures { Keeps (Q.worker q.old) (Q.worker q.new) }
{
    let r = of_pairs(rt, q, Shape { rows, cols: left.0 }, left.1);
    let s = of_pairs(
        rt,
        q,
        Shape {
            rows,
            cols: right.0,
        },
        right.1,
    );
    let given = fork(q, r, s);
    let cols = left.0 * right.0;
    is_given(
        rt,
        q,
        given,
        rows,
        cols,
        &pairing(rt, alloc, left.1, right.1, right.0),
    );
}

/// Asserts that the pairings of all relations with this many rows and columns are those of their lists.
fn are_all_paired<Q: Quads>(rt: &impl Abort, alloc: Global, q: &mut Q, rows: u32, n: u32, k: u32)
    requires rows { rows ≤ 2 }
    requires left { n ≤ 2 }
    requires right { k ≤ 2 }
{
    'firsts: for a in 0..16 {
        'seconds: for b in 0..16 {
            if a >> (rows * n) != 0 || b >> (rows * k) != 0 {
                continue;
            }
            let left = cells_of(rt, alloc, Shape { rows, cols: n }, a);
            let right = cells_of(rt, alloc, Shape { rows, cols: k }, b);
            are_paired(rt, alloc, q, rows, (n, &left), (k, &right));
        }
    }
}

/// Asserts that the pairings of all relations of sizes up to 2 are those of lists.
pub(crate) fn small_pairings<Q: Quads>(rt: &impl Abort, alloc: Global, q: &mut Q) {
    'rows: for rows in 0..3 {
        'lefts: for n in 0..3 {
            'rights: for k in 0..3 {
                are_all_paired(rt, alloc, q, rows, n, k);
            }
        }
    }
}

#[test]
fn all_relations_of_sizes_up_to_2_are_paired_as_by_lists(rt: HostRuntime) {
    on_a_crew(&rt, rt.alloc(), Trial::SmallPairings);
}

/// The number of rows of two relations, and the number of columns of each.
const PAIRED: &[(u32, u32, u32)] = &[
    (0, 2, 3),
    (3, 0, 2),
    (3, 2, 0),
    (1, 1, 1),
    (2, 2, 3),
    (3, 3, 3),
    (4, 3, 4),
    (4, 4, 3),
    (4, 4, 4),
    (40, 3, 5),
    (17, 9, 2),
    (9, 40, 3),
    (5, 3, 40),
    (40, 8, 8),
];

/// Asserts that the pairings of relations of sizes up to 40 are those of lists.
pub(crate) fn larger_pairings<Q: Quads>(rt: &impl Abort, alloc: Global, q: &mut Q) {
    'sizes: for &(rows, n, k) in PAIRED {
        assert!(rt; rows <= 40 && n <= 40 && k <= 40);
        'choices: for (one_in, seed) in [(1, 1), (2, 2), (3, 3), (20, 4)] {
            let left = some_of(rt, alloc, Shape { rows, cols: n }, one_in, seed);
            let right = some_of(rt, alloc, Shape { rows, cols: k }, one_in, seed + 7);
            are_paired(rt, alloc, q, rows, (n, &left), (k, &right));
        }
    }
}

#[test]
fn relations_of_sizes_up_to_40_are_paired_as_by_lists(rt: HostRuntime) {
    on_a_crew(&rt, rt.alloc(), Trial::LargerPairings);
}

/// Asserts that the elements of a vector are numbered in order.
fn is_numbered<Q: Quads>(
    rt: &impl Abort,
    alloc: Global,
    q: &mut Q,
    rows: u32,
    vector: &[(u32, u32)],
)
    requires { rows ≤ size_limit }
    ensures { Keeps (Q.worker q.old) (Q.worker q.new) }
{
    let v = of_pairs(rt, q, Shape { rows, cols: 1 }, vector);
    let given = inj(q, v);
    assert!(rt; vector.len() <= 1000);
    let many = vector.len() as u32;
    is_made(rt, q, given, many, rows, &numbered(rt, alloc, vector));
}

/// Asserts that the elements of all vectors of up to 8 rows are numbered in order.
pub(crate) fn small_vectors<Q: Quads>(rt: &impl Abort, alloc: Global, q: &mut Q) {
    'sizes: for rows in 0..9 {
        'sets: for bits in 0..256 {
            if bits >> rows == 0 {
                let vector = cells_of(rt, alloc, Shape { rows, cols: 1 }, bits);
                is_numbered(rt, alloc, q, rows, &vector);
            }
        }
    }
}

#[test]
fn elements_of_all_vectors_of_up_to_8_rows_are_numbered_in_order(rt: HostRuntime) {
    on_a_crew(&rt, rt.alloc(), Trial::SmallVectors);
}

/// Asserts that the elements of longer vectors are numbered in order.
pub(crate) fn longer_vectors<Q: Quads>(rt: &impl Abort, alloc: Global, q: &mut Q) {
    'sizes: for rows in [9, 15, 16, 17, 24, 32, 33, 40, 64, 100, 200] {
        assert!(rt; rows <= 200);
        'choices: for (one_in, seed) in [(1, 1), (2, 2), (2, 3), (5, 5), (99, 6)] {
            let vector = some_of(rt, alloc, Shape { rows, cols: 1 }, one_in, seed);
            is_numbered(rt, alloc, q, rows, &vector);
        }
    }
}

#[test]
fn elements_of_longer_vectors_are_numbered_in_order(rt: HostRuntime) {
    on_a_crew(&rt, rt.alloc(), Trial::LongerVectors);
}
