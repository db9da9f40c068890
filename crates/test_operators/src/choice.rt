//! Choice, tests and walks over relations in a node table, compared with what their lists of pairs say.
#![tactic(auto, using(crate::proofs::Later::rel_later, crate::proofs::Later::given_stands))]

mod listing;
mod slow;
mod trial;
mod walks;

ghost use Rattle.std.specs.Prelude.{◌≤◌, IfOk};
ghost use Rattle.rel_model.specs.Relation.{size_limit};
ghost use Rattle.rel_model.specs.Worker.{Stands, Keeps};

use crate::grids::{cells_of, put, some_of, stepped};
use crate::made::of_pairs;
use rel_choice::{atom, count, dom, init, next, next_pair, point, ran, unival};
use rel_model::quads_trait::Quads;
use rel_model::{Lack, Rel, Shape};
use slow::{behind, cols_of, has_two_in_a_row, rows_of, vector};
use std::alloc::Global;
use std::process::Abort;
use trial::{Trial, on_a_crew};
use walks::walked;

/// Asserts that a relation with this shape and these pairs was answered.
fn is_given<Q: Quads>(
    rt: &impl Abort,
    alloc: Global,
    q: &mut Q,
    given: Result<Rel, Lack>,
    shape: Shape,
    pairs: &[(u32, u32)],
)
    requires { IfOk given (Stands (Q.worker q.old)) }
    ensures { Keeps (Q.worker q.old) (Q.worker q.new) }
{
    let Ok(r) = given else { panic!(rt; "no room") };
    assert!(rt; r.rows == shape.rows && r.cols == shape.cols);
    let found = walked(rt, alloc, q, r);
    assert!(rt; found.as_slice() == pairs, "{pairs:?}");
}

/// Asserts what the walk and the count over the relation of some pairs give.
fn is_counted<Q: Quads>(rt: &impl Abort, alloc: Global, q: &mut Q, r: Rel, pairs: &[(u32, u32)])
    requires { Stands (Q.worker q.old) r }
    ensures { Keeps (Q.worker q.old) (Q.worker q.new) }
{
    let found = walked(rt, alloc, q, r);
    assert!(rt; found.as_slice() == pairs, "{pairs:?}");
    assert!(rt; count(alloc, q, r) == Ok(pairs.len() as u64));
    assert!(rt; unival(q, r) == !has_two_in_a_row(pairs));
}

/// Asserts that the domain of the relation of some pairs is the vector of their rows.
fn has_its_rows<Q: Quads>(
    rt: &impl Abort,
    alloc: Global,
    q: &mut Q,
    r: Rel,
    rows: u32,
    pairs: &[(u32, u32)],
)
    requires { Stands (Q.worker q.old) r }
    ensures { Keeps (Q.worker q.old) (Q.worker q.new) }
{
    let met = rows_of(rt, alloc, pairs);
    let wanted = vector(rt, alloc, rows, &met);
    let given = dom(q, r);
    is_given(rt, alloc, q, given, Shape { rows, cols: 1 }, &wanted);
}

/// Asserts that the range of the relation of some pairs is the vector of their columns.
fn has_its_cols<Q: Quads>(
    rt: &impl Abort,
    alloc: Global,
    q: &mut Q,
    r: Rel,
    cols: u32,
    pairs: &[(u32, u32)],
)
    requires { Stands (Q.worker q.old) r }
    ensures { Keeps (Q.worker q.old) (Q.worker q.new) }
{
    let met = cols_of(rt, alloc, pairs);
    let wanted = vector(rt, alloc, cols, &met);
    let given = ran(q, r);
    is_given(
        rt,
        alloc,
        q,
        given,
        Shape {
            rows: cols,
            cols: 1,
        },
        &wanted,
    );
}

/// Asserts what each call answers on the relation of some pairs, which are listed by row and then by column.
fn is_right<Q: Quads>(rt: &impl Abort, alloc: Global, q: &mut Q, shape: Shape, pairs: &[(u32, u32)])
    requires row { shape.rows ≤ size_limit }
    requires col { shape.cols ≤ size_limit }
{
    let r = of_pairs(rt, q, shape, pairs);
    is_counted(rt, alloc, q, r, pairs);
    let first = pairs.len().min(1);
    let given = atom(q, r);
    is_given(rt, alloc, q, given, shape, &pairs[..first]);
    has_its_rows(rt, alloc, q, r, shape.rows, pairs);
    has_its_cols(rt, alloc, q, r, shape.cols, pairs);
}

/// The successors of the elements of a vector with this many rows.
fn one_up(rt: &impl Abort, alloc: Global, rows: u32, pairs: &[(u32, u32)]) -> Vec<(u32, u32)> {
    let mut up = Vec::new(alloc);
    'pairs: for (i, _) in pairs {
        if *i < rows && *i + 1 < rows {
            put(rt, &mut up, (*i + 1, 0));
        }
    }
    up
}

/// Asserts what the calls on vectors answer on the vector of some elements, which are listed in order.
fn is_right_of_vectors<Q: Quads>(
    rt: &impl Abort,
    alloc: Global,
    q: &mut Q,
    rows: u32,
    pairs: &[(u32, u32)],
)
    requires { rows ≤ size_limit }
{
    let shape = Shape { rows, cols: 1 };
    let v = of_pairs(rt, q, shape, pairs);
    let first = pairs.len().min(1);
    let given = point(q, v);
    is_given(rt, alloc, q, given, shape, &pairs[..first]);
    let given = init(q, v);
    is_given(rt, alloc, q, given, shape, &vector(rt, alloc, rows, &[0]));
    let up = one_up(rt, alloc, rows, pairs);
    let given = next(q, v);
    is_given(rt, alloc, q, given, shape, &up);
}

/// Asserts which pair of a relation comes after each place of its grid, and after the places one past it.
fn is_walked_from_each_place<Q: Quads>(
    rt: &impl Abort,
    q: &mut Q,
    shape: Shape,
    pairs: &[(u32, u32)],
)
    requires row { shape.rows ≤ 4 }
    requires col { shape.cols ≤ 4 }
{
    let r = of_pairs(rt, q, shape, pairs);
    'rows: for i in 0..shape.rows + 1 {
        'cols: for j in 0..shape.cols + 1 {
            let found = next_pair(q, r, Some((i, j)));
            assert!(rt; found == behind(pairs, i, j), "behind {i} {j} of {pairs:?}");
        }
    }
}

/// Asserts what each call answers on all relations of sizes up to 3.
pub(crate) fn up_to_3<Q: Quads>(rt: &impl Abort, alloc: Global, q: &mut Q) {
    'rows: for rows in 0..4 {
        'cols: for cols in 0..4 {
            'sets: for bits in 0..512 {
                if bits >> (rows * cols) != 0 {
                    break;
                }
                let shape = Shape { rows, cols };
                let pairs = cells_of(rt, alloc, shape, bits);
                is_right(rt, alloc, q, shape, &pairs);
                is_walked_from_each_place(rt, q, shape, &pairs);
            }
        }
    }
}

#[test]
fn all_relations_of_sizes_up_to_3_are_answered_as_by_lists(rt: HostRuntime) {
    on_a_crew(&rt, rt.alloc(), Trial::UpTo3);
}

/// Shapes with one size of 4 and one of at most 3.
const BY_AT_MOST_3: &[(u32, u32)] = &[
    (0, 4),
    (4, 0),
    (1, 4),
    (4, 1),
    (2, 4),
    (4, 2),
    (3, 4),
    (4, 3),
];

/// Asserts the same for all relations of size 4 by at most 3.
pub(crate) fn four_by_at_most_3<Q: Quads>(rt: &impl Abort, alloc: Global, q: &mut Q) {
    'shapes: for &(rows, cols) in BY_AT_MOST_3 {
        'sets: for bits in 0..4096 {
            assert!(rt; rows <= 4 && cols <= 4);
            if bits >> (rows * cols) != 0 {
                break;
            }
            let shape = Shape { rows, cols };
            let pairs = cells_of(rt, alloc, shape, bits);
            is_right(rt, alloc, q, shape, &pairs);
        }
    }
}

#[test]
fn all_relations_of_size_4_by_at_most_3_are_answered_as_by_lists(rt: HostRuntime) {
    on_a_crew(&rt, rt.alloc(), Trial::FourByAtMost3);
}

/// Asserts the same for one in sixteen relations of sizes 4 and 4.
pub(crate) fn four_by_4<Q: Quads>(rt: &impl Abort, alloc: Global, q: &mut Q) {
    let shape = Shape { rows: 4, cols: 4 };
    let mut state: u64 = 4;
    'sets: for _ in 0..4096 {
        state = stepped(state);
        let pairs = cells_of(rt, alloc, shape, (state >> 33) % 65_536);
        is_right(rt, alloc, q, shape, &pairs);
    }
}

#[test]
fn one_in_sixteen_relations_of_sizes_4_and_4_is_answered_as_by_lists(rt: HostRuntime) {
    on_a_crew(&rt, rt.alloc(), Trial::FourBy4);
}

/// Asserts what the calls on vectors answer on all vectors of up to 8 rows.
pub(crate) fn vectors<Q: Quads>(rt: &impl Abort, alloc: Global, q: &mut Q) {
    'sizes: for rows in 0..9 {
        'sets: for bits in 0..256 {
            if bits >> rows != 0 {
                break;
            }
            let pairs = cells_of(rt, alloc, Shape { rows, cols: 1 }, bits);
            is_right_of_vectors(rt, alloc, q, rows, &pairs);
        }
    }
}

#[test]
fn all_vectors_of_up_to_8_rows_are_answered_as_by_lists(rt: HostRuntime) {
    on_a_crew(&rt, rt.alloc(), Trial::Vectors);
}

/// Asserts what each call answers on relations that a generator picks.
pub(crate) fn pseudo_random<Q: Quads>(rt: &impl Abort, alloc: Global, q: &mut Q) {
    'shapes: for (rows, cols) in [
        (40, 40),
        (17, 33),
        (9, 8),
        (1, 40),
        (40, 1),
        (16, 1),
        (33, 1),
    ] {
        assert!(rt; rows <= 40 && cols <= 40);
        let shape = Shape { rows, cols };
        'choices: for (one_in, seed) in [(1, 1), (2, 2), (5, 3), (40, 4), (900, 5)] {
            let pairs = some_of(rt, alloc, shape, one_in, seed);
            is_right(rt, alloc, q, shape, &pairs);
            if cols == 1 {
                is_right_of_vectors(rt, alloc, q, rows, &pairs);
            }
        }
    }
}

#[test]
fn pseudo_random_relations_are_answered_as_by_lists(rt: HostRuntime) {
    on_a_crew(&rt, rt.alloc(), Trial::PseudoRandom);
}

/// Asserts what is counted and found in the full relation of the greatest sizes.
pub(crate) fn greatest<Q: Quads>(rt: &impl Abort, alloc: Global, q: &mut Q) {
    let side = 16_777_216;
    let Ok(full) = q.full(Shape {
        rows: side,
        cols: side,
    }) else {
        panic!(rt; "no room")
    };
    assert!(rt; count(alloc, q, full) == Ok(281_474_976_710_656));
    assert!(rt; next_pair(q, full, Some((side - 2, side - 1))) == Some((side - 1, 0)));
    assert!(rt; next_pair(q, full, Some((side - 1, side - 1))) == None);
    assert!(rt; !unival(q, full));
}

#[test]
fn a_full_relation_of_2_to_the_48_pairs_is_counted(rt: HostRuntime) {
    on_a_crew(&rt, rt.alloc(), Trial::Greatest);
}

/// The relation of 8 rows and this many columns whose last row is full.
fn last_of_8<Q: Quads>(rt: &impl Abort, q: &mut Q, cols: u32) -> Rel
    requires { cols ≤ size_limit }
    ensures { Stands (Q.worker q.new) result }
{
    let Ok(all) = q.full(Shape { rows: 1, cols }) else {
        panic!(rt; "no room")
    };
    let Ok(place) = q.single(Shape { rows: 8, cols: 1 }, 7, 0) else {
        panic!(rt; "no room")
    };
    let Ok(row) = q.compose(place, all) else {
        panic!(rt; "no room")
    };
    row
}

/// Asserts what is found in one row and in one column of the greatest size.
pub(crate) fn one_row_and_column<Q: Quads>(rt: &impl Abort, q: &mut Q) {
    let row = last_of_8(rt, q, 16_777_216);
    let Ok(column) = q.transpose(row) else {
        panic!(rt; "no room")
    };
    assert!(rt; next_pair(q, row, None) == Some((7, 0)));
    assert!(rt; next_pair(q, row, Some((6, 9))) == Some((7, 0)));
    assert!(rt; next_pair(q, column, None) == Some((0, 7)));
    assert!(rt; next_pair(q, column, Some((0, 7))) == Some((1, 7)));
    assert!(rt; unival(q, column) && !unival(q, row));
}

#[test]
fn the_pairs_of_one_row_and_of_one_column_of_the_greatest_size_are_found(rt: HostRuntime) {
    on_a_crew(&rt, rt.alloc(), Trial::OneRowAndColumn);
}
