//! Each operation on each pair of forms, compared with the membership formulas.
#![tactic(auto, using(rel_values::proofs::Operating::fits_stays, rel_values::proofs::Operating::given_fits, rel_values::proofs::Operating::whole_fits, rel_model::proofs::Workers::keeps_trans, rel_model::proofs::Workers::keeps_stands, rel_model::proofs::Workers::gives_stands))]

mod calls;
pub(crate) mod counts;
pub(crate) mod remembered;
pub(crate) mod scattered;

ghost use Rattle.std.specs.Prelude.{◌≡◌};
ghost use Rattle.rel_model.specs.Worker.{Stands, Keeps};
ghost use Rattle.rel_slices.specs.Thin.{value_rows, value_cols};
ghost use Rattle.rel_values.specs.Values.{Fits};

use crate::cells::{Given, Op, Sizes, has, left_of, left_shape, listed, right_shape};
use crate::made::{is_answer, of_pairs};
use crate::trial::{Trial, on_a_table};
use calls::answer_of;
use rel_model::faults::DomainError;
use rel_model::{Rel, Shape};
use rel_slices::{Remembers, Value, formed};
use rel_values::{empty, included, pair, same, whole};
use std::alloc::Global;
use std::process::Abort;
use std::thread::Threads;

/// A relation as a value: in the form of its sizes, or whole even if it is thin.
fn valued<E: Remembers>(rt: &impl Abort, engine: &mut E, r: Rel, is_formed: bool) -> Value
    requires { Stands (E.worker engine.old) r }
    ensures fits { Fits (E.worker engine.new) result }
    ensures rows { value_rows result ≡ r.rows }
    ensures cols { value_cols result ≡ r.cols }
    ensures keeps { Keeps (E.worker engine.old) (E.worker engine.new) }
{
    if !is_formed {
        return Value::Whole(r);
    }
    match formed(engine, r) {
        Ok(value) => value,
        Err(_) => panic!(rt; "no room"),
    }
}

/// A relation of these sizes as a value.
pub(crate) fn built<E: Remembers>(
    rt: &impl Abort,
    alloc: Global,
    engine: &mut E,
    given: Given,
    shape: Shape,
    is_formed: bool,
) -> Value
    ensures fits { Fits (E.worker engine.new) result }
    ensures rows { value_rows result ≡ shape.rows }
    ensures cols { value_cols result ≡ shape.cols }
    ensures keeps { Keeps (E.worker engine.old) (E.worker engine.new) }
{
    let pairs = listed(rt, alloc, given, shape);
    let r = of_pairs(rt, alloc, engine, shape, &pairs);
    valued(rt, engine, r, is_formed)
}

/// Asserts that an operation at these sizes, with operands in these forms, agrees with its membership formula.
fn agrees<E: Remembers>(
    rt: &impl Abort,
    alloc: Global,
    engine: &mut E,
    op: Op,
    sizes: Sizes,
    are_formed: (bool, bool),
) {
    let x = built(
        rt,
        alloc,
        engine,
        left_of(op),
        left_shape(op, sizes),
        are_formed.0,
    );
    let y = built(
        rt,
        alloc,
        engine,
        Given::Second,
        right_shape(op, sizes),
        are_formed.1,
    );
    let value = answer_of(rt, alloc, engine, op, sizes, &x, &y);
    match whole(engine, &value) {
        Ok(all) => is_answer(rt, engine, op, sizes, all),
        Err(_) => panic!(rt; "no room"),
    }
}

/// The same for each pair of forms.
pub(crate) fn in_each_form<E: Remembers>(
    rt: &impl Abort,
    alloc: Global,
    engine: &mut E,
    op: Op,
    sizes: Sizes,
) {
    'forms: for are_formed in [(false, false), (false, true), (true, false), (true, true)] {
        agrees(rt, alloc, engine, op, sizes, are_formed);
    }
}

/// Sizes just inside and just outside a form, for most operations.
const TRIED: &[(u32, u32, u32)] = &[
    (0, 0, 0),
    (0, 2, 300),
    (300, 0, 2),
    (1, 2, 1),
    (1, 257, 257),
    (257, 257, 1),
    (2, 257, 63),
    (3, 300, 65),
    (63, 2, 257),
    (64, 65, 256),
    (64, 65, 257),
    (65, 3, 257),
    (65, 300, 3),
    (255, 1, 64),
    (256, 2, 64),
    (257, 2, 64),
    (257, 3, 65),
    (257, 3, 258),
];

/// Tries some operations with an engine at all these sizes.
fn at_all_sizes<R: Threads + Abort + Sync>(rt: &R, alloc: Global, ops: &[Op]) {
    'operations: for op in ops {
        'sizes: for (k, m, n) in TRIED {
            let sizes = Sizes {
                k: *k,
                m: *m,
                n: *n,
            };
            on_a_table(rt, alloc, Trial::Values(*op, sizes));
        }
    }
}

#[test]
fn boolean_operators_have_the_pairs_of_their_clauses(rt: HostRuntime) {
    at_all_sizes(
        &rt,
        rt.alloc(),
        &[Op::Union, Op::Inter, Op::Complement, Op::Full, Op::Empty],
    );
}

#[test]
fn turned_values_have_the_pairs_of_their_clause(rt: HostRuntime) {
    let turns = [Op::Turned(0), Op::Turned(1), Op::Turned(2), Op::Turned(7)];
    at_all_sizes(&rt, rt.alloc(), &turns);
}

#[test]
fn compositions_and_residuals_have_the_pairs_of_their_clauses(rt: HostRuntime) {
    at_all_sizes(
        &rt,
        rt.alloc(),
        &[Op::Compose, Op::ComposeTurned, Op::Right, Op::Left, Op::Syq],
    );
}

#[test]
fn vectors_and_choices_have_the_pairs_of_their_clauses(rt: HostRuntime) {
    at_all_sizes(&rt, rt.alloc(), &[Op::Dom, Op::Ran, Op::Atom]);
    at_all_sizes(&rt, rt.alloc(), &[Op::Point, Op::Init, Op::Next, Op::Inj]);
}

#[test]
fn bounds_and_extremes_have_the_pairs_of_their_clauses(rt: HostRuntime) {
    let alloc = rt.alloc();
    'sizes: for (k, n) in [
        (0, 2),
        (1, 1),
        (2, 300),
        (63, 257),
        (64, 65),
        (257, 3),
        (300, 1),
    ] {
        let sizes = Sizes { k, m: 0, n };
        'operations: for op in [
            Op::Upper,
            Op::Lower,
            Op::Least,
            Op::Greatest,
            Op::Suprema,
            Op::Infima,
        ] {
            on_a_table(&rt, alloc, Trial::Values(op, sizes));
        }
    }
}

#[test]
fn memberships_and_pairings_have_the_pairs_of_their_clauses(rt: HostRuntime) {
    let alloc = rt.alloc();
    'elements: for (k, n) in [(0, 1), (1, 2), (8, 256), (9, 512), (10, 1024)] {
        on_a_table(&rt, alloc, Trial::Values(Op::Epsi, Sizes { k, m: 0, n }));
    }
    'sizes: for (k, m, n) in [
        (0, 2, 300),
        (2, 0, 300),
        (1, 1, 1),
        (1, 257, 2),
        (2, 3, 257),
        (63, 2, 130),
        (65, 4, 65),
        (257, 1, 64),
        (300, 2, 3),
    ] {
        on_a_table(&rt, alloc, Trial::Values(Op::Pair, Sizes { k, m, n }));
    }
    on_a_table(&rt, alloc, Trial::TooWide);
}

/// Asserts that a pairing with too many columns is refused, with its size.
pub(crate) fn is_too_wide<E: Remembers>(rt: &impl Abort, engine: &mut E) {
    let shape = Shape {
        rows: 2,
        cols: 1 << 13,
    };
    let Ok(x) = empty(engine, shape) else {
        panic!(rt; "no room")
    };
    let answer = pair(engine, &x, &x);
    let Err(fault) = answer else {
        panic!(rt; "too wide")
    };
    let size = DomainError::Size {
        wanted: 1 << 26,
        limit: 1 << 24,
    };
    assert!(rt; fault == size);
}

/// Whether each pair of the first relation, within these sizes, is also in the second.
fn lies_within(x: Given, y: Given, shape: Shape) -> bool {
    (0..shape.rows).all(|i| (0..shape.cols).all(|j| !has(x, i, j) || has(y, i, j)))
}

/// Asserts what the tests of two relations of one type, in these forms, answer.
fn test_agrees<E: Remembers>(
    rt: &impl Abort,
    alloc: Global,
    engine: &mut E,
    shape: Shape,
    which: (Given, Given),
    are_formed: (bool, bool),
) {
    let x = built(rt, alloc, engine, which.0, shape, are_formed.0);
    let y = built(rt, alloc, engine, which.1, shape, are_formed.1);
    let Ok(yes) = included(engine, &x, &y) else {
        panic!(rt; "no room")
    };
    let within = lies_within(which.0, which.1, shape);
    assert!(rt; yes == within, "{shape:?} {which:?} {are_formed:?}");
    let x = built(rt, alloc, engine, which.0, shape, are_formed.0);
    let y = built(rt, alloc, engine, which.1, shape, are_formed.1);
    let Ok(alike) = same(engine, &x, &y) else {
        panic!(rt; "no room")
    };
    let over = lies_within(which.1, which.0, shape);
    assert!(rt;
        alike == (within && over),
        "{shape:?} {which:?} {are_formed:?}"
    );
}

/// The same for each pair of forms.
pub(crate) fn tests_agree<E: Remembers>(
    rt: &impl Abort,
    alloc: Global,
    engine: &mut E,
    shape: Shape,
) {
    'forms: for are_formed in [(false, false), (false, true), (true, false), (true, true)] {
        'relations: for which in [
            (Given::First, Given::First),
            (Given::First, Given::Second),
            (Given::Both, Given::Second),
            (Given::First, Given::Both),
        ] {
            test_agrees(rt, alloc, engine, shape, which, are_formed);
        }
    }
}

#[test]
fn equality_and_inclusion_are_told_by_their_clauses(rt: HostRuntime) {
    let alloc = rt.alloc();
    'sizes: for (rows, _, cols) in TRIED {
        let shape = Shape {
            rows: *rows,
            cols: *cols,
        };
        on_a_table(&rt, alloc, Trial::Tests(shape));
    }
}
