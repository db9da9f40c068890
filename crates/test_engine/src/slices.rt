//! Each operation on each pair of forms, compared with the membership formulas.
#![tactic(auto, using(rel_model::proofs::Workers::keeps_stands, rel_slices::proofs::Valuing::value_stays))]

pub(crate) mod forms;
mod operands;
mod recalled;

ghost use Rattle.std.specs.Prelude.{◌≡◌};
ghost use Rattle.rel_model.specs.Worker.{Keeps};
ghost use Rattle.rel_slices.specs.Thin.{ValueStands, HasForm};

use crate::cells::{Given, Op, Sizes, left_shape, right_shape};
use crate::made::is_answer;
use crate::trial::{Trial, on_a_table};
use operands::built;
use rel_model::Shape;
use rel_slices::{
    Boole, Remembers, Value, boole, complement, compose, included, is_empty, left, made_whole,
    right, same, shape_of, syq, transpose,
};
use std::alloc::Global;
use std::process::Abort;
use std::thread::Threads;

/// The answer of an operation.
fn answer_of<E: Remembers>(
    rt: &impl Abort,
    alloc: Global,
    engine: &mut E,
    op: Op,
    x: &Value,
    y: &Value,
) -> Value
    requires left { ValueStands (E.worker engine.old) x.now }
    requires right { ValueStands (E.worker engine.old) y.now }
    requires left_form { HasForm x.now }
    requires right_form { HasForm y.now }
    ensures standing { ValueStands (E.worker engine.new) result }
    ensures keeps { Keeps (E.worker engine.old) (E.worker engine.new) }
{
    let a = shape_of(x);
    let b = shape_of(y);
    let given = match op {
        Op::Union | Op::Inter | Op::Diff => {
            assert!(rt; a.rows == b.rows && a.cols == b.cols);
            let which = match op {
                Op::Union => Boole::Union,
                Op::Inter => Boole::Inter,
                _ => Boole::Diff,
            };
            boole(engine, which, x, y)
        }
        Op::Compose => {
            assert!(rt; a.cols == b.rows);
            compose(alloc, engine, x, y)
        }
        _ => return residual(rt, alloc, engine, op, x, y),
    };
    match given {
        Ok(value) => value,
        Err(_) => panic!(rt; "no room"),
    }
}

/// The same for residuals and the symmetric quotient.
fn residual<E: Remembers>(
    rt: &impl Abort,
    alloc: Global,
    engine: &mut E,
    op: Op,
    x: &Value,
    y: &Value,
) -> Value
    requires left { ValueStands (E.worker engine.old) x.now }
    requires right { ValueStands (E.worker engine.old) y.now }
    requires left_form { HasForm x.now }
    requires right_form { HasForm y.now }
    ensures standing { ValueStands (E.worker engine.new) result }
    ensures keeps { Keeps (E.worker engine.old) (E.worker engine.new) }
{
    let a = shape_of(x);
    let b = shape_of(y);
    let given = match op {
        Op::Right => {
            assert!(rt; a.rows == b.rows);
            right(alloc, engine, x, y)
        }
        Op::Left => {
            assert!(rt; a.cols == b.cols);
            left(alloc, engine, x, y)
        }
        Op::Syq => {
            assert!(rt; a.rows == b.rows);
            syq(alloc, engine, x, y)
        }
        _ => panic!(rt; "{op:?} is not tried"),
    };
    match given {
        Ok(value) => value,
        Err(_) => panic!(rt; "no room"),
    }
}

/// Asserts that an operation at these sizes agrees with its membership formula.
pub(crate) fn agrees<E: Remembers>(
    rt: &impl Abort,
    alloc: Global,
    engine: &mut E,
    op: Op,
    sizes: Sizes,
) {
    let x = built(rt, engine, Given::First, left_shape(op, sizes));
    let y = built(rt, engine, Given::Second, right_shape(op, sizes));
    let value = answer_of(rt, alloc, engine, op, &x, &y);
    let Ok(all) = made_whole(engine, &value) else {
        panic!(rt; "no room")
    };
    is_answer(rt, engine, op, sizes, all);
}

/// Sizes for each pair of forms, with sides just inside and just outside a form, and with the most lines that a
/// relation may have.
const TRIED: &[Sizes] = &[
    Sizes { k: 1, m: 2, n: 1 },
    Sizes {
        k: 65,
        m: 2,
        n: 112,
    },
    Sizes {
        k: 112,
        m: 113,
        n: 257,
    },
    Sizes {
        k: 2,
        m: 257,
        n: 100,
    },
    Sizes {
        k: 257,
        m: 2,
        n: 112,
    },
    Sizes {
        k: 257,
        m: 3,
        n: 258,
    },
    Sizes {
        k: 257,
        m: 65,
        n: 258,
    },
    Sizes {
        k: 113,
        m: 3,
        n: 257,
    },
    Sizes {
        k: 257,
        m: 3,
        n: 113,
    },
    Sizes {
        k: 3,
        m: 300,
        n: 113,
    },
    Sizes {
        k: 113,
        m: 300,
        n: 3,
    },
    Sizes {
        k: 100,
        m: 300,
        n: 112,
    },
    Sizes {
        k: 257,
        m: 257,
        n: 1,
    },
    Sizes {
        k: 1,
        m: 257,
        n: 257,
    },
];

/// Asserts that an operation agrees with its membership formula at all these sizes.
fn at_all_sizes<R: Threads + Abort + Sync>(rt: &R, alloc: Global, op: Op) {
    for sizes in TRIED {
        on_a_table(rt, alloc, Trial::Slices(op, *sizes));
    }
}

#[test]
fn unions_intersections_and_differences_have_the_pairs_of_their_clauses(rt: HostRuntime) {
    at_all_sizes(&rt, rt.alloc(), Op::Union);
    at_all_sizes(&rt, rt.alloc(), Op::Inter);
    at_all_sizes(&rt, rt.alloc(), Op::Diff);
}

#[test]
fn compositions_have_the_pairs_of_their_clause(rt: HostRuntime) {
    at_all_sizes(&rt, rt.alloc(), Op::Compose);
}

#[test]
fn residuals_and_quotients_have_the_pairs_of_their_clauses(rt: HostRuntime) {
    at_all_sizes(&rt, rt.alloc(), Op::Right);
    at_all_sizes(&rt, rt.alloc(), Op::Left);
    at_all_sizes(&rt, rt.alloc(), Op::Syq);
}

/// Asserts which pairs the complement and the transposition of the first relation have at these sizes, and how it
/// compares with itself and with its complement.
pub(crate) fn one_agrees<E: Remembers>(rt: &impl Abort, engine: &mut E, shape: Shape) {
    let x = built(rt, engine, Given::First, shape);
    let Ok(rest) = complement(engine, &x) else {
        panic!(rt; "no room")
    };
    let Ok(turned) = transpose(engine, &x) else {
        panic!(rt; "no room")
    };
    assert!(rt; same(engine, &x, &x));
    assert!(rt; !same(engine, &x, &rest));
    assert!(rt; included(engine, &x, &x) == Ok(true));
    assert!(rt; !is_empty(engine, &x));
    let Ok(all) = made_whole(engine, &rest) else {
        panic!(rt; "no room")
    };
    let Ok(back) = made_whole(engine, &turned) else {
        panic!(rt; "no room")
    };
    let sizes = Sizes {
        k: shape.rows,
        m: 0,
        n: shape.cols,
    };
    is_answer(rt, engine, Op::Complement, sizes, all);
    is_answer(rt, engine, Op::Turned(1), sizes, back);
}

#[test]
fn complements_transpositions_and_tests_have_the_pairs_of_their_clauses(rt: HostRuntime) {
    for sizes in TRIED {
        let Sizes { k, m: _, n } = *sizes;
        on_a_table(&rt, rt.alloc(), Trial::Slice(Shape { rows: k, cols: n }));
    }
}
