//! Membership as lines; and relations brought into the form of their sizes, then made whole again.
#![tactic(auto, using(rel_model::proofs::Workers::keeps_stands, rel_slices::proofs::Valuing::value_stays, rel_slices::proofs::Putting::lines_stand))]

use crate::cells::{Given, Op, Sizes};
use crate::made::is_answer;
use crate::slices::operands::whole;
use crate::trial::{Trial, on_a_table};
use rel_model::Shape;
use rel_model::engine_trait::Engine;
use rel_slices::{assembled, formed, made_whole, member_lines};
use std::process::Abort;

/// Asserts that element i is in subset s exactly if bit i of s is 1.
pub(crate) fn is_membership<E: Engine>(rt: &impl Abort, engine: &mut E, x: u32) {
    assert!(rt; x >= 3 && x <= 12);
    let Ok(lines) = member_lines(engine, x) else {
        panic!(rt; "no room")
    };
    let Ok(all) = assembled(engine, &lines) else {
        panic!(rt; "no room")
    };
    let subsets: u32 = 1 << x;
    let sizes = Sizes {
        k: x,
        m: 0,
        n: subsets,
    };
    is_answer(rt, engine, Op::Epsi, sizes, all);
}

/// Asserts that a relation has its old name again after it was cut into lines if thin, and made whole.
pub(crate) fn comes_back<E: Engine>(rt: &impl Abort, engine: &mut E, shape: Shape) {
    let r = whole(rt, engine, Given::First, shape);
    let Ok(value) = formed(engine, r) else {
        panic!(rt; "no room")
    };
    let Ok(all) = made_whole(engine, &value) else {
        panic!(rt; "no room")
    };
    assert!(rt; all == r, "{shape:?}");
}

/// Sizes just inside and just outside a form, and some with many lines.
const SHAPES: &[Shape] = &[
    Shape { rows: 1, cols: 1 },
    Shape { rows: 1, cols: 257 },
    Shape { rows: 2, cols: 256 },
    Shape {
        rows: 65,
        cols: 257,
    },
    Shape {
        rows: 100,
        cols: 257,
    },
    Shape {
        rows: 112,
        cols: 257,
    },
    Shape {
        rows: 113,
        cols: 257,
    },
    Shape { rows: 256, cols: 1 },
    Shape { rows: 257, cols: 1 },
    Shape { rows: 300, cols: 3 },
    Shape {
        rows: 257,
        cols: 65,
    },
    Shape {
        rows: 300,
        cols: 100,
    },
    Shape {
        rows: 257,
        cols: 112,
    },
    Shape {
        rows: 257,
        cols: 113,
    },
];

#[test]
fn membership_is_the_bits_of_the_subsets(rt: HostRuntime) {
    for x in [3, 8, 9, 12] {
        on_a_table(&rt, rt.alloc(), Trial::Membership(x));
    }
}

#[test]
fn a_relation_that_is_cut_and_made_whole_has_its_name_again(rt: HostRuntime) {
    for shape in SHAPES {
        on_a_table(&rt, rt.alloc(), Trial::BackAndForth(*shape));
    }
}
