//! The results of some calls of the language, as they are shown.
#![tactic(auto, using(rel_model::proofs::Workers::keeps_stands, rel_model::proofs::Workers::keeps_trans, rel_model::proofs::Workers::gives_stands))]

use crate::made::{are, table};
use fork_quads::{Crew, OpenGate};
use rel_engine::Works;
use rel_model::Shape;
use rel_model::core_trait::Core;
use rel_model::engine_trait::Engine;
use rel_model::faults::DomainError;
use run_model::outcome::Unit;
use rv_print::{PrintRefused, listing, matrix, shape_text};

#[test]
fn an_injection_of_no_element_has_no_row(rt: HostRuntime) {
    let alloc = rt.alloc();
    let (table, seat) = table(&rt, alloc);
    let gate = OpenGate;
    let mut engine = Works::new(Crew::new(&rt, &table, seat, 1, &gate));
    let Ok(none) = engine.empty(Shape { rows: 3, cols: 3 }) else {
        panic!(&rt; "refused")
    };
    let Ok(vector) = engine.dom(none) else {
        panic!(&rt; "refused")
    };
    let Ok(injection) = engine.inj(vector) else {
        panic!(&rt; "refused")
    };
    match shape_text(
        alloc,
        Shape {
            rows: injection.rows,
            cols: injection.cols,
        },
    ) {
        Ok(text) => are(&rt, text.as_slice(), "0 x 3\n"),
        Err(_) => panic!(&rt; "no type"),
    }
}

#[test]
fn a_projection_of_a_product_with_an_empty_factor_is_not_onto(rt: HostRuntime) {
    let alloc = rt.alloc();
    let (table, seat) = table(&rt, alloc);
    let gate = OpenGate;
    let mut engine = Works::new(Crew::new(&rt, &table, seat, 1, &gate));
    let Ok(first) = engine.first(2, 0) else {
        panic!(&rt; "refused")
    };
    match shape_text(
        alloc,
        Shape {
            rows: first.rows,
            cols: first.cols,
        },
    ) {
        Ok(text) => are(&rt, text.as_slice(), "0 x 2\n"),
        Err(_) => panic!(&rt; "no type"),
    }
    let Ok(turned) = engine.transpose(first) else {
        panic!(&rt; "refused")
    };
    let Ok(onto) = engine.compose(turned, first) else {
        panic!(&rt; "refused")
    };
    match matrix(alloc, &mut engine, onto) {
        Ok(text) => are(&rt, text.as_slice(), "2 x 2\n..\n..\n"),
        Err(_) => panic!(&rt; "no matrix"),
    }
}

#[test]
fn a_power_set_over_the_limit_is_refused_with_its_size(rt: HostRuntime) {
    let alloc = rt.alloc();
    let (table, seat) = table(&rt, alloc);
    let gate = OpenGate;
    let mut engine = Works::new(Crew::new(&rt, &table, seat, 1, &gate));
    let refused = DomainError::Size {
        wanted: 33_554_432,
        limit: 16_777_216,
    };
    assert!(&rt; engine.epsi(25) == Err(refused));
}

#[test]
fn a_matrix_and_a_listing_over_the_limit_are_refused_with_their_numbers(rt: HostRuntime) {
    let alloc = rt.alloc();
    let (table, seat) = table(&rt, alloc);
    let gate = OpenGate;
    let mut engine = Works::new(Crew::new(&rt, &table, seat, 1, &gate));
    let shape = Shape {
        rows: 2000,
        cols: 2000,
    };
    let Ok(none) = engine.empty(shape) else {
        panic!(&rt; "refused")
    };
    let cells = PrintRefused::TooLarge {
        wanted: 4_000_000,
        unit: Unit::Cells,
    };
    assert!(&rt; matrix(alloc, &mut engine, none) == Err(cells));
    let Ok(full) = engine.full(shape) else {
        panic!(&rt; "refused")
    };
    let pairs = PrintRefused::TooLarge {
        wanted: 4_000_000,
        unit: Unit::Pairs,
    };
    assert!(&rt; listing(alloc, &mut engine, full) == Err(pairs));
}
