//! Relations as they are shown: the worked examples of the formats, and the limits.
#![tactic(auto, using(rel_model::proofs::Workers::keeps_stands, rel_model::proofs::Workers::keeps_trans, rel_model::proofs::Workers::gives_stands))]

ghost use Rattle.rel_model.specs.Worker.{Stands, Keeps};

use crate::made::{are, table, told};
use fork_quads::{Crew, OpenGate};
use rel_engine::Works;
use rel_model::core_trait::Core;
use rel_model::engine_trait::Engine;
use rel_model::{Rel, Shape};
use run_model::outcome::Unit;
use rv_print::{PrintRefused, count_line, listing, matrix, shape_text};
use std::alloc::Global;
use std::process::Abort;

/// Asserts how a relation of listed pairs is shown.
fn is_shown<E: Engine>(
    rt: &impl Abort,
    alloc: Global,
    engine: &mut E,
    rows: u32,
    cols: u32,
    pairs: &[(u32, u32)],
    as_matrix: &str,
    as_listing: &str,
)
    ensures { Keeps (E.worker engine.old) (E.worker engine.new) }
{
    let rel = told(rt, alloc, engine, rows, cols, pairs);
    match matrix(alloc, engine, rel) {
        Ok(text) => are(rt, text.as_slice(), as_matrix),
        Err(_) => panic!(rt; "no matrix"),
    }
    match listing(alloc, engine, rel) {
        Ok(text) => are(rt, text.as_slice(), as_listing),
        Err(_) => panic!(rt; "no listing"),
    }
}

#[test]
fn rows_and_columns_stand_in_their_places(rt: HostRuntime) {
    let alloc = rt.alloc();
    let (table, seat) = table(&rt, alloc);
    let gate = OpenGate;
    let mut engine = Works::new(Crew::new(&rt, &table, seat, 1, &gate));
    'cases: for (rows, cols, pairs, as_matrix, as_listing) in [
        (0, 0, &[][..], "0 x 0\n", "0 x 0, pairs 0\n"),
        (0, 3, &[][..], "0 x 3\n", "0 x 3, pairs 0\n"),
        (2, 0, &[][..], "2 x 0\n\n\n", "2 x 0, pairs 0\n"),
        (1, 1, &[(0, 0)][..], "1 x 1\n1\n", "1 x 1, pairs 1\n1:1\n"),
        (
            3,
            3,
            &[(0, 1), (1, 2)][..],
            "3 x 3\n.1.\n..1\n...\n",
            "3 x 3, pairs 2\n1:2\n2:3\n",
        ),
        (
            4,
            4,
            &[(3, 3), (0, 0)][..],
            "4 x 4\n1...\n....\n....\n...1\n",
            "4 x 4, pairs 2\n1:1\n4:4\n",
        ),
        (
            2,
            11,
            &[(1, 0), (0, 10), (0, 8), (1, 9)][..],
            "2 x 11\n........1.1\n1........1.\n",
            "2 x 11, pairs 4\n1:9\n1:11\n2:1\n2:10\n",
        ),
        (
            10,
            2,
            &[(9, 1), (8, 0)][..],
            "10 x 2\n..\n..\n..\n..\n..\n..\n..\n..\n1.\n.1\n",
            "10 x 2, pairs 2\n9:1\n10:2\n",
        ),
    ] {
        is_shown(
            &rt,
            alloc,
            &mut engine,
            rows,
            cols,
            pairs,
            as_matrix,
            as_listing,
        );
    }
}

/// Asserts how the type and the number of pairs of a relation are shown.
fn is_counted<E: Engine>(
    rt: &impl Abort,
    alloc: Global,
    engine: &mut E,
    rel: Rel,
    shape: &str,
    count: &str,
)
    requires { Stands (E.worker engine.old) rel }
    ensures { Keeps (E.worker engine.old) (E.worker engine.new) }
{
    match shape_text(
        alloc,
        Shape {
            rows: rel.rows,
            cols: rel.cols,
        },
    ) {
        Ok(text) => are(rt, text.as_slice(), shape),
        Err(_) => panic!(rt; "no type"),
    }
    match count_line(alloc, engine, rel) {
        Ok(text) => are(rt, text.as_slice(), count),
        Err(_) => panic!(rt; "no count"),
    }
}

#[test]
fn types_and_numbers_of_pairs_are_lines(rt: HostRuntime) {
    let alloc = rt.alloc();
    let (table, seat) = table(&rt, alloc);
    let gate = OpenGate;
    let mut engine = Works::new(Crew::new(&rt, &table, seat, 1, &gate));
    let rel = told(&rt, alloc, &mut engine, 2, 3, &[(0, 0), (1, 2)]);
    is_counted(&rt, alloc, &mut engine, rel, "2 x 3\n", "2\n");
    match engine.epsi(10) {
        Ok(rel) => is_counted(&rt, alloc, &mut engine, rel, "10 x 1024\n", "5120\n"),
        Err(_) => panic!(rt; "refused"),
    }
}

#[test]
fn what_passes_a_limit_is_refused_and_what_meets_it_is_shown(rt: HostRuntime) {
    let alloc = rt.alloc();
    let (table, seat) = table(&rt, alloc);
    let gate = OpenGate;
    let mut engine = Works::new(Crew::new(&rt, &table, seat, 1, &gate));
    let Ok(full) = engine.full(Shape {
        rows: 2000,
        cols: 2000,
    }) else {
        panic!(rt; "refused")
    };
    assert!(&rt;
        matrix(alloc, &mut engine, full)
            == Err(PrintRefused::TooLarge {
                wanted: 4_000_000,
                unit: Unit::Cells,
            })
    );
    assert!(&rt;
        listing(alloc, &mut engine, full)
            == Err(PrintRefused::TooLarge {
                wanted: 4_000_000,
                unit: Unit::Pairs,
            })
    );
    let Ok(square) = engine.full(Shape {
        rows: 1024,
        cols: 1024,
    }) else {
        panic!(rt; "refused")
    };
    match matrix(alloc, &mut engine, square) {
        Ok(text) => assert_eq!(rt; text.len(), 12 + 1024 * 1025),
        Err(_) => panic!(rt; "the limit itself refused"),
    }
}
