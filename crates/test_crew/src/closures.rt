//! Closures of dense squares, which go by rows of bits, compared with closures by squaring.
#![tactic(auto, using(rel_model::proofs::Workers::keeps_stands, rel_model::proofs::Workers::keeps_trans, rel_model::proofs::Workers::gives_stands))]

ghost use Rattle.std.specs.Prelude.{◌≤◌, ◌<◌};

use crate::forks::{scattered, table_for};
use crate::twins::given;
use fork_quads::{Crew, OpenGate};
use rel_closure::{trans, trans_by_quarters};
use rel_model::Shape;
use rel_model::quads_trait::Quads;
use std::process::Abort;

/// Asserts that both ways give the same closure of a graph with two pseudo-random edges for each vertex.
fn ways_agree<Q: Quads>(rt: &impl Abort, quads: &mut Q, vertices: u32)
    requires some { 0 < vertices }
    requires few { vertices ≤ 4096 }
{
    let shape = Shape {
        rows: vertices,
        cols: vertices,
    };
    let r = scattered(rt, quads, shape, 2 * vertices, 1);
    let quick = given(rt, trans_by_quarters(quads, r));
    let slow = given(rt, trans(quads, r));
    assert!(rt; quads.same(quick, slow));
}

#[test]
fn dense_squares_are_closed_by_rows_as_by_squares(rt: HostRuntime) {
    let (table, seat) = table_for(&rt, rt.alloc(), 1);
    let mut crew = Crew::new(&rt, &table, seat, 1, &OpenGate);
    'sizes: for vertices in [33, 64, 100, 256, 300, 513] {
        ways_agree(&rt, &mut crew, vertices);
    }
}
