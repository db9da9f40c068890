//! Writing relations: small files byte for byte, and the limit.
#![tactic(auto, using(rel_model::proofs::Workers::keeps_stands, rel_model::proofs::Workers::keeps_trans, rel_model::proofs::Workers::gives_stands))]

ghost use Rattle.rel_model.specs.Worker.{Stands, Keeps};

use crate::made::told;
use crate::trial::{Trial, on_an_engine};
use k2_file::{WriteRefused, write_k2};
use rel_model::core_trait::Core;
use rel_model::engine_trait::Engine;
use rel_model::{Rel, Shape};
use std::alloc::Global;
use std::process::Abort;

/// Asserts the bytes of a file of listed pairs.
fn is_written<E: Engine>(
    rt: &impl Abort,
    alloc: Global,
    engine: &mut E,
    rows: u32,
    cols: u32,
    pairs: &[(u32, u32)],
    wanted: &[u8],
)
    ensures { Keeps (E.worker engine.old) (E.worker engine.new) }
{
    let rel = told(rt, alloc, engine, rows, cols, pairs);
    match write_k2(alloc, engine, rel) {
        Ok(bytes) => assert!(rt; bytes.as_slice() == wanted, "{bytes:?}"),
        Err(_) => panic!(rt; "not written"),
    }
}

/// Sizes, pairs within them, and the file of the relation.
const WRITTEN: &[(u32, u32, &[(u32, u32)], &[u8])] = &[
    (
        0,
        0,
        &[],
        &[
            82, 86, 75, 49, 0, 0, 0, 0, 0, 0, 0, 0, 1, 0, 0, 0, 0, 0, 0, 0, 0, 0, 0, 0, 0, 0, 0, 0,
            0,
        ],
    ),
    (
        0,
        3,
        &[],
        &[
            82, 86, 75, 49, 0, 0, 0, 0, 0, 0, 0, 3, 2, 0, 0, 0, 0, 0, 0, 0, 0, 0, 0, 0, 0, 0, 0, 0,
            0,
        ],
    ),
    (
        1,
        1,
        &[],
        &[
            82, 86, 75, 49, 0, 0, 0, 1, 0, 0, 0, 1, 1, 0, 0, 0, 0, 0, 0, 0, 0, 0, 0, 0, 0, 0, 0, 0,
            0,
        ],
    ),
    (
        1,
        1,
        &[(0, 0)],
        &[
            82, 86, 75, 49, 0, 0, 0, 1, 0, 0, 0, 1, 1, 0, 0, 0, 0, 0, 0, 0, 0, 0, 0, 0, 0, 0, 0, 0,
            4, 128,
        ],
    ),
    (
        2,
        2,
        &[(0, 1)],
        &[
            82, 86, 75, 49, 0, 0, 0, 2, 0, 0, 0, 2, 1, 0, 0, 0, 0, 0, 0, 0, 0, 0, 0, 0, 0, 0, 0, 0,
            4, 64,
        ],
    ),
    (
        2,
        2,
        &[(0, 1), (1, 0)],
        &[
            82, 86, 75, 49, 0, 0, 0, 2, 0, 0, 0, 2, 1, 0, 0, 0, 0, 0, 0, 0, 0, 0, 0, 0, 0, 0, 0, 0,
            4, 96,
        ],
    ),
    (
        4,
        4,
        &[(0, 0), (3, 3)],
        &[
            82, 86, 75, 49, 0, 0, 0, 4, 0, 0, 0, 4, 2, 0, 0, 0, 0, 0, 0, 0, 4, 0, 0, 0, 0, 0, 0, 0,
            8, 144, 129,
        ],
    ),
    (
        3,
        5,
        &[(0, 4), (2, 0), (2, 1)],
        &[
            82, 86, 75, 49, 0, 0, 0, 3, 0, 0, 0, 5, 3, 0, 0, 0, 0, 0, 0, 0, 12, 0, 0, 0, 0, 0, 0,
            0, 8, 194, 128, 200,
        ],
    ),
    (
        16,
        1,
        &[(15, 0)],
        &[
            82, 86, 75, 49, 0, 0, 0, 16, 0, 0, 0, 1, 4, 0, 0, 0, 0, 0, 0, 0, 12, 0, 0, 0, 0, 0, 0,
            0, 4, 34, 32, 32,
        ],
    ),
    (
        1,
        16,
        &[(0, 8)],
        &[
            82, 86, 75, 49, 0, 0, 0, 1, 0, 0, 0, 16, 4, 0, 0, 0, 0, 0, 0, 0, 12, 0, 0, 0, 0, 0, 0,
            0, 4, 72, 128, 128,
        ],
    ),
    (
        9,
        9,
        &[(0, 8), (8, 0), (8, 8), (3, 3)],
        &[
            82, 86, 75, 49, 0, 0, 0, 9, 0, 0, 0, 9, 4, 0, 0, 0, 0, 0, 0, 0, 36, 0, 0, 0, 0, 0, 0,
            0, 16, 248, 136, 129, 136, 128, 24, 136,
        ],
    ),
    (
        40,
        33,
        &[(39, 32), (0, 0), (17, 5), (8, 31)],
        &[
            82, 86, 75, 49, 0, 0, 0, 40, 0, 0, 0, 33, 6, 0, 0, 0, 0, 0, 0, 0, 60, 0, 0, 0, 0, 0, 0,
            0, 16, 158, 136, 24, 136, 68, 40, 72, 32, 132, 18,
        ],
    ),
];

/// Asserts the files of small relations byte for byte.
pub(crate) fn small_relations<E: Engine>(rt: &impl Abort, alloc: Global, engine: &mut E) {
    'cases: for &(rows, cols, pairs, wanted) in WRITTEN {
        is_written(rt, alloc, engine, rows, cols, pairs, wanted);
    }
}

#[test]
fn small_relations_are_written_byte_for_byte(rt: HostRuntime) {
    on_an_engine(&rt, rt.alloc(), Trial::SmallRelations);
}

/// Asserts how long the file of a relation is, or how many bits it would have.
fn is_long<E: Engine>(
    rt: &impl Abort,
    alloc: Global,
    engine: &mut E,
    rel: Rel,
    wanted: Result<usize, u64>,
)
    requires { Stands (E.worker engine.old) rel }
    ensures { Keeps (E.worker engine.old) (E.worker engine.new) }
{
    match write_k2(alloc, engine, rel) {
        Ok(bytes) => assert!(rt; Ok(bytes.len()) == wanted),
        Err(WriteRefused::TooLong { bits }) => assert!(rt; Err(bits) == wanted),
        Err(WriteRefused::NoMemory) => panic!(rt; "no memory"),
    }
}

/// Asserts that full squares are written up to the limit, and refused above it.
pub(crate) fn past_the_limit<E: Engine>(rt: &impl Abort, alloc: Global, engine: &mut E) {
    'cases: for (side, wanted) in [
        (4096, Ok(29 + 699_051 + 2_097_152)),
        (8192, Err(89_478_484)),
        (1_048_576, Err(1_466_015_503_700)),
        (16_777_216, Err(375_299_968_947_540)),
    ] {
        let Ok(full) = engine.full(Shape {
            rows: side,
            cols: side,
        }) else {
            panic!(rt; "refused")
        };
        is_long(rt, alloc, engine, full, wanted);
    }
}

#[test]
fn what_passes_the_limit_is_refused_with_its_bits(rt: HostRuntime) {
    on_an_engine(&rt, rt.alloc(), Trial::PastTheLimit);
}
