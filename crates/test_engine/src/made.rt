//! Relations made of listed pairs, and whether a relation has the pairs of an answer.
#![tactic(auto, using(rel_model::proofs::Workers::keeps_trans, rel_model::proofs::Workers::keeps_stands, rel_model::proofs::Workers::gives_stands))]

ghost use Rattle.std.specs.Prelude.{◌≡◌, ◌≤◌};
ghost use Rattle.rel_model.specs.Worker.{Stands, Keeps};

use crate::cells::{Op, Sizes, answer_shape, answers};
use crate::lists::lie_within;
use rel_model::engine_trait::Engine;
use rel_model::{Rel, SIZE_LIMIT, Shape};
use std::alloc::Global;
use std::process::Abort;

/// The relation of listed pairs.
pub(crate) fn of_pairs<E: Engine>(
    rt: &impl Abort,
    alloc: Global,
    engine: &mut E,
    shape: Shape,
    pairs: &[(u32, u32)],
) -> Rel
    ensures standing { Stands (E.worker engine.new) result }
    ensures rows { result.rows ≡ shape.rows }
    ensures cols { result.cols ≡ shape.cols }
    ensures keeps { Keeps (E.worker engine.old) (E.worker engine.new) }
{
    assert!(rt; shape.rows <= SIZE_LIMIT && shape.cols <= SIZE_LIMIT);
    assert!(rt; lie_within(pairs, shape));
    match engine.from_pairs(alloc, shape, pairs) {
        Ok(rel) => rel,
        Err(_) => panic!(rt; "refused"),
    }
}

/// Asserts that a relation has the sizes and exactly the pairs that the answer should have.
pub(crate) fn is_answer<E: Engine>(rt: &impl Abort, engine: &mut E, op: Op, sizes: Sizes, all: Rel)
    requires { Stands (E.worker engine.old) all }
    ensures { Keeps (E.worker engine.old) (E.worker engine.new) }
{
    let shape = answer_shape(op, sizes);
    assert!(rt;
        all.rows == shape.rows && all.cols == shape.cols,
        "{op:?} of {sizes:?}"
    );
    'rows: for i in 0..all.rows {
        'columns: for j in 0..all.cols {
            let found = engine.has(all, i, j);
            assert!(rt;
                found == answers(op, sizes, i, j),
                "{op:?} of {sizes:?}: {i}, {j}"
            );
        }
    }
}
