//! Relations of a crew and of a plain worker side by side.
#![tactic(auto, using(rel_model::proofs::Workers::keeps_stands, rel_model::proofs::Workers::keeps_trans, rel_model::proofs::Workers::gives_stands, crate::proofs::Later::given_stands))]

ghost use Rattle.std.specs.Prelude.{◌≡◌, ◌<◌, ◌≤◌};
ghost use Rattle.rel_model.specs.Relation.{size_limit};
ghost use Rattle.rel_model.specs.Worker.{Stands, Keeps};

use rel_model::core_trait::Core;
use rel_model::{Lack, Rel, Shape};
use std::process::Abort;

/// A plain relation of some pseudo-random pairs.
pub(crate) fn plain_of<P: Core>(
    rt: &impl Abort,
    plain: &mut P,
    shape: Shape,
    count: u32,
    seed: u64,
) -> Rel
    requires row { shape.rows ≤ 40 }
    requires col { shape.cols ≤ 40 }
    requires some_row { 0 < shape.rows }
    requires some_col { 0 < shape.cols }
    ensures standing { Stands (P.worker plain.new) result }
    ensures rows { result.rows ≡ shape.rows }
    ensures cols { result.cols ≡ shape.cols }
    ensures keeps { Keeps (P.worker plain.old) (P.worker plain.new) }
{
    let Ok(mut r) = plain.empty(shape) else {
        panic!(rt; "no memory")
    };
    let mut state = seed;
    'pairs: for _ in 0..count {
        state = state
            .wrapping_mul(6364136223846793005)
            .wrapping_add(1442695040888963407);
        let i = ((state >> 33) % shape.rows as u64) as u32;
        let j = ((state >> 48) % shape.cols as u64) as u32;
        let Ok(pair) = plain.single(shape, i, j) else {
            panic!(rt; "no memory")
        };
        let Ok(more) = plain.union(r, pair) else {
            panic!(rt; "no memory")
        };
        r = more;
    }
    r
}

/// One relation, in a crew and in a plain worker.
#[derive(Clone, Copy)]
pub(crate) struct Twin {
    pub(crate) crew: Rel,
    pub(crate) plain: Rel,
}

/// The answer of an operator that is not refused.
pub(crate) fn given(rt: &impl Abort, answer: Result<Rel, Lack>) -> Rel
    ensures { answer ≡ Ok result }
{
    match answer {
        Ok(rel) => rel,
        Err(_) => panic!(rt; "refused"),
    }
}

/// A relation with one more pair.
pub(crate) fn with_pair<C: Core>(rt: &impl Abort, core: &mut C, r: Rel, i: u32, j: u32) -> Rel
    requires standing { Stands (C.worker core.old) r }
    requires row { i < r.rows }
    requires col { j < r.cols }
    ensures standing { Stands (C.worker core.new) result }
    ensures rows { result.rows ≡ r.rows }
    ensures cols { result.cols ≡ r.cols }
    ensures keeps { Keeps (C.worker core.old) (C.worker core.new) }
{
    let shape = Shape {
        rows: r.rows,
        cols: r.cols,
    };
    let one = given(rt, core.single(shape, i, j));
    given(rt, core.union(r, one))
}

/// The relation of a number: its bits, lowest first, say row by row which pairs are in it.
pub(crate) fn of_number<C: Core>(rt: &impl Abort, core: &mut C, shape: Shape, number: u32) -> Rel
    requires row { shape.rows ≤ size_limit }
    requires col { shape.cols ≤ size_limit }
    ensures standing { Stands (C.worker core.new) result }
    ensures rows { result.rows ≡ shape.rows }
    ensures cols { result.cols ≡ shape.cols }
    ensures keeps { Keeps (C.worker core.old) (C.worker core.new) }
{
    let mut r = given(rt, core.empty(shape));
    let mut left = number;
    'rows: for i in 0..shape.rows {
        'cols: for j in 0..shape.cols {
            if left % 2 == 1 {
                r = with_pair(rt, core, r, i, j);
            }
            left /= 2;
        }
    }
    r
}

/// Asserts that a relation of one worker and one of another have the same pairs.
pub(crate) fn same_pairs<C: Core, P: Core>(
    rt: &impl Abort,
    crew: &mut C,
    plain: &mut P,
    r: Rel,
    p: Rel,
)
    requires standing { Stands (C.worker crew.old) r }
    requires plain_standing { Stands (P.worker plain.old) p }
    ensures keeps { Keeps (C.worker crew.old) (C.worker crew.new) }
    ensures plain_keeps { Keeps (P.worker plain.old) (P.worker plain.new) }
{
    assert!(rt; r.rows == p.rows && r.cols == p.cols, "other sizes");
    'rows: for i in 0..r.rows {
        'cols: for j in 0..r.cols {
            let found = crew.has(r, i, j);
            assert!(rt; found == plain.has(p, i, j), "at {i}, {j}");
        }
    }
    assert!(rt; crew.is_empty(r) == plain.is_empty(p));
}
