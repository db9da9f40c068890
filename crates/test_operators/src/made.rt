//! Relations made of pairs, and whether a relation has exactly these.
#![tactic(auto, using(crate::proofs::Later::rel_later, crate::proofs::Later::given_stands, crate::proofs::Later::wanted_stands))]

ghost use Rattle.std.specs.Prelude.{◌≡◌, ◌<◌, ◌≤◌, IfOk};
ghost use Rattle.rel_model.specs.Relation.{size_limit};
ghost use Rattle.rel_model.specs.Worker.{Stands, Keeps};

use rel_model::core_trait::Core;
use rel_model::faults::DomainError;
use rel_model::quads_trait::Quads;
use rel_model::{Lack, Rel, Shape};
use std::process::Abort;

/// The relation of some pairs, added one after another.
pub(crate) fn of_pairs<Q: Quads>(
    rt: &impl Abort,
    q: &mut Q,
    shape: Shape,
    pairs: &[(u32, u32)],
) -> Rel
    requires row { shape.rows ≤ size_limit }
    requires col { shape.cols ≤ size_limit }
    ensures standing { Stands (Q.worker q.new) result }
    ensures rows { result.rows ≡ shape.rows }
    ensures cols { result.cols ≡ shape.cols }
    ensures keeps { Keeps (Q.worker q.old) (Q.worker q.new) }
{
    let Ok(mut r) = q.empty(shape) else {
        panic!(rt; "no room")
    };
    'pairs: for (i, j) in pairs {
        assert!(rt; *i < shape.rows && *j < shape.cols);
        let Ok(pair) = q.single(shape, *i, *j) else {
            panic!(rt; "no room")
        };
        let Ok(more) = q.union(r, pair) else {
            panic!(rt; "no room")
        };
        r = more;
    }
    r
}

/// Asserts that a relation has a pair if and only if it is wanted.
fn has_as_wanted<Q: Quads>(rt: &impl Abort, q: &mut Q, r: Rel, i: u32, j: u32, wanted: bool)
    requires standing { Stands (Q.worker q.old) r }
    requires row { i < r.rows }
    requires col { j < r.cols }
    ensures { Keeps (Q.worker q.old) (Q.worker q.new) }
{
    let found = q.has(r, i, j);
    assert!(rt; found == wanted, "{i} {j}: {wanted} is wanted");
}

/// Asserts that a relation has these sizes and exactly these pairs, which are listed by row and then by column.
pub(crate) fn has_exactly<Q: Quads>(
    rt: &impl Abort,
    q: &mut Q,
    r: Rel,
    rows: u32,
    cols: u32,
    pairs: &[(u32, u32)],
)
    requires { Stands (Q.worker q.old) r }
    ensures { Keeps (Q.worker q.old) (Q.worker q.new) }
{
    assert!(rt; r.rows == rows && r.cols == cols, "{rows} x {cols}");
    let mut met = 0;
    'rows: for i in 0..r.rows {
        'cols: for j in 0..r.cols {
            if met < pairs.len() && pairs[met] == (i, j) {
                has_as_wanted(rt, q, r, i, j, true);
                met += 1;
            } else {
                has_as_wanted(rt, q, r, i, j, false);
            }
        }
    }
    assert!(rt; met == pairs.len(), "{rows} x {cols}");
}

/// Asserts that a relation with these sizes and exactly these pairs was answered.
pub(crate) fn is_given<Q: Quads>(
    rt: &impl Abort,
    q: &mut Q,
    given: Result<Rel, DomainError>,
    rows: u32,
    cols: u32,
    pairs: &[(u32, u32)],
)
    requires { IfOk given (Stands (Q.worker q.old)) }
    ensures { Keeps (Q.worker q.old) (Q.worker q.new) }
{
    let Ok(r) = given else { panic!(rt; "refused") };
    has_exactly(rt, q, r, rows, cols, pairs);
}

/// The same for a call that is never refused for a size.
pub(crate) fn is_made<Q: Quads>(
    rt: &impl Abort,
    q: &mut Q,
    given: Result<Rel, Lack>,
    rows: u32,
    cols: u32,
    pairs: &[(u32, u32)],
)
    requires { IfOk given (Stands (Q.worker q.old)) }
    ensures { Keeps (Q.worker q.old) (Q.worker q.new) }
{
    let Ok(r) = given else { panic!(rt; "no room") };
    has_exactly(rt, q, r, rows, cols, pairs);
}
