//! The relations of the tests, built by an engine.
#![tactic(auto, using(rel_model::proofs::Workers::keeps_stands, rel_slices::proofs::Valuing::value_stays))]

ghost use Rattle.std.specs.Prelude.{◌≡◌, ◌≤◌, ◌<◌, IfOk};
ghost use Rattle.rel_model.specs.Relation.{size_limit};
ghost use Rattle.rel_model.specs.Worker.{Stands, Keeps};
ghost use Rattle.rel_slices.specs.Thin.{ValueStands, value_rows, value_cols, HasForm};

use crate::cells::{Given, has};
use rel_model::core_trait::Core;
use rel_model::engine_trait::Engine;
use rel_model::{Rel, Shape};
use rel_slices::{Value, formed};
use std::process::Abort;

/// Adds a row of one of the relations to what there is.
fn row_beside<E: Engine>(rt: &impl Abort, engine: &mut E, given: Given, i: u32, r: Rel) -> Rel
    requires standing { Stands (E.worker engine.old) r }
    requires rows { r.rows ≤ size_limit }
    requires cols { r.cols ≤ size_limit }
    requires row { i < r.rows }
    ensures standing { Stands (E.worker engine.new) result }
    ensures rows { result.rows ≡ r.rows }
    ensures cols { result.cols ≡ r.cols }
    ensures keeps { Keeps (E.worker engine.old) (E.worker engine.new) }
{
    let shape = Shape {
        rows: r.rows,
        cols: r.cols,
    };
    let mut all = r;
    'columns: for j in 0..shape.cols {
        if has(given, i, j) {
            let Ok(pair) = engine.single(shape, i, j) else {
                panic!(rt; "no room")
            };
            let Ok(more) = engine.union(all, pair) else {
                panic!(rt; "no room")
            };
            all = more;
        }
    }
    all
}

/// One of the relations, at these sizes, as a whole relation.
pub(crate) fn whole<E: Engine>(rt: &impl Abort, engine: &mut E, given: Given, shape: Shape) -> Rel
    ensures standing { Stands (E.worker engine.new) result }
    ensures rows { result.rows ≡ shape.rows }
    ensures cols { result.cols ≡ shape.cols }
    ensures keeps { Keeps (E.worker engine.old) (E.worker engine.new) }
{
    assert!(rt; shape.rows <= 1024 && shape.cols <= 1024);
    let Ok(mut r) = engine.empty(shape) else {
        panic!(rt; "no room")
    };
    'rows: for i in 0..shape.rows {
        r = row_beside(rt, engine, given, i, r);
    }
    r
}

/// One of the relations, at these sizes, in the form of its sizes.
pub(crate) fn built<E: Engine>(rt: &impl Abort, engine: &mut E, given: Given, shape: Shape) -> Value
    ensures standing { ValueStands (E.worker engine.new) result }
    ensures form { HasForm result }
    ensures rows { value_rows result ≡ shape.rows }
    ensures cols { value_cols result ≡ shape.cols }
    ensures keeps { Keeps (E.worker engine.old) (E.worker engine.new) }
{
    let r = whole(rt, engine, given, shape);
    let Ok(value) = formed(engine, r) else {
        panic!(rt; "no room")
    };
    value
}
