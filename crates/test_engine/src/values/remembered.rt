//! What an engine remembers of relations that were cut into their lines.
#![tactic(auto, using(rel_values::proofs::Operating::whole_fits, rel_model::proofs::Workers::keeps_trans, rel_model::proofs::Workers::keeps_stands, rel_model::proofs::Workers::gives_stands))]

ghost use Rattle.std.specs.Prelude.{◌≡◌};
ghost use Rattle.rel_model.specs.Worker.{Stands, Keeps};

use crate::cells::{Given, listed};
use crate::made::of_pairs;
use crate::trial::{Trial, on_a_table};
use rel_model::{Rel, Shape};
use rel_slices::{Remembers, Value};
use rel_values::complement;
use std::alloc::Global;
use std::process::Abort;
use std::thread::Threads;

/// A board of 20 × 300, as a relation with more rows; the extra rows are empty.
fn with_rows<E: Remembers>(rt: &impl Abort, alloc: Global, engine: &mut E, rows: u32) -> Rel
    ensures standing { Stands (E.worker engine.new) result }
    ensures rows { result.rows ≡ rows }
    ensures keeps { Keeps (E.worker engine.old) (E.worker engine.new) }
{
    let own = Shape {
        rows: 20,
        cols: 300,
    };
    let pairs = listed(rt, alloc, Given::Board, own);
    let shape = Shape { rows, cols: 300 };
    of_pairs(rt, alloc, engine, shape, &pairs)
}

/// Makes the engine cut a relation into its lines, as it does if an operator meets the relation under its name.
fn is_cut<E: Remembers>(rt: &impl Abort, engine: &mut E, rel: Rel)
    requires { Stands (E.worker engine.old) rel }
    ensures { Keeps (E.worker engine.old) (E.worker engine.new) }
{
    assert!(rt; complement(engine, &Value::Whole(rel)).is_ok());
}

/// Asserts that the lines of this relation are remembered.
fn has_lines<E: Remembers>(rt: &impl Abort, engine: &E, rel: Rel)
    requires { Stands (E.worker engine.now) rel }
{
    let Some(lines) = engine.lines_of(rel) else {
        panic!(rt; "forgotten")
    };
    assert!(rt; lines.count == rel.rows && lines.other == rel.cols);
}

/// Asserts that a relation is remembered together with its sizes: two relations with the same root but different sizes
/// are remembered separately.
pub(crate) fn are_told_apart<E: Remembers>(rt: &impl Abort, alloc: Global, engine: &mut E) {
    let less = with_rows(rt, alloc, engine, 20);
    let more = with_rows(rt, alloc, engine, 21);
    assert!(rt; less.root == more.root);
    assert!(rt; engine.lines_of(less).is_none());
    is_cut(rt, engine, less);
    has_lines(rt, engine, less);
    assert!(rt; engine.lines_of(more).is_none());
    is_cut(rt, engine, more);
    has_lines(rt, engine, more);
    has_lines(rt, engine, less);
}

#[test]
fn the_lines_of_a_relation_are_remembered_by_its_root_and_its_sizes(rt: HostRuntime) {
    on_a_table(&rt, rt.alloc(), Trial::Remembers);
}
