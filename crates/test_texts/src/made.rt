//! What the tests are given: a table, relations of listed pairs, names, and texts to compare with.
ghost use Rattle.std.specs.Prelude.{◌≤◌, IsTrue};
ghost use Rattle.rel_model.specs.Listed.{AreWithin};
ghost use Rattle.rel_model.specs.Views.{IsOf};
ghost use Rattle.rel_model.specs.Worker.{Stands, Keeps};

use lang_model::syntax::{FileText, Name};
use pair_table::{PairTable, Seat};
use rel_model::engine_trait::Engine;
use rel_model::{Rel, Shape};
use std::alloc::Global;
use std::process::Abort;

/// A table of 2^16 node words, and its first seat.
pub(crate) fn table(rt: &impl Abort, alloc: Global) -> (PairTable, Seat)
    ensures { IsOf result.1 result.0 }
{
    match PairTable::make(alloc, 16, 1) {
        Ok(made) => made,
        Err(_) => panic!(rt; "no memory"),
    }
}

/// Whether all pairs lie within the sizes.
pub(crate) fn lie_within(pairs: &[(u32, u32)], shape: Shape) -> bool
    ensures { IsTrue result → AreWithin shape.rows shape.cols pairs.now }
{
    'pairs: for pair in pairs {
        if pair.0 >= shape.rows || pair.1 >= shape.cols {
            return false;
        }
    }
    true
}

/// The relation of listed pairs, counted from 0.
pub(crate) fn told<E: Engine>(
    rt: &impl Abort,
    alloc: Global,
    engine: &mut E,
    rows: u32,
    cols: u32,
    pairs: &[(u32, u32)],
) -> Rel
    ensures standing { Stands (E.worker engine.new) result }
    ensures keeps { Keeps (E.worker engine.old) (E.worker engine.new) }
{
    let shape = Shape { rows, cols };
    assert!(rt; shape.rows <= 2000 && shape.cols <= 2000);
    assert!(rt; lie_within(pairs, shape));
    match engine.from_pairs(alloc, shape, pairs) {
        Ok(rel) => rel,
        Err(_) => panic!(rt; "refused"),
    }
}

/// A name.
pub(crate) fn name(rt: &impl Abort, alloc: Global, text: &str) -> Name {
    let bytes = text.as_bytes();
    assert!(rt; 1 <= bytes.len() && bytes.len() <= 64);
    match Name::new(alloc, bytes) {
        Ok(name) => name,
        Err(_) => panic!(rt; "no memory"),
    }
}

/// The text of a file's name.
pub(crate) fn file(rt: &impl Abort, alloc: Global, text: &str) -> FileText {
    let bytes = text.as_bytes();
    assert!(rt; 1 <= bytes.len() && bytes.len() <= 255);
    match FileText::new(alloc, bytes) {
        Ok(file) => file,
        Err(_) => panic!(rt; "no memory"),
    }
}

/// Asserts that bytes are a text.
pub(crate) fn are(rt: &impl Abort, bytes: &[u8], wanted: &str) {
    assert!(rt; bytes == wanted.as_bytes(), "{wanted}");
}
