//! What the tests are given: relations of listed pairs.
ghost use Rattle.std.specs.Prelude.{◌≤◌, IsTrue};
ghost use Rattle.rel_model.specs.Listed.{AreWithin};
ghost use Rattle.rel_model.specs.Worker.{Stands, Keeps};

use lang_model::limits::NAME_LIMIT;
use lang_model::syntax::Name;
use rel_model::engine_trait::Engine;
use rel_model::{Rel, SIZE_LIMIT, Shape};
use std::alloc::Global;
use std::process::Abort;

/// Appends something to a list.
pub(crate) fn put<T: Drop>(rt: &impl Abort, list: &mut Vec<T>, item: T) {
    if list.push(item).is_err() {
        panic!(rt; "no memory");
    }
}

/// Whether all pairs lie within the sizes.
fn lie_within(pairs: &[(u32, u32)], shape: Shape) -> bool
    ensures { IsTrue result → AreWithin shape.rows shape.cols pairs.now }
{
    'pairs: for pair in pairs {
        if pair.0 >= shape.rows || pair.1 >= shape.cols {
            return false;
        }
    }
    true
}

/// The relation of listed pairs, counted from 0.
pub(crate) fn told<E: Engine>(
    rt: &impl Abort,
    alloc: Global,
    engine: &mut E,
    rows: u32,
    cols: u32,
    pairs: &[(u32, u32)],
) -> Rel
    ensures standing { Stands (E.worker engine.new) result }
    ensures keeps { Keeps (E.worker engine.old) (E.worker engine.new) }
{
    let shape = Shape { rows, cols };
    assert!(rt; shape.rows <= SIZE_LIMIT && shape.cols <= SIZE_LIMIT);
    assert!(rt; lie_within(pairs, shape));
    match engine.from_pairs(alloc, shape, pairs) {
        Ok(rel) => rel,
        Err(_) => panic!(rt; "refused"),
    }
}

/// The name with these bytes.
pub(crate) fn name_of(rt: &impl Abort, alloc: Global, bytes: &[u8]) -> Name {
    assert!(rt; bytes.len() >= 1 && bytes.len() <= NAME_LIMIT);
    match Name::new(alloc, bytes) {
        Ok(name) => name,
        Err(_) => panic!(rt; "no memory"),
    }
}
