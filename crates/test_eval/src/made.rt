//! What the tests work on: tables, and relations of listed pairs.
ghost use Rattle.std.specs.Prelude.{◌≤◌, IsTrue, IfOk};
ghost use Rattle.rel_model.specs.Listed.{AreWithin};
ghost use Rattle.rel_model.specs.Views.{IsOf};
ghost use Rattle.rel_model.specs.Worker.{Stands, Keeps};

use crate::listed::{Listed, none_of, put};
use pair_table::{PairTable, Seat};
use rel_model::{Lack, Rel, Shape};
use rel_slices::Remembers;
use std::alloc::Global;
use std::process::Abort;

/// A table of `2^bits` node words, and its first seat.
pub(crate) fn table(rt: &impl Abort, alloc: Global, bits: u32) -> (PairTable, Seat)
    requires low { 10 ≤ bits }
    requires high { bits ≤ 24 }
    ensures { IsOf result.1 result.0 }
{
    match PairTable::make(alloc, bits, 1) {
        Ok(made) => made,
        Err(_) => panic!(rt; "no memory"),
    }
}

/// Whether all pairs lie within the sizes.
fn lie_within(pairs: &[(u32, u32)], shape: Shape) -> bool
    ensures { IsTrue result → AreWithin shape.rows shape.cols pairs.now }
{
    'pairs: for pair in pairs {
        if pair.0 >= shape.rows || pair.1 >= shape.cols {
            return false;
        }
    }
    true
}

/// The relation of a list, if there is room for it.
pub(crate) fn offered<E: Remembers>(
    rt: &impl Abort,
    alloc: Global,
    engine: &mut E,
    list: &Listed,
) -> Result<Rel, Lack>
    ensures standing { IfOk result (Stands (E.worker engine.new)) }
    ensures keeps { Keeps (E.worker engine.old) (E.worker engine.new) }
{
    let shape = Shape {
        rows: list.rows,
        cols: list.cols,
    };
    let pairs = list.pairs.as_slice();
    assert!(rt; shape.rows <= 16_777_216 && shape.cols <= 16_777_216);
    assert!(rt; lie_within(pairs, shape));
    engine.from_pairs(alloc, shape, pairs)
}

/// The relation of a list. It ends the test if there is no room.
pub(crate) fn told<E: Remembers>(
    rt: &impl Abort,
    alloc: Global,
    engine: &mut E,
    list: &Listed,
) -> Rel
    ensures standing { Stands (E.worker engine.new) result }
    ensures keeps { Keeps (E.worker engine.old) (E.worker engine.new) }
{
    match offered(rt, alloc, engine, list) {
        Ok(rel) => rel,
        Err(_) => panic!(rt; "refused"),
    }
}

/// The pairs of a relation, in the order of a walk over it.
pub(crate) fn pairs_of<E: Remembers>(
    rt: &impl Abort,
    alloc: Global,
    engine: &mut E,
    r: Rel,
) -> Listed
    requires { Stands (E.worker engine.old) r }
    ensures { Keeps (E.worker engine.old) (E.worker engine.new) }
{
    let mut list = none_of(alloc, r.rows, r.cols);
    let mut after = None;
    'pairs: for _ in 0..100_000u32 {
        after = engine.next_pair(r, after);
        match after {
            Some((i, j)) => put(rt, &mut list, i, j),
            None => return list,
        }
    }
    panic!(rt; "too many pairs")
}
