//! Engines, and relations for them.
ghost use Rattle.std.specs.Prelude.{◌≡◌, ◌≤◌, [], ◌∷◌, codes, IfOk, IfSome};
ghost use Rattle.rel_model.specs.Listed.{AreWithin};
ghost use Rattle.rel_model.specs.Relation.{size_limit};
ghost use Rattle.rel_model.specs.Views.{Table, View, IsOf};
ghost use Rattle.rel_model.specs.Worker.{Stands, Keeps};

use fork_quads::{Crew, OpenGate};
use lang_model::syntax::Name;
use pair_table::{PairTable, Seat};
use rel_engine::Works;
use rel_model::core_trait::Core;
use rel_model::engine_trait::Engine;
use rel_model::{Lack, Rel, Shape};
use std::alloc::{AllocError, Global};
use std::thread::Threads;

/// An engine of this many workers over a table.
pub fn engine_over<'t, R: Threads + Sync>(
    rt: &'t R,
    table: &'t PairTable,
    seat: Seat,
    workers: u32,
) -> Works<'t, R, OpenGate>
    requires some { 1 ≤ workers }
    requires few { workers ≤ 64 }
    requires of { IsOf seat table.now }
{
    Works::new(Crew::new(rt, table, seat, workers, &OpenGate))
}

/// The relation of some pairs, if they could be listed and the relation fits.
pub fn from_list<E: Engine>(
    alloc: Global,
    engine: &mut E,
    shape: Shape,
    pairs: Result<Vec<(u32, u32)>, AllocError>,
) -> Option<Rel>
    requires row_limit { shape.rows ≤ size_limit }
    requires col_limit { shape.cols ≤ size_limit }
    requires within { IfOk pairs (λ v. AreWithin shape.rows shape.cols v.items) }
    ensures stands { IfSome result (Stands (E.worker engine.new)) }
    ensures rows { IfSome result (λ r. r.rows ≡ shape.rows) }
    ensures cols { IfSome result (λ r. r.cols ≡ shape.cols) }
    ensures keeps { Keeps (E.worker engine.old) (E.worker engine.new) }
{
    let Ok(pairs) = pairs else {
        return None;
    };
    engine.from_pairs(alloc, shape, pairs.as_slice()).ok()
}

/// How many pairs an answer has; 0 if there is none.
pub fn pairs_of<E: Engine>(alloc: Global, engine: &mut E, answer: Result<Rel, Lack>) -> u64
    requires { IfOk answer (Stands (E.worker engine.old)) }
{
    match answer {
        Ok(rel) => engine.count(alloc, rel).unwrap_or(0),
        Err(_) => 0,
    }
}

/// A list of one relation, by the name A.
pub fn named_a(alloc: Global, rel: Rel) -> Option<Vec<(Name, Rel)>>
    ensures { IfSome result (λ names. names.items ≡ (codes "A", rel) ∷ []) }
{
    let mut names = Vec::new(alloc);
    let Ok(name) = Name::new(alloc, b"A") else {
        return None;
    };
    if names.push((name, rel)).is_err() {
        return None;
    }
    Some(names)
}
