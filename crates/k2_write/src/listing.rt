//! The visits of relations, and their bytes.
ghost use Rattle.std.specs.Prelude.{◌≡◌, IfOk};
ghost use Rattle.std.specs.List.{AllByRecursion};
ghost use Rattle.rel_model.specs.Worker.{Stands, set_of, Keeps, MakesAtMost, MissesNothing};
ghost use Rattle.k2_write.specs.Visiting.{VisitedSet};
ghost use Rattle.k2_write.specs.Writing.{named_sets};
ghost use Rattle.k2_write.specs.Listed.{IsListing};

use crate::text::push_named;
use crate::visits::{Quarters, Visits};
use crate::walk::visit_part;
use indexmap::IndexSet;
use k2_file::sides::height_of_file;
use k2_file::squares::first_square;
use lang_model::syntax::Name;
use rel_model::engine_trait::Engine;
use rel_model::{NoMemory, Rel};
use std::alloc::Global;

/// The squares of relations, in the order of the visits, and the bytes of the relations. On the heap.
#[derive(Drop)]
pub(crate) struct Listing {
    pub(crate) squares: IndexSet<Quarters>,
    pub(crate) relations: Vec<u8>,
}

/// Visits the square of a relation, and gives its number.
fn visit_rel<E: Engine>(engine: &mut E, visits: &mut Visits, rel: Rel) -> Result<u32, NoMemory>
    requires { Stands (E.worker engine.old) rel }
    ensures value { IfOk result (VisitedSet (E.worker engine.old) (E.worker engine.new) E.least visits.old visits.new
        (set_of (E.worker engine.old) rel)) }
    ensures keeps { Keeps (E.worker engine.old) (E.worker engine.new) }
    ensures room { MakesAtMost 0 (E.worker engine.old) (E.worker engine.new) }
    ensures misses { MissesNothing (E.worker engine.old) (E.worker engine.new) }
{
    let height = height_of_file(rel.rows, rel.cols);
    let first = first_square(engine, rel, height);
    visit_part(engine, visits, first, height)
}

/// The squares of relations, which are visited in order, and the bytes of the relations.
pub(crate) fn listing_of<E: Engine>(
    alloc: Global,
    engine: &mut E,
    rels: &[(Name, Rel)],
) -> Result<Listing, NoMemory>
    requires { AllByRecursion (λ e. Stands (E.worker engine.old) e.1) rels.now }
    ensures value { IfOk result (IsListing (named_sets (E.worker engine.old) rels.now)) }
    ensures keeps { Keeps (E.worker engine.old) (E.worker engine.new) }
    ensures room { MakesAtMost 0 (E.worker engine.old) (E.worker engine.new) }
    ensures misses { MissesNothing (E.worker engine.old) (E.worker engine.new) }
{
    let mut visits = Visits::new(alloc);
    let mut relations = Vec::new(alloc);
    'rels: for entry in rels {
        let root = visit_rel(engine, &mut visits, entry.1)?;
        push_named(&mut relations, &entry.0, entry.1, root)?;
    }
    Ok(Listing {
        squares: visits.squares,
        relations,
    })
}
