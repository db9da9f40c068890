//! The relations of named roots.
ghost use Rattle.std.specs.Prelude.{◌≡◌, ◌+◌, ◌++◌, ◌∷◌, [], length, false, IfOk, OnOk};
ghost use Rattle.std.specs.List.{AllByRecursion};
ghost use Rattle.rel_model.specs.declared.Rel.{Rel as REL};
ghost use Rattle.rel_model.specs.Relation.{Relation};
ghost use Rattle.rel_model.specs.Roots.{height_over};
ghost use Rattle.rel_model.specs.Worker.{Gives, Keeps, MakesAtMost, HasCause};
ghost use Rattle.run_model.specs.Cost.{cost_of_loaded, cost_of_gifts};
ghost use Rattle.k2_parts.specs.Told.{quadrants_told};
ghost use Rattle.k2_read.specs.Numbers.{IsSound, AreNoted, MakesRoot, relation_at, entries_told, root_named};
ghost use Rattle.k2_read.specs.Reading.{AreRead};

use crate::build::built;
use crate::leaf::built_leaf;
use k2_file::sides::{height_of_file, height_of_tree};
use k2_parts::form::{NamedRoot, Quadrant};
use lang_model::syntax::Name;
use rel_model::engine_trait::Engine;
use rel_model::{Lack, Quad, Rel, Shape};
use std::alloc::Global;

/// The root of a relation: its sizes, and the number of its square. 12 bytes.
#[derive(Clone, Copy)]
pub(crate) struct Root {
    pub(crate) shape: Shape,
    pub(crate) number: u32,
}

/// The root of the relation with this name, if there is one.
pub(crate) fn root_of(roots: &[NamedRoot], name: &Name) -> Option<Root>
    ensures { result ≡ root_named name.now roots.now }
{
    'roots: for root in roots {
        if root.name == *name {
            return Some(Root {
                shape: Shape {
                    rows: root.rows,
                    cols: root.cols,
                },
                number: root.root,
            });
        }
    }
    None
}

/// The quad of a root, at the height of the relation's tree.
fn built_root<E: Engine>(
    engine: &mut E,
    quads: &[Quadrant],
    noted: &mut [Option<Quad>],
    root: Root,
) -> Result<Quad, Lack>
    requires sound { IsSound (quadrants_told quads.now) root.shape.rows root.shape.cols root.number }
    requires places { length noted.old ≡ length quads.now + 2 }
    requires noted { AreNoted (E.worker engine.old) (quadrants_told quads.now) noted.old }
    ensures makes { MakesRoot E.lean E.least (quadrants_told quads.now) root.shape.rows root.shape.cols root.number
        (E.worker engine.old) (E.worker engine.new) result }
    ensures noted { OnOk result (AreNoted (E.worker engine.new) (quadrants_told quads.now) noted.new) }
{
    let low = engine.bottom();
    let height = height_of_tree(low, root.shape.rows, root.shape.cols);
    if low < height {
        return built(engine, quads, noted, root.number, height);
    }
    if root.number == 0 {
        return Ok(Quad { height, name: 0 });
    }
    let height = height_of_file(root.shape.rows, root.shape.cols);
    let leaf = built_leaf(engine, quads, root.number, height)?;
    Ok(leaf)
}

/// The relation of a root.
pub(crate) fn built_relation<E: Engine>(
    engine: &mut E,
    quads: &[Quadrant],
    noted: &mut [Option<Quad>],
    root: Root,
) -> Result<Rel, Lack>
    requires sound { IsSound (quadrants_told quads.now) root.shape.rows root.shape.cols root.number }
    requires places { length noted.old ≡ length quads.now + 2 }
    requires noted { AreNoted (E.worker engine.old) (quadrants_told quads.now) noted.old }
    ensures value { IfOk result (Gives (E.worker engine.new) root.shape.rows root.shape.cols
        (relation_at (quadrants_told quads.now) root.shape.rows root.shape.cols root.number)) }
    ensures keeps { Keeps (E.worker engine.old) (E.worker engine.new) }
    ensures room { MakesAtMost (cost_of_loaded E.least
        (relation_at (quadrants_told quads.now) root.shape.rows root.shape.cols root.number))
        (E.worker engine.old) (E.worker engine.new) }
    ensures cause { HasCause E.lean (E.worker engine.old) (E.worker engine.new) result }
    ensures noted { OnOk result (AreNoted (E.worker engine.new) (quadrants_told quads.now) noted.new) }
{
    let quad = built_root(engine, quads, noted, root)?;
    Ok(engine.rel(root.shape, quad))
}

/// Appends the relation of a named root.
fn push_built<E: Engine>(
    engine: &mut E,
    quads: &[Quadrant],
    noted: &mut [Option<Quad>],
    list: &mut Vec<(Name, Rel)>,
    root: NamedRoot,
) -> Result<(), Lack>
    requires sound { IsSound (quadrants_told quads.now) root.rows root.cols root.root }
    requires places { length noted.old ≡ length quads.now + 2 }
    requires noted { AreNoted (E.worker engine.old) (quadrants_told quads.now) noted.old }
    ensures pushed { OnOk result ((rel : REL) × (list.new.items ≡ list.old.items ++ (root.name, rel) ∷ [])
        × Gives (E.worker engine.new) root.rows root.cols
        (relation_at (quadrants_told quads.now) root.rows root.cols root.root) rel) }
    ensures keeps { Keeps (E.worker engine.old) (E.worker engine.new) }
    ensures room { MakesAtMost (cost_of_loaded E.least
        (relation_at (quadrants_told quads.now) root.rows root.cols root.root))
        (E.worker engine.old) (E.worker engine.new) }
    ensures cause { HasCause false (E.worker engine.old) (E.worker engine.new) result }
    ensures noted { OnOk result (AreNoted (E.worker engine.new) (quadrants_told quads.now) noted.new) }
{
    let NamedRoot {
        name,
        rows,
        cols,
        root: number,
    } = root;
    let shape = Shape { rows, cols };
    let rel = built_relation(engine, quads, noted, Root { shape, number })?;
    list.push((name, rel))?;
    Ok(())
}

/// The relations of named roots, in order.
pub(crate) fn built_all<E: Engine>(
    alloc: Global,
    engine: &mut E,
    quads: &[Quadrant],
    noted: &mut [Option<Quad>],
    roots: Vec<NamedRoot>,
) -> Result<Vec<(Name, Rel)>, Lack>
    requires sound { AllByRecursion (λ r. IsSound (quadrants_told quads.now) r.rows r.cols r.root) roots.items }
    requires places { length noted.old ≡ length quads.now + 2 }
    requires noted { AreNoted (E.worker engine.old) (quadrants_told quads.now) noted.old }
    ensures value { IfOk result (λ list. AreRead (E.worker engine.new)
        (entries_told (quadrants_told quads.now) roots.items) list.items) }
    ensures keeps { Keeps (E.worker engine.old) (E.worker engine.new) }
    ensures room { MakesAtMost (cost_of_gifts E.least (entries_told (quadrants_told quads.now) roots.items))
        (E.worker engine.old) (E.worker engine.new) }
    ensures cause { HasCause false (E.worker engine.old) (E.worker engine.new) result }
{
    let mut list = Vec::new(alloc);
    'roots: for root in roots {
        push_built(engine, quads, noted, &mut list, root)?;
    }
    Ok(list)
}
