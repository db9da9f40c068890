//! The lines that show how large a relation is.
ghost use Rattle.std.specs.Prelude.{◌≡◌, ◌<◌, ◌∷◌, ◌++◌, [], IfOk, OnErr, length};
ghost use Rattle.rel_model.specs.Relation.{Relation};
ghost use Rattle.rel_model.specs.Roots.{height_over};
ghost use Rattle.rel_model.specs.Worker.{Stands, set_of, Keeps, MakesAtMost, MissesNothing};
ghost use Rattle.run_model.specs.Page.{sizes_text, count_text, type_text};

use crate::pieces::{push_number, push_sizes};
use rel_model::engine_trait::Engine;
use rel_model::{NoMemory, Rel, Shape};
use std::alloc::Global;

/// `M x N` as a line: the type of a relation.
#[tactic(auto, unfolding(run_model::specs::Page::type_text))]
pub fn shape_text(alloc: Global, shape: Shape) -> Result<Vec<u8>, NoMemory>
    ensures text { IfOk result (λ v. v.items ≡ sizes_text shape.rows shape.cols ++ 10 ∷ []) }
    ensures typed { (r : Relation) → r.rows ≡ shape.rows → r.cols ≡ shape.cols
        → IfOk result (λ v. v.items ≡ type_text r) }
{
    let mut out = Vec::new(alloc);
    push_sizes(alloc, &mut out, shape.rows, shape.cols)?;
    out.push(b'\n')?;
    Ok(out)
}

/// A number of pairs as a line.
#[tactic(auto, unfolding(run_model::specs::Page::count_text))]
pub fn number_line(alloc: Global, count: u64) -> Result<Vec<u8>, NoMemory>
    ensures { (r : Relation) → count ≡ length r.pairs → IfOk result (λ v. v.items ≡ count_text r) }
{
    let mut out = Vec::new(alloc);
    push_number(alloc, &mut out, count)?;
    out.push(b'\n')?;
    Ok(out)
}

/// How many pairs a relation has, as a line.
pub fn count_line<E: Engine>(alloc: Global, engine: &mut E, rel: Rel) -> Result<Vec<u8>, NoMemory>
    requires { Stands (E.worker engine.old) rel }
    ensures text { IfOk result (λ v. v.items ≡ count_text (set_of (E.worker engine.old) rel)) }
    ensures keeps { Keeps (E.worker engine.old) (E.worker engine.new) }
    ensures room { MakesAtMost 0 (E.worker engine.old) (E.worker engine.new) }
    ensures misses { MissesNothing (E.worker engine.old) (E.worker engine.new) }
{
    let count = engine.count(alloc, rel)?;
    let text = number_line(alloc, count)?;
    Ok(text)
}
