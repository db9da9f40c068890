//! The engine calls that evaluations make, without the evaluator.
ghost use Rattle.std.specs.Prelude.{◌≡◌, IfSome};
ghost use Rattle.rel_model.specs.Worker.{Stands, Keeps};

use rel_model::core_trait::Core;
use rel_model::engine_trait::Engine;
use rel_model::{Rel, Shape};

/// The complement of a relation with one row and one column.
fn complemented<E: Engine>(engine: &mut E, x: Rel) -> Option<Rel>
    requires { Stands (E.worker engine.old) x × (x.rows ≡ 1) × (x.cols ≡ 1) }
    ensures value { IfSome result (λ y. Stands (E.worker engine.new) y × (y.rows ≡ 1) × (y.cols ≡ 1)) }
    ensures keeps { Keeps (E.worker engine.old) (E.worker engine.new) }
{
    let full = match engine.full(Shape { rows: 1, cols: 1 }) {
        Ok(full) => full,
        Err(_) => return None,
    };
    match engine.diff(full, x) {
        Ok(rest) => Some(rest),
        Err(_) => None,
    }
}

/// `count` turns of a loop, each with a test whether the relation is full, and a complement.
#[tactic(auto, using(rel_model::proofs::Workers::keeps_stands))]
pub fn turns_alone<E: Engine>(engine: &mut E, r: Rel, count: u64) -> Option<Rel>
    requires { Stands (E.worker engine.old) r × (r.rows ≡ 1) × (r.cols ≡ 1) }
{
    let mut x = r;
    'turns: for _ in 0..count {
        if !engine.has(r, 0, 0) {
            return None;
        }
        x = match complemented(engine, x) {
            Some(rest) => rest,
            None => return None,
        };
    }
    Some(x)
}

/// The unions of a chain of `count` operands, one fewer than there are operands, each with r.
#[tactic(auto, using(rel_model::proofs::Workers::keeps_stands))]
pub fn unions_alone<E: Engine>(engine: &mut E, r: Rel, count: u64) -> Option<Rel>
    requires { Stands (E.worker engine.old) r }
{
    let mut all = r;
    'links: for _ in 1..count {
        all = match engine.union(all, r) {
            Ok(joint) => joint,
            Err(_) => return None,
        };
    }
    Some(all)
}
