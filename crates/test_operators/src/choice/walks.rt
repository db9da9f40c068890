//! The pairs that a walk finds.
#![tactic(auto, using(crate::proofs::Later::rel_later, crate::proofs::Later::given_stands))]

ghost use Rattle.rel_model.specs.Worker.{Stands, Keeps};

use crate::grids::put;
use rel_choice::next_pair;
use rel_model::Rel;
use rel_model::quads_trait::Quads;
use std::alloc::Global;
use std::process::Abort;

/// The pairs of a relation, by a walk of at most 2,000 steps.
pub(crate) fn walked<Q: Quads>(rt: &impl Abort, alloc: Global, q: &mut Q, r: Rel) -> Vec<(u32, u32)>
    requires { Stands (Q.worker q.old) r }
    ensures { Keeps (Q.worker q.old) (Q.worker q.new) }
{
    let mut pairs = Vec::new(alloc);
    let mut after = None;
    'steps: for _ in 0..2000 {
        let Some(pair) = next_pair(q, r, after) else {
            break;
        };
        put(rt, &mut pairs, pair);
        after = Some(pair);
    }
    pairs
}
