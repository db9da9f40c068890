//! The quad of a single cell.
ghost use Rattle.std.specs.Prelude.{◌≡◌, ◌<◌, ◌≤◌, ◌+◌, ◌*◌, ◌^◌, ◌∷◌, [], cond};
ghost use Rattle.rel_model.specs.Trees.{top_height};
ghost use Rattle.rel_model.specs.Worker.{MakesAtMost, listed_room};
ghost use Rattle.rel_model.specs.Roots.{tree_room};
ghost use Rattle.rel_steps.specs.Making.{MakesQuad};
ghost use Rattle.rel_domains.specs.Curve.{cells_at};
ghost use Rattle.rel_domains.specs.Singles.{KnowsSingles};

use crate::heights::cells_of;
use crate::leaf::leaf_word;
use crate::singles::{SINGLES_DEPTH, note, recalled};
use rel_model::core_trait::Core;
use rel_model::quads_trait::Quads;
use rel_model::{Lack, Quad};

/// A quad, or the empty one of its height. There is no branch for the processor to guess.
#[inline(always)]
fn kept_if(test: bool, quad: Quad) -> Quad
    ensures { result ≡ record { height = quad.height; name = cond test quad.name 0 } }
{
    let name = if test { quad.name } else { 0 };
    Quad {
        height: quad.height,
        name,
    }
}

/// In which quarter of a square a place lies, 0 to 3; each quarter has `4 ^ height` cells.
#[inline(always)]
fn quarter_of(height: u8, place: u64) -> u64
    requires high { height < top_height }
    requires within { place < 4 * 4 ^ height }
    ensures low { result * 4 ^ height ≤ place }
    ensures above { place < result * 4 ^ height + 4 ^ height }
    ensures four { result < 4 }
{
    place >> (2 * height)
}

/// The quad, `depth` heights above the leaves, of the cell with this place; places count from `base`. Its name is
/// recalled where it is known.
#[tactic(auto, unfolding(rel_model::specs::Trees::top_height), using(crate::proofs::Places::cells_step, crate::proofs::Places::power_step, crate::proofs::Places::some_cells))]
pub fn lone<Q: Quads>(
    q: &mut Q,
    names: &mut [u32],
    depth: u8,
    base: u64,
    place: u64,
) -> Result<Quad, Lack>
    requires high { Q.least + depth ≤ top_height }
    requires base { base + 4 ^ (Q.least + depth) ≤ 4 ^ top_height }
    requires low { base ≤ place }
    requires within { place < base + 4 ^ (Q.least + depth) }
    requires known { KnowsSingles (Q.worker q.old) Q.least SINGLES_DEPTH names.old }
    ensures makes { MakesQuad Q.lean (tree_room depth) (Q.least + depth) (cells_at Q.least depth base (place ∷ []))
        (Q.worker q.old) (Q.worker q.new) result }
    ensures few { MakesAtMost (listed_room 1 depth) (Q.worker q.old) (Q.worker q.new) }
    ensures known { KnowsSingles (Q.worker q.new) Q.least SINGLES_DEPTH names.new }
{
    let height = q.bottom() + depth;
    if depth == 0 {
        let leaf = q.block(leaf_word(height, base, &[place]))?;
        return Ok(leaf);
    }
    if let Some(known) = recalled(names, depth, height, place - base) {
        return Ok(known);
    }
    let quarter = quarter_of(height - 1, place - base);
    let start = base + quarter * cells_of(height - 1);
    let quad = lone(q, names, depth - 1, start, place)?;
    let nw = kept_if(quarter == 0, quad);
    let ne = kept_if(quarter == 1, quad);
    let sw = kept_if(quarter == 2, quad);
    let se = kept_if(quarter == 3, quad);
    let corner = q.corner(nw, ne, sw, se)?;
    note(names, depth, place - base, corner.name);
    Ok(corner)
}
