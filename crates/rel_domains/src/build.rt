//! Quads built bottom up from the places of their cells.
ghost use Rattle.std.specs.Prelude.{◌≡◌, ◌<◌, ◌≤◌, ◌+◌, ◌^◌, length, IfOk, OnErr};
ghost use Rattle.std.specs.List.Sorted.{IsNonDecreasing};
ghost use Rattle.rel_model.specs.Trees.{top_height};
ghost use Rattle.rel_model.specs.Worker.{GivesQuad, Keeps, MakesAtMost, HasCause, listed_room};
ghost use Rattle.rel_model.specs.Roots.{tree_room};
ghost use Rattle.rel_steps.specs.Making.{MakesQuad};
ghost use Rattle.rel_domains.specs.Curve.{AreFrom, cells_at};
ghost use Rattle.rel_domains.specs.Singles.{KnowsSingles};

use crate::cut::cut_at;
use crate::heights::cells_of;
use crate::leaf::leaf_word;
use crate::lone::lone;
use crate::singles::{SINGLES, SINGLES_DEPTH};
use rel_model::core_trait::Core;
use rel_model::quads_trait::Quads;
use rel_model::{Lack, Quad};

/// The quad, `depth` heights above the leaves, of the cells whose places are listed in order; places count from `base`.
/// Names of quads of single cells are recalled where they are known.
#[tactic(auto, unfolding(rel_model::specs::Trees::top_height), using(crate::proofs::Places::cells_step, crate::proofs::Places::power_step, crate::proofs::Places::some_cells))]
fn build<Q: Quads>(
    q: &mut Q,
    names: &mut [u32],
    depth: u8,
    base: u64,
    places: &[u64],
) -> Result<Quad, Lack>
    requires high { Q.least + depth ≤ top_height }
    requires base { base + 4 ^ (Q.least + depth) ≤ 4 ^ top_height }
    requires order { IsNonDecreasing places.now }
    requires from { AreFrom base (base + 4 ^ (Q.least + depth)) places.now }
    requires known { KnowsSingles (Q.worker q.old) Q.least SINGLES_DEPTH names.old }
    ensures makes { MakesQuad Q.lean (tree_room depth) (Q.least + depth) (cells_at Q.least depth base places.now)
        (Q.worker q.old) (Q.worker q.new) result }
    ensures few { MakesAtMost (listed_room (length places.now) depth) (Q.worker q.old) (Q.worker q.new) }
    ensures some { OnErr result (0 < length places.now) }
    ensures known { KnowsSingles (Q.worker q.new) Q.least SINGLES_DEPTH names.new }
{
    let height = q.bottom() + depth;
    if places.is_empty() {
        return Ok(Quad { height, name: 0 });
    }
    if places.len() == 1 {
        return lone(q, names, depth, base, places[0]);
    }
    if depth == 0 {
        let leaf = q.block(leaf_word(height, base, places))?;
        return Ok(leaf);
    }
    let part = cells_of(height - 1);
    let (north, south) = cut_at(places, base + 2 * part);
    let (in_nw, in_ne) = cut_at(north, base + part);
    let (in_sw, in_se) = cut_at(south, base + 3 * part);
    let nw = build(q, names, depth - 1, base, in_nw)?;
    let ne = build(q, names, depth - 1, base + part, in_ne)?;
    let sw = build(q, names, depth - 1, base + 2 * part, in_sw)?;
    let se = build(q, names, depth - 1, base + 3 * part, in_se)?;
    let corner = q.corner(nw, ne, sw, se)?;
    Ok(corner)
}

/// The quad, `depth` heights above the leaves, of the cells whose places are listed in order. Where there are many, the
/// names of the quads of single cells are kept until it is made.
#[tactic(auto, unfolding(rel_model::specs::Trees::top_height))]
pub fn quad_of_places<Q: Quads>(q: &mut Q, depth: u8, places: &[u64]) -> Result<Quad, Lack>
    requires high { Q.least + depth ≤ top_height }
    requires order { IsNonDecreasing places.now }
    requires from { AreFrom 0 (4 ^ (Q.least + depth)) places.now }
    ensures makes { MakesQuad Q.lean (tree_room depth) (Q.least + depth) (cells_at Q.least depth 0 places.now)
        (Q.worker q.old) (Q.worker q.new) result }
    ensures few { MakesAtMost (listed_room (length places.now) depth) (Q.worker q.old) (Q.worker q.new) }
    ensures some { OnErr result (0 < length places.now) }
{
    if places.len() < SINGLES {
        return build(q, &mut [], depth, 0, places);
    }
    let mut names = [0; SINGLES];
    build(q, &mut names, depth, 0, places)
}
