//! The elements of a vector listed in order.
ghost use Rattle.std.specs.Prelude.{◌≡◌, ◌<◌, ◌≤◌, ◌+◌, ◌-◌, ◌*◌, ◌^◌, ℕ, IsTrue, IfOk};
ghost use Rattle.rel_model.specs.Cells.{no_cells};
ghost use Rattle.rel_model.specs.Choice.{holds, count_below, inj as inj_of};
ghost use Rattle.rel_model.specs.Relation.{size_limit};
ghost use Rattle.rel_model.specs.Trees.{top_height};
ghost use Rattle.rel_model.specs.Worker.{Stands, set_of, HasQuad, quad_set, Gives, GivesQuad, Keeps, MakesAtMost, MissesNothing, HasCause, derived_room};
ghost use Rattle.rel_steps.specs.Making.{MakesQuad};
ghost use Rattle.rel_domains.specs.Ranks.{first_column, ranked};
ghost use Rattle.rel_model.specs.Roots.{relation_room, tree_room};

use crate::element::{count_in, ranks_in};
use rel_model::core_trait::Core;
use rel_model::empty::side_of;
use rel_model::quads_trait::Quads;
use rel_model::{Lack, Quad, Quarters, Rel, Shape};

/// How many elements a vector has. If both halves are the same quad, it is counted once.
fn elements<Q: Quads>(q: &mut Q, vector: Quad) -> u32
    requires { HasQuad (Q.worker q.old) vector }
    ensures count { result ≡ count_below (2 ^ vector.height) (first_column (quad_set (Q.worker q.old) vector)) }
    ensures limit { result ≤ size_limit }
    ensures keeps { Keeps (Q.worker q.old) (Q.worker q.new) }
    ensures room { MakesAtMost 0 (Q.worker q.old) (Q.worker q.new) }
    ensures misses { MissesNothing (Q.worker q.old) (Q.worker q.new) }
{
    if vector.is_empty() {
        return 0;
    }
    if vector.height == q.bottom() {
        return count_in(vector.height, q.bits(vector));
    }
    let Quarters {
        nw: upper,
        sw: lower,
        ..
    } = q.quarters(vector);
    let above = elements(q, upper);
    if lower.name == upper.name {
        return above + above;
    }
    let below = elements(q, lower);
    above + below
}

/// Whether no rank of a vector's elements is a row of a square.
fn passes_by(side: u32, many: u32, row: u32, before: u32) -> bool
    requires row { row + side ≤ size_limit }
    requires before { before + many ≤ size_limit }
    ensures { IsTrue result → (i k : ℕ) → i < side → k < many → before + k ≡ row + i → ⊥ }
{
    many == 0 || row + side <= before || before + many <= row
}

/// The square, from a row on, of the list of a vector's elements in order; `before` elements come before those of this
/// vector.
#[tactic(auto, unfolding(rel_model::specs::Trees::top_height), using(crate::proofs::Places::side_step, crate::proofs::Places::power_step, crate::proofs::Places::some_cells))]
fn ranks<Q: Quads>(
    q: &mut Q,
    depth: u8,
    vector: Quad,
    many: u32,
    row: u32,
    before: u32,
) -> Result<Quad, Lack>
    requires stands { HasQuad (Q.worker q.old) vector }
    requires height { vector.height ≡ Q.least + depth }
    requires many { many ≡ count_below (2 ^ vector.height) (first_column (quad_set (Q.worker q.old) vector)) }
    requires row { row + 2 ^ (Q.least + depth) ≤ size_limit }
    requires before { before + many ≤ size_limit }
    ensures { MakesQuad Q.lean (tree_room depth) (Q.least + depth)
        (ranked (2 ^ (Q.least + depth)) row before (first_column (quad_set (Q.worker q.old) vector)))
        (Q.worker q.old) (Q.worker q.new) result }
{
    let height = vector.height;
    if passes_by(side_of(height), many, row, before) {
        return Ok(Quad { height, name: 0 });
    }
    if depth == 0 {
        let bits = q.bits(vector);
        let leaf = q.block(ranks_in(height, bits, row, before))?;
        return Ok(leaf);
    }
    let half = side_of(height - 1);
    let Quarters {
        nw: upper,
        sw: lower,
        ..
    } = q.quarters(vector);
    let above = elements(q, upper);
    let nw = ranks(q, depth - 1, upper, above, row, before)?;
    let ne = ranks(q, depth - 1, lower, many - above, row, before + above)?;
    let sw = ranks(q, depth - 1, upper, above, row + half, before)?;
    if lower.name == upper.name && above == half {
        let full = q.corner(nw, ne, sw, nw)?;
        return Ok(full);
    }
    let se = ranks(
        q,
        depth - 1,
        lower,
        many - above,
        row + half,
        before + above,
    )?;
    let corner = q.corner(nw, ne, sw, se)?;
    Ok(corner)
}

/// `{(r, x) : x is element number r of v, from 0}`: lists the elements of a vector in order, with one row for each
/// element; the injection of the subset that the vector is (Schmidt and Ströhlein, *Relations and Graphs*).
#[tactic(auto, unfolding(rel_model::specs::Trees::top_height))]
pub fn inj<Q: Quads>(q: &mut Q, v: Rel) -> Result<Rel, Lack>
    requires stands { Stands (Q.worker q.old) v }
    requires one_column { v.cols ≡ 1 }
    ensures value { IfOk result (Gives (Q.worker q.new) (count_below v.rows (holds (set_of (Q.worker q.old) v)))
        v.rows (inj_of (set_of (Q.worker q.old) v))) }
    ensures keeps { Keeps (Q.worker q.old) (Q.worker q.new) }
    ensures room { MakesAtMost (derived_room v.rows v.cols v.cols) (Q.worker q.old) (Q.worker q.new) }
    ensures tree { MakesAtMost (relation_room Q.least v.rows v.cols) (Q.worker q.old) (Q.worker q.new) }
    ensures cause { HasCause Q.lean (Q.worker q.old) (Q.worker q.new) result }
{
    let vector = q.root(v);
    let many = elements(q, vector);
    let depth = vector.height - q.bottom();
    match ranks(q, depth, vector, many, 0, 0) {
        Ok(quad) => {
            let shape = Shape {
                rows: many,
                cols: v.rows,
            };
            Ok(q.rel(shape, quad))
        }
        Err(lack) => Err(lack),
    }
}
