//! The tree of the relation of a rule, built from its squares.
ghost use Rattle.std.specs.Prelude.{◌≡◌, ◌<◌, ◌≤◌, ◌+◌, ◌-◌, ◌*◌, ◌^◌, IfOk};
ghost use Rattle.rel_model.specs.Cells.{bits_cells};
ghost use Rattle.rel_model.specs.Relation.{relation_of, size_limit};
ghost use Rattle.rel_model.specs.Trees.{top_height};
ghost use Rattle.rel_model.specs.Worker.{Gives, GivesQuad, Keeps, MakesAtMost, HasCause, operator_room};
ghost use Rattle.rel_steps.specs.Making.{MakesQuad};
ghost use Rattle.rel_domains.specs.Rules.{IsRule, passes, rule_cells, window};
ghost use Rattle.rel_model.specs.Roots.{relation_room, tree_room};

use crate::heights::depth_over;
use crate::missing::{goes_on, misses, repeats};
use crate::row::row_at;
use crate::rule::Rule;
use rel_model::core_trait::Core;
use rel_model::empty::side_of;
use rel_model::quads_trait::Quads;
use rel_model::{Lack, Quad, Rel, Shape};

/// The word of a leaf, row after row.
fn word_at(least: u8, shape: Shape, rule: Rule, row: u32, col: u32) -> u64
    requires low { least ≤ 3 }
    requires rule { IsRule shape.rows rule }
    requires row { row + 2 ^ least ≤ size_limit }
    requires col { col + 2 ^ least ≤ size_limit }
    ensures cells { bits_cells (2 ^ least) result ≡ window (2 ^ least) row col (rule_cells shape.rows shape.cols rule) }
    ensures none_past { result < 2 ^ (2 ^ least * 2 ^ least) }
{
    let side = side_of(least);
    let mut bits = 0;
    'rows: for i in 0..side {
        let cells = row_at(shape, rule, row + i, col, side);
        bits += cells << (side * i);
    }
    bits
}

/// The quad of the square from a row and a column on, `depth` heights above the leaves.
#[tactic(auto, unfolding(rel_model::specs::Trees::top_height), using(crate::proofs::Places::side_step, crate::proofs::Places::power_step, crate::proofs::Places::some_cells))]
fn square<Q: Quads>(
    q: &mut Q,
    depth: u8,
    shape: Shape,
    rule: Rule,
    row: u32,
    col: u32,
) -> Result<Quad, Lack>
    requires high { Q.least + depth ≤ top_height }
    requires rule { IsRule shape.rows rule }
    requires row { row + 2 ^ (Q.least + depth) ≤ size_limit }
    requires col { col + 2 ^ (Q.least + depth) ≤ size_limit }
    ensures { MakesQuad Q.lean (tree_room depth) (Q.least + depth)
        (window (2 ^ (Q.least + depth)) row col (rule_cells shape.rows shape.cols rule))
        (Q.worker q.old) (Q.worker q.new) result }
{
    let height = q.bottom() + depth;
    if misses(shape, rule, row, col, side_of(height)) {
        return Ok(Quad { height, name: 0 });
    }
    if depth == 0 {
        let leaf = q.block(word_at(height, shape, rule, row, col))?;
        return Ok(leaf);
    }
    let half = side_of(height - 1);
    let nw = square(q, depth - 1, shape, rule, row, col)?;
    let ne = square(q, depth - 1, shape, rule, row, col + half)?;
    if repeats(shape, rule, row, half) {
        let twice = q.corner(nw, ne, nw, ne)?;
        return Ok(twice);
    }
    let sw = square(q, depth - 1, shape, rule, row + half, col)?;
    if goes_on(shape, rule, row, col, half) {
        let regular = q.corner(nw, ne, sw, nw)?;
        return Ok(regular);
    }
    let se = square(q, depth - 1, shape, rule, row + half, col + half)?;
    let corner = q.corner(nw, ne, sw, se)?;
    Ok(corner)
}

/// `{(i, j) : row i has column j}`: the relation of a rule.
#[tactic(auto, unfolding(rel_model::specs::Trees::top_height))]
pub fn relation_by<Q: Quads>(q: &mut Q, shape: Shape, rule: Rule) -> Result<Rel, Lack>
    requires row_limit { shape.rows ≤ size_limit }
    requires col_limit { shape.cols ≤ size_limit }
    requires rule { IsRule shape.rows rule }
    ensures value { IfOk result (Gives (Q.worker q.new) shape.rows shape.cols
        (relation_of shape.rows shape.cols (passes rule))) }
    ensures keeps { Keeps (Q.worker q.old) (Q.worker q.new) }
    ensures room { MakesAtMost (operator_room shape.rows shape.cols) (Q.worker q.old) (Q.worker q.new) }
    ensures tree { MakesAtMost (relation_room Q.least shape.rows shape.cols) (Q.worker q.old) (Q.worker q.new) }
    ensures cause { HasCause Q.lean (Q.worker q.old) (Q.worker q.new) result }
{
    let depth = depth_over(q.bottom(), shape.rows, shape.cols);
    match square(q, depth, shape, rule, 0, 0) {
        Ok(quad) => Ok(q.rel(shape, quad)),
        Err(lack) => Err(lack),
    }
}
