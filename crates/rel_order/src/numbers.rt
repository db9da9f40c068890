//! The strict order of elements by their numbers.
ghost use Rattle.std.specs.Prelude.{◌≡◌, ◌≤◌, ◌<◌, ◌+◌, ◌*◌, ◌^◌, IfOk};
ghost use Rattle.rel_model.specs.Relation.{size_limit};
ghost use Rattle.rel_model.specs.Cells.{bits_cells};
ghost use Rattle.rel_model.specs.Orders.{less as less_of};
ghost use Rattle.rel_model.specs.Roots.{tree_room};
ghost use Rattle.rel_model.specs.Trees.{top_height};
ghost use Rattle.rel_model.specs.Worker.{Gives, GivesQuad, Keeps, MakesAtMost, HasCause, derived_room};
ghost use Rattle.rel_order.specs.Steps.{ascending};

use rel_model::core_trait::Core;
use rel_model::empty::side_of;
use rel_model::quads_trait::Quads;
use rel_model::{Lack, Quad, Rel, Shape};

/// The word of a leaf, row by row: each row has the columns after its own number.
fn leaf_word(least: u8) -> u64
    requires { least ≤ 3 }
    ensures cells { bits_cells (2 ^ least) result ≡ ascending (2 ^ least) }
    ensures none_past { result < 2 ^ (2 ^ least * 2 ^ least) }
{
    match least {
        0 => 0,
        1 => 0x2,
        2 => 0x08ce,
        _ => 0x0080_c0e0_f0f8_fcfe,
    }
}

/// The quad of the cells (i, j) with i < j, `depth` heights above the leaves: its north-western and south-eastern
/// quarters are the same quad, and its north-eastern quarter is full.
#[tactic(auto, unfolding(rel_model::specs::Trees::top_height))]
fn upper<Q: Quads>(q: &mut Q, depth: u8) -> Result<Quad, Lack>
    requires { Q.least + depth ≤ top_height }
    ensures value { IfOk result (GivesQuad (Q.worker q.new) (Q.least + depth) (ascending (2 ^ (Q.least + depth)))) }
    ensures keeps { Keeps (Q.worker q.old) (Q.worker q.new) }
    ensures room { MakesAtMost (tree_room depth) (Q.worker q.old) (Q.worker q.new) }
    ensures cause { HasCause Q.lean (Q.worker q.old) (Q.worker q.new) result }
{
    let height = q.bottom() + depth;
    if depth == 0 {
        let leaf = q.block(leaf_word(height))?;
        return Ok(leaf);
    }
    let part = upper(q, depth - 1)?;
    let half = side_of(height - 1);
    let full = q.rect(height - 1, half, half)?;
    let none = Quad {
        height: height - 1,
        name: 0,
    };
    let corner = q.corner(part, full, none, part)?;
    Ok(corner)
}

/// `{(i, j) : i < j}`: the strict order of n elements by their numbers, with n rows and n columns.
///
/// It is built by halving in the least square that has n rows, and cut to its first n rows and columns.
#[tactic(auto, unfolding(rel_model::specs::Trees::top_height))]
pub fn less<Q: Quads>(q: &mut Q, n: u32) -> Result<Rel, Lack>
    requires { n ≤ size_limit }
    ensures value { IfOk result (Gives (Q.worker q.new) n n (less_of n)) }
    ensures keeps { Keeps (Q.worker q.old) (Q.worker q.new) }
    ensures room { MakesAtMost (derived_room n n n) (Q.worker q.old) (Q.worker q.new) }
    ensures cause { HasCause Q.lean (Q.worker q.old) (Q.worker q.new) result }
{
    let shape = Shape { rows: n, cols: n };
    let none = q.empty(shape)?;
    let height = q.root(none).height;
    let order = upper(q, height - q.bottom())?;
    let first = q.rect(height, n, n)?;
    let side = side_of(height);
    let whole = Shape {
        rows: side,
        cols: side,
    };
    let all = q.rel(whole, order);
    let kept = q.rel(whole, first);
    let cut = q.inter(all, kept)?;
    let quad = q.root(cut);
    Ok(q.rel(shape, quad))
}
