//! What the tests are built from: tables, quads of plain relations, and comparisons.
#![tactic(auto, using(crate::proofs::Later::stays_kept, crate::proofs::Later::stays_on, crate::proofs::Later::stands_kept, crate::proofs::Later::stands_later, crate::proofs::Later::rel_later, crate::proofs::Later::none_stands), unfolding(rel_model::specs::Trees::bottom_height, rel_model::specs::Trees::top_height))]

ghost use Rattle.std.specs.Prelude.{◌≡◌, ◌<◌, ◌≤◌};
ghost use Rattle.rel_model.specs.Trees.{bottom_height, top_height};
ghost use Rattle.rel_model.specs.Equations.{side_of};
ghost use Rattle.rel_model.specs.Quads.{Keeper, IsKeeper, QuadStands};
ghost use Rattle.rel_model.specs.Worker.{Worker, Stands, Keeps};
ghost use Rattle.rel_model.specs.Views.{IsOf};
ghost use Rattle.test_trees.specs.Staying.{Stays};

use pair_table::{PairTable, Seat};
use quad_nodes::{Nodes, side_of_height};
use rel_boole::{diff_quads, union_quads};
use rel_model::core_trait::Core;
use rel_model::{Quad, Rel, Shape};
use std::alloc::Global;
use std::process::Abort;

/// A table of 2^18 node words, and its first seat.
pub fn table(rt: &impl Abort, alloc: Global) -> (PairTable, Seat)
    ensures { IsOf result.1 result.0 }
{
    match PairTable::make(alloc, 18, 1) {
        Ok(made) => made,
        Err(_) => panic!(rt; "no memory"),
    }
}

/// The quad of one cell: a rectangle minus the rectangles above its last cell and to the left of it.
pub fn cell(rt: &impl Abort, nodes: &mut Nodes, height: u8, i: u32, j: u32) -> Quad
    requires low { bottom_height ≤ height }
    requires high { height ≤ top_height }
    requires row { i < side_of height }
    requires col { j < side_of height }
    ensures stands { QuadStands nodes.new result }
    ensures height { result.height ≡ height }
    ensures stays { Stays nodes.old nodes.new }
{
    assert!(rt; i < 1000 && j < 1000);
    let Ok(whole) = nodes.rect(height, i + 1, j + 1) else {
        panic!(rt; "the table is full")
    };
    let Ok(above) = nodes.rect(height, i, j + 1) else {
        panic!(rt; "the table is full")
    };
    let Ok(row) = diff_quads(nodes, whole, above) else {
        panic!(rt; "the table is full")
    };
    let Ok(left) = nodes.rect(height, i + 1, j) else {
        panic!(rt; "the table is full")
    };
    match diff_quads(nodes, row, left) {
        Ok(one) => one,
        Err(_) => panic!(rt; "the table is full"),
    }
}

/// A quad with one more cell.
pub fn with_cell(rt: &impl Abort, nodes: &mut Nodes, q: Quad, i: u32, j: u32) -> Quad
    requires stands { QuadStands nodes.old q }
    requires row { i < side_of q.height }
    requires col { j < side_of q.height }
    ensures stands { QuadStands nodes.new result }
    ensures height { result.height ≡ q.height }
    ensures stays { Stays nodes.old nodes.new }
{
    let one = cell(rt, nodes, q.height, i, j);
    match union_quads(nodes, q, one) {
        Ok(more) => more,
        Err(_) => panic!(rt; "the table is full"),
    }
}

/// The quad of a plain relation, built cell by cell.
pub fn quad_of<P: Core>(
    rt: &impl Abort,
    nodes: &mut Nodes,
    plain: &mut P,
    r: Rel,
    height: u8,
) -> Quad
    requires low { bottom_height ≤ height }
    requires high { height ≤ top_height }
    requires standing { Stands (P.worker plain.old) r }
    ensures stands { QuadStands nodes.new result }
    ensures height { result.height ≡ height }
    ensures stays { Stays nodes.old nodes.new }
    ensures keeps { Keeps (P.worker plain.old) (P.worker plain.new) }
{
    let side = side_of_height(height);
    assert!(rt; r.rows <= side && r.cols <= side);
    let Ok(mut q) = nodes.rect(height, 0, 0) else {
        panic!(rt; "the table is full")
    };
    'rows: for i in 0..r.rows {
        'cols: for j in 0..r.cols {
            if plain.has(r, i, j) {
                q = with_cell(rt, nodes, q, i, j);
            }
        }
    }
    q
}

/// A plain relation of some pseudo-random pairs.
pub fn plain_of<P: Core>(rt: &impl Abort, plain: &mut P, shape: Shape, count: u32, seed: u64) -> Rel
    requires row { shape.rows ≤ 40 }
    requires col { shape.cols ≤ 40 }
    requires some_row { 0 < shape.rows }
    requires some_col { 0 < shape.cols }
    ensures standing { Stands (P.worker plain.new) result }
    ensures rows { result.rows ≡ shape.rows }
    ensures cols { result.cols ≡ shape.cols }
    ensures keeps { Keeps (P.worker plain.old) (P.worker plain.new) }
{
    let Ok(mut r) = plain.empty(shape) else {
        panic!(rt; "no memory")
    };
    let mut state = seed;
    'pairs: for _ in 0..count {
        state = state
            .wrapping_mul(6364136223846793005)
            .wrapping_add(1442695040888963407);
        let i = ((state >> 33) % shape.rows as u64) as u32;
        let j = ((state >> 48) % shape.cols as u64) as u32;
        let Ok(pair) = plain.single(shape, i, j) else {
            panic!(rt; "no memory")
        };
        let Ok(more) = plain.union(r, pair) else {
            panic!(rt; "no memory")
        };
        r = more;
    }
    r
}

/// Asserts that a quad has exactly the cells of a plain relation.
pub fn has_the_cells<P: Core>(rt: &impl Abort, nodes: &mut Nodes, plain: &mut P, q: Quad, r: Rel)
    requires stands { QuadStands nodes.old q }
    requires standing { Stands (P.worker plain.old) r }
    ensures { Keeps (P.worker plain.old) (P.worker plain.new) }
{
    let side = side_of_height(q.height);
    'rows: for i in 0..side {
        'cols: for j in 0..side {
            let want = i < r.rows && j < r.cols && plain.has(r, i, j);
            assert!(rt; nodes.has(q, i, j) == want, "at {i}, {j}");
        }
    }
}

/// The plain relation of a number, of sizes up to 2: bit `i * cols + j` is the pair (i, j).
pub fn numbered<P: Core>(rt: &impl Abort, plain: &mut P, shape: Shape, number: u32) -> Rel
    requires row { shape.rows ≤ 2 }
    requires col { shape.cols ≤ 2 }
    ensures standing { Stands (P.worker plain.new) result }
    ensures rows { result.rows ≡ shape.rows }
    ensures cols { result.cols ≡ shape.cols }
    ensures keeps { Keeps (P.worker plain.old) (P.worker plain.new) }
{
    let Ok(mut r) = plain.empty(shape) else {
        panic!(rt; "no memory")
    };
    let mut left = number;
    'rows: for i in 0..shape.rows {
        'cols: for j in 0..shape.cols {
            if left % 2 == 1 {
                let Ok(pair) = plain.single(shape, i, j) else {
                    panic!(rt; "no memory")
                };
                let Ok(more) = plain.union(r, pair) else {
                    panic!(rt; "no memory")
                };
                r = more;
            }
            left /= 2;
        }
    }
    r
}
