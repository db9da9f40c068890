//! The trees compared with plain relations, and what the operators note.
#![tactic(auto, using(crate::proofs::Later::stays_kept, crate::proofs::Later::stays_on, crate::proofs::Later::stands_kept, crate::proofs::Later::stands_later, crate::proofs::Later::rel_later, crate::proofs::Later::none_stands), unfolding(rel_model::specs::Trees::bottom_height, rel_model::specs::Trees::top_height))]

ghost use Rattle.std.specs.Prelude.{◌≡◌, ◌≢◌, ◌<◌, ◌≤◌, ◌+◌};
ghost use Rattle.rel_model.specs.Equations.{Transpose};
ghost use Rattle.rel_model.specs.Trees.{bottom_height, top_height};
ghost use Rattle.rel_model.specs.Equations.{side_of};
ghost use Rattle.rel_model.specs.Quads.{Keeper, IsKeeper, QuadStands};
ghost use Rattle.rel_model.specs.Worker.{Worker, Stands, Keeps};
ghost use Rattle.rel_model.specs.Views.{IsOf};
ghost use Rattle.memo_laws.specs.Looking.{operator_of};
ghost use Rattle.test_trees.specs.Staying.{Stays};

use crate::making::{has_the_cells, numbered, plain_of, quad_of, table, with_cell};
use memo_laws::Op;
use quad_nodes::{Nodes, side_of_height};
use rel_boole::{diff_quads, inter_quads, union_quads};
use rel_compose::{compose_quads, transpose_quad};
use rel_model::core_trait::Core;
use rel_model::{Quad, Rel, Shape};
use rel_plain::Plain;
use std::alloc::Global;
use std::process::Abort;

/// The result of an operator on two quads, or on the first one if it has one operand.
fn result_of(rt: &impl Abort, nodes: &mut Nodes, op: Op, a: Quad, b: Quad) -> Quad
    requires a_stands { QuadStands nodes.old a }
    requires b_stands { QuadStands nodes.old b }
    requires one_height { b.height ≡ a.height }
    ensures stands { QuadStands nodes.new result }
    ensures height { result.height ≡ a.height }
    ensures stays { Stays nodes.old nodes.new }
{
    let made = match op {
        Op::Union => union_quads(nodes, a, b),
        Op::Inter => inter_quads(nodes, a, b),
        Op::Diff => diff_quads(nodes, a, b),
        Op::Transpose => transpose_quad(nodes, a),
        Op::Compose => compose_quads(nodes, a, b),
    };
    match made {
        Ok(result) => result,
        Err(_) => panic!(rt; "the table is full"),
    }
}

/// The result of an operator on two plain relations, or on the first one if it has one operand.
fn plain_result<P: Core>(rt: &impl Abort, plain: &mut P, op: Op, r: Rel, s: Rel) -> Rel
    requires left { Stands (P.worker plain.old) r }
    requires right { Stands (P.worker plain.old) s }
    requires rows { r.rows ≡ s.rows }
    requires cols { r.cols ≡ s.cols }
    ensures standing { Stands (P.worker plain.new) result }
    ensures keeps { Keeps (P.worker plain.old) (P.worker plain.new) }
{
    let made = match op {
        Op::Union => plain.union(r, s),
        Op::Inter => plain.inter(r, s),
        Op::Diff => plain.diff(r, s),
        Op::Transpose => plain.transpose(r),
        Op::Compose => {
            assert!(rt; r.cols == s.rows);
            plain.compose(r, s)
        }
    };
    match made {
        Ok(result) => result,
        Err(_) => panic!(rt; "no memory"),
    }
}

/// Asserts that each operator has the same result on trees as on plain relations: the same cells, under the same name.
fn agree<P: Core>(
    rt: &impl Abort,
    nodes: &mut Nodes,
    plain: &mut P,
    op: Op,
    r: Rel,
    s: Rel,
    height: u8,
)
    requires low { bottom_height ≤ height }
    requires high { height ≤ top_height }
    requires left { Stands (P.worker plain.old) r }
    requires right { Stands (P.worker plain.old) s }
    requires rows { r.rows ≡ s.rows }
    requires cols { r.cols ≡ s.cols }
    ensures { Keeps (P.worker plain.old) (P.worker plain.new) }
{
    let a = quad_of(rt, nodes, plain, r, height);
    let b = quad_of(rt, nodes, plain, s, height);
    let found = result_of(rt, nodes, op, a, b);
    let want = plain_result(rt, plain, op, r, s);
    has_the_cells(rt, nodes, plain, found, want);
    let wanted = quad_of(rt, nodes, plain, want, height);
    assert!(rt; found == wanted, "{op:?}");
}

const OPERATORS: [Op; 4] = [Op::Union, Op::Inter, Op::Diff, Op::Transpose];

/// Asserts that each operator agrees on each two of some pseudo-random relations.
fn all_agree(rt: &impl Abort, alloc: Global, shape: Shape, height: u8, choices: &[(u32, u64)])
    requires low { bottom_height ≤ height }
    requires high { height ≤ top_height }
    requires row { shape.rows ≤ 40 }
    requires col { shape.cols ≤ 40 }
    requires some_row { 0 < shape.rows }
    requires some_col { 0 < shape.cols }
{
    let (table, seat) = table(rt, alloc);
    let mut nodes = Nodes::new(&table, seat);
    let mut plain = Plain::new(alloc);
    'firsts: for (count, seed) in choices {
        'seconds: for (other_count, other_seed) in choices {
            'operators: for op in OPERATORS {
                two_agree(
                    rt,
                    &mut nodes,
                    &mut plain,
                    op,
                    shape,
                    height,
                    (*count, *seed),
                    (*other_count, *other_seed),
                );
            }
        }
    }
}

/// Asserts that an operator agrees on two pseudo-random relations.
fn two_agree<P: Core>(
    rt: &impl Abort,
    nodes: &mut Nodes,
    plain: &mut P,
    op: Op,
    shape: Shape,
    height: u8,
    first: (u32, u64),
    second: (u32, u64),
)
    requires low { bottom_height ≤ height }
    requires high { height ≤ top_height }
    requires row { shape.rows ≤ 40 }
    requires col { shape.cols ≤ 40 }
    requires some_row { 0 < shape.rows }
    requires some_col { 0 < shape.cols }
{
    let r = plain_of(rt, plain, shape, first.0, first.1);
    let s = plain_of(rt, plain, shape, second.0, second.1);
    agree(rt, nodes, plain, op, r, s, height);
}

/// Asserts that each operator agrees on each two relations of one type with sizes up to 2.
fn small_ones_agree(rt: &impl Abort, alloc: Global, shape: Shape)
    requires row { shape.rows ≤ 2 }
    requires col { shape.cols ≤ 2 }
{
    let (table, seat) = table(rt, alloc);
    let mut nodes = Nodes::new(&table, seat);
    let mut plain = Plain::new(alloc);
    let all = 1u32 << (shape.rows * shape.cols);
    'firsts: for first in 0..all {
        'seconds: for second in 0..all {
            'operators: for op in OPERATORS {
                two_small_agree(rt, &mut nodes, &mut plain, op, shape, first, second);
            }
        }
    }
}

/// Asserts that an operator agrees on two relations with sizes up to 2.
fn two_small_agree<P: Core>(
    rt: &impl Abort,
    nodes: &mut Nodes,
    plain: &mut P,
    op: Op,
    shape: Shape,
    first: u32,
    second: u32,
)
    requires row { shape.rows ≤ 2 }
    requires col { shape.cols ≤ 2 }
{
    let r = numbered(rt, plain, shape, first);
    let s = numbered(rt, plain, shape, second);
    agree(rt, nodes, plain, op, r, s, nodes.bottom());
}

#[test]
fn relations_with_sizes_up_to_2_combine_as_plain_ones(rt: HostRuntime) {
    'rows: for rows in 0..3 {
        'cols: for cols in 0..3 {
            small_ones_agree(&rt, rt.alloc(), Shape { rows, cols });
        }
    }
}

#[test]
fn blocks_combine_as_plain_relations(rt: HostRuntime) {
    let shape = Shape { rows: 8, cols: 8 };
    let choices = [(0, 1), (1, 2), (5, 3), (20, 4), (60, 5), (900, 6)];
    all_agree(&rt, rt.alloc(), shape, 3, &choices);
}

#[test]
fn full_squares_combine_as_plain_relations(rt: HostRuntime) {
    let shape = Shape { rows: 16, cols: 16 };
    let choices = [(0, 1), (30, 2), (4000, 3)];
    all_agree(&rt, rt.alloc(), shape, 4, &choices);
}

#[test]
fn pseudo_random_relations_combine_as_plain_ones(rt: HostRuntime) {
    let choices = [(0, 1), (1, 2), (40, 3), (300, 4)];
    'shapes: for (rows, cols) in [(40, 40), (1, 40), (40, 1), (17, 33), (9, 8)] {
        all_agree(&rt, rt.alloc(), Shape { rows, cols }, 6, &choices);
    }
}

/// The quad of the pairs (i, by * i + more) of 16 vertices, modulo 16.
fn of_16_vertices(rt: &impl Abort, nodes: &mut Nodes, by: u32, more: u32) -> Quad
    requires small { by ≤ 16 }
    requires less { more ≤ 16 }
    ensures stands { QuadStands nodes.new result }
    ensures height { result.height ≡ 4 }
    ensures stays { Stays nodes.old nodes.new }
{
    let Ok(mut q) = nodes.rect(4, 0, 0) else {
        panic!(rt; "the table is full")
    };
    'vertices: for i in 0..16 {
        let j = (by * i + more) % 16;
        let side = side_of_height(q.height);
        assert!(rt; i < side && j < side);
        q = with_cell(rt, nodes, q, i, j);
    }
    q
}

/// Looks up the result of an operator, by the operands as they are given.
fn looked(nodes: &mut Nodes, op: Op, a: Quad, b: Quad) -> Option<Quad>
    requires a_stands { QuadStands nodes.old a }
    requires b_stands { QuadStands nodes.old b }
    requires one_height { b.height ≡ a.height }
    ensures stays { Stays nodes.old nodes.new }
{
    let none = Quad::empty(a.height);
    match op {
        Op::Union => nodes.look(Op::Union, a, b),
        Op::Inter => nodes.look(Op::Inter, a, b),
        Op::Diff => nodes.look(Op::Diff, a, b),
        Op::Transpose => nodes.look(Op::Transpose, a, none),
        Op::Compose => nodes.look(Op::Compose, a, b),
    }
}

/// Asserts that the result of an operator is found right after it was made, by the operands as they were given.
fn finds_what_it_made(rt: &impl Abort, nodes: &mut Nodes, op: Op, a: Quad, b: Quad)
    requires a_stands { QuadStands nodes.old a }
    requires b_stands { QuadStands nodes.old b }
    requires one_height { b.height ≡ a.height }
    ensures stays { Stays nodes.old nodes.new }
{
    let made = result_of(rt, nodes, op, a, b);
    let found = looked(nodes, op, a, b);
    assert!(rt; found == Some(made), "{op:?}");
}

/// Asserts that the result of an operator is found right after it was made, by the operands in the other order.
fn finds_it_the_other_way(rt: &impl Abort, nodes: &mut Nodes, op: Op, a: Quad, b: Quad)
    requires a_stands { QuadStands nodes.old a }
    requires b_stands { QuadStands nodes.old b }
    requires one_height { b.height ≡ a.height }
    ensures stays { Stays nodes.old nodes.new }
{
    let made = result_of(rt, nodes, op, a, b);
    let found = looked(nodes, op, b, a);
    assert!(rt; found == Some(made), "{op:?}, the other way round");
}

#[test]
fn what_an_operator_made_of_a_cycle_is_found_right_after_it(rt: HostRuntime) {
    let (table, seat) = table(&rt, rt.alloc());
    let mut nodes = Nodes::new(&table, seat);
    let cycle = of_16_vertices(&rt, &mut nodes, 1, 1);
    let square = result_of(&rt, &mut nodes, Op::Compose, cycle, cycle);
    'operators: for op in OPERATORS {
        finds_what_it_made(&rt, &mut nodes, op, cycle, square);
    }
    'turned: for op in [Op::Union, Op::Inter] {
        finds_it_the_other_way(&rt, &mut nodes, op, cycle, square);
    }
}
