//! Compositions of trees compared with those of plain relations.
#![tactic(auto, using(crate::proofs::Later::stays_kept, crate::proofs::Later::stays_on, crate::proofs::Later::stands_kept, crate::proofs::Later::stands_later, crate::proofs::Later::rel_later, crate::proofs::Later::none_stands), unfolding(rel_model::specs::Trees::bottom_height, rel_model::specs::Trees::top_height))]

ghost use Rattle.std.specs.Prelude.{◌≡◌, ◌<◌, ◌≤◌};
ghost use Rattle.rel_model.specs.Trees.{bottom_height, top_height};
ghost use Rattle.rel_model.specs.Worker.{Worker, Stands, Keeps};

use crate::making::{has_the_cells, numbered, plain_of, quad_of, table};
use quad_nodes::Nodes;
use rel_compose::compose_quads;
use rel_model::core_trait::Core;
use rel_model::{Rel, Shape};
use rel_plain::Plain;
use std::alloc::Global;
use std::process::Abort;

/// Asserts that the trees compose as the plain relations do: the same cells, under the same name.
fn products_agree<P: Core>(
    rt: &impl Abort,
    nodes: &mut Nodes,
    plain: &mut P,
    r: Rel,
    s: Rel,
    height: u8,
)
    requires low { bottom_height ≤ height }
    requires high { height ≤ top_height }
    requires left { Stands (P.worker plain.old) r }
    requires right { Stands (P.worker plain.old) s }
    requires middle { r.cols ≡ s.rows }
{
    let a = quad_of(rt, nodes, plain, r, height);
    let b = quad_of(rt, nodes, plain, s, height);
    let Ok(found) = compose_quads(nodes, a, b) else {
        panic!(rt; "the table is full")
    };
    let Ok(want) = plain.compose(r, s) else {
        panic!(rt; "no memory")
    };
    has_the_cells(rt, nodes, plain, found, want);
    let wanted = quad_of(rt, nodes, plain, want, height);
    assert!(rt; found == wanted, "the product");
}

/// Asserts that two pseudo-random relations compose like plain ones.
fn two_products_agree<P: Core>(
    rt: &impl Abort,
    nodes: &mut Nodes,
    plain: &mut P,
    left: Shape,
    right: Shape,
    height: u8,
    first: (u32, u64),
    second: (u32, u64),
)
    requires low { bottom_height ≤ height }
    requires high { height ≤ top_height }
    requires rows { left.rows ≤ 40 }
    requires middle { left.cols ≤ 40 }
    requires cols { right.cols ≤ 40 }
    requires some_row { 0 < left.rows }
    requires some_middle { 0 < left.cols }
    requires some_col { 0 < right.cols }
    requires one_middle { left.cols ≡ right.rows }
{
    let r = plain_of(rt, plain, left, first.0, first.1);
    let s = plain_of(rt, plain, right, second.0, second.1);
    products_agree(rt, nodes, plain, r, s, height);
}

/// Asserts that each two of some pseudo-random relations compose like plain ones.
fn all_products_agree(
    rt: &impl Abort,
    alloc: Global,
    left: Shape,
    right: Shape,
    height: u8,
    choices: &[(u32, u64)],
)
    requires low { bottom_height ≤ height }
    requires high { height ≤ top_height }
    requires rows { left.rows ≤ 40 }
    requires middle { left.cols ≤ 40 }
    requires cols { right.cols ≤ 40 }
    requires some_row { 0 < left.rows }
    requires some_middle { 0 < left.cols }
    requires some_col { 0 < right.cols }
    requires one_middle { left.cols ≡ right.rows }
{
    let (table, seat) = table(rt, alloc);
    let mut nodes = Nodes::new(&table, seat);
    let mut plain = Plain::new(alloc);
    'firsts: for first in choices {
        'seconds: for second in choices {
            two_products_agree(
                rt, &mut nodes, &mut plain, left, right, height, *first, *second,
            );
        }
    }
}

/// Asserts that each two relations with sizes up to 2 compose like plain ones.
fn small_products_agree(rt: &impl Abort, alloc: Global, left: Shape, right: Shape)
    requires rows { left.rows ≤ 2 }
    requires middle { left.cols ≤ 2 }
    requires cols { right.cols ≤ 2 }
    requires one_middle { left.cols ≡ right.rows }
{
    let (table, seat) = table(rt, alloc);
    let mut nodes = Nodes::new(&table, seat);
    let mut plain = Plain::new(alloc);
    'firsts: for first in 0..1u32 << (left.rows * left.cols) {
        'seconds: for second in 0..1u32 << (right.rows * right.cols) {
            two_small_products_agree(rt, &mut nodes, &mut plain, left, right, first, second);
        }
    }
}

/// Asserts that two relations with sizes up to 2 compose like plain ones.
fn two_small_products_agree<P: Core>(
    rt: &impl Abort,
    nodes: &mut Nodes,
    plain: &mut P,
    left: Shape,
    right: Shape,
    first: u32,
    second: u32,
)
    requires rows { left.rows ≤ 2 }
    requires middle { left.cols ≤ 2 }
    requires cols { right.cols ≤ 2 }
    requires one_middle { left.cols ≡ right.rows }
{
    let r = numbered(rt, plain, left, first);
    let s = numbered(rt, plain, right, second);
    products_agree(rt, nodes, plain, r, s, nodes.bottom());
}

#[test]
fn relations_with_sizes_up_to_2_compose_as_plain_ones(rt: HostRuntime) {
    'rows: for rows in 0..3 {
        'middles: for middle in 0..3 {
            'cols: for cols in 0..3 {
                let left = Shape { rows, cols: middle };
                let right = Shape { rows: middle, cols };
                small_products_agree(&rt, rt.alloc(), left, right);
            }
        }
    }
}

#[test]
fn blocks_compose_as_plain_relations(rt: HostRuntime) {
    let shape = Shape { rows: 8, cols: 8 };
    let choices = [(0, 1), (1, 2), (5, 3), (20, 4), (900, 5)];
    all_products_agree(&rt, rt.alloc(), shape, shape, 3, &choices);
}

#[test]
fn full_squares_compose_as_plain_relations(rt: HostRuntime) {
    let shape = Shape { rows: 16, cols: 16 };
    let choices = [(0, 1), (30, 2), (4000, 3)];
    all_products_agree(&rt, rt.alloc(), shape, shape, 4, &choices);
}

#[test]
fn pseudo_random_relations_compose_as_plain_ones(rt: HostRuntime) {
    let choices = [(0, 1), (3, 2), (40, 3), (300, 4)];
    let shapes = [
        (40, 40, 40),
        (1, 40, 17),
        (40, 1, 40),
        (17, 33, 9),
        (9, 8, 40),
    ];
    'shapes: for (rows, middle, cols) in shapes {
        let left = Shape { rows, cols: middle };
        let right = Shape { rows: middle, cols };
        all_products_agree(&rt, rt.alloc(), left, right, 6, &choices);
    }
}
