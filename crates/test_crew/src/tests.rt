//! A crew compared with plain relations through the traits that both implement, and its quads.
#![tactic(auto, using(rel_model::proofs::Workers::keeps_stands, rel_model::proofs::Workers::keeps_trans, rel_model::proofs::Workers::gives_stands, crate::proofs::Later::given_stands))]

ghost use Rattle.std.specs.Prelude.{◌≡◌, ◌<◌, ◌≤◌, IfOk};
ghost use Rattle.rel_model.specs.Relation.{size_limit};
ghost use Rattle.rel_model.specs.Views.{IsOf};
ghost use Rattle.rel_model.specs.Worker.{Stands, HasQuad, Keeps};

use crate::twins::{Twin, given, of_number, plain_of, same_pairs};
use fork_quads::{Crew, OpenGate};
use pair_table::{PairTable, Seat};
use rel_closure::{refl, trans};
use rel_model::core_trait::Core;
use rel_model::quads_trait::Quads;
use rel_model::{Lack, Quad, Quarters, Rel, Shape};
use rel_plain::Plain;
use rel_residual::{left as left_residual, right as right_residual, syq};
use std::alloc::Global;
use std::process::Abort;
use std::thread::Threads;

/// A table of 2^18 node words, and its first seat.
fn table(rt: &impl Abort, alloc: Global) -> (PairTable, Seat)
    ensures { IsOf result.1 result.0 }
{
    match PairTable::make(alloc, 18, 1) {
        Ok(made) => made,
        Err(_) => panic!(rt; "no memory"),
    }
}

/// Asserts that both workers gave a relation, and that these have the same pairs.
fn same_answers<C: Core, P: Core>(
    rt: &impl Abort,
    crew: &mut C,
    plain: &mut P,
    found: Result<Rel, Lack>,
    wanted: Result<Rel, Lack>,
)
    requires standing { IfOk found (Stands (C.worker crew.old)) }
    requires plain_standing { IfOk wanted (Stands (P.worker plain.old)) }
    ensures keeps { Keeps (C.worker crew.old) (C.worker crew.new) }
    ensures plain_keeps { Keeps (P.worker plain.old) (P.worker plain.new) }
{
    let r = given(rt, found);
    let p = given(rt, wanted);
    same_pairs(rt, crew, plain, r, p);
}

/// Asserts that both workers answer each operator on two relations of one type alike.
fn pair_agrees<C: Core, P: Core>(rt: &impl Abort, crew: &mut C, plain: &mut P, a: Twin, b: Twin)
    requires left { Stands (C.worker crew.old) a.crew }
    requires right { Stands (C.worker crew.old) b.crew }
    requires plain_left { Stands (P.worker plain.old) a.plain }
    requires plain_right { Stands (P.worker plain.old) b.plain }
    requires rows { a.crew.rows ≡ b.crew.rows }
    requires cols { a.crew.cols ≡ b.crew.cols }
    requires plain_rows { a.plain.rows ≡ b.plain.rows }
    requires plain_cols { a.plain.cols ≡ b.plain.cols }
    ensures keeps { Keeps (C.worker crew.old) (C.worker crew.new) }
    ensures plain_keeps { Keeps (P.worker plain.old) (P.worker plain.new) }
{
    assert!(rt; crew.same(a.crew, b.crew) == plain.same(a.plain, b.plain));
    let meet = crew.meets(a.crew, b.crew);
    assert!(rt; meet == plain.meets(a.plain, b.plain));
    let either = crew.union(a.crew, b.crew);
    let plain_either = plain.union(a.plain, b.plain);
    same_answers(rt, crew, plain, either, plain_either);
    let both = crew.inter(a.crew, b.crew);
    let plain_both = plain.inter(a.plain, b.plain);
    same_answers(rt, crew, plain, both, plain_both);
    let rest = crew.diff(a.crew, b.crew);
    let plain_rest = plain.diff(a.plain, b.plain);
    same_answers(rt, crew, plain, rest, plain_rest);
}

/// Asserts that both workers answer alike the calls on one relation, or on none.
fn one_agrees<C: Core, P: Core>(rt: &impl Abort, crew: &mut C, plain: &mut P, r: Rel, p: Rel)
    requires standing { Stands (C.worker crew.old) r }
    requires plain_standing { Stands (P.worker plain.old) p }
    requires row { r.rows ≤ size_limit }
    requires col { r.cols ≤ size_limit }
    requires plain_row { p.rows ≤ size_limit }
    requires plain_col { p.cols ≤ size_limit }
    ensures keeps { Keeps (C.worker crew.old) (C.worker crew.new) }
    ensures plain_keeps { Keeps (P.worker plain.old) (P.worker plain.new) }
{
    let turned = crew.transpose(r);
    let plain_turned = plain.transpose(p);
    same_answers(rt, crew, plain, turned, plain_turned);
    let shape = Shape {
        rows: r.rows,
        cols: r.cols,
    };
    let plain_shape = Shape {
        rows: p.rows,
        cols: p.cols,
    };
    let full = crew.full(shape);
    let plain_full = plain.full(plain_shape);
    same_answers(rt, crew, plain, full, plain_full);
}

/// Asserts that both workers answer the composition alike.
fn product_agrees<C: Core, P: Core>(rt: &impl Abort, crew: &mut C, plain: &mut P, a: Twin, b: Twin)
    requires left { Stands (C.worker crew.old) a.crew }
    requires right { Stands (C.worker crew.old) b.crew }
    requires plain_left { Stands (P.worker plain.old) a.plain }
    requires plain_right { Stands (P.worker plain.old) b.plain }
    requires middle { a.crew.cols ≡ b.crew.rows }
    requires plain_middle { a.plain.cols ≡ b.plain.rows }
    ensures keeps { Keeps (C.worker crew.old) (C.worker crew.new) }
    ensures plain_keeps { Keeps (P.worker plain.old) (P.worker plain.new) }
{
    let product = crew.compose(a.crew, b.crew);
    let plain_product = plain.compose(a.plain, b.plain);
    same_answers(rt, crew, plain, product, plain_product);
}

/// Asserts that both workers have the same residuals and symmetric quotient of two relations of one type.
fn residuals_agree<C: Core, P: Core>(rt: &impl Abort, crew: &mut C, plain: &mut P, a: Twin, b: Twin)
    requires left { Stands (C.worker crew.old) a.crew }
    requires right { Stands (C.worker crew.old) b.crew }
    requires plain_left { Stands (P.worker plain.old) a.plain }
    requires plain_right { Stands (P.worker plain.old) b.plain }
    requires rows { a.crew.rows ≡ b.crew.rows }
    requires cols { a.crew.cols ≡ b.crew.cols }
    requires plain_rows { a.plain.rows ≡ b.plain.rows }
    requires plain_cols { a.plain.cols ≡ b.plain.cols }
    ensures keeps { Keeps (C.worker crew.old) (C.worker crew.new) }
    ensures plain_keeps { Keeps (P.worker plain.old) (P.worker plain.new) }
{
    let under = right_residual(crew, a.crew, b.crew);
    let plain_under = right_residual(plain, a.plain, b.plain);
    same_answers(rt, crew, plain, under, plain_under);
    let over = left_residual(crew, a.crew, b.crew);
    let plain_over = left_residual(plain, a.plain, b.plain);
    same_answers(rt, crew, plain, over, plain_over);
    let quotient = syq(crew, a.crew, b.crew);
    let plain_quotient = syq(plain, a.plain, b.plain);
    same_answers(rt, crew, plain, quotient, plain_quotient);
}

/// Asserts that both workers have the same closures of a relation, if it is square.
fn closures_agree<C: Core, P: Core>(rt: &impl Abort, crew: &mut C, plain: &mut P, r: Rel, p: Rel)
    requires standing { Stands (C.worker crew.old) r }
    requires plain_standing { Stands (P.worker plain.old) p }
    ensures keeps { Keeps (C.worker crew.old) (C.worker crew.new) }
    ensures plain_keeps { Keeps (P.worker plain.old) (P.worker plain.new) }
{
    if r.rows == r.cols && p.rows == p.cols {
        let walks = trans(crew, r);
        let plain_walks = trans(plain, p);
        same_answers(rt, crew, plain, walks, plain_walks);
        let reflexive = refl(crew, r);
        let plain_reflexive = refl(plain, p);
        same_answers(rt, crew, plain, reflexive, plain_reflexive);
    }
}

/// Asserts that both workers answer alike every operator on two relations of one type, and the calls that combine
/// several.
fn twins_agree<C: Core, P: Core>(rt: &impl Abort, crew: &mut C, plain: &mut P, a: Twin, b: Twin)
    requires left { Stands (C.worker crew.old) a.crew }
    requires right { Stands (C.worker crew.old) b.crew }
    requires plain_left { Stands (P.worker plain.old) a.plain }
    requires plain_right { Stands (P.worker plain.old) b.plain }
    requires rows { a.crew.rows ≡ b.crew.rows }
    requires cols { a.crew.cols ≡ b.crew.cols }
    requires plain_rows { a.plain.rows ≡ b.plain.rows }
    requires plain_cols { a.plain.cols ≡ b.plain.cols }
    ensures keeps { Keeps (C.worker crew.old) (C.worker crew.new) }
    ensures plain_keeps { Keeps (P.worker plain.old) (P.worker plain.new) }
{
    pair_agrees(rt, crew, plain, a, b);
    residuals_agree(rt, crew, plain, a, b);
    closures_agree(rt, crew, plain, a.crew, a.plain);
    turned_agree(rt, crew, plain, a, b);
}

/// Asserts that both workers transpose a relation alike, and compose another with the result.
fn turned_agree<C: Core, P: Core>(rt: &impl Abort, crew: &mut C, plain: &mut P, a: Twin, b: Twin)
    requires left { Stands (C.worker crew.old) a.crew }
    requires right { Stands (C.worker crew.old) b.crew }
    requires plain_left { Stands (P.worker plain.old) a.plain }
    requires plain_right { Stands (P.worker plain.old) b.plain }
    requires cols { a.crew.cols ≡ b.crew.cols }
    requires plain_cols { a.plain.cols ≡ b.plain.cols }
    ensures keeps { Keeps (C.worker crew.old) (C.worker crew.new) }
    ensures plain_keeps { Keeps (P.worker plain.old) (P.worker plain.new) }
{
    let turned = given(rt, crew.transpose(b.crew));
    let plain_turned = given(rt, plain.transpose(b.plain));
    let second = Twin {
        crew: turned,
        plain: plain_turned,
    };
    product_agrees(rt, crew, plain, a, second);
}

/// Asserts that both workers answer alike every operator on the relations of two numbers.
fn numbers_agree<C: Core, P: Core>(
    rt: &impl Abort,
    crew: &mut C,
    plain: &mut P,
    shape: Shape,
    left: u32,
    right: u32,
)
    requires row { shape.rows ≤ 2 }
    requires col { shape.cols ≤ 2 }
{
    let r = of_number(rt, crew, shape, left);
    let s = of_number(rt, crew, shape, right);
    let p = of_number(rt, plain, shape, left);
    let q = of_number(rt, plain, shape, right);
    let first = Twin { crew: r, plain: p };
    twins_agree(rt, crew, plain, first, Twin { crew: s, plain: q });
    one_agrees(rt, crew, plain, r, p);
}

/// Asserts the same for two pseudo-random relations.
fn random_agree<C: Core, P: Core>(
    rt: &impl Abort,
    crew: &mut C,
    plain: &mut P,
    shape: Shape,
    count: u32,
)
    requires row { shape.rows ≤ 40 }
    requires col { shape.cols ≤ 40 }
    requires some_row { 0 < shape.rows }
    requires some_col { 0 < shape.cols }
{
    let r = plain_of(rt, crew, shape, count, 1);
    let s = plain_of(rt, crew, shape, count, 2);
    let p = plain_of(rt, plain, shape, count, 1);
    let q = plain_of(rt, plain, shape, count, 2);
    let first = Twin { crew: r, plain: p };
    twins_agree(rt, crew, plain, first, Twin { crew: s, plain: q });
    one_agrees(rt, crew, plain, r, p);
}

/// Asserts that both workers answer alike the composition of two pseudo-random relations.
fn random_product_agrees<C: Core, P: Core>(
    rt: &impl Abort,
    crew: &mut C,
    plain: &mut P,
    rows: u32,
    middle: u32,
    cols: u32,
    count: u32,
)
    requires row { rows ≤ 40 }
    requires mid { middle ≤ 40 }
    requires col { cols ≤ 40 }
    requires some_row { 0 < rows }
    requires some_mid { 0 < middle }
    requires some_col { 0 < cols }
    ensures keeps { Keeps (C.worker crew.old) (C.worker crew.new) }
    ensures plain_keeps { Keeps (P.worker plain.old) (P.worker plain.new) }
{
    let left = Shape { rows, cols: middle };
    let right = Shape { rows: middle, cols };
    let r = plain_of(rt, crew, left, count, 3);
    let s = plain_of(rt, crew, right, count, 4);
    let p = plain_of(rt, plain, left, count, 3);
    let q = plain_of(rt, plain, right, count, 4);
    let first = Twin { crew: r, plain: p };
    product_agrees(rt, crew, plain, first, Twin { crew: s, plain: q });
}

/// Asserts that the rectangle of the sizes is the root of the full relation, and that the relation with this root is
/// the full one.
fn full_is_a_rectangle<Q: Quads>(rt: &impl Abort, quads: &mut Q, shape: Shape)
    requires row { shape.rows ≤ size_limit }
    requires col { shape.cols ≤ size_limit }
    ensures keeps { Keeps (Q.worker quads.old) (Q.worker quads.new) }
{
    let full = given(rt, quads.full(shape));
    let root = quads.root(full);
    let Ok(rect) = quads.rect(root.height, shape.rows, shape.cols) else {
        panic!(rt; "refused")
    };
    assert!(rt; rect == root);
    assert!(rt; quads.rel(shape, rect) == full);
}

/// Asserts that a quad is the corner of its quarters, and that each block down its north-west quarters is that of its
/// bits.
fn goes_by_quarters<Q: Quads>(rt: &impl Abort, quads: &mut Q, q: Quad)
    requires stands { HasQuad (Q.worker quads.old) q }
    ensures keeps { Keeps (Q.worker quads.old) (Q.worker quads.new) }
{
    let bottom = quads.bottom();
    if q.height == bottom {
        let bits = quads.bits(q);
        let Ok(block) = quads.block(bits) else {
            panic!(rt; "refused")
        };
        assert!(rt; block == q);
    } else {
        let Quarters { nw, ne, sw, se } = quads.quarters(q);
        let Ok(corner) = quads.corner(nw, ne, sw, se) else {
            panic!(rt; "refused")
        };
        assert!(rt; corner == q);
        goes_by_quarters(rt, quads, nw);
        goes_by_quarters(rt, quads, ne);
        goes_by_quarters(rt, quads, sw);
        goes_by_quarters(rt, quads, se);
    }
}

/// All shapes up to 2 by 2, and how many relations each of them has.
const SMALL: &[(u32, u32, u32)] = &[
    (0, 0, 1),
    (0, 1, 1),
    (1, 0, 1),
    (0, 2, 1),
    (2, 0, 1),
    (1, 1, 2),
    (1, 2, 4),
    (2, 1, 4),
    (2, 2, 16),
];

/// Asserts that both workers answer alike every operator on all relations up to 2 by 2.
fn small_relations_agree<C: Core, P: Core>(rt: &impl Abort, crew: &mut C, plain: &mut P) {
    'shapes: for &(rows, cols, count) in SMALL {
        assert!(rt; rows <= 2 && cols <= 2);
        let shape = Shape { rows, cols };
        'lefts: for left in 0..count {
            'rights: for right in 0..count {
                numbers_agree(rt, crew, plain, shape, left, right);
            }
        }
    }
}

#[test]
fn a_crew_answers_as_plain_relations_on_all_relations_up_to_2_by_2(rt: HostRuntime) {
    let (table, seat) = table(&rt, rt.alloc());
    let mut crew = Crew::new(&rt, &table, seat, 1, &OpenGate);
    let mut plain = Plain::new(rt.alloc());
    small_relations_agree(&rt, &mut crew, &mut plain);
}

/// Asserts that both workers answer alike every operator on pseudo-random relations.
fn random_relations_agree<C: Core, P: Core>(rt: &impl Abort, crew: &mut C, plain: &mut P) {
    'shapes: for (rows, cols) in [(40, 40), (1, 40), (40, 1), (17, 33), (3, 40), (9, 8)] {
        random_agree(rt, crew, plain, Shape { rows, cols }, 60);
    }
    'products: for (rows, middle, cols) in [(3, 3, 40), (40, 3, 3), (3, 40, 3), (40, 17, 9)] {
        random_product_agrees(rt, crew, plain, rows, middle, cols, 60);
    }
}

#[test]
fn a_crew_answers_as_plain_relations_on_pseudo_random_ones(rt: HostRuntime) {
    let (table, seat) = table(&rt, rt.alloc());
    let mut crew = Crew::new(&rt, &table, seat, 8, &OpenGate);
    let mut plain = Plain::new(rt.alloc());
    random_relations_agree(&rt, &mut crew, &mut plain);
}

/// Takes quads of two relations apart, and puts them together again.
fn takes_apart<Q: Quads>(rt: &impl Abort, quads: &mut Q)
    ensures { Keeps (Q.worker quads.old) (Q.worker quads.new) }
{
    let shape = Shape { rows: 40, cols: 33 };
    full_is_a_rectangle(rt, quads, shape);
    let r = plain_of(rt, quads, shape, 90, 5);
    let root = quads.root(r);
    goes_by_quarters(rt, quads, root);
}

/// Works with a crew on the seat of a table, and gives the seat back.
fn worked<R: Threads + Abort + Sync>(rt: &R, table: &PairTable, seat: Seat) -> Seat
    requires of { IsOf seat table.now }
    ensures of { IsOf result table.now }
{
    let mut crew = Crew::new(rt, table, seat, 1, &OpenGate);
    takes_apart(rt, &mut crew);
    crew.into_seat()
}

#[test]
fn a_crew_takes_quads_apart_and_puts_them_together(rt: HostRuntime) {
    let (table, seat) = table(&rt, rt.alloc());
    let seat = worked(&rt, &table, seat);
    let _ = worked(&rt, &table, seat);
}
