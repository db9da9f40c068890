//! Whether a relation is univalent, by quarters. Each quarter is examined by itself before two are compared.
ghost use Rattle.std.specs.Prelude.{◌≡◌, ◌<◌, true};
ghost use Rattle.rel_model.specs.Choice.{is_unival};
ghost use Rattle.rel_model.specs.Worker.{Stands, set_of, HasQuad, Keeps, MakesAtMost, MissesNothing};
ghost use Rattle.rel_choice.specs.Lines.{quad_single, quads_apart, halves_apart};

use crate::leaf::{leaf_is_single, leaves_are_apart};
use rel_model::empty::side_of;
use rel_model::quads_trait::Quads;
use rel_model::{Quad, Quarters, Rel};

/// Whether no row has two pairs: the relation is univalent (Schmidt and Ströhlein).
pub fn unival<Q: Quads>(q: &mut Q, r: Rel) -> bool
    requires { Stands (Q.worker q.old) r }
    ensures value { result ≡ is_unival (set_of (Q.worker q.old) r) }
    ensures keeps { Keeps (Q.worker q.old) (Q.worker q.new) }
    ensures room { MakesAtMost 0 (Q.worker q.old) (Q.worker q.new) }
    ensures misses { MissesNothing (Q.worker q.old) (Q.worker q.new) }
{
    let quad = q.root(r);
    is_single(q, quad)
}

/// Whether no row of a quad has two cells.
#[cycle(single)]
fn is_single<Q: Quads>(q: &mut Q, quad: Quad) -> bool
    requires { HasQuad (Q.worker q.old) quad }
    ensures value { result ≡ quad_single (Q.worker q.old) quad }
    ensures keeps { Keeps (Q.worker q.old) (Q.worker q.new) }
    ensures room { MakesAtMost 0 (Q.worker q.old) (Q.worker q.new) }
    ensures misses { MissesNothing (Q.worker q.old) (Q.worker q.new) }
{
    if quad.is_empty() {
        return true;
    }
    if quad.height == q.bottom() {
        let side = side_of(quad.height);
        let bits = q.bits(quad);
        return leaf_is_single(bits, side);
    }
    is_single_over(q, quad)
}

/// The same above the leaves.
#[cycle(single)]
fn is_single_over<Q: Quads>(q: &mut Q, quad: Quad) -> bool
    requires stands { HasQuad (Q.worker q.old) quad }
    requires over { Q.least < quad.height }
    ensures value { result ≡ quad_single (Q.worker q.old) quad }
    ensures keeps { Keeps (Q.worker q.old) (Q.worker q.new) }
    ensures room { MakesAtMost 0 (Q.worker q.old) (Q.worker q.new) }
    ensures misses { MissesNothing (Q.worker q.old) (Q.worker q.new) }
{
    let Quarters { nw, ne, sw, se } = q.quarters(quad);
    if !is_single(q, nw) {
        return false;
    }
    if !is_single(q, ne) {
        return false;
    }
    if !is_single_besides(q, sw, nw, ne) {
        return false;
    }
    if !is_single_besides(q, se, nw, ne) {
        return false;
    }
    if !are_apart(q, nw, ne) {
        return false;
    }
    are_apart(q, sw, se)
}

/// The same for a quad, given two quads of its height for which it is known.
#[cycle(single)]
fn is_single_besides<Q: Quads>(q: &mut Q, quad: Quad, one: Quad, other: Quad) -> bool
    requires stands { HasQuad (Q.worker q.old) quad }
    requires one_single { quad_single (Q.worker q.old) one ≡ true }
    requires one_height { one.height ≡ quad.height }
    requires other_single { quad_single (Q.worker q.old) other ≡ true }
    requires other_height { other.height ≡ quad.height }
    ensures value { result ≡ quad_single (Q.worker q.old) quad }
    ensures keeps { Keeps (Q.worker q.old) (Q.worker q.new) }
    ensures room { MakesAtMost 0 (Q.worker q.old) (Q.worker q.new) }
    ensures misses { MissesNothing (Q.worker q.old) (Q.worker q.new) }
{
    if quad.name == one.name {
        return true;
    }
    if quad.name == other.name {
        return true;
    }
    is_single(q, quad)
}

/// Whether no row has a cell in both of two quads of one height.
#[cycle(apart)]
fn are_apart<Q: Quads>(q: &mut Q, a: Quad, b: Quad) -> bool
    requires a_stands { HasQuad (Q.worker q.old) a }
    requires b_stands { HasQuad (Q.worker q.old) b }
    requires one_height { b.height ≡ a.height }
    ensures value { result ≡ quads_apart (Q.worker q.old) a b }
    ensures keeps { Keeps (Q.worker q.old) (Q.worker q.new) }
    ensures room { MakesAtMost 0 (Q.worker q.old) (Q.worker q.new) }
    ensures misses { MissesNothing (Q.worker q.old) (Q.worker q.new) }
{
    if a.is_empty() {
        return true;
    }
    if b.is_empty() {
        return true;
    }
    if a.height == q.bottom() {
        let side = side_of(a.height);
        let a_bits = q.bits(a);
        let b_bits = q.bits(b);
        return leaves_are_apart(a_bits, b_bits, side);
    }
    are_apart_over(q, a, b)
}

/// The same above the leaves.
#[cycle(apart)]
fn are_apart_over<Q: Quads>(q: &mut Q, a: Quad, b: Quad) -> bool
    requires a_stands { HasQuad (Q.worker q.old) a }
    requires b_stands { HasQuad (Q.worker q.old) b }
    requires one_height { b.height ≡ a.height }
    requires over { Q.least < a.height }
    ensures value { result ≡ quads_apart (Q.worker q.old) a b }
    ensures keeps { Keeps (Q.worker q.old) (Q.worker q.new) }
    ensures room { MakesAtMost 0 (Q.worker q.old) (Q.worker q.new) }
    ensures misses { MissesNothing (Q.worker q.old) (Q.worker q.new) }
{
    let a_four = q.quarters(a);
    let b_four = q.quarters(b);
    if !are_halves_apart(q, (a_four.nw, a_four.ne), (b_four.nw, b_four.ne)) {
        return false;
    }
    are_halves_apart(q, (a_four.sw, a_four.se), (b_four.sw, b_four.se))
}

/// The same for two halves, each of two quads side by side.
#[cycle(apart)]
fn are_halves_apart<Q: Quads>(q: &mut Q, a: (Quad, Quad), b: (Quad, Quad)) -> bool
    requires a_west { HasQuad (Q.worker q.old) a.0 }
    requires a_east { HasQuad (Q.worker q.old) a.1 }
    requires b_west { HasQuad (Q.worker q.old) b.0 }
    requires b_east { HasQuad (Q.worker q.old) b.1 }
    requires a_height { a.1.height ≡ a.0.height }
    requires b_west_height { b.0.height ≡ a.0.height }
    requires b_east_height { b.1.height ≡ a.0.height }
    ensures value { result ≡ halves_apart (Q.worker q.old) a b }
    ensures keeps { Keeps (Q.worker q.old) (Q.worker q.new) }
    ensures room { MakesAtMost 0 (Q.worker q.old) (Q.worker q.new) }
    ensures misses { MissesNothing (Q.worker q.old) (Q.worker q.new) }
{
    if !are_apart(q, a.0, b.0) {
        return false;
    }
    if !are_apart(q, a.0, b.1) {
        return false;
    }
    if !are_apart(q, a.1, b.0) {
        return false;
    }
    are_apart(q, a.1, b.1)
}
