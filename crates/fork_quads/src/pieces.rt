//! The pieces of an operator's result: the squares into which it is cut, each computed on its own.
ghost use Rattle.std.specs.Prelude.{◌≡◌, ◌≢◌, ◌≤◌, ◌+◌, ◌-◌, IfOk};
ghost use Rattle.rel_model.specs.Cells.{cells_union};
ghost use Rattle.rel_model.specs.Trees.{bottom_height};
ghost use Rattle.rel_model.specs.Equations.{Compose, result_of, side_of};
ghost use Rattle.rel_model.specs.Quads.{Keeper, QuadStands, IsQuad, quad_cells, KeepsQuads, ReadsQuads, Counts, quad_room};
ghost use Rattle.memo_laws.specs.Looking.{operator_of};
ghost use Rattle.quad_nodes.specs.Finding.{FindsQuad};
ghost use Rattle.rel_compose.specs.Products.{BothStand};
ghost use Rattle.fork_quads.specs.Middle.{most_halvings};
ghost use Rattle.fork_quads.specs.Forks.{nth, place_at_cut, part, source, work_room, piece_room, product_words, product_of, job_set, CanDo};

use crate::middle::{Halving, composed};
use crate::windows::window_part;
use memo_laws::Op;
use pair_table::Missed;
use quad_nodes::Nodes;
use rel_boole::{diff_quads, inter_quads, union_quads};
use rel_compose::transpose_quad;
use rel_model::{Quad, Quarters};

/// An operator on two quads of one height, and how often its result is cut. A transposition has no second operand.
#[derive(Clone, Copy)]
pub struct Job {
    pub(crate) op: Op,
    pub(crate) a: Quad,
    pub(crate) b: Quad,
    pub(crate) halving: Halving,
    pub(crate) cuts: u8,
    /// Whether the squares of a composition are computed by sums of rows.
    pub(crate) by_sums: bool,
}

/// An operator on two quads of one height, uncut.
pub(crate) fn compute_sequential(
    nodes: &mut Nodes,
    op: Op,
    a: Quad,
    b: Quad,
    halving: Halving,
) -> Result<Quad, Missed>
    requires a_stands { QuadStands nodes.old a }
    requires b_stands { QuadStands nodes.old b }
    requires one_height { b.height ≡ a.height }
    requires few { halving.times ≤ most_halvings }
    ensures value { IfOk result (IsQuad nodes.new a.height (result_of (operator_of op) (side_of a.height)
        (quad_cells nodes.old a) (quad_cells nodes.old b))) }
    ensures stood { operator_of op ≢ Compose → FindsQuad nodes.old nodes.new a.height
        (result_of (operator_of op) (side_of a.height) (quad_cells nodes.old a) (quad_cells nodes.old b)) result }
    ensures keeps { KeepsQuads (work_room (operator_of op) halving.times a.height) nodes.old nodes.new }
    ensures counts { Counts nodes.old nodes.new result }
{
    match op {
        Op::Union => union_quads(nodes, a, b),
        Op::Inter => inter_quads(nodes, a, b),
        Op::Diff => diff_quads(nodes, a, b),
        Op::Transpose => transpose_quad(nodes, a),
        Op::Compose => composed(nodes, a, b, halving),
    }
}

/// The place among four squares of the square with this number, at the cut that this many cuts follow.
pub(crate) fn place(cuts: u8, number: u32) -> u32
    ensures { result ≡ place_at_cut cuts number }
{
    if cuts == 0 {
        return number % 4;
    }
    place(cuts - 1, number / 4)
}

/// One of four by its place.
pub(crate) fn picked<T: Copy>(nw: T, ne: T, sw: T, se: T, k: u32) -> T
    ensures { result ≡ nth k nw ne sw se }
{
    match k {
        0 => nw,
        1 => ne,
        2 => sw,
        _ => se,
    }
}

/// The place of the square of the first operand from which a square of the result is computed.
fn source_of(op: Op, k: u32) -> u32
    ensures { result ≡ source (operator_of op) k }
{
    match op {
        Op::Transpose => match k {
            1 => 2,
            2 => 1,
            _ => k,
        },
        _ => k,
    }
}

/// The square of an operator's result with this number, after this many cuts. Not for a composition.
fn square_part(
    nodes: &mut Nodes,
    op: Op,
    a: Quad,
    b: Quad,
    cuts: u8,
    number: u32,
    halving: Halving,
) -> Result<Quad, Missed>
    requires a_stands { QuadStands nodes.old a }
    requires b_stands { QuadStands nodes.old b }
    requires one_height { b.height ≡ a.height }
    requires no_product { operator_of op ≢ Compose }
    requires deep { bottom_height + cuts ≤ a.height }
    requires few { halving.times ≤ most_halvings }
    ensures value { IfOk result (IsQuad nodes.new (a.height - cuts) (part a.height cuts number
        (result_of (operator_of op) (side_of a.height) (quad_cells nodes.old a) (quad_cells nodes.old b)))) }
    ensures stood { FindsQuad nodes.old nodes.new (a.height - cuts) (part a.height cuts number
        (result_of (operator_of op) (side_of a.height) (quad_cells nodes.old a) (quad_cells nodes.old b))) result }
    ensures keeps { KeepsQuads (quad_room (a.height - cuts)) nodes.old nodes.new }
    ensures counts { Counts nodes.old nodes.new result }
{
    if cuts == 0 {
        return compute_sequential(nodes, op, a, b, halving);
    }
    let (fa, fb) = nodes.quarters_of_both(a, b);
    let k = place(cuts - 1, number);
    let left = picked(fa.nw, fa.ne, fa.sw, fa.se, source_of(op, k));
    let right = picked(fb.nw, fb.ne, fb.sw, fb.se, k);
    square_part(nodes, op, left, right, cuts - 1, number, halving)
}

/// Two of four quads: the northern or the southern row.
fn row_of(four: Quarters, k: u32) -> (Quad, Quad)
    ensures first { result.0 ≡ nth k four.nw four.nw four.sw four.sw }
    ensures second { result.1 ≡ nth k four.ne four.ne four.se four.se }
{
    match k {
        0 | 1 => (four.nw, four.ne),
        _ => (four.sw, four.se),
    }
}

/// Two of four quads: the western or the eastern column.
fn column_of(four: Quarters, k: u32) -> (Quad, Quad)
    ensures first { result.0 ≡ nth k four.nw four.ne four.nw four.ne }
    ensures second { result.1 ≡ nth k four.sw four.se four.sw four.se }
{
    match k {
        0 | 2 => (four.nw, four.sw),
        _ => (four.ne, four.se),
    }
}

/// The square of a composition with this number, after this many cuts: the sum of its partial products, two for each
/// cut.
#[cycle(multiplying)]
fn product_part(
    nodes: &mut Nodes,
    a: Quad,
    b: Quad,
    cuts: u8,
    number: u32,
    halving: Halving,
) -> Result<Quad, Missed>
    requires a_stands { QuadStands nodes.old a }
    requires b_stands { QuadStands nodes.old b }
    requires one_height { b.height ≡ a.height }
    requires deep { bottom_height + cuts ≤ a.height }
    requires few { halving.times ≤ most_halvings }
    ensures value { IfOk result (IsQuad nodes.new (a.height - cuts) (product_of nodes.old a b cuts number)) }
    ensures keeps { KeepsQuads (product_words halving.times a.height cuts) nodes.old nodes.new }
    ensures counts { Counts nodes.old nodes.new result }
{
    let _ = nodes.bottom();
    let none = Quad {
        height: a.height - cuts,
        name: 0,
    };
    if a.name == 0 {
        return Ok(none);
    }
    if b.name == 0 {
        return Ok(none);
    }
    if cuts == 0 {
        return composed(nodes, a, b, halving);
    }
    let (fa, fb) = nodes.quarters_of_both(a, b);
    let k = place(cuts - 1, number);
    sum_part(
        nodes,
        row_of(fa, k),
        column_of(fb, k),
        cuts - 1,
        number,
        halving,
    )
}

/// The square with this number in the product of a row and a column.
#[cycle(multiplying)]
fn sum_part(
    nodes: &mut Nodes,
    row: (Quad, Quad),
    column: (Quad, Quad),
    cuts: u8,
    number: u32,
    halving: Halving,
) -> Result<Quad, Missed>
    requires row_stands { BothStand nodes.old row.0.height row }
    requires column_stands { BothStand nodes.old row.0.height column }
    requires deep { bottom_height + cuts ≤ row.0.height }
    requires few { halving.times ≤ most_halvings }
    ensures value { IfOk result (IsQuad nodes.new (row.0.height - cuts) (cells_union
        (product_of nodes.old row.0 column.0 cuts number) (product_of nodes.old row.1 column.1 cuts number))) }
    ensures keeps { KeepsQuads (product_words halving.times row.0.height cuts
        + product_words halving.times row.0.height cuts + quad_room (row.0.height - cuts)) nodes.old nodes.new }
    ensures counts { Counts nodes.old nodes.new result }
{
    let first = product_part(nodes, row.0, column.0, cuts, number, halving)?;
    let second = product_part(nodes, row.1, column.1, cuts, number, halving)?;
    union_quads(nodes, first, second)
}

/// The square of a composition with this number, by sums of rows if the job asks for that.
fn composed_part(nodes: &mut Nodes, job: Job, number: u32) -> Result<Quad, Missed>
    requires { CanDo nodes.old job }
    ensures value { IfOk result (IsQuad nodes.new (job.a.height - job.cuts)
        (product_of nodes.old job.a job.b job.cuts number)) }
    ensures keeps { KeepsQuads (product_words job.halving.times job.a.height job.cuts) nodes.old nodes.new }
    ensures counts { Counts nodes.old nodes.new result }
{
    if job.by_sums && job.a.height - job.cuts >= 8 {
        return window_part(nodes, job.a, job.b, job.cuts, number);
    }
    product_part(nodes, job.a, job.b, job.cuts, number, job.halving)
}

/// The piece with this number.
pub(crate) fn piece(nodes: &mut Nodes, job: Job, number: u32) -> Result<Quad, Missed>
    requires { CanDo nodes.old job }
    ensures value { IfOk result (IsQuad nodes.new (job.a.height - job.cuts)
        (part job.a.height job.cuts number (job_set nodes.old job))) }
    ensures stood { operator_of job.op ≢ Compose → FindsQuad nodes.old nodes.new (job.a.height - job.cuts)
        (part job.a.height job.cuts number (job_set nodes.old job)) result }
    ensures keeps { KeepsQuads (piece_room (operator_of job.op) job.halving.times job.a.height job.cuts)
        nodes.old nodes.new }
    ensures counts { Counts nodes.old nodes.new result }
{
    match job.op {
        Op::Compose => composed_part(nodes, job, number),
        _ => square_part(nodes, job.op, job.a, job.b, job.cuts, number, job.halving),
    }
}
