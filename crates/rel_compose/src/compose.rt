//! The composition, by quarters, and by rows of bits if that pays.
ghost use Rattle.std.specs.Prelude.{◌≡◌, ◌⊎◌, ◌<◌, ◌+◌, IfOk};
ghost use Rattle.rel_model.specs.Trees.{bottom_height};
ghost use Rattle.rel_model.specs.Quads.{Keeper, QuadStands, KeepsQuads, Counts, compose_room};
ghost use Rattle.quad_nodes.specs.Finding.{Finds, FindsQuad, FindsNone};
ghost use Rattle.rel_compose.specs.Products.{composition, IsComposition, IsFull, Gives};
ghost use Rattle.rel_compose.specs.Products.{BothStand, IsProduct, AreProducts, quarter_room};

use crate::dense::{TALLEST, Wanted, rows_pay};
use crate::large::{asked_under, sums_pay};
use crate::product::{both_full, leaf};
use crate::rows::noted_by_rows;
use crate::sums::noted_by_sums;
use memo_laws::Op;
use pair_table::Missed;
use quad_nodes::Nodes;
use rel_boole::union_quads;
use rel_model::Quad;

/// `{(i, k) : (i, j) in a and (j, k) in b for some j}`: the composition of two quads of one height. Refused only if the
/// table is full.
pub fn compose_quads(nodes: &mut Nodes, a: Quad, b: Quad) -> Result<Quad, Missed>
    requires a_stands { QuadStands nodes.old a }
    requires b_stands { QuadStands nodes.old b }
    requires one_height { b.height ≡ a.height }
    ensures value { IfOk result (IsComposition nodes.old nodes.new a b) }
    ensures nothing { (a.name ≡ 0) ⊎ (b.name ≡ 0) → FindsNone nodes.old nodes.new a.height result }
    ensures full { IsFull nodes.old a → IsFull nodes.old b → Finds nodes.old nodes.new a result }
    ensures blocks { a.height ≡ bottom_height
        → FindsQuad nodes.old nodes.new a.height (composition nodes.old a b) result }
    ensures keeps { KeepsQuads (compose_room a.height) nodes.old nodes.new }
    ensures counts { Counts nodes.old nodes.new result }
{
    compose_up_to(nodes, a, b, TALLEST)
}

/// The same, going by rows only up to a height, if that pays; with `tallest` 0, by quarters alone.
#[cycle(composing)]
pub fn compose_up_to(nodes: &mut Nodes, a: Quad, b: Quad, tallest: u8) -> Result<Quad, Missed>
    requires a_stands { QuadStands nodes.old a }
    requires b_stands { QuadStands nodes.old b }
    requires one_height { b.height ≡ a.height }
    ensures value { IfOk result (IsComposition nodes.old nodes.new a b) }
    ensures nothing { (a.name ≡ 0) ⊎ (b.name ≡ 0) → FindsNone nodes.old nodes.new a.height result }
    ensures full { IsFull nodes.old a → IsFull nodes.old b → Finds nodes.old nodes.new a result }
    ensures blocks { a.height ≡ bottom_height
        → FindsQuad nodes.old nodes.new a.height (composition nodes.old a b) result }
    ensures keeps { KeepsQuads (compose_room a.height) nodes.old nodes.new }
    ensures counts { Counts nodes.old nodes.new result }
{
    let bottom = nodes.bottom();
    if a.name == 0 {
        return Ok(a);
    }
    if b.name == 0 {
        return Ok(b);
    }
    if a.height == bottom {
        return leaf(nodes, a, b);
    }
    if both_full(nodes, a, b) {
        return Ok(a);
    }
    over_blocks(nodes, a, b, tallest)
}

/// The same above the blocks. Looks up whether the result was noted; if not, composes and notes it.
#[cycle(composing)]
fn over_blocks(nodes: &mut Nodes, a: Quad, b: Quad, tallest: u8) -> Result<Quad, Missed>
    requires a_stands { QuadStands nodes.old a }
    requires b_stands { QuadStands nodes.old b }
    requires one_height { b.height ≡ a.height }
    requires over { bottom_height < a.height }
    ensures { Gives (compose_room a.height) (IsComposition nodes.old nodes.new a b) nodes.old nodes.new result }
{
    if let Some(found) = nodes.look(Op::Compose, a, b) {
        return Ok(found);
    }
    if rows_pay(nodes, a, b, Wanted::Product, tallest) {
        return noted_by_rows(nodes, a, b);
    }
    if sums_pay(nodes, a, b, Wanted::Product, tallest) {
        return noted_by_sums(nodes, a, b);
    }
    let under = asked_under(nodes, a, b, tallest);
    by_quarters(nodes, a, b, under)
}

/// The same by quarters. Notes the result. The quarters are not read ahead: in sparse squares most of them meet an
/// empty one, and are never visited.
#[cycle(composing)]
fn by_quarters(nodes: &mut Nodes, a: Quad, b: Quad, tallest: u8) -> Result<Quad, Missed>
    requires a_stands { QuadStands nodes.old a }
    requires b_stands { QuadStands nodes.old b }
    requires one_height { b.height ≡ a.height }
    requires over { bottom_height < a.height }
    ensures { Gives (compose_room a.height) (IsComposition nodes.old nodes.new a b) nodes.old nodes.new result }
{
    let fa = nodes.quarters(a);
    let fb = nodes.quarters(b);
    let west = (fb.nw, fb.sw);
    let east = (fb.ne, fb.se);
    let (nw, ne) = row_of_products(nodes, (fa.nw, fa.ne), west, east, tallest)?;
    let (sw, se) = row_of_products(nodes, (fa.sw, fa.se), west, east, tallest)?;
    let found = nodes.corner(nw, ne, sw, se)?;
    nodes.note(Op::Compose, a, b, found);
    Ok(found)
}

/// The products of a row of two quads with both columns of a square.
#[cycle(composing)]
fn row_of_products(
    nodes: &mut Nodes,
    row: (Quad, Quad),
    west: (Quad, Quad),
    east: (Quad, Quad),
    tallest: u8,
) -> Result<(Quad, Quad), Missed>
    requires row_stands { BothStand nodes.old row.0.height row }
    requires west_stands { BothStand nodes.old row.0.height west }
    requires east_stands { BothStand nodes.old row.0.height east }
    ensures { Gives (quarter_room row.0.height + quarter_room row.0.height)
        (AreProducts nodes.old nodes.new row west east) nodes.old nodes.new result }
{
    let first = row_times_column(nodes, row, west, tallest)?;
    let second = row_times_column(nodes, row, east, tallest)?;
    Ok((first, second))
}

/// The product of a row of two quads with a column of two: the union of two compositions.
#[cycle(composing)]
fn row_times_column(
    nodes: &mut Nodes,
    row: (Quad, Quad),
    column: (Quad, Quad),
    tallest: u8,
) -> Result<Quad, Missed>
    requires row_stands { BothStand nodes.old row.0.height row }
    requires column_stands { BothStand nodes.old row.0.height column }
    ensures { Gives (quarter_room row.0.height) (IsProduct nodes.old nodes.new row column)
        nodes.old nodes.new result }
{
    let first = compose_up_to(nodes, row.0, column.0, tallest)?;
    let second = compose_up_to(nodes, row.1, column.1, tallest)?;
    union_quads(nodes, first, second)
}
