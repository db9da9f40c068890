//! The composition of two large squares. For each square of 256 rows and columns of the result, the partial products
//! are summed in rows of bits, starting from the cells of an addend, and only the sum is named.
ghost use Rattle.std.specs.Prelude.{◌≡◌, ◌<◌, ◌≤◌, ◌+◌, ◌%◌, true, length};
ghost use Rattle.rel_model.specs.Cells.{cells_union};
ghost use Rattle.rel_model.specs.Trees.{top_height};
ghost use Rattle.rel_model.specs.Equations.{side_of};
ghost use Rattle.rel_model.specs.Quads.{Keeper, QuadStands, ReadsQuads, quad_room, compose_room};
ghost use Rattle.quad_nodes.specs.Making.{MakesQuad};
ghost use Rattle.bit_rows.specs.Rows.{rows_cells};
ghost use Rattle.bit_rows.specs.Places.{window};
ghost use Rattle.row_quads.specs.Adding.{AreWhole};
ghost use Rattle.rel_compose.specs.Products.{composition, IsComposition, Gives, summed, IsHalf, AddsWindows};
ghost use Rattle.rel_compose.specs.Products.{FourAreSmall, AddsQuads};

use bit_rows::{Row, no_rows};
use memo_laws::Op;
use pair_table::Missed;
use quad_nodes::{Nodes, side_of_height};
use rel_model::{Quad, Quarters};
use row_quads::{Squares, add_four_products, add_product, gather_quad, spill_quad};

/// The one of two halves in which a place lies, and the place within it.
fn half_at(first: (Quad, Quad), second: (Quad, Quad), place: u32, half: u32) -> ((Quad, Quad), u32)
    ensures { IsHalf first second place half result.0 result.1 }
{
    if place < half {
        return (first, place);
    }
    (second, place - half)
}

/// Adds to rows the cells of a composition in 256 rows and columns, from a row and a column on.
fn add_products(nodes: &mut Nodes, a: Quad, b: Quad, row: u32, col: u32, z: &mut [Row])
    requires a_stands { QuadStands nodes.old a }
    requires b_stands { QuadStands nodes.old b }
    requires one_height { b.height ≡ a.height }
    requires tall { 8 ≤ a.height }
    requires row_on { row % 256 ≡ 0 }
    requires col_on { col % 256 ≡ 0 }
    requires row_in { row < side_of a.height }
    requires col_in { col < side_of a.height }
    requires z_len { length z.old ≡ 256 }
    ensures len { length z.new ≡ 256 }
    ensures cells { rows_cells z.new
        ≡ cells_union (rows_cells z.old) (window row col 256 (composition nodes.old a b)) }
    ensures reads { ReadsQuads nodes.old nodes.new }
{
    let _ = nodes.bottom();
    if a.is_empty() {
        return;
    }
    if b.is_empty() {
        return;
    }
    if a.height == 8 {
        add_product(nodes, a, b, z);
        return;
    }
    let half = side_of_height(a.height - 1);
    let (fa, fb) = nodes.quarters_of_both(a, b);
    let (left, inner_row) = half_at((fa.nw, fa.ne), (fa.sw, fa.se), row, half);
    let (right, inner_col) = half_at((fb.nw, fb.sw), (fb.ne, fb.se), col, half);
    add_products(nodes, left.0, right.0, inner_row, inner_col, z);
    add_products(nodes, left.1, right.1, inner_row, inner_col, z);
}

/// The quad of the cells of an addend and of a composition in 256 rows and columns, from a row and a column on.
///
/// The rows take 8 KB of stack; keeping this a separate call puts them there only while it runs.
#[inline(never)]
fn sum_at(nodes: &mut Nodes, x: Quad, a: Quad, b: Quad, row: u32, col: u32) -> Result<Quad, Missed>
    requires x_stands { QuadStands nodes.old x }
    requires a_stands { QuadStands nodes.old a }
    requires b_stands { QuadStands nodes.old b }
    requires eight { x.height ≡ 8 }
    requires one_height { b.height ≡ a.height }
    requires tall { 8 ≤ a.height }
    requires row_on { row % 256 ≡ 0 }
    requires col_on { col % 256 ≡ 0 }
    requires row_in { row < side_of a.height }
    requires col_in { col < side_of a.height }
    ensures { MakesQuad (quad_room 8) 8 (summed nodes.old x 8 row col (composition nodes.old a b))
        nodes.old nodes.new result }
{
    let mut z = no_rows();
    spill_quad(nodes, x, &mut z, 0, 0);
    add_products(nodes, a, b, row, col, &mut z);
    gather_quad(nodes, &z, 8, 0, 0)
}

/// Adds to four squares of rows the cells of a composition in 512 rows and columns, from a row and a column on.
fn add_to_squares(nodes: &mut Nodes, a: Quad, b: Quad, row: u32, col: u32, z: &mut Squares)
    requires a_stands { QuadStands nodes.old a }
    requires b_stands { QuadStands nodes.old b }
    requires one_height { b.height ≡ a.height }
    requires tall { 9 ≤ a.height }
    requires row_on { row % 512 ≡ 0 }
    requires col_on { col % 512 ≡ 0 }
    requires row_in { row < side_of a.height }
    requires col_in { col < side_of a.height }
    requires z_whole { AreWhole z.old }
    ensures whole { AreWhole z.new }
    ensures cells { AddsWindows z.old z.new row col (composition nodes.old a b) }
    ensures reads { ReadsQuads nodes.old nodes.new }
{
    let _ = nodes.bottom();
    if a.is_empty() {
        return;
    }
    if b.is_empty() {
        return;
    }
    let (fa, fb) = nodes.quarters_of_both(a, b);
    if a.height == 9 {
        add_four_products(nodes, (fa.nw, fa.sw), (fb.nw, fb.ne), z);
        add_four_products(nodes, (fa.ne, fa.se), (fb.sw, fb.se), z);
        return;
    }
    let half = side_of_height(a.height - 1);
    let (left, inner_row) = half_at((fa.nw, fa.ne), (fa.sw, fa.se), row, half);
    let (right, inner_col) = half_at((fb.nw, fb.sw), (fb.ne, fb.se), col, half);
    add_to_squares(nodes, left.0, right.0, inner_row, inner_col, z);
    add_to_squares(nodes, left.1, right.1, inner_row, inner_col, z);
}

/// Adds the cells of four quads to four squares of rows.
fn spill_four(nodes: &mut Nodes, four: Quarters, z: &mut Squares)
    requires stand { FourAreSmall nodes.old four }
    requires z_whole { AreWhole z.old }
    ensures whole { AreWhole z.new }
    ensures cells { AddsQuads nodes.old four z.old z.new }
    ensures reads { ReadsQuads nodes.old nodes.new }
{
    spill_quad(nodes, four.nw, &mut z.nw, 0, 0);
    spill_quad(nodes, four.ne, &mut z.ne, 0, 0);
    spill_quad(nodes, four.sw, &mut z.sw, 0, 0);
    spill_quad(nodes, four.se, &mut z.se, 0, 0);
}

/// The quad of the cells of an addend and of a composition in 512 rows and columns, from a row and a column on.
///
/// The rows take 32 KB of stack; keeping this a separate call puts them there only while it runs.
#[inline(never)]
#[tactic(auto, using(crate::proofs::Summing::eight_low, crate::proofs::Summing::eight_high, crate::proofs::Summing::eight_small))]
fn four_sums_at(
    nodes: &mut Nodes,
    x: Quad,
    a: Quad,
    b: Quad,
    row: u32,
    col: u32,
) -> Result<Quad, Missed>
    requires x_stands { QuadStands nodes.old x }
    requires a_stands { QuadStands nodes.old a }
    requires b_stands { QuadStands nodes.old b }
    requires nine { x.height ≡ 9 }
    requires one_height { b.height ≡ a.height }
    requires tall { 9 ≤ a.height }
    requires row_on { row % 512 ≡ 0 }
    requires col_on { col % 512 ≡ 0 }
    requires row_in { row < side_of a.height }
    requires col_in { col < side_of a.height }
    ensures { MakesQuad (quad_room 9) 9 (summed nodes.old x 9 row col (composition nodes.old a b))
        nodes.old nodes.new result }
{
    let four = nodes.quarters(x);
    let mut z = Squares {
        nw: no_rows(),
        ne: no_rows(),
        sw: no_rows(),
        se: no_rows(),
    };
    spill_four(nodes, four, &mut z);
    add_to_squares(nodes, a, b, row, col, &mut z);
    let nw = gather_quad(nodes, &z.nw, 8, 0, 0)?;
    let ne = gather_quad(nodes, &z.ne, 8, 0, 0)?;
    let sw = gather_quad(nodes, &z.sw, 8, 0, 0)?;
    let se = gather_quad(nodes, &z.se, 8, 0, 0)?;
    nodes.corner(nw, ne, sw, se)
}

/// Whether a square of a height, from a row and a column on, has 512 rows and begins at multiples of 512.
fn is_by_512(height: u8, row: u32, col: u32) -> bool
    ensures nine { result ≡ true → height ≡ 9 }
    ensures row_on { result ≡ true → row % 512 ≡ 0 }
    ensures col_on { result ≡ true → col % 512 ≡ 0 }
{
    height == 9 && row % 512 == 0 && col % 512 == 0
}

/// The quad of the cells of an addend and of the square of a composition with the addend's side, from a row and a
/// column on.
pub(crate) fn summed_quad(
    nodes: &mut Nodes,
    x: Quad,
    a: Quad,
    b: Quad,
    row: u32,
    col: u32,
) -> Result<Quad, Missed>
    requires x_stands { QuadStands nodes.old x }
    requires a_stands { QuadStands nodes.old a }
    requires b_stands { QuadStands nodes.old b }
    requires one_height { b.height ≡ a.height }
    requires tall { 8 ≤ x.height }
    requires within { x.height ≤ a.height }
    requires row_on { row % 256 ≡ 0 }
    requires col_on { col % 256 ≡ 0 }
    requires row_in { row + side_of x.height ≤ side_of a.height }
    requires col_in { col + side_of x.height ≤ side_of a.height }
    ensures { MakesQuad (quad_room x.height) x.height
        (summed nodes.old x x.height row col (composition nodes.old a b)) nodes.old nodes.new result }
{
    let _ = nodes.bottom();
    if x.height == 8 {
        return sum_at(nodes, x, a, b, row, col);
    }
    if is_by_512(x.height, row, col) {
        return four_sums_at(nodes, x, a, b, row, col);
    }
    let half = side_of_height(x.height - 1);
    let four = nodes.quarters(x);
    let nw = summed_quad(nodes, four.nw, a, b, row, col)?;
    let ne = summed_quad(nodes, four.ne, a, b, row, col + half)?;
    let sw = summed_quad(nodes, four.sw, a, b, row + half, col)?;
    let se = summed_quad(nodes, four.se, a, b, row + half, col + half)?;
    nodes.corner(nw, ne, sw, se)
}

/// The quad of the square of a composition with a height, from a row and a column on, summed up from an empty addend.
pub(crate) fn product_window(
    nodes: &mut Nodes,
    a: Quad,
    b: Quad,
    height: u8,
    row: u32,
    col: u32,
) -> Result<Quad, Missed>
    requires a_stands { QuadStands nodes.old a }
    requires b_stands { QuadStands nodes.old b }
    requires one_height { b.height ≡ a.height }
    requires tall { 8 ≤ height }
    requires within { height ≤ a.height }
    requires row_on { row % 256 ≡ 0 }
    requires col_on { col % 256 ≡ 0 }
    requires row_in { row + side_of height ≤ side_of a.height }
    requires col_in { col + side_of height ≤ side_of a.height }
    ensures { MakesQuad (quad_room height) height
        (window row col (side_of height) (composition nodes.old a b)) nodes.old nodes.new result }
{
    let _ = nodes.bottom();
    summed_quad(nodes, Quad::empty(height), a, b, row, col)
}

/// The composition of two quads of one height, at least 8, by sums. Notes the result.
pub(crate) fn noted_by_sums(nodes: &mut Nodes, a: Quad, b: Quad) -> Result<Quad, Missed>
    requires a_stands { QuadStands nodes.old a }
    requires b_stands { QuadStands nodes.old b }
    requires one_height { b.height ≡ a.height }
    requires tall { 8 ≤ a.height }
    ensures { Gives (compose_room a.height) (IsComposition nodes.old nodes.new a b) nodes.old nodes.new result }
{
    let found = product_window(nodes, a, b, a.height, 0, 0)?;
    nodes.note(Op::Compose, a, b, found);
    Ok(found)
}
