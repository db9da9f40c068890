//! A single square of a composition, without the rest of it.
ghost use Rattle.std.specs.Prelude.{◌≡◌, ◌≤◌, ◌+◌, ◌%◌, true, IfOk};
ghost use Rattle.rel_model.specs.Equations.{side_of};
ghost use Rattle.rel_model.specs.Quads.{Keeper, QuadStands, IsQuad, KeepsQuads, ReadsQuads, Counts, quad_room};
ghost use Rattle.bit_rows.specs.Places.{window};
ghost use Rattle.rel_compose.specs.Products.{composition};

use crate::dense::{TALLEST, Wanted};
use crate::large::sums_pay;
use crate::sums::product_window;
use pair_table::Missed;
use quad_nodes::Nodes;
use rel_model::Quad;

/// Whether the composition of two quads of one height goes by sums of rows: both have many distinct dense squares of
/// 256 rows and columns.
pub fn goes_by_sums(nodes: &mut Nodes, a: Quad, b: Quad) -> bool
    requires a_stands { QuadStands nodes.old a }
    requires b_stands { QuadStands nodes.old b }
    requires one_height { b.height ≡ a.height }
    ensures tall { result ≡ true → 8 ≤ a.height }
    ensures reads { ReadsQuads nodes.old nodes.new }
{
    sums_pay(nodes, a, b, Wanted::Product, TALLEST)
}

/// `{(i, k) : (row + i, j) in a and (j, col + k) in b for some j}`: the square of a composition with this height, from
/// a row and a column on, which are multiples of 256. It goes by sums of rows, and nothing is noted. Refused only if
/// the table is full.
pub fn compose_window(
    nodes: &mut Nodes,
    a: Quad,
    b: Quad,
    height: u8,
    row: u32,
    col: u32,
) -> Result<Quad, Missed>
    requires a_stands { QuadStands nodes.old a }
    requires b_stands { QuadStands nodes.old b }
    requires one_height { b.height ≡ a.height }
    requires tall { 8 ≤ height }
    requires within { height ≤ a.height }
    requires row_on { row % 256 ≡ 0 }
    requires col_on { col % 256 ≡ 0 }
    requires row_in { row + side_of height ≤ side_of a.height }
    requires col_in { col + side_of height ≤ side_of a.height }
    ensures value { IfOk result (IsQuad nodes.new height
        (window row col (side_of height) (composition nodes.old a b))) }
    ensures keeps { KeepsQuads (quad_room height) nodes.old nodes.new }
    ensures counts { Counts nodes.old nodes.new result }
{
    product_window(nodes, a, b, height, row, col)
}
