//! A quad joined with a product: the product is added to the rows of the quad's cells, and only the sum is named.
ghost use Rattle.std.specs.Prelude.{◌≡◌, ◌<◌, ◌≤◌, IfOk};
ghost use Rattle.rel_model.specs.Cells.{cells_union, cells_compose};
ghost use Rattle.rel_model.specs.Trees.{bottom_height};
ghost use Rattle.rel_model.specs.Equations.{side_of};
ghost use Rattle.rel_model.specs.Quads.{Keeper, QuadStands, quad_cells, ReadsQuads, quad_room};
ghost use Rattle.quad_nodes.specs.Making.{MakesQuad};

use crate::dense::{TALLEST, Wanted, rows_pay};
use crate::large::sums_pay;
use crate::product::both_full;
use crate::sums::summed_quad;
use bit_rows::no_rows;
use memo_laws::Op;
use pair_table::Missed;
use quad_nodes::Nodes;
use rel_model::Quad;
use row_quads::{add_product, gather_quad, spill_quad};

/// Whether two quads of one height have so many distinct quads under them that the union of their product with a quad
/// should be done in rows, or in sums of rows.
fn both_dense(nodes: &mut Nodes, y: Quad, z: Quad) -> bool
    requires y_stands { QuadStands nodes.old y }
    requires z_stands { QuadStands nodes.old z }
    requires one_height { z.height ≡ y.height }
    requires over { bottom_height < y.height }
    ensures reads { ReadsQuads nodes.old nodes.new }
{
    if rows_pay(nodes, y, z, Wanted::Union, TALLEST) {
        return true;
    }
    sums_pay(nodes, y, z, Wanted::Union, TALLEST)
}

/// Whether `x | y*z`, of quads of one height, should be done in rows of bits, whatever `x` is: `y` and `z` have many
/// distinct quads, neither is empty, not both are full, and their product is not noted.
pub fn joins_by_rows(nodes: &mut Nodes, y: Quad, z: Quad) -> bool
    requires y_stands { QuadStands nodes.old y }
    requires z_stands { QuadStands nodes.old z }
    requires one_height { z.height ≡ y.height }
    ensures reads { ReadsQuads nodes.old nodes.new }
{
    let bottom = nodes.bottom();
    if y.height == bottom {
        return false;
    }
    if y.is_empty() || z.is_empty() {
        return false;
    }
    if both_full(nodes, y, z) {
        return false;
    }
    if !both_dense(nodes, y, z) {
        return false;
    }
    nodes.look(Op::Compose, y, z).is_none()
}

/// `x | y*z`, of quads of one height up to 8.
///
/// The rows take 24 KB of stack, including those of `add_product`; keeping this a separate call puts them there only
/// while it runs.
#[inline(never)]
fn summed_small(nodes: &mut Nodes, x: Quad, y: Quad, z: Quad) -> Result<Quad, Missed>
    requires x_stands { QuadStands nodes.old x }
    requires y_stands { QuadStands nodes.old y }
    requires z_stands { QuadStands nodes.old z }
    requires y_height { y.height ≡ x.height }
    requires z_height { z.height ≡ x.height }
    requires small { side_of x.height ≤ 256 }
    ensures { MakesQuad (quad_room x.height) x.height (cells_union (quad_cells nodes.old x)
        (cells_compose (side_of x.height) (quad_cells nodes.old y) (quad_cells nodes.old z)))
        nodes.old nodes.new result }
{
    let mut sum = no_rows();
    spill_quad(nodes, x, &mut sum, 0, 0);
    add_product(nodes, y, z, &mut sum);
    gather_quad(nodes, &sum, x.height, 0, 0)
}

/// `x | y*z = {(i, k) : (i, k) in x, or (i, j) in y and (j, k) in z for some j}`, of quads of one height. The product
/// gets no name, and nothing is noted. Refused only if the table is full.
pub fn joined_by_rows(nodes: &mut Nodes, x: Quad, y: Quad, z: Quad) -> Result<Quad, Missed>
    requires x_stands { QuadStands nodes.old x }
    requires y_stands { QuadStands nodes.old y }
    requires z_stands { QuadStands nodes.old z }
    requires y_height { y.height ≡ x.height }
    requires z_height { z.height ≡ x.height }
    ensures { MakesQuad (quad_room x.height) x.height (cells_union (quad_cells nodes.old x)
        (cells_compose (side_of x.height) (quad_cells nodes.old y) (quad_cells nodes.old z)))
        nodes.old nodes.new result }
{
    let _ = nodes.bottom();
    if x.height <= 8 {
        return summed_small(nodes, x, y, z);
    }
    summed_quad(nodes, x, y, z, 0, 0)
}
