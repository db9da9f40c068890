//! The composition of two quads of up to 256 rows and columns, by rows.
ghost use Rattle.std.specs.Prelude.{◌≡◌, ◌≤◌, length};
ghost use Rattle.rel_model.specs.Cells.{cells_union, cells_compose};
ghost use Rattle.rel_model.specs.Equations.{side_of};
ghost use Rattle.rel_model.specs.Quads.{Keeper, QuadStands, quad_cells, ReadsQuads, quad_room};
ghost use Rattle.quad_nodes.specs.Making.{MakesQuad};
ghost use Rattle.bit_rows.specs.Rows.{rows_cells};

use crate::gather::gather_quad;
use crate::spill::spill_quad;
use bit_rows::{Row, no_rows, rows_compose_into};
use pair_table::Missed;
use quad_nodes::Nodes;
use rel_model::Quad;

/// `z | {(i, k) : (i, j) in a and (j, k) in b for some j}`: adds the composition of two quads of one height, up to 8,
/// to rows.
///
/// The rows of both operands take 16 KB of stack; keeping this a separate call puts them there only while it runs.
#[inline(never)]
pub fn add_product(nodes: &mut Nodes, a: Quad, b: Quad, z: &mut [Row])
    requires a_stands { QuadStands nodes.old a }
    requires b_stands { QuadStands nodes.old b }
    requires one_height { b.height ≡ a.height }
    requires small { side_of a.height ≤ 256 }
    requires z_len { length z.old ≡ 256 }
    ensures len { length z.new ≡ 256 }
    ensures cells { rows_cells z.new ≡ cells_union (rows_cells z.old)
        (cells_compose (side_of a.height) (quad_cells nodes.old a) (quad_cells nodes.old b)) }
    ensures reads { ReadsQuads nodes.old nodes.new }
{
    let mut x = no_rows();
    spill_quad(nodes, a, &mut x, 0, 0);
    let mut y = no_rows();
    spill_quad(nodes, b, &mut y, 0, 0);
    rows_compose_into(z, &x, &y);
}

/// `{(i, k) : (i, j) in a and (j, k) in b for some j}`: the composition of two quads of one height, up to 8. Refused
/// only if the table is full.
///
/// The rows take 24 KB of stack, including those of `add_product`; keeping this a separate call puts them there only
/// while it runs.
#[inline(never)]
pub fn compose_by_rows(nodes: &mut Nodes, a: Quad, b: Quad) -> Result<Quad, Missed>
    requires a_stands { QuadStands nodes.old a }
    requires b_stands { QuadStands nodes.old b }
    requires one_height { b.height ≡ a.height }
    requires small { side_of a.height ≤ 256 }
    ensures { MakesQuad (quad_room a.height) a.height
        (cells_compose (side_of a.height) (quad_cells nodes.old a) (quad_cells nodes.old b))
        nodes.old nodes.new result }
{
    let mut z = no_rows();
    add_product(nodes, a, b, &mut z);
    gather_quad(nodes, &z, a.height, 0, 0)
}
