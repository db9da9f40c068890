//! Four squares of rows, to which four products are added at once.
ghost use Rattle.std.specs.Prelude.{◌≡◌, ◌≤◌, true, length};
ghost use Rattle.rel_model.specs.Cells.{cells_union, cells_compose};
ghost use Rattle.rel_model.specs.Equations.{side_of};
ghost use Rattle.rel_model.specs.Quads.{Keeper, QuadStands, quad_cells, ReadsQuads};
ghost use Rattle.bit_rows.specs.Rows.{rows_cells};
ghost use Rattle.row_quads.specs.Adding.{AreWhole, FourStand, AddsProducts};

use crate::spill::spill_quad;
use bit_rows::{Row, no_rows, rows_compose_into};
use quad_nodes::Nodes;
use rel_model::Quad;

/// Four squares of 256 rows and columns, arranged two by two. 32 KB.
#[derive(Drop)]
pub struct Squares {
    pub nw: [Row; 256],
    pub ne: [Row; 256],
    pub sw: [Row; 256],
    pub se: [Row; 256],
}

/// Adds the products of two squares of rows with one quad to two other squares.
///
/// The rows of the quad take 8 KB of stack; keeping this a separate call puts them there only while it runs.
#[inline(never)]
fn add_times(
    nodes: &mut Nodes,
    upper: &[Row],
    lower: &[Row],
    b: Quad,
    north: &mut [Row],
    south: &mut [Row],
)
    requires stands { QuadStands nodes.old b }
    requires small { side_of b.height ≤ 256 }
    requires upper_len { length upper.now ≡ 256 }
    requires lower_len { length lower.now ≡ 256 }
    requires north_len { length north.old ≡ 256 }
    requires south_len { length south.old ≡ 256 }
    ensures north_after { length north.new ≡ 256 }
    ensures south_after { length south.new ≡ 256 }
    ensures above { rows_cells north.new ≡ cells_union (rows_cells north.old)
        (cells_compose (length upper.now) (rows_cells upper.now) (quad_cells nodes.old b)) }
    ensures below { rows_cells south.new ≡ cells_union (rows_cells south.old)
        (cells_compose (length lower.now) (rows_cells lower.now) (quad_cells nodes.old b)) }
    ensures reads { ReadsQuads nodes.old nodes.new }
{
    let _ = nodes.bottom();
    if b.is_empty() {
        return;
    }
    let mut y = no_rows();
    spill_quad(nodes, b, &mut y, 0, 0);
    rows_compose_into(north, upper, &y);
    rows_compose_into(south, lower, &y);
}

/// Whether both quads are empty.
fn are_empty(pair: (Quad, Quad)) -> bool
    ensures first { result ≡ true → pair.0.name ≡ 0 }
    ensures second { result ≡ true → pair.1.name ≡ 0 }
{
    pair.0.is_empty() && pair.1.is_empty()
}

/// Adds to four squares the products of a column of two quads with a row of two quads, all of one height up to 8. Each
/// of the four is written to rows once.
///
/// The rows of the column take 24 KB of stack, including those of `add_times`; keeping this a separate call puts them
/// there only while it runs.
#[inline(never)]
pub fn add_four_products(
    nodes: &mut Nodes,
    column: (Quad, Quad),
    row: (Quad, Quad),
    z: &mut Squares,
)
    requires stand { FourStand nodes.old column row }
    requires small { side_of column.0.height ≤ 256 }
    requires z_whole { AreWhole z.old }
    ensures whole { AreWhole z.new }
    ensures cells { AddsProducts nodes.old column row z.old z.new }
    ensures reads { ReadsQuads nodes.old nodes.new }
{
    let _ = nodes.bottom();
    if are_empty(column) {
        return;
    }
    let mut upper = no_rows();
    spill_quad(nodes, column.0, &mut upper, 0, 0);
    let mut lower = no_rows();
    spill_quad(nodes, column.1, &mut lower, 0, 0);
    add_times(nodes, &upper, &lower, row.0, &mut z.nw, &mut z.sw);
    add_times(nodes, &upper, &lower, row.1, &mut z.ne, &mut z.se);
}
