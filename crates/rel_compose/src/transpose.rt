//! The transposition, by quarters, and by blocks if that pays.
ghost use Rattle.std.specs.Prelude.{◌≡◌, ◌<◌};
ghost use Rattle.rel_model.specs.Cells.{cells_transpose};
ghost use Rattle.rel_model.specs.Trees.{bottom_height};
ghost use Rattle.rel_model.specs.Quads.{Keeper, QuadStands, quad_cells, quad_room};
ghost use Rattle.quad_nodes.specs.Making.{MakesQuad};

use leaf_block::block_transpose;
use memo_laws::Op;
use pair_table::Missed;
use quad_nodes::Nodes;
use rel_model::{Quad, Quarters};
use tree_blocks::{blocks_pay, gather_blocks, spill_turned};

/// `{(i, j) : (j, i) in a}`: the transposition of a quad. Refused only if the table is full.
#[cycle(transposing)]
pub fn transpose_quad(nodes: &mut Nodes, a: Quad) -> Result<Quad, Missed>
    requires stands { QuadStands nodes.old a }
    ensures { MakesQuad (quad_room a.height) a.height (cells_transpose (quad_cells nodes.old a))
        nodes.old nodes.new result }
{
    let bottom = nodes.bottom();
    if a.is_empty() {
        return Ok(a);
    }
    if a.height == bottom {
        let bits = nodes.bits(a);
        return nodes.block(block_transpose(bits));
    }
    if nodes.is_full(a) {
        return Ok(a);
    }
    transposed_over(nodes, a)
}

/// The same above the blocks. Looks up whether the result was noted; if not, it goes by blocks for a dense square of
/// 256 rows, and by quarters otherwise.
#[cycle(transposing)]
fn transposed_over(nodes: &mut Nodes, a: Quad) -> Result<Quad, Missed>
    requires stands { QuadStands nodes.old a }
    requires over { bottom_height < a.height }
    ensures { MakesQuad (quad_room a.height) a.height (cells_transpose (quad_cells nodes.old a))
        nodes.old nodes.new result }
{
    let none = Quad::empty(a.height);
    if let Some(found) = nodes.look(Op::Transpose, a, none) {
        return Ok(found);
    }
    if blocks_pay(nodes, a) {
        return transposed_by_blocks(nodes, a);
    }
    transposed_by_quarters(nodes, a)
}

/// The same for a square of 256 rows, by its blocks. Notes the result.
///
/// Keeping this a separate call puts its blocks on the stack once.
#[inline(never)]
fn transposed_by_blocks(nodes: &mut Nodes, a: Quad) -> Result<Quad, Missed>
    requires stands { QuadStands nodes.old a }
    requires rows { a.height ≡ 8 }
    ensures { MakesQuad (quad_room a.height) a.height (cells_transpose (quad_cells nodes.old a))
        nodes.old nodes.new result }
{
    // This use makes the checker open the invariant of `nodes`, which an early return needs.
    let _ = nodes.bottom();
    let mut blocks = [0u64; 1024];
    spill_turned(nodes, a, &mut blocks);
    let found = gather_blocks(nodes, &blocks, a.height)?;
    let none = Quad::empty(a.height);
    nodes.note(Op::Transpose, a, none, found);
    Ok(found)
}

/// The same by quarters. Notes the result.
#[cycle(transposing)]
fn transposed_by_quarters(nodes: &mut Nodes, a: Quad) -> Result<Quad, Missed>
    requires stands { QuadStands nodes.old a }
    requires over { bottom_height < a.height }
    ensures { MakesQuad (quad_room a.height) a.height (cells_transpose (quad_cells nodes.old a))
        nodes.old nodes.new result }
{
    let none = Quad::empty(a.height);
    let Quarters {
        nw: a_nw,
        ne: a_ne,
        sw: a_sw,
        se: a_se,
    } = nodes.quarters_ahead(a);
    let nw = transpose_quad(nodes, a_nw)?;
    let ne = transpose_quad(nodes, a_sw)?;
    let sw = transpose_quad(nodes, a_ne)?;
    let se = transpose_quad(nodes, a_se)?;
    let found = nodes.corner(nw, ne, sw, se)?;
    nodes.note(Op::Transpose, a, none, found);
    Ok(found)
}
