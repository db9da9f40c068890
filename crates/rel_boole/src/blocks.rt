//! Dense squares of 256 rows, combined by their blocks in tree order.
ghost use Rattle.std.specs.Prelude.{ℕ, ◌≡◌, ◌<◌, length, slice_index, true};
ghost use Rattle.rel_model.specs.Cells.{block_cells};
ghost use Rattle.rel_model.specs.Quads.{Keeper, QuadStands, quad_cells, quad_room, ReadsQuads};
ghost use Rattle.quad_nodes.specs.Making.{MakesQuad};
ghost use Rattle.rel_boole.specs.Cellwise.{cells_by};

use crate::boole::Boole;
use crate::found::op_of;
use crate::leaf::block_by;
use pair_table::Missed;
use quad_nodes::Nodes;
use rel_model::Quad;
use tree_blocks::{blocks_pay, gather_blocks, spill_blocks};

/// Whether two quads of one height are squares of 256 rows for which going by blocks is quicker than by quarters.
pub fn both_pay(nodes: &mut Nodes, a: Quad, b: Quad) -> bool
    requires a_stands { QuadStands nodes.old a }
    requires b_stands { QuadStands nodes.old b }
    ensures rows { result ≡ true → a.height ≡ 8 }
    ensures reads { ReadsQuads nodes.old nodes.new }
{
    if !blocks_pay(nodes, a) {
        return false;
    }
    blocks_pay(nodes, b)
}

/// Replaces each block of a list by the operator's result on it and the block at the same place of another list.
fn combine_blocks(op: Boole, blocks: &mut [u64], others: &[u64])
    requires len { length others.now ≡ length blocks.old }
    ensures len { length blocks.new ≡ length blocks.old }
    ensures cells { (k : ℕ) → k < length blocks.old → block_cells (slice_index blocks.new k)
        ≡ cells_by op (block_cells (slice_index blocks.old k)) (block_cells (slice_index others.now k)) }
{
    'places: for place in 0..blocks.len() {
        blocks[place] = block_by(op, blocks[place], others[place]);
    }
}

/// `{(i, j) : op holds of (i, j) in a and (i, j) in b}` for two squares of 256 rows, by one operation on the words of
/// each two blocks. Notes the result. Refused only if the table is full.
///
/// Keeping this a separate call puts its blocks on the stack once.
#[inline(never)]
pub fn combined_by_blocks(nodes: &mut Nodes, op: Boole, a: Quad, b: Quad) -> Result<Quad, Missed>
    requires a_stands { QuadStands nodes.old a }
    requires b_stands { QuadStands nodes.old b }
    requires one_height { b.height ≡ a.height }
    requires rows { a.height ≡ 8 }
    ensures { MakesQuad (quad_room a.height) a.height
        (cells_by op (quad_cells nodes.old a) (quad_cells nodes.old b)) nodes.old nodes.new result }
{
    let _ = nodes.bottom();
    let mut blocks = [0u64; 1024];
    let mut others = [0u64; 1024];
    spill_blocks(nodes, a, &mut blocks);
    spill_blocks(nodes, b, &mut others);
    combine_blocks(op, &mut blocks, &others);
    let found = gather_blocks(nodes, &blocks, a.height)?;
    nodes.note(op_of(op), a, b, found);
    Ok(found)
}
