//! The blocks of a quad in tree order: those of the north-west quarter first, then north-east, south-west and
//! south-east.
ghost use Rattle.std.specs.Prelude.{ℕ, ◌≡◌, ◌<◌, ◌≤◌, ◌+◌, ◌-◌, ◌*◌, length, slice_index, true, false};
ghost use Rattle.rel_model.specs.Cells.{block_cells, cells_transpose};
ghost use Rattle.rel_model.specs.Trees.{bottom_height};
ghost use Rattle.rel_model.specs.Quads.{Keeper, IsKeeper, QuadStands, quad_cells, ReadsQuads};
ghost use Rattle.tree_blocks.specs.Order.{blocks_count, blocks_cells, square_cells, turned_cells};
ghost use Rattle.tree_blocks.specs.Levels.{named, AllStand, IsOpened};

use leaf_block::block_transpose;
use quad_nodes::Nodes;
use rel_model::{Quad, Quarters};

/// Puts the four quarters of name `k` at the places from 4k on; for a transposition, north-east and south-west are
/// exchanged.
#[inline(always)]
fn open_name(nodes: &mut Nodes, names: &mut [u32], k: usize, height: u8, turned: bool)
    requires room { 4 * k + 4 ≤ length names.old }
    requires stands { QuadStands nodes.old (named height names.old k) }
    requires over { bottom_height < height }
    ensures len { length names.new ≡ length names.old }
    ensures opened { IsOpened turned nodes.old nodes.new height names.old names.new k }
    ensures lower { (j : ℕ) → j < 4 * k → slice_index names.new j ≡ slice_index names.old j }
    ensures upper { (j : ℕ) → 4 * k + 4 ≤ j → slice_index names.new j ≡ slice_index names.old j }
    ensures reads { ReadsQuads nodes.old nodes.new }
{
    let Quarters { nw, ne, sw, se } = nodes.quarters(Quad {
        height,
        name: names[k],
    });
    let (second, third) = if turned { (sw, ne) } else { (ne, sw) };
    names[4 * k] = nw.name;
    names[4 * k + 1] = second.name;
    names[4 * k + 2] = third.name;
    names[4 * k + 3] = se.name;
}

/// Expands the first names of a list into their quarters, from the last name to the first, so that each is read before
/// its place is overwritten. No read waits for that of another name.
fn open_level(nodes: &mut Nodes, names: &mut [u32], count: usize, height: u8, turned: bool)
    requires kept { IsKeeper nodes.old }
    requires room { 4 * count ≤ length names.old }
    requires stands { AllStand nodes.old height names.old count }
    requires over { bottom_height < height }
    ensures len { length names.new ≡ length names.old }
    ensures opened { (k : ℕ) → k < count → IsOpened turned nodes.old nodes.new height names.old names.new k }
    ensures reads { ReadsQuads nodes.old nodes.new }
{
    'names: for done in 0..count {
        open_name(nodes, names, count - 1 - done, height, turned);
    }
}

/// A block, or its transposition.
#[inline(always)]
fn block_turned(bits: u64, turned: bool) -> u64
    ensures cells { block_cells result ≡ turned_cells turned (block_cells bits) }
{
    if turned { block_transpose(bits) } else { bits }
}

/// Writes the blocks with these names, or their transpositions.
fn read_blocks(nodes: &mut Nodes, names: &[u32], bottom: u8, turned: bool, out: &mut [u64])
    requires kept { IsKeeper nodes.old }
    requires room { length out.old ≤ length names.now }
    requires stands { AllStand nodes.old bottom names.now (length out.old) }
    requires bottom { bottom ≡ bottom_height }
    ensures len { length out.new ≡ length out.old }
    ensures cells { (k : ℕ) → k < length out.old → square_cells 0 out.new k
        ≡ turned_cells turned (quad_cells nodes.old (named bottom names.now k)) }
    ensures reads { ReadsQuads nodes.old nodes.new }
{
    'blocks: for place in 0..out.len() {
        let bits = nodes.bits(Quad {
            height: bottom,
            name: names[place],
        });
        out[place] = block_turned(bits, turned);
    }
}

/// Writes the blocks of the first names of a list, level by level.
fn spill_level(
    nodes: &mut Nodes,
    names: &mut [u32],
    count: usize,
    height: u8,
    turned: bool,
    out: &mut [u64],
)
    requires kept { IsKeeper nodes.old }
    requires stands { AllStand nodes.old height names.old count }
    requires low { bottom_height ≤ height }
    requires len { length out.old ≡ count * blocks_count (height - bottom_height) }
    requires room { length out.old ≤ length names.old }
    ensures len { length out.new ≡ length out.old }
    ensures cells { (k : ℕ) → k < count → square_cells (height - bottom_height) out.new k
        ≡ turned_cells turned (quad_cells nodes.old (named height names.old k)) }
    ensures reads { ReadsQuads nodes.old nodes.new }
{
    let bottom = nodes.bottom();
    if height == bottom {
        read_blocks(nodes, names, bottom, turned, out);
        return;
    }
    open_level(nodes, names, count, height, turned);
    spill_level(nodes, names, 4 * count, height - 1, turned, out);
}

/// Writes the blocks of a quad of a height up to 8 in tree order, those of empty squares too, in the order of the array
/// of leaves of a k²-tree (Brisaboa, Ladra and Navarro). Expands all names of a height before those of the next, so
/// that their reads need not wait for one another.
pub fn spill_blocks(nodes: &mut Nodes, q: Quad, out: &mut [u64])
    requires stands { QuadStands nodes.old q }
    requires high { q.height ≤ 8 }
    requires len { length out.old ≡ blocks_count (q.height - bottom_height) }
    ensures len { length out.new ≡ length out.old }
    ensures cells { blocks_cells (q.height - bottom_height) out.new ≡ quad_cells nodes.old q }
    ensures reads { ReadsQuads nodes.old nodes.new }
{
    let _ = nodes.bottom();
    let mut names = [0u32; 1024];
    names[0] = q.name;
    spill_level(nodes, &mut names, 1, q.height, false, out);
}

/// Writes the blocks of the transposition of a quad of a height up to 8 in tree order, like `spill_blocks`. In each
/// expansion of a name north-east and south-west are exchanged, and each block is transposed.
pub fn spill_turned(nodes: &mut Nodes, q: Quad, out: &mut [u64])
    requires stands { QuadStands nodes.old q }
    requires high { q.height ≤ 8 }
    requires len { length out.old ≡ blocks_count (q.height - bottom_height) }
    ensures len { length out.new ≡ length out.old }
    ensures cells { blocks_cells (q.height - bottom_height) out.new ≡ cells_transpose (quad_cells nodes.old q) }
    ensures reads { ReadsQuads nodes.old nodes.new }
{
    let _ = nodes.bottom();
    let mut names = [0u32; 1024];
    names[0] = q.name;
    spill_level(nodes, &mut names, 1, q.height, true, out);
}
