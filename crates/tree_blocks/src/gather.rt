//! The quad with given blocks in tree order.
ghost use Rattle.std.specs.Prelude.{ℕ, ◌≡◌, ◌<◌, ◌≤◌, ◌+◌, ◌-◌, ◌*◌, length, slice_index, IfOk};
ghost use Rattle.rel_model.specs.Cells.{block_cells};
ghost use Rattle.rel_model.specs.Trees.{bottom_height, top_height};
ghost use Rattle.rel_model.specs.Quads.{Keeper, IsKeeper, QuadStands, IsQuad, KeepsQuads, Counts, quad_room};
ghost use Rattle.quad_nodes.specs.Finding.{FindsQuad};
ghost use Rattle.tree_blocks.specs.Order.{blocks_count, blocks_cells, square_cells};
ghost use Rattle.tree_blocks.specs.Levels.{named, AllStand, corner_cells, AreNamed, FindsAll};

use pair_table::Missed;
use quad_nodes::Nodes;
use rel_model::Quad;

/// Names the first blocks of a list.
fn name_blocks(
    nodes: &mut Nodes,
    blocks: &[u64],
    names: &mut [u32],
    count: usize,
) -> Result<(), Missed>
    requires kept { IsKeeper nodes.old }
    requires blocks { count ≤ length blocks.now }
    requires room { count ≤ length names.old }
    ensures len { length names.new ≡ length names.old }
    ensures value { IfOk result (λ u. AreNamed nodes.new bottom_height (square_cells 0 blocks.now) names.new count) }
    ensures stood { FindsAll nodes.old nodes.new bottom_height (square_cells 0 blocks.now) count result }
    ensures keeps { KeepsQuads count nodes.old nodes.new }
    ensures counts { Counts nodes.old nodes.new result }
{
    'blocks: for place in 0..count {
        let quad = nodes.block(blocks[place])?;
        names[place] = quad.name;
    }
    Ok(())
}

/// The corner of the four names from place 4k on.
#[inline(always)]
fn corner_at(nodes: &mut Nodes, names: &[u32], k: usize, height: u8) -> Result<Quad, Missed>
    requires room { 4 * k + 4 ≤ length names.now }
    requires below { height < top_height }
    requires nw { QuadStands nodes.old (named height names.now (4 * k)) }
    requires ne { QuadStands nodes.old (named height names.now (4 * k + 1)) }
    requires sw { QuadStands nodes.old (named height names.now (4 * k + 2)) }
    requires se { QuadStands nodes.old (named height names.now (4 * k + 3)) }
    ensures value { IfOk result (IsQuad nodes.new (height + 1) (corner_cells nodes.old height names.now k)) }
    ensures stood { FindsQuad nodes.old nodes.new (height + 1) (corner_cells nodes.old height names.now k) result }
    ensures keeps { KeepsQuads 3 nodes.old nodes.new }
    ensures counts { Counts nodes.old nodes.new result }
{
    let nw = names[4 * k];
    let ne = names[4 * k + 1];
    let sw = names[4 * k + 2];
    let se = names[4 * k + 3];
    nodes.corner(
        Quad { height, name: nw },
        Quad { height, name: ne },
        Quad { height, name: sw },
        Quad { height, name: se },
    )
}

/// Makes a corner for each four names of a height, from the first of them on.
fn close_level(nodes: &mut Nodes, names: &mut [u32], count: usize, height: u8) -> Result<(), Missed>
    requires kept { IsKeeper nodes.old }
    requires room { 4 * count ≤ length names.old }
    requires below { height < top_height }
    requires stands { AllStand nodes.old height names.old (4 * count) }
    ensures len { length names.new ≡ length names.old }
    ensures value { IfOk result (λ u. AreNamed nodes.new (height + 1) (corner_cells nodes.old height names.old)
        names.new count) }
    ensures stood { FindsAll nodes.old nodes.new (height + 1) (corner_cells nodes.old height names.old) count result }
    ensures keeps { KeepsQuads (3 * count) nodes.old nodes.new }
    ensures counts { Counts nodes.old nodes.new result }
{
    'names: for place in 0..count {
        let quad = corner_at(nodes, names, place, height)?;
        names[place] = quad.name;
    }
    Ok(())
}

/// Names the squares of a height that consist of these blocks, level by level.
fn gather_level(
    nodes: &mut Nodes,
    blocks: &[u64],
    names: &mut [u32],
    count: usize,
    height: u8,
) -> Result<(), Missed>
    requires low { bottom_height ≤ height }
    requires high { height ≤ top_height }
    requires blocks { count * blocks_count (height - bottom_height) ≤ length blocks.now }
    requires room { count * blocks_count (height - bottom_height) ≤ length names.old }
    ensures len { length names.new ≡ length names.old }
    ensures value { IfOk result (λ u. AreNamed nodes.new height (square_cells (height - bottom_height) blocks.now)
        names.new count) }
    ensures stood { FindsAll nodes.old nodes.new height (square_cells (height - bottom_height) blocks.now) count
        result }
    ensures keeps { KeepsQuads (count * quad_room height) nodes.old nodes.new }
    ensures counts { Counts nodes.old nodes.new result }
{
    let bottom = nodes.bottom();
    if height == bottom {
        return name_blocks(nodes, blocks, names, count);
    }
    gather_level(nodes, blocks, names, 4 * count, height - 1)?;
    close_level(nodes, names, count, height - 1)
}

/// The quad of a height up to 8 that consists of the first blocks of a list, in tree order. Names all blocks first, and
/// then level by level, all squares of a height before those of the next.
pub fn gather_blocks(nodes: &mut Nodes, blocks: &[u64], height: u8) -> Result<Quad, Missed>
    requires low { bottom_height ≤ height }
    requires high { height ≤ 8 }
    requires blocks { blocks_count (height - bottom_height) ≤ length blocks.now }
    ensures value { IfOk result (IsQuad nodes.new height (blocks_cells (height - bottom_height) blocks.now)) }
    ensures stood { FindsQuad nodes.old nodes.new height (blocks_cells (height - bottom_height) blocks.now) result }
    ensures keeps { KeepsQuads (quad_room height) nodes.old nodes.new }
    ensures counts { Counts nodes.old nodes.new result }
{
    let mut names = [0u32; 1024];
    gather_level(nodes, blocks, &mut names, 1, height)?;
    Ok(Quad {
        height,
        name: names[0],
    })
}
