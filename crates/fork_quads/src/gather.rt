//! The pieces of a result put together.
ghost use Rattle.std.specs.Prelude.{◌≡◌, ◌≤◌, ◌<◌, ◌+◌, ◌-◌, length, IfOk};
ghost use Rattle.rel_model.specs.Trees.{bottom_height, top_height};
ghost use Rattle.rel_model.specs.Quads.{Keeper, IsQuad, KeepsQuads, Counts};
ghost use Rattle.quad_nodes.specs.Making.{MakesQuad, MakesBoth};
ghost use Rattle.fork_quads.specs.Forks.{HoldPieces, last_piece, tiled, corner_words};

use crate::group::Pieces;
use pair_table::Missed;
use quad_nodes::Nodes;
use rel_model::Quad;

/// The square with this number, given how many cuts it is above its pieces.
#[cycle(gathering)]
pub(crate) fn gathered(
    nodes: &mut Nodes,
    found: &Pieces,
    height: u8,
    cuts: u8,
    number: u32,
) -> Result<Quad, Missed>
    requires pieces { HoldPieces nodes.old (height - cuts) cuts number found.now }
    requires within { last_piece cuts number < 64 }
    requires size { length found.now ≡ 64 }
    requires deep { bottom_height + cuts ≤ height }
    requires high { height ≤ top_height }
    ensures { MakesQuad (corner_words cuts) height (tiled nodes.old height cuts number found.now)
        nodes.old nodes.new result }
{
    let _ = nodes.bottom();
    if cuts == 0 {
        return Ok(found[number as usize]);
    }
    let first = 4 * number;
    let north = beside(nodes, found, height - 1, cuts - 1, first)?;
    let south = beside(nodes, found, height - 1, cuts - 1, first + 2)?;
    nodes.corner(north.0, north.1, south.0, south.1)
}

/// The squares with this number and the next one.
#[cycle(gathering)]
fn beside(
    nodes: &mut Nodes,
    found: &Pieces,
    height: u8,
    cuts: u8,
    number: u32,
) -> Result<(Quad, Quad), Missed>
    requires first { HoldPieces nodes.old (height - cuts) cuts number found.now }
    requires second { HoldPieces nodes.old (height - cuts) cuts (number + 1) found.now }
    requires within { last_piece cuts (number + 1) < 64 }
    requires size { length found.now ≡ 64 }
    requires deep { bottom_height + cuts ≤ height }
    requires high { height ≤ top_height }
    ensures { MakesBoth (corner_words cuts + corner_words cuts) height
        (tiled nodes.old height cuts number found.now) (tiled nodes.old height cuts (number + 1) found.now)
        nodes.old nodes.new result }
{
    let west = gathered(nodes, found, height, cuts, number)?;
    let east = gathered(nodes, found, height, cuts, number + 1)?;
    Ok((west, east))
}
