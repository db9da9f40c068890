//! The words of leaves, read from the numbers of their quarters.
ghost use Rattle.std.specs.Prelude.{◌≡◌, ◌<◌, ◌≤◌, ◌+◌, ◌*◌, ◌^◌, ◌∷◌, [], length};
ghost use Rattle.rel_model.specs.Cells.{cells_union, bits_cells};
ghost use Rattle.rel_model.specs.Listed.{is_among};
ghost use Rattle.rel_model.specs.Quarters.{LiesWithin};
ghost use Rattle.rel_steps.specs.Making.{MakesQuad};
ghost use Rattle.run_model.specs.SharedFiles.{quadrant_at, cells_told};
ghost use Rattle.run_model.proofs.SharedCells.{IsNumber};
ghost use Rattle.k2_file.specs.Rests.{cells_inside};
ghost use Rattle.k2_parts.specs.Told.{quadrant_told, quadrants_told};
ghost use Rattle.k2_read.specs.Leaves.{placed};

use k2_file::sides::small_side;
use k2_parts::form::Quadrant;
use rel_model::engine_trait::Engine;
use rel_model::{Lack, Quad};

/// The quarters of a listed quadrant.
pub(crate) fn quarters(quads: &[Quadrant], number: u32) -> Quadrant
    requires low { 2 ≤ number }
    requires high { number < length quads.now + 2 }
    ensures { quadrant_told result ≡ quadrant_at (quadrants_told quads.now) number }
{
    quads[number as usize - 2]
}

/// The word of a leaf of this side with one more cell, if that lies in the leaf.
fn with_cell(side: u8, word: u64, cell: (u8, u8)) -> u64
    requires side { side ≤ 8 }
    requires none_past { word < 2 ^ (side * side) }
    ensures cells { bits_cells side result ≡ cells_union (bits_cells side word) (cells_inside side
        (is_among (cell ∷ []))) }
    ensures none_past { result < 2 ^ (side * side) }
{
    if side <= cell.0 || side <= cell.1 {
        return word;
    }
    word | 1u64 << (side * cell.0 + cell.1)
}

/// The word of a leaf of this side with the cells of a number added, whose square begins at a row and a column.
fn with_part(
    quads: &[Quadrant],
    side: u8,
    word: u64,
    corner: (u8, u8),
    number: u32,
    height: u8,
) -> u64
    requires low { height ≤ 3 }
    requires side { side ≤ 8 }
    requires row { corner.0 + 2 ^ height ≤ 8 }
    requires col { corner.1 + 2 ^ height ≤ 8 }
    requires number { IsNumber (quadrants_told quads.now) height number }
    requires none_past { word < 2 ^ (side * side) }
    ensures cells { bits_cells side result ≡ cells_union (bits_cells side word) (placed side corner.0 corner.1
        (cells_told (quadrants_told quads.now) height number)) }
    ensures none_past { result < 2 ^ (side * side) }
{
    if number == 0 {
        return word;
    }
    if height == 0 {
        return with_cell(side, word, corner);
    }
    let below = height - 1;
    let half = small_side(below);
    let (south, east) = (corner.0 + half, corner.1 + half);
    let quadrant = quarters(quads, number);
    let first = with_part(quads, side, word, corner, quadrant.nw, below);
    let second = with_part(quads, side, first, (corner.0, east), quadrant.ne, below);
    let third = with_part(quads, side, second, (south, corner.1), quadrant.sw, below);
    with_part(quads, side, third, (south, east), quadrant.se, below)
}

/// The leaf with the cells of a number at a height up to 3, all of which must lie in it.
pub(crate) fn built_leaf<E: Engine>(
    engine: &mut E,
    quads: &[Quadrant],
    number: u32,
    height: u8,
) -> Result<Quad, Lack>
    requires low { height ≤ 3 }
    requires number { IsNumber (quadrants_told quads.now) height number }
    requires inside { LiesWithin (2 ^ E.least) (2 ^ E.least) (cells_told (quadrants_told quads.now) height number) }
    ensures { MakesQuad E.lean 1 E.least (cells_told (quadrants_told quads.now) height number)
        (E.worker engine.old) (E.worker engine.new) result }
{
    let side = small_side(engine.bottom());
    let word = with_part(quads, side, 0, (0, 0), number, height);
    let leaf = engine.block(word)?;
    Ok(leaf)
}
