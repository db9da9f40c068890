//! The words of leaves, read quarter by quarter.
ghost use Rattle.std.specs.Prelude.{◌≡◌, ◌<◌, ◌≤◌, ◌+◌, ◌*◌, ◌^◌, ◌∷◌, [], cond, length};
ghost use Rattle.rel_model.specs.Cells.{cells_union, bits_cells};
ghost use Rattle.rel_model.specs.Listed.{is_among};
ghost use Rattle.run_model.specs.Files.{number_of_bit};
ghost use Rattle.k2_file.specs.Rests.{pairs_below, AreThere, cells_inside};
ghost use Rattle.k2_file.specs.Depth.{rests_in, MovesIn};

use crate::parts::Parts;
use crate::sides::small_side;

/// The word of a leaf of this side with one more cell, if that lies in the leaf.
fn with_cell(side: u8, word: u64, cell: (u8, u8)) -> u64
    requires side { side ≤ 8 }
    requires none_past { word < 2 ^ (side * side) }
    ensures cells { bits_cells side result ≡ cells_union (bits_cells side word) (cells_inside side
        (is_among (cell ∷ []))) }
    ensures none_past { result < 2 ^ (side * side) }
{
    if side <= cell.0 || side <= cell.1 {
        return word;
    }
    word | 1u64 << (side * cell.0 + cell.1)
}

/// The word of a leaf of this side with the cells below a submatrix of a height added, if the submatrix is set.
pub(crate) fn with_part(
    parts: &Parts<'_>,
    places: &mut [u64],
    side: u8,
    word: u64,
    corner: (u8, u8),
    is_set: bool,
    height: u8,
) -> u64
    requires places { length places.old ≡ height }
    requires low { height ≤ 3 }
    requires side { side ≤ 8 }
    requires row { corner.0 + 2 ^ height ≤ 8 }
    requires col { corner.1 + 2 ^ height ≤ 8 }
    requires there { AreThere (number_of_bit is_set) (rests_in parts.now places.old) }
    requires none_past { word < 2 ^ (side * side) }
    ensures cells { bits_cells side result ≡ cells_union (bits_cells side word) (cells_inside side
        (is_among (pairs_below (cond is_set (corner ∷ []) []) (rests_in parts.now places.old)))) }
    ensures none_past { result < 2 ^ (side * side) }
    ensures moves { MovesIn parts.now (number_of_bit is_set) places.old places.new }
{
    if !is_set {
        return word;
    }
    if height == 0 {
        return with_cell(side, word, corner);
    }
    let low = height - 1;
    let half = small_side(low);
    let (south, east) = (corner.0 + half, corner.1 + half);
    let (here, below) = places.split_at_mut(1);
    let group = parts.group(here[0], height == 1);
    here[0] += 1;
    let first = with_part(parts, below, side, word, corner, group.nw, low);
    let second = with_part(parts, below, side, first, (corner.0, east), group.ne, low);
    let third = with_part(parts, below, side, second, (south, corner.1), group.sw, low);
    with_part(parts, below, side, third, (south, east), group.se, low)
}
