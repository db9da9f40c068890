//! The sides of squares.
ghost use Rattle.std.specs.Prelude.{◌≡◌, ◌≤◌};
ghost use Rattle.rel_model.specs.Trees.{bottom_height, top_height};
ghost use Rattle.rel_model.specs.Equations.{side_of};

use rel_model::empty::side_of;

/// The side of the squares of a height, `2 ^ height`.
#[inline]
pub fn side_of_height(height: u8) -> u32
    requires low { bottom_height ≤ height }
    requires high { height ≤ top_height }
    ensures { result ≡ side_of height }
{
    side_of(height)
}
