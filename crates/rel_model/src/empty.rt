//! Squares: their sides, and the quads without a cell.
ghost use Rattle.std.specs.Prelude.{◌≡◌, ◌≢◌, ◌≤◌, ◌^◌, true, false};
ghost use Rattle.rel_model.specs.Relation.{size_height};

use crate::Quad;

/// The side of a square of a height.
#[inline(always)]
pub fn side_of(height: u8) -> u32
    requires { height ≤ size_height }
    ensures { result ≡ 2 ^ height }
{
    1 << height
}

impl Quad {
    /// The quad of a height without a cell, whose name is 0 at each height.
    #[inline(always)]
    pub fn empty(height: u8) -> Quad
        ensures { result ≡ record { height = height; name = 0 } }
    {
        Quad { height, name: 0 }
    }

    /// Whether the quad has no cell: its name is then 0.
    #[inline(always)]
    pub fn is_empty(self) -> bool
        ensures empty { result ≡ true → self.name ≡ 0 }
        ensures filled { result ≡ false → self.name ≢ 0 }
    {
        self.name == 0
    }
}
