//! The height of a size.
ghost use Rattle.std.specs.Prelude.{◌≡◌, ◌≤◌};
ghost use Rattle.rel_model.specs.Relation.{size_height};
ghost use Rattle.rel_model.specs.Worker.{height_of};

use crate::TOP_HEIGHT;
use crate::empty::side_of;

/// The least height whose side is at least this size.
pub fn height_of_size(size: u32) -> u8
    ensures value { result ≡ height_of size }
    ensures limit { result ≤ size_height }
{
    let mut height = 0;
    'powers: for k in 0..TOP_HEIGHT {
        if side_of(k) < size {
            height += 1;
        }
    }
    height
}
