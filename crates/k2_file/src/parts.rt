//! The parts of a file's tree, T and L, and the groups of their levels.
ghost use Rattle.std.specs.Prelude.{◌≡◌, ◌<◌, ◌≤◌, ◌+◌, ◌*◌, ◌^◌, ◌∷◌, length, drop};
ghost use Rattle.k2_file.specs.Depth.{level_in};

use crate::bits::{Bits, Group};

/// The bits T, of the levels above the cells, and the bits L, of the cells. 48 bytes.
#[derive(Drop)]
pub(crate) struct Parts<'a> {
    pub(crate) tree: Bits<'a>,
    pub(crate) cells: Bits<'a>,
}

impl Parts<'_> {
    /// The group of four with this number, of L or of T.
    pub(crate) fn group(&self, number: u64, is_last: bool) -> Group
        requires { 4 * number + 4 ≤ length (level_in is_last self.now) }
        ensures bits { drop (4 * number) (level_in is_last self.now) ≡ result.nw ∷ result.ne ∷ result.sw ∷ result.se
            ∷ drop (4 * (number + 1)) (level_in is_last self.now) }
        ensures limit { 4 * number + 4 < 2 ^ 64 }
    {
        if is_last {
            self.cells.group(number)
        } else {
            self.tree.group(number)
        }
    }
}
