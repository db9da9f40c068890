//! The squares of a file, and the tests of a root against them.
ghost use Rattle.std.specs.Prelude.{◌≡◌};
ghost use Rattle.run_model.specs.SharedFiles.{is_root};
ghost use Rattle.k2_parts.specs.Told.{quadrants_told};
ghost use Rattle.k2_parts.specs.Roots.{AreSquares, root_fault};

use crate::extents::{Extent, fits};
use crate::form::Quadrant;
use crate::heights::height_at;
use k2_file::sides::height_of_file;
use rel_model::SIZE_LIMIT;
use run_model::outcome::BadFile;

/// The listed quadrants of a file with their heights, and the extents of all numbers. 48 bytes.
#[derive(Clone, Copy)]
pub(crate) struct Squares<'a> {
    pub(crate) quads: &'a [Quadrant],
    pub(crate) heights: &'a [u8],
    pub(crate) extents: &'a [Extent],
}

impl Squares<'_> {
    /// Whether a number is 0, or that of a listed quadrant of this height.
    fn is_root(&self, number: u32, height: u8) -> bool
        requires { AreSquares self.now }
        ensures { result ≡ is_root (quadrants_told self.now.quads.now) self.now.heights.now height number }
    {
        number == 0
            || (2 <= number
                && ((number as usize) < self.quads.len() + 2
                    && height_at(self.heights, number) == height))
    }

    /// The first test that a root fails, given the sizes of its relation and the relation's place in the file.
    pub(crate) fn fault_of_root(&self, at: u64, rows: u32, cols: u32, root: u32) -> Option<BadFile>
        requires { AreSquares self.now }
        ensures { result ≡ root_fault (quadrants_told self.now.quads.now) self.now.heights.now at rows cols root }
    {
        if SIZE_LIMIT < rows || SIZE_LIMIT < cols {
            return Some(BadFile::Sizes);
        }
        if !self.is_root(root, height_of_file(rows, cols)) {
            return Some(BadFile::Root { at });
        }
        if !fits(self.quads, self.heights, self.extents, root, rows, cols) {
            return Some(BadFile::Outside { at });
        }
        None
    }
}
