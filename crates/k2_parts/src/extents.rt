//! The extents of squares: how many rows and columns their cells occupy.
ghost use Rattle.std.specs.Prelude.{◌≡◌, ◌<◌, ◌≤◌, ◌+◌, ◌^◌, ◌-◌, true, max, length, IfOk};
ghost use Rattle.rel_model.specs.Roots.{lies_within};
ghost use Rattle.run_model.specs.Files.{file_height};
ghost use Rattle.run_model.specs.SharedFiles.{height_at, cells_told, is_root};
ghost use Rattle.k2_parts.specs.Told.{quadrants_told, AreSound};
ghost use Rattle.k2_parts.specs.Extents.{reach_of, IsExtentOf, AreExtents, AreExtentsUpto};

use crate::form::Quadrant;
use rel_model::empty::side_of;
use std::alloc::{AllocError, Global};

/// How many rows and columns the cells of a square occupy: one more than the last row, and the last column, that has a
/// cell. 8 bytes.
#[derive(Clone, Copy)]
pub(crate) struct Extent {
    pub(crate) rows: u32,
    pub(crate) cols: u32,
}

/// How far the cells of two halves extend, where the second begins `side` after the first.
fn reach(side: u32, first: u32, second: u32) -> u32
    requires { side + second < 2 ^ 32 }
    ensures { result ≡ reach_of side first second }
{
    if second == 0 { first } else { side + second }
}

/// The extent of a square, from those of its quarters and their side.
fn extent_over(side: u32, nw: Extent, ne: Extent, sw: Extent, se: Extent) -> Extent
    requires rows { side + max sw.rows se.rows < 2 ^ 32 }
    requires cols { side + max ne.cols se.cols < 2 ^ 32 }
    ensures rows { result.rows ≡ reach_of side (max nw.rows ne.rows) (max sw.rows se.rows) }
    ensures cols { result.cols ≡ reach_of side (max nw.cols sw.cols) (max ne.cols se.cols) }
{
    Extent {
        rows: reach(side, nw.rows.max(ne.rows), sw.rows.max(se.rows)),
        cols: reach(side, nw.cols.max(sw.cols), ne.cols.max(se.cols)),
    }
}

/// The extent of a listed quadrant, from those of all lower numbers.
fn extent_at(quads: &[Quadrant], heights: &[u8], extents: &[Extent], at: usize) -> Extent
    requires sound { AreSound quads.now heights.now }
    requires lower { AreExtentsUpto (quadrants_told quads.now) heights.now extents.now (at + 2) }
    requires within { at < length quads.now }
    ensures { IsExtentOf (cells_told (quadrants_told quads.now) (height_at heights.now (at + 2)) (at + 2)) result }
{
    let quad = quads[at];
    let side = side_of(heights[at] - 1);
    let nw = extents[quad.nw as usize];
    let ne = extents[quad.ne as usize];
    let sw = extents[quad.sw as usize];
    let se = extents[quad.se as usize];
    extent_over(side, nw, ne, sw, se)
}

/// The extents of all numbers: of 0, of 1, and then of each listed quadrant from those of its quarters. Takes linear
/// time.
pub(crate) fn extents_of(
    alloc: Global,
    quads: &[Quadrant],
    heights: &[u8],
) -> Result<Vec<Extent>, AllocError>
    requires { AreSound quads.now heights.now }
    ensures { IfOk result (λ v. AreExtents (quadrants_told quads.now) heights.now v.items) }
{
    let mut extents = Vec::new(alloc);
    extents.push(Extent { rows: 0, cols: 0 })?;
    extents.push(Extent { rows: 1, cols: 1 })?;
    'quads: for at in 0..quads.len() {
        let extent = extent_at(quads, heights, &extents, at);
        extents.push(extent)?;
    }
    Ok(extents)
}

/// Whether all cells of the square of a root lie within the rows and columns of its relation.
pub(crate) fn fits(
    quads: &[Quadrant],
    heights: &[u8],
    extents: &[Extent],
    root: u32,
    rows: u32,
    cols: u32,
) -> bool
    requires sound { AreSound quads.now heights.now }
    requires reached { AreExtents (quadrants_told quads.now) heights.now extents.now }
    requires root { is_root (quadrants_told quads.now) heights.now (file_height rows cols) root ≡ true }
    ensures { result ≡ lies_within (2 ^ file_height rows cols) rows cols
        (cells_told (quadrants_told quads.now) (file_height rows cols) root) }
{
    let extent = extents[root as usize];
    extent.rows <= rows && extent.cols <= cols
}
