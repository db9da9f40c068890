//! The levels of a file's tree: whether its bits fit them, its groups of four, and the cells that it describes.
ghost use Rattle.std.specs.Prelude.{◌≡◌, ◌==◌, ◌<◌, ◌≤◌, ◌+◌, ◌*◌, ◌^◌, IfOk, length, take, drop, true, false};
ghost use Rattle.std.specs.List.{flat_map, slice_index_or};
ghost use Rattle.rel_model.specs.Relation.{size_height};
ghost use Rattle.run_model.specs.Files.{whole, quarters, chosen, levels_fit, zero_group};
ghost use Rattle.k2_file.specs.Told.{AreInside, bits_in, both_in, cells_by, fit_by, group_is_set, levels_by};

use crate::bits::Bits;
use crate::corners::{chosen_of, quarters_of};
use crate::header::Header;
use rel_model::empty::side_of;
use run_model::outcome::BadFile;
use std::alloc::{AllocError, Global};

/// Whether the bits of T are those of this many levels, given the number of groups of the first level and of cells
/// below the last.
fn do_levels_fit(tree: &Bits<'_>, levels: u8, first: u64, cell_count: u64) -> bool
    ensures { result ≡ levels_fit levels first (bits_in tree.now) cell_count }
{
    let _count = tree.count;
    let mut groups = first;
    let mut from = 0;
    'levels: for _ in 0..levels {
        if tree.count / 4 - from < groups {
            return false;
        }
        let next = tree.ones_in_groups(from, groups);
        from += groups;
        groups = next;
    }
    if 4 * from != tree.count {
        return false;
    }
    are_of_groups(cell_count, groups)
}

/// Whether this is the number of cells of this many groups of four.
fn are_of_groups(cells: u64, groups: u64) -> bool
    ensures { result ≡ (cells == 4 * groups) }
{
    cells % 4 == 0 && cells / 4 == groups
}

/// Whether a bit is set, where places run through T and then L.
fn is_set_of(tree: &Bits<'_>, cells: &Bits<'_>, place: u64) -> bool
    requires { place < tree.now.count + cells.now.count }
    ensures { result ≡ slice_index_or (both_in tree.now cells.now) place false }
{
    if place < tree.count {
        tree.is_set(place)
    } else {
        cells.is_set(place - tree.count)
    }
}

/// Whether a bit is set in the group of four that begins at a place, where places run through T and then L.
fn has_set(tree: &Bits<'_>, cells: &Bits<'_>, at: u64) -> bool
    requires fits { tree.now.count + cells.now.count < 2 ^ 64 }
    requires place { at + 4 ≤ tree.now.count + cells.now.count }
    ensures { result ≡ group_is_set (both_in tree.now cells.now) at }
{
    is_set_of(tree, cells, at)
        || is_set_of(tree, cells, at + 1)
        || is_set_of(tree, cells, at + 2)
        || is_set_of(tree, cells, at + 3)
}

/// The first bit of the first group of four without a set bit, in T and then L.
fn first_zero_group(tree: &Bits<'_>, cells: &Bits<'_>) -> Option<u64>
    requires { tree.now.count + cells.now.count < 2 ^ 64 }
    ensures { result ≡ zero_group 0 (both_in tree.now cells.now) }
{
    'groups: for group in 0..(tree.count + cells.count) / 4 {
        let at = 4 * group;
        if !has_set(tree, cells, at) {
            return Some(at);
        }
    }
    None
}

/// The first test of the tree that the bits fail.
pub(crate) fn fault_in_levels(header: &Header, tree: &Bits<'_>, cells: &Bits<'_>) -> Option<BadFile>
    requires least { 1 ≤ header.now.height }
    requires top { header.now.height ≤ size_height }
    requires tree { tree.now.count ≡ header.now.tree_count }
    requires cells { cells.now.count ≡ header.now.cell_count }
    ensures { result ≡ levels_by header.now tree.now cells.now }
{
    if !do_levels_fit(tree, header.height - 1, header.groups(), header.cell_count) {
        return Some(BadFile::Lengths);
    }
    match first_zero_group(tree, cells) {
        Some(at) => Some(BadFile::ZeroGroup { at }),
        None => None,
    }
}

/// The submatrices of the next level: those quarters whose bits, from a place on, are set.
fn next_level(
    alloc: Global,
    tree: &Bits<'_>,
    level: u8,
    corners: &[(u32, u32)],
    from: u64,
) -> Result<Vec<(u32, u32)>, AllocError>
    requires level { level ≤ size_height }
    requires inside { AreInside (2 ^ level) corners.now }
    requires bits { from + 4 * length corners.now ≤ tree.now.count }
    ensures { IfOk result (λ v. v.items ≡ chosen (flat_map (quarters (2 ^ level)) corners.now)
        (drop from (bits_in tree.now))) }
{
    let quarters = quarters_of(alloc, side_of(level), corners)?;
    chosen_of(alloc, quarters.as_slice(), tree, from)
}

/// The whole matrix, unless the relation is empty.
fn first_level(alloc: Global, groups: u64) -> Result<Vec<(u32, u32)>, AllocError>
    requires { groups ≤ 1 }
    ensures { IfOk result (λ v. v.items ≡ take groups whole) }
{
    let mut corners = Vec::new(alloc);
    if groups == 1 {
        corners.push((0, 0))?;
    }
    Ok(corners)
}

/// The cells whose bits the last level has.
pub(crate) fn cells_of(
    alloc: Global,
    header: &Header,
    tree: &Bits<'_>,
) -> Result<Vec<(u32, u32)>, AllocError>
    requires least { 1 ≤ header.now.height }
    requires top { header.now.height ≤ size_height }
    requires fit { fit_by header.now tree.now ≡ true }
    ensures cells { IfOk result (λ v. v.items ≡ cells_by header.now tree.now) }
    ensures count { IfOk result (λ v. length v.items ≡ header.now.cell_count) }
{
    let mut corners = first_level(alloc, header.groups())?;
    let mut from = 0;
    'levels: for done in 1..header.height {
        let width = 4 * corners.len() as u64;
        corners = next_level(alloc, tree, header.height - done, corners.as_slice(), from)?;
        from += width;
    }
    let cells = quarters_of(alloc, 1, corners.as_slice())?;
    Ok(cells)
}
