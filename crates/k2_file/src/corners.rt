//! Submatrices, each given by its first row and its first column.
ghost use Rattle.std.specs.Prelude.{◌≡◌, ◌<◌, ◌≤◌, ◌+◌, ◌*◌, ◌^◌, ◌++◌, ◌&&◌, ◌∷◌, [], not, nat_lt, cond, OnOk, IfOk, length, drop};
ghost use Rattle.std.specs.List.{flat_map};
ghost use Rattle.rel_model.specs.Relation.{size_limit};
ghost use Rattle.run_model.specs.Files.{quarters, chosen, cell_outside};
ghost use Rattle.k2_file.specs.Told.{AreInside, bits_in};

use crate::bits::Bits;
use std::alloc::{AllocError, Global};

/// Appends the quarters, of this side, of a submatrix.
fn push_quarters(out: &mut Vec<(u32, u32)>, side: u32, corner: (u32, u32)) -> Result<(), AllocError>
    requires row { corner.0 + side ≤ size_limit }
    requires col { corner.1 + side ≤ size_limit }
    ensures { OnOk result (out.new.items ≡ out.old.items ++ quarters side corner) }
{
    let (south, east) = (corner.0 + side, corner.1 + side);
    out.extend_from_slice(&[corner, (corner.0, east), (south, corner.1), (south, east)])
}

/// The quarters, of this side, of submatrices.
pub(crate) fn quarters_of(
    alloc: Global,
    side: u32,
    corners: &[(u32, u32)],
) -> Result<Vec<(u32, u32)>, AllocError>
    requires { AreInside side corners.now }
    ensures { IfOk result (λ v. v.items ≡ flat_map (quarters side) corners.now) }
{
    let mut out = Vec::new(alloc);
    'corners: for corner in corners {
        push_quarters(&mut out, side, *corner)?;
    }
    Ok(out)
}

/// Appends a submatrix if its bit is set.
fn push_if(out: &mut Vec<(u32, u32)>, is_set: bool, corner: (u32, u32)) -> Result<(), AllocError>
    ensures { OnOk result (out.new.items ≡ out.old.items ++ cond is_set (corner ∷ []) []) }
{
    if is_set {
        out.push(corner)?;
    }
    Ok(())
}

/// The submatrices whose bits, from a place on, are set.
pub(crate) fn chosen_of(
    alloc: Global,
    corners: &[(u32, u32)],
    bits: &Bits<'_>,
    from: u64,
) -> Result<Vec<(u32, u32)>, AllocError>
    requires { from + length corners.now ≤ bits.now.count }
    ensures { IfOk result (λ v. v.items ≡ chosen corners.now (drop from (bits_in bits.now))) }
{
    let mut out = Vec::new(alloc);
    'corners: for i in 0..corners.len() {
        push_if(&mut out, bits.is_set(from + i as u64), corners[i])?;
    }
    Ok(out)
}

/// Whether a cell is set and outside the sizes.
fn is_set_outside(rows: u32, cols: u32, cell: (u32, u32), is_set: bool) -> bool
    ensures { result ≡ (is_set && not (nat_lt cell.0 rows && nat_lt cell.1 cols)) }
{
    is_set && !(cell.0 < rows && cell.1 < cols)
}

/// The number of the first cell outside the sizes whose bit is set, counting from `at`.
pub(crate) fn first_outside(
    rows: u32,
    cols: u32,
    at: u64,
    cells: &[(u32, u32)],
    bits: &Bits<'_>,
) -> Option<u64>
    requires bits { length cells.now ≤ bits.now.count }
    requires numbers { at + length cells.now < 2 ^ 64 }
    ensures { result ≡ cell_outside rows cols at cells.now (bits_in bits.now) }
{
    'cells: for i in 0..cells.len() {
        if is_set_outside(rows, cols, cells[i], bits.is_set(i as u64)) {
            return Some(at + i as u64);
        }
    }
    None
}
