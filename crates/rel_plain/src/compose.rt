ghost use Rattle.std.specs.Prelude.{◌≡◌, ◌++◌, IfOk, OnOk};
ghost use Rattle.rel_model.specs.Relation.{IsIncreasing};
ghost use Rattle.rel_plain.specs.Compose.{row_through, IsComposed};

use crate::merge::merged;
use crate::part::EITHER;
use std::alloc::{AllocError, Global};

/// Appends (i, k) for each pair (j, k) of a list, found by halving: a half whose rows are all different from j is
/// skipped.
fn push_through(
    out: &mut Vec<(u32, u32)>,
    i: u32,
    j: u32,
    pairs: &[(u32, u32)],
) -> Result<(), AllocError>
    requires { IsIncreasing pairs.now }
    ensures { OnOk result (out.new.items ≡ out.old.items ++ row_through i j pairs.now) }
{
    if pairs.len() == 0 {
        return Ok(());
    }
    if pairs.len() == 1 {
        let (row, k) = pairs[0];
        if row == j {
            out.push((i, k))?;
        }
        return Ok(());
    }
    let (front, back) = pairs.split_at(pairs.len() / 2);
    let (row, _) = back[0];
    if row < j {
        return push_through(out, i, j, back);
    }
    if j < row {
        return push_through(out, i, j, front);
    }
    push_through(out, i, j, front)?;
    push_through(out, i, j, back)
}

/// The composition of two lists, in order: that of each half of the first list, and the two merged.
pub(crate) fn composed(
    alloc: Global,
    left: &[(u32, u32)],
    right: &[(u32, u32)],
) -> Result<Vec<(u32, u32)>, AllocError>
    requires { IsIncreasing right.now }
    ensures { IfOk result (λ v. IsComposed left.now right.now v.items) }
{
    if left.len() == 0 {
        return Ok(Vec::new(alloc));
    }
    if left.len() == 1 {
        let mut row = Vec::new(alloc);
        let (i, j) = left[0];
        push_through(&mut row, i, j, right)?;
        return Ok(row);
    }
    let (front, back) = left.split_at(left.len() / 2);
    let first = composed(alloc, front, right)?;
    let second = composed(alloc, back, right)?;
    let out = merged(alloc, EITHER, first.as_slice(), second.as_slice())?;
    Ok(out)
}
