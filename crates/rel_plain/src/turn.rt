ghost use Rattle.std.specs.Prelude.{IfOk};
ghost use Rattle.rel_plain.specs.Turn.{IsTurned};

use crate::merge::merged;
use crate::part::EITHER;
use std::alloc::{AllocError, Global};

/// The pairs turned round, in order: turns both halves of the list, and merges them.
pub(crate) fn turned(alloc: Global, pairs: &[(u32, u32)]) -> Result<Vec<(u32, u32)>, AllocError>
    ensures { IfOk result (λ v. IsTurned pairs.now v.items) }
{
    if pairs.len() == 0 {
        return Ok(Vec::new(alloc));
    }
    if pairs.len() == 1 {
        let mut one = Vec::new(alloc);
        let (i, j) = pairs[0];
        one.push((j, i))?;
        return Ok(one);
    }
    let (front, back) = pairs.split_at(pairs.len() / 2);
    let left = turned(alloc, front)?;
    let right = turned(alloc, back)?;
    let out = merged(alloc, EITHER, left.as_slice(), right.as_slice())?;
    Ok(out)
}
