ghost use Rattle.std.specs.Prelude.{◌≡◌, [], ◌∷◌, ◌++◌, IfOk, OnOk, if◌then◌else◌};
ghost use Rattle.rel_model.specs.Relation.{before, IsIncreasing};
ghost use Rattle.rel_plain.specs.Merge.{IsMerge};

use crate::part::Part;
use std::alloc::{AllocError, Global};

/// `p < q`, by row and then by column.
fn is_before(p: (u32, u32), q: (u32, u32)) -> bool
    ensures { result ≡ before p q }
{
    p.0 < q.0 || (p.0 == q.0 && p.1 < q.1)
}

/// Appends a pair if it is wanted.
fn push_if(out: &mut Vec<(u32, u32)>, is_wanted: bool, p: (u32, u32)) -> Result<(), AllocError>
    ensures { OnOk result (out.new.items ≡ out.old.items ++ (if is_wanted then p ∷ [] else [])) }
{
    if is_wanted {
        out.push(p)?;
    }
    Ok(())
}

/// Appends a list if it is wanted.
fn extend_if(
    out: &mut Vec<(u32, u32)>,
    is_wanted: bool,
    ps: &[(u32, u32)],
) -> Result<(), AllocError>
    ensures { OnOk result (out.new.items ≡ out.old.items ++ (if is_wanted then ps.now else [])) }
{
    if is_wanted {
        out.extend_from_slice(ps)?;
    }
    Ok(())
}

/// The wanted pairs of two increasing lists, in order. If one list is empty, the other is copied or skipped as a whole.
pub(crate) fn merged(
    alloc: Global,
    part: Part,
    xs: &[(u32, u32)],
    ys: &[(u32, u32)],
) -> Result<Vec<(u32, u32)>, AllocError>
    requires left { IsIncreasing xs.now }
    requires right { IsIncreasing ys.now }
    ensures { IfOk result (λ v. IsMerge part xs.now ys.now v.items) }
{
    let mut out = Vec::new(alloc);
    let mut i = 0;
    let mut j = 0;
    'pairs: while i < xs.len() && j < ys.len() {
        let x = xs[i];
        let y = ys[j];
        if is_before(x, y) {
            push_if(&mut out, part.left, x)?;
            i += 1;
        } else if is_before(y, x) {
            push_if(&mut out, part.right, y)?;
            j += 1;
        } else {
            push_if(&mut out, part.both, x)?;
            i += 1;
            j += 1;
        }
    }
    extend_if(&mut out, part.left, &xs[i..])?;
    extend_if(&mut out, part.right, &ys[j..])?;
    Ok(out)
}
