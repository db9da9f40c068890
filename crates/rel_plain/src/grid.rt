ghost use Rattle.std.specs.Prelude.{◌≡◌, ◌++◌, IfOk, OnOk};
ghost use Rattle.rel_model.specs.Relation.{grid, row_of};

use std::alloc::{AllocError, Global};

/// All pairs within these sizes, in order.
pub(crate) fn full_pairs(alloc: Global, rows: u32, cols: u32) -> Result<Vec<(u32, u32)>, AllocError>
    ensures { IfOk result (λ v. v.items ≡ grid rows cols) }
{
    let mut out = Vec::new(alloc);
    'rows: for i in 0..rows {
        push_row(&mut out, i, cols)?;
    }
    Ok(out)
}

/// Appends the pairs of a row.
fn push_row(out: &mut Vec<(u32, u32)>, i: u32, cols: u32) -> Result<(), AllocError>
    ensures { OnOk result (out.new.items ≡ out.old.items ++ row_of cols i) }
{
    'cols: for j in 0..cols {
        out.push((i, j))?;
    }
    Ok(())
}
