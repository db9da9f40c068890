//! The pairs of a REL.
ghost use Rattle.std.specs.Prelude.{IfOk};
ghost use Rattle.rel_model.specs.Listed.{AreWithin};

use lang_model::syntax::Row;
use rel_model::Shape;
use std::alloc::{AllocError, Global};

/// Appends a listed pair, if it lies within the sizes.
fn push_listed(
    pairs: &mut Vec<(u32, u32)>,
    shape: Shape,
    row: u64,
    col: u64,
) -> Result<(), AllocError>
    requires { AreWithin shape.rows shape.cols pairs.old.items }
    ensures { AreWithin shape.rows shape.cols pairs.new.items }
{
    if row >= 1 && row <= shape.rows as u64 && col >= 1 && col <= shape.cols as u64 {
        pairs.push(((row - 1) as u32, (col - 1) as u32))?;
    }
    Ok(())
}

/// Appends the pairs of a listed row.
fn push_row(pairs: &mut Vec<(u32, u32)>, shape: Shape, row: &Row) -> Result<(), AllocError>
    requires { AreWithin shape.rows shape.cols pairs.old.items }
    ensures { AreWithin shape.rows shape.cols pairs.new.items }
{
    'columns: for column in row.cols.as_slice() {
        push_listed(pairs, shape, row.row, column.col)?;
    }
    Ok(())
}

/// The listed pairs within the sizes, counted from 0.
pub fn listed_pairs(
    alloc: Global,
    shape: Shape,
    list: &[Row],
) -> Result<Vec<(u32, u32)>, AllocError>
    ensures { IfOk result (λ v. AreWithin shape.rows shape.cols v.items) }
{
    let mut pairs = Vec::new(alloc);
    'rows: for row in list {
        push_row(&mut pairs, shape, row)?;
    }
    Ok(pairs)
}
