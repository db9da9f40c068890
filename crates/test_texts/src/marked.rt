//! Matrices made from pairs, beside a slow text that asks for each cell.
use crate::made::{are, lie_within};
use rel_model::Shape;
use rv_print::matrix_of;
use std::alloc::Global;
use std::process::Abort;
use std::test::Fail;

/// Some pairs of these sizes: each third cell, by row and then by column, and the last cell.
fn some_pairs(alloc: Global, shape: Shape) -> Result<Vec<(u32, u32)>, Fail> {
    let mut pairs = Vec::new(alloc);
    'rows: for i in 0..shape.rows {
        'columns: for j in 0..shape.cols {
            let third = (i % 3 + j % 3) % 3 == 1;
            let last = i == shape.rows - 1 && j == shape.cols - 1;
            if third || last {
                pairs.push((i, j))?;
            }
        }
    }
    Ok(pairs)
}

/// The matrix of these pairs, cell by cell.
fn slow_matrix(alloc: Global, shape: Shape, pairs: &[(u32, u32)]) -> Result<String, Fail> {
    let mut text = format!(in alloc; "{} x {}\n", shape.rows, shape.cols)?;
    'rows: for i in 0..shape.rows {
        'columns: for j in 0..shape.cols {
            text.push_str(if pairs.contains(&(i, j)) { "1" } else { "." })?;
        }
        text.push_str("\n")?;
    }
    Ok(text)
}

/// Asserts that the matrix of these pairs is right, also of the pairs from behind.
fn is_marked(rt: &impl Abort, alloc: Global, shape: Shape) -> Result<(), Fail> {
    let mut pairs = some_pairs(alloc, shape)?;
    let wanted = slow_matrix(alloc, shape, &pairs)?;
    assert!(rt; lie_within(&pairs, shape));
    are(
        rt,
        matrix_of(alloc, shape, &pairs)?.as_slice(),
        wanted.as_str(),
    );
    pairs.reverse();
    assert!(rt; lie_within(&pairs, shape));
    are(
        rt,
        matrix_of(alloc, shape, &pairs)?.as_slice(),
        wanted.as_str(),
    );
    Ok(())
}

#[test]
fn a_matrix_from_pairs_has_a_mark_for_each_pair_in_any_order(rt: HostRuntime) -> Result<(), Fail> {
    let alloc = rt.alloc();
    'sizes: for (rows, cols) in [(0, 0), (1, 1), (2, 3), (64, 3), (3, 70)] {
        is_marked(&rt, alloc, Shape { rows, cols })?;
    }
    Ok(())
}
