//! The matrix of a relation by its pairs: a blank matrix, in which each pair is marked.
ghost use Rattle.std.specs.Prelude.{◌≡◌, ◌<◌, ◌+◌, ◌*◌, ◌++◌, [], OnOk, IfOk, length};
ghost use Rattle.rel_model.specs.Listed.{AreWithin};
ghost use Rattle.run_model.specs.Texts.{rows_text, matrix};
ghost use Rattle.rv_print.specs.Listed.{with_pairs};

use crate::pieces::push_sizes;
use crate::rows::push_none;
use rel_model::{NoMemory, Shape};
use std::alloc::{AllocError, Global};

/// `M x N`, and a line for each row with `1` for a pair and `.` otherwise, in time linear in the cells and the pairs:
/// the matrix of the relation of these sizes with these pairs, in any order. The caller checks the limit.
#[tactic(auto, unfolding(run_model::specs::Texts::matrix))]
pub fn matrix_of(alloc: Global, shape: Shape, pairs: &[(u32, u32)]) -> Result<Vec<u8>, NoMemory>
    requires { AreWithin shape.rows shape.cols pairs.now }
    ensures { IfOk result (λ v. v.items ≡ matrix (with_pairs shape.rows shape.cols pairs.now)) }
{
    let mut cells = Vec::new(alloc);
    push_blank(&mut cells, shape)?;
    mark_pairs(&mut cells, shape, pairs);
    let mut out = Vec::new(alloc);
    push_sizes(alloc, &mut out, shape.rows, shape.cols)?;
    out.push(b'\n')?;
    out.extend_from_slice(&cells)?;
    Ok(out)
}

/// Appends a line for each row, with no pair.
fn push_blank(out: &mut Vec<u8>, shape: Shape) -> Result<(), AllocError>
    ensures { OnOk result (out.new.items ≡ out.old.items ++ rows_text (with_pairs shape.rows shape.cols [])) }
{
    'rows: for _ in 0..shape.rows {
        push_none(out, shape.cols)?;
        out.push(b'\n')?;
    }
    Ok(())
}

/// Where the cell of a pair stands among the lines of `cols` cells each.
fn place_of(pair: (u32, u32), cols: u32) -> usize
    ensures { result ≡ pair.0 * (cols + 1) + pair.1 }
{
    pair.0 as usize * (cols as usize + 1) + pair.1 as usize
}

/// Writes a `1` for each pair into the lines of a relation without pairs.
fn mark_pairs(cells: &mut [u8], shape: Shape, pairs: &[(u32, u32)])
    requires blank { cells.old ≡ rows_text (with_pairs shape.rows shape.cols []) }
    requires within { AreWithin shape.rows shape.cols pairs.now }
    ensures { cells.new ≡ rows_text (with_pairs shape.rows shape.cols pairs.now) }
{
    'pairs: for pair in pairs {
        let place = place_of(*pair, shape.cols);
        cells[place] = b'1';
    }
}
