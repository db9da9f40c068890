//! Squares of 256 rows and columns, cut from rows of bits, and the tree over them.
ghost use Rattle.std.specs.Prelude.{◌≡◌, ◌<◌, ◌≤◌, ◌+◌, ◌-◌, ◌*◌, ◌^◌, ℕ, length, slice_index_or, OnOk};
ghost use Rattle.rel_model.specs.declared.Quad.{Quad};
ghost use Rattle.rel_model.specs.Relation.{IsIncreasing};
ghost use Rattle.rel_model.specs.Listed.{AreWithin};
ghost use Rattle.rel_model.specs.Worker.{Keeps, MakesAtMost, HasCause};
ghost use Rattle.rel_model.specs.Roots.{tree_room};
ghost use Rattle.rel_steps.specs.Making.{MakesQuad};
ghost use Rattle.bit_rows.specs.Rows.{rows_cells};
ghost use Rattle.bit_rows.specs.Places.{window};
ghost use Rattle.rel_joins.specs.Starts.{IsIndex};
ghost use Rattle.rel_joins.specs.Postorder.{IsPostorder};
ghost use Rattle.rel_joins.specs.Columns.{closed_cells, AreBare, AreSquares, AreCut, AreTiles, no_square, tiled};

use crate::columns::close_columns;
use bit_rows::Row;
use rel_closure::gather;
use rel_model::empty::side_of;
use rel_model::quads_trait::Quads;
use rel_model::{Lack, Quad};

/// The height of a square of 256 rows and columns.
pub(crate) const SQUARE: u8 = 8;

/// 256 rows, from one on.
fn part(rows: &[Row], from: usize) -> &[Row]
    requires { from + 256 ≤ length rows.now }
    ensures len { length result.now ≡ 256 }
    ensures cells { window 0 0 256 (rows_cells result.now) ≡ window from 0 256 (rows_cells rows.now) }
{
    &rows[from..from + 256]
}

/// Cuts the squares of 256 columns, and puts them from a place on.
fn cut_squares<Q: Quads>(
    q: &mut Q,
    rows: &[Row],
    squares: &mut [Quad],
    blocks: usize,
    from: usize,
) -> Result<(), Lack>
    requires leaf { Q.least ≡ 3 }
    requires size { length rows.now ≡ 256 * blocks }
    requires within { from + blocks ≤ length squares.old }
    ensures len { length squares.new ≡ length squares.old }
    ensures kept { (k : ℕ) → k < from → slice_index_or squares.new k no_square ≡ slice_index_or squares.old k no_square }
    ensures cut { OnOk result (AreCut (Q.worker q.new) rows.now from blocks squares.new) }
    ensures keeps { Keeps (Q.worker q.old) (Q.worker q.new) }
    ensures room { MakesAtMost (blocks * tree_room 5) (Q.worker q.old) (Q.worker q.new) }
    ensures cause { HasCause Q.lean (Q.worker q.old) (Q.worker q.new) result }
{
    'cuts: for b in 0..blocks {
        let square = gather(q, part(rows, 256 * b), SQUARE, 0, 0)?;
        squares[from + b] = square;
    }
    Ok(())
}

/// Cuts all squares of the closure of a graph without cycles, column by column.
pub(crate) fn cut_all<Q: Quads>(
    q: &mut Q,
    n: u32,
    rows: &mut [Row],
    squares: &mut [Quad],
    blocks: usize,
    order: &[u32],
    pairs: &[(u32, u32)],
    starts: &[usize],
) -> Result<(), Lack>
    requires leaf { Q.least ≡ 3 }
    requires size { length rows.old ≡ 256 * blocks }
    requires within { n ≤ 256 * blocks }
    requires all { length squares.old ≡ blocks * blocks }
    requires index { IsIndex n pairs.now starts.now }
    requires ends { AreWithin n n pairs.now }
    requires sorted { IsIncreasing pairs.now }
    requires order { IsPostorder n pairs.now order.now }
    requires bare { AreBare n rows.old }
    ensures len { length squares.new ≡ length squares.old }
    ensures tiles { OnOk result (AreTiles (Q.worker q.new) (closed_cells n pairs.now) blocks (blocks * blocks)
        squares.new) }
    ensures keeps { Keeps (Q.worker q.old) (Q.worker q.new) }
    ensures room { MakesAtMost (blocks * (blocks * tree_room 5)) (Q.worker q.old) (Q.worker q.new) }
    ensures cause { HasCause Q.lean (Q.worker q.old) (Q.worker q.new) result }
{
    'columns: for s in 0..blocks {
        close_columns(n, rows, order, pairs, starts, 256 * s);
        cut_squares(q, rows, squares, blocks, s * blocks)?;
    }
    Ok(())
}

/// The quad over squares side by side, from one of them on. There is no cell outside them.
pub(crate) fn raised<Q: Quads>(
    q: &mut Q,
    squares: &[Quad],
    blocks: usize,
    height: u8,
    row: usize,
    col: usize,
) -> Result<Quad, Lack>
    requires leaf { Q.least ≡ 3 }
    requires low { 8 ≤ height }
    requires high { height ≤ 16 }
    requires all { length squares.now ≡ blocks * blocks }
    requires squares { AreSquares (Q.worker q.old) squares.now }
    requires row_in { row + 2 ^ (height - 8) ≤ 256 }
    requires col_in { col + 2 ^ (height - 8) ≤ 256 }
    ensures { MakesQuad Q.lean (4 ^ (height - 8) - 1) height (window (256 * row) (256 * col) (2 ^ height)
        (tiled (Q.worker q.old) blocks squares.now)) (Q.worker q.old) (Q.worker q.new) result }
{
    if row.max(col) >= blocks {
        return Ok(Quad::empty(height));
    }
    if height == SQUARE {
        return Ok(squares[col * blocks + row]);
    }
    let half = side_of(height - SQUARE - 1) as usize;
    let nw = raised(q, squares, blocks, height - 1, row, col)?;
    let ne = raised(q, squares, blocks, height - 1, row, col + half)?;
    let sw = raised(q, squares, blocks, height - 1, row + half, col)?;
    let se = raised(q, squares, blocks, height - 1, row + half, col + half)?;
    let all = q.corner(nw, ne, sw, se)?;
    Ok(all)
}
