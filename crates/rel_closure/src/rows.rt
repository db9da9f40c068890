//! The transitive closure of a quad of up to 256 rows and columns by rows of bits.
ghost use Rattle.std.specs.Prelude.{◌≡◌, ◌≤◌, ◌+◌, ◌-◌, ◌^◌, ◌%◌, length, IfOk};
ghost use Rattle.rel_model.specs.Cells.{cells_union};
ghost use Rattle.rel_model.specs.Roots.{tree_room};
ghost use Rattle.rel_model.specs.Worker.{HasQuad, quad_set, GivesQuad, Keeps, MakesAtMost, HasCause};
ghost use Rattle.rel_steps.specs.Making.{MakesQuad};
ghost use Rattle.bit_rows.specs.Rows.{rows_cells};
ghost use Rattle.bit_rows.specs.Places.{placed, window};
ghost use Rattle.rel_closure.specs.ByQuarters.{cells_closure};
ghost use Rattle.rel_steps.specs.Reading.{OnlyReads};

use bit_rows::{Row, add_block, block_at, is_clear, no_rows, rows_close};
use rel_model::empty::side_of;
use rel_model::quads_trait::Quads;
use rel_model::{Lack, Quad, Quarters};

/// Adds the cells of a quad to rows, from a row and a column on.
fn spill<Q: Quads>(quads: &mut Q, q: Quad, z: &mut [Row], row: usize, col: usize)
    requires stands { HasQuad (Q.worker quads.old) q }
    requires leaf { Q.least ≡ 3 }
    requires z_len { length z.old ≡ 256 }
    requires row_in { row + 2 ^ q.height ≤ 256 }
    requires col_in { col + 2 ^ q.height ≤ 256 }
    requires col_on { col % 8 ≡ 0 }
    ensures len { length z.new ≡ 256 }
    ensures cells { rows_cells z.new
        ≡ cells_union (rows_cells z.old) (placed row col (quad_set (Q.worker quads.old) q)) }
    ensures reads { OnlyReads (Q.worker quads.old) (Q.worker quads.new) }
{
    if q.is_empty() {
        return;
    }
    if q.height == quads.bottom() {
        let bits = quads.bits(q);
        add_block(z, bits, row, col);
        return;
    }
    let Quarters { nw, ne, sw, se } = quads.quarters(q);
    let half = side_of(nw.height) as usize;
    spill(quads, nw, z, row, col);
    spill(quads, ne, z, row, col + half);
    spill(quads, sw, z, row + half, col);
    spill(quads, se, z, row + half, col + half);
}

/// The quad of the cells of 256 rows of bits, from a row and a column on. A square without a cell is recognised before it
/// is cut.
pub fn gather<Q: Quads>(
    quads: &mut Q,
    z: &[Row],
    height: u8,
    row: usize,
    col: usize,
) -> Result<Quad, Lack>
    requires leaf { Q.least ≡ 3 }
    requires z_len { length z.now ≡ 256 }
    requires low { 3 ≤ height }
    requires high { height ≤ 8 }
    requires row_in { row + 2 ^ height ≤ 256 }
    requires col_in { col + 2 ^ height ≤ 256 }
    requires col_on { col % 8 ≡ 0 }
    ensures { MakesQuad Q.lean (tree_room (height - 3)) height (window row col (2 ^ height) (rows_cells z.now))
        (Q.worker quads.old) (Q.worker quads.new) result }
{
    if height == quads.bottom() {
        let block = quads.block(block_at(z, row, col))?;
        return Ok(block);
    }
    let side = side_of(height) as usize;
    if is_clear(z, row, col, side) {
        return Ok(Quad::empty(height));
    }
    let half = side_of(height - 1) as usize;
    let nw = gather(quads, z, height - 1, row, col)?;
    let ne = gather(quads, z, height - 1, row, col + half)?;
    let sw = gather(quads, z, height - 1, row + half, col)?;
    let se = gather(quads, z, height - 1, row + half, col + half)?;
    let all = quads.corner(nw, ne, sw, se)?;
    Ok(all)
}

/// The closure of a square of up to 256 rows and columns over blocks of 8 by 8: writes its cells to rows, closes these,
/// and names the quad of their cells.
///
/// The rows take 8 KB of stack; keeping this a separate call puts them there only while it runs.
#[inline(never)]
pub(crate) fn closed_by_rows<Q: Quads>(quads: &mut Q, q: Quad) -> Result<Quad, Lack>
    requires stands { HasQuad (Q.worker quads.old) q }
    requires leaf { Q.least ≡ 3 }
    requires small { q.height ≤ 8 }
    ensures value { IfOk result (GivesQuad (Q.worker quads.new) q.height
        (cells_closure (2 ^ q.height) (quad_set (Q.worker quads.old) q))) }
    ensures keeps { Keeps (Q.worker quads.old) (Q.worker quads.new) }
    ensures room { MakesAtMost (tree_room (q.height - 3)) (Q.worker quads.old) (Q.worker quads.new) }
    ensures cause { HasCause Q.lean (Q.worker quads.old) (Q.worker quads.new) result }
{
    let mut z = no_rows();
    spill(quads, q, &mut z, 0, 0);
    rows_close(&mut z);
    let all = gather(quads, &z, q.height, 0, 0)?;
    Ok(all)
}
