//! The closure of a graph without cycles by rows of bits, which are united in depth-first postorder.
ghost use Rattle.std.specs.Prelude.{◌≡◌, ◌<◌, ◌≤◌, ◌*◌, ℕ, IfOk, IfSome, length};
ghost use Rattle.rel_model.specs.Relation.{IsIncreasing};
ghost use Rattle.rel_model.specs.Closures.{transitive_closure};
ghost use Rattle.rel_model.specs.Worker.{Stands, set_of, Gives, Keeps, MakesAtMost, HasCause, derived_room};
ghost use Rattle.rel_model.specs.Listed.{AreWithin};
ghost use Rattle.rel_joins.specs.Starts.{IsIndex};
ghost use Rattle.rel_joins.specs.Columns.{AreBare};
ghost use Rattle.rel_joins.specs.Ordered.{IsReady};

use crate::postorder::postorder;
use crate::squares::{SQUARE, cut_all, raised};
use bit_rows::Row;
use rel_model::quads_trait::Quads;
use rel_model::{Lack, Quad, Rel, Shape};
use std::alloc::Global;

/// The greatest height: 65,536 rows of 256 columns take 2 MB, and the names of all squares half a megabyte.
const HIGHEST: u8 = 16;

/// What a closure by rows of bits works on.
#[derive(Drop)]
pub(crate) struct Ordered {
    /// The elements in depth-first postorder.
    pub(crate) order: Vec<u32>,
    /// A row for each element, up to whole squares.
    pub(crate) rows: Vec<Row>,
    /// The squares, column by column.
    pub(crate) squares: Vec<Quad>,
    /// The number of squares in a column, and of columns of squares.
    pub(crate) blocks: usize,
    /// The height of the tree.
    pub(crate) height: u8,
}

/// Rows with no column. `None`: there is no memory for them.
fn bare_rows(alloc: Global, count: usize) -> Option<Vec<Row>>
    ensures size { IfSome result (λ v. length v.items ≡ count) }
    ensures bare { IfSome result (λ v. AreBare 0 v.items) }
{
    let bare = Row {
        w0: 0,
        w1: 0,
        w2: 0,
        w3: 0,
    };
    match vec![in alloc; bare; count] {
        Ok(rows) => Some(rows),
        Err(_) => None,
    }
}

/// Places for squares. `None`: there is no memory for them.
fn no_squares(alloc: Global, count: usize) -> Option<Vec<Quad>>
    ensures { IfSome result (λ v. length v.items ≡ count) }
{
    match vec![in alloc; Quad::empty(SQUARE); count] {
        Ok(squares) => Some(squares),
        Err(_) => None,
    }
}

/// All that a closure by rows of bits needs. `None`: pairs go in a circle, the tree is too high or has other leaves
/// than blocks of 8 by 8, or there is no memory.
pub(crate) fn in_order<Q: Quads>(
    alloc: Global,
    q: &Q,
    r: Rel,
    pairs: &[(u32, u32)],
    starts: &[usize],
) -> Option<Ordered>
    requires standing { Stands (Q.worker q.now) r }
    requires square { r.rows ≡ r.cols }
    requires index { IsIndex r.rows pairs.now starts.now }
    ensures { IfSome result (λ o. IsReady Q.least r.rows pairs.now o) }
{
    let height = q.root(r).height;
    if q.bottom() != 3 || height < SQUARE || height > HIGHEST {
        return None;
    }
    let Some(order) = postorder(alloc, r.rows, pairs, starts) else {
        return None;
    };
    let blocks = (r.rows as usize + 255) / 256;
    let Some(rows) = bare_rows(alloc, 256 * blocks) else {
        return None;
    };
    let Some(squares) = no_squares(alloc, blocks * blocks) else {
        return None;
    };
    Some(Ordered {
        order,
        rows,
        squares,
        blocks,
        height,
    })
}

/// The closure of pairs that do not go in a circle, by rows of bits, 256 columns at a time.
pub(crate) fn close_in_order<Q: Quads>(
    q: &mut Q,
    r: Rel,
    pairs: &[(u32, u32)],
    starts: &[usize],
    ordered: Ordered,
) -> Result<Rel, Lack>
    requires standing { Stands (Q.worker q.old) r }
    requires square { r.rows ≡ r.cols }
    requires is { pairs.now ≡ (set_of (Q.worker q.old) r).pairs }
    requires index { IsIndex r.rows pairs.now starts.now }
    requires ends { AreWithin r.rows r.rows pairs.now }
    requires sorted { IsIncreasing pairs.now }
    requires ready { IsReady Q.least r.rows pairs.now ordered }
    ensures value { IfOk result (Gives (Q.worker q.new) r.rows r.cols
        (transitive_closure (set_of (Q.worker q.old) r))) }
    ensures keeps { Keeps (Q.worker q.old) (Q.worker q.new) }
    ensures room { MakesAtMost (derived_room r.rows r.rows r.rows) (Q.worker q.old) (Q.worker q.new) }
    ensures cause { HasCause Q.lean (Q.worker q.old) (Q.worker q.new) result }
{
    let Ordered {
        order,
        mut rows,
        mut squares,
        blocks,
        height,
    } = ordered;
    match cut_all(
        q,
        r.rows,
        &mut rows,
        &mut squares,
        blocks,
        &order,
        pairs,
        starts,
    ) {
        Ok(()) => {}
        Err(lack) => return Err(lack),
    }
    let shape = Shape {
        rows: r.rows,
        cols: r.cols,
    };
    match raised(q, &squares, blocks, height, 0, 0) {
        Ok(quad) => Ok(q.rel(shape, quad)),
        Err(lack) => Err(lack),
    }
}
