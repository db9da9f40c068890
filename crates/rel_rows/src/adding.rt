//! A relation with one row added.
ghost use Rattle.std.specs.Prelude.{◌≡◌, ◌<◌, IfOk};
ghost use Rattle.rel_model.specs.Worker.{Stands, set_of, Gives, Keeps, MakesAtMost, HasCause};
ghost use Rattle.rel_rows.specs.Rooms.{strip_room};
ghost use Rattle.rel_rows.specs.Rows.{row_added};

use crate::merging::with_line;
use rel_model::quads_trait::Quads;
use rel_model::{Lack, Rel, Shape};

/// `r | {(i, j) : (0, j) in line}`: a relation with the elements of a line added to its row i.
///
/// It walks down this row only. A quarter to which nothing is added stays; and if the two quarters that the row crosses
/// are the same quad and get the same, it walks down only one of them.
pub fn with_row<Q: Quads>(q: &mut Q, r: Rel, i: u32, line: Rel) -> Result<Rel, Lack>
    requires standing { Stands (Q.worker q.old) r }
    requires line { Stands (Q.worker q.old) line }
    requires within { i < r.rows }
    requires one_row { line.rows ≡ 1 }
    requires cols { line.cols ≡ r.cols }
    ensures value { IfOk result (Gives (Q.worker q.new) r.rows r.cols
        (row_added (set_of (Q.worker q.old) r) i (set_of (Q.worker q.old) line))) }
    ensures keeps { Keeps (Q.worker q.old) (Q.worker q.new) }
    ensures room { MakesAtMost (strip_room Q.least r.rows r.cols) (Q.worker q.old) (Q.worker q.new) }
    ensures cause { HasCause Q.lean (Q.worker q.old) (Q.worker q.new) result }
{
    let quad = q.root(r);
    let added = q.root(line);
    match with_line(q, quad, i, added) {
        Ok(whole) => Ok(q.rel(
            Shape {
                rows: r.rows,
                cols: r.cols,
            },
            whole,
        )),
        Err(lack) => Err(lack),
    }
}
