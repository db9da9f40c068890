//! Classes of elements with equal columns.
ghost use Rattle.std.specs.Prelude.{◌≡◌, IfOk};
ghost use Rattle.rel_model.specs.Orders.{classes, class_count};
ghost use Rattle.rel_model.specs.Worker.{Stands, set_of, Gives, Keeps, MakesAtMost, HasCause, classes_room};
ghost use Rattle.rel_order.specs.Steps.{leading, leading_room};

use crate::numbers::less;
use rel_domains::inj;
use rel_model::core_trait::Core;
use rel_model::quads_trait::Quads;
use rel_model::{Lack, Rel, Shape};
use rel_residual::syq;

/// `{(x, 0) : no y < x has (x, y) in r}`: the elements that are related to no lesser one, as a vector.
fn leaders<Q: Quads>(q: &mut Q, r: Rel) -> Result<Rel, Lack>
    requires stands { Stands (Q.worker q.old) r }
    requires square { r.rows ≡ r.cols }
    ensures value { IfOk result (Gives (Q.worker q.new) r.rows 1 (leading (set_of (Q.worker q.old) r))) }
    ensures keeps { Keeps (Q.worker q.old) (Q.worker q.new) }
    ensures room { MakesAtMost (leading_room r.rows r.cols) (Q.worker q.old) (Q.worker q.new) }
    ensures cause { HasCause Q.lean (Q.worker q.old) (Q.worker q.new) result }
{
    let lesser = less(q, r.rows)?;
    let greater = q.transpose(lesser)?;
    let behind = q.inter(r, greater)?;
    let all = q.full(Shape {
        rows: r.rows,
        cols: 1,
    })?;
    let followers = q.compose(behind, all)?;
    let rest = q.diff(all, followers)?;
    Ok(rest)
}

/// `{(x, k) : x is in class k}`: the quotient of an equivalence, with one column for each class (Schmidt and Ströhlein,
/// *Relations and Graphs*). Two elements are in one class if their columns of r are equal; classes are numbered from 0
/// by their least elements.
///
/// Elements with equal columns are the pairs of the symmetric quotient of r by itself. No two columns are compared: the
/// least elements of the classes are numbered in order, and each number takes the elements of its class.
pub fn quot<Q: Quads>(q: &mut Q, r: Rel) -> Result<Rel, Lack>
    requires stands { Stands (Q.worker q.old) r }
    requires square { r.rows ≡ r.cols }
    ensures value { IfOk result (Gives (Q.worker q.new) r.rows (class_count (set_of (Q.worker q.old) r))
        (classes (set_of (Q.worker q.old) r))) }
    ensures keeps { Keeps (Q.worker q.old) (Q.worker q.new) }
    ensures room { MakesAtMost (classes_room r.rows r.cols r.cols) (Q.worker q.old) (Q.worker q.new) }
    ensures cause { HasCause Q.lean (Q.worker q.old) (Q.worker q.new) result }
{
    let alike = syq(q, r, r)?;
    let least = leaders(q, alike)?;
    let numbers = inj(q, least)?;
    let numbered = q.transpose(numbers)?;
    let found = q.compose(alike, numbered)?;
    Ok(found)
}
