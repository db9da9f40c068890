//! The walk over the pairs of a relation, by row and then by column.
ghost use Rattle.std.specs.Prelude.{◌≡◌, ◌<◌, ◌≤◌, true, IfSome};
ghost use Rattle.rel_model.specs.Relation.{has};
ghost use Rattle.rel_model.specs.Choice.{next_pair as next_pair_of};
ghost use Rattle.rel_model.specs.Worker.{Stands, set_of, HasQuad, quad_set, Keeps, MakesAtMost, MissesNothing};
ghost use Rattle.rel_choice.specs.Leasts.{IsLeastPair, from_row, behind};

use crate::columns::column_from;
use crate::rows::row_from;
use rel_model::empty::side_of;
use rel_model::quads_trait::Quads;
use rel_model::{Quad, Rel};

/// The least pair of a relation by row and then by column; if `after` is given, the least pair after that one.
///
/// It takes no memory and makes no node.
pub fn next_pair<Q: Quads>(q: &mut Q, r: Rel, after: Option<(u32, u32)>) -> Option<(u32, u32)>
    requires { Stands (Q.worker q.old) r }
    ensures value { result ≡ next_pair_of (set_of (Q.worker q.old) r) after }
    ensures among { IfSome result (λ p. has (set_of (Q.worker q.old) r) p.0 p.1 ≡ true) }
    ensures keeps { Keeps (Q.worker q.old) (Q.worker q.new) }
    ensures room { MakesAtMost 0 (Q.worker q.old) (Q.worker q.new) }
    ensures misses { MissesNothing (Q.worker q.old) (Q.worker q.new) }
{
    let quad = q.root(r);
    let Some((row, column)) = after else {
        return pair_from(q, quad, 0);
    };
    pair_behind(q, quad, row, column)
}

/// The least cell of a quad after a place.
fn pair_behind<Q: Quads>(q: &mut Q, quad: Quad, row: u32, column: u32) -> Option<(u32, u32)>
    requires { HasQuad (Q.worker q.old) quad }
    ensures value { IsLeastPair (quad_set (Q.worker q.old) quad) (behind row column) result }
    ensures keeps { Keeps (Q.worker q.old) (Q.worker q.new) }
    ensures room { MakesAtMost 0 (Q.worker q.old) (Q.worker q.new) }
    ensures misses { MissesNothing (Q.worker q.old) (Q.worker q.new) }
{
    let side = side_of(quad.height);
    if side <= row {
        return None;
    }
    if let Some(found) = column_from(q, quad, row, column.saturating_add(1), side) {
        return Some((row, found));
    }
    pair_from(q, quad, row + 1)
}

/// The least cell of a quad from one row on.
fn pair_from<Q: Quads>(q: &mut Q, quad: Quad, from: u32) -> Option<(u32, u32)>
    requires { HasQuad (Q.worker q.old) quad }
    ensures value { IsLeastPair (quad_set (Q.worker q.old) quad) (from_row from) result }
    ensures keeps { Keeps (Q.worker q.old) (Q.worker q.new) }
    ensures room { MakesAtMost 0 (Q.worker q.old) (Q.worker q.new) }
    ensures misses { MissesNothing (Q.worker q.old) (Q.worker q.new) }
{
    let side = side_of(quad.height);
    let row = row_from(q, quad, from, side)?;
    let column = column_from(q, quad, row, 0, side)?;
    Some((row, column))
}
