//! Bounds and extremes with respect to a relation on one set.
ghost use Rattle.std.specs.Prelude.{◌≡◌, IfOk};
ghost use Rattle.rel_model.specs.Worker.{Stands, set_of, Gives, Keeps, MakesAtMost, HasCause, extremes_room, classes_room};
ghost use Rattle.rel_slices.specs.Thin.{value_of, value_rows, value_cols};
ghost use Rattle.rel_values.specs.Values.{Fits, Operates};
ghost use Rattle.rel_values.specs.Bounds.{bound_of};

use crate::form::square;
use crate::standing::stays_whole;
use rel_model::engine_trait::Engine;
use rel_model::{Lack, Rel};
use rel_order::{greatest, inf, lbd, least, sup, ubd};
use rel_slices::{Value, made_whole};

/// Which bounds or extremes are wanted. One byte.
#[derive(Clone, Copy)]
pub enum Bound {
    Upper,
    Lower,
    Least,
    Greatest,
    Suprema,
    Infima,
}

/// The bounds or extremes of the columns of `s` with respect to `r`; both are whole.
#[tactic(auto, using(crate::proofs::Sizes::extremes))]
fn found<E: Engine>(engine: &mut E, which: Bound, r: Rel, s: Rel) -> Result<Rel, Lack>
    requires left { Stands (E.worker engine.old) r }
    requires right { Stands (E.worker engine.old) s }
    requires square { r.rows ≡ r.cols }
    requires rows { r.rows ≡ s.rows }
    ensures value { let w = E.worker engine.old in IfOk result (Gives (E.worker engine.new) r.rows s.cols
        (bound_of which (set_of w r) (set_of w s))) }
    ensures keeps { Keeps (E.worker engine.old) (E.worker engine.new) }
    ensures room { MakesAtMost (extremes_room r.rows r.cols s.cols) (E.worker engine.old) (E.worker engine.new) }
    ensures cause { HasCause E.lean (E.worker engine.old) (E.worker engine.new) result }
{
    match which {
        Bound::Upper => ubd(engine, r, s),
        Bound::Lower => lbd(engine, r, s),
        Bound::Least => least(engine, r, s),
        Bound::Greatest => greatest(engine, r, s),
        Bound::Suprema => sup(engine, r, s),
        Bound::Infima => inf(engine, r, s),
    }
}

/// The bounds or extremes of the columns of the second value with respect to the first, which is square and has as many
/// rows (Schmidt and Ströhlein, *Relations and Graphs*).
pub fn bounds<E: Engine>(engine: &mut E, which: Bound, x: &Value, y: &Value) -> Result<Value, Lack>
    requires left { Fits (E.worker engine.old) x.now }
    requires right { Fits (E.worker engine.old) y.now }
    requires square { value_rows x.now ≡ value_cols x.now }
    requires rows { value_rows x.now ≡ value_rows y.now }
    ensures operates { let w = E.worker engine.old in Operates E.least E.lean w (E.worker engine.new)
        (value_rows x.now) (value_cols y.now)
        (bound_of which (value_of w x.now) (value_of w y.now))
        (classes_room (value_rows x.now) (value_cols x.now) (value_cols y.now)) result }
{
    let order = square(engine, x);
    let columns = made_whole(engine, y)?;
    stays_whole(found(engine, which, order, columns))
}
