//! Choosing an element or a pair, and listing the elements of a vector.
ghost use Rattle.std.specs.Prelude.{◌≡◌};
ghost use Rattle.rel_model.specs.Choice.{holds, count_below, point as point_of, atom as atom_of, init as init_of, next as next_of, inj as inj_of};
ghost use Rattle.rel_model.specs.Worker.{wide_room};
ghost use Rattle.rel_slices.specs.Thin.{value_of, value_rows, value_cols};
ghost use Rattle.rel_values.specs.Values.{Fits, Operates};

use crate::standing::stays_whole;
use rel_model::Lack;
use rel_model::engine_trait::Engine;
use rel_slices::{Value, made_whole};

/// `{(i, 0) : i is the least element of v}`: a point of a vector; the empty vector if v is empty.
pub fn point<E: Engine>(engine: &mut E, v: &Value) -> Result<Value, Lack>
    requires fits { Fits (E.worker engine.old) v.now }
    requires column { value_cols v.now ≡ 1 }
    ensures operates { let w = E.worker engine.old in Operates E.least E.lean w (E.worker engine.new)
        (value_rows v.now) 1
        (point_of (value_of w v.now))
        (wide_room (value_rows v.now) (value_cols v.now) 1) result }
{
    let all = made_whole(engine, v)?;
    stays_whole(engine.point(all))
}

/// `{(i, j) : (i, j) is the least pair of r by row and then by column}`: an atom of a relation; the empty relation if
/// it has no pair.
pub fn atom<E: Engine>(engine: &mut E, v: &Value) -> Result<Value, Lack>
    requires fits { Fits (E.worker engine.old) v.now }
    ensures operates { let w = E.worker engine.old in Operates E.least E.lean w (E.worker engine.new)
        (value_rows v.now) (value_cols v.now)
        (atom_of (value_of w v.now))
        (wide_room (value_rows v.now) (value_cols v.now) 1) result }
{
    let all = made_whole(engine, v)?;
    stays_whole(engine.atom(all))
}

/// `{(0, 0)}` with the rows of v: the first element; the empty vector if v has no rows.
pub fn init<E: Engine>(engine: &mut E, v: &Value) -> Result<Value, Lack>
    requires fits { Fits (E.worker engine.old) v.now }
    requires column { value_cols v.now ≡ 1 }
    ensures operates { let w = E.worker engine.old in Operates E.least E.lean w (E.worker engine.new)
        (value_rows v.now) 1
        (init_of (value_of w v.now))
        (wide_room (value_rows v.now) (value_cols v.now) 1) result }
{
    let all = made_whole(engine, v)?;
    stays_whole(engine.init(all))
}

/// `{(i + 1, 0) : i is in v, i + 1 < rows}`: moves each element up by one and drops the last.
pub fn next<E: Engine>(engine: &mut E, v: &Value) -> Result<Value, Lack>
    requires fits { Fits (E.worker engine.old) v.now }
    requires column { value_cols v.now ≡ 1 }
    ensures operates { let w = E.worker engine.old in Operates E.least E.lean w (E.worker engine.new)
        (value_rows v.now) 1
        (next_of (value_of w v.now))
        (wide_room (value_rows v.now) (value_cols v.now) 1) result }
{
    let all = made_whole(engine, v)?;
    stays_whole(engine.next(all))
}

/// `{(r, i) : i is the element of v with r elements before it}`: lists the elements of a vector in order, one in each
/// row.
pub fn inj<E: Engine>(engine: &mut E, v: &Value) -> Result<Value, Lack>
    requires fits { Fits (E.worker engine.old) v.now }
    requires column { value_cols v.now ≡ 1 }
    ensures operates { let w = E.worker engine.old in Operates E.least E.lean w (E.worker engine.new)
        (count_below (value_rows v.now) (holds (value_of w v.now))) (value_rows v.now)
        (inj_of (value_of w v.now))
        (wide_room (value_rows v.now) (value_cols v.now) 1) result }
{
    let all = made_whole(engine, v)?;
    stays_whole(engine.inj(all))
}
