//! The sizes of a value.
ghost use Rattle.std.specs.Prelude.{◌≡◌, ◌≤◌};
ghost use Rattle.rel_model.specs.Algebra.{HasType};
ghost use Rattle.rel_model.specs.Relation.{size_limit};
ghost use Rattle.rel_slices.specs.Thin.{value_of, value_rows, value_cols};
ghost use Rattle.rel_values.specs.Values.{Fits};

use rel_model::Shape;
use rel_model::engine_trait::Engine;
use rel_slices::{Value, shape_of};

/// The sizes of a value. They are the sizes of what it means, which is a relation, and within the limit.
pub fn shape_in<E: Engine>(engine: &E, v: &Value) -> Shape
    requires { Fits (E.worker engine.now) v.now }
    ensures rows { result.rows ≡ value_rows v.now }
    ensures cols { result.cols ≡ value_cols v.now }
    ensures typed { HasType result.rows result.cols (value_of (E.worker engine.now) v.now) }
    ensures row_size { (value_of (E.worker engine.now) v.now).rows ≡ result.rows }
    ensures col_size { (value_of (E.worker engine.now) v.now).cols ≡ result.cols }
    ensures row_limit { result.rows ≤ size_limit }
    ensures col_limit { result.cols ≤ size_limit }
{
    // This use makes the checker open the invariant of `engine`, which what follows needs.
    let _ = engine;
    shape_of(v)
}
