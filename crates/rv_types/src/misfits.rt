//! Faults of types, with their names.
ghost use Rattle.std.specs.Prelude.{◌≡◌, ◌≤◌, length};
ghost use Rattle.lang_model.specs.Limits.{name_limit};
ghost use Rattle.lang_model.specs.declared.faults.TypeFault.TheVariants.{Mismatch, NotSquare, NotVector};
ghost use Rattle.lang_model.specs.BaseNames.{base_text};
ghost use Rattle.rv_types.specs.Found.{fault_as, spelled};
ghost use Rattle.rv_types.specs.Shaping.{Tells};

use crate::found::{Cause, Found, Spelled, fault_of};
use lang_model::faults::{StaticShape, TypeFault};
use lang_model::syntax::{Base, Name, Place};
use rel_model::NoMemory;
use std::alloc::Global;

/// A fault of a name, with the name copied.
pub fn misnamed(alloc: Global, at: Place, cause: Cause, name: Spelled) -> TypeFault
    ensures { Tells (fault_as cause at (spelled name.entry)) result }
{
    match fault_of(alloc, Found { at, cause, name }) {
        Ok(fault) => fault,
        Err(NoMemory) => TypeFault::NoMemory,
    }
}

/// Operands that do not fit an operator.
pub fn mismatch(
    alloc: Global,
    at: Place,
    text: &[u8],
    left: StaticShape,
    right: StaticShape,
) -> TypeFault
    requires some { 1 ≤ length text.now }
    requires short { length text.now ≤ name_limit }
    ensures { Tells (Mismatch at text.now left right) result }
{
    match Name::new(alloc, text) {
        Ok(op) => TypeFault::Mismatch {
            at,
            op,
            left,
            right,
        },
        Err(NoMemory) => TypeFault::NoMemory,
    }
}

/// An operand that is not square.
pub fn not_square(alloc: Global, at: Place, base: Base, shape: StaticShape) -> TypeFault
    ensures { Tells (NotSquare at (base_text base) shape) result }
{
    match Name::new(alloc, base.text()) {
        Ok(op) => TypeFault::NotSquare { at, op, shape },
        Err(NoMemory) => TypeFault::NoMemory,
    }
}

/// An operand whose number of columns is not one.
pub fn not_vector(alloc: Global, at: Place, base: Base, shape: StaticShape) -> TypeFault
    ensures { Tells (NotVector at (base_text base) shape) result }
{
    match Name::new(alloc, base.text()) {
        Ok(op) => TypeFault::NotVector { at, op, shape },
        Err(NoMemory) => TypeFault::NoMemory,
    }
}
