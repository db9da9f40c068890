//! The static types of expressions.
ghost use Rattle.std.specs.Prelude.{◌≡◌, ◌⊎◌, IfOk, IfErr};
ghost use Rattle.lang_model.specs.declared.faults.TypeFault.TheVariants.{NoMemory as NO_MEMORY};
ghost use Rattle.lang_model.specs.Types.{Fits, Misfit};
ghost use Rattle.lang_model.specs.Shape.{static_type};
ghost use Rattle.rv_types.specs.Shaping.{types_of};

use crate::checked::Checked;
use crate::typing::{Around, type_of_expr};
use lang_model::faults::{StaticShape, TypeFault};
use lang_model::limits::RANK_LIMIT;
use lang_model::syntax::{Expr, Name};
use std::alloc::Global;

/// The static type of an expression of a command, given the types of names; or its first misfit in the order of
/// evaluation, where each statement is visited once, in the order of the text.
pub fn shape_of(
    alloc: Global,
    checked: &Checked,
    expr: &Expr,
    names: &[(Name, StaticShape)],
) -> Result<StaticShape, TypeFault>
    ensures fits { let typed = static_type checked.now (types_of names.now) expr.now in
        IfOk result (λ s. typed ≡ Fits s) }
    ensures misfit { let typed = static_type checked.now (types_of names.now) expr.now in
        IfErr result (λ f. (f ≡ NO_MEMORY) ⊎ (typed ≡ Misfit f)) }
{
    let around = Around {
        checked,
        rank: RANK_LIMIT,
        decls: &[],
    };
    match type_of_expr(alloc, &around, names, expr) {
        Ok(shape) => Ok(shape),
        Err(fault) => Err(fault),
    }
}
