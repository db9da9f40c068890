//! The steps of rewriting an expression, without evaluating it.
ghost use Rattle.std.specs.Prelude.{◌≡◌, IsErrOf};
ghost use Rattle.rel_model.specs.Worker.{Worker};
ghost use Rattle.lang_model.specs.declared.faults.TypeFault.TheVariants.{NoMemory as FAULT_NO_MEMORY};
ghost use Rattle.lang_model.specs.Trees.{tree_of};
ghost use Rattle.lang_model.specs.Rewriting.{steps_of};
ghost use Rattle.lang_model.specs.Eval.{early_fault};
ghost use Rattle.rv_eval.specs.declared.halt.Refused.TheVariants.{Ill as ILL_REFUSED};
ghost use Rattle.rv_eval.specs.Names.{HasSizes, AllStand, state_of};
ghost use Rattle.rv_eval.specs.Refusing.{IsExplained};

use crate::early::refused_ahead;
use crate::halt::Refused;
use lang_model::syntax::{Expr, Name};
use rel_model::{NoMemory, Rel};
use rv_rewrite::{Rewritten, Step, rewrite};
use rv_types::Checked;
use std::alloc::Global;

/// The steps by which a command's expression is rewritten, in order. If it is refused before anything is computed, why:
/// for the leftmost name that is not among these names, or else for its first static fault.
pub fn explain(
    alloc: Global,
    checked: &Checked,
    env: &[(Name, Rel)],
    expr: &Expr,
) -> Result<Vec<Step>, Refused>
    ensures answer { (w : Worker) → HasSizes w → AllStand w env.now →
        IsExplained (early_fault checked.now (state_of w env.now) expr.now) (steps_of (tree_of expr.now)) result }
    ensures memory { IsErrOf result (ILL_REFUSED FAULT_NO_MEMORY) → ⊥ }
{
    match refused_ahead(alloc, checked, env, expr) {
        Some(refused) => Err(refused),
        None => match rewrite(alloc, expr) {
            Ok(Rewritten { expr: _, steps }) => Ok(steps),
            Err(NoMemory) => Err(Refused::NoMemory),
        },
    }
}
