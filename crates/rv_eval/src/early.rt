//! The faults for which an expression is refused before anything is computed.
ghost use Rattle.std.specs.Prelude.{◌≡◌, ◌⊎◌, map, None, IfOk, IfSome, MatchOption};
ghost use Rattle.rel_model.specs.Worker.{Worker};
ghost use Rattle.lang_model.specs.declared.faults.StaticShape.{StaticShape};
ghost use Rattle.lang_model.specs.declared.faults.TypeFault.TheVariants.{NoMemory as FAULT_NO_MEMORY};
ghost use Rattle.lang_model.specs.Types.{Fits, Misfit};
ghost use Rattle.lang_model.specs.Shape.{static_type};
ghost use Rattle.lang_model.specs.Eval.{early_fault};
ghost use Rattle.rv_types.specs.Shaping.{types_of};
ghost use Rattle.rv_eval.specs.declared.halt.Refused.TheVariants.{Ill as ILL_REFUSED};
ghost use Rattle.rv_eval.specs.Names.{HasSizes, AllStand, state_of, typed_pair_of};
ghost use Rattle.rv_eval.specs.Refusing.{IsRefusedAhead};

use crate::faults::{type_of, unknown};
use crate::halt::Refused;
use crate::missing::first_missing;
use crate::refusal::{ill, refusal};
use lang_model::faults::{StaticShape, TypeFault};
use lang_model::syntax::{Expr, Name};
use rel_model::{NoMemory, Rel, Shape};
use rv_types::{Checked, shape_of};
use std::alloc::Global;

/// The names with the types of their relations.
fn types_of_names(alloc: Global, env: &[(Name, Rel)]) -> Result<Vec<(Name, StaticShape)>, NoMemory>
    ensures { IfOk result (λ v. v.items ≡ map typed_pair_of env.now) }
{
    let mut types = Vec::new(alloc);
    'each: for pair in env {
        let own = pair.0.copied(alloc)?;
        let shape = type_of(Shape {
            rows: pair.1.rows,
            cols: pair.1.cols,
        });
        types.push((own, shape))?;
    }
    Ok(types)
}

/// The first static fault of a command's expression over these names, or that memory ran out.
fn static_fault(
    alloc: Global,
    checked: &Checked,
    env: &[(Name, Rel)],
    expr: &Expr,
) -> Option<TypeFault>
    ensures { let t = static_type checked.now (types_of (map typed_pair_of env.now)) expr.now in
        MatchOption result ((s : StaticShape) × (t ≡ Fits s)) (λ f. (f ≡ FAULT_NO_MEMORY) ⊎ (t ≡ Misfit f)) }
{
    let names = match types_of_names(alloc, env) {
        Ok(names) => names,
        Err(NoMemory) => return Some(TypeFault::NoMemory),
    };
    match shape_of(alloc, checked, expr, names.as_slice()) {
        Ok(_) => None,
        Err(fault) => Some(fault),
    }
}

/// Why a command's expression over these names is refused before anything is computed: for the leftmost name that is
/// not among them, or else for its first static fault. `None`: it is not.
pub fn refused_ahead(
    alloc: Global,
    checked: &Checked,
    env: &[(Name, Rel)],
    expr: &Expr,
) -> Option<Refused>
    ensures early { (w : Worker) → HasSizes w → AllStand w env.now →
        (let early = early_fault checked.now (state_of w env.now) expr.now in
        MatchOption result (early ≡ None) (IsRefusedAhead early)) }
    ensures memory { IfSome result (λ r. r ≡ ILL_REFUSED FAULT_NO_MEMORY → ⊥) }
{
    match first_missing(env, expr) {
        Some((at, name)) => Some(refusal(0, unknown(alloc, at, name))),
        None => match static_fault(alloc, checked, env, expr) {
            Some(fault) => Some(ill(fault)),
            None => None,
        },
    }
}
