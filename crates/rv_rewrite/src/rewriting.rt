//! Rewriting, with its steps or without.
ghost use Rattle.std.specs.Prelude.{◌≡◌, IfOk};
ghost use Rattle.lang_model.specs.Trees.{tree_of};
ghost use Rattle.lang_model.specs.Rewriting.{calmed, steps_of};
ghost use Rattle.rv_rewrite.specs.Steps.{steps_by_trees};

use crate::step::Rewritten;
use crate::walk::walk;
use lang_model::syntax::Expr;
use rel_model::NoMemory;
use std::alloc::Global;

/// The calm tree of an expression, and the steps that lead to it.
///
/// Each step is taken at the first node that is calm and to which a rule applies, in the order of operands before their
/// node and from left to right, by the applicable rule with the least number. The copies of the nodes before and after
/// each step can take memory quadratic in the length of the text. `Err` only if memory runs out, or if the signs `^` of
/// nested nodes add up to more than 32 bits can count.
pub fn rewrite(alloc: Global, expr: &Expr) -> Result<Rewritten, NoMemory>
    ensures calm { IfOk result (λ r. tree_of r.expr ≡ calmed (tree_of expr.now)) }
    ensures steps { IfOk result (λ r. steps_by_trees r.steps.items ≡ steps_of (tree_of expr.now)) }
{
    let mut steps = Vec::new(alloc);
    let (expr, _) = walk(alloc, true, &mut steps, expr)?;
    Ok(Rewritten { expr, steps })
}

/// The calm tree of an expression, without the steps.
pub fn calm(alloc: Global, expr: &Expr) -> Result<Expr, NoMemory>
    ensures { IfOk result (λ e. tree_of e ≡ calmed (tree_of expr.now)) }
{
    let mut steps = Vec::new(alloc);
    let (expr, _) = walk(alloc, false, &mut steps, expr)?;
    Ok(expr)
}
