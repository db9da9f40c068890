//! Checking a step.
ghost use Rattle.std.specs.Prelude.{◌≡◌};
ghost use Rattle.lang_model.specs.Trees.{tree_of};
ghost use Rattle.lang_model.specs.Rewriting.{is_step, is_result, result_of_rule};
ghost use Rattle.rv_rewrite.specs.Steps.{step_of};

use crate::calm_parts::is_calm;
use crate::repeats::is_repeated_operands;
use crate::results::{
    is_double_complement, is_left_residual, is_many_turns, is_negated_operands, is_quotient,
    is_right_residual, is_turned_again, is_turned_operands, is_turned_product,
};
use crate::step::Step;
use lang_model::syntax::Expr;

/// Whether a node is what the rule with this number makes of another.
#[tactic(auto, unfolding(lang_model::specs::Rewriting::result_of_rule))]
fn is_result_of_rule(rule: u32, before: &Expr, after: &Expr) -> bool
    ensures { result ≡ is_result (tree_of after.now) (result_of_rule rule (tree_of before.now)) }
{
    match rule {
        1 => is_double_complement(before, after),
        2 => is_many_turns(before, after),
        3 => is_turned_again(before, after),
        4 => is_repeated_operands(before, after),
        5 => is_right_residual(before, after),
        6 => is_left_residual(before, after),
        7 => is_turned_product(before, after),
        8 => is_turned_operands(before, after),
        9 => is_negated_operands(before, after),
        10 => is_quotient(before, after),
        _ => false,
    }
}

/// Whether a step is valid: the node before it is calm, and the node after it is, up to places, what the rule with its
/// number makes of that node. Takes no heap memory.
pub fn check_step(step: &Step) -> bool
    ensures { result ≡ is_step (step_of step.now) }
{
    if !is_calm(&step.before) {
        return false;
    }
    is_result_of_rule(step.rule, &step.before, &step.after)
}
