//! The rule with the least number that applies to a node.
ghost use Rattle.std.specs.Prelude.{◌≡◌, ◌∷◌, [], true, MatchOption, None, Some, option_map};
ghost use Rattle.lang_model.specs.Trees.{tree_of};
ghost use Rattle.lang_model.specs.Rewriting.{chain_of, without_repeats, repeated_operands, least_rule};
ghost use Rattle.rv_rewrite.specs.Items.{links_of};

use crate::rules;
use lang_model::syntax::{Expr, Link};

/// The parts that rule 4 keeps. `None` if it does not apply; it is not tried if the operands are known to be distinct.
fn repeated_operands(node: &Expr, distinct: bool) -> Option<(&Expr, &[Link])>
    requires { distinct ≡ true → repeated_operands (tree_of node.now) ≡ None }
    ensures { let t = tree_of node.now in MatchOption result (repeated_operands t ≡ None)
        (λ x. let f = tree_of x.0.now in repeated_operands t
        ≡ Some (chain_of f (without_repeats (f ∷ []) (links_of x.1.now)))) }
{
    if distinct {
        return None;
    }
    rules::repeated_operands(node)
}

/// The least number of a rule that applies to a node. Rule 4 is not tried if the operands are known to be distinct.
pub fn least_rule(node: &Expr, distinct: bool) -> Option<u32>
    requires { distinct ≡ true → repeated_operands (tree_of node.now) ≡ None }
    ensures { result ≡ option_map (λ x. x.0) (least_rule (tree_of node.now)) }
{
    if rules::double_complement(node).is_some() {
        return Some(1);
    }
    if rules::many_turns(node).is_some() {
        return Some(2);
    }
    if rules::turned_again(node).is_some() {
        return Some(3);
    }
    if repeated_operands(node, distinct).is_some() {
        return Some(4);
    }
    if rules::to_right_residual(node).is_some() {
        return Some(5);
    }
    if rules::to_left_residual(node).is_some() {
        return Some(6);
    }
    if rules::turned_product(node).is_some() {
        return Some(7);
    }
    if rules::turned_operands(node).is_some() {
        return Some(8);
    }
    if rules::negated_operands(node).is_some() {
        return Some(9);
    }
    if rules::to_quotient(node).is_some() {
        return Some(10);
    }
    None
}
