//! Takes steps at a calm node whose parts have none left, until it has none either.
ghost use Rattle.std.specs.Prelude.{◌≡◌, true, IfOk, None, Some, option_map};
ghost use Rattle.lang_model.specs.Trees.{tree_of};
ghost use Rattle.lang_model.specs.Rewriting.{is_calm, least_rule, repeated_operands};
ghost use Rattle.rv_rewrite.specs.Running.{makes_operand, StillInside, Follows, Steps, Settles, ComesNearer, Walks};

use crate::apart::take;
use crate::apply::applied;
use crate::copy::copied;
use crate::least::least_rule;
use crate::made::made;
use crate::make::{minus, turned};
use crate::step::Step;
use lang_model::syntax::Expr;
use rel_model::NoMemory;
use std::alloc::Global;

/// Whether a rule makes a prefix `-` or signs `^` with a new operand.
fn makes_operand(rule: u32) -> bool
    ensures { result ≡ makes_operand rule }
{
    match rule {
        7 => true,
        8 => true,
        9 => true,
        _ => false,
    }
}

/// What the applicable rule with the least number makes of a node.
#[tactic(auto, using(crate::proofs::Steady::made_by_least, crate::proofs::Steady::least_makes))]
fn applied_least(alloc: Global, rule: u32, node: Expr) -> Result<Expr, NoMemory>
    requires { Some rule ≡ option_map (λ x. x.0) (least_rule (tree_of node)) }
    ensures { IfOk result (λ e. least_rule (tree_of node) ≡ Some (rule, tree_of e)) }
{
    match applied(alloc, rule, node)? {
        Some(after) => Ok(after),
        None => unreachable!(),
    }
}

/// What the applicable rule with the least number makes of a node that stays in place.
#[tactic(auto, using(crate::proofs::Steady::made_by_least, crate::proofs::Steady::least_makes))]
fn made_least(alloc: Global, rule: u32, node: &Expr) -> Result<Expr, NoMemory>
    requires { Some rule ≡ option_map (λ x. x.0) (least_rule (tree_of node.now)) }
    ensures { IfOk result (λ e. least_rule (tree_of node.now) ≡ Some (rule, tree_of e)) }
{
    match made(alloc, rule, node)? {
        Some(after) => Ok(after),
        None => unreachable!(),
    }
}

/// What the applicable rule with the least number makes of a node. If steps are kept, the step is noted: the node
/// itself goes into the step, and what is made of it is copied once.
#[tactic(auto, using(crate::proofs::Settled::notes_none))]
fn take_step(
    alloc: Global,
    kept: bool,
    steps: &mut Vec<Step>,
    rule: u32,
    node: Expr,
) -> Result<Expr, NoMemory>
    requires { Some rule ≡ option_map (λ x. x.0) (least_rule (tree_of node)) }
    ensures { IfOk result (λ e. Steps kept steps.old.items steps.new.items rule (tree_of node) (tree_of e)) }
{
    if !kept {
        let after = applied_least(alloc, rule, node)?;
        return Ok(after);
    }
    let after = made_least(alloc, rule, &node)?;
    let last = copied(alloc, &after)?;
    steps.push(Step {
        rule,
        before: node,
        after,
    })?;
    Ok(last)
}

/// The calm tree of a calm node whose parts have no step left. Rule 4 is not tried if the operands are known to be
/// distinct, which they always are after a step.
#[cycle(settle)]
fn settle(
    alloc: Global,
    kept: bool,
    steps: &mut Vec<Step>,
    node: Expr,
    distinct: bool,
) -> Result<Expr, NoMemory>
    requires calm { is_calm (tree_of node) ≡ true }
    requires still { StillInside (tree_of node) }
    requires distinct { distinct ≡ true → repeated_operands (tree_of node) ≡ None }
    ensures { IfOk result (λ e. Settles kept steps.old.items steps.new.items (tree_of node) (tree_of e)) }
{
    match least_rule(&node, distinct) {
        Some(rule) => {
            let after = take_step(alloc, kept, steps, rule, node)?;
            let nearer = settle_operand(alloc, kept, steps, rule, after)?;
            let last = settle(alloc, kept, steps, nearer, true)?;
            Ok(last)
        }
        None => Ok(node),
    }
}

/// The node that a rule made; if its operand is new, it is replaced by its calm tree.
#[cycle(settle)]
fn settle_operand(
    alloc: Global,
    kept: bool,
    steps: &mut Vec<Step>,
    rule: u32,
    node: Expr,
) -> Result<Expr, NoMemory>
    requires { Follows rule (tree_of node) }
    ensures { IfOk result (λ e. ComesNearer kept steps.old.items steps.new.items (tree_of node) (tree_of e)) }
{
    if !makes_operand(rule) {
        return Ok(node);
    }
    let mut node = node;
    match &mut node {
        Expr::Minus { at, of } => {
            let at = *at;
            let operand = take(alloc, of);
            let operand = settle(alloc, kept, steps, operand, false)?;
            let nearer = minus(alloc, at, operand)?;
            Ok(nearer)
        }
        Expr::Turned { at, of, times } => {
            let at = *at;
            let times = *times;
            let operand = take(alloc, of);
            let operand = settle(alloc, kept, steps, operand, false)?;
            let nearer = turned(alloc, at, operand, times)?;
            Ok(nearer)
        }
        _ => Ok(node),
    }
}

/// The calm tree of a node whose parts have no step left, and whether it is calm. The caller says whether the node is;
/// if not, it stays as it is.
pub fn finish(
    alloc: Global,
    kept: bool,
    steps: &mut Vec<Step>,
    node: Expr,
    calm: bool,
) -> Result<(Expr, bool), NoMemory>
    requires calm { calm ≡ is_calm (tree_of node) }
    requires still { StillInside (tree_of node) }
    ensures { IfOk result (λ x. Walks kept steps.old.items steps.new.items (tree_of node) (tree_of x.0) x.1) }
{
    if !calm {
        return Ok((node, false));
    }
    let last = settle(alloc, kept, steps, node, false)?;
    Ok((last, true))
}
