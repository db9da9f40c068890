//! What each rule makes of a node that stays in place: the parts that a rule keeps are copied.
ghost use Rattle.std.specs.Prelude.{◌≡◌, ◌∷◌, [], IfOk, OnOk};
ghost use Rattle.lang_model.specs.Trees.{tree_of};
ghost use Rattle.lang_model.specs.Rewriting.{two, without_repeats, double_complement, many_turns, turned_again, repeated_operands, to_right_residual, to_left_residual, turned_product, turned_operands, negated_operands, to_quotient, result_of_rule};
ghost use Rattle.rv_rewrite.specs.Items.{links_of};
ghost use Rattle.rv_rewrite.specs.Repeated.{KeepsAlike};
ghost use Rattle.rv_rewrite.specs.Applied.{IsMade};

use crate::apply::shortened;
use crate::copy::copied;
use crate::make::{minus, quotient, turned, two};
use crate::repeats::is_among;
use crate::results::dual;
use crate::rules;
use crate::view::place_of_node;
use lang_model::syntax::{Expr, Link, Op2, Place};
use rel_model::NoMemory;
use std::alloc::Global;

/// The chain of copies of two operands.
fn two_copied(
    alloc: Global,
    at: Place,
    left: &Expr,
    op: Op2,
    right: &Expr,
) -> Result<Expr, NoMemory>
    ensures { IfOk result (λ e. tree_of e ≡ two at (tree_of left.now) op (tree_of right.now)) }
{
    let left = copied(alloc, left)?;
    let right = copied(alloc, right)?;
    let chain = two(alloc, at, left, op, right)?;
    Ok(chain)
}

/// Rule 1: `--R` becomes `R`.
fn double_complement(alloc: Global, node: &Expr) -> Result<Option<Expr>, NoMemory>
    ensures { IfOk result (IsMade (double_complement (tree_of node.now))) }
{
    match rules::double_complement(node) {
        Some(of) => {
            let inner = copied(alloc, of)?;
            Ok(Some(inner))
        }
        None => Ok(None),
    }
}

/// Rule 2: `R` turned more than once becomes `R` or `R^`.
fn many_turns(alloc: Global, node: &Expr) -> Result<Option<Expr>, NoMemory>
    ensures { IfOk result (IsMade (many_turns (tree_of node.now))) }
{
    match rules::many_turns(node) {
        Some(x) => {
            let of = copied(alloc, x.of)?;
            if x.times % 2 == 0 {
                return Ok(Some(of));
            }
            let once = turned(alloc, x.at, of, 1)?;
            Ok(Some(once))
        }
        None => Ok(None),
    }
}

/// Rule 3: `R` turned and turned again becomes `R` with all the signs. Refused if these are more than 32 bits can
/// count.
fn turned_again(alloc: Global, node: &Expr) -> Result<Option<Expr>, NoMemory>
    ensures { IfOk result (IsMade (turned_again (tree_of node.now))) }
{
    match rules::turned_again(node) {
        Some((x, y)) => {
            let Some(times) = x.times.checked_add(y.times) else {
                return Err(NoMemory);
            };
            let of = copied(alloc, y.of)?;
            let all = turned(alloc, x.at, of, times)?;
            Ok(Some(all))
        }
        None => Ok(None),
    }
}

/// Keeps a copy of a link if its operand equals none before it.
fn keep(alloc: Global, first: &Expr, kept: &mut Vec<Link>, link: &Link) -> Result<(), NoMemory>
    ensures { OnOk result (KeepsAlike (tree_of first.now) kept.old.items link.now kept.new.items) }
{
    if is_among(first, kept.as_slice(), &link.right) {
        return Ok(());
    }
    let right = copied(alloc, &link.right)?;
    kept.push(Link {
        at: link.at,
        op: link.op,
        right,
    })?;
    Ok(())
}

/// Copies of the links of a chain, without those whose operand equals one before it.
fn kept_links(alloc: Global, first: &Expr, links: &[Link]) -> Result<Vec<Link>, NoMemory>
    ensures { IfOk result (λ v. links_of v.items
        ≡ without_repeats (tree_of first.now ∷ []) (links_of links.now)) }
{
    let mut kept = Vec::with_capacity(alloc, links.len())?;
    'each: for link in links {
        keep(alloc, first, &mut kept, link)?;
    }
    Ok(kept)
}

/// Rule 4: a chain of `|` or of `&` loses its repeated operands.
fn repeated_operands(alloc: Global, node: &Expr) -> Result<Option<Expr>, NoMemory>
    ensures { IfOk result (IsMade (repeated_operands (tree_of node.now))) }
{
    match rules::repeated_operands(node) {
        Some((first, links)) => {
            let kept = kept_links(alloc, first, links)?;
            let first = copied(alloc, first)?;
            let chain = shortened(alloc, first, kept)?;
            Ok(Some(chain))
        }
        None => Ok(None),
    }
}

/// Rule 5: `-(R^*-S)` becomes `R\S`.
fn to_right_residual(alloc: Global, node: &Expr) -> Result<Option<Expr>, NoMemory>
    ensures { IfOk result (IsMade (to_right_residual (tree_of node.now))) }
{
    match rules::to_right_residual(node) {
        Some((r, s)) => {
            let residual = two_copied(alloc, place_of_node(node), r, Op2::Under, s)?;
            Ok(Some(residual))
        }
        None => Ok(None),
    }
}

/// Rule 6: `-(-S*R^)` becomes `S/R`.
fn to_left_residual(alloc: Global, node: &Expr) -> Result<Option<Expr>, NoMemory>
    ensures { IfOk result (IsMade (to_left_residual (tree_of node.now))) }
{
    match rules::to_left_residual(node) {
        Some((s, r)) => {
            let residual = two_copied(alloc, place_of_node(node), s, Op2::Over, r)?;
            Ok(Some(residual))
        }
        None => Ok(None),
    }
}

/// Rule 7: `R^*S^` becomes `(S*R)^`.
fn turned_product(alloc: Global, node: &Expr) -> Result<Option<Expr>, NoMemory>
    ensures { IfOk result (IsMade (turned_product (tree_of node.now))) }
{
    match rules::turned_product(node) {
        Some((r, s)) => {
            let at = place_of_node(node);
            let product = two_copied(alloc, at, s, Op2::Times, r)?;
            let once = turned(alloc, at, product, 1)?;
            Ok(Some(once))
        }
        None => Ok(None),
    }
}

/// Rule 8: `R^|S^` becomes `(R|S)^`, and the same for `&`.
fn turned_operands(alloc: Global, node: &Expr) -> Result<Option<Expr>, NoMemory>
    ensures { IfOk result (IsMade (turned_operands (tree_of node.now))) }
{
    match rules::turned_operands(node) {
        Some(x) => {
            let at = place_of_node(node);
            let both = two_copied(alloc, at, x.left, x.op, x.right)?;
            let once = turned(alloc, at, both, 1)?;
            Ok(Some(once))
        }
        None => Ok(None),
    }
}

/// Rule 9: `-R&-S` becomes `-(R|S)`, and `-R|-S` becomes `-(R&S)`.
fn negated_operands(alloc: Global, node: &Expr) -> Result<Option<Expr>, NoMemory>
    ensures { IfOk result (IsMade (negated_operands (tree_of node.now))) }
{
    match rules::negated_operands(node) {
        Some(x) => {
            let at = place_of_node(node);
            let both = two_copied(alloc, at, x.left, dual(x.op), x.right)?;
            let complement = minus(alloc, at, both)?;
            Ok(Some(complement))
        }
        None => Ok(None),
    }
}

/// Rule 10: `(R\S)&R^/S^` becomes `syq(R,S)`.
fn to_quotient(alloc: Global, node: &Expr) -> Result<Option<Expr>, NoMemory>
    ensures { IfOk result (IsMade (to_quotient (tree_of node.now))) }
{
    match rules::to_quotient(node) {
        Some((r, s)) => {
            let r = copied(alloc, r)?;
            let s = copied(alloc, s)?;
            let syq = quotient(alloc, place_of_node(node), r, s)?;
            Ok(Some(syq))
        }
        None => Ok(None),
    }
}

/// What the rule with this number makes of a node. `None`: it does not apply.
#[tactic(auto, unfolding(lang_model::specs::Rewriting::result_of_rule))]
pub fn made(alloc: Global, rule: u32, node: &Expr) -> Result<Option<Expr>, NoMemory>
    ensures { IfOk result (IsMade (result_of_rule rule (tree_of node.now))) }
{
    match rule {
        1 => double_complement(alloc, node),
        2 => many_turns(alloc, node),
        3 => turned_again(alloc, node),
        4 => repeated_operands(alloc, node),
        5 => to_right_residual(alloc, node),
        6 => to_left_residual(alloc, node),
        7 => turned_product(alloc, node),
        8 => turned_operands(alloc, node),
        9 => negated_operands(alloc, node),
        10 => to_quotient(alloc, node),
        _ => Ok(None),
    }
}
