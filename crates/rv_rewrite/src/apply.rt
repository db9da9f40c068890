//! What each rule makes of a node. The parts that a rule keeps are moved.
ghost use Rattle.std.specs.Prelude.{◌≡◌, ◌∷◌, [], IfOk, OnOk};
ghost use Rattle.lang_model.specs.Trees.{tree_of};
ghost use Rattle.lang_model.specs.Rewriting.{chain_of, without_repeats, double_complement, many_turns, turned_again, repeated_operands, to_right_residual, to_left_residual, turned_product, turned_operands, negated_operands, to_quotient, result_of_rule};
ghost use Rattle.rv_rewrite.specs.Items.{links_of};
ghost use Rattle.rv_rewrite.specs.Repeated.{kept_with};
ghost use Rattle.rv_rewrite.specs.Applied.{IsMade};

use crate::apart::{
    into_chain, into_lattice_sides, into_negated, into_operands_of, into_sides_of, into_turns,
};
use crate::make::{minus, quotient, turned, two};
use crate::repeats::{is_among, may_be_shortened};
use crate::results::dual;
use crate::same::same;
use crate::sides::Mark;
use crate::view::place_of_node;
use lang_model::syntax::{Expr, Link, Op2};
use rel_model::NoMemory;
use std::alloc::Global;

/// Rule 1: `--R` becomes `R`.
fn double_complement(alloc: Global, node: Expr) -> Result<Option<Expr>, NoMemory>
    ensures { IfOk result (IsMade (double_complement (tree_of node))) }
{
    match into_negated(alloc, node) {
        Some(of) => {
            let inner = into_negated(alloc, of);
            Ok(inner)
        }
        None => Ok(None),
    }
}

/// Rule 2: `R` turned more than once becomes `R` or `R^`.
#[tactic(auto, using(crate::proofs::Ruled::many_turns_of))]
fn many_turns(alloc: Global, node: Expr) -> Result<Option<Expr>, NoMemory>
    ensures { IfOk result (IsMade (many_turns (tree_of node))) }
{
    match into_turns(alloc, node) {
        Some(x) => {
            if x.times < 2 {
                return Ok(None);
            }
            if x.times % 2 == 0 {
                return Ok(Some(x.of));
            }
            let once = turned(alloc, x.at, x.of, 1)?;
            Ok(Some(once))
        }
        None => Ok(None),
    }
}

/// Rule 3: `R` turned and turned again becomes `R` with all the signs. Refused if these are more than 32 bits can
/// count.
#[tactic(auto, using(crate::proofs::Ruled::turned_again_of))]
fn turned_again(alloc: Global, node: Expr) -> Result<Option<Expr>, NoMemory>
    ensures { IfOk result (IsMade (turned_again (tree_of node))) }
{
    match into_turns(alloc, node) {
        Some(x) => match into_turns(alloc, x.of) {
            Some(y) => {
                let Some(times) = x.times.checked_add(y.times) else {
                    return Err(NoMemory);
                };
                let all = turned(alloc, x.at, y.of, times)?;
                Ok(Some(all))
            }
            None => Ok(None),
        },
        None => Ok(None),
    }
}

/// Keeps a link if its operand equals none before it.
fn keep(first: &Expr, kept: &mut Vec<Link>, link: Link) -> Result<(), NoMemory>
    ensures { OnOk result (kept.new.items ≡ kept_with (tree_of first.now) kept.old.items link) }
{
    if is_among(first, kept.as_slice(), &link.right) {
        return Ok(());
    }
    kept.push(link)?;
    Ok(())
}

/// The links of a chain, without those whose operand equals one before it.
fn kept_links(alloc: Global, first: &Expr, links: Vec<Link>) -> Result<Vec<Link>, NoMemory>
    ensures { IfOk result (λ v. links_of v.items
        ≡ without_repeats (tree_of first.now ∷ []) (links_of links.items)) }
{
    let mut kept = Vec::with_capacity(alloc, links.len())?;
    'each: for link in links {
        keep(first, &mut kept, link)?;
    }
    Ok(kept)
}

/// The chain of an operand and the links that are kept, or the operand alone if there are none.
pub fn shortened(alloc: Global, first: Expr, kept: Vec<Link>) -> Result<Expr, NoMemory>
    ensures { IfOk result (λ e. tree_of e ≡ chain_of (tree_of first) (links_of kept.items)) }
{
    if kept.as_slice().is_empty() {
        return Ok(first);
    }
    let first = Box::new(alloc, first)?;
    Ok(Expr::Chain { first, rest: kept })
}

/// Rule 4: a chain of `|` or of `&` loses its repeated operands.
#[tactic(auto, using(crate::proofs::Earlier::repeated_of))]
fn repeated_operands(alloc: Global, node: Expr) -> Result<Option<Expr>, NoMemory>
    ensures { IfOk result (IsMade (repeated_operands (tree_of node))) }
{
    match into_chain(alloc, node) {
        Some((first, links)) => {
            if !may_be_shortened(&first, links.as_slice()) {
                return Ok(None);
            }
            let kept = kept_links(alloc, &first, links)?;
            let chain = shortened(alloc, first, kept)?;
            Ok(Some(chain))
        }
        None => Ok(None),
    }
}

/// Rule 5: `-(R^*-S)` becomes `R\S`.
#[tactic(auto, using(crate::proofs::Ruled::right_residual_sides))]
fn to_right_residual(alloc: Global, node: Expr) -> Result<Option<Expr>, NoMemory>
    ensures { IfOk result (IsMade (to_right_residual (tree_of node))) }
{
    let at = place_of_node(&node);
    match into_negated(alloc, node) {
        Some(of) => match into_sides_of(alloc, Op2::Times, Mark::Turned, Mark::Negated, of) {
            Some((r, s)) => {
                let residual = two(alloc, at, r, Op2::Under, s)?;
                Ok(Some(residual))
            }
            None => Ok(None),
        },
        None => Ok(None),
    }
}

/// Rule 6: `-(-S*R^)` becomes `S/R`.
#[tactic(auto, using(crate::proofs::Ruled::left_residual_sides))]
fn to_left_residual(alloc: Global, node: Expr) -> Result<Option<Expr>, NoMemory>
    ensures { IfOk result (IsMade (to_left_residual (tree_of node))) }
{
    let at = place_of_node(&node);
    match into_negated(alloc, node) {
        Some(of) => match into_sides_of(alloc, Op2::Times, Mark::Negated, Mark::Turned, of) {
            Some((s, r)) => {
                let residual = two(alloc, at, s, Op2::Over, r)?;
                Ok(Some(residual))
            }
            None => Ok(None),
        },
        None => Ok(None),
    }
}

/// Rule 7: `R^*S^` becomes `(S*R)^`.
#[tactic(auto, using(crate::proofs::Ruled::turned_product_sides))]
fn turned_product(alloc: Global, node: Expr) -> Result<Option<Expr>, NoMemory>
    ensures { IfOk result (IsMade (turned_product (tree_of node))) }
{
    let at = place_of_node(&node);
    match into_sides_of(alloc, Op2::Times, Mark::Turned, Mark::Turned, node) {
        Some((r, s)) => {
            let product = two(alloc, at, s, Op2::Times, r)?;
            let once = turned(alloc, at, product, 1)?;
            Ok(Some(once))
        }
        None => Ok(None),
    }
}

/// Rule 8: `R^|S^` becomes `(R|S)^`, and the same for `&`.
#[tactic(auto, using(crate::proofs::Ruled::turned_operands_sides))]
fn turned_operands(alloc: Global, node: Expr) -> Result<Option<Expr>, NoMemory>
    ensures { IfOk result (IsMade (turned_operands (tree_of node))) }
{
    let at = place_of_node(&node);
    match into_lattice_sides(alloc, Mark::Turned, node) {
        Some(x) => {
            let both = two(alloc, at, x.left, x.op, x.right)?;
            let once = turned(alloc, at, both, 1)?;
            Ok(Some(once))
        }
        None => Ok(None),
    }
}

/// Rule 9: `-R&-S` becomes `-(R|S)`, and `-R|-S` becomes `-(R&S)`.
#[tactic(auto, using(crate::proofs::Ruled::negated_operands_sides))]
fn negated_operands(alloc: Global, node: Expr) -> Result<Option<Expr>, NoMemory>
    ensures { IfOk result (IsMade (negated_operands (tree_of node))) }
{
    let at = place_of_node(&node);
    match into_lattice_sides(alloc, Mark::Negated, node) {
        Some(x) => {
            let both = two(alloc, at, x.left, dual(x.op), x.right)?;
            let complement = minus(alloc, at, both)?;
            Ok(Some(complement))
        }
        None => Ok(None),
    }
}

/// Rule 10: `(R\S)&R^/S^` becomes `syq(R,S)`.
#[tactic(auto, using(crate::proofs::Ruled::quotient_sides))]
fn to_quotient(alloc: Global, node: Expr) -> Result<Option<Expr>, NoMemory>
    ensures { IfOk result (IsMade (to_quotient (tree_of node))) }
{
    let at = place_of_node(&node);
    let Some((left, right)) = into_operands_of(alloc, Op2::And, node) else {
        return Ok(None);
    };
    let Some((r, s)) = into_operands_of(alloc, Op2::Under, left) else {
        return Ok(None);
    };
    let turned = Mark::Turned;
    let Some((again, other)) = into_sides_of(alloc, Op2::Over, turned, turned, right) else {
        return Ok(None);
    };
    if !same(&r, &again) {
        return Ok(None);
    }
    if !same(&s, &other) {
        return Ok(None);
    }
    let syq = quotient(alloc, at, r, s)?;
    Ok(Some(syq))
}

/// What the rule with this number makes of a node. `None`: it does not apply.
#[tactic(auto, unfolding(lang_model::specs::Rewriting::result_of_rule))]
pub fn applied(alloc: Global, rule: u32, node: Expr) -> Result<Option<Expr>, NoMemory>
    ensures { IfOk result (IsMade (result_of_rule rule (tree_of node))) }
{
    match rule {
        1 => double_complement(alloc, node),
        2 => many_turns(alloc, node),
        3 => turned_again(alloc, node),
        4 => repeated_operands(alloc, node),
        5 => to_right_residual(alloc, node),
        6 => to_left_residual(alloc, node),
        7 => turned_product(alloc, node),
        8 => turned_operands(alloc, node),
        9 => negated_operands(alloc, node),
        10 => to_quotient(alloc, node),
        _ => Ok(None),
    }
}
