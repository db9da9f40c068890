//! Whether a node is what a rule makes of another, decided without making it.
ghost use Rattle.std.specs.Prelude.{◌≡◌};
ghost use Rattle.lang_model.specs.Trees.{TurnedTree, BaseTree, MoreTrees, NoTree, nowhere, tree_of};
ghost use Rattle.rv_rewrite.specs.Items.{args_of};
ghost use Rattle.lang_model.specs.declared.syntax.Base.TheVariants.{Syq as SYQ};
ghost use Rattle.lang_model.specs.Rewriting.{dual, is_result, same_tree, same_trees, two, double_complement, many_turns, turned_again, to_right_residual, to_left_residual, turned_product, turned_operands, negated_operands, to_quotient};

use crate::rules::{
    double_complement, negated_operands, to_left_residual, to_quotient, to_right_residual,
    turned_operands, turned_product,
};
use crate::same::{same, same_base, same_operator};
use crate::view::{negated, turned, turned_once, two_operands};
use lang_model::syntax::{Base, Expr, Op2};

/// The other one of `|` and `&`.
pub fn dual(op: Op2) -> Op2
    ensures { result ≡ dual op }
{
    match op {
        Op2::Or => Op2::And,
        Op2::And => Op2::Or,
        Op2::Times => Op2::Times,
        Op2::Under => Op2::Under,
        Op2::Over => Op2::Over,
    }
}

/// Whether a node is the chain of these two operands with this operator.
#[tactic(auto, using(crate::proofs::Alike::same_two))]
fn is_two(left: &Expr, op: Op2, right: &Expr, node: &Expr) -> bool
    ensures { result ≡ same_tree (two nowhere (tree_of left.now) op (tree_of right.now)) (tree_of node.now) }
{
    match two_operands(node) {
        Some(two) => {
            if !same(left, two.left) {
                return false;
            }
            if !same_operator(op, two.op) {
                return false;
            }
            same(right, two.right)
        }
        None => false,
    }
}

/// Whether a node is this one with `times` signs `^`.
#[tactic(auto, using(crate::proofs::Alike::same_turns))]
fn is_turned(of: &Expr, times: u64, node: &Expr) -> bool
    ensures { result ≡ same_tree (TurnedTree nowhere (tree_of of.now) times) (tree_of node.now) }
{
    match turned(node) {
        Some(other) => {
            if times != u64::from(other.times) {
                return false;
            }
            same(of, other.of)
        }
        None => false,
    }
}

/// Whether a node is what rule 1 makes of another: `--R` becomes `R`.
pub fn is_double_complement(before: &Expr, after: &Expr) -> bool
    ensures { result ≡ is_result (tree_of after.now) (double_complement (tree_of before.now)) }
{
    match double_complement(before) {
        Some(of) => same(of, after),
        None => false,
    }
}

/// Whether a node is what rule 2 makes of another: `R` turned more than once becomes `R` or `R^`.
#[tactic(auto, using(crate::proofs::Ruled::many_turns_of))]
pub fn is_many_turns(before: &Expr, after: &Expr) -> bool
    ensures { result ≡ is_result (tree_of after.now) (many_turns (tree_of before.now)) }
{
    match turned(before) {
        Some(x) => {
            if x.times < 2 {
                return false;
            }
            if x.times % 2 == 0 {
                return same(x.of, after);
            }
            is_turned(x.of, 1, after)
        }
        None => false,
    }
}

/// Whether a node is what rule 3 makes of another: `R` turned and turned again becomes `R` with all the signs.
#[tactic(auto, using(crate::proofs::Ruled::turned_again_of))]
pub fn is_turned_again(before: &Expr, after: &Expr) -> bool
    ensures { result ≡ is_result (tree_of after.now) (turned_again (tree_of before.now)) }
{
    match turned(before) {
        Some(x) => match turned(x.of) {
            Some(y) => is_turned(y.of, u64::from(x.times) + u64::from(y.times), after),
            None => false,
        },
        None => false,
    }
}

/// Whether a node is what rule 5 makes of another: `-(R^*-S)` becomes `R\S`.
pub fn is_right_residual(before: &Expr, after: &Expr) -> bool
    ensures { result ≡ is_result (tree_of after.now) (to_right_residual (tree_of before.now)) }
{
    match to_right_residual(before) {
        Some((r, s)) => is_two(r, Op2::Under, s, after),
        None => false,
    }
}

/// Whether a node is what rule 6 makes of another: `-(-S*R^)` becomes `S/R`.
pub fn is_left_residual(before: &Expr, after: &Expr) -> bool
    ensures { result ≡ is_result (tree_of after.now) (to_left_residual (tree_of before.now)) }
{
    match to_left_residual(before) {
        Some((s, r)) => is_two(s, Op2::Over, r, after),
        None => false,
    }
}

/// Whether a node is the chain of these two operands with this operator, turned once.
#[tactic(auto, using(crate::proofs::Alike::same_turns_of_two))]
fn is_two_turned(left: &Expr, op: Op2, right: &Expr, node: &Expr) -> bool
    ensures { result
        ≡ same_tree (TurnedTree nowhere (two nowhere (tree_of left.now) op (tree_of right.now)) 1) (tree_of node.now) }
{
    match turned_once(node) {
        Some(of) => is_two(left, op, right, of),
        None => false,
    }
}

/// Whether a node is what rule 7 makes of another: `R^*S^` becomes `(S*R)^`.
pub fn is_turned_product(before: &Expr, after: &Expr) -> bool
    ensures { result ≡ is_result (tree_of after.now) (turned_product (tree_of before.now)) }
{
    match turned_product(before) {
        Some((r, s)) => is_two_turned(s, Op2::Times, r, after),
        None => false,
    }
}

/// Whether a node is what rule 8 makes of another: `R^|S^` becomes `(R|S)^`, and the same for `&`.
pub fn is_turned_operands(before: &Expr, after: &Expr) -> bool
    ensures { result ≡ is_result (tree_of after.now) (turned_operands (tree_of before.now)) }
{
    match turned_operands(before) {
        Some(two) => is_two_turned(two.left, two.op, two.right, after),
        None => false,
    }
}

/// Whether a node is what rule 9 makes of another: `-R&-S` becomes `-(R|S)`, and `-R|-S` becomes `-(R&S)`.
#[tactic(auto, using(crate::proofs::Alike::same_minus))]
pub fn is_negated_operands(before: &Expr, after: &Expr) -> bool
    ensures { result ≡ is_result (tree_of after.now) (negated_operands (tree_of before.now)) }
{
    match negated_operands(before) {
        Some(two) => match negated(after) {
            Some(of) => is_two(two.left, dual(two.op), two.right, of),
            None => false,
        },
        None => false,
    }
}

/// Whether the arguments are these two.
fn are_two(first: &Expr, second: &Expr, args: &[Expr]) -> bool
    ensures { result ≡ same_trees (MoreTrees (tree_of first.now) (MoreTrees (tree_of second.now) NoTree))
        (args_of args.now) }
{
    let [other, more @ ..] = args else {
        return false;
    };
    if !same(first, other) {
        return false;
    }
    let [another, rest @ ..] = more else {
        return false;
    };
    if !same(second, another) {
        return false;
    }
    rest.is_empty()
}

/// Whether a node is the symmetric quotient of these two.
#[tactic(auto, using(crate::proofs::Items::tree_base))]
fn is_quotient_of(first: &Expr, second: &Expr, node: &Expr) -> bool
    ensures { result ≡ same_tree (BaseTree nowhere SYQ
        (MoreTrees (tree_of first.now) (MoreTrees (tree_of second.now) NoTree))) (tree_of node.now) }
{
    match node {
        Expr::Base { base, args, .. } => {
            if !same_base(Base::Syq, *base) {
                return false;
            }
            are_two(first, second, args.as_slice())
        }
        _ => false,
    }
}

/// Whether a node is what rule 10 makes of another: `(R\S)&R^/S^` becomes `syq(R,S)`.
pub fn is_quotient(before: &Expr, after: &Expr) -> bool
    ensures { result ≡ is_result (tree_of after.now) (to_quotient (tree_of before.now)) }
{
    match to_quotient(before) {
        Some((r, s)) => is_quotient_of(r, s, after),
        None => false,
    }
}
