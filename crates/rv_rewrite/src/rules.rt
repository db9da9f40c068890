//! The parts of a node that each rule keeps, if the rule applies.
ghost use Rattle.std.specs.Prelude.{◌≡◌, ◌==◌, ◌+◌, ◌%◌, ◌∷◌, [], cond, MatchOption, None, Some};
ghost use Rattle.lang_model.specs.Trees.{TurnedTree, MinusTree, BaseTree, MoreTrees, NoTree, tree_of};
ghost use Rattle.rv_rewrite.specs.Items.{links_of};
ghost use Rattle.lang_model.specs.Rewriting.{two, place_of_node, dual, chain_of, without_repeats, double_complement, many_turns, turned_again, repeated_operands, to_right_residual, to_left_residual, turned_product, turned_operands, negated_operands, to_quotient};
ghost use Rattle.lang_model.specs.declared.syntax.Op2.TheVariants.{Times as TIMES, Under as UNDER, Over as OVER};
ghost use Rattle.lang_model.specs.declared.syntax.Base.TheVariants.{Syq as SYQ};

use crate::repeats::may_be_shortened;
use crate::same::same;
use crate::sides::{Mark, lattice_sides, operands_of, sides_of};
use crate::view::{Signs, Two, chain_parts, negated, turned};
use lang_model::syntax::{Expr, Link, Op2};

/// Rule 1, `--R` becomes `R`: R.
pub fn double_complement(expr: &Expr) -> Option<&Expr>
    ensures { let t = tree_of expr.now in MatchOption result (double_complement t ≡ None)
        (λ r. double_complement t ≡ Some (tree_of r.now)) }
{
    match negated(expr) {
        Some(of) => negated(of),
        None => None,
    }
}

/// Rule 2, `R` turned more than once becomes `R` or `R^`: its signs.
#[tactic(auto, using(crate::proofs::Ruled::many_turns_of))]
pub fn many_turns(expr: &Expr) -> Option<Signs<'_>>
    ensures { let t = tree_of expr.now in MatchOption result (many_turns t ≡ None)
        (λ x. many_turns t
        ≡ Some (cond (x.times % 2 == 0) (tree_of x.of.now) (TurnedTree x.at (tree_of x.of.now) 1))) }
{
    match turned(expr) {
        Some(x) => { if x.times < 2 { None } else { Some(x) } }
        None => None,
    }
}

/// Rule 3, `R` turned and turned again becomes `R` with all the signs: the outer signs and the inner ones.
#[tactic(auto, using(crate::proofs::Ruled::turned_again_of))]
pub fn turned_again(expr: &Expr) -> Option<(Signs<'_>, Signs<'_>)>
    ensures { let t = tree_of expr.now in MatchOption result (turned_again t ≡ None)
        (λ x. turned_again t ≡ Some (TurnedTree x.0.at (tree_of x.1.of.now) (x.0.times + x.1.times))) }
{
    match turned(expr) {
        Some(x) => match turned(x.of) {
            Some(y) => Some((x, y)),
            None => None,
        },
        None => None,
    }
}

/// Rule 4, a chain of `|` alone or of `&` alone loses its repeated operands: its first operand and its links.
#[tactic(auto, using(crate::proofs::Earlier::repeated_of))]
pub fn repeated_operands(expr: &Expr) -> Option<(&Expr, &[Link])>
    ensures { let t = tree_of expr.now in MatchOption result (repeated_operands t ≡ None)
        (λ x. let f = tree_of x.0.now in repeated_operands t
        ≡ Some (chain_of f (without_repeats (f ∷ []) (links_of x.1.now)))) }
{
    match chain_parts(expr) {
        Some((first, links)) => {
            if may_be_shortened(first, links) {
                Some((first, links))
            } else {
                None
            }
        }
        None => None,
    }
}

/// Rule 5, `-(R^*-S)` becomes `R\S`: R and S.
#[tactic(auto, using(crate::proofs::Ruled::right_residual_sides))]
pub fn to_right_residual(expr: &Expr) -> Option<(&Expr, &Expr)>
    ensures { let t = tree_of expr.now in MatchOption result (to_right_residual t ≡ None)
        (λ x. to_right_residual t ≡ Some (two (place_of_node t) (tree_of x.0.now) UNDER (tree_of x.1.now))) }
{
    match negated(expr) {
        Some(of) => sides_of(Op2::Times, Mark::Turned, Mark::Negated, of),
        None => None,
    }
}

/// Rule 6, `-(-S*R^)` becomes `S/R`: S and R.
#[tactic(auto, using(crate::proofs::Ruled::left_residual_sides))]
pub fn to_left_residual(expr: &Expr) -> Option<(&Expr, &Expr)>
    ensures { let t = tree_of expr.now in MatchOption result (to_left_residual t ≡ None)
        (λ x. to_left_residual t ≡ Some (two (place_of_node t) (tree_of x.0.now) OVER (tree_of x.1.now))) }
{
    match negated(expr) {
        Some(of) => sides_of(Op2::Times, Mark::Negated, Mark::Turned, of),
        None => None,
    }
}

/// Rule 7, `R^*S^` becomes `(S*R)^`: R and S.
#[tactic(auto, using(crate::proofs::Ruled::turned_product_sides))]
pub fn turned_product(expr: &Expr) -> Option<(&Expr, &Expr)>
    ensures { let t = tree_of expr.now in let at = place_of_node t in MatchOption result (turned_product t ≡ None)
        (λ x. turned_product t ≡ Some (TurnedTree at (two at (tree_of x.1.now) TIMES (tree_of x.0.now)) 1)) }
{
    sides_of(Op2::Times, Mark::Turned, Mark::Turned, expr)
}

/// Rule 8, `R^|S^` becomes `(R|S)^`, and the same for `&`: R and S, with the operator.
#[tactic(auto, using(crate::proofs::Ruled::turned_operands_sides))]
pub fn turned_operands(expr: &Expr) -> Option<Two<'_>>
    ensures { let t = tree_of expr.now in let at = place_of_node t in MatchOption result (turned_operands t ≡ None)
        (λ x. turned_operands t ≡ Some (TurnedTree at (two at (tree_of x.left.now) x.op (tree_of x.right.now)) 1)) }
{
    lattice_sides(Mark::Turned, expr)
}

/// Rule 9, `-R&-S` becomes `-(R|S)`, and `-R|-S` becomes `-(R&S)`: R and S, with the operator between their
/// complements.
#[tactic(auto, using(crate::proofs::Ruled::negated_operands_sides))]
pub fn negated_operands(expr: &Expr) -> Option<Two<'_>>
    ensures { let t = tree_of expr.now in let at = place_of_node t in MatchOption result (negated_operands t ≡ None)
        (λ x. negated_operands t
        ≡ Some (MinusTree at (two at (tree_of x.left.now) (dual x.op) (tree_of x.right.now)))) }
{
    lattice_sides(Mark::Negated, expr)
}

/// Rule 10, `(R\S)&R^/S^` becomes `syq(R,S)`: R and S.
#[tactic(auto, using(crate::proofs::Ruled::quotient_sides))]
pub fn to_quotient(expr: &Expr) -> Option<(&Expr, &Expr)>
    ensures { let t = tree_of expr.now in MatchOption result (to_quotient t ≡ None)
        (λ x. to_quotient t ≡ Some (BaseTree (place_of_node t) SYQ
        (MoreTrees (tree_of x.0.now) (MoreTrees (tree_of x.1.now) NoTree)))) }
{
    match operands_of(Op2::And, expr) {
        Some((left, right)) => match operands_of(Op2::Under, left) {
            Some((r, s)) => match sides_of(Op2::Over, Mark::Turned, Mark::Turned, right) {
                Some((again, other)) => {
                    if !same(r, again) {
                        return None;
                    }
                    if !same(s, other) {
                        return None;
                    }
                    Some((r, s))
                }
                None => None,
            },
            None => None,
        },
        None => None,
    }
}
