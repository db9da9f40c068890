//! Chains of two operands, each with a sign `^` or a prefix `-`, as the rules on such chains require.
ghost use Rattle.std.specs.Prelude.{◌≡◌, MatchOption, None, Some};
ghost use Rattle.lang_model.specs.Trees.{tree_of};
ghost use Rattle.lang_model.specs.Rewriting.{is_lattice, operands_of};
ghost use Rattle.rv_rewrite.specs.Marked.{marked, sides, sides_of, lattice_sides};

use crate::same::same_operator;
use crate::view::{Two, negated, turned_once, two_operands};
use lang_model::syntax::{Expr, Op2};

/// A mark that an operand carries. One byte.
#[derive(Clone, Copy)]
pub enum Mark {
    /// A single sign `^`.
    Turned,
    /// A prefix `-`.
    Negated,
}

/// Whether an operator is `|` or `&`.
pub fn is_lattice(op: Op2) -> bool
    ensures { result ≡ is_lattice op }
{
    match op {
        Op2::Or => true,
        Op2::And => true,
        _ => false,
    }
}

/// The operand that carries this mark, without it.
pub fn marked(mark: Mark, expr: &Expr) -> Option<&Expr>
    ensures { MatchOption result (marked mark (tree_of expr.now) ≡ None)
        (λ e. marked mark (tree_of expr.now) ≡ Some (tree_of e.now)) }
{
    match mark {
        Mark::Turned => turned_once(expr),
        Mark::Negated => negated(expr),
    }
}

/// The two operands of a chain, without their marks, if the node is a chain of exactly two with these marks.
pub fn sides(left: Mark, right: Mark, expr: &Expr) -> Option<Two<'_>>
    ensures { MatchOption result (sides left right (tree_of expr.now) ≡ None)
        (λ x. sides left right (tree_of expr.now)
        ≡ Some (record { op = x.op; left = tree_of x.left.now; right = tree_of x.right.now })) }
{
    match two_operands(expr) {
        Some(two) => match marked(left, two.left) {
            Some(first) => match marked(right, two.right) {
                Some(second) => Some(Two {
                    op: two.op,
                    left: first,
                    right: second,
                }),
                None => None,
            },
            None => None,
        },
        None => None,
    }
}

/// The two operands of a chain, if the node is a chain of exactly two with this operator.
pub fn operands_of(op: Op2, expr: &Expr) -> Option<(&Expr, &Expr)>
    ensures { MatchOption result (operands_of op (tree_of expr.now) ≡ None)
        (λ x. operands_of op (tree_of expr.now) ≡ Some (tree_of x.0.now, tree_of x.1.now)) }
{
    match two_operands(expr) {
        Some(two) => {
            if same_operator(two.op, op) {
                Some((two.left, two.right))
            } else {
                None
            }
        }
        None => None,
    }
}

/// The two operands of a chain, without their marks, if the node is a chain of exactly two with these marks and this
/// operator.
pub fn sides_of(op: Op2, left: Mark, right: Mark, expr: &Expr) -> Option<(&Expr, &Expr)>
    ensures { MatchOption result (sides_of op left right (tree_of expr.now) ≡ None)
        (λ x. sides_of op left right (tree_of expr.now) ≡ Some (tree_of x.0.now, tree_of x.1.now)) }
{
    match sides(left, right, expr) {
        Some(two) => {
            if same_operator(two.op, op) {
                Some((two.left, two.right))
            } else {
                None
            }
        }
        None => None,
    }
}

/// The two operands of a chain of `|` or `&`, without their marks, if both carry this one.
pub fn lattice_sides(mark: Mark, expr: &Expr) -> Option<Two<'_>>
    ensures { MatchOption result (lattice_sides mark (tree_of expr.now) ≡ None)
        (λ x. lattice_sides mark (tree_of expr.now)
        ≡ Some (record { op = x.op; left = tree_of x.left.now; right = tree_of x.right.now })) }
{
    match sides(mark, mark, expr) {
        Some(two) => { if is_lattice(two.op) { Some(two) } else { None } }
        None => None,
    }
}
