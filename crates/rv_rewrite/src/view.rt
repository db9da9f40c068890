//! The parts of a node, by reference.
ghost use Rattle.std.specs.Prelude.{◌≡◌, MatchOption, None, Some};
ghost use Rattle.lang_model.specs.Trees.{tree_of};
ghost use Rattle.lang_model.specs.Rewriting.{negated, turned_once, two_operands, place_of_node};
ghost use Rattle.rv_rewrite.specs.Items.{links_of};
ghost use Rattle.rv_rewrite.specs.Marked.{turn};
ghost use Rattle.rv_rewrite.specs.Repeated.{chain_parts};

use lang_model::syntax::{Expr, Link, Op2, Place};

/// Two operands and the operator between them, by reference. 24 bytes.
#[derive(Clone, Copy)]
pub struct Two<'a> {
    pub op: Op2,
    pub left: &'a Expr,
    pub right: &'a Expr,
}

/// The operand of a prefix `-`, if the node has one.
pub fn negated(expr: &Expr) -> Option<&Expr>
    ensures { MatchOption result (negated (tree_of expr.now) ≡ None)
        (λ e. negated (tree_of expr.now) ≡ Some (tree_of e.now)) }
{
    match expr {
        Expr::Minus { of, .. } => Some(of),
        _ => None,
    }
}

/// The operand of a single sign `^`, if the node has one.
pub fn turned_once(expr: &Expr) -> Option<&Expr>
    ensures { MatchOption result (turned_once (tree_of expr.now) ≡ None)
        (λ e. turned_once (tree_of expr.now) ≡ Some (tree_of e.now)) }
{
    match expr {
        Expr::Turned { of, times, .. } => { if *times == 1 { Some(of) } else { None } }
        _ => None,
    }
}

/// The two operands of a chain, if the node is a chain of exactly two.
#[tactic(auto, using(crate::proofs::Items::tree_chain))]
pub fn two_operands(expr: &Expr) -> Option<Two<'_>>
    ensures { MatchOption result (two_operands (tree_of expr.now) ≡ None)
        (λ x. two_operands (tree_of expr.now)
        ≡ Some (record { op = x.op; left = tree_of x.left.now; right = tree_of x.right.now })) }
{
    match expr {
        Expr::Chain { first, rest } => match rest.as_slice() {
            [link] => Some(Two {
                op: link.op,
                left: first,
                right: &link.right,
            }),
            [] => None,
            [_, _, ..] => None,
        },
        _ => None,
    }
}

/// The first operand and the links of a chain, if the node is one.
#[tactic(auto, using(crate::proofs::Items::tree_chain))]
pub fn chain_parts(expr: &Expr) -> Option<(&Expr, &[Link])>
    ensures { MatchOption result (chain_parts (tree_of expr.now) ≡ None)
        (λ x. chain_parts (tree_of expr.now) ≡ Some (tree_of x.0.now, links_of x.1.now)) }
{
    match expr {
        Expr::Chain { first, rest } => Some((first, rest.as_slice())),
        _ => None,
    }
}

/// The place of a node: the place of its name or sign, or for a chain, that of its first operator.
pub fn place_of_node(expr: &Expr) -> Place
    ensures { result ≡ place_of_node (tree_of expr.now) }
{
    match expr {
        Expr::Ref { at, .. } => *at,
        Expr::Call { at, .. } => *at,
        Expr::Base { at, .. } => *at,
        Expr::Inject { at, .. } => *at,
        Expr::Pair { at, .. } => *at,
        Expr::Minus { at, .. } => *at,
        Expr::Turned { at, .. } => *at,
        Expr::Chain { rest, .. } => match rest.as_slice() {
            [] => Place { line: 0, column: 0 },
            [link, ..] => link.at,
        },
    }
}

/// The operand of signs `^` by reference, how many there are, and their place.
#[derive(Clone, Copy)]
pub struct Signs<'a> {
    pub at: Place,
    pub of: &'a Expr,
    pub times: u32,
}

/// The operand of signs `^`, if the node has any.
pub fn turned(expr: &Expr) -> Option<Signs<'_>>
    ensures { MatchOption result (turn (tree_of expr.now) ≡ None)
        (λ x. turn (tree_of expr.now) ≡ Some (record { at = x.at; of = tree_of x.of.now; times = x.times })) }
{
    match expr {
        Expr::Turned { at, of, times } => Some(Signs {
            at: *at,
            of,
            times: *times,
        }),
        _ => None,
    }
}
