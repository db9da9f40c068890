//! Taking nodes apart. What a rule keeps is moved, never copied.
ghost use Rattle.std.specs.Prelude.{◌≡◌, MatchOption, None, Some};
ghost use Rattle.lang_model.specs.Trees.{tree_of};
ghost use Rattle.lang_model.specs.Rewriting.{negated, turned_once, two_operands, operands_of};
ghost use Rattle.rv_rewrite.specs.Items.{links_of};
ghost use Rattle.rv_rewrite.specs.Marked.{turn, marked, sides, sides_of, lattice_sides};
ghost use Rattle.rv_rewrite.specs.Repeated.{chain_parts};

use crate::same::same_operator;
use crate::sides::{Mark, is_lattice};
use lang_model::syntax::{Base, Expr, Link, Op2, Place};
use std::alloc::Global;

/// Takes an expression out of its place, leaving one there that uses no heap memory.
pub fn take(alloc: Global, slot: &mut Expr) -> Expr
    ensures { result ≡ slot.old }
{
    let hole = Expr::Base {
        at: Place { line: 0, column: 0 },
        base: Base::O,
        args: Vec::new(alloc),
    };
    std::mem::replace(slot, hole)
}

/// The operand of signs `^`, how many there are, and their place.
#[derive(Drop)]
pub struct Turns {
    pub at: Place,
    pub of: Expr,
    pub times: u32,
}

/// Two operands with an operator between them.
#[derive(Drop)]
pub struct Operands {
    pub op: Op2,
    pub left: Expr,
    pub right: Expr,
}

/// The operand of a prefix `-`, if the node has one.
pub fn into_negated(alloc: Global, expr: Expr) -> Option<Expr>
    ensures { MatchOption result (negated (tree_of expr) ≡ None)
        (λ e. negated (tree_of expr) ≡ Some (tree_of e)) }
{
    let mut node = expr;
    match &mut node {
        Expr::Minus { of, .. } => Some(take(alloc, of)),
        _ => None,
    }
}

/// The operand of a single sign `^`, if the node has one.
pub fn into_turned_once(alloc: Global, expr: Expr) -> Option<Expr>
    ensures { MatchOption result (turned_once (tree_of expr) ≡ None)
        (λ e. turned_once (tree_of expr) ≡ Some (tree_of e)) }
{
    let mut node = expr;
    match &mut node {
        Expr::Turned { of, times, .. } => {
            if *times == 1 {
                Some(take(alloc, of))
            } else {
                None
            }
        }
        _ => None,
    }
}

/// The operand of signs `^`, if the node has any.
pub fn into_turns(alloc: Global, expr: Expr) -> Option<Turns>
    ensures { MatchOption result (turn (tree_of expr) ≡ None)
        (λ x. turn (tree_of expr) ≡ Some (record { at = x.at; of = tree_of x.of; times = x.times })) }
{
    let mut node = expr;
    match &mut node {
        Expr::Turned { at, of, times } => Some(Turns {
            at: *at,
            of: take(alloc, of),
            times: *times,
        }),
        _ => None,
    }
}

/// The first operand and the links of a chain, if the node is one.
#[tactic(auto, using(crate::proofs::Items::tree_chain))]
pub fn into_chain(alloc: Global, expr: Expr) -> Option<(Expr, Vec<Link>)>
    ensures { MatchOption result (chain_parts (tree_of expr) ≡ None)
        (λ x. chain_parts (tree_of expr) ≡ Some (tree_of x.0, links_of x.1.items)) }
{
    let mut node = expr;
    match &mut node {
        Expr::Chain { first, rest } => {
            let first = take(alloc, first);
            let links = std::mem::replace(rest, Vec::new(alloc));
            Some((first, links))
        }
        _ => None,
    }
}

/// The two operands of a chain, if the node is a chain of exactly two.
#[tactic(auto, using(crate::proofs::Items::tree_chain))]
pub fn into_two(alloc: Global, expr: Expr) -> Option<Operands>
    ensures { MatchOption result (two_operands (tree_of expr) ≡ None)
        (λ x. two_operands (tree_of expr)
        ≡ Some (record { op = x.op; left = tree_of x.left; right = tree_of x.right })) }
{
    let mut node = expr;
    match &mut node {
        Expr::Chain { first, rest } => {
            if rest.as_slice().len() != 1 {
                return None;
            }
            match rest.pop() {
                Some(link) => {
                    let Link { op, right, .. } = link;
                    Some(Operands {
                        op,
                        left: take(alloc, first),
                        right,
                    })
                }
                None => None,
            }
        }
        _ => None,
    }
}

/// The operand that carries this mark, without it.
fn into_marked(alloc: Global, mark: Mark, expr: Expr) -> Option<Expr>
    ensures { MatchOption result (marked mark (tree_of expr) ≡ None)
        (λ e. marked mark (tree_of expr) ≡ Some (tree_of e)) }
{
    match mark {
        Mark::Turned => into_turned_once(alloc, expr),
        Mark::Negated => into_negated(alloc, expr),
    }
}

/// The two operands of a chain, without their marks, if the node is a chain of exactly two with these marks.
fn into_sides(alloc: Global, left: Mark, right: Mark, expr: Expr) -> Option<Operands>
    ensures { MatchOption result (sides left right (tree_of expr) ≡ None)
        (λ x. sides left right (tree_of expr)
        ≡ Some (record { op = x.op; left = tree_of x.left; right = tree_of x.right })) }
{
    let Operands {
        op,
        left: first,
        right: second,
    } = into_two(alloc, expr)?;
    let first = into_marked(alloc, left, first)?;
    let second = into_marked(alloc, right, second)?;
    Some(Operands {
        op,
        left: first,
        right: second,
    })
}

/// The two operands of a chain, if the node is a chain of exactly two with this operator.
pub fn into_operands_of(alloc: Global, op: Op2, expr: Expr) -> Option<(Expr, Expr)>
    ensures { MatchOption result (operands_of op (tree_of expr) ≡ None)
        (λ x. operands_of op (tree_of expr) ≡ Some (tree_of x.0, tree_of x.1)) }
{
    let Operands {
        op: own,
        left,
        right,
    } = into_two(alloc, expr)?;
    if same_operator(own, op) {
        Some((left, right))
    } else {
        None
    }
}

/// The two operands of a chain, without their marks, if the node is a chain of exactly two with these marks and this
/// operator.
pub fn into_sides_of(
    alloc: Global,
    op: Op2,
    left: Mark,
    right: Mark,
    expr: Expr,
) -> Option<(Expr, Expr)>
    ensures { MatchOption result (sides_of op left right (tree_of expr) ≡ None)
        (λ x. sides_of op left right (tree_of expr) ≡ Some (tree_of x.0, tree_of x.1)) }
{
    let Operands {
        op: own,
        left,
        right,
    } = into_sides(alloc, left, right, expr)?;
    if same_operator(own, op) {
        Some((left, right))
    } else {
        None
    }
}

/// The two operands of a chain of `|` or `&`, without their marks, if both carry this one.
pub fn into_lattice_sides(alloc: Global, mark: Mark, expr: Expr) -> Option<Operands>
    ensures { MatchOption result (lattice_sides mark (tree_of expr) ≡ None)
        (λ x. lattice_sides mark (tree_of expr)
        ≡ Some (record { op = x.op; left = tree_of x.left; right = tree_of x.right })) }
{
    let both = into_sides(alloc, mark, mark, expr)?;
    if is_lattice(both.op) {
        Some(both)
    } else {
        None
    }
}
