//! Repeated operands in a chain of `|` alone or of `&` alone.
ghost use Rattle.std.specs.Prelude.{◌≡◌, ◌∷◌, []};
ghost use Rattle.lang_model.specs.Trees.{ChainTree, tree_of};
ghost use Rattle.lang_model.specs.Rewriting.{all_links, is_of_one_sign, is_result, repeated_operands, same_tree, same_branches, chain_of, without_repeats};
ghost use Rattle.rv_rewrite.specs.Items.{links_of};
ghost use Rattle.rv_rewrite.specs.Repeated.{is_among, repeats, may_be_shortened, without_earlier, all_equal};

use crate::same::{same, same_operator};
use crate::sides::is_lattice;
use lang_model::limits::COMPARED_LIMIT;
use lang_model::syntax::{Expr, Link, Op2};

/// Whether an operand equals the first one, or the operand of one of these links.
pub fn is_among(first: &Expr, links: &[Link], right: &Expr) -> bool
    ensures { result ≡ is_among (tree_of first.now) links.now (tree_of right.now) }
{
    'each: for link in links {
        if same(&link.right, right) {
            return true;
        }
    }
    same(first, right)
}

/// Whether some operand of a chain equals one before it.
fn repeats(first: &Expr, links: &[Link]) -> bool
    ensures { result ≡ repeats (tree_of first.now ∷ []) (links_of links.now) }
{
    'each: for (i, link) in links.iter().enumerate() {
        if is_among(first, &links[..i], &link.right) {
            return true;
        }
    }
    false
}

/// Whether all links have this operator.
fn all_links(op: Op2, links: &[Link]) -> bool
    ensures { result ≡ all_links op (links_of links.now) }
{
    'each: for link in links {
        if !same_operator(link.op, op) {
            return false;
        }
    }
    true
}

/// Whether a chain has only operators `|`, or only operators `&`.
fn is_of_one_sign(links: &[Link]) -> bool
    ensures { result ≡ is_of_one_sign (links_of links.now) }
{
    let [link, more @ ..] = links else {
        return false;
    };
    if !is_lattice(link.op) {
        return false;
    }
    all_links(link.op, more)
}

/// Whether a chain has one operator throughout, is short enough, and has a repeated operand.
pub fn may_be_shortened(first: &Expr, links: &[Link]) -> bool
    ensures { result ≡ may_be_shortened (tree_of first.now) (links_of links.now) }
{
    if !is_of_one_sign(links) {
        return false;
    }
    if links.len() >= COMPARED_LIMIT {
        return false;
    }
    repeats(first, links)
}

/// Whether the operands of all links equal the first one.
fn all_equal(first: &Expr, links: &[Link]) -> bool
    ensures { result ≡ all_equal (tree_of first.now) (links_of links.now) }
{
    'each: for link in links {
        if !same(first, &link.right) {
            return false;
        }
    }
    true
}

/// Whether the kept links are those of the chain, without the ones whose operand equals one before it.
fn are_kept(first: &Expr, links: &[Link], kept: &[Link]) -> bool
    ensures { result ≡ same_branches (without_earlier (tree_of first.now ∷ []) (links_of links.now))
        (links_of kept.now) }
{
    let mut others = kept;
    'each: for (i, link) in links.iter().enumerate() {
        if !is_among(first, &links[..i], &link.right) {
            let [other, more @ ..] = others else {
                return false;
            };
            if !same_operator(link.op, other.op) {
                return false;
            }
            if !same(&link.right, &other.right) {
                return false;
            }
            others = more;
        }
    }
    others.is_empty()
}

/// Whether a node is the chain of the first operand and the links, without those whose operand equals one before it.
#[tactic(auto, using(crate::proofs::Items::tree_chain))]
fn is_chain_kept(first: &Expr, links: &[Link], node: &Expr) -> bool
    ensures { let f = tree_of first.now in
        result ≡ same_tree (ChainTree f (without_earlier (f ∷ []) (links_of links.now))) (tree_of node.now) }
{
    match node {
        Expr::Chain { first: other, rest } => {
            if !same(first, other) {
                return false;
            }
            are_kept(first, links, rest.as_slice())
        }
        _ => false,
    }
}

/// Whether a node is what is left of a chain without the operands that equal one before them: a chain, or the first
/// operand alone.
fn is_shortened(first: &Expr, links: &[Link], node: &Expr) -> bool
    ensures { let f = tree_of first.now in
        result ≡ same_tree (chain_of f (without_repeats (f ∷ []) (links_of links.now))) (tree_of node.now) }
{
    if all_equal(first, links) {
        return same(first, node);
    }
    is_chain_kept(first, links, node)
}

/// Whether a node is what rule 4 makes of another.
pub fn is_repeated_operands(before: &Expr, after: &Expr) -> bool
    ensures { result ≡ is_result (tree_of after.now) (repeated_operands (tree_of before.now)) }
{
    match before {
        Expr::Chain { first, rest } => {
            let links = rest.as_slice();
            if !may_be_shortened(first, links) {
                return false;
            }
            is_shortened(first, links, after)
        }
        _ => false,
    }
}
