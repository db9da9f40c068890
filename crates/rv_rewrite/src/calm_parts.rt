//! Which nodes are calm.
ghost use Rattle.std.specs.Prelude.{◌≡◌};
ghost use Rattle.lang_model.specs.Trees.{tree_of};
ghost use Rattle.lang_model.specs.Rewriting.{is_quotient, is_calm, are_calm, are_calm_along};
ghost use Rattle.rv_rewrite.specs.Items.{args_of, links_of};

use lang_model::syntax::{Base, Expr, Link};

/// Whether a base name is `syq`.
pub fn is_quotient(base: Base) -> bool
    ensures { result ≡ is_quotient base }
{
    match base {
        Base::Syq => true,
        _ => false,
    }
}

/// Whether an expression consists only of names, prefixes `-`, signs `^`, chains and symmetric quotients.
#[cycle(calm)]
#[tactic(auto, using(crate::proofs::Items::tree_call, crate::proofs::Items::tree_base, crate::proofs::Items::tree_chain))]
pub fn is_calm(expr: &Expr) -> bool
    ensures { result ≡ is_calm (tree_of expr.now) }
{
    match expr {
        Expr::Ref { .. } => true,
        Expr::Call { .. } => false,
        Expr::Base { base, args, .. } => is_quotient(*base) && are_calm(args.as_slice()),
        Expr::Inject { .. } => false,
        Expr::Pair { .. } => false,
        Expr::Minus { of, .. } => is_calm(of),
        Expr::Turned { of, .. } => is_calm(of),
        Expr::Chain { first, rest } => is_calm(first) && are_calm_along(rest.as_slice()),
    }
}

/// Whether all arguments are calm.
#[cycle(calm)]
fn are_calm(args: &[Expr]) -> bool
    ensures { result ≡ are_calm (args_of args.now) }
{
    'each: for arg in args {
        if !is_calm(arg) {
            return false;
        }
    }
    true
}

/// Whether the operands of all links are calm.
#[cycle(calm)]
fn are_calm_along(links: &[Link]) -> bool
    ensures { result ≡ are_calm_along (links_of links.now) }
{
    'each: for link in links {
        if !is_calm(&link.right) {
            return false;
        }
    }
    true
}
