//! Making new nodes.
ghost use Rattle.std.specs.Prelude.{◌≡◌, ◌∷◌, [], IfOk};
ghost use Rattle.lang_model.specs.Trees.{CallTree, BaseTree, InjectTree, PairTree, MinusTree, TurnedTree, ChainTree, NoTree, MoreTrees, tree_of};
ghost use Rattle.lang_model.specs.Rewriting.{two};
ghost use Rattle.rv_rewrite.specs.Items.{args_of, links_of};
ghost use Rattle.lang_model.specs.declared.syntax.Base.TheVariants.{Syq as SYQ};

use lang_model::syntax::{Base, Expr, Link, Name, Op2, Place};
use rel_model::NoMemory;
use std::alloc::Global;

/// A chain of two operands.
#[tactic(auto, using(crate::proofs::Items::tree_chain))]
pub fn two(alloc: Global, at: Place, left: Expr, op: Op2, right: Expr) -> Result<Expr, NoMemory>
    ensures { IfOk result (λ e. tree_of e ≡ two at (tree_of left) op (tree_of right)) }
{
    let first = Box::new(alloc, left)?;
    let mut rest = Vec::with_capacity(alloc, 1)?;
    rest.push(Link { at, op, right })?;
    Ok(Expr::Chain { first, rest })
}

/// An expression with a prefix `-`.
pub fn minus(alloc: Global, at: Place, of: Expr) -> Result<Expr, NoMemory>
    ensures { IfOk result (λ e. tree_of e ≡ MinusTree at (tree_of of)) }
{
    let of = Box::new(alloc, of)?;
    Ok(Expr::Minus { at, of })
}

/// An expression with `times` signs `^`.
pub fn turned(alloc: Global, at: Place, of: Expr, times: u32) -> Result<Expr, NoMemory>
    ensures { IfOk result (λ e. tree_of e ≡ TurnedTree at (tree_of of) times) }
{
    let of = Box::new(alloc, of)?;
    Ok(Expr::Turned { at, of, times })
}

/// The list of two arguments.
fn two_arguments(alloc: Global, left: Expr, right: Expr) -> Result<Vec<Expr>, NoMemory>
    ensures { IfOk result (λ args. args.items ≡ left ∷ right ∷ []) }
{
    let mut args = Vec::with_capacity(alloc, 2)?;
    args.push(left)?;
    args.push(right)?;
    Ok(args)
}

/// A symmetric quotient.
pub fn quotient(alloc: Global, at: Place, left: Expr, right: Expr) -> Result<Expr, NoMemory>
    ensures { IfOk result (λ e. tree_of e
        ≡ BaseTree at SYQ (MoreTrees (tree_of left) (MoreTrees (tree_of right) NoTree))) }
{
    let args = two_arguments(alloc, left, right)?;
    Ok(Expr::Base {
        at,
        base: Base::Syq,
        args,
    })
}

/// A pair.
pub fn pair(alloc: Global, at: Place, left: Expr, right: Expr) -> Result<Expr, NoMemory>
    ensures { IfOk result (λ e. tree_of e ≡ PairTree at (tree_of left) (tree_of right)) }
{
    let left = Box::new(alloc, left)?;
    let right = Box::new(alloc, right)?;
    Ok(Expr::Pair { at, left, right })
}

/// A chain.
pub fn chain(alloc: Global, first: Expr, rest: Vec<Link>) -> Result<Expr, NoMemory>
    ensures { IfOk result (λ e. tree_of e ≡ ChainTree (tree_of first) (links_of rest.items)) }
{
    let first = Box::new(alloc, first)?;
    Ok(Expr::Chain { first, rest })
}

/// A call of a definition.
#[tactic(auto, using(crate::proofs::Items::tree_call))]
pub fn call(at: Place, name: Name, args: Vec<Expr>) -> Expr
    ensures { tree_of result ≡ CallTree at name (args_of args.items) }
{
    Expr::Call { at, name, args }
}

/// A call of a base name.
#[tactic(auto, using(crate::proofs::Items::tree_base))]
pub fn base_call(at: Place, base: Base, args: Vec<Expr>) -> Expr
    ensures { tree_of result ≡ BaseTree at base (args_of args.items) }
{
    Expr::Base { at, base, args }
}

/// A domain operator with the name of its domain.
pub fn injected(at: Place, base: Base, domain: Name) -> Expr
    ensures { tree_of result ≡ InjectTree at base domain }
{
    Expr::Inject { at, base, domain }
}
