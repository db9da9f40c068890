//! Copies of expressions.
ghost use Rattle.std.specs.Prelude.{◌≡◌, IfOk};
ghost use Rattle.lang_model.specs.Trees.{tree_of};
ghost use Rattle.rv_rewrite.specs.Items.{args_of, links_of};

use crate::make::{base_call, call, chain, injected, minus, pair, turned};
use lang_model::syntax::{Expr, Link};
use rel_model::NoMemory;
use std::alloc::Global;

/// A copy of an expression.
#[cycle(copy)]
pub fn copied(alloc: Global, expr: &Expr) -> Result<Expr, NoMemory>
    ensures { IfOk result (λ e. tree_of e ≡ tree_of expr.now) }
{
    match expr {
        Expr::Ref { at, name } => {
            let name = name.copied(alloc)?;
            Ok(Expr::Ref { at: *at, name })
        }
        Expr::Call { at, name, args } => {
            let name = name.copied(alloc)?;
            let args = copied_args(alloc, args.as_slice())?;
            Ok(call(*at, name, args))
        }
        Expr::Base { at, base, args } => {
            let args = copied_args(alloc, args.as_slice())?;
            Ok(base_call(*at, *base, args))
        }
        Expr::Inject { at, base, domain } => {
            let domain = domain.copied(alloc)?;
            Ok(injected(*at, *base, domain))
        }
        Expr::Pair { at, left, right } => {
            let left = copied(alloc, left)?;
            let right = copied(alloc, right)?;
            pair(alloc, *at, left, right)
        }
        Expr::Minus { at, of } => {
            let of = copied(alloc, of)?;
            minus(alloc, *at, of)
        }
        Expr::Turned { at, of, times } => {
            let of = copied(alloc, of)?;
            turned(alloc, *at, of, *times)
        }
        Expr::Chain { first, rest } => {
            let first = copied(alloc, first)?;
            let rest = copied_links(alloc, rest.as_slice())?;
            chain(alloc, first, rest)
        }
    }
}

/// A copy of arguments.
#[cycle(copy)]
fn copied_args(alloc: Global, args: &[Expr]) -> Result<Vec<Expr>, NoMemory>
    ensures { IfOk result (λ v. args_of v.items ≡ args_of args.now) }
{
    let mut copies = Vec::with_capacity(alloc, args.len())?;
    'each: for arg in args {
        let copy = copied(alloc, arg)?;
        copies.push(copy)?;
    }
    Ok(copies)
}

/// A copy of links.
#[cycle(copy)]
fn copied_links(alloc: Global, links: &[Link]) -> Result<Vec<Link>, NoMemory>
    ensures { IfOk result (λ v. links_of v.items ≡ links_of links.now) }
{
    let mut copies = Vec::with_capacity(alloc, links.len())?;
    'each: for link in links {
        let right = copied(alloc, &link.right)?;
        copies.push(Link {
            at: link.at,
            op: link.op,
            right,
        })?;
    }
    Ok(copies)
}
