//! Walks over an expression, operands before their node and from the left.
ghost use Rattle.std.specs.Prelude.{◌≡◌, ◌&&◌, IfOk};
ghost use Rattle.lang_model.specs.Trees.{CallTree, BaseTree, PairTree, MinusTree, TurnedTree, ChainTree, tree_of};
ghost use Rattle.rv_rewrite.specs.Items.{args_of, links_of};
ghost use Rattle.rv_rewrite.specs.Running.{Walks, WalksIn, WalksAlong};

use crate::calm_parts::is_quotient;
use crate::make::{base_call, call, chain, minus, pair, turned};
use crate::settle::finish;
use crate::step::Step;
use lang_model::syntax::{Base, Expr, Link, Name, Place};
use rel_model::NoMemory;
use std::alloc::Global;

/// Whether both hold.
fn both(a: bool, b: bool) -> bool
    ensures { result ≡ (a && b) }
{
    a && b
}

/// The calm tree of an expression, and whether it is calm.
#[cycle(walk)]
pub fn walk(
    alloc: Global,
    kept: bool,
    steps: &mut Vec<Step>,
    expr: &Expr,
) -> Result<(Expr, bool), NoMemory>
    ensures { IfOk result (λ x. Walks kept steps.old.items steps.new.items (tree_of expr.now) (tree_of x.0) x.1) }
{
    match expr {
        Expr::Ref { at, name } => {
            let name = name.copied(alloc)?;
            let node = Expr::Ref { at: *at, name };
            Ok((node, true))
        }
        Expr::Call { at, name, args } => walk_call(alloc, kept, steps, *at, name, args.as_slice()),
        Expr::Base { at, base, args } => walk_base(alloc, kept, steps, *at, *base, args.as_slice()),
        Expr::Inject { at, base, domain } => {
            let domain = domain.copied(alloc)?;
            let node = Expr::Inject {
                at: *at,
                base: *base,
                domain,
            };
            Ok((node, false))
        }
        Expr::Pair { at, left, right } => {
            let (left, _) = walk(alloc, kept, steps, left)?;
            let (right, _) = walk(alloc, kept, steps, right)?;
            let node = pair(alloc, *at, left, right)?;
            Ok((node, false))
        }
        Expr::Minus { at, of } => walk_minus(alloc, kept, steps, *at, of),
        Expr::Turned { at, of, times } => walk_turned(alloc, kept, steps, *at, of, *times),
        Expr::Chain { first, rest } => {
            let (first, calm) = walk(alloc, kept, steps, first)?;
            let (rest, along) = walk_links(alloc, kept, steps, rest.as_slice())?;
            let node = chain(alloc, first, rest)?;
            let calm = both(calm, along);
            let done = finish(alloc, kept, steps, node, calm)?;
            Ok(done)
        }
    }
}

/// The same for a call of a definition.
#[cycle(walk)]
fn walk_call(
    alloc: Global,
    kept: bool,
    steps: &mut Vec<Step>,
    at: Place,
    name: &Name,
    args: &[Expr],
) -> Result<(Expr, bool), NoMemory>
    ensures { IfOk result (λ x. Walks kept steps.old.items steps.new.items
        (CallTree at name.now (args_of args.now)) (tree_of x.0) x.1) }
{
    let name = name.copied(alloc)?;
    let (args, _) = walk_args(alloc, kept, steps, args)?;
    let node = call(at, name, args);
    Ok((node, false))
}

/// The same for a call of a base name.
#[cycle(walk)]
fn walk_base(
    alloc: Global,
    kept: bool,
    steps: &mut Vec<Step>,
    at: Place,
    base: Base,
    args: &[Expr],
) -> Result<(Expr, bool), NoMemory>
    ensures { IfOk result (λ x. Walks kept steps.old.items steps.new.items
        (BaseTree at base (args_of args.now)) (tree_of x.0) x.1) }
{
    let (args, calm) = walk_args(alloc, kept, steps, args)?;
    let calm = both(is_quotient(base), calm);
    let node = base_call(at, base, args);
    let done = finish(alloc, kept, steps, node, calm)?;
    Ok(done)
}

/// The same for an expression with a prefix `-`.
#[cycle(walk)]
fn walk_minus(
    alloc: Global,
    kept: bool,
    steps: &mut Vec<Step>,
    at: Place,
    of: &Expr,
) -> Result<(Expr, bool), NoMemory>
    ensures { IfOk result (λ x. Walks kept steps.old.items steps.new.items
        (MinusTree at (tree_of of.now)) (tree_of x.0) x.1) }
{
    let (of, calm) = walk(alloc, kept, steps, of)?;
    let node = minus(alloc, at, of)?;
    let done = finish(alloc, kept, steps, node, calm)?;
    Ok(done)
}

/// The same for an expression with signs `^`.
#[cycle(walk)]
fn walk_turned(
    alloc: Global,
    kept: bool,
    steps: &mut Vec<Step>,
    at: Place,
    of: &Expr,
    times: u32,
) -> Result<(Expr, bool), NoMemory>
    ensures { IfOk result (λ x. Walks kept steps.old.items steps.new.items
        (TurnedTree at (tree_of of.now) times) (tree_of x.0) x.1) }
{
    let (of, calm) = walk(alloc, kept, steps, of)?;
    let node = turned(alloc, at, of, times)?;
    let done = finish(alloc, kept, steps, node, calm)?;
    Ok(done)
}

/// The calm trees of arguments, and whether all are calm.
#[cycle(walk)]
fn walk_args(
    alloc: Global,
    kept: bool,
    steps: &mut Vec<Step>,
    args: &[Expr],
) -> Result<(Vec<Expr>, bool), NoMemory>
    ensures { IfOk result (λ x. WalksIn kept steps.old.items steps.new.items
        (args_of args.now) (args_of x.0.items) x.1) }
{
    let mut done = Vec::with_capacity(alloc, args.len())?;
    let mut all_calm = true;
    'each: for arg in args {
        let (next, calm) = walk(alloc, kept, steps, arg)?;
        done.push(next)?;
        all_calm = both(all_calm, calm);
    }
    Ok((done, all_calm))
}

/// The calm trees of the operands of links, and whether all are calm.
#[cycle(walk)]
fn walk_links(
    alloc: Global,
    kept: bool,
    steps: &mut Vec<Step>,
    links: &[Link],
) -> Result<(Vec<Link>, bool), NoMemory>
    ensures { IfOk result (λ x. WalksAlong kept steps.old.items steps.new.items
        (links_of links.now) (links_of x.0.items) x.1) }
{
    let mut done = Vec::with_capacity(alloc, links.len())?;
    let mut all_calm = true;
    'each: for link in links {
        let (right, calm) = walk(alloc, kept, steps, &link.right)?;
        done.push(Link {
            at: link.at,
            op: link.op,
            right,
        })?;
        all_calm = both(all_calm, calm);
    }
    Ok((done, all_calm))
}
