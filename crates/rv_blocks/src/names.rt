//! The names that an expression uses.
ghost use Rattle.std.specs.Prelude.{◌≡◌, ◌++◌, ◌∷◌, [], IfOk, OnOk};
ghost use Rattle.lang_model.specs.Eval.{names_in};
ghost use Rattle.rv_blocks.specs.Naming.{names_of_args, names_of_links};

use lang_model::syntax::{Expr, Link, Name};
use rel_model::NoMemory;
use std::alloc::Global;

/// Appends a name.
fn push_name(alloc: Global, names: &mut Vec<Name>, name: &Name) -> Result<(), NoMemory>
    ensures { OnOk result (names.new.items ≡ names.old.items ++ name.now ∷ []) }
{
    names.push(name.copied(alloc)?)?;
    Ok(())
}

/// Appends the relation names of an expression, from left to right, with repeats.
#[cycle(pushing)]
fn push_names(alloc: Global, names: &mut Vec<Name>, expr: &Expr) -> Result<(), NoMemory>
    ensures { OnOk result (names.new.items ≡ names.old.items ++ names_in expr.now) }
{
    match expr {
        Expr::Ref { name, .. } => push_name(alloc, names, name),
        Expr::Call { args, .. } => push_args(alloc, names, args.as_slice()),
        Expr::Base { args, .. } => push_args(alloc, names, args.as_slice()),
        Expr::Inject { .. } => Ok(()),
        Expr::Pair { left, right, .. } => {
            push_names(alloc, names, left)?;
            push_names(alloc, names, right)
        }
        Expr::Minus { of, .. } => push_names(alloc, names, of),
        Expr::Turned { of, .. } => push_names(alloc, names, of),
        Expr::Chain { first, rest } => {
            push_names(alloc, names, first)?;
            push_links(alloc, names, rest.as_slice())
        }
    }
}

/// Appends the relation names of arguments.
#[cycle(pushing)]
fn push_args(alloc: Global, names: &mut Vec<Name>, args: &[Expr]) -> Result<(), NoMemory>
    ensures { OnOk result (names.new.items ≡ names.old.items ++ names_of_args args.now) }
{
    'args: for arg in args {
        push_names(alloc, names, arg)?;
    }
    Ok(())
}

/// Appends the relation names of the links of a chain.
#[cycle(pushing)]
fn push_links(alloc: Global, names: &mut Vec<Name>, links: &[Link]) -> Result<(), NoMemory>
    ensures { OnOk result (names.new.items ≡ names.old.items ++ names_of_links links.now) }
{
    'links: for link in links {
        push_names(alloc, names, &link.right)?;
    }
    Ok(())
}

/// The relation names of an expression, from left to right, with repeats.
pub fn names_in(alloc: Global, expr: &Expr) -> Result<Vec<Name>, NoMemory>
    ensures { IfOk result (λ v. v.items ≡ names_in expr.now) }
{
    let mut names = Vec::new(alloc);
    push_names(alloc, &mut names, expr)?;
    Ok(names)
}
