//! Expressions written out: operators before their operands, and chains in braces.
use super::{push_name, push_place};
use lang_model::syntax::{Base, Expr, Link, Op2};
use std::alloc::Global;
use std::test::Fail;

fn sign_of(op: Op2) -> &'static str {
    match op {
        Op2::Or => "|",
        Op2::And => "&",
        Op2::Times => "*",
        Op2::Under => "\\",
        Op2::Over => "/",
    }
}

fn word_of(base: Base) -> &'static str {
    match base {
        Base::L => "L",
        Base::O => "O",
        Base::I => "I",
        Base::Ln1 => "Ln1",
        Base::On1 => "On1",
        Base::L1n => "L1n",
        Base::O1n => "O1n",
        Base::Dom => "dom",
        Base::Ran => "ran",
        Base::Trans => "trans",
        Base::Refl => "refl",
        Base::Epsi => "epsi",
        Base::Point => "point",
        Base::Atom => "atom",
        Base::Init => "init",
        Base::Next => "next",
        Base::Inj => "inj",
        Base::Empty => "empty",
        Base::Unival => "unival",
        Base::Less => "less",
        Base::Hasse => "hasse",
        Base::Quot => "quot",
        Base::Syq => "syq",
        Base::Eq => "eq",
        Base::Incl => "incl",
        Base::Ubd => "ubd",
        Base::Lbd => "lbd",
        Base::Least => "least",
        Base::Greatest => "greatest",
        Base::Sup => "sup",
        Base::Inf => "inf",
        Base::P1 => "p-1",
        Base::P2 => "p-2",
        Base::I1 => "i-1",
        Base::I2 => "i-2",
    }
}

/// Arguments in parentheses, separated by blanks.
#[cycle(shown)]
fn push_args(alloc: Global, out: &mut String, args: &[Expr]) -> Result<(), Fail> {
    out.push_str("(")?;
    let mut is_first = true;
    'args: for arg in args {
        if !is_first {
            out.push_str(" ")?;
        }
        push_expr(alloc, out, arg)?;
        is_first = false;
    }
    out.push_str(")")?;
    Ok(())
}

/// The links of a chain, each after a blank.
#[cycle(shown)]
fn push_links(alloc: Global, out: &mut String, links: &[Link]) -> Result<(), Fail> {
    'links: for link in links {
        out.push_str(" ")?;
        out.push_str(sign_of(link.op))?;
        push_place(alloc, out, link.at)?;
        out.push_str(" ")?;
        push_expr(alloc, out, &link.right)?;
    }
    Ok(())
}

/// Writes an expression out.
#[cycle(shown)]
pub fn push_expr(alloc: Global, out: &mut String, expr: &Expr) -> Result<(), Fail> {
    match expr {
        Expr::Ref { at, name } => {
            push_name(out, name)?;
            push_place(alloc, out, *at)
        }
        Expr::Call { at, name, args } => {
            push_name(out, name)?;
            push_place(alloc, out, *at)?;
            push_args(alloc, out, args.as_slice())
        }
        Expr::Base { at, base, args } => {
            out.push_str(word_of(*base))?;
            push_place(alloc, out, *at)?;
            push_args(alloc, out, args.as_slice())
        }
        Expr::Inject { at, base, domain } => {
            out.push_str(word_of(*base))?;
            push_place(alloc, out, *at)?;
            out.push_str("(")?;
            push_name(out, domain)?;
            out.push_str(")")?;
            Ok(())
        }
        Expr::Pair { at, left, right } => {
            out.push_str("[")?;
            push_place(alloc, out, *at)?;
            out.push_str("(")?;
            push_expr(alloc, out, left)?;
            out.push_str(" ")?;
            push_expr(alloc, out, right)?;
            out.push_str(")")?;
            Ok(())
        }
        Expr::Minus { at, of } => {
            out.push_str("-")?;
            push_place(alloc, out, *at)?;
            out.push_str("(")?;
            push_expr(alloc, out, of)?;
            out.push_str(")")?;
            Ok(())
        }
        Expr::Turned { at, of, times } => {
            out.push_str(format!(in alloc; "^{times}")?.as_str())?;
            push_place(alloc, out, *at)?;
            out.push_str("(")?;
            push_expr(alloc, out, of)?;
            out.push_str(")")?;
            Ok(())
        }
        Expr::Chain { first, rest } => {
            out.push_str("{")?;
            push_expr(alloc, out, first)?;
            push_links(alloc, out, rest.as_slice())?;
            out.push_str("}")?;
            Ok(())
        }
    }
}
