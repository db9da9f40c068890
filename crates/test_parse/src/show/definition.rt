//! Functions and programs written out, after their names.
use super::expression::push_expr;
use super::{push_name, push_place};
use lang_model::syntax::{Decl, Expr, Name, Stmt};
use std::alloc::Global;
use std::test::Fail;

fn push_params(out: &mut String, params: &[Name]) -> Result<(), Fail> {
    out.push_str("(")?;
    let mut is_first = true;
    'params: for param in params {
        if !is_first {
            out.push_str(" ")?;
        }
        push_name(out, param)?;
        is_first = false;
    }
    out.push_str(")")?;
    Ok(())
}

/// The parameters and the expression of a function.
pub fn push_function(
    alloc: Global,
    out: &mut String,
    params: &[Name],
    body: &Expr,
) -> Result<(), Fail> {
    push_params(out, params)?;
    out.push_str(" = ")?;
    push_expr(alloc, out, body)
}

fn push_decl(alloc: Global, out: &mut String, decl: &Decl) -> Result<(), Fail> {
    match decl {
        Decl::Variable { at, name } => {
            push_name(out, name)?;
            push_place(alloc, out, *at)
        }
        Decl::Domain {
            at,
            name,
            sum,
            left,
            right,
        } => {
            push_name(out, name)?;
            push_place(alloc, out, *at)?;
            out.push_str(if *sum { " = SUM(" } else { " = PROD(" })?;
            push_name(out, left)?;
            out.push_str(" ")?;
            push_name(out, right)?;
            out.push_str(")")?;
            Ok(())
        }
    }
}

/// Statements in braces, each after a blank.
#[cycle(shown)]
fn push_stmts(alloc: Global, out: &mut String, stmts: &[Stmt]) -> Result<(), Fail> {
    out.push_str("{")?;
    'stmts: for stmt in stmts {
        out.push_str(" ")?;
        push_stmt(alloc, out, stmt)?;
    }
    out.push_str(" }")?;
    Ok(())
}

#[cycle(shown)]
fn push_stmt(alloc: Global, out: &mut String, stmt: &Stmt) -> Result<(), Fail> {
    match stmt {
        Stmt::Set { at, name, value } => {
            push_name(out, name)?;
            push_place(alloc, out, *at)?;
            out.push_str(" = ")?;
            push_expr(alloc, out, value)?;
            out.push_str(";")?;
            Ok(())
        }
        Stmt::While { at, test, body } => {
            out.push_str("WHILE")?;
            push_place(alloc, out, *at)?;
            out.push_str(" ")?;
            push_expr(alloc, out, test)?;
            out.push_str(" ")?;
            push_stmts(alloc, out, body.as_slice())
        }
        Stmt::If { at, test, yes, no } => {
            out.push_str("IF")?;
            push_place(alloc, out, *at)?;
            out.push_str(" ")?;
            push_expr(alloc, out, test)?;
            out.push_str(" ")?;
            push_stmts(alloc, out, yes.as_slice())?;
            out.push_str(" ")?;
            push_stmts(alloc, out, no.as_slice())
        }
    }
}

/// The parameters, declarations, statements and result of a program.
pub fn push_program(
    alloc: Global,
    out: &mut String,
    params: &[Name],
    decls: &[Decl],
    body: &[Stmt],
    value: &Expr,
) -> Result<(), Fail> {
    push_params(out, params)?;
    'decls: for decl in decls {
        out.push_str(" DECL ")?;
        push_decl(alloc, out, decl)?;
    }
    out.push_str(" ")?;
    push_stmts(alloc, out, body)?;
    out.push_str(" RETURN ")?;
    push_expr(alloc, out, value)
}
