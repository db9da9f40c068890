//! Expressions from texts, and the texts and places of expressions.
use lang_model::limits::SCRIPT_LIMIT;
use lang_model::syntax::{Command, Expr, Item, Place, Script};
use rv_parse::parse;
use rv_spell::print_expr;
use std::alloc::Global;
use std::test::Fail;

/// The script that prints an expression. The expression is alone on the second line, so its columns are those of its
/// own text.
pub fn script_of(alloc: Global, text: &[u8]) -> Result<Option<Script>, Fail> {
    let mut script = Vec::new(alloc);
    script.extend_from_slice(b"PRINT\n")?;
    script.extend_from_slice(text)?;
    script.push(b'.')?;
    if script.len() > SCRIPT_LIMIT {
        return Ok(None);
    }
    match parse(alloc, script.as_slice()) {
        Ok(script) => Ok(Some(script)),
        Err(_) => Ok(None),
    }
}

/// The expression that a script prints.
pub fn value_of(script: &Script) -> Option<&Expr> {
    match script.items.as_slice() {
        [Item::Command(Command::Print { value })] => Some(value),
        _ => None,
    }
}

/// The text of an expression.
pub fn text_of(alloc: Global, expr: &Expr) -> Result<String, Fail> {
    let text = print_expr(alloc, expr)?;
    Ok(String::from_str(alloc, str::from_utf8(text.as_slice())?)?)
}

/// Appends a place, which is just a column on the second line.
fn push_place(alloc: Global, out: &mut String, at: Place) -> Result<(), Fail> {
    if !out.is_empty() {
        out.push_str(",")?;
    }
    if at.line != 2 {
        out.push_str(format!(in alloc; "{}:", at.line)?.as_str())?;
    }
    out.push_str(format!(in alloc; "{}", at.column)?.as_str())?;
    Ok(())
}

/// Appends the places of arguments.
#[cycle(places)]
fn push_args(alloc: Global, out: &mut String, args: &[Expr]) -> Result<(), Fail> {
    'args: for arg in args {
        push_places(alloc, out, arg)?;
    }
    Ok(())
}

/// Appends the places of an expression.
#[cycle(places)]
fn push_places(alloc: Global, out: &mut String, expr: &Expr) -> Result<(), Fail> {
    match expr {
        Expr::Ref { at, .. } => push_place(alloc, out, *at),
        Expr::Call { at, args, .. } => {
            push_place(alloc, out, *at)?;
            push_args(alloc, out, args.as_slice())
        }
        Expr::Base { at, args, .. } => {
            push_place(alloc, out, *at)?;
            push_args(alloc, out, args.as_slice())
        }
        Expr::Inject { at, .. } => push_place(alloc, out, *at),
        Expr::Pair { at, left, right } => {
            push_place(alloc, out, *at)?;
            push_places(alloc, out, left)?;
            push_places(alloc, out, right)
        }
        Expr::Minus { at, of } => {
            push_place(alloc, out, *at)?;
            push_places(alloc, out, of)
        }
        Expr::Turned { at, of, .. } => {
            push_places(alloc, out, of)?;
            push_place(alloc, out, *at)
        }
        Expr::Chain { first, rest } => {
            push_places(alloc, out, first)?;
            'links: for link in rest.as_slice() {
                push_place(alloc, out, link.at)?;
                push_places(alloc, out, &link.right)?;
            }
            Ok(())
        }
    }
}

/// The places of an expression: those of its names and signs, in the order of its text.
pub fn places_of(alloc: Global, expr: &Expr) -> Result<String, Fail> {
    let mut places = String::new(alloc);
    push_places(alloc, &mut places, expr)?;
    Ok(places)
}

/// Whether two expressions have the same text and the same places.
pub fn are_one(alloc: Global, a: &Expr, b: &Expr) -> Result<bool, Fail> {
    let (text, other) = (print_expr(alloc, a)?, print_expr(alloc, b)?);
    if text.as_slice() != other.as_slice() {
        return Ok(false);
    }
    let (places, others) = (places_of(alloc, a)?, places_of(alloc, b)?);
    Ok(places.as_str() == others.as_str())
}
