//! The text of an expression.
ghost use Rattle.std.specs.Prelude.{◌≡◌, ◌++◌, ◌∷◌, ℕ, [], replicate, nat_le, IfOk, OnOk};
ghost use Rattle.lang_model.specs.Printing.{sign_of, chain_rank, rank, within, printed};
ghost use Rattle.rv_spell.specs.Again.{StandsIn, ReadAgain, PrintsAgain};
ghost use Rattle.rv_spell.specs.Printed.{rank_of_links, printed_all_args, printed_all_links};

use lang_model::syntax::{Expr, Link, Op2};
use rel_model::NoMemory;
use std::alloc::Global;

/// The sign of an operator.
fn sign_of(op: Op2) -> u8
    ensures { result ≡ sign_of op }
{
    match op {
        Op2::Or => b'|',
        Op2::And => b'&',
        Op2::Times => b'*',
        Op2::Under => b'\\',
        Op2::Over => b'/',
    }
}

/// How tightly chains of an operator bind.
fn chain_rank(op: Op2) -> u32
    ensures { result ≡ chain_rank op }
{
    match op {
        Op2::Or => 0,
        Op2::And => 1,
        Op2::Times | Op2::Under | Op2::Over => 2,
    }
}

/// How tightly a chain with these links binds.
fn links_rank(links: &[Link]) -> u32
    ensures { result ≡ rank_of_links links.now }
{
    match links {
        [] => 2,
        [first, ..] => chain_rank(first.op),
    }
}

/// How tightly an expression binds: chains by their level, then a prefix `-`, then signs `^`, then everything else.
fn rank(expr: &Expr) -> u32
    ensures { result ≡ rank expr.now }
{
    match expr {
        Expr::Chain { rest, .. } => links_rank(rest.as_slice()),
        Expr::Minus { .. } => 3,
        Expr::Turned { .. } => 4,
        _ => 5,
    }
}

/// Appends a number of signs `^`.
fn write_carets(text: &mut Vec<u8>, times: u32) -> Result<(), NoMemory>
    ensures { OnOk result (text.new.items ≡ text.old.items ++ replicate times 94) }
{
    'each: for _ in 0..times {
        text.push(b'^')?;
    }
    Ok(())
}

/// Appends an operand, in parentheses if they are needed.
#[cycle(print)]
fn write_operand(text: &mut Vec<u8>, needed: bool, expr: &Expr) -> Result<(), NoMemory>
    ensures { OnOk result (text.new.items ≡ text.old.items ++ within needed (printed expr.now)) }
{
    if needed {
        text.push(b'(')?;
        write_expr(text, expr)?;
        text.push(b')')?;
        return Ok(());
    }
    write_expr(text, expr)
}

/// Appends arguments, separated by commas.
#[cycle(print)]
fn write_args(text: &mut Vec<u8>, args: &[Expr]) -> Result<(), NoMemory>
    ensures { OnOk result (text.new.items ≡ text.old.items ++ printed_all_args args.now) }
{
    let [first, rest @ ..] = args else {
        return Ok(());
    };
    write_expr(text, first)?;
    'more: for arg in rest {
        text.push(b',')?;
        write_expr(text, arg)?;
    }
    Ok(())
}

/// Appends a word, and arguments in parentheses.
#[cycle(print)]
fn write_call(text: &mut Vec<u8>, word: &[u8], args: &[Expr]) -> Result<(), NoMemory>
    ensures { OnOk result (text.new.items ≡ text.old.items
        ++ (word.now ++ (40 ∷ printed_all_args args.now ++ 41 ∷ []))) }
{
    text.extend_from_slice(word)?;
    text.push(b'(')?;
    write_args(text, args)?;
    text.push(b')')?;
    Ok(())
}

/// Appends the links of a chain whose operators bind this tightly.
#[cycle(print)]
fn write_links(text: &mut Vec<u8>, loose: u32, links: &[Link]) -> Result<(), NoMemory>
    ensures { OnOk result (text.new.items ≡ text.old.items ++ printed_all_links loose links.now) }
{
    'links: for link in links {
        text.push(sign_of(link.op))?;
        let needed = rank(&link.right) <= loose;
        write_operand(text, needed, &link.right)?;
    }
    Ok(())
}

/// Appends an expression.
#[cycle(print)]
fn write_expr(text: &mut Vec<u8>, expr: &Expr) -> Result<(), NoMemory>
    ensures { OnOk result (text.new.items ≡ text.old.items ++ printed expr.now) }
{
    match expr {
        Expr::Ref { name, .. } => {
            text.extend_from_slice(name.bytes())?;
            Ok(())
        }
        Expr::Call { name, args, .. } => write_call(text, name.bytes(), args.as_slice()),
        Expr::Base { base, args, .. } => write_call(text, base.text(), args.as_slice()),
        Expr::Inject { base, domain, .. } => {
            text.extend_from_slice(base.text())?;
            text.push(b'(')?;
            text.extend_from_slice(domain.bytes())?;
            text.push(b')')?;
            Ok(())
        }
        Expr::Pair { left, right, .. } => {
            text.push(b'[')?;
            write_expr(text, left)?;
            text.push(b',')?;
            write_expr(text, right)?;
            text.push(b']')?;
            Ok(())
        }
        Expr::Minus { of, .. } => {
            text.push(b'-')?;
            write_operand(text, rank(of) < 3, of)
        }
        Expr::Turned { of, times, .. } => {
            write_operand(text, rank(of) < 5, of)?;
            write_carets(text, *times)
        }
        Expr::Chain { first, rest } => {
            let links = rest.as_slice();
            let loose = links_rank(links);
            write_operand(text, rank(first) <= loose, first)?;
            write_links(text, loose, links)
        }
    }
}

/// The text of an expression, without blanks, and with parentheses only around operands that bind more loosely.
///
/// An operand of a chain is in parentheses if it is a chain of the same or a looser level, that of `-` if it is a
/// chain, and that of `^` if it is a chain or has a `-` or a `^` itself. Time and memory are linear in the length of
/// the text, and the recursion is as deep as the nesting. Refused only if memory runs out.
pub fn print_expr(alloc: Global, expr: &Expr) -> Result<Vec<u8>, NoMemory>
    ensures text { IfOk result (λ v. v.items ≡ printed expr.now) }
    ensures again { IfOk result (λ v. ReadAgain expr.now v.items) }
    ensures script { IfOk result (λ v. (d : ℕ) → StandsIn d expr.now → PrintsAgain expr.now v.items) }
{
    let mut text = Vec::new(alloc);
    write_expr(&mut text, expr)?;
    Ok(text)
}
