//! Expressions: chains of operands, a prefix `-`, signs `^`, calls, pairs and parentheses.
ghost use Rattle.std.specs.Prelude.{◌≡◌, ◌<◌, ◌≤◌, ◌^◌, ◌∷◌, [], List, suc, length, MatchResult};
ghost use Rattle.lang_model.specs.Taken.{Takes};
ghost use Rattle.lang_model.specs.Limits.{nesting_limit, more_limit};
ghost use Rattle.lang_model.specs.BaseNames.{TakesOne, TakesTwo, form_of};
ghost use Rattle.lang_model.specs.Spelling.{OrLevel, Spelled, UnaryLevel, PostLevel, PrimLevel, tighter};
ghost use Rattle.lang_model.specs.Stop.{ExprPart, CallPart, MoreArgs, SignPart, form_parts};
ghost use Rattle.lang_model.specs.declared.token.Kind.TheVariants.{Base as BASE, Word, Sign};
ghost use Rattle.lang_model.specs.declared.token.Token.{Token as TOKEN};
ghost use Rattle.rv_tokens.specs.Endings.{ending_of};
ghost use Rattle.rv_parse.specs.Got.{Got, pair_parts};
ghost use Rattle.rv_parse.specs.Readers.{Refuses, level_of, IsRead, IsBehind, AreArguments};

use crate::forms::{Form, boxes, form_of, one_argument, two_arguments, with_domain};
use crate::halt::{Halt, Wanted};
use crate::leaf::{behind_sign, missing, next_sign, open, with_sign};
use crate::operators::{Chains, carets, operator};
use lang_model::limits::{NESTING_LIMIT, PARAMETER_LIMIT};
use lang_model::syntax::{Base, Expr, Link, Name, Place};
use lang_model::token::{Kind, Token};
use rv_tokens::Ending;
use std::alloc::Global;

/// An expression inside a construct, given how many are open around the construct.
#[cycle(expr)]
pub fn inner(
    alloc: Global,
    tokens: &[Token],
    end: Ending,
    depth: u32,
) -> Result<(Expr, &[Token]), Halt>
    requires depth { depth < nesting_limit }
    requires count { length tokens.now < 2 ^ 32 }
    ensures { MatchResult result (λ x. IsRead (ending_of end) OrLevel (suc depth) x.0 tokens.now x.1.now)
        (Refuses (ending_of end) (ExprPart OrLevel (suc depth) ∷ []) tokens.now) }
{
    chain(alloc, tokens, end, depth + 1, Chains::Or)
}

/// An expression inside a construct, with this sign after it, given how many are open around the construct.
#[cycle(expr)]
fn inner_and_sign(
    alloc: Global,
    tokens: &[Token],
    end: Ending,
    depth: u32,
    byte: u8,
) -> Result<(Expr, &[Token]), Halt>
    requires depth { depth < nesting_limit }
    requires count { length tokens.now < 2 ^ 32 }
    ensures { MatchResult result (λ x. Got (ending_of end) (ExprPart OrLevel (suc depth) ∷ SignPart byte ∷ [])
        (λ t r. (mid : List TOKEN) × Spelled OrLevel (suc depth) x.0 t mid × Takes (Sign byte) mid r) tokens.now
        x.1.now) (Refuses (ending_of end) (ExprPart OrLevel (suc depth) ∷ SignPart byte ∷ []) tokens.now) }
{
    let (expr, rest) = inner(alloc, tokens, end, depth)?;
    let (expr, rest) = with_sign(expr, rest, end, byte)?;
    Ok((expr, rest))
}

/// Two expressions inside a construct, with a comma between them and this sign after them, given how many are open
/// around the construct.
#[cycle(expr)]
fn inner_pair(
    alloc: Global,
    tokens: &[Token],
    end: Ending,
    depth: u32,
    byte: u8,
) -> Result<(Expr, Expr, &[Token]), Halt>
    requires depth { depth < nesting_limit }
    requires count { length tokens.now < 2 ^ 32 }
    ensures { MatchResult result (λ x. Got (ending_of end) (pair_parts depth byte)
        (λ t r. (t1 t2 t3 : List TOKEN) × Spelled OrLevel (suc depth) x.0 t t1 × Takes (Sign 44) t1 t2
        × Spelled OrLevel (suc depth) x.1 t2 t3 × Takes (Sign byte) t3 r) tokens.now x.2.now)
        (Refuses (ending_of end) (pair_parts depth byte) tokens.now) }
{
    let (left, rest) = inner_and_sign(alloc, tokens, end, depth, b',')?;
    let (right, rest) = inner_and_sign(alloc, rest, end, depth, byte)?;
    Ok((left, right, rest))
}

/// A base name with one argument, after the name.
#[cycle(expr)]
fn with_one(
    alloc: Global,
    base: Base,
    at: Place,
    tokens: &[Token],
    end: Ending,
    depth: u32,
) -> Result<(Expr, &[Token]), Halt>
    requires form { form_of base ≡ TakesOne }
    requires count { length tokens.now < 2 ^ 32 }
    ensures { MatchResult result (λ x. IsBehind (ending_of end) at (BASE base) (form_parts TakesOne depth) depth x.0
        tokens.now x.1.now) (Refuses (ending_of end) (form_parts TakesOne depth) tokens.now) }
{
    let (_, rest) = open(tokens, end, depth)?;
    let (argument, rest) = inner_and_sign(alloc, rest, end, depth, b')')?;
    let args = one_argument(alloc, argument)?;
    Ok((Expr::Base { at, base, args }, rest))
}

/// A base name with two arguments, after the name.
#[cycle(expr)]
fn with_two(
    alloc: Global,
    base: Base,
    at: Place,
    tokens: &[Token],
    end: Ending,
    depth: u32,
) -> Result<(Expr, &[Token]), Halt>
    requires form { form_of base ≡ TakesTwo }
    requires count { length tokens.now < 2 ^ 32 }
    ensures { MatchResult result (λ x. IsBehind (ending_of end) at (BASE base) (form_parts TakesTwo depth) depth x.0
        tokens.now x.1.now) (Refuses (ending_of end) (form_parts TakesTwo depth) tokens.now) }
{
    let (_, rest) = open(tokens, end, depth)?;
    let (first, second, rest) = inner_pair(alloc, rest, end, depth, b')')?;
    let args = two_arguments(alloc, first, second)?;
    Ok((Expr::Base { at, base, args }, rest))
}

/// A base name or a domain operator with what it takes, after the word.
#[cycle(expr)]
fn based(
    alloc: Global,
    base: Base,
    at: Place,
    tokens: &[Token],
    end: Ending,
    depth: u32,
) -> Result<(Expr, &[Token]), Halt>
    requires count { length tokens.now < 2 ^ 32 }
    ensures { MatchResult result (λ x. IsBehind (ending_of end) at (BASE base) (form_parts (form_of base) depth) depth
        x.0 tokens.now x.1.now) (Refuses (ending_of end) (form_parts (form_of base) depth) tokens.now) }
{
    match form_of(base) {
        Form::One => with_one(alloc, base, at, tokens, end, depth),
        Form::Two => with_two(alloc, base, at, tokens, end, depth),
        Form::Domain => with_domain(alloc, base, at, tokens, end, depth),
    }
}

/// The arguments of a call, given how many constructs are open around it.
#[cycle(expr)]
fn arguments(
    alloc: Global,
    tokens: &[Token],
    end: Ending,
    depth: u32,
) -> Result<(Vec<Expr>, &[Token]), Halt>
    requires depth { depth < nesting_limit }
    requires count { length tokens.now < 2 ^ 32 }
    ensures { MatchResult result (λ x. AreArguments (ending_of end) (suc depth) x.0.items tokens.now x.1.now)
        (Refuses (ending_of end) (ExprPart OrLevel (suc depth) ∷ MoreArgs more_limit (suc depth) ∷ []) tokens.now) }
{
    let mut args = Vec::new(alloc);
    let (first, behind) = inner(alloc, tokens, end, depth)?;
    args.push(first)?;
    let mut rest = behind;
    'more: while args.len() < PARAMETER_LIMIT {
        let Some((_, behind)) = behind_sign(rest, b',') else {
            return Ok((args, rest));
        };
        let (next, behind) = inner(alloc, behind, end, depth)?;
        args.push(next)?;
        rest = behind;
    }
    Ok((args, rest))
}

/// A name, or a call of a definition, after the name.
#[cycle(expr)]
fn named<'a>(
    alloc: Global,
    name: &Name,
    at: Place,
    tokens: &'a [Token],
    end: Ending,
    depth: u32,
) -> Result<(Expr, &'a [Token]), Halt>
    requires count { length tokens.now < 2 ^ 32 }
    ensures { MatchResult result (λ x. IsBehind (ending_of end) at (Word name.now) (CallPart depth ∷ []) depth x.0
        tokens.now x.1.now) (Refuses (ending_of end) (CallPart depth ∷ []) tokens.now) }
{
    let name = name.copied(alloc)?;
    match behind_sign(tokens, b'(') {
        Some((open_at, behind)) => {
            if depth >= NESTING_LIMIT {
                return Err(Halt::TooDeep { at: open_at });
            }
            let (args, rest) = arguments(alloc, behind, end, depth)?;
            let (_, rest) = next_sign(rest, end, b')')?;
            Ok((Expr::Call { at, name, args }, rest))
        }
        None => Ok((Expr::Ref { at, name }, tokens)),
    }
}

/// An expression in parentheses, after the opening one.
#[cycle(expr)]
fn enclosed(
    alloc: Global,
    at: Place,
    tokens: &[Token],
    end: Ending,
    depth: u32,
) -> Result<(Expr, &[Token]), Halt>
    requires depth { depth < nesting_limit }
    requires count { length tokens.now < 2 ^ 32 }
    ensures { MatchResult result (λ x. IsBehind (ending_of end) at (Sign 40)
        (ExprPart OrLevel (suc depth) ∷ SignPart 41 ∷ []) depth x.0 tokens.now x.1.now)
        (Refuses (ending_of end) (ExprPart OrLevel (suc depth) ∷ SignPart 41 ∷ []) tokens.now) }
{
    let (expr, rest) = inner_and_sign(alloc, tokens, end, depth, b')')?;
    Ok((expr, rest))
}

/// A pair, after its opening bracket.
#[cycle(expr)]
fn pair(
    alloc: Global,
    at: Place,
    tokens: &[Token],
    end: Ending,
    depth: u32,
) -> Result<(Expr, &[Token]), Halt>
    requires depth { depth < nesting_limit }
    requires count { length tokens.now < 2 ^ 32 }
    ensures { MatchResult result (λ x. IsBehind (ending_of end) at (Sign 91)
        (ExprPart OrLevel (suc depth) ∷ SignPart 44 ∷ ExprPart OrLevel (suc depth) ∷ SignPart 93 ∷ []) depth x.0
        tokens.now x.1.now) (Refuses (ending_of end) (ExprPart OrLevel (suc depth) ∷ SignPart 44
        ∷ ExprPart OrLevel (suc depth) ∷ SignPart 93 ∷ []) tokens.now) }
{
    let (left, right, rest) = inner_pair(alloc, tokens, end, depth, b']')?;
    let (left, right) = boxes(alloc, left, right)?;
    Ok((Expr::Pair { at, left, right }, rest))
}

/// A name, a call, a pair, or an expression in parentheses.
#[cycle(expr)]
fn prim(alloc: Global, tokens: &[Token], end: Ending, depth: u32) -> Result<(Expr, &[Token]), Halt>
    requires depth { depth ≤ nesting_limit }
    requires count { length tokens.now < 2 ^ 32 }
    ensures { MatchResult result (λ x. IsRead (ending_of end) PrimLevel depth x.0 tokens.now x.1.now)
        (Refuses (ending_of end) (ExprPart PrimLevel depth ∷ []) tokens.now) }
{
    let [first, rest @ ..] = tokens else {
        return Err(missing(tokens, end, Wanted::Expression));
    };
    let at = first.at;
    match &first.kind {
        Kind::Word(name) => named(alloc, name, at, rest, end, depth),
        Kind::Base(base) => based(alloc, *base, at, rest, end, depth),
        Kind::Sign(sign) => {
            if *sign != b'(' && *sign != b'[' {
                return Err(missing(tokens, end, Wanted::Expression));
            }
            if depth >= NESTING_LIMIT {
                return Err(Halt::TooDeep { at });
            }
            if *sign == b'(' {
                enclosed(alloc, at, rest, end, depth)
            } else {
                pair(alloc, at, rest, end, depth)
            }
        }
        _ => Err(missing(tokens, end, Wanted::Expression)),
    }
}

/// A prim with the signs `^` after it.
#[cycle(expr)]
fn post(alloc: Global, tokens: &[Token], end: Ending, depth: u32) -> Result<(Expr, &[Token]), Halt>
    requires depth { depth ≤ nesting_limit }
    requires count { length tokens.now < 2 ^ 32 }
    ensures { MatchResult result (λ x. IsRead (ending_of end) PostLevel depth x.0 tokens.now x.1.now)
        (Refuses (ending_of end) (ExprPart PostLevel depth ∷ []) tokens.now) }
{
    let (of, rest) = prim(alloc, tokens, end, depth)?;
    match behind_sign(rest, b'^') {
        Some((at, behind)) => {
            let (more, rest) = carets(behind);
            let of = Box::new(alloc, of)?;
            let times = more + 1;
            Ok((Expr::Turned { at, of, times }, rest))
        }
        None => Ok((of, rest)),
    }
}

/// An operand of `*`, `\` and `/`.
#[cycle(expr)]
fn unary(alloc: Global, tokens: &[Token], end: Ending, depth: u32) -> Result<(Expr, &[Token]), Halt>
    requires depth { depth ≤ nesting_limit }
    requires count { length tokens.now < 2 ^ 32 }
    ensures { MatchResult result (λ x. IsRead (ending_of end) UnaryLevel depth x.0 tokens.now x.1.now)
        (Refuses (ending_of end) (ExprPart UnaryLevel depth ∷ []) tokens.now) }
{
    match behind_sign(tokens, b'-') {
        Some((at, behind)) => {
            if depth >= NESTING_LIMIT {
                return Err(Halt::TooDeep { at });
            }
            let (of, rest) = unary(alloc, behind, end, depth + 1)?;
            let of = Box::new(alloc, of)?;
            Ok((Expr::Minus { at, of }, rest))
        }
        None => post(alloc, tokens, end, depth),
    }
}

/// An operand of a level.
#[cycle(expr)]
fn operand(
    alloc: Global,
    tokens: &[Token],
    end: Ending,
    depth: u32,
    level: Chains,
) -> Result<(Expr, &[Token]), Halt>
    requires depth { depth ≤ nesting_limit }
    requires count { length tokens.now < 2 ^ 32 }
    ensures { MatchResult result (λ x. IsRead (ending_of end) (tighter (level_of level)) depth x.0 tokens.now x.1.now)
        (Refuses (ending_of end) (ExprPart (tighter (level_of level)) depth ∷ []) tokens.now) }
{
    match level {
        Chains::Or => chain(alloc, tokens, end, depth, Chains::And),
        Chains::And => chain(alloc, tokens, end, depth, Chains::Prod),
        Chains::Prod => unary(alloc, tokens, end, depth),
    }
}

/// One or more operands of a level, grouped from the left.
#[cycle(expr)]
fn chain(
    alloc: Global,
    tokens: &[Token],
    end: Ending,
    depth: u32,
    level: Chains,
) -> Result<(Expr, &[Token]), Halt>
    requires depth { depth ≤ nesting_limit }
    requires count { length tokens.now < 2 ^ 32 }
    ensures { MatchResult result (λ x. IsRead (ending_of end) (level_of level) depth x.0 tokens.now x.1.now)
        (Refuses (ending_of end) (ExprPart (level_of level) depth ∷ []) tokens.now) }
{
    let (first, behind) = operand(alloc, tokens, end, depth, level)?;
    let mut rest = behind;
    let mut links = Vec::new(alloc);
    'links: while let Some((op, at, behind)) = operator(level, rest) {
        let (right, behind) = operand(alloc, behind, end, depth, level)?;
        links.push(Link { at, op, right })?;
        rest = behind;
    }
    if links.is_empty() {
        return Ok((first, rest));
    }
    let first = Box::new(alloc, first)?;
    Ok((Expr::Chain { first, rest: links }, rest))
}

/// A whole expression, given how many constructs are open around it.
pub fn expression(
    alloc: Global,
    tokens: &[Token],
    end: Ending,
    depth: u32,
) -> Result<(Expr, &[Token]), Halt>
    requires depth { depth ≤ nesting_limit }
    requires count { length tokens.now < 2 ^ 32 }
    ensures { MatchResult result (λ x. IsRead (ending_of end) OrLevel depth x.0 tokens.now x.1.now)
        (Refuses (ending_of end) (ExprPart OrLevel depth ∷ []) tokens.now) }
{
    chain(alloc, tokens, end, depth, Chains::Or)
}
