//! Statements.
ghost use Rattle.std.specs.Prelude.{◌≡◌, ◌<◌, ◌≤◌, ◌^◌, ◌∷◌, [], List, suc, length, MatchResult, MatchOption};
ghost use Rattle.lang_model.specs.Taken.{TakesAt, Takes};
ghost use Rattle.lang_model.specs.Limits.{nesting_limit};
ghost use Rattle.lang_model.specs.Spelling.{OrLevel, Spelled, SpelledStmt, SpelledStmts};
ghost use Rattle.lang_model.specs.Stop.{ExprPart, WordPart, StmtsPart, ElsePart, MoreStmts};
ghost use Rattle.lang_model.specs.declared.token.Kind.TheVariants.{Keyword as KEYWORD, Word};
ghost use Rattle.lang_model.specs.declared.token.Keyword.TheVariants.{While as WHILE, If as IF, Fi as FI};
ghost use Rattle.lang_model.specs.declared.token.Token.{Token as TOKEN};
ghost use Rattle.rv_tokens.specs.Endings.{ending_of};
ghost use Rattle.rv_parse.specs.Readers.{Refuses};
ghost use Rattle.rv_parse.specs.Got.{Got, ReadsTo, SpellsSecond, set_parts, while_parts, if_parts};

use crate::expr::{expression, inner};
use crate::halt::Halt;
use crate::leaf::{behind_sign, behind_word, next_sign, next_word, with_word};
use lang_model::limits::NESTING_LIMIT;
use lang_model::syntax::{Expr, Name, Place, Stmt};
use lang_model::token::{Keyword, Kind, Token};
use rv_tokens::Ending;
use std::alloc::Global;

/// An assignment, after its name.
fn set<'a>(
    alloc: Global,
    name: &Name,
    at: Place,
    tokens: &'a [Token],
    end: Ending,
    depth: u32,
) -> Result<(Stmt, &'a [Token]), Halt>
    requires depth { depth ≤ nesting_limit }
    requires count { length tokens.now < 2 ^ 32 }
    ensures { MatchResult result (λ x. Got (ending_of end) (set_parts depth)
        (λ t r. (before : List TOKEN) → TakesAt at (Word name.now) before t → SpelledStmt depth x.0 before r)
        tokens.now x.1.now) (Refuses (ending_of end) (set_parts depth) tokens.now) }
{
    let name = name.copied(alloc)?;
    let (_, rest) = next_sign(tokens, end, b'=')?;
    let (value, rest) = expression(alloc, rest, end, depth)?;
    Ok((Stmt::Set { at, name, value }, rest))
}

/// A test inside a construct, with the keyword after it, given how many are open around the construct.
fn test_and_word(
    alloc: Global,
    tokens: &[Token],
    end: Ending,
    depth: u32,
    keyword: Keyword,
) -> Result<(Expr, &[Token]), Halt>
    requires depth { depth < nesting_limit }
    requires count { length tokens.now < 2 ^ 32 }
    ensures { MatchResult result (λ x. Got (ending_of end) (ExprPart OrLevel (suc depth) ∷ WordPart keyword ∷ [])
        (λ t r. (mid : List TOKEN) × Spelled OrLevel (suc depth) x.0 t mid × Takes (KEYWORD keyword) mid r) tokens.now
        x.1.now) (Refuses (ending_of end) (ExprPart OrLevel (suc depth) ∷ WordPart keyword ∷ []) tokens.now) }
{
    let (test, rest) = inner(alloc, tokens, end, depth)?;
    let (test, rest) = with_word(test, rest, end, keyword)?;
    Ok((test, rest))
}

/// Statements inside a construct, given how many are open around the construct.
#[cycle(stmt)]
fn inner_stmts(
    alloc: Global,
    tokens: &[Token],
    end: Ending,
    depth: u32,
) -> Result<(Vec<Stmt>, &[Token]), Halt>
    requires depth { depth < nesting_limit }
    requires count { length tokens.now < 2 ^ 32 }
    ensures { MatchResult result (λ x. Got (ending_of end) (StmtsPart (suc depth) ∷ [])
        (SpelledStmts (suc depth) x.0.items) tokens.now x.1.now)
        (Refuses (ending_of end) (StmtsPart (suc depth) ∷ []) tokens.now) }
{
    stmts(alloc, tokens, end, depth + 1)
}

/// Statements inside a construct, with the keyword after them, given how many are open around the construct.
#[cycle(stmt)]
fn stmts_and_word(
    alloc: Global,
    tokens: &[Token],
    end: Ending,
    depth: u32,
    keyword: Keyword,
) -> Result<(Vec<Stmt>, &[Token]), Halt>
    requires depth { depth < nesting_limit }
    requires count { length tokens.now < 2 ^ 32 }
    ensures { MatchResult result (λ x. Got (ending_of end) (StmtsPart (suc depth) ∷ WordPart keyword ∷ [])
        (λ t r. (mid : List TOKEN) × SpelledStmts (suc depth) x.0.items t mid × Takes (KEYWORD keyword) mid r)
        tokens.now x.1.now) (Refuses (ending_of end) (StmtsPart (suc depth) ∷ WordPart keyword ∷ []) tokens.now) }
{
    let (body, rest) = inner_stmts(alloc, tokens, end, depth)?;
    let (_, rest) = next_word(rest, end, keyword)?;
    Ok((body, rest))
}

/// The second branch of an IF, if it has one, up to FI.
#[cycle(stmt)]
fn second_part(
    alloc: Global,
    tokens: &[Token],
    end: Ending,
    depth: u32,
) -> Result<(Vec<Stmt>, &[Token]), Halt>
    requires depth { depth < nesting_limit }
    requires count { length tokens.now < 2 ^ 32 }
    ensures { MatchResult result (λ x. Got (ending_of end) (ElsePart (suc depth) ∷ WordPart FI ∷ [])
        (SpellsSecond (suc depth) x.0.items) tokens.now x.1.now)
        (Refuses (ending_of end) (ElsePart (suc depth) ∷ WordPart FI ∷ []) tokens.now) }
{
    match behind_word(tokens, Keyword::Else) {
        Some((_, behind)) => {
            let (no, rest) = stmts_and_word(alloc, behind, end, depth, Keyword::Fi)?;
            Ok((no, rest))
        }
        None => {
            let (_, rest) = next_word(tokens, end, Keyword::Fi)?;
            Ok((Vec::new(alloc), rest))
        }
    }
}

/// A loop, after WHILE.
#[cycle(stmt)]
fn looped(
    alloc: Global,
    at: Place,
    tokens: &[Token],
    end: Ending,
    depth: u32,
) -> Result<(Stmt, &[Token]), Halt>
    requires depth { depth < nesting_limit }
    requires count { length tokens.now < 2 ^ 32 }
    ensures { MatchResult result (λ x. Got (ending_of end) (while_parts depth)
        (λ t r. (before : List TOKEN) → TakesAt at (KEYWORD WHILE) before t → SpelledStmt depth x.0 before r)
        tokens.now x.1.now) (Refuses (ending_of end) (while_parts depth) tokens.now) }
{
    let (test, rest) = test_and_word(alloc, tokens, end, depth, Keyword::Do)?;
    let (body, rest) = stmts_and_word(alloc, rest, end, depth, Keyword::Od)?;
    Ok((Stmt::While { at, test, body }, rest))
}

/// A choice, after IF.
#[cycle(stmt)]
fn branched(
    alloc: Global,
    at: Place,
    tokens: &[Token],
    end: Ending,
    depth: u32,
) -> Result<(Stmt, &[Token]), Halt>
    requires depth { depth < nesting_limit }
    requires count { length tokens.now < 2 ^ 32 }
    ensures { MatchResult result (λ x. Got (ending_of end) (if_parts depth)
        (λ t r. (before : List TOKEN) → TakesAt at (KEYWORD IF) before t → SpelledStmt depth x.0 before r) tokens.now
        x.1.now) (Refuses (ending_of end) (if_parts depth) tokens.now) }
{
    let (test, rest) = test_and_word(alloc, tokens, end, depth, Keyword::Then)?;
    let (yes, rest) = inner_stmts(alloc, rest, end, depth)?;
    let (no, rest) = second_part(alloc, rest, end, depth)?;
    Ok((Stmt::If { at, test, yes, no }, rest))
}

/// A statement, if the first token begins one.
#[cycle(stmt)]
fn next_stmt(
    alloc: Global,
    tokens: &[Token],
    end: Ending,
    depth: u32,
) -> Result<Option<(Stmt, &[Token])>, Halt>
    requires depth { depth ≤ nesting_limit }
    requires count { length tokens.now < 2 ^ 32 }
    ensures { MatchResult result (λ o. MatchOption o (ReadsTo (ending_of end) (StmtsPart depth ∷ []) [] tokens.now
        tokens.now) (λ x. SpelledStmt depth x.0 tokens.now x.1.now × (length x.1.now < length tokens.now)
        × ReadsTo (ending_of end) (StmtsPart depth ∷ []) (MoreStmts depth ∷ []) tokens.now x.1.now))
        (Refuses (ending_of end) (StmtsPart depth ∷ []) tokens.now) }
{
    let [first, rest @ ..] = tokens else {
        return Ok(None);
    };
    let at = first.at;
    match &first.kind {
        Kind::Word(name) => {
            let found = set(alloc, name, at, rest, end, depth)?;
            Ok(Some(found))
        }
        Kind::Keyword(Keyword::While) => {
            if depth >= NESTING_LIMIT {
                return Err(Halt::TooDeep { at });
            }
            let found = looped(alloc, at, rest, end, depth)?;
            Ok(Some(found))
        }
        Kind::Keyword(Keyword::If) => {
            if depth >= NESTING_LIMIT {
                return Err(Halt::TooDeep { at });
            }
            let found = branched(alloc, at, rest, end, depth)?;
            Ok(Some(found))
        }
        _ => Ok(None),
    }
}

/// A list of statements, given how many constructs are open around it.
#[cycle(stmt)]
pub fn stmts(
    alloc: Global,
    tokens: &[Token],
    end: Ending,
    depth: u32,
) -> Result<(Vec<Stmt>, &[Token]), Halt>
    requires depth { depth ≤ nesting_limit }
    requires count { length tokens.now < 2 ^ 32 }
    ensures { MatchResult result (λ x. Got (ending_of end) (StmtsPart depth ∷ []) (SpelledStmts depth x.0.items)
        tokens.now x.1.now) (Refuses (ending_of end) (StmtsPart depth ∷ []) tokens.now) }
{
    let mut stmts = Vec::new(alloc);
    let mut rest = tokens;
    'each: while let Some((stmt, behind)) = next_stmt(alloc, rest, end, depth)? {
        stmts.push(stmt)?;
        let Some((_, after)) = behind_sign(behind, b';') else {
            return Ok((stmts, behind));
        };
        rest = after;
    }
    Ok((stmts, rest))
}
