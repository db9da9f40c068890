//! Blocks of assignments.
ghost use Rattle.std.specs.Prelude.{◌≡◌, ◌<◌, ◌^◌, ◌∷◌, [], List, length, MatchResult};
ghost use Rattle.lang_model.specs.Taken.{Takes};
ghost use Rattle.lang_model.specs.Spelling.{OrLevel, SpellsLet, SpelledLets, SpellsCommand};
ghost use Rattle.lang_model.specs.Stop.{NamePart, SignPart, WordPart, ExprPart, let_parts};
ghost use Rattle.lang_model.specs.declared.token.Kind.TheVariants.{Keyword as KEYWORD};
ghost use Rattle.lang_model.specs.declared.token.Keyword.TheVariants.{Let as LET, Atomic as ATOMIC};
ghost use Rattle.lang_model.specs.declared.token.Token.{Token as TOKEN};
ghost use Rattle.rv_tokens.specs.Endings.{ending_of};
ghost use Rattle.rv_parse.specs.Readers.{Refuses};
ghost use Rattle.rv_parse.specs.Got.{Got, block_parts};

use crate::expr::expression;
use crate::halt::Halt;
use crate::leaf::{behind_sign, behind_word, next_name, next_sign, next_word};
use lang_model::syntax::{Command, Let};
use lang_model::token::{Keyword, Token};
use rv_tokens::Ending;
use std::alloc::Global;

/// An assignment of a block, after its LET.
fn one_let(alloc: Global, tokens: &[Token], end: Ending) -> Result<(Let, &[Token]), Halt>
    requires { length tokens.now < 2 ^ 32 }
    ensures { MatchResult result (λ x. Got (ending_of end) (NamePart ∷ SignPart 61 ∷ ExprPart OrLevel 0 ∷ [])
        (λ t r. (before : List TOKEN) → Takes (KEYWORD LET) before t → SpellsLet x.0 before r) tokens.now x.1.now)
        (Refuses (ending_of end) (NamePart ∷ SignPart 61 ∷ ExprPart OrLevel 0 ∷ []) tokens.now) }
{
    let (name, at, rest) = next_name(alloc, tokens, end)?;
    let (_, rest) = next_sign(rest, end, b'=')?;
    let (value, rest) = expression(alloc, rest, end, 0)?;
    Ok((Let { at, name, value }, rest))
}

/// The first assignment of a block, with its LET.
fn first_let(alloc: Global, tokens: &[Token], end: Ending) -> Result<(Let, &[Token]), Halt>
    requires { length tokens.now < 2 ^ 32 }
    ensures { MatchResult result (λ x. Got (ending_of end)
        (WordPart LET ∷ NamePart ∷ SignPart 61 ∷ ExprPart OrLevel 0 ∷ []) (SpellsLet x.0) tokens.now x.1.now)
        (Refuses (ending_of end) (WordPart LET ∷ NamePart ∷ SignPart 61 ∷ ExprPart OrLevel 0 ∷ []) tokens.now) }
{
    let (_, rest) = next_word(tokens, end, Keyword::Let)?;
    let (first, rest) = one_let(alloc, rest, end)?;
    Ok((first, rest))
}

/// The assignments of a block, from the first LET on.
fn lets(alloc: Global, tokens: &[Token], end: Ending) -> Result<(Vec<Let>, &[Token]), Halt>
    requires { length tokens.now < 2 ^ 32 }
    ensures { MatchResult result
        (λ x. Got (ending_of end) (WordPart LET ∷ let_parts) (SpelledLets x.0.items) tokens.now x.1.now)
        (Refuses (ending_of end) (WordPart LET ∷ let_parts) tokens.now) }
{
    let (first, behind) = first_let(alloc, tokens, end)?;
    let mut lets = Vec::new(alloc);
    lets.push(first)?;
    let mut rest = behind;
    'lets: while let Some((_, after)) = behind_sign(rest, b';') {
        let Some((_, behind)) = behind_word(after, Keyword::Let) else {
            return Ok((lets, after));
        };
        let (next, behind) = one_let(alloc, behind, end)?;
        lets.push(next)?;
        rest = behind;
    }
    Ok((lets, rest))
}

/// A block, after ATOMIC.
pub fn block(alloc: Global, tokens: &[Token], end: Ending) -> Result<(Command, &[Token]), Halt>
    requires { length tokens.now < 2 ^ 32 }
    ensures { MatchResult result (λ x. Got (ending_of end) block_parts
        (λ t r. (before : List TOKEN) → Takes (KEYWORD ATOMIC) before t → SpellsCommand x.0 before r)
        tokens.now x.1.now)
        (Refuses (ending_of end) block_parts tokens.now) }
{
    let (list, rest) = lets(alloc, tokens, end)?;
    let (_, rest) = next_word(rest, end, Keyword::Commit)?;
    Ok((Command::Atomic { lets: list }, rest))
}
