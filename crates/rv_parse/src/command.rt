//! Commands.
ghost use Rattle.std.specs.Prelude.{◌≡◌, ◌<◌, ◌^◌, ◌∷◌, [], List, length, MatchResult, MatchOption};
ghost use Rattle.lang_model.specs.Taken.{Takes};
ghost use Rattle.lang_model.specs.Spelling.{OrLevel, Spelled, SpellsCommand};
ghost use Rattle.lang_model.specs.Stop.{ExprPart, NotBegun, command_step};
ghost use Rattle.lang_model.specs.declared.token.Kind.TheVariants.{Keyword as KEYWORD};
ghost use Rattle.lang_model.specs.declared.token.Token.{Token as TOKEN};
ghost use Rattle.rv_tokens.specs.Endings.{ending_of};
ghost use Rattle.rv_parse.specs.Readers.{Refuses};
ghost use Rattle.rv_parse.specs.Got.{Got};
ghost use Rattle.rv_parse.specs.Openings.{Opens, opening_word, opening_parts, asked_word};
ghost use Rattle.rv_parse.specs.declared.command.Opening.TheVariants.{Let as LET, Drop as DROP, Snap as SNAP, At as AT, Load as LOAD, Save as SAVE};

use crate::block::block;
use crate::expr::expression;
use crate::halt::Halt;
use crate::leaf::{behind_all, next_file, next_name, next_sign, next_word};
use crate::rows::relation;
use lang_model::syntax::{Command, Expr};
use lang_model::token::{Keyword, Token};
use rv_tokens::Ending;
use std::alloc::Global;

/// The keywords that begin a command. 1 byte.
#[derive(Clone, Copy, Debug)]
pub enum Opening {
    Relation,
    Let,
    Print,
    List,
    Count,
    Type,
    Drop,
    Snap,
    At,
    Load,
    Save,
    Atomic,
    Explain,
}

/// The command that a keyword begins, if it does.
pub fn opening_of(keyword: Keyword) -> Option<Opening>
    ensures { MatchOption result (command_step keyword ≡ NotBegun) (Opens keyword) }
{
    match keyword {
        Keyword::Rel => Some(Opening::Relation),
        Keyword::Let => Some(Opening::Let),
        Keyword::Print => Some(Opening::Print),
        Keyword::List => Some(Opening::List),
        Keyword::Count => Some(Opening::Count),
        Keyword::Type => Some(Opening::Type),
        Keyword::Drop => Some(Opening::Drop),
        Keyword::Snap => Some(Opening::Snap),
        Keyword::At => Some(Opening::At),
        Keyword::Load => Some(Opening::Load),
        Keyword::Save => Some(Opening::Save),
        Keyword::Atomic => Some(Opening::Atomic),
        Keyword::Explain => Some(Opening::Explain),
        _ => None,
    }
}

/// An assignment, after LET.
fn assignment(alloc: Global, tokens: &[Token], end: Ending) -> Result<(Command, &[Token]), Halt>
    requires { length tokens.now < 2 ^ 32 }
    ensures { MatchResult result (λ x. Got (ending_of end) (opening_parts LET)
        (λ t r. (before : List TOKEN) → Takes (KEYWORD (opening_word LET)) before t → SpellsCommand x.0 before r)
        tokens.now x.1.now) (Refuses (ending_of end) (opening_parts LET) tokens.now) }
{
    let (name, _, rest) = next_name(alloc, tokens, end)?;
    let (_, rest) = next_sign(rest, end, b'=')?;
    let (value, rest) = expression(alloc, rest, end, 0)?;
    let command = Command::Let { name, value };
    Ok((command, rest))
}

/// A look at a snapshot, after AT.
fn look(alloc: Global, tokens: &[Token], end: Ending) -> Result<(Command, &[Token]), Halt>
    requires { length tokens.now < 2 ^ 32 }
    ensures { MatchResult result (λ x. Got (ending_of end) (opening_parts AT)
        (λ t r. (before : List TOKEN) → Takes (KEYWORD (opening_word AT)) before t → SpellsCommand x.0 before r)
        tokens.now x.1.now) (Refuses (ending_of end) (opening_parts AT) tokens.now) }
{
    let (name, at, rest) = next_name(alloc, tokens, end)?;
    let (_, rest) = next_word(rest, end, Keyword::Print)?;
    let (value, rest) = expression(alloc, rest, end, 0)?;
    let command = Command::At { at, name, value };
    Ok((command, rest))
}

/// After LOAD: a relation and its file, or a file all of whose relations are loaded.
fn loading(alloc: Global, tokens: &[Token], end: Ending) -> Result<(Command, &[Token]), Halt>
    ensures { MatchResult result (λ x. Got (ending_of end) (opening_parts LOAD)
        (λ t r. (before : List TOKEN) → Takes (KEYWORD (opening_word LOAD)) before t → SpellsCommand x.0 before r)
        tokens.now x.1.now) (Refuses (ending_of end) (opening_parts LOAD) tokens.now) }
{
    if let Some(rest) = behind_all(tokens) {
        let (file, rest) = next_file(alloc, rest, end)?;
        return Ok((Command::LoadAll { file }, rest));
    }
    let (name, _, rest) = next_name(alloc, tokens, end)?;
    let (file, rest) = next_file(alloc, rest, end)?;
    let command = Command::Load { name, file };
    Ok((command, rest))
}

/// After SAVE: a value, or all relations, and their file.
fn saving(alloc: Global, tokens: &[Token], end: Ending) -> Result<(Command, &[Token]), Halt>
    requires { length tokens.now < 2 ^ 32 }
    ensures { MatchResult result (λ x. Got (ending_of end) (opening_parts SAVE)
        (λ t r. (before : List TOKEN) → Takes (KEYWORD (opening_word SAVE)) before t → SpellsCommand x.0 before r)
        tokens.now x.1.now) (Refuses (ending_of end) (opening_parts SAVE) tokens.now) }
{
    if let Some(rest) = behind_all(tokens) {
        let (file, rest) = next_file(alloc, rest, end)?;
        return Ok((Command::SaveAll { file }, rest));
    }
    let (value, rest) = expression(alloc, tokens, end, 0)?;
    let (file, rest) = next_file(alloc, rest, end)?;
    let command = Command::Save { value, file };
    Ok((command, rest))
}

/// What a command does with a value. 1 byte.
#[derive(Clone, Copy)]
enum Asked {
    Print,
    List,
    Count,
    Type,
    Explain,
}

/// The command that does this with a value.
fn asking(asked: Asked, value: Expr) -> Command
    ensures { (before t r : List TOKEN) → Takes (KEYWORD (asked_word asked)) before t → Spelled OrLevel 0 value t r
        → SpellsCommand result before r }
{
    match asked {
        Asked::Print => Command::Print { value },
        Asked::List => Command::List { value },
        Asked::Count => Command::Count { value },
        Asked::Type => Command::Typed { value },
        Asked::Explain => Command::Explain { value },
    }
}

/// A value with which this is done, after the keyword.
fn asked_value(
    alloc: Global,
    asked: Asked,
    tokens: &[Token],
    end: Ending,
) -> Result<(Command, &[Token]), Halt>
    requires { length tokens.now < 2 ^ 32 }
    ensures { MatchResult result (λ x. Got (ending_of end) (ExprPart OrLevel 0 ∷ [])
        (λ t r. (before : List TOKEN) → Takes (KEYWORD (asked_word asked)) before t → SpellsCommand x.0 before r)
        tokens.now x.1.now) (Refuses (ending_of end) (ExprPart OrLevel 0 ∷ []) tokens.now) }
{
    let (value, rest) = expression(alloc, tokens, end, 0)?;
    let command = asking(asked, value);
    Ok((command, rest))
}

/// The name of a relation, after DROP.
fn removal(alloc: Global, tokens: &[Token], end: Ending) -> Result<(Command, &[Token]), Halt>
    ensures { MatchResult result (λ x. Got (ending_of end) (opening_parts DROP)
        (λ t r. (before : List TOKEN) → Takes (KEYWORD (opening_word DROP)) before t → SpellsCommand x.0 before r)
        tokens.now x.1.now) (Refuses (ending_of end) (opening_parts DROP) tokens.now) }
{
    let (name, at, rest) = next_name(alloc, tokens, end)?;
    Ok((Command::Remove { at, name }, rest))
}

/// The name of a snapshot, after SNAP.
fn snapshot(alloc: Global, tokens: &[Token], end: Ending) -> Result<(Command, &[Token]), Halt>
    ensures { MatchResult result (λ x. Got (ending_of end) (opening_parts SNAP)
        (λ t r. (before : List TOKEN) → Takes (KEYWORD (opening_word SNAP)) before t → SpellsCommand x.0 before r)
        tokens.now x.1.now) (Refuses (ending_of end) (opening_parts SNAP) tokens.now) }
{
    let (name, _, rest) = next_name(alloc, tokens, end)?;
    Ok((Command::Snap { name }, rest))
}

/// The command, after its keyword.
pub fn command(
    alloc: Global,
    opening: Opening,
    tokens: &[Token],
    end: Ending,
) -> Result<(Command, &[Token]), Halt>
    requires { length tokens.now < 2 ^ 32 }
    ensures { MatchResult result (λ x. Got (ending_of end) (opening_parts opening)
        (λ t r. (before : List TOKEN) → Takes (KEYWORD (opening_word opening)) before t → SpellsCommand x.0 before r)
        tokens.now x.1.now) (Refuses (ending_of end) (opening_parts opening) tokens.now) }
{
    match opening {
        Opening::Relation => relation(alloc, tokens, end),
        Opening::Let => assignment(alloc, tokens, end),
        Opening::Print => asked_value(alloc, Asked::Print, tokens, end),
        Opening::List => asked_value(alloc, Asked::List, tokens, end),
        Opening::Count => asked_value(alloc, Asked::Count, tokens, end),
        Opening::Type => asked_value(alloc, Asked::Type, tokens, end),
        Opening::Drop => removal(alloc, tokens, end),
        Opening::Snap => snapshot(alloc, tokens, end),
        Opening::At => look(alloc, tokens, end),
        Opening::Load => loading(alloc, tokens, end),
        Opening::Save => saving(alloc, tokens, end),
        Opening::Atomic => block(alloc, tokens, end),
        Opening::Explain => asked_value(alloc, Asked::Explain, tokens, end),
    }
}
