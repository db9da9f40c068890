//! Scripts of the whole language.
ghost use Rattle.std.specs.Prelude.{◌≡◌, ◌<◌, ◌≤◌, ◌^◌, ◌∷◌, [], length, MatchResult, MatchOption, IfOk, IfErr, false};
ghost use Rattle.lang_model.specs.Limits.{name_limit, script_limit};
ghost use Rattle.lang_model.specs.Taken.{TakesAt, Takes};
ghost use Rattle.lang_model.specs.declared.token.Kind.TheVariants.{Keyword as KEYWORD, Word};
ghost use Rattle.rv_parse.specs.Openings.{opening_word};
ghost use Rattle.lang_model.specs.Lexed.{EndsAt};
ghost use Rattle.lang_model.specs.Spelling.{SpellsItems, Spells, SpelledBy};
ghost use Rattle.lang_model.specs.Stop.{ItemsPart, stop_of, written};
ghost use Rattle.lang_model.specs.declared.faults.ParseFault.TheVariants.{NoMemory as NO_MEMORY};
ghost use Rattle.lang_model.specs.declared.syntax.Place.{Place as PLACE};
ghost use Rattle.rv_parse.specs.declared.halt.Halt.TheVariants.{Broken as BROKEN};
ghost use Rattle.rv_parse.specs.Halts.{what};
ghost use Rattle.rv_tokens.specs.Endings.{ending_of};
ghost use Rattle.rv_parse.specs.Got.{RefusesItems};
ghost use Rattle.rv_parse.specs.Items.{ItemIs, ItemEnds, NoCommand, begins_name};
ghost use Rattle.rv_parse.specs.Stops.{StopsAt, IsFaultOf, IsToken, TakesMemory};

use crate::command::{Opening, command, opening_of};
use crate::def::definition;
use crate::halt::{Halt, Wanted};
use crate::leaf::{missing, with_sign};
use lang_model::faults::{ParseFault, What};
use lang_model::syntax::{Item, Name, Place, Script};
use lang_model::token::{Keyword, Kind, Token};
use rel_model::NoMemory;
use rv_tokens::{Ending, Flaw, lexed};
use std::alloc::Global;

/// The name at the front, if the first token is one.
fn first_name(tokens: &[Token]) -> Option<(&Name, Place, &[Token])>
    ensures { MatchOption result (begins_name tokens.now ≡ false) (λ x. TakesAt x.1 (Word x.0.now) tokens.now x.2.now) }
{
    let [first, rest @ ..] = tokens else {
        return None;
    };
    match &first.kind {
        Kind::Word(name) => Some((name, first.at, rest)),
        _ => None,
    }
}

/// The keyword of a command at the front, if the first token is one.
fn first_opening(tokens: &[Token]) -> Option<(Opening, &[Token])>
    ensures { MatchOption result (NoCommand tokens.now) (λ x. Takes (KEYWORD (opening_word x.0)) tokens.now x.1.now) }
{
    let [first, rest @ ..] = tokens else {
        return None;
    };
    match &first.kind {
        Kind::Keyword(keyword) => match opening_of(*keyword) {
            Some(opening) => Some((opening, rest)),
            None => None,
        },
        _ => None,
    }
}

/// An item, up to its full stop.
#[tactic(auto, using(crate::proofs::Scripting::no_item))]
fn next_item(alloc: Global, tokens: &[Token], end: Ending) -> Result<(Item, &[Token]), Halt>
    requires first { 0 < length tokens.now }
    requires count { length tokens.now < 2 ^ 32 }
    ensures { MatchResult result (λ x. ItemIs (ending_of end) x.0 tokens.now x.1.now)
        (RefusesItems (ending_of end) tokens.now) }
{
    if let Some((name, at, behind)) = first_name(tokens) {
        let (item, rest) = definition(alloc, name, at, behind, end)?;
        return Ok((item, rest));
    }
    if let Some((opening, behind)) = first_opening(tokens) {
        let (command, rest) = command(alloc, opening, behind, end)?;
        return Ok((Item::Command(command), rest));
    }
    Err(missing(tokens, end, Wanted::Item))
}

/// An item with its full stop.
fn whole_item(alloc: Global, tokens: &[Token], end: Ending) -> Result<(Item, &[Token]), Halt>
    requires first { 0 < length tokens.now }
    requires count { length tokens.now < 2 ^ 32 }
    ensures { MatchResult result (λ x. ItemEnds (ending_of end) x.0 tokens.now x.1.now)
        (RefusesItems (ending_of end) tokens.now) }
{
    let (item, rest) = next_item(alloc, tokens, end)?;
    let (item, rest) = with_sign(item, rest, end, b'.')?;
    Ok((item, rest))
}

/// All items.
fn items(alloc: Global, tokens: &[Token], end: Ending) -> Result<Vec<Item>, Halt>
    requires { length tokens.now < 2 ^ 32 }
    ensures { MatchResult result (λ v. SpellsItems v.items tokens.now []
        × (stop_of (ItemsPart ∷ []) tokens.now (ending_of end) ≡ stop_of (ItemsPart ∷ []) [] (ending_of end)))
        (RefusesItems (ending_of end) tokens.now) }
{
    let mut items = Vec::new(alloc);
    let mut rest = tokens;
    'each: while rest.len() > 0 {
        let (item, behind) = whole_item(alloc, rest, end)?;
        items.push(item)?;
        rest = behind;
    }
    Ok(items)
}

/// The script that the tokens spell up to the end of the text.
fn script_of(alloc: Global, tokens: &[Token], end: Ending) -> Result<Script, Halt>
    requires { length tokens.now < 2 ^ 32 }
    ensures { MatchResult result (λ script. Spells script tokens.now
        × ((place : PLACE) × (ending_of end ≡ EndsAt place))) (RefusesItems (ending_of end) tokens.now) }
{
    let items = items(alloc, tokens, end)?;
    match end {
        Ending::At(_) => Ok(Script { items }),
        Ending::Broken(flaw) => Err(Halt::Broken(flaw)),
    }
}

/// How a keyword is written.
fn written(keyword: Keyword) -> &'static [u8]
    ensures { (result.now ≡ written keyword) × (1 ≤ length result.now) × (length result.now ≤ name_limit) }
{
    match keyword {
        Keyword::Rel => b"REL",
        Keyword::Let => b"LET",
        Keyword::Print => b"PRINT",
        Keyword::List => b"LIST",
        Keyword::Count => b"COUNT",
        Keyword::Type => b"TYPE",
        Keyword::Drop => b"DROP",
        Keyword::Snap => b"SNAP",
        Keyword::At => b"AT",
        Keyword::Load => b"LOAD",
        Keyword::Save => b"SAVE",
        Keyword::Decl => b"DECL",
        Keyword::Prod => b"PROD",
        Keyword::Sum => b"SUM",
        Keyword::Beg => b"BEG",
        Keyword::End => b"END",
        Keyword::Return => b"RETURN",
        Keyword::While => b"WHILE",
        Keyword::Do => b"DO",
        Keyword::Od => b"OD",
        Keyword::If => b"IF",
        Keyword::Then => b"THEN",
        Keyword::Else => b"ELSE",
        Keyword::Fi => b"FI",
        Keyword::All => b"ALL",
        Keyword::Atomic => b"ATOMIC",
        Keyword::Commit => b"COMMIT",
        Keyword::Explain => b"EXPLAIN",
    }
}

/// How what is expected is reported.
fn what_of(alloc: Global, wanted: Wanted) -> Result<What, NoMemory>
    ensures word { IfOk result (λ w. w ≡ what wanted) }
    ensures memory { IfErr result (λ e. IsToken wanted) }
{
    match wanted {
        Wanted::Item => Ok(What::Item),
        Wanted::Expression => Ok(What::Expression),
        Wanted::Name => Ok(What::Name),
        Wanted::Number => Ok(What::Number),
        Wanted::FromOne => Ok(What::NumberFromOne),
        Wanted::File => Ok(What::FileText),
        Wanted::Sign(sign) => Ok(What::Token(Name::new(alloc, &[sign])?)),
        Wanted::Word(keyword) => Ok(What::Token(Name::new(alloc, written(keyword))?)),
    }
}

/// The fault for a flaw of a token.
fn flaw_fault(alloc: Global, flaw: Flaw) -> ParseFault
    ensures fault { IsFaultOf (BROKEN flaw) result }
    ensures memory { result ≡ NO_MEMORY → TakesMemory (BROKEN flaw) }
{
    match flaw {
        Flaw::Byte { at, byte } => ParseFault::Byte { at, byte },
        Flaw::NumberTooLarge { at } => ParseFault::NumberTooLarge { at },
        Flaw::NameTooLong { at } => ParseFault::NameTooLong { at },
        Flaw::Unclosed { at } => match what_of(alloc, Wanted::Sign(b'"')) {
            Ok(what) => ParseFault::Expected { at, what },
            Err(_) => ParseFault::NoMemory,
        },
        Flaw::EmptyText { at } => ParseFault::Expected {
            at,
            what: What::FileText,
        },
    }
}

/// The fault that ended the parse.
fn fault_of(alloc: Global, halt: Halt) -> ParseFault
    ensures fault { IsFaultOf halt result }
    ensures memory { result ≡ NO_MEMORY → TakesMemory halt }
{
    match halt {
        Halt::Expected { at, wanted } => match what_of(alloc, wanted) {
            Ok(what) => ParseFault::Expected { at, what },
            Err(_) => ParseFault::NoMemory,
        },
        Halt::TooDeep { at } => ParseFault::TooDeep { at },
        Halt::Broken(flaw) => flaw_fault(alloc, flaw),
        Halt::NoMemory => ParseFault::NoMemory,
    }
}

/// The script that the bytes spell, or the first fault of the text.
///
/// The text is read token by token. The fault is the first of these: a byte, number, word or file text that is not a
/// token; a token, or the end, that does not fit what has to come; a token that raises the nesting to 41. At one token,
/// a fault of the first kind comes before the others, and a token that does not fit comes before one that nests too
/// deeply. Time and memory are linear in the length of the text, and the recursion is as deep as the nesting.
pub fn parse(alloc: Global, bytes: &[u8]) -> Result<Script, ParseFault>
    requires { length bytes.now ≤ script_limit }
    ensures spelled { IfOk result (SpelledBy bytes.now) }
    ensures fault { IfErr result (StopsAt bytes.now) }
{
    match lexed(alloc, bytes) {
        Ok((tokens, end)) => match script_of(alloc, tokens.as_slice(), end) {
            Ok(script) => Ok(script),
            Err(halt) => Err(fault_of(alloc, halt)),
        },
        Err(_) => Err(ParseFault::NoMemory),
    }
}
