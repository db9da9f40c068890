//! The first token, read as one part of the grammar, or the fault if it is not that part.
ghost use Rattle.std.specs.Prelude.{◌≡◌, ◌≤◌, ◌<◌, ◌∷◌, [], true, false, IfErr, MatchResult, MatchOption};
ghost use Rattle.lang_model.specs.Taken.{TakesAt, Takes};
ghost use Rattle.lang_model.specs.Limits.{nesting_limit};
ghost use Rattle.lang_model.specs.Stop.{NamePart, NumberPart, FromOne, FilePart, SignPart, WordPart, OpenPart, number_of};
ghost use Rattle.lang_model.specs.declared.token.Kind.TheVariants.{Keyword as KEYWORD, Word, Number, File, Sign};
ghost use Rattle.rv_parse.specs.Halts.{what, missing, fault_of};
ghost use Rattle.rv_tokens.specs.Endings.{ending_of};
ghost use Rattle.rv_parse.specs.declared.halt.Halt.TheVariants.{NoMemory};
ghost use Rattle.rv_parse.specs.Readers.{Reads, Refuses, TakesAll, WantsOne, begins, begins_word, begins_file};
ghost use Rattle.rv_parse.specs.Items.{begins_name};

use crate::halt::{Halt, Wanted};
use lang_model::limits::NESTING_LIMIT;
use lang_model::syntax::{FileText, Name, Place};
use lang_model::token::{Keyword, Kind, Token};
use rv_tokens::Ending;
use std::alloc::Global;

/// Something else is expected in place of the first token, or of the end.
pub fn missing(tokens: &[Token], end: Ending, wanted: Wanted) -> Halt
    ensures fault { fault_of result ≡ missing (what wanted) tokens.now (ending_of end) }
    ensures memory { result ≡ NoMemory → ⊥ }
{
    match tokens {
        [first, ..] => Halt::Expected {
            at: first.at,
            wanted,
        },
        [] => match end {
            Ending::At(at) => Halt::Expected { at, wanted },
            Ending::Broken(flaw) => Halt::Broken(flaw),
        },
    }
}

/// What follows this sign, if it is the first token.
pub fn behind_sign(tokens: &[Token], byte: u8) -> Option<(Place, &[Token])>
    ensures { MatchOption result (begins byte tokens.now ≡ false) (λ x. TakesAt x.0 (Sign byte) tokens.now x.1.now) }
{
    let [first, rest @ ..] = tokens else {
        return None;
    };
    match &first.kind {
        Kind::Sign(sign) => {
            if *sign == byte {
                Some((first.at, rest))
            } else {
                None
            }
        }
        _ => None,
    }
}

/// This sign, which must come.
#[tactic(auto, using(crate::proofs::Leaves::reads_sign, crate::proofs::Leaves::no_sign))]
pub fn next_sign(tokens: &[Token], end: Ending, byte: u8) -> Result<(Place, &[Token]), Halt>
    ensures read { MatchResult result (λ x. TakesAt x.0 (Sign byte) tokens.now x.1.now
        × Reads (ending_of end) (SignPart byte ∷ []) tokens.now x.1.now)
        (Refuses (ending_of end) (SignPart byte ∷ []) tokens.now) }
    ensures memory { IfErr result (λ halt. halt ≡ NoMemory → ⊥) }
{
    match behind_sign(tokens, byte) {
        Some(found) => Ok(found),
        None => Err(missing(tokens, end, Wanted::Sign(byte))),
    }
}

/// What was read, if this sign follows it.
pub fn with_sign<T: Drop>(
    found: T,
    tokens: &[Token],
    end: Ending,
    byte: u8,
) -> Result<(T, &[Token]), Halt>
    ensures { MatchResult result (λ x. (x.0 ≡ found) × Takes (Sign byte) tokens.now x.1.now
        × Reads (ending_of end) (SignPart byte ∷ []) tokens.now x.1.now)
        (Refuses (ending_of end) (SignPart byte ∷ []) tokens.now) }
{
    let (_, rest) = next_sign(tokens, end, byte)?;
    Ok((found, rest))
}

/// The number of a keyword, in their order.
fn number_of(keyword: Keyword) -> u8
    ensures { result ≡ number_of keyword }
{
    match keyword {
        Keyword::Rel => 0,
        Keyword::Let => 1,
        Keyword::Print => 2,
        Keyword::List => 3,
        Keyword::Count => 4,
        Keyword::Type => 5,
        Keyword::Drop => 6,
        Keyword::Snap => 7,
        Keyword::At => 8,
        Keyword::Load => 9,
        Keyword::Save => 10,
        Keyword::Decl => 11,
        Keyword::Prod => 12,
        Keyword::Sum => 13,
        Keyword::Beg => 14,
        Keyword::End => 15,
        Keyword::Return => 16,
        Keyword::While => 17,
        Keyword::Do => 18,
        Keyword::Od => 19,
        Keyword::If => 20,
        Keyword::Then => 21,
        Keyword::Else => 22,
        Keyword::Fi => 23,
        Keyword::All => 24,
        Keyword::Atomic => 25,
        Keyword::Commit => 26,
        Keyword::Explain => 27,
    }
}

/// What follows this keyword, if it is the first token.
#[tactic(auto, using(crate::proofs::Leaves::one_number))]
pub fn behind_word(tokens: &[Token], keyword: Keyword) -> Option<(Place, &[Token])>
    ensures { MatchOption result (begins_word keyword tokens.now ≡ false)
        (λ x. TakesAt x.0 (KEYWORD keyword) tokens.now x.1.now) }
{
    let [first, rest @ ..] = tokens else {
        return None;
    };
    match &first.kind {
        Kind::Keyword(found) => {
            if number_of(*found) == number_of(keyword) {
                Some((first.at, rest))
            } else {
                None
            }
        }
        _ => None,
    }
}

/// What follows ALL, if it is the first token; if not, a name or an expression must come.
#[tactic(auto, using(crate::proofs::AllOrOne::takes_all, crate::proofs::AllOrOne::wants_one))]
pub fn behind_all(tokens: &[Token]) -> Option<&[Token]>
    ensures { MatchOption result (WantsOne tokens.now) (λ rest. TakesAll tokens.now rest.now) }
{
    match behind_word(tokens, Keyword::All) {
        Some((_, rest)) => Some(rest),
        None => None,
    }
}

/// This keyword, which must come.
#[tactic(auto, using(crate::proofs::Leaves::reads_word, crate::proofs::Leaves::no_word))]
pub fn next_word(tokens: &[Token], end: Ending, keyword: Keyword) -> Result<(Place, &[Token]), Halt>
    ensures read { MatchResult result (λ x. TakesAt x.0 (KEYWORD keyword) tokens.now x.1.now
        × Reads (ending_of end) (WordPart keyword ∷ []) tokens.now x.1.now)
        (Refuses (ending_of end) (WordPart keyword ∷ []) tokens.now) }
    ensures memory { IfErr result (λ halt. halt ≡ NoMemory → ⊥) }
{
    match behind_word(tokens, keyword) {
        Some(found) => Ok(found),
        None => Err(missing(tokens, end, Wanted::Word(keyword))),
    }
}

/// What was read, if this keyword follows it.
pub fn with_word<T: Drop>(
    found: T,
    tokens: &[Token],
    end: Ending,
    keyword: Keyword,
) -> Result<(T, &[Token]), Halt>
    ensures { MatchResult result (λ x. (x.0 ≡ found) × Takes (KEYWORD keyword) tokens.now x.1.now
        × Reads (ending_of end) (WordPart keyword ∷ []) tokens.now x.1.now)
        (Refuses (ending_of end) (WordPart keyword ∷ []) tokens.now) }
{
    let (_, rest) = next_word(tokens, end, keyword)?;
    Ok((found, rest))
}

/// A name, which must come. Its copy takes memory.
pub fn next_name(
    alloc: Global,
    tokens: &[Token],
    end: Ending,
) -> Result<(Name, Place, &[Token]), Halt>
    ensures read { MatchResult result (λ x. TakesAt x.1 (Word x.0) tokens.now x.2.now
        × Reads (ending_of end) (NamePart ∷ []) tokens.now x.2.now)
        (Refuses (ending_of end) (NamePart ∷ []) tokens.now) }
    ensures memory { IfErr result (λ halt. halt ≡ NoMemory → begins_name tokens.now ≡ true) }
{
    let [first, rest @ ..] = tokens else {
        return Err(missing(tokens, end, Wanted::Name));
    };
    match &first.kind {
        Kind::Word(name) => match name.copied(alloc) {
            Ok(copy) => Ok((copy, first.at, rest)),
            Err(_) => Err(Halt::NoMemory),
        },
        _ => Err(missing(tokens, end, Wanted::Name)),
    }
}

/// A number, which must come.
pub fn next_number(tokens: &[Token], end: Ending) -> Result<(u64, Place, &[Token]), Halt>
    ensures read { MatchResult result (λ x. TakesAt x.1 (Number x.0) tokens.now x.2.now
        × Reads (ending_of end) (NumberPart ∷ []) tokens.now x.2.now)
        (Refuses (ending_of end) (NumberPart ∷ []) tokens.now) }
    ensures memory { IfErr result (λ halt. halt ≡ NoMemory → ⊥) }
{
    let [first, rest @ ..] = tokens else {
        return Err(missing(tokens, end, Wanted::Number));
    };
    match &first.kind {
        Kind::Number(number) => Ok((*number, first.at, rest)),
        _ => Err(missing(tokens, end, Wanted::Number)),
    }
}

/// A number that is at least 1, which must come.
pub fn next_from_one(tokens: &[Token], end: Ending) -> Result<(u64, Place, &[Token]), Halt>
    ensures read { MatchResult result (λ x. TakesAt x.1 (Number x.0) tokens.now x.2.now × (1 ≤ x.0)
        × Reads (ending_of end) (FromOne ∷ []) tokens.now x.2.now)
        (Refuses (ending_of end) (FromOne ∷ []) tokens.now) }
    ensures memory { IfErr result (λ halt. halt ≡ NoMemory → ⊥) }
{
    let [first, rest @ ..] = tokens else {
        return Err(missing(tokens, end, Wanted::Number));
    };
    match &first.kind {
        Kind::Number(number) => {
            if *number == 0 {
                return Err(missing(tokens, end, Wanted::FromOne));
            }
            Ok((*number, first.at, rest))
        }
        _ => Err(missing(tokens, end, Wanted::Number)),
    }
}

/// A file text, which must come. Its copy takes memory.
pub fn next_file(alloc: Global, tokens: &[Token], end: Ending) -> Result<(FileText, &[Token]), Halt>
    ensures read { MatchResult result (λ x. Takes (File x.0) tokens.now x.1.now
        × Reads (ending_of end) (FilePart ∷ []) tokens.now x.1.now)
        (Refuses (ending_of end) (FilePart ∷ []) tokens.now) }
    ensures memory { IfErr result (λ halt. halt ≡ NoMemory → begins_file tokens.now ≡ true) }
{
    let [first, rest @ ..] = tokens else {
        return Err(missing(tokens, end, Wanted::File));
    };
    match &first.kind {
        Kind::File(text) => match text.copied(alloc) {
            Ok(copy) => Ok((copy, rest)),
            Err(_) => Err(Halt::NoMemory),
        },
        _ => Err(missing(tokens, end, Wanted::File)),
    }
}

/// The parenthesis that opens one more construct, given how many are open.
#[tactic(auto, using(crate::proofs::Leaves::no_open, crate::proofs::Leaves::opens, crate::proofs::Leaves::opens_too_deep))]
pub fn open(tokens: &[Token], end: Ending, depth: u32) -> Result<(Place, &[Token]), Halt>
    ensures read { MatchResult result (λ x. TakesAt x.0 (Sign 40) tokens.now x.1.now × (depth < nesting_limit)
        × Reads (ending_of end) (OpenPart depth ∷ []) tokens.now x.1.now)
        (Refuses (ending_of end) (OpenPart depth ∷ []) tokens.now) }
    ensures memory { IfErr result (λ halt. halt ≡ NoMemory → ⊥) }
{
    let Some((at, rest)) = behind_sign(tokens, b'(') else {
        return Err(missing(tokens, end, Wanted::Sign(b'(')));
    };
    if depth >= NESTING_LIMIT {
        return Err(Halt::TooDeep { at });
    }
    Ok((at, rest))
}
