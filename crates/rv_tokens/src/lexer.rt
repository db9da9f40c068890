//! Splits a text into tokens, up to its end or to the first byte, number, word or file text that is not a token.
ghost use Rattle.std.specs.Prelude.{◌≡◌, ◌<◌, ◌≤◌, ◌+◌, ◌^◌, ◌∷◌, [], length, drop, get_or, IfOk};
ghost use Rattle.lang_model.specs.Limits.{script_limit};
ghost use Rattle.lang_model.specs.Lexed.{file_fault, text_fault, token_fault, lexed_of};
ghost use Rattle.rv_tokens.specs.Endings.{flaw_fault, ending_of};
ghost use Rattle.rv_tokens.specs.LexerAnswers.{Lexes};

use crate::bytes::{Class, is_allowed, is_blank, is_digit, is_letter, run};
use crate::ending::{Ending, Flaw};
use crate::refusals::Refusal;
use crate::tokens::{advance, kind_at, step};
use lang_model::limits::FILE_TEXT_LIMIT;
use lang_model::syntax::Place;
use lang_model::token::{Kind, Token};
use rel_model::NoMemory;
use std::alloc::Global;

/// What a text begins with.
#[derive(Drop)]
enum Lexeme {
    /// A number of bytes that are blank or a comment.
    Blank(usize),
    /// A token with a number of bytes.
    Token(Kind, usize),
    /// No token.
    Broken(Flaw),
}

/// Why a file text is not valid, given the place of its first quote and the bytes after it.
#[tactic(auto, unfolding(lang_model::specs::Lexed::file_fault))]
fn text_flaw(quote: Place, bytes: &[u8]) -> Flaw
    requires line { quote.line + 1 + length bytes.now < 2 ^ 32 }
    requires column { quote.column + 1 + length bytes.now < 2 ^ 32 }
    ensures { flaw_fault result ≡ file_fault quote bytes.now }
{
    let count = run(Class::File, bytes);
    if FILE_TEXT_LIMIT < count {
        return Flaw::NameTooLong { at: quote };
    }
    let at = advance(step(quote, 34), bytes, count);
    match &bytes[count..] {
        [] => Flaw::Unclosed { at },
        [next, ..] => stopped_text(quote, at, *next),
    }
}

/// Why a file text is not valid, given the place of its first quote, and the byte after its own bytes with its place.
fn stopped_text(quote: Place, at: Place, next: u8) -> Flaw
    ensures { flaw_fault result ≡ text_fault quote at (next ∷ []) }
{
    if next == 34 {
        Flaw::EmptyText { at: quote }
    } else if is_allowed(next) {
        Flaw::Unclosed { at }
    } else {
        Flaw::Byte { at, byte: next }
    }
}

/// Why the first byte begins no token.
#[tactic(auto, unfolding(lang_model::specs::Lexed::token_fault))]
fn flaw(at: Place, bytes: &[u8]) -> Flaw
    requires first { 0 < length bytes.now }
    requires line { at.line + length bytes.now < 2 ^ 32 }
    requires column { at.column + length bytes.now < 2 ^ 32 }
    ensures { flaw_fault result ≡ token_fault at (get_or bytes.now 0 0) (drop 1 bytes.now) }
{
    let byte = bytes[0];
    if is_letter(byte) {
        return Flaw::NameTooLong { at };
    }
    if is_digit(byte) {
        return Flaw::NumberTooLarge { at };
    }
    if byte == 34 {
        return text_flaw(at, &bytes[1..]);
    }
    Flaw::Byte { at, byte }
}

/// The blank, comment, token or flaw at the front.
fn next_lexeme(alloc: Global, at: Place, bytes: &[u8]) -> Result<Lexeme, NoMemory>
    requires first { 0 < length bytes.now }
    requires line { at.line + length bytes.now < 2 ^ 32 }
    requires column { at.column + length bytes.now < 2 ^ 32 }
    ensures { IfOk result (Lexes at bytes.now) }
{
    let first = bytes[0];
    if is_blank(first) {
        return Ok(Lexeme::Blank(1));
    }
    if first == 35 {
        let count = run(Class::Comment, &bytes[1..]);
        return Ok(Lexeme::Blank(count + 1));
    }
    match kind_at(alloc, bytes) {
        Ok((kind, count)) => Ok(Lexeme::Token(kind, count)),
        Err(Refusal::Unfit) => Ok(Lexeme::Broken(flaw(at, bytes))),
        Err(Refusal::NoMemory) => Err(NoMemory),
    }
}

/// The tokens of a text up to its end or its first flaw.
pub fn lexed(alloc: Global, bytes: &[u8]) -> Result<(Vec<Token>, Ending), NoMemory>
    requires { length bytes.now ≤ script_limit }
    ensures { IfOk result (λ x. (lexed_of bytes.now ≡ record { tokens = x.0.items; ending = ending_of x.1 })
        × (length x.0.items ≤ length bytes.now)) }
{
    let mut out = Vec::new(alloc);
    let mut at = Place { line: 1, column: 1 };
    let mut i = 0;
    'each: while i < bytes.len() {
        let rest = &bytes[i..];
        match next_lexeme(alloc, at, rest)? {
            Lexeme::Blank(count) => {
                at = advance(at, rest, count);
                i += count;
            }
            Lexeme::Token(kind, count) => {
                out.push(Token { at, kind })?;
                at = advance(at, rest, count);
                i += count;
            }
            Lexeme::Broken(flaw) => return Ok((out, Ending::Broken(flaw))),
        }
    }
    Ok((out, Ending::At(at)))
}
