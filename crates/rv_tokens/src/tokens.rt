//! The token at the front of some bytes, and the place after it.
ghost use Rattle.std.specs.Prelude.{◌≡◌, ◌<◌, ◌≤◌, ◌+◌, ◌*◌, ◌^◌, OnSome, IfOk, IfErr, length, option_map};
ghost use Rattle.std.specs.Option.{SomeIff};
ghost use Rattle.lang_model.specs.Limits.{name_limit};
ghost use Rattle.lang_model.specs.Tokens.{begins_with_quote, run_length, is_word_byte, value_from, behind, behind_all, word_kind, domain_operator_at, file_at, kind_at};
ghost use Rattle.rv_tokens.specs.Lexing.{kind_of, word_at, number_at, Finds};
ghost use Rattle.rv_tokens.specs.declared.refusals.Refusal.TheVariants.{NoMemory, Unfit};

use crate::bytes::{Class, is_digit, is_letter, is_sign, run};
use crate::refusals::Refusal;
use crate::words::{Reserved, domain_operator, reserved_word};
use lang_model::limits::{FILE_TEXT_LIMIT, NAME_LIMIT};
use lang_model::syntax::{FileText, Name, Place};
use lang_model::token::Kind;
use std::alloc::Global;

/// The value of digits, if it is below 2 ^ 64.
#[tactic(auto, using(crate::proofs::Lexing::too_large))]
fn number(digits: &[u8]) -> Option<u64>
    ensures { SomeIff result (value_from 0 digits.now < 2 ^ 64) (value_from 0 digits.now) }
{
    let mut value: u64 = 0;
    'each: for d in digits {
        let digit = u64::from(d.saturating_sub(48));
        let Some(next) = next_value(value, digit) else {
            return None;
        };
        value = next;
    }
    Some(value)
}

/// The value with one more digit, if it is below 2 ^ 64.
fn next_value(value: u64, digit: u64) -> Option<u64>
    ensures { SomeIff result (10 * value + digit < 2 ^ 64) (10 * value + digit) }
{
    match value.checked_mul(10) {
        Some(tenfold) => tenfold.checked_add(digit),
        None => None,
    }
}

/// The place after a byte.
#[tactic(auto, unfolding(lang_model::specs::Tokens::behind))]
pub fn step(at: Place, b: u8) -> Place
    requires line { at.line + 1 < 2 ^ 32 }
    requires column { at.column + 1 < 2 ^ 32 }
    ensures place { result ≡ behind b at }
    ensures line { result.line ≤ at.line + 1 }
    ensures column { result.column ≤ at.column + 1 }
{
    if b == 10 {
        Place {
            line: at.line + 1,
            column: 1,
        }
    } else {
        Place {
            line: at.line,
            column: at.column + 1,
        }
    }
}

/// The place after `n` bytes.
pub fn advance(at: Place, bytes: &[u8], n: usize) -> Place
    requires within { n ≤ length bytes.now }
    requires line { at.line + n < 2 ^ 32 }
    requires column { at.column + n < 2 ^ 32 }
    ensures place { result ≡ behind_all n at bytes.now }
    ensures line { result.line ≤ at.line + n }
    ensures column { result.column ≤ at.column + n }
{
    let mut place = at;
    'each: for k in 0..n {
        place = step(place, bytes[k]);
    }
    place
}

/// The kind of a word: a keyword, a base name or a name.
#[tactic(auto, unfolding(lang_model::specs::Tokens::word_kind))]
fn word_kind(alloc: Global, word: &[u8]) -> Result<Kind, Refusal>
    requires { (1 ≤ length word.now) × (length word.now ≤ name_limit) }
    ensures kind { IfOk result (λ kind. kind ≡ word_kind word.now) }
    ensures memory { IfErr result (λ e. e ≡ NoMemory) }
{
    match reserved_word(word) {
        Some(meaning) => Ok(kind_of(meaning)),
        None => Ok(Kind::Word(Name::new(alloc, word)?)),
    }
}

/// The domain operator at the front, if there is one.
fn domain_operator_at(bytes: &[u8]) -> Option<Reserved>
    ensures value { option_map kind_of result ≡ domain_operator_at bytes.now }
    ensures within { OnSome result (3 ≤ length bytes.now) }
{
    if bytes.len() < 3 {
        return None;
    }
    if run(Class::Word, &bytes[3..]) != 0 {
        return None;
    }
    domain_operator(&bytes[..3])
}

/// The word at the front, and how many bytes it has.
fn word_at(alloc: Global, bytes: &[u8]) -> Result<(Kind, usize), Refusal>
    requires { 1 ≤ run_length is_word_byte bytes.now }
    ensures within { IfOk result (λ x. (1 ≤ x.1) × (x.1 ≤ length bytes.now)) }
    ensures kind { Finds (word_at bytes.now) result }
{
    let count = run(Class::Word, bytes);
    if count > NAME_LIMIT {
        return Err(Refusal::Unfit);
    }
    match word_kind(alloc, &bytes[..count]) {
        Ok(kind) => Ok((kind, count)),
        Err(_) => Err(Refusal::NoMemory),
    }
}

/// The number at the front, and how many bytes it has.
fn number_at(bytes: &[u8]) -> Result<(Kind, usize), Refusal>
    ensures within { IfOk result (λ x. x.1 ≤ length bytes.now) }
    ensures kind { Finds (number_at bytes.now) result }
    ensures memory { IfErr result (λ e. e ≡ Unfit) }
{
    let count = run(Class::Digit, bytes);
    match number(&bytes[..count]) {
        Some(value) => Ok((Kind::Number(value), count)),
        None => Err(Refusal::Unfit),
    }
}

/// The file text whose first quote these bytes follow, and how many bytes it has with both quotes.
#[tactic(auto, unfolding(lang_model::specs::Tokens::file_at))]
fn file_at(alloc: Global, bytes: &[u8]) -> Result<(Kind, usize), Refusal>
    ensures within { IfOk result (λ x. (1 ≤ x.1) × (x.1 ≤ length bytes.now + 1)) }
    ensures kind { Finds (file_at bytes.now) result }
{
    let count = run(Class::File, bytes);
    if count < 1 || FILE_TEXT_LIMIT < count {
        return Err(Refusal::Unfit);
    }
    if !begins_with_quote(&bytes[count..]) {
        return Err(Refusal::Unfit);
    }
    let text = FileText::new(alloc, &bytes[..count])?;
    Ok((Kind::File(text), count + 2))
}

/// Whether the first byte is a quote.
fn begins_with_quote(bytes: &[u8]) -> bool
    ensures { result ≡ begins_with_quote bytes.now }
{
    match bytes {
        [first, ..] => *first == 34,
        [] => false,
    }
}

/// The token at the front, and how many bytes it has.
pub fn kind_at(alloc: Global, bytes: &[u8]) -> Result<(Kind, usize), Refusal>
    requires { 0 < length bytes.now }
    ensures within { IfOk result (λ x. (1 ≤ x.1) × (x.1 ≤ length bytes.now)) }
    ensures kind { Finds (kind_at bytes.now) result }
{
    let first = bytes[0];
    if is_letter(first) {
        return match domain_operator_at(bytes) {
            Some(meaning) => Ok((kind_of(meaning), 3)),
            None => word_at(alloc, bytes),
        };
    }
    if is_digit(first) {
        return number_at(bytes);
    }
    if first == 34 {
        return file_at(alloc, &bytes[1..]);
    }
    if is_sign(first) {
        return Ok((Kind::Sign(first), 1));
    }
    Err(Refusal::Unfit)
}

/// The token for a reserved word.
fn kind_of(meaning: Reserved) -> Kind
    ensures { result ≡ kind_of meaning }
{
    match meaning {
        Reserved::Keyword(keyword) => Kind::Keyword(keyword),
        Reserved::Base(base) => Kind::Base(base),
    }
}
