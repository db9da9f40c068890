//! What `parse` refuses, as a line of text.
use lang_model::faults::{ParseFault, What};
use lang_model::limits::SCRIPT_LIMIT;
use lang_model::syntax::Place;
use rv_parse::parse;
use std::alloc::Global;
use std::test::Fail;

/// What the grammar expects, in words.
fn wanted(alloc: Global, what: &What) -> Result<String, Fail> {
    let word = match what {
        What::Item => "an item",
        What::Expression => "an expression",
        What::Name => "a name",
        What::Number => "a number",
        What::NumberFromOne => "a number from 1",
        What::FileText => "a file text",
        What::Token(name) => str::from_utf8(name.bytes())?,
    };
    Ok(format!(in alloc; "expected {word}")?)
}

/// A place and what is wrong there.
fn placed(alloc: Global, at: Place, text: &str) -> Result<String, Fail> {
    Ok(format!(in alloc; "{}:{}: {text}", at.line, at.column)?)
}

/// A fault in the words of its reply.
pub fn reply(alloc: Global, fault: &ParseFault) -> Result<String, Fail> {
    match fault {
        ParseFault::Byte { at, byte } => {
            let text = format!(in alloc; "byte {byte} is not allowed")?;
            placed(alloc, *at, text.as_str())
        }
        ParseFault::Expected { at, what } => {
            let text = wanted(alloc, what)?;
            placed(alloc, *at, text.as_str())
        }
        ParseFault::TooDeep { at } => placed(alloc, *at, "nested deeper than 40"),
        ParseFault::NumberTooLarge { at } => placed(alloc, *at, "number over 64 bits"),
        ParseFault::NameTooLong { at } => placed(alloc, *at, "name too long"),
        ParseFault::NoMemory => Ok(String::from_str(alloc, "no memory")?),
    }
}

/// The fault of a text; `read` if it is a script.
pub fn refusal(alloc: Global, text: &[u8]) -> Result<String, Fail> {
    if text.len() > SCRIPT_LIMIT {
        return Ok(String::from_str(alloc, "too long")?);
    }
    match parse(alloc, text) {
        Ok(_) => Ok(String::from_str(alloc, "read")?),
        Err(fault) => reply(alloc, &fault),
    }
}
