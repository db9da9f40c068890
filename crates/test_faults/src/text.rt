//! How expressions are printed.
use lang_model::limits::SCRIPT_LIMIT;
use lang_model::syntax::{Command, Item};
use rv_parse::parse;
use rv_spell::print_expr;
use std::alloc::Global;
use std::test::Fail;

/// The text of the expression in a script of one PRINT.
pub fn printed(alloc: Global, script: &[u8]) -> Result<String, Fail> {
    if script.len() > SCRIPT_LIMIT {
        return Ok(String::from_str(alloc, "too long")?);
    }
    let Ok(script) = parse(alloc, script) else {
        return Ok(String::from_str(alloc, "no script")?);
    };
    let [Item::Command(Command::Print { value })] = script.items.as_slice() else {
        return Ok(String::from_str(alloc, "another item")?);
    };
    match print_expr(alloc, value) {
        Ok(text) => Ok(String::from_str(alloc, str::from_utf8(text.as_slice())?)?),
        Err(_) => Ok(String::from_str(alloc, "no memory")?),
    }
}
