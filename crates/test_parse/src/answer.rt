//! What `parse` answers, as a line of text.
use crate::show::shown;
use lang_model::limits::SCRIPT_LIMIT;
use rv_parse::parse;
use std::alloc::Global;
use std::test::Fail;
use test_faults::reply;

/// A text's script written out, or its fault.
pub fn answer(alloc: Global, text: &[u8]) -> Result<String, Fail> {
    if text.len() > SCRIPT_LIMIT {
        return Ok(String::from_str(alloc, "too long")?);
    }
    match parse(alloc, text) {
        Ok(script) => shown(alloc, &script),
        Err(fault) => reply(alloc, &fault),
    }
}
