//! What `check` answers, as a line of text.
use lang_model::faults::TypeFault;
use lang_model::limits::SCRIPT_LIMIT;
use lang_model::syntax::{Name, Place};
use rv_parse::parse;
use rv_types::check;
use std::alloc::Global;
use std::test::Fail;

/// A kind of fault, the name and the place.
fn line(alloc: Global, kind: &str, name: &Name, at: Place) -> Result<String, Fail> {
    let text = str::from_utf8(name.bytes())?;
    Ok(format!(in alloc; "{kind} {text} {}:{}", at.line, at.column)?)
}

/// A fault: its kind, the name and the place, and numbers of arguments.
fn shown(alloc: Global, fault: &TypeFault) -> Result<String, Fail> {
    match fault {
        TypeFault::Unknown { at, name } => line(alloc, "Unknown", name, *at),
        TypeFault::Arity {
            at,
            name,
            takes,
            given,
        } => {
            let mut text = line(alloc, "Arity", name, *at)?;
            text.push_str(format!(in alloc; " takes {takes} given {given}")?.as_str())?;
            Ok(text)
        }
        TypeFault::Unassigned { at, name } => line(alloc, "Unassigned", name, *at),
        TypeFault::Rank { at, name } => line(alloc, "Rank", name, *at),
        TypeFault::Twice { at, name } => line(alloc, "Twice", name, *at),
        _ => Ok(String::from_str(alloc, "another fault")?),
    }
}

/// The fault of a script; `none` if it has none.
pub fn checked(alloc: Global, text: &[u8]) -> Result<String, Fail> {
    if text.len() > SCRIPT_LIMIT {
        return Ok(String::from_str(alloc, "too long")?);
    }
    let Ok(script) = parse(alloc, text) else {
        return Ok(String::from_str(alloc, "no script")?);
    };
    let items = script.items.len();
    match check(alloc, script) {
        Ok(checked) => {
            if checked.script().items.len() == items {
                Ok(String::from_str(alloc, "none")?)
            } else {
                Ok(String::from_str(alloc, "another script")?)
            }
        }
        Err(fault) => shown(alloc, &fault),
    }
}
