//! The scripts that are evaluated.
use lang_model::syntax::{Command, Expr, Item};
use rv_parse::parse;
use rv_types::{Checked, check};
use std::alloc::{AllocError, Global};

/// Parses and checks a script.
pub fn checked_of(alloc: Global, text: &[u8]) -> Option<Checked> {
    if text.len() > 1_048_576 {
        return None;
    }
    let Ok(script) = parse(alloc, text) else {
        return None;
    };
    match check(alloc, script) {
        Ok(checked) => Some(checked),
        Err(_) => None,
    }
}

/// The expression of a script's PRINT.
pub fn expression(checked: &Checked) -> Option<&Expr> {
    'items: for item in checked.script().items.as_slice() {
        if let Item::Command(Command::Print { value }) = item {
            return Some(value);
        }
    }
    None
}

/// The union of A with itself, with `count` operands.
pub fn chain(alloc: Global, count: u32) -> Result<Vec<u8>, AllocError> {
    let mut text = Vec::new(alloc);
    text.extend_from_slice(b"PRINT A")?;
    'links: for _ in 1..count {
        text.extend_from_slice(b"|A")?;
    }
    text.push(b'.')?;
    Ok(text)
}
