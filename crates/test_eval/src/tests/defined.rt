//! What a checked script says about the definition of a name.
use lang_model::limits::SCRIPT_LIMIT;
use lang_model::syntax::Item;
use rv_parse::parse;
use rv_types::{Checked, check};
use std::alloc::{AllocError, Global};
use std::process::Abort;
use std::test::Fail;

/// A script with four definitions and a relation.
const SCRIPT: &[u8] =
    b"F(R) = R. G(R,S) BEG RETURN R END. REL A 2 2 {}.\nFF(R) = F(R). f(R,S,T) = G(R,S).";

/// What a checked script says about the definition of a name: its kind, its place, and how many parameters it has.
fn told(alloc: Global, checked: &Checked, name: &[u8]) -> Result<String, AllocError> {
    let (what, at, params) = match checked.definition(name) {
        None => return String::from_str(alloc, "none"),
        Some(Item::Function { at, params, .. }) => ("function", *at, params.len()),
        Some(Item::Program { at, params, .. }) => ("program", *at, params.len()),
        Some(Item::Command(_)) => return String::from_str(alloc, "a command"),
    };
    format!(in alloc; "{what} {}:{} of {params}", at.line, at.column)
}

/// The same for a script given as text.
fn definition(alloc: Global, text: &[u8], name: &[u8]) -> Result<String, AllocError> {
    if text.len() > SCRIPT_LIMIT {
        return String::from_str(alloc, "too long");
    }
    let Ok(script) = parse(alloc, text) else {
        return String::from_str(alloc, "no script");
    };
    match check(alloc, script) {
        Ok(checked) => told(alloc, &checked, name),
        Err(_) => String::from_str(alloc, "a fault"),
    }
}

/// Names, and what is said about their definitions.
const DEFINED: [(&[u8], &str); 4] = [
    (b"F", "function 1:1 of 1"),
    (b"G", "program 1:11 of 2"),
    (b"FF", "function 2:1 of 1"),
    (b"f", "function 2:15 of 3"),
];

/// Asserts what is said about the definition of a name.
fn assert_told(
    rt: &impl Abort,
    alloc: Global,
    text: &[u8],
    name: &[u8],
    want: &str,
) -> Result<(), Fail> {
    let told = definition(alloc, text, name)?;
    assert_eq!(rt; told.as_str(), want);
    Ok(())
}

#[test]
fn each_definition_is_told_by_its_name(rt: HostRuntime) -> Result<(), Fail> {
    for (name, want) in DEFINED {
        assert_told(&rt, rt.alloc(), SCRIPT, name, want)?;
    }
    Ok(())
}

#[test]
fn other_names_have_no_definition(rt: HostRuntime) -> Result<(), Fail> {
    let names: [&[u8]; 4] = [b"A", b"R", b"FFF", b""];
    for name in names {
        assert_told(&rt, rt.alloc(), SCRIPT, name, "none")?;
    }
    assert_told(&rt, rt.alloc(), b"", b"F", "none")
}
