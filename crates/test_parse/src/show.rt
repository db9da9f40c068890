//! Scripts written out for comparison: each name, number, operator and construct with its place.
mod command;
mod definition;
mod expression;

use command::push_command;
use definition::{push_function, push_program};
use lang_model::syntax::{Item, Name, Place, Script};
use std::alloc::Global;
use std::test::Fail;

fn push_name(out: &mut String, name: &Name) -> Result<(), Fail> {
    out.push_str(str::from_utf8(name.bytes())?)?;
    Ok(())
}

fn push_place(alloc: Global, out: &mut String, at: Place) -> Result<(), Fail> {
    out.push_str(format!(in alloc; "@{}:{}", at.line, at.column)?.as_str())?;
    Ok(())
}

fn push_item(alloc: Global, out: &mut String, item: &Item) -> Result<(), Fail> {
    match item {
        Item::Function {
            at,
            name,
            params,
            body,
        } => {
            push_name(out, name)?;
            push_place(alloc, out, *at)?;
            push_function(alloc, out, params.as_slice(), body)
        }
        Item::Program {
            at,
            name,
            params,
            decls,
            body,
            result,
        } => {
            push_name(out, name)?;
            push_place(alloc, out, *at)?;
            push_program(
                alloc,
                out,
                params.as_slice(),
                decls.as_slice(),
                body.as_slice(),
                result,
            )
        }
        Item::Command(command) => push_command(alloc, out, command),
    }
}

/// A script written out: its items in order, each with a full stop.
pub fn shown(alloc: Global, script: &Script) -> Result<String, Fail> {
    let mut out = String::new(alloc);
    'items: for item in script.items.as_slice() {
        push_item(alloc, &mut out, item)?;
        out.push_str(".")?;
    }
    Ok(out)
}
