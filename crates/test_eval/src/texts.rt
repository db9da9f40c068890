//! Values, refusals and faults, as lines of text.
use crate::listed::Listed;
use lang_model::faults::{ParseFault, StaticShape, TypeFault, What};
use lang_model::syntax::{Name, Place};
use rv_eval::Refused;
use std::alloc::Global;
use std::process::Abort;

/// The text of a name.
fn name_text<'a>(rt: &impl Abort, name: &'a Name) -> &'a str {
    match str::from_utf8(name.bytes()) {
        Ok(text) => text,
        Err(_) => panic!(rt; "a name is no text"),
    }
}

/// A text that was made; the test ends if memory ran out.
pub(crate) fn made<X>(rt: &impl Abort, text: Result<String, X>) -> String {
    match text {
        Ok(text) => text,
        Err(_) => panic!(rt; "no memory"),
    }
}

/// Appends a text.
pub(crate) fn add(rt: &impl Abort, text: &mut String, more: &str) {
    if text.push_str(more).is_err() {
        panic!(rt; "no memory");
    }
}

/// The sizes and the pairs of a relation; pairs are counted from 1.
pub(crate) fn pairs_text(rt: &impl Abort, alloc: Global, list: &Listed) -> String {
    let mut text = made(rt, format!(in alloc; "{}x{}", list.rows, list.cols));
    'pairs: for (i, j) in list.pairs.as_slice() {
        let row = i.wrapping_add(1);
        let col = j.wrapping_add(1);
        let pair = made(rt, format!(in alloc; " {row}:{col}"));
        add(rt, &mut text, pair.as_str());
    }
    text
}

/// The sizes of a relation, and how many pairs it has.
pub(crate) fn count_text(
    rt: &impl Abort,
    alloc: Global,
    rows: u32,
    cols: u32,
    count: u64,
) -> String {
    made(rt, format!(in alloc; "{rows}x{cols} #{count}"))
}

/// A size, or `?` if it is unknown.
fn size_text(rt: &impl Abort, alloc: Global, size: Option<u32>) -> String {
    match size {
        Some(size) => made(rt, format!(in alloc; "{size}")),
        None => made(rt, format!(in alloc; "?")),
    }
}

/// A type, as text.
fn shape_text(rt: &impl Abort, alloc: Global, shape: StaticShape) -> String {
    let mut text = size_text(rt, alloc, shape.rows);
    let cols = size_text(rt, alloc, shape.cols);
    add(rt, &mut text, "x");
    add(rt, &mut text, cols.as_str());
    text
}

/// The kind of a fault, with a name and a place.
fn named(rt: &impl Abort, alloc: Global, kind: &str, name: &Name, at: Place) -> String {
    let name = name_text(rt, name);
    made(
        rt,
        format!(in alloc; "{kind} {name} {}:{}", at.line, at.column),
    )
}

/// The same, followed by a type.
fn with_shape(rt: &impl Abort, alloc: Global, text: String, shape: StaticShape) -> String {
    let mut text = text;
    let more = shape_text(rt, alloc, shape);
    add(rt, &mut text, " ");
    add(rt, &mut text, more.as_str());
    text
}

/// The kind of a fault, with a place.
fn placed(rt: &impl Abort, alloc: Global, kind: &str, at: Place) -> String {
    made(rt, format!(in alloc; "{kind} {}:{}", at.line, at.column))
}

/// The kind of a fault, with an operator, a place and a type.
fn shaped(
    rt: &impl Abort,
    alloc: Global,
    kind: &str,
    op: &Name,
    at: Place,
    shape: StaticShape,
) -> String {
    let text = named(rt, alloc, kind, op, at);
    with_shape(rt, alloc, text, shape)
}

/// The fault of a call with the wrong number of arguments.
fn arity_text(
    rt: &impl Abort,
    alloc: Global,
    name: &Name,
    at: Place,
    takes: u32,
    given: u32,
) -> String {
    let mut text = named(rt, alloc, "Arity", name, at);
    let more = made(rt, format!(in alloc; " takes {takes} given {given}"));
    add(rt, &mut text, more.as_str());
    text
}

/// A fault of a script or an expression, as text.
pub(crate) fn fault_text(rt: &impl Abort, alloc: Global, fault: &TypeFault) -> String {
    match fault {
        TypeFault::Unknown { at, name } => named(rt, alloc, "Unknown", name, *at),
        TypeFault::Arity {
            at,
            name,
            takes,
            given,
        } => arity_text(rt, alloc, name, *at, *takes, *given),
        TypeFault::Unassigned { at, name } => named(rt, alloc, "Unassigned", name, *at),
        TypeFault::Rank { at, name } => named(rt, alloc, "Rank", name, *at),
        TypeFault::Mismatch {
            at,
            op,
            left,
            right,
        } => {
            let text = shaped(rt, alloc, "Mismatch", op, *at, *left);
            with_shape(rt, alloc, text, *right)
        }
        TypeFault::NotSquare { at, op, shape } => {
            shaped(rt, alloc, "NotSquare", op, *at, *shape)
        }
        TypeFault::NotVector { at, op, shape } => {
            shaped(rt, alloc, "NotVector", op, *at, *shape)
        }
        TypeFault::NotTest { at, shape } => {
            let text = placed(rt, alloc, "NotTest", *at);
            with_shape(rt, alloc, text, *shape)
        }
        TypeFault::Twice { at, name } => named(rt, alloc, "Twice", name, *at),
        TypeFault::NoMemory => panic!(rt; "no memory"),
    }
}

/// A refusal of an evaluation, as text.
pub(crate) fn refusal_text(rt: &impl Abort, alloc: Global, refused: &Refused) -> String {
    match refused {
        Refused::Ill(fault) => fault_text(rt, alloc, fault),
        Refused::Size { at, wanted, limit } => size_fault(rt, alloc, *at, *wanted, *limit),
        Refused::Turns { at, limit } => {
            let mut text = placed(rt, alloc, "Turns", *at);
            let more = made(rt, format!(in alloc; " {limit}"));
            add(rt, &mut text, more.as_str());
            text
        }
        Refused::Nodes => made(rt, format!(in alloc; "Nodes")),
        Refused::NoMemory => panic!(rt; "no memory"),
    }
}

/// The refusal of a number over its size, as text.
pub(crate) fn size_fault(
    rt: &impl Abort,
    alloc: Global,
    at: Place,
    wanted: u64,
    limit: u64,
) -> String {
    let mut text = placed(rt, alloc, "Size", at);
    let more = made(rt, format!(in alloc; " {wanted} of {limit}"));
    add(rt, &mut text, more.as_str());
    text
}

/// What the grammar requires at a place.
fn what_text(rt: &impl Abort, alloc: Global, what: &What) -> String {
    let text = match what {
        What::Item => "an item",
        What::Expression => "an expression",
        What::Name => "a name",
        What::Number => "a number",
        What::NumberFromOne => "a number from 1",
        What::FileText => "a file text",
        What::Token(name) => name_text(rt, name),
    };
    made(rt, format!(in alloc; "Expected {text}"))
}

/// A fault of bytes that are not a script, as text.
pub(crate) fn parse_text(rt: &impl Abort, alloc: Global, fault: &ParseFault) -> String {
    match fault {
        ParseFault::Byte { at, byte } => {
            let kind = made(rt, format!(in alloc; "Byte {byte}"));
            placed(rt, alloc, kind.as_str(), *at)
        }
        ParseFault::Expected { at, what } => {
            let kind = what_text(rt, alloc, what);
            placed(rt, alloc, kind.as_str(), *at)
        }
        ParseFault::TooDeep { at } => placed(rt, alloc, "TooDeep", *at),
        ParseFault::NumberTooLarge { at } => placed(rt, alloc, "NumberTooLarge", *at),
        ParseFault::NameTooLong { at } => placed(rt, alloc, "NameTooLong", *at),
        ParseFault::NoMemory => panic!(rt; "no memory"),
    }
}
