//! Measures rewriting: `bench_texts rewrite CALL SHAPE COUNT`, on a chain of COUNT operands of a shape.
//!
//! The calls are `rewrite` and `calm`. The line has the nanoseconds of the one call, the length of the script in bytes,
//! and the number of steps.
use crate::words::{number, usage};
use lang_model::limits::SCRIPT_LIMIT;
use lang_model::syntax::{Command, Expr, Item, Script};
use rv_parse::parse;
use rv_rewrite::{calm, rewrite};
use std::alloc::Global;
use std::env::Args;
use std::io;
use std::rt::Clock;
use std::time::Instant;

/// What is measured.
#[derive(Clone, Copy)]
enum Call {
    Rewrite,
    Calm,
}

/// The shape of a chain: the operand that is repeated, and the operator between.
#[derive(Clone, Copy)]
struct Shape {
    operand: &'static str,
    sign: &'static str,
}

/// The call with this name.
fn call_of(name: &str) -> Option<Call> {
    match name {
        "rewrite" => Some(Call::Rewrite),
        "calm" => Some(Call::Calm),
        _ => None,
    }
}

/// The shape with this name.
fn shape_of(name: &str) -> Option<Shape> {
    match name {
        "names" => Some(Shape {
            operand: "ab",
            sign: "|",
        }),
        "minus" => Some(Shape {
            operand: "--ab",
            sign: "|",
        }),
        "turned" => Some(Shape {
            operand: "ab^^^",
            sign: "*",
        }),
        "repeats" => Some(Shape {
            operand: "(a|b|c|d|e|f|g|h|a)",
            sign: "&",
        }),
        "residuals" => Some(Shape {
            operand: "-(ab^*-cd)",
            sign: "&",
        }),
        "quotients" => Some(Shape {
            operand: "((ab\\cd)&ab^/cd^)",
            sign: "|",
        }),
        "nested" => Some(Shape {
            operand: "-(a^*--(a^*--(a^*--(a^*--(a^*--(a^*--(a^*--(a^*--(a^*--(a^*--(a^*--(a^*--(a^*-b)))))))))))))",
            sign: "|",
        }),
        _ => None,
    }
}

/// A script that prints a chain of `count` operands.
fn script(alloc: Global, shape: Shape, count: u64) -> io::Result<String> {
    let mut text = String::from_str(alloc, "PRINT ")?;
    text.push_str(shape.operand)?;
    'more: for _ in 1..count {
        text.push_str(shape.sign)?;
        text.push_str(shape.operand)?;
    }
    text.push_str(".")?;
    Ok(text)
}

/// The expression that a script prints.
fn value_of(script: &Script) -> Option<&Expr> {
    match script.items.as_slice() {
        [Item::Command(Command::Print { value })] => Some(value),
        _ => None,
    }
}

/// Prints how many nanoseconds it takes to rewrite an expression with its steps, the length of the script, and how many
/// steps there are.
fn measure_rewrite<R: Print + Clock>(
    rt: &R,
    alloc: Global,
    expr: &Expr,
    bytes: usize,
) -> io::Result<()> {
    let start = Instant::now(rt)?;
    let found = rewrite(alloc, expr);
    let taken = start.elapsed(rt)?.as_nanos();
    match found {
        Ok(found) => println!(rt; "{taken} {bytes} {}", found.steps.len()),
        Err(_) => println!(rt; "no memory"),
    }
}

/// The same without the steps.
fn measure_calm<R: Print + Clock>(
    rt: &R,
    alloc: Global,
    expr: &Expr,
    bytes: usize,
) -> io::Result<()> {
    let start = Instant::now(rt)?;
    let found = calm(alloc, expr);
    let taken = start.elapsed(rt)?.as_nanos();
    match found {
        Ok(_) => println!(rt; "{taken} {bytes}"),
        Err(_) => println!(rt; "no memory"),
    }
}

/// Measures a call on the expression that a script prints.
fn measure<R: Print + Clock>(rt: &R, alloc: Global, call: Call, text: &str) -> io::Result<()> {
    if text.len() > SCRIPT_LIMIT {
        return println!(rt; "too long");
    }
    let Ok(script) = parse(alloc, text.as_bytes()) else {
        return println!(rt; "refused");
    };
    let Some(expr) = value_of(&script) else {
        return println!(rt; "refused");
    };
    match call {
        Call::Rewrite => measure_rewrite(rt, alloc, expr, text.len()),
        Call::Calm => measure_calm(rt, alloc, expr, text.len()),
    }
}

/// Measures what the words say.
pub fn run<R: Print + Clock>(rt: &R, alloc: Global, mut words: Args) -> io::Result<()> {
    let call = match words.next() {
        Some(word) => call_of(word.as_str()),
        None => None,
    };
    let shape = match words.next() {
        Some(word) => shape_of(word.as_str()),
        None => None,
    };
    let count = number(words.next());
    let (Some(call), Some(shape)) = (call, shape) else {
        return usage(rt);
    };
    let text = script(alloc, shape, count)?;
    measure(rt, alloc, call, text.as_str())
}
