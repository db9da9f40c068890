//! Times `parse`: `bench_texts parse SHAPE COUNT`, on one chain of COUNT names, one relation of COUNT rows, or COUNT
//! items.
use crate::words::{number, usage};
use lang_model::limits::SCRIPT_LIMIT;
use rv_parse::parse;
use std::alloc::Global;
use std::env::Args;
use std::io;
use std::rt::Clock;
use std::time::Instant;

/// How a script begins, the part that is repeated, and how it ends.
#[derive(Clone, Copy)]
struct Shape {
    front: &'static str,
    part: &'static str,
    behind: &'static str,
}

/// The shape with this name.
fn shape_of(name: &str) -> Option<Shape> {
    match name {
        "chain" => Some(Shape {
            front: "PRINT ab",
            part: "|ab",
            behind: ".",
        }),
        "rows" => Some(Shape {
            front: "REL A 99999 999 {12345:678",
            part: ";12345:678",
            behind: "}.",
        }),
        "items" => Some(Shape {
            front: "PRINT AB.",
            part: "\nPRINT AB.",
            behind: "\n",
        }),
        _ => None,
    }
}

/// A script with a number of names, rows or items.
fn script(alloc: Global, shape: Shape, count: u64) -> io::Result<String> {
    let mut text = String::from_str(alloc, shape.front)?;
    'parts: for _part in 1..count {
        text.push_str(shape.part)?;
    }
    text.push_str(shape.behind)?;
    Ok(text)
}

/// Prints the nanoseconds for reading a script, its bytes and its items.
fn measure<R: Print + Clock>(rt: &R, alloc: Global, text: &str) -> io::Result<()> {
    if text.len() > SCRIPT_LIMIT {
        return println!(rt; "too long");
    }
    let start = Instant::now(rt)?;
    let read = parse(alloc, text.as_bytes());
    let taken = start.elapsed(rt)?.as_nanos();
    match read {
        Ok(script) => println!(rt; "{taken} {} {}", text.len(), script.items.len()),
        Err(_) => println!(rt; "refused"),
    }
}

/// Measures what the words say.
pub fn run<R: Print + Clock>(rt: &R, alloc: Global, mut words: Args) -> io::Result<()> {
    let shape = match words.next() {
        Some(word) => shape_of(word.as_str()),
        None => None,
    };
    let count = number(words.next());
    let Some(shape) = shape else {
        return usage(rt);
    };
    let text = script(alloc, shape, count)?;
    measure(rt, alloc, text.as_str())
}
