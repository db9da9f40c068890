//! Times the parser, rewriting, and turns: `bench_texts BENCHMARK ..`, where the first word names the benchmark.
#![tactic(auto)]

mod parse;
mod rewrite;
mod turns;
mod words;

use crate::words::usage;
use std::io;

fn main(rt: HostRuntime) -> io::Result<()> {
    let mut words = std::env::args(&rt)?;
    let _program = words.next();
    let Some(benchmark) = words.next() else {
        return usage(&rt);
    };
    match benchmark.as_str() {
        "parse" => parse::run(&rt, rt.alloc(), words),
        "rewrite" => rewrite::run(&rt, rt.alloc(), words),
        "turns" => turns::run(&rt, rt.alloc(), words),
        _ => usage(&rt),
    }
}
