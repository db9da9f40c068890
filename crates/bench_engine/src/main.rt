//! Times engines and what is built on them: `bench_engine BENCHMARK ..`, where the first word names the benchmark.
#![tactic(auto)]

mod chance;
mod engines;
mod eval;
mod files;
mod forks;
mod kernels;
mod listed;
mod order;
mod words;

use crate::words::usage;
use std::io;

fn main(rt: HostRuntime) -> io::Result<()> {
    let mut words = std::env::args(&rt)?;
    let _program = words.next();
    let Some(benchmark) = words.next() else {
        return usage(&rt);
    };
    match benchmark.as_str() {
        "kernels" => kernels::run(&rt, rt.alloc(), words),
        "forks" => forks::run(&rt, rt.alloc(), words),
        "listed" => listed::run(&rt, rt.alloc(), words),
        "order" => order::run(&rt, rt.alloc(), words),
        "eval" => eval::run(&rt, rt.alloc(), words),
        "files" => files::run(&rt, rt.alloc(), words),
        _ => usage(&rt),
    }
}
