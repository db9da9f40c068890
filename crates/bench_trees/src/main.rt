//! Times the node table and what is done on it: `bench_trees BENCHMARK ..`, where the first word names the benchmark.
#![tactic(auto)]

mod boole;
mod chance;
mod compact;
mod products;
mod squares;
mod table;
mod words;

use crate::words::usage;
use std::io;

fn main(rt: HostRuntime) -> io::Result<()> {
    let mut words = std::env::args(&rt)?;
    let _program = words.next();
    let Some(benchmark) = words.next() else {
        return usage(&rt);
    };
    match benchmark.as_str() {
        "table" => table::run(&rt, rt.alloc(), words),
        "boole" => boole::run(&rt, rt.alloc(), words),
        "products" => products::run(&rt, rt.alloc(), words),
        "compact" => compact::run(&rt, rt.alloc(), words),
        _ => usage(&rt),
    }
}
