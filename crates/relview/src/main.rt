//! `relview FILE...`: runs scripts concurrently, writes their page to standard output, and puts their files.
#![tactic(auto)]

pub mod batches;
pub mod between;
pub mod laws;
pub mod over_table;
pub mod program;
pub mod report;
pub mod statuses;
pub mod surely;
#[cfg(test)]
mod tests;
pub mod top;
pub mod words;

use program::run_program;
use rv_io::{FileShelf, StdoutSink};
use std::process::ExitCode;
use std::{env, io};

/// Runs the words of the command line, with real files and standard output.
fn main(rt: HostRuntime) -> ExitCode {
    let alloc = rt.alloc();
    let mut shelf = FileShelf::new(alloc, rt);
    let mut sink = StdoutSink::new(io::writer(&rt));
    run_program(&rt, alloc, env::args(&rt), &mut shelf, &mut sink)
}
