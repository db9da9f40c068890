//! The words of the command.
use std::io;

/// Prints the words of each benchmark.
pub fn usage<R: Print>(rt: &R) -> io::Result<()> {
    println!(rt; "usage: bench_texts parse chain|rows|items COUNT")?;
    println!(rt; "usage: bench_texts rewrite rewrite|calm SHAPE COUNT")?;
    println!(rt; "usage: bench_texts turns PASSES TURNS")
}

/// A word as a number; 0 if it is none.
pub fn number(word: Option<String>) -> u64 {
    match word {
        Some(word) => word.as_str().parse().unwrap_or(0),
        None => 0,
    }
}
