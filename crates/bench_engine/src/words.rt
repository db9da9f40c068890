//! The words of the command.
ghost use Rattle.std.specs.Prelude.{◌≤◌, IfSome};

use std::io;

/// Prints the words of each benchmark.
pub fn usage<R: Print>(rt: &R) -> io::Result<()> {
    println!(rt; "usage: bench_engine kernels BITS TASK SIZE")?;
    println!(rt; "usage: bench_engine forks BITS SIDE PAIRS")?;
    println!(rt; "usage: bench_engine listed FILE")?;
    println!(rt; "usage: bench_engine order BITS TASK SIZE")?;
    println!(rt; "usage: bench_engine eval TASK COUNT")?;
    println!(rt; "usage: bench_engine files BITS TASK HEIGHT PAIRS")
}

/// A word as a number; 0 if it is none.
pub fn number(word: Option<String>) -> u64 {
    match word {
        Some(word) => word.as_str().parse().unwrap_or(0),
        None => 0,
    }
}

/// A word as the binary logarithm of a table's number of words, if there are tables of so many.
pub fn table_bits(word: Option<String>) -> Option<u32>
    ensures low { IfSome result (λ bits. 10 ≤ bits) }
    ensures high { IfSome result (λ bits. bits ≤ 24) }
{
    let bits = number(word);
    if bits < 10 || bits > 24 {
        return None;
    }
    Some(bits as u32)
}
