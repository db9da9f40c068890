//! The words of the command.
ghost use Rattle.std.specs.Prelude.{◌≤◌, IfSome};

use std::io;

/// Prints the words of each benchmark.
pub fn usage<R: Print>(rt: &R) -> io::Result<()> {
    println!(rt; "usage: bench_trees table BITS LOAD THREADS LOOKUPS")?;
    println!(rt; "usage: bench_trees boole BITS CELLS")?;
    println!(rt; "usage: bench_trees products BITS HEIGHT KIND CELLS")?;
    println!(rt; "usage: bench_trees compact BITS SIDE")
}

/// A word as a number; 0 if it is none.
pub fn number(word: Option<String>) -> u64 {
    match word {
        Some(word) => word.as_str().parse().unwrap_or(0),
        None => 0,
    }
}

/// A word as the binary logarithm of a table's number of words, if there are tables of so many.
pub fn table_bits(word: Option<String>) -> Option<u32>
    ensures low { IfSome result (λ bits. 10 ≤ bits) }
    ensures high { IfSome result (λ bits. bits ≤ 24) }
{
    let bits = number(word);
    if bits < 10 || bits > 24 {
        return None;
    }
    Some(bits as u32)
}
