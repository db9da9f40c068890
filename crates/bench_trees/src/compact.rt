//! Times moving relations into fresh words: `bench_trees compact BITS SIDE`.
ghost use Rattle.std.specs.Prelude.{◌≡◌, ◌≤◌, ◌+◌, IfOk, IfErr};
ghost use Rattle.rel_model.specs.Views.{Table, View, IsOf, IsKnown, Keeps};
ghost use Rattle.rel_model.specs.Equations.{IsSoundTable};

mod trees;

use crate::compact::trees::square_trees;
use crate::words::{number, table_bits, usage};
use pair_table::{MEMO_SLOTS, PairTable};
use rel_model::Rel;
use rv_compact::{CompactRefused, compact};
use std::alloc::Global;
use std::env::Args;
use std::io;
use std::rt::Clock;
use std::time::Instant;
use test_compact::standing::{all_stand, depth_of_side};

/// The words of a table, and two square relations whose trees have distinct blocks. A third such tree is in the table,
/// and neither of them reaches it.
fn made(alloc: Global, bits: u32, side: u32) -> Result<(Vec<u64>, [Rel; 2]), &'static str>
    requires low { 10 ≤ bits }
    requires high { bits ≤ 24 }
    ensures { IfOk result (λ r. IsSoundTable bits r.0.items) }
{
    let Some(depth) = depth_of_side(side) else {
        return Err("no such side");
    };
    let Ok((table, mut seat)) = PairTable::make(alloc, bits, 1) else {
        return Err("no memory");
    };
    let Ok(roots) = square_trees(&table, &mut seat, depth) else {
        return Err("the table is full");
    };
    let Ok(words) = table.close(seat) else {
        return Err("no memory");
    };
    let (first, second) = roots;
    Ok((words, [square(side, first), square(side, second)]))
}

/// A square relation.
fn square(side: u32, root: u32) -> Rel {
    Rel {
        rows: side,
        cols: side,
        root,
    }
}

/// A checksum of all words, which depends on their order.
fn sum_of(words: &[u64]) -> u64 {
    let mut sum: u64 = 0;
    'words: for word in words {
        sum = sum.wrapping_mul(31).wrapping_add(*word);
    }
    sum
}

/// Times one call, and prints the nanoseconds, how many words are stored afterwards, and a checksum of all words.
#[tactic(auto, using(crate::proofs::Tables::of_bits))]
fn measure(rt: &(impl Print + Clock), alloc: Global, bits: u32, side: u32) -> io::Result<()>
    requires low { 10 ≤ bits }
    requires high { bits ≤ 24 }
{
    let (words, rels) = match made(alloc, bits, side) {
        Ok(made) => made,
        Err(why) => return println!(rt; "{why}"),
    };
    let count = words.len() - MEMO_SLOTS as usize;
    if !all_stand(&words[..count], &rels) {
        return println!(rt; "no relations");
    }
    let start = Instant::now(rt)?;
    let answer = compact(alloc, &words, &rels);
    let time = start.elapsed(rt)?.as_nanos();
    match answer {
        Ok((new, _moved)) => {
            let stored = new.iter().filter(|word| **word != 0).count();
            println!(rt; "{time} {stored} {}", sum_of(&new))
        }
        Err(CompactRefused::Full { uses }) => println!(rt; "{time} full {uses}"),
        Err(CompactRefused::NoMemory) => println!(rt; "no memory"),
    }
}

/// Measures what the words say.
pub fn run<R: Print + Clock>(rt: &R, alloc: Global, mut words: Args) -> io::Result<()> {
    let bits = table_bits(words.next());
    let side = u32::try_from(number(words.next())).unwrap_or(0);
    match bits {
        Some(bits) => measure(rt, alloc, bits, side),
        None => usage(rt),
    }
}
