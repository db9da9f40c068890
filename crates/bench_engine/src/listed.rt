//! Times listed relations: `bench_engine listed a.rv` reads a script of three REL, builds their relations in one table,
//! unites the last two, and prints how many pairs the first and the union have.
mod listing;

ghost use Rattle.std.specs.Prelude.{◌≤◌, ◌^◌, length, IfSome};
ghost use Rattle.rel_model.specs.Worker.{Stands, Keeps};
ghost use Rattle.lang_model.specs.Limits.{script_limit};

use crate::engines::{engine_over, from_list};
use crate::listed::listing::listed_pairs;
use crate::words::usage;
use lang_model::limits::SCRIPT_LIMIT;
use lang_model::syntax::{Command, Item};
use pair_table::PairTable;
use rel_model::core_trait::Core;
use rel_model::engine_trait::Engine;
use rel_model::{Rel, SIZE_LIMIT, Shape};
use rv_io::{FileShelf, read_all};
use rv_parse::parse;
use std::alloc::Global;
use std::env::Args;
use std::io;
use std::rt::Files;
use std::thread::Threads;

/// The binary logarithm of the number of node words in the program's table.
const TABLE_BITS: u32 = 20;

/// The relation of an item that is a REL.
fn built<E: Engine>(alloc: Global, engine: &mut E, item: &Item) -> Option<Rel>
    ensures standing { IfSome result (Stands (E.worker engine.new)) }
    ensures keeps { Keeps (E.worker engine.old) (E.worker engine.new) }
{
    let Item::Command(
        Command::Relation {
            rows,
            cols,
            list,
            ..
        },
    ) = item
    else {
        return None;
    };
    if *rows > u64::from(SIZE_LIMIT) || *cols > u64::from(SIZE_LIMIT) {
        return None;
    }
    let shape = Shape {
        rows: *rows as u32,
        cols: *cols as u32,
    };
    let pairs = listed_pairs(alloc, shape, list.as_slice());
    from_list(alloc, engine, shape, pairs)
}

/// How many pairs the first of three listed relations has, and how many the union of the others.
fn counts<E: Engine>(alloc: Global, engine: &mut E, items: &[Item]) -> Option<(u64, u64)> {
    let [large, left, right] = items else {
        return None;
    };
    let many = built(alloc, engine, large)?;
    let r = built(alloc, engine, left)?;
    let s = built(alloc, engine, right)?;
    if r.rows != s.rows || r.cols != s.cols {
        return None;
    }
    let Ok(both) = engine.union(r, s) else {
        return None;
    };
    let Ok(pairs) = engine.count(alloc, many) else {
        return None;
    };
    match engine.count(alloc, both) {
        Ok(few) => Some((pairs, few)),
        Err(_) => None,
    }
}

/// The counts of a script over a table of its own.
fn counted<R: Threads + Sync>(rt: &R, alloc: Global, script: &[u8]) -> Option<(u64, u64)>
    requires { length script.now ≤ script_limit }
{
    let Ok(script) = parse(alloc, script) else {
        return None;
    };
    let Ok((table, seat)) = PairTable::make(alloc, TABLE_BITS, 1) else {
        return None;
    };
    let mut works = engine_over(rt, &table, seat, 1);
    counts(alloc, &mut works, script.items.as_slice())
}

/// Measures the script that the words name.
pub fn run<R: Print + Files + Threads + Sync>(
    rt: &R,
    alloc: Global,
    mut words: Args,
) -> io::Result<()> {
    let Some(name) = words.next() else {
        return usage(rt);
    };
    let mut shelf = FileShelf::new(alloc, rt);
    let Ok(script) = read_all(alloc, &mut shelf, name.as_str(), SCRIPT_LIMIT as u64) else {
        return println!(rt; "bench_engine: cannot read");
    };
    match counted(rt, alloc, script.as_slice()) {
        Some((pairs, few)) => println!(rt; "{pairs} {few}"),
        None => println!(rt; "bench_engine: not three relations that fit"),
    }
}
