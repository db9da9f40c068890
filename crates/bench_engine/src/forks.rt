//! Times forked operators with 1, 2 and 4 workers in one run: `bench_engine forks BITS SIDE PAIRS`, each in a table of
//! its own with 2^BITS words.
//!
//! Two relations of SIDE rows and columns have PAIRS random pairs each. Each line has the number of workers, the
//! operator, the nanoseconds, and how many pairs the answer has.
#![tactic(auto, using(rel_model::proofs::Workers::keeps_stands, rel_model::proofs::Workers::keeps_trans))]

ghost use Rattle.std.specs.Prelude.{◌≡◌, ◌≤◌, ◌<◌, IfOk, IfSome};
ghost use Rattle.rel_model.specs.Relation.{size_limit};
ghost use Rattle.rel_model.specs.Worker.{Stands, Keeps};

use crate::chance::random_pairs;
use crate::engines::{engine_over, from_list, pairs_of};
use crate::words::{number, table_bits, usage};
use pair_table::PairTable;
use rel_model::core_trait::Core;
use rel_model::engine_trait::Engine;
use rel_model::{Lack, Rel, Shape};
use std::alloc::Global;
use std::env::Args;
use std::io;
use std::rt::Clock;
use std::thread::Threads;
use std::time::Instant;

/// The greatest side.
const MOST_SIDE: u64 = 1_048_576;

/// The greatest number of pairs.
const MOST_PAIRS: u64 = 16_777_216;

/// What is measured.
#[derive(Clone, Copy)]
enum Task {
    Union,
    Transpose,
    Compose,
    Closure,
}

/// The sizes of what is measured.
#[derive(Clone, Copy)]
struct Size {
    bits: u32,
    side: u32,
    pairs: u64,
}

/// The answer of a task on two relations.
fn answered<E: Engine>(engine: &mut E, task: Task, r: Rel, s: Rel) -> Result<Rel, Lack>
    requires r_stands { Stands (E.worker engine.old) r }
    requires s_stands { Stands (E.worker engine.old) s }
    requires r_square { r.rows ≡ r.cols }
    requires rows { s.rows ≡ r.rows }
    requires cols { s.cols ≡ r.cols }
    ensures stands { IfOk result (Stands (E.worker engine.new)) }
    ensures keeps { Keeps (E.worker engine.old) (E.worker engine.new) }
{
    match task {
        Task::Union => engine.union(r, s),
        Task::Transpose => engine.transpose(r),
        Task::Compose => engine.compose(r, s),
        Task::Closure => engine.trans(r),
    }
}

/// The name of a task.
fn name_of(task: Task) -> &'static str {
    match task {
        Task::Union => "union",
        Task::Transpose => "transpose",
        Task::Compose => "compose",
        Task::Closure => "closure",
    }
}

/// Prints how long a task takes.
fn measure<R: Print + Clock, E: Engine>(
    rt: &R,
    alloc: Global,
    engine: &mut E,
    workers: u32,
    task: Task,
    r: Rel,
    s: Rel,
) -> io::Result<()>
    requires r_stands { Stands (E.worker engine.old) r }
    requires s_stands { Stands (E.worker engine.old) s }
    requires r_square { r.rows ≡ r.cols }
    requires rows { s.rows ≡ r.rows }
    requires cols { s.cols ≡ r.cols }
{
    let start = Instant::now(rt)?;
    let answer = answered(engine, task, r, s);
    let time = start.elapsed(rt)?.as_nanos();
    let pairs = pairs_of(alloc, engine, answer);
    println!(rt; "{workers} {} {time} {pairs}", name_of(task))
}

/// A relation of random pairs.
fn built<E: Engine>(alloc: Global, engine: &mut E, size: Size, seed: u64) -> Option<Rel>
    requires some { 0 < size.side }
    requires few { size.side ≤ size_limit }
    ensures stands { IfSome result (Stands (E.worker engine.new)) }
    ensures rows { IfSome result (λ r. r.rows ≡ size.side) }
    ensures cols { IfSome result (λ r. r.cols ≡ size.side) }
    ensures keeps { Keeps (E.worker engine.old) (E.worker engine.new) }
{
    let shape = Shape {
        rows: size.side,
        cols: size.side,
    };
    let pairs = random_pairs(alloc, size.side, size.pairs, seed);
    from_list(alloc, engine, shape, pairs)
}

/// Measures a task over an engine.
fn measure_over<R: Print + Clock, E: Engine>(
    rt: &R,
    alloc: Global,
    engine: &mut E,
    workers: u32,
    task: Task,
    size: Size,
) -> io::Result<()>
    requires some { 0 < size.side }
    requires few { size.side ≤ size_limit }
{
    let Some(r) = built(alloc, engine, size, 1) else {
        return println!(rt; "no relation");
    };
    let Some(s) = built(alloc, engine, size, 2) else {
        return println!(rt; "no relation");
    };
    measure(rt, alloc, engine, workers, task, r, s)
}

/// Measures a task in a table of its own.
fn measure_alone<R: Print + Clock + Threads + Sync>(
    rt: &R,
    alloc: Global,
    workers: u32,
    task: Task,
    size: Size,
) -> io::Result<()>
    requires low { 10 ≤ size.bits }
    requires high { size.bits ≤ 24 }
    requires some { 0 < size.side }
    requires few { size.side ≤ size_limit }
    requires working { 1 ≤ workers }
    requires most { workers ≤ 64 }
{
    let Ok((table, seat)) = PairTable::make(alloc, size.bits, 65) else {
        return println!(rt; "no table");
    };
    let mut works = engine_over(rt, &table, seat, workers);
    measure_over(rt, alloc, &mut works, workers, task, size)
}

/// Measures each task with 1, 2 and 4 workers.
fn measure_all<R: Print + Clock + Threads + Sync>(
    rt: &R,
    alloc: Global,
    size: Size,
) -> io::Result<()>
    requires low { 10 ≤ size.bits }
    requires high { size.bits ≤ 24 }
    requires some { 0 < size.side }
    requires few { size.side ≤ size_limit }
{
    'tasks: for task in [Task::Union, Task::Transpose, Task::Compose, Task::Closure] {
        'workers: for workers in [1, 2, 4] {
            measure_alone(rt, alloc, workers, task, size)?;
        }
    }
    Ok(())
}

/// Measures what the words say.
pub fn run<R: Print + Clock + Threads + Sync>(
    rt: &R,
    alloc: Global,
    mut words: Args,
) -> io::Result<()> {
    let bits = table_bits(words.next());
    let side = number(words.next());
    let pairs = number(words.next());
    let Some(bits) = bits else {
        return usage(rt);
    };
    if side == 0 || side > MOST_SIDE || pairs > MOST_PAIRS {
        return usage(rt);
    }
    let side = side as u32;
    measure_all(rt, alloc, Size { bits, side, pairs })
}
