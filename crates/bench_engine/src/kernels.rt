//! Times closures and inclusions: `bench_engine kernels BITS TASK SIZE`, each in a table of its own with 2^BITS words.
//!
//! The tasks are `random`, `acyclic` and `cycle`, the closure of a graph of SIZE vertices, by quarters and then by
//! squaring, and `inclusion`, that of the subsets of SIZE elements. Each line has a name, the nanoseconds, and how many
//! pairs the answer has.
mod graphs;

ghost use Rattle.std.specs.Prelude.{◌≡◌, ◌≤◌, ◌<◌, IfOk, IfSome};
ghost use Rattle.rel_model.specs.Relation.{size_limit};
ghost use Rattle.rel_model.specs.Worker.{Stands};

use crate::engines::{engine_over, from_list, pairs_of};
use crate::kernels::graphs::{Graph, edges};
use crate::words::{number, table_bits, usage};
use pair_table::PairTable;
use rel_model::core_trait::Core;
use rel_model::engine_trait::Engine;
use rel_model::{Lack, Rel, Shape};
use std::alloc::Global;
use std::env::Args;
use std::io;
use std::rt::Clock;
use std::thread::Threads;
use std::time::Instant;

/// The greatest number of vertices of a graph.
const MOST_VERTICES: u32 = 1_048_576;

/// The two ways to close.
#[derive(Clone, Copy)]
enum Way {
    Quarters,
    Squares,
}

/// What is measured.
#[derive(Clone, Copy)]
enum Task {
    Closure(Graph),
    Inclusion,
}

/// The closure of a relation in one of the two ways.
fn closed<E: Engine>(engine: &mut E, way: Way, r: Rel) -> Result<Rel, Lack>
    requires stands { Stands (E.worker engine.old) r }
    requires square { r.rows ≡ r.cols }
    ensures { IfOk result (Stands (E.worker engine.new)) }
{
    match way {
        Way::Quarters => engine.trans(r),
        Way::Squares => rel_closure::trans(engine, r),
    }
}

/// Prints how long a closure takes.
fn measure_closure<R: Print + Clock, E: Engine>(
    rt: &R,
    alloc: Global,
    engine: &mut E,
    way: Way,
    r: Rel,
) -> io::Result<()>
    requires stands { Stands (E.worker engine.old) r }
    requires square { r.rows ≡ r.cols }
{
    let start = Instant::now(rt)?;
    let answer = closed(engine, way, r);
    let time = start.elapsed(rt)?.as_nanos();
    let pairs = pairs_of(alloc, engine, answer);
    match way {
        Way::Quarters => println!(rt; "quarters {time} {pairs}"),
        Way::Squares => println!(rt; "squares {time} {pairs}"),
    }
}

/// Prints how long the inclusion of subsets takes: `E\E`, where E is the membership relation.
fn measure_inclusion<R: Print + Clock, E: Engine>(
    rt: &R,
    alloc: Global,
    engine: &mut E,
    elements: u32,
) -> io::Result<()>
    requires { elements ≤ size_limit }
{
    let Ok(membership) = engine.epsi(elements) else {
        return println!(rt; "no membership");
    };
    let start = Instant::now(rt)?;
    let answer = engine.right(membership, membership);
    let time = start.elapsed(rt)?.as_nanos();
    let pairs = pairs_of(alloc, engine, answer);
    println!(rt; "inclusion {time} {pairs}")
}

/// The relation of a graph, if it fits.
fn built<E: Engine>(alloc: Global, engine: &mut E, graph: Graph, vertices: u32) -> Option<Rel>
    requires some { 0 < vertices }
    requires few { vertices ≤ size_limit }
    ensures { IfSome result (λ r. Stands (E.worker engine.new) r × (r.rows ≡ r.cols)) }
{
    let shape = Shape {
        rows: vertices,
        cols: vertices,
    };
    from_list(alloc, engine, shape, edges(alloc, graph, vertices))
}

/// Measures a task over an engine.
fn measure<R: Print + Clock, E: Engine>(
    rt: &R,
    alloc: Global,
    engine: &mut E,
    task: Task,
    size: u32,
    way: Way,
) -> io::Result<()>
    requires some { 0 < size }
    requires few { size ≤ size_limit }
{
    match task {
        Task::Inclusion => measure_inclusion(rt, alloc, engine, size),
        Task::Closure(graph) => match built(alloc, engine, graph, size) {
            Some(rel) => measure_closure(rt, alloc, engine, way, rel),
            None => println!(rt; "no graph"),
        },
    }
}

/// Measures a task in a table of its own.
fn measure_alone<R: Print + Clock + Threads + Sync>(
    rt: &R,
    alloc: Global,
    bits: u32,
    task: Task,
    size: u32,
    way: Way,
) -> io::Result<()>
    requires low { 10 ≤ bits }
    requires high { bits ≤ 24 }
    requires some { 0 < size }
    requires few { size ≤ size_limit }
{
    let Ok((table, seat)) = PairTable::make(alloc, bits, 1) else {
        return println!(rt; "no table");
    };
    let mut works = engine_over(rt, &table, seat, 1);
    measure(rt, alloc, &mut works, task, size, way)
}

/// The task with this name.
fn task_of(word: Option<String>) -> Option<Task> {
    let word = word?;
    match word.as_str() {
        "random" => Some(Task::Closure(Graph::Random)),
        "acyclic" => Some(Task::Closure(Graph::Acyclic)),
        "cycle" => Some(Task::Closure(Graph::Cycle)),
        "inclusion" => Some(Task::Inclusion),
        _ => None,
    }
}

/// Measures what the words say.
pub fn run<R: Print + Clock + Threads + Sync>(
    rt: &R,
    alloc: Global,
    mut words: Args,
) -> io::Result<()> {
    let bits = table_bits(words.next());
    let task = task_of(words.next());
    let size = number(words.next());
    let (Some(bits), Some(task)) = (bits, task) else {
        return usage(rt);
    };
    if size == 0 || size > u64::from(MOST_VERTICES) {
        return usage(rt);
    }
    measure_alone(rt, alloc, bits, task, size as u32, Way::Quarters)?;
    match task {
        Task::Closure(_) => measure_alone(rt, alloc, bits, task, size as u32, Way::Squares),
        Task::Inclusion => Ok(()),
    }
}
