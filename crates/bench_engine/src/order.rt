//! Times orders and classes: `bench_engine order BITS TASK SIZE`, in a table of 2^BITS words.
//!
//! The tasks are `less`, the strict order of SIZE elements; `hasse`, the Hasse diagram of a chain of SIZE elements;
//! `blocks` and `residues`, the classes of an equivalence of SIZE * SIZE elements, by their quotients and by their
//! remainders. The line has the task, the nanoseconds of the single call, and how many pairs its answer has.
ghost use Rattle.std.specs.Prelude.{◌≡◌, ◌≤◌, IfOk, IfSome};
ghost use Rattle.rel_model.specs.Relation.{size_limit};
ghost use Rattle.rel_model.specs.Worker.{Stands};

use crate::words::{number, table_bits, usage};
use fork_quads::{Crew, OpenGate};
use pair_table::PairTable;
use rel_choice::count;
use rel_domains::{first, second};
use rel_model::core_trait::Core;
use rel_model::quads_trait::Quads;
use rel_model::{Lack, Rel, SIZE_LIMIT, Shape};
use rel_order::{hasse, less, quot};
use std::alloc::Global;
use std::env::Args;
use std::io;
use std::rt::Clock;
use std::thread::Threads;
use std::time::Instant;

/// What makes elements equivalent.
#[derive(Clone, Copy)]
enum Part {
    Quotient,
    Remainder,
}

/// What is measured.
#[derive(Clone, Copy)]
enum Task {
    Less,
    Hasse,
    Classes(Part),
}

/// How many pairs an answer has; 0 if there is none.
fn pairs_of<Q: Quads>(alloc: Global, q: &mut Q, answer: Result<Rel, Lack>) -> u64
    requires { IfOk answer (Stands (Q.worker q.old)) }
{
    let Ok(rel) = answer else {
        return 0;
    };
    count(alloc, q, rel).unwrap_or(0)
}

/// The strict order of n elements.
fn ordered<Q: Quads>(q: &mut Q, n: u32) -> Result<Rel, Lack>
    requires { n ≤ size_limit }
    ensures { IfOk result (λ r. Stands (Q.worker q.new) r × (r.rows ≡ n) × (r.cols ≡ n)) }
{
    less(q, n)
}

/// The chain of n elements: all pairs except those of a greater and a lesser element.
fn chain<Q: Quads>(q: &mut Q, n: u32) -> Result<Rel, Lack>
    requires { n ≤ size_limit }
    ensures { IfOk result (λ r. Stands (Q.worker q.new) r × (r.rows ≡ n) × (r.cols ≡ n)) }
{
    let lesser = ordered(q, n)?;
    let greater = q.transpose(lesser)?;
    let all = q.full(Shape { rows: n, cols: n })?;
    q.diff(all, greater)
}

/// The projection of the pairs of elements to one of their two parts.
fn projection<Q: Quads>(q: &mut Q, side: u32, part: Part) -> Option<Rel>
    requires { side ≤ size_limit }
    ensures { IfSome result (Stands (Q.worker q.new)) }
{
    let answer = match part {
        Part::Quotient => first(q, side, side),
        Part::Remainder => second(q, side, side),
    };
    match answer {
        Ok(rel) => Some(rel),
        Err(_) => None,
    }
}

/// The equivalence of elements with the same image.
fn equivalence<Q: Quads>(q: &mut Q, map: Rel) -> Result<Rel, Lack>
    requires { Stands (Q.worker q.old) map }
    ensures { IfOk result (λ r. Stands (Q.worker q.new) r × (r.rows ≡ r.cols)) }
{
    let turned = q.transpose(map)?;
    q.compose(map, turned)
}

/// Measures the strict order.
fn measure_less<R: Print + Clock, Q: Quads>(
    rt: &R,
    alloc: Global,
    q: &mut Q,
    n: u32,
) -> io::Result<()>
    requires { n ≤ size_limit }
{
    let start = Instant::now(rt)?;
    let answer = less(q, n);
    let time = start.elapsed(rt)?.as_nanos();
    let pairs = pairs_of(alloc, q, answer);
    println!(rt; "less {time} {pairs}")
}

/// Measures the Hasse diagram of a chain.
fn measure_hasse<R: Print + Clock, Q: Quads>(
    rt: &R,
    alloc: Global,
    q: &mut Q,
    n: u32,
) -> io::Result<()>
    requires { n ≤ size_limit }
{
    let Ok(order) = chain(q, n) else {
        return println!(rt; "no chain");
    };
    let start = Instant::now(rt)?;
    let answer = hasse(q, order);
    let time = start.elapsed(rt)?.as_nanos();
    let pairs = pairs_of(alloc, q, answer);
    println!(rt; "hasse {time} {pairs}")
}

/// Measures the classes of an equivalence.
fn measure_classes<R: Print + Clock, Q: Quads>(
    rt: &R,
    alloc: Global,
    q: &mut Q,
    side: u32,
    part: Part,
) -> io::Result<()>
    requires { side ≤ size_limit }
{
    let Some(map) = projection(q, side, part) else {
        return println!(rt; "no projection");
    };
    let Ok(alike) = equivalence(q, map) else {
        return println!(rt; "no equivalence");
    };
    let start = Instant::now(rt)?;
    let answer = quot(q, alike);
    let time = start.elapsed(rt)?.as_nanos();
    let pairs = pairs_of(alloc, q, answer);
    println!(rt; "quot {time} {pairs}")
}

/// Measures a task in a table of its own.
fn measure<R: Print + Clock + Threads + Sync>(
    rt: &R,
    alloc: Global,
    bits: u32,
    task: Task,
    size: u32,
) -> io::Result<()>
    requires low { 10 ≤ bits }
    requires high { bits ≤ 24 }
    requires few { size ≤ size_limit }
{
    let Ok((table, seat)) = PairTable::make(alloc, bits, 1) else {
        return println!(rt; "no table");
    };
    let mut crew = Crew::new(rt, &table, seat, 1, &OpenGate);
    match task {
        Task::Less => measure_less(rt, alloc, &mut crew, size),
        Task::Hasse => measure_hasse(rt, alloc, &mut crew, size),
        Task::Classes(part) => measure_classes(rt, alloc, &mut crew, size, part),
    }
}

/// The task with this name.
fn task_of(word: Option<String>) -> Option<Task> {
    let word = word?;
    match word.as_str() {
        "less" => Some(Task::Less),
        "hasse" => Some(Task::Hasse),
        "blocks" => Some(Task::Classes(Part::Quotient)),
        "residues" => Some(Task::Classes(Part::Remainder)),
        _ => None,
    }
}

/// Measures what the words say.
pub fn run<R: Print + Clock + Threads + Sync>(
    rt: &R,
    alloc: Global,
    mut words: Args,
) -> io::Result<()> {
    let bits = table_bits(words.next());
    let task = task_of(words.next());
    let size = number(words.next());
    let (Some(bits), Some(task)) = (bits, task) else {
        return usage(rt);
    };
    if size > u64::from(SIZE_LIMIT) {
        return usage(rt);
    }
    measure(rt, alloc, bits, task, size as u32)
}
