//! Measures evaluations, and the engine calls of them alone: `bench_engine eval TASK COUNT`.
//!
//! The tasks are `turns`, a loop of COUNT turns that complements a relation with one row and one column; `calls`, the
//! same with a function call in each turn, and again with an assignment instead; and `chain`, a union of COUNT
//! operands. Each line has a name, COUNT and nanoseconds.
mod alone;
mod scripts;

ghost use Rattle.std.specs.Prelude.{◌≡◌, IfSome};
ghost use Rattle.rel_model.specs.Worker.{Stands, Keeps};
ghost use Rattle.rv_eval.specs.Names.{AllStand};

use crate::engines::{engine_over, named_a};
use crate::eval::alone::{turns_alone, unions_alone};
use crate::eval::scripts::{chain, checked_of, expression};
use crate::words::{number, usage};
use lang_model::syntax::Name;
use pair_table::PairTable;
use rel_model::{Rel, Shape};
use rel_slices::Remembers;
use rv_eval::{Refused, eval};
use rv_types::Checked;
use std::alloc::Global;
use std::env::Args;
use std::io;
use std::rt::Clock;
use std::thread::Threads;
use std::time::Instant;

/// The greatest count.
const MOST: u64 = 100_000_000;

/// What is measured.
#[derive(Clone, Copy)]
enum Task {
    Turns,
    Calls,
    Chain,
}

/// A loop that complements its variable in each turn.
const COMPLEMENTS: &[u8] = b"W(C) DECL x BEG x = C; WHILE C DO x = -x OD RETURN x END. PRINT W(A).";

/// A loop that assigns its variable to itself in each turn.
const ASSIGNMENTS: &[u8] = b"W(C) DECL x BEG x = C; WHILE C DO x = x OD RETURN x END. PRINT W(A).";

/// A loop that calls a function in each turn.
const CALLS: &[u8] =
    b"F(R) = R. W(C) DECL x BEG x = C; WHILE C DO x = F(x) OD RETURN x END. PRINT W(A).";

/// The full relation with one row and one column.
fn point<E: Remembers>(engine: &mut E) -> Option<Rel>
    ensures { IfSome result (λ r. Stands (E.worker engine.new) r × (r.rows ≡ 1) × (r.cols ≡ 1)) }
{
    match engine.full(Shape { rows: 1, cols: 1 }) {
        Ok(rel) => Some(rel),
        Err(_) => None,
    }
}

/// The name A, bound to a relation that stands.
#[tactic(auto, using(crate::proofs::Standing::one_name))]
fn named<E: Remembers>(alloc: Global, engine: &E, rel: Rel) -> Option<Vec<(Name, Rel)>>
    requires { Stands (E.worker engine.now) rel }
    ensures { IfSome result (λ names. AllStand (E.worker engine.now) names.items) }
{
    match named_a(alloc, rel) {
        Some(names) => Some(names),
        None => None,
    }
}

/// How an evaluation ended.
fn end_of(answer: &Result<Rel, Refused>) -> &'static str {
    match answer {
        Ok(_) => "value",
        Err(Refused::Turns { .. }) => "turns",
        Err(_) => "refused",
    }
}

/// Prints how long it takes to evaluate the last item of a script.
fn measure_eval<R: Print + Clock, E: Remembers>(
    rt: &R,
    alloc: Global,
    engine: &mut E,
    label: &str,
    text: &[u8],
    names: &[(Name, Rel)],
    turns: u64,
) -> io::Result<()>
    requires { AllStand (E.worker engine.old) names.now }
    ensures { Keeps (E.worker engine.old) (E.worker engine.new) }
{
    let Some(checked) = checked_of(alloc, text) else {
        return println!(rt; "no script");
    };
    let Some(expr) = expression(&checked) else {
        return println!(rt; "no expression");
    };
    let start = Instant::now(rt)?;
    let answer = eval(alloc, engine, &checked, names, expr, turns);
    let time = start.elapsed(rt)?.as_nanos();
    let end = end_of(&answer);
    println!(rt; "{label} {turns} {time} {end}")
}

/// Prints how long the engine calls of this many turns take.
fn measure_turns_alone<R: Print + Clock, E: Remembers>(
    rt: &R,
    engine: &mut E,
    r: Rel,
    count: u64,
) -> io::Result<()>
    requires { Stands (E.worker engine.old) r × (r.rows ≡ 1) × (r.cols ≡ 1) }
{
    let start = Instant::now(rt)?;
    let end = turns_alone(engine, r, count);
    let time = start.elapsed(rt)?.as_nanos();
    println!(rt;
        "turns-alone {count} {time} {}",
        if end.is_some() { "value" } else { "refused" }
    )
}

/// Prints how long this many unions take, one fewer than there are operands.
fn measure_unions_alone<R: Print + Clock, E: Remembers>(
    rt: &R,
    engine: &mut E,
    r: Rel,
    count: u64,
) -> io::Result<()>
    requires { Stands (E.worker engine.old) r }
{
    let start = Instant::now(rt)?;
    let end = unions_alone(engine, r, count);
    let time = start.elapsed(rt)?.as_nanos();
    println!(rt;
        "chain-alone {count} {time} {}",
        if end.is_some() { "value" } else { "refused" }
    )
}

/// Measures a task over an engine.
#[tactic(auto, using(crate::proofs::Standing::names_kept, rel_model::proofs::Workers::keeps_stands))]
fn measure<R: Print + Clock, E: Remembers>(
    rt: &R,
    alloc: Global,
    engine: &mut E,
    task: Task,
    count: u32,
) -> io::Result<()> {
    let Some(rel) = point(engine) else {
        return println!(rt; "no table");
    };
    let Some(names) = named(alloc, engine, rel) else {
        return println!(rt; "no memory");
    };
    let names = names.as_slice();
    let turns = u64::from(count);
    match task {
        Task::Turns => {
            measure_eval(rt, alloc, engine, "turns", COMPLEMENTS, names, turns)?;
            measure_turns_alone(rt, engine, rel, turns)
        }
        Task::Calls => {
            measure_eval(rt, alloc, engine, "calls", CALLS, names, turns)?;
            measure_eval(rt, alloc, engine, "assignments", ASSIGNMENTS, names, turns)
        }
        Task::Chain => {
            let Ok(text) = chain(alloc, count) else {
                return println!(rt; "no memory");
            };
            measure_eval(rt, alloc, engine, "chain", text.as_slice(), names, turns)?;
            measure_unions_alone(rt, engine, rel, turns)
        }
    }
}

/// Measures a task over its own table.
fn measure_alone<R: Print + Clock + Threads + Sync>(
    rt: &R,
    alloc: Global,
    task: Task,
    count: u32,
) -> io::Result<()> {
    let Ok((table, seat)) = PairTable::make(alloc, 16, 1) else {
        return println!(rt; "no table");
    };
    let mut works = engine_over(rt, &table, seat, 1);
    measure(rt, alloc, &mut works, task, count)
}

/// The task with this name.
fn task_of(word: Option<String>) -> Option<Task> {
    let word = word?;
    match word.as_str() {
        "turns" => Some(Task::Turns),
        "calls" => Some(Task::Calls),
        "chain" => Some(Task::Chain),
        _ => None,
    }
}

/// Measures what the words say.
pub fn run<R: Print + Clock + Threads + Sync>(
    rt: &R,
    alloc: Global,
    mut words: Args,
) -> io::Result<()> {
    let task = task_of(words.next());
    let count = number(words.next());
    let Some(task) = task else {
        return usage(rt);
    };
    if count == 0 || count > MOST {
        return usage(rt);
    }
    measure_alone(rt, alloc, task, count as u32)
}
