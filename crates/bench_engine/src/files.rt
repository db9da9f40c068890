//! Times writing relations to files, reading them back and showing them: `bench_engine files BITS TASK HEIGHT PAIRS`,
//! in tables of 2^BITS words, for a relation of 2^HEIGHT rows and columns.
//!
//! Times are processor times in nanoseconds, so other work on the machine adds little to them. The tasks are `random`,
//! PAIRS random pairs written and read, and `full`, all pairs; `shared`, random pairs in a file of version 2, read as a
//! whole and then by name; `matrix` and `listing` of PAIRS random pairs; and `check`, which writes and reads a file of
//! each version and prints no time.
mod several;

ghost use Rattle.std.specs.Prelude.{◌≡◌, ◌≤◌, ◌<◌, IfSome};
ghost use Rattle.rel_model.specs.Relation.{size_limit};
ghost use Rattle.rel_model.specs.Worker.{Stands};

use crate::chance::random_pairs;
use crate::engines::{engine_over, from_list};
use crate::files::several::{read_a, read_last, write_several};
use crate::words::{number, table_bits, usage};
use k2_file::{read_k2, write_k2};
use pair_table::PairTable;
use rel_model::core_trait::Core;
use rel_model::engine_trait::Engine;
use rel_model::{Rel, Shape};
use rv_print::{listing, matrix};
use std::alloc::Global;
use std::env::Args;
use std::io;
use std::rt::CpuClock;
use std::thread::Threads;

/// What is measured.
#[derive(Clone, Copy, PartialEq, Eq)]
enum Task {
    Check,
    Random,
    Full,
    Matrix,
    Listing,
}

/// How a file is written and read: as version 1; as version 2, read as a whole; or as version 2, read by a name.
#[derive(Clone, Copy, PartialEq, Eq)]
enum Form {
    One,
    Several,
    OneOfSeveral,
}

/// A task with the form of its file, and the sizes and the number of pairs of its relation.
#[derive(Clone, Copy)]
struct Work {
    task: Task,
    form: Form,
    side: u32,
    pairs: u64,
}

/// The relation of a task.
fn built<E: Engine>(alloc: Global, engine: &mut E, work: Work) -> Option<Rel>
    requires some { 0 < work.side }
    requires few { work.side ≤ size_limit }
    ensures { IfSome result (Stands (E.worker engine.new)) }
{
    let shape = Shape {
        rows: work.side,
        cols: work.side,
    };
    if work.task == Task::Full {
        return match engine.full(shape) {
            Ok(rel) => Some(rel),
            Err(_) => None,
        };
    }
    let pairs = random_pairs(alloc, work.side, work.pairs, 1);
    from_list(alloc, engine, shape, pairs)
}

/// A checksum of bytes, which depends on their places.
fn sum_of(bytes: &[u8]) -> u64 {
    let mut sum: u64 = 0;
    'bytes: for byte in bytes {
        sum = sum.wrapping_mul(31).wrapping_add(u64::from(*byte));
    }
    sum
}

/// Prints how long writing a relation takes, or only what was written, and gives the bytes.
fn measure_writing<R: Print + CpuClock, E: Engine>(
    rt: &R,
    alloc: Global,
    engine: &mut E,
    work: Work,
    rel: Rel,
) -> io::Result<Vec<u8>>
    requires { Stands (E.worker engine.old) rel }
{
    let start = rt.process_cpu_time()?.as_nanos();
    let answer = match work.form {
        Form::One => write_k2(alloc, engine, rel),
        _ => write_several(alloc, engine, rel),
    };
    let time = rt.process_cpu_time()?.as_nanos().saturating_sub(start);
    let Ok(bytes) = answer else {
        println!(rt; "not written")?;
        return Ok(Vec::new(alloc));
    };
    let sum = sum_of(bytes.as_slice());
    if work.task == Task::Check {
        println!(rt; "{} bytes, of the sum {sum}", bytes.len())?;
    } else {
        println!(rt; "write {time} {} {sum} {}", bytes.len(), rel.root)?;
    }
    Ok(bytes)
}

/// Prints how long reading a file takes, or only what was read.
fn measure_reading<R: Print + CpuClock, E: Engine>(
    rt: &R,
    alloc: Global,
    engine: &mut E,
    work: Work,
    bytes: &[u8],
) -> io::Result<()> {
    let start = rt.process_cpu_time()?.as_nanos();
    let answer = match work.form {
        Form::One => read_k2(alloc, engine, bytes),
        Form::Several => read_last(alloc, engine, bytes),
        Form::OneOfSeveral => read_a(alloc, engine, bytes),
    };
    let time = rt.process_cpu_time()?.as_nanos().saturating_sub(start);
    let Ok(rel) = answer else {
        return println!(rt; "not read");
    };
    if work.task == Task::Check {
        return println!(rt; "read as the name {}", rel.root);
    }
    println!(rt; "read {time} {}", rel.root)
}

/// Prints how long a matrix or a listing takes.
fn measure_showing<R: Print + CpuClock, E: Engine>(
    rt: &R,
    alloc: Global,
    engine: &mut E,
    task: Task,
    rel: Rel,
) -> io::Result<()>
    requires { Stands (E.worker engine.old) rel }
{
    let start = rt.process_cpu_time()?.as_nanos();
    let answer = match task {
        Task::Matrix => matrix(alloc, engine, rel),
        _ => listing(alloc, engine, rel),
    };
    let time = rt.process_cpu_time()?.as_nanos().saturating_sub(start);
    match answer {
        Ok(text) => println!(rt; "show {time} {}", text.len()),
        Err(_) => println!(rt; "not shown"),
    }
}

/// Builds the relation of a task in a table of its own and writes or shows it, and gives the bytes that were written.
fn first_table<R: Print + CpuClock + Threads + Sync>(
    rt: &R,
    alloc: Global,
    bits: u32,
    work: Work,
) -> io::Result<Vec<u8>>
    requires low { 10 ≤ bits }
    requires high { bits ≤ 24 }
    requires some { 0 < work.side }
    requires few { work.side ≤ size_limit }
{
    let Ok((table, seat)) = PairTable::make(alloc, bits, 1) else {
        println!(rt; "no table")?;
        return Ok(Vec::new(alloc));
    };
    let mut engine = engine_over(rt, &table, seat, 1);
    let Some(rel) = built(alloc, &mut engine, work) else {
        println!(rt; "no relation")?;
        return Ok(Vec::new(alloc));
    };
    match work.task {
        Task::Matrix | Task::Listing => {
            measure_showing(rt, alloc, &mut engine, work.task, rel)?;
            Ok(Vec::new(alloc))
        }
        _ => measure_writing(rt, alloc, &mut engine, work, rel),
    }
}

/// Reads a file into a table of its own, and again when its nodes are there already.
fn second_table<R: Print + CpuClock + Threads + Sync>(
    rt: &R,
    alloc: Global,
    bits: u32,
    work: Work,
    bytes: &[u8],
) -> io::Result<()>
    requires low { 10 ≤ bits }
    requires high { bits ≤ 24 }
{
    let Ok((table, seat)) = PairTable::make(alloc, bits, 1) else {
        return println!(rt; "no table");
    };
    let mut engine = engine_over(rt, &table, seat, 1);
    measure_reading(rt, alloc, &mut engine, work, bytes)?;
    let form = match work.form {
        Form::One => Form::One,
        _ => Form::OneOfSeveral,
    };
    measure_reading(rt, alloc, &mut engine, Work { form, ..work }, bytes)
}

/// Writes a relation in one table and reads its file in another, or shows it.
fn both_tables<R: Print + CpuClock + Threads + Sync>(
    rt: &R,
    alloc: Global,
    bits: u32,
    work: Work,
) -> io::Result<()>
    requires low { 10 ≤ bits }
    requires high { bits ≤ 24 }
    requires some { 0 < work.side }
    requires few { work.side ≤ size_limit }
{
    let bytes = first_table(rt, alloc, bits, work)?;
    match work.task {
        Task::Matrix | Task::Listing => Ok(()),
        _ => second_table(rt, alloc, bits, work, bytes.as_slice()),
    }
}

/// The task with this name, and the form of its file.
fn task_of(word: Option<String>) -> Option<(Task, Form)> {
    let word = word?;
    match word.as_str() {
        "check" => Some((Task::Check, Form::One)),
        "random" => Some((Task::Random, Form::One)),
        "shared" => Some((Task::Random, Form::Several)),
        "full" => Some((Task::Full, Form::One)),
        "matrix" => Some((Task::Matrix, Form::One)),
        "listing" => Some((Task::Listing, Form::One)),
        _ => None,
    }
}

/// The side of a square of a height.
fn side_of(height: u64) -> u32
    requires { height ≤ 24 }
    ensures some { 0 < result }
    ensures few { result ≤ size_limit }
{
    let side = 1u32 << (height as u32);
    side.min(16_777_216).max(1)
}

/// Measures what the words say.
pub fn run<R: Print + CpuClock + Threads + Sync>(
    rt: &R,
    alloc: Global,
    mut words: Args,
) -> io::Result<()> {
    let bits = table_bits(words.next());
    let task = task_of(words.next());
    let height = number(words.next());
    let pairs = number(words.next());
    let (Some(bits), Some((task, form))) = (bits, task) else {
        return usage(rt);
    };
    if height > 24 {
        return usage(rt);
    }
    let side = side_of(height);
    let work = Work {
        task,
        form,
        side,
        pairs,
    };
    both_tables(rt, alloc, bits, work)?;
    if task == Task::Check {
        let form = Form::Several;
        return both_tables(rt, alloc, bits, Work { form, ..work });
    }
    Ok(())
}
