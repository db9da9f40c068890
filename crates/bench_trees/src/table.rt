//! Times inserts into the node table and hits: `bench_trees table BITS LOAD THREADS LOOKUPS`, with the load in percent.
ghost use Rattle.std.specs.Prelude.{◌≡◌, ◌≢◌, ◌<◌, ◌≤◌, ◌+◌, ◌^◌, IfOk};
ghost use Rattle.rel_model.specs.Views.{Table, View, IsOf};

use crate::chance::{SPREAD, next};
use crate::words::{number, table_bits, usage};
use pair_table::{PairTable, Seat};
use std::alloc::Global;
use std::env::Args;
use std::io;
use std::rt::Clock;
use std::thread::{Threads, join};
use std::time::Instant;

/// The work of one thread.
#[derive(Clone, Copy)]
enum Work {
    /// Interns the words with numbers `from` up to `to`.
    Insert { from: u64, to: u64 },
    /// Interns `count` words, picked at random among the first `stored`.
    Hit { stored: u64, count: u64, seed: u64 },
}

/// Does the work of one thread, and adds up the names.
#[inline(never)]
fn one(table: &PairTable, mut seat: Seat, work: Work) -> (Seat, u64)
    requires { IsOf seat table.now }
    ensures { IsOf result.0 table.now }
{
    let sum = match work {
        Work::Insert { from, to } => insert(table, &mut seat, from, to),
        Work::Hit {
            stored,
            count,
            seed,
        } => hit(table, &mut seat, stored, count, seed),
    };
    (seat, sum)
}

#[inline(never)]
fn insert(table: &PairTable, seat: &mut Seat, from: u64, to: u64) -> u64
    requires { IsOf seat.old table.now }
    ensures { IsOf seat.new table.now }
{
    let mut sum: u64 = 0;
    'each: for i in from..to {
        let word = i.wrapping_add(1).wrapping_mul(SPREAD);
        if word != 0 {
            if let Ok(name) = table.intern_block(seat, word) {
                sum = sum.wrapping_add(name as u64);
            }
        }
    }
    sum
}

#[inline(never)]
fn hit(table: &PairTable, seat: &mut Seat, stored: u64, count: u64, seed: u64) -> u64
    requires { IsOf seat.old table.now }
    ensures { IsOf seat.new table.now }
{
    let mut sum: u64 = 0;
    let mut state = seed;
    'each: for _i in 0..count {
        state = next(state);
        let i = (state >> 32).wrapping_mul(stored) >> 32;
        let word = i.wrapping_add(1).wrapping_mul(SPREAD);
        if word != 0 {
            if let Ok(name) = table.intern_block(seat, word) {
                sum = sum.wrapping_add(name as u64);
            }
        }
    }
    sum
}

/// Splits a work into two of half the size.
fn halves(work: Work) -> (Work, Work) {
    match work {
        Work::Insert { from, to } => {
            let middle = if from < to {
                from + (to - from) / 2
            } else {
                to
            };
            (
                Work::Insert { from, to: middle },
                Work::Insert { from: middle, to },
            )
        }
        Work::Hit {
            stored,
            count,
            seed,
        } => (
            Work::Hit {
                stored,
                count: count / 2,
                seed,
            },
            Work::Hit {
                stored,
                count: count / 2,
                seed: seed.wrapping_add(12345),
            },
        ),
    }
}

/// Does a work on two threads.
fn two<R: Threads + Sync>(rt: &R, table: &PairTable, mut seat: Seat, work: Work) -> (Seat, u64)
    requires of { IsOf seat table.now }
    requires room { 0 < seat.spare }
    ensures { IsOf result.0 table.now }
{
    let second = table.split(&mut seat, 0);
    let (left, right) = halves(work);
    let ((mut first, a), (second, b)) = join(
        rt,
        move || -> (Seat, u64)
            requires { IsOf seat table.now }
            ensures { IsOf result.0 table.entry.now }
        { one(table, seat, left) },
        move || -> (Seat, u64)
            requires { IsOf second table.now }
            ensures { IsOf result.0 table.entry.now }
        { one(table, second, right) },
    );
    table.join(&mut first, second);
    (first, a.wrapping_add(b))
}

/// Does a work on four threads.
fn four<R: Threads + Sync>(rt: &R, table: &PairTable, mut seat: Seat, work: Work) -> (Seat, u64)
    requires of { IsOf seat table.now }
    requires room { 2 < seat.spare }
    ensures { IsOf result.0 table.now }
{
    let second = table.split(&mut seat, 1);
    let (left, right) = halves(work);
    let ((mut first, a), (second, b)) = join(
        rt,
        || -> (Seat, u64)
            requires { IsOf seat table.now × (0 < seat.spare) }
            ensures { IsOf result.0 table.entry.now }
        { two(rt, table, seat, left) },
        || -> (Seat, u64)
            requires { IsOf second table.now × (0 < second.spare) }
            ensures { IsOf result.0 table.entry.now }
        { two(rt, table, second, right) },
    );
    table.join(&mut first, second);
    (first, a.wrapping_add(b))
}

/// Does a work on one or four threads.
fn share<R: Threads + Sync>(
    rt: &R,
    table: &PairTable,
    seat: Seat,
    threads: u64,
    work: Work,
) -> (Seat, u64)
    requires of { IsOf seat table.now }
    ensures { IsOf result.0 table.now }
{
    if threads == 4 && table.spare(&seat) >= 3 {
        return four(rt, table, seat, work);
    }
    one(table, seat, work)
}

/// Does a work on one or four threads, and tells how many nanoseconds it took.
fn timed<R: Threads + Sync + Clock>(
    rt: &R,
    table: &PairTable,
    seat: Seat,
    threads: u64,
    work: Work,
) -> io::Result<(Seat, u64, u128)>
    requires of { IsOf seat table.now }
    ensures of { IfOk result (λ done. IsOf done.0 table.now) }
{
    let start = Instant::now(rt)?;
    let (seat, sum) = share(rt, table, seat, threads, work);
    let time = start.elapsed(rt)?.as_nanos();
    Ok((seat, sum, time))
}

/// What is measured: a table and its load, the number of threads, and how often a word is looked up.
#[derive(Clone, Copy)]
struct Case {
    bits: u32,
    load: u64,
    threads: u64,
    lookups: u64,
}

fn measure<R: Threads + Sync + Print + Clock>(rt: &R, alloc: Global, case: Case) -> io::Result<()>
    requires low { 10 ≤ case.bits }
    requires high { case.bits ≤ 24 }
    requires load { case.load ≤ 100 }
{
    let places: u64 = 1 << case.bits;
    let stored = places * case.load / 100;
    let batch = places / 20;
    let before = stored.saturating_sub(batch);
    let Ok((table, seat)) = PairTable::make(alloc, case.bits, 4) else {
        return Ok(());
    };
    let (seat, filled) = one(
        &table,
        seat,
        Work::Insert {
            from: 0,
            to: before,
        },
    );
    let insert = Work::Insert {
        from: before,
        to: stored,
    };
    let (seat, inserted, inserting) = timed(rt, &table, seat, case.threads, insert)?;
    let hit = Work::Hit {
        stored,
        count: case.lookups,
        seed: 1,
    };
    let (_seat, found, finding) = timed(rt, &table, seat, case.threads, hit)?;
    let sum = filled.wrapping_add(inserted).wrapping_add(found);
    println!(rt;
        "{inserting} {} {finding} {} {sum}",
        stored - before,
        case.lookups
    )
}

/// Measures what the words say.
pub fn run<R: Threads + Sync + Print + Clock>(
    rt: &R,
    alloc: Global,
    mut words: Args,
) -> io::Result<()> {
    let bits = table_bits(words.next());
    let load = number(words.next());
    let threads = number(words.next());
    let lookups = number(words.next());
    let Some(bits) = bits else {
        return usage(rt);
    };
    if load > 100 {
        return usage(rt);
    }
    let case = Case {
        bits,
        load,
        threads,
        lookups,
    };
    measure(rt, alloc, case)
}
