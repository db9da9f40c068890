//! Times turns: `bench_texts turns PASSES TURNS`, with TURNS turns for each pass, and all passes at once.
ghost use Rattle.std.specs.Prelude.{◌≡◌, ◌≤◌, ◌<◌, ◌+◌, ◌-◌, [], length, vec_capacity, vec_len, All};
ghost use Rattle.turn_book.specs.Views.{Book, View, IsReady};
ghost use Rattle.bench_texts.specs.Works.{IsWork};

use crate::words::{number, usage};
use run_model::event::{Act, Event};
use std::alloc::Global;
use std::env::Args;
use std::rt::Clock;
use std::sync::Wait;
use std::sync::atomic::{AtomicU64, Ordering};
use std::thread::Threads;
use std::time::Instant;
use std::{io, thread};
use turn_book::{Kept, Pass, TurnBook};

/// What is kept: a list of events.
#[derive(Drop)]
pub struct Diary {
    pub events: Vec<Event>,
}

impl Kept for Diary {
    ghost use base.Stored.{coded_ℕ};
    ghost use Rattle.turn_book.specs.Views.{no_start};

    ghost log = { λ d. d.events.items };

    ghost house = { λ _. coded_ℕ.code 0 };

    ghost start = { λ _. no_start };
}

/// The work of one thread: a number of turns, and when they began and ended, in nanoseconds.
#[derive(Drop)]
pub struct Work {
    pub number: u32,
    pub turns: u32,
    pub pass: Pass<Diary>,
    pub began: u128,
    pub ended: u128,
}

/// One turn: an event is appended to the others.
fn turn<R: Wait>(rt: &R, book: &TurnBook<Diary>, pass: &mut Pass<Diary>, session: u32, command: u32)
    requires ready { IsReady book.now pass.old }
    ensures ready { IsReady book.now pass.new }
{
    let mut diary = book.take(rt, pass);
    let _ = diary
        .events
        .push(Event {
            session,
            command,
            act: Act::Read,
        })
        .is_ok();
    book.put(pass, diary);
}

/// The turns of one thread.
#[inline(never)]
fn take_turns<R: Wait>(
    rt: &R,
    book: &TurnBook<Diary>,
    pass: &mut Pass<Diary>,
    session: u32,
    count: u32,
)
    requires ready { IsReady book.now pass.old }
    ensures ready { IsReady book.now pass.new }
{
    'turns: for command in 0..count {
        turn(rt, book, pass, session, command);
    }
}

/// Waits a while for the others, so that all threads begin at once.
fn meet(there: &AtomicU64, wanted: u64) {
    there.fetch_add(1, Ordering::SeqCst);
    for _ in 0..4_000_000u32 {
        if there.load(Ordering::SeqCst) >= wanted {
            break;
        }
        thread::yield_now();
    }
}

fn nanos<R: Clock>(rt: &R, base: &Instant) -> u128 {
    match base.elapsed(rt) {
        Ok(passed) => passed.as_nanos(),
        Err(_) => 0,
    }
}

/// Does the work of one thread.
fn run_work<R: Wait + Clock>(
    rt: &R,
    book: &TurnBook<Diary>,
    base: &Instant,
    there: &AtomicU64,
    wanted: u64,
    work: &mut Work,
)
    requires of { IsWork book.now work.old }
    ensures of { IsWork book.now work.new }
{
    meet(there, wanted);
    work.began = nanos(rt, base);
    take_turns(rt, book, &mut work.pass, work.number, work.turns);
    work.ended = nanos(rt, base);
}

fn run_all<R: Threads + Wait + Clock + Sync>(
    rt: &R,
    book: &TurnBook<Diary>,
    base: &Instant,
    works: &mut Vec<Work>,
)
    requires of { All (IsWork book.now) works.old.items }
    ensures of { All (IsWork book.now) works.new.items }
{
    let there = AtomicU64::new(0);
    let wanted = works.len() as u64;
    thread::for_each_mut(
        rt,
        works.as_mut_slice(),
        64,
        &|_, work| run_work(rt, book, base, &there, wanted, work),
    );
}

/// Splits a pass off for each thread.
fn split_all(
    book: &TurnBook<Diary>,
    pass: &mut Pass<Diary>,
    passes: u32,
    turns: u32,
    works: &mut Vec<Work>,
)
    requires ready { IsReady book.now pass.old }
    requires spare { passes ≤ pass.old.spare }
    requires none { works.old.items ≡ [] }
    requires room { passes ≤ vec_capacity works.old }
    ensures ready { IsReady book.now pass.new }
    ensures of { All (IsWork book.now) works.new.items }
{
    'works: for i in 0..passes {
        works.push_reserved(Work {
            number: i,
            turns,
            pass: book.split_pass(pass),
            began: 0,
            ended: 0,
        });
    }
}

/// The time from the first turn's beginning to the last turn's end.
fn span(works: &Vec<Work>) -> u128 {
    let mut first = u128::MAX;
    let mut last = 0;
    for work in works {
        first = first.min(work.began);
        last = last.max(work.ended);
    }
    last.saturating_sub(first)
}

/// Times the turns, and prints the nanoseconds and how many events were put.
fn measure<R: Threads + Wait + Clock + Print + Sync>(
    rt: &R,
    alloc: Global,
    passes: u32,
    turns: u32,
) -> io::Result<()>
    requires few { (1 ≤ passes) × (passes ≤ 64) }
    requires turns { turns ≤ 10000000 }
{
    let Ok(mut works) = Vec::with_capacity(alloc, passes as usize) else {
        return Ok(());
    };
    let Ok(events) = Vec::with_capacity(alloc, passes as usize * turns as usize) else {
        return Ok(());
    };
    let Ok((book, mut pass)) = TurnBook::make(alloc, Diary { events }, passes + 1) else {
        return Ok(());
    };
    split_all(&book, &mut pass, passes, turns, &mut works);
    let base = Instant::now(rt)?;
    run_all(rt, &book, &base, &mut works);
    let diary = book.take(rt, &mut pass);
    println!(rt; "{} {}", span(&works), diary.events.len())
}

/// Measures what the words say.
pub fn run<R: Threads + Wait + Clock + Print + Sync>(
    rt: &R,
    alloc: Global,
    mut words: Args,
) -> io::Result<()> {
    let passes = number(words.next());
    let turns = number(words.next());
    if passes < 1 || passes > 64 || turns > 10_000_000 {
        return usage(rt);
    }
    measure(rt, alloc, passes as u32, turns as u32)
}
