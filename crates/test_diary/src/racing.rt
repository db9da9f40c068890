//! Concurrent sessions.
ghost use Rattle.std.specs.Prelude.{◌≡◌, ◌≤◌, ◌<◌, ◌+◌, ℕ, [], length, map, slice_index_or, vec_capacity, vec_len, All, IfOk};
ghost use Rattle.test_diary.specs.declared.sessions.Work.{Work};
ghost use Rattle.turn_book.specs.Joined.{JoinsAll};
ghost use Rattle.turn_book.specs.Views.{IsReady};
ghost use Rattle.test_diary.specs.Runs.{IsFresh, IsRun, Numbered, SplitsAll, pass_of, told_of, Holds};

use crate::diary::Diary;
use crate::sessions::{Work, run_work};
use run_model::event::Event;
use std::alloc::Global;
use std::sync::Wait;
use std::thread;
use std::thread::Threads;
use turn_book::{NoMemory, Pass, TurnBook};

/// The greatest number of sessions.
pub const MOST: usize = 64;

/// How many commands each session entered, and the log.
#[derive(Drop)]
pub struct Report {
    pub told: Vec<u32>,
    pub log: Vec<Event>,
}

/// Splits a pass off for each session.
fn split_all(book: &TurnBook<Diary>, pass: &mut Pass<Diary>, counts: &[u32], works: &mut Vec<Work>)
    requires ready { IsReady book.now pass.old }
    requires few { length counts.now ≤ 64 }
    requires spare { pass.old.spare ≡ length counts.now }
    requires none { works.old.items ≡ [] }
    requires room { length counts.now ≤ vec_capacity works.old }
    ensures length { vec_len works.new ≡ length counts.now }
    ensures fresh { All (IsFresh book.now) works.new.items }
    ensures numbers { Numbered works.new.items }
    ensures splits { SplitsAll pass.old pass.new }
{
    'counts: for i in 0..counts.len() {
        works.push_reserved(Work {
            number: i as u32 + 1,
            count: counts[i],
            told: 0,
            pass: book.split_pass(pass),
        });
    }
}

/// Runs all sessions concurrently.
fn run_all<R: Threads + Wait + Sync>(rt: &R, book: &TurnBook<Diary>, works: &mut Vec<Work>)
    requires fresh { All (IsFresh book.now) works.old.items }
    requires numbers { Numbered works.old.items }
    ensures run { All (IsRun book.now) works.new.items }
    ensures numbers { Numbered works.new.items }
    ensures length { vec_len works.new ≡ vec_len works.old }
{
    thread::for_each_mut(
        rt,
        works.as_mut_slice(),
        MOST,
        &|_, work| run_work(rt, book, work),
    );
}

/// Joins all passes.
fn join_all(book: &TurnBook<Diary>, pass: &mut Pass<Diary>, works: Vec<Work>, told: &mut Vec<u32>)
    requires ready { IsReady book.now pass.old }
    requires run { All (IsRun book.now) works.items }
    requires none { told.old.items ≡ [] }
    requires room { vec_len works ≤ vec_capacity told.old }
    ensures joins { JoinsAll (map pass_of works.items) pass.old pass.new }
    ensures told { told.new.items ≡ map told_of works.items }
{
    'works: for work in works {
        let Work {
            number: _,
            count: _,
            told: made,
            pass: other,
        } = work;
        book.join_pass(pass, other);
        told.push_reserved(made);
    }
}

/// Runs sessions concurrently, each on its own pass. The log has each session's entries once and in order, and no
/// others.
pub fn race<R: Threads + Wait + Sync>(
    rt: &R,
    alloc: Global,
    house: u64,
    counts: &[u32],
) -> Result<Report, NoMemory>
    requires few { length counts.now ≤ 64 }
    ensures length { IfOk result (λ r. length r.told.items ≡ length counts.now) }
    ensures holds { IfOk result (λ r. Holds r.told.items r.log.items) }
{
    let Ok(mut works) = Vec::with_capacity(alloc, counts.len()) else {
        return Err(NoMemory);
    };
    let Ok(mut told) = Vec::with_capacity(alloc, counts.len()) else {
        return Err(NoMemory);
    };
    let first = Diary {
        house,
        events: Vec::new(alloc),
    };
    let (book, mut pass) = TurnBook::make(alloc, first, counts.len() as u32 + 1)?;
    split_all(&book, &mut pass, counts, &mut works);
    run_all(rt, &book, &mut works);
    join_all(&book, &mut pass, works, &mut told);
    let Diary { house: _, events } = book.close(pass);
    Ok(Report { told, log: events })
}
