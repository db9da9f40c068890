//! All sessions of a batch: their passes and workers are split off, run concurrently and joined again.
ghost use Rattle.std.specs.Prelude.{◌≡◌, ◌≤◌, ◌<◌, ◌+◌, ◌*◌, ◌^◌, ℕ, true, [], length, map, slice_index_or, vec_capacity, vec_len, All, Some};
ghost use Rattle.lang_model.specs.Limits.{script_limit};
ghost use Rattle.turn_book.specs.Joined.{JoinsAll};
ghost use Rattle.turn_book.specs.Views.{IsReady};
ghost use Rattle.rv_sessions.specs.Telling.{input_of};
ghost use Rattle.rv_runs.specs.Works.{IsFresh, CanJoin, RanWhereTold, Numbered, HaveHouse, HaveStart, SplitsAll, SplitsWorkers, TakesAll, pass_of, told_of};

use crate::work::{Work, run_work};
use rel_model::engine_trait::Engine;
use rel_model::watch::Watch;
use rel_slices::Remembers;
use run_model::files::Loaded;
use rv_sessions::{Seat, Transcript};
use rv_workspace::Book;
use std::alloc::Global;
use std::sync::Wait;
use std::thread;
use std::thread::Threads;
use turn_book::{Pass, TurnBook};

/// At most this many sessions run concurrently.
const MOST: usize = 64;

/// How many spare workers each session has.
const SEATS: u32 = 64;

/// Splits off a pass and a worker for each session. Sessions are numbered from `number` on.
pub fn split_all<E: Engine + Drop>(
    book: &TurnBook<Book<E>>,
    pass: &mut Pass<Book<E>>,
    engine: &mut E,
    number: u32,
    count: usize,
    works: &mut Vec<Work<E>>,
)
    requires ready { IsReady book.now pass.old }
    requires kin { (E.worker engine.old).house ≡ pass.old.house }
    requires few { number + count ≤ 65 }
    requires spare { pass.old.spare ≡ count }
    requires no_seen { pass.old.seen ≡ [] }
    requires seats { (E.worker engine.old).spare ≡ 65 * count }
    requires none { works.old.items ≡ [] }
    requires room { count ≤ vec_capacity works.old }
    ensures length { vec_len works.new ≡ count }
    ensures fresh { All (IsFresh E.worker book.now number count) works.new.items }
    ensures numbers { Numbered number works.new.items }
    ensures houses { HaveHouse pass.old.house works.new.items }
    ensures starts { HaveStart pass.old.start works.new.items }
    ensures splits { SplitsAll pass.old pass.new }
    ensures workers { SplitsWorkers count (E.worker engine.old) (E.worker engine.new) }
{
    'works: for i in 0..count {
        works.push_reserved(Work {
            number: number + i as u32,
            seat: Seat {
                pass: book.split_pass(pass),
                engine: engine.split(SEATS),
            },
            told: None,
        });
    }
}

/// Runs the sessions of all works concurrently.
pub fn run_works<E: Remembers + Drop + Send, R: Threads + Wait + Sync, W: Watch + Sync>(
    rt: &R,
    alloc: Global,
    scripts: &[Vec<u8>],
    number: u32,
    files: &[Loaded],
    turns: u64,
    book: &TurnBook<Book<E>>,
    watch: &W,
    works: &mut Vec<Work<E>>,
)
    requires few { number + length scripts.now ≤ 65 }
    requires limits { All (λ v. length v.items ≤ script_limit) scripts.now }
    requires fresh { All (IsFresh E.worker book.now number (length scripts.now)) works.old.items }
    requires numbers { Numbered number works.old.items }
    ensures ran { All (RanWhereTold E.worker E.least (input_of files.now turns) number
        (map (λ v. v.items) scripts.now)) works.new.items }
    ensures joins { All (CanJoin E.worker book.now) works.new.items }
    ensures numbers { Numbered number works.new.items }
    ensures houses { (k : ℕ) (d : _) → k < length works.old.items →
        (slice_index_or works.new.items k d).seat.pass.house ≡ (slice_index_or works.old.items k d).seat.pass.house }
    ensures starts { (k : ℕ) (d : _) → k < length works.old.items →
        (slice_index_or works.new.items k d).seat.pass.start ≡ (slice_index_or works.old.items k d).seat.pass.start }
    ensures length { vec_len works.new ≡ vec_len works.old }
{
    thread::for_each_mut(
        rt,
        works.as_mut_slice(),
        MOST,
        &|_, work| run_work(rt, alloc, scripts, number, files, turns, book, watch, work),
    );
}

/// Joins all passes and workers again. Returns whether every session has given its transcript.
pub fn join_all<E: Engine + Drop>(
    book: &TurnBook<Book<E>>,
    pass: &mut Pass<Book<E>>,
    engine: &mut E,
    works: Vec<Work<E>>,
    told: &mut Vec<Transcript>,
) -> bool
    requires ready { IsReady book.now pass.old }
    requires kin { (E.worker engine.old).house ≡ pass.old.house }
    requires joins { All (CanJoin E.worker book.now) works.items }
    requires houses { HaveHouse pass.old.house works.items }
    requires none { told.old.items ≡ [] }
    requires room { vec_len works ≤ vec_capacity told.old }
    ensures joins { JoinsAll (map pass_of works.items) pass.old pass.new }
    ensures takes { TakesAll E.worker works.items (E.worker engine.old) (E.worker engine.new) }
    ensures told { result ≡ true → map (λ t. Some t) told.new.items ≡ map told_of works.items }
{
    let mut whole = true;
    'works: for work in works {
        let Work {
            number: _,
            seat,
            told: answer,
        } = work;
        let Seat {
            pass: other,
            engine: theirs,
        } = seat;
        book.join_pass(pass, other);
        engine.join(theirs);
        match answer {
            Some(transcript) => told.push_reserved(transcript),
            None => whole = false,
        }
    }
    whole
}
