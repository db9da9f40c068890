//! Turns whose ticket numbers wrap around at 2^64, while a pass sleeps and is woken.
ghost use Rattle.std.specs.Prelude.{◌≡◌};
ghost use Rattle.turn_book.specs.Views.{IsReady};

use crate::{Kept, Pass, TurnBook};
use run_model::event::{Act, Event};
use std::process::Abort;
use std::rt::Clock;
use std::sync::Wait;
use std::sync::atomic::{AtomicU64, Ordering};
use std::test::Fail;
use std::thread;
use std::thread::{Threads, join};
use std::time::Duration;

/// A list of events.
#[derive(Drop)]
struct Lines {
    events: Vec<Event>,
}

impl Kept for Lines {
    ghost use base.Stored.{coded_ℕ};
    ghost use Rattle.turn_book.specs.Views.{no_start};

    ghost log = { λ l. l.events.items };

    ghost house = { λ _. coded_ℕ.code 0 };

    ghost start = { λ _. no_start };
}

/// Takes a number of turns, and holds each for some time.
fn hold<R: Wait + Clock>(
    rt: &R,
    book: &TurnBook<Lines>,
    mut pass: Pass<Lines>,
    session: u32,
    turns: u32,
    time: Duration,
) -> Pass<Lines>
    requires ready { IsReady book.now pass }
    ensures ready { IsReady book.now result }
    ensures spare { result.spare ≡ pass.spare }
{
    'turns: for command in 0..turns {
        let mut lines = book.take(rt, &mut pass);
        let _ = lines
            .events
            .push(Event {
                session,
                command,
                act: Act::Read,
            })
            .is_ok();
        thread::sleep(rt, time);
        book.put(&mut pass, lines);
    }
    pass
}

/// Aborts the test if it is not done within a number of hundredths of a second.
fn watch<R: Clock + Abort>(rt: &R, done: &AtomicU64, hundredths: u32) {
    for _ in 0..hundredths {
        if done.load(Ordering::SeqCst) != 0 {
            return;
        }
        thread::sleep(rt, Duration::from_millis(10));
    }
    panic!(rt; "the time limit of the test has passed")
}

/// Two passes hold turns at once.
fn both_hold<R: Threads + Wait + Clock + Sync>(
    rt: &R,
    book: &TurnBook<Lines>,
    first: Pass<Lines>,
    second: Pass<Lines>,
    time: Duration,
) -> (Pass<Lines>, Pass<Lines>)
    requires first { IsReady book.now first }
    requires second { IsReady book.now second }
    ensures first { IsReady book.now result.0 }
    ensures second { IsReady book.now result.1 }
    ensures spare { (result.0.spare ≡ first.spare) × (result.1.spare ≡ second.spare) }
{
    join(
        rt,
        move || -> Pass<Lines>
            requires ready { IsReady book.now first }
            ensures ready { IsReady book.entry.now result }
            ensures spare { result.spare ≡ first.spare }
        { hold(rt, book, first, 1, 25, time) },
        move || -> Pass<Lines>
            requires ready { IsReady book.now second }
            ensures ready { IsReady book.entry.now result }
            ensures spare { result.spare ≡ second.spare }
        { hold(rt, book, second, 2, 25, time) },
    )
}

/// The same, with a time limit.
fn both_hold_in_time<R: Threads + Wait + Clock + Abort + Sync>(
    rt: &R,
    book: &TurnBook<Lines>,
    first: Pass<Lines>,
    second: Pass<Lines>,
    done: &AtomicU64,
) -> (Pass<Lines>, Pass<Lines>)
    requires first { IsReady book.now first }
    requires second { IsReady book.now second }
    ensures first { IsReady book.now result.0 }
    ensures second { IsReady book.now result.1 }
    ensures spare { (result.0.spare ≡ first.spare) × (result.1.spare ≡ second.spare) }
{
    let (both, ()) = join(
        rt,
        move || -> (Pass<Lines>, Pass<Lines>)
            requires first { IsReady book.now first }
            requires second { IsReady book.now second }
            ensures first { IsReady book.entry.now result.0 }
            ensures second { IsReady book.entry.now result.1 }
            ensures spare { (result.0.spare ≡ first.spare) × (result.1.spare ≡ second.spare) }
        {
            let both = both_hold(rt, book, first, second, Duration::from_millis(4));
            done.store(1, Ordering::SeqCst);
            both
        },
        || watch(rt, done, 2000),
    );
    both
}

#[test]
fn tickets_pass_the_end_of_their_numbers_while_passes_sleep(rt: HostRuntime) -> Result<(), Fail> {
    let lines = Lines {
        events: Vec::new(rt.alloc()),
    };
    let Ok((book, mut pass)) = TurnBook::begin(rt.alloc(), lines, 2, u64::MAX - 9) else {
        panic!(rt; "no memory")
    };
    let other = book.split_pass(&mut pass);
    let done = AtomicU64::new(0);
    let (mut first, second) = both_hold_in_time(&rt, &book, pass, other, &done);
    book.join_pass(&mut first, second);
    let lines = book.close(first);
    assert!(rt; lines.events.len() == 50);
    let mut next = [0u32, 0, 0];
    let mut in_order = true;
    for event in &lines.events {
        let session = event.session as usize;
        if session == 1 || session == 2 {
            in_order = in_order && event.command == next[session];
            next[session] = event.command.wrapping_add(1);
        } else {
            in_order = false;
        }
    }
    assert!(rt; in_order && next == [0, 25, 25]);
    Ok(())
}
