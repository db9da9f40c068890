//! Concurrent sessions, with a time limit for each test, and passes that are joined in another order than they were
//! split.
ghost use Rattle.std.specs.Prelude.{◌≡◌, ◌≤◌, length};
ghost use Rattle.turn_book.specs.Views.{IsReady};

use crate::{Diary, Report, race};
use run_model::event::{Act, Event};
use std::alloc::Global;
use std::process::Abort;
use std::rt::Clock;
use std::sync::Wait;
use std::sync::atomic::{AtomicU64, Ordering};
use std::thread;
use std::thread::{Threads, join};
use std::time::Duration;
use turn_book::{Pass, TurnBook};

/// Aborts the test if it is not done within a number of hundredths of a second.
fn watch<R: Clock + Abort>(rt: &R, done: &AtomicU64, hundredths: u32) {
    for _ in 0..hundredths {
        if done.load(Ordering::SeqCst) != 0 {
            return;
        }
        thread::sleep(rt, Duration::from_millis(10));
    }
    panic!(rt; "the time limit of the test has passed")
}

/// A race with a time limit.
fn race_in_time<R: Threads + Wait + Clock + Abort + Sync>(
    rt: &R,
    alloc: Global,
    counts: &[u32],
    hundredths: u32,
) -> Option<Report>
    requires few { length counts.now ≤ 64 }
{
    let done = AtomicU64::new(0);
    let (report, ()) = join(
        rt,
        || -> Option<Report>
            requires few { length counts.now ≤ 64 }
        {
            let report = race(rt, alloc, 5, counts).ok();
            done.store(1, Ordering::SeqCst);
            report
        },
        || watch(rt, &done, hundredths),
    );
    report
}

/// Whether each session's commands are in the log from 1 on, in order, as many as are wanted, and no others.
fn is_whole(log: &[Event], counts: &[u32]) -> bool {
    let mut last = [0u32; 65];
    for event in log {
        let session = event.session as usize;
        if session < 1 || session > 64 || event.command != last[session].wrapping_add(1) {
            return false;
        }
        last[session] = event.command;
    }
    let mut session = 1;
    for count in counts {
        if session > 64 || last[session] != *count {
            return false;
        }
        session += 1;
    }
    true
}

/// Asserts that sessions enter all their commands in time.
fn assert_all_enter<R: Threads + Wait + Clock + Abort + Sync>(
    rt: &R,
    alloc: Global,
    counts: &[u32],
    events: usize,
)
    requires few { length counts.now ≤ 64 }
{
    let Some(report) = race_in_time(rt, alloc, counts, 2000) else {
        panic!(rt; "no memory")
    };
    assert!(rt; report.told.as_slice() == counts);
    assert!(rt; report.log.len() == events && is_whole(report.log.as_slice(), counts));
}

#[test]
fn sixty_four_sessions_enter_a_thousand_commands_each(rt: HostRuntime) {
    assert_all_enter(&rt, rt.alloc(), &[1000; 64], 64000);
}

#[test]
fn sessions_of_unlike_lengths_enter_all_their_commands(rt: HostRuntime) {
    let counts = [3000, 0, 1, 2500, 1000, 4000, 7, 2000];
    assert_all_enter(&rt, rt.alloc(), &counts, 12508);
}

/// One command in a turn of its own.
fn enter<R: Wait>(rt: &R, book: &TurnBook<Diary>, pass: &mut Pass<Diary>, session: u32)
    requires ready { IsReady book.now pass.old }
    ensures ready { IsReady book.now pass.new }
    ensures spare { pass.new.spare ≡ pass.old.spare }
{
    let mut diary = book.take(rt, pass);
    let _ = diary
        .events
        .push(Event {
            session,
            command: 1,
            act: Act::Read,
        })
        .is_ok();
    book.put(pass, diary);
}

/// The sessions in the order in which they enter.
const ORDER: [u32; 6] = [1, 3, 2, 4, 5, 6];

/// Whether these are the events of the sessions in their order.
fn is_in_order(events: &[Event]) -> bool {
    for at in 0..ORDER.len() {
        match events.get(at) {
            Some(event) if event.session == ORDER[at] => {}
            _ => return false,
        }
    }
    events.len() == ORDER.len()
}

#[test]
fn passes_are_joined_in_another_order_than_split(rt: HostRuntime) {
    let first = Diary {
        house: 5,
        events: Vec::new(rt.alloc()),
    };
    let Ok((book, mut a)) = TurnBook::make(rt.alloc(), first, 4) else {
        panic!(rt; "no memory")
    };
    let mut b = book.split_pass(&mut a);
    let mut c = book.split_pass(&mut a);
    enter(&rt, &book, &mut a, 1);
    enter(&rt, &book, &mut c, 3);
    enter(&rt, &book, &mut b, 2);
    book.join_pass(&mut b, c);
    let mut d = book.split_pass(&mut b);
    let mut e = book.split_pass(&mut a);
    enter(&rt, &book, &mut d, 4);
    enter(&rt, &book, &mut e, 5);
    book.join_pass(&mut d, a);
    enter(&rt, &book, &mut d, 6);
    book.join_pass(&mut e, d);
    book.join_pass(&mut e, b);
    let diary = book.close(e);
    assert!(rt; diary.house == 5 && is_in_order(diary.events.as_slice()));
}
