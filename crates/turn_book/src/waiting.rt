//! How a pass waits for its turn: spinning for a short while, and then asleep.
ghost use Rattle.std.specs.Prelude.{◌≡◌, ◌≢◌, ◌≤◌, ◌<◌, ◌+◌, true, false, None, Some};
ghost use Rattle.turn_book.specs.Origins.{origin_of};
ghost use Rattle.turn_book.specs.Tells.{drawn, TakesValue};

use crate::rule::{Kept, Known, Opening, Order};
use crate::steps::{draw, draw_where, look};
use atomic_table::{Seat, Shared};
use std::hint::spin_loop;
use std::sync::Wait;
use std::thread::yield_now;

/// How often a pass without a ticket checks whether the turn is free before it draws a ticket anyway.
const LOOKS_BEFORE: u32 = 200;

/// How often a pass with a ticket checks for its turn before it sleeps.
const LOOKS_IN_LINE: u32 = 100;

/// For how many of these checks a pass without a ticket only pauses; after that it yields to other threads.
const QUICK_LOOKS: u32 = 10;

/// The longest pause between two checks, in steps of the processor's own pause.
const LONGEST_PAUSE: u32 = 10;

/// A pause between two checks, longer with each check.
fn pause(look: u32) {
    for _ in 0..look.min(LONGEST_PAUSE) {
        spin_loop();
    }
}

/// Draws a ticket: at once if nobody has one, so that a running thread may go on without waking another; after a short
/// while in any case.
pub fn draw_in_time<S: Kept>(
    table: &Shared<Option<S>, Known<S>, Opening<S>, Order>,
    seat: &mut Seat<Option<S>, Known<S>>,
) -> u64
    requires of { seat.old.table_id ≡ table.now.table_id }
    requires words { table.now.table_id.words ≡ 2 }
    requires live { seat.old.me.0.parts ≢ 0 }
    requires idle { (seat.old.me.0.ticket ≡ None) × (seat.old.me.0.turn ≡ false) }
    ensures drawn { seat.new.me ≡ (drawn result seat.old.me.0, seat.old.me.1) }
    ensures of { seat.new.table_id ≡ seat.old.table_id }
{
    'looks: for i in 0..LOOKS_BEFORE {
        let serving = table.peek(1);
        if table.peek(0) == serving && draw_where(table, seat, serving) {
            return serving;
        }
        if i < QUICK_LOOKS {
            pause(i);
        } else {
            yield_now();
        }
    }
    draw(table, seat)
}

/// Spins for a short while until the pass's own ticket is served. Says whether it was, in which case the value is
/// taken.
fn stay_awake<S: Kept>(
    table: &Shared<Option<S>, Known<S>, Opening<S>, Order>,
    seat: &mut Seat<Option<S>, Known<S>>,
    ticket: u64,
) -> bool
    requires of { seat.old.table_id ≡ table.now.table_id }
    requires words { table.now.table_id.words ≡ 2 }
    requires live { seat.old.me.0.parts ≢ 0 }
    requires waits { seat.old.me.0.turn ≡ false }
    requires ticket { seat.old.me.0.ticket ≡ Some ticket }
    ensures takes { result ≡ true → TakesValue S.log (origin_of S.house S.start) seat.old.me seat.new.me }
    ensures waits { result ≡ false → seat.new.me ≡ seat.old.me }
    ensures of { seat.new.table_id ≡ seat.old.table_id }
{
    'looks: for i in 0..LOOKS_IN_LINE {
        if look(table, seat) == ticket {
            return true;
        }
        pause(i);
    }
    false
}

/// Sleeps until the pass's own ticket is served, and takes the value.
fn sleep<S: Kept, R: Wait>(
    table: &Shared<Option<S>, Known<S>, Opening<S>, Order>,
    wait: &R,
    seat: &mut Seat<Option<S>, Known<S>>,
    ticket: u64,
)
    requires of { seat.old.table_id ≡ table.now.table_id }
    requires words { table.now.table_id.words ≡ 2 }
    requires live { seat.old.me.0.parts ≢ 0 }
    requires waits { seat.old.me.0.turn ≡ false }
    requires ticket { seat.old.me.0.ticket ≡ Some ticket }
    ensures takes { TakesValue S.log (origin_of S.house S.start) seat.old.me seat.new.me }
    ensures of { seat.new.table_id ≡ seat.old.table_id }
{
    'turns: for _ in wait.forever() {
        let serving = look(table, seat);
        if serving == ticket {
            return;
        }
        table.park(wait, 1, (serving % (1 << 32)) as u32);
    }
    unreachable!()
}

/// Waits until the pass's own ticket is served, and takes the value.
pub fn wait_for<S: Kept, R: Wait>(
    table: &Shared<Option<S>, Known<S>, Opening<S>, Order>,
    wait: &R,
    seat: &mut Seat<Option<S>, Known<S>>,
    ticket: u64,
)
    requires of { seat.old.table_id ≡ table.now.table_id }
    requires words { table.now.table_id.words ≡ 2 }
    requires live { seat.old.me.0.parts ≢ 0 }
    requires waits { seat.old.me.0.turn ≡ false }
    requires ticket { seat.old.me.0.ticket ≡ Some ticket }
    ensures takes { TakesValue S.log (origin_of S.house S.start) seat.old.me seat.new.me }
    ensures of { seat.new.table_id ≡ seat.old.table_id }
{
    if !stay_awake(table, seat, ticket) {
        sleep(table, wait, seat, ticket);
    }
}

/// Wakes the sleepers if another pass has a ticket, which is so if the number now being served is not the next one to
/// be drawn.
pub fn wake<S: Kept>(table: &Shared<Option<S>, Known<S>, Opening<S>, Order>, served: u64)
    requires words { table.now.table_id.words ≡ 2 }
{
    if table.peek(0) != served.wrapping_add(1) {
        table.wake_all(1);
    }
}
