//! One session, on its own pass.
ghost use Rattle.std.specs.Prelude.{◌≡◌, ◌≤◌, ◌<◌, ◌+◌, ◌++◌, ◌∷◌, [], false, if◌then◌else◌};
ghost use Rattle.test_diary.specs.Entries.{entry, entries};
ghost use Rattle.turn_book.specs.Views.{IsReady, IsKept};
ghost use Rattle.test_diary.specs.Runs.{Enters, IsFresh, IsRun};

use crate::diary::Diary;
use run_model::event::{Act, Event};
use std::sync::Wait;
use turn_book::{Pass, TurnBook};

/// The work of one session, with everything that it needs.
#[derive(Drop)]
pub struct Work {
    pub number: u32,
    pub count: u32,
    pub told: u32,
    pub pass: Pass<Diary>,
}

/// Enters one command in a turn of its own, and says whether there was memory for it.
fn enter<R: Wait>(
    rt: &R,
    book: &TurnBook<Diary>,
    pass: &mut Pass<Diary>,
    number: u32,
    command: u32,
) -> bool
    requires ready { IsReady book.now pass.old }
    ensures mine { pass.new.mine ≡ (if result then pass.old.mine ++ entry number command ∷ [] else pass.old.mine) }
    ensures kept { IsKept pass.old pass.new }
{
    let mut diary = book.take(rt, pass);
    let done = diary
        .events
        .push(Event {
            session: number,
            command,
            act: Act::Read,
        })
        .is_ok();
    book.put(pass, diary);
    done
}

/// Enters up to a number of commands, each in a turn of its own, and says how many it entered.
pub fn session<R: Wait>(
    rt: &R,
    book: &TurnBook<Diary>,
    pass: &mut Pass<Diary>,
    number: u32,
    count: u32,
) -> u32
    requires ready { IsReady book.now pass.old }
    ensures enters { Enters number result pass.old pass.new }
    ensures at_most { result ≤ count }
{
    'commands: for command in 0..count {
        if !enter(rt, book, pass, number, command + 1) {
            return command;
        }
    }
    count
}

/// Runs the session of a piece of work.
pub fn run_work<R: Wait>(rt: &R, book: &TurnBook<Diary>, work: &mut Work)
    requires fresh { IsFresh book.now work.old }
    ensures run { IsRun book.now work.new }
    ensures number { work.new.number ≡ work.old.number }
{
    work.told = session(rt, book, &mut work.pass, work.number, work.count);
}
