//! The work of one session.
ghost use Rattle.std.specs.Prelude.{◌≡◌, ◌≤◌, ◌+◌, ◌^◌, length, map, All};
ghost use Rattle.lang_model.specs.Limits.{script_limit};
ghost use Rattle.rv_sessions.specs.Telling.{input_of};
ghost use Rattle.rv_runs.specs.Works.{IsFresh, CanJoin, RanWhereTold};

use rel_model::engine_trait::Engine;
use rel_model::watch::Watch;
use rel_slices::Remembers;
use run_model::files::Loaded;
use rv_sessions::{Seat, Setting, Transcript, run};
use rv_workspace::Book;
use std::alloc::Global;
use std::sync::Wait;
use turn_book::TurnBook;

/// The watch is called with this plus the number of a session.
const SESSIONS: u32 = 1_000_000;

/// The work of one session: its number in the run, its seat, and its transcript once it has run. The transcript's lists
/// are on the heap.
#[derive(Drop)]
pub struct Work<E: Engine> {
    pub number: u32,
    pub seat: Seat<E>,
    pub told: Option<Transcript>,
}

/// Runs the session of a work, in a batch whose first session has number `number`. If memory runs out for its lists,
/// there is no transcript.
///
/// The watch is called when the session begins and when it has ended, with the session's number plus 1,000,000.
pub fn run_work<R: Wait, E: Remembers + Drop, W: Watch>(
    rt: &R,
    alloc: Global,
    scripts: &[Vec<u8>],
    number: u32,
    files: &[Loaded],
    turns: u64,
    book: &TurnBook<Book<E>>,
    watch: &W,
    work: &mut Work<E>,
)
    requires few { number + length scripts.now ≤ 65 }
    requires limits { All (λ v. length v.items ≤ script_limit) scripts.now }
    requires fresh { IsFresh E.worker book.now number (length scripts.now) work.old }
    ensures ran { RanWhereTold E.worker E.least (input_of files.now turns) number (map (λ v. v.items) scripts.now)
        work.new }
    ensures joins { CanJoin E.worker book.now work.new }
    ensures number { work.new.number ≡ work.old.number }
    ensures house { work.new.seat.pass.house ≡ work.old.seat.pass.house }
    ensures start { work.new.seat.pass.start ≡ work.old.seat.pass.start }
{
    let script = scripts[(work.number - number) as usize].as_slice();
    let piece = SESSIONS + work.number;
    watch.begins(piece);
    let setting = Setting {
        alloc,
        files,
        turns,
        book,
        wait: rt,
    };
    let ran = run(&setting, work.number, script, &mut work.seat);
    watch.ends(piece);
    work.told = ran.ok();
}
