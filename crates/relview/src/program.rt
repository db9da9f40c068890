//! The program: runs the words that the system gives, over a shelf and a sink.
ghost use Rattle.std.specs.Prelude.{◌≡◌, IsTrue, All};
ghost use Rattle.rv_ends.specs.Given.{file_words};
ghost use Rattle.rv_ends.specs.Writing.{sunk};
ghost use Rattle.relview.specs.Top.{Answers, GaveUp};
ghost use Rattle.relview.specs.Ending.{words_in, HadNoRoom, EndsWith};

use crate::report::{Report, empty_report};
use crate::top::relview;
use crate::words::words_given;
use rv_io::{Shelf, Sink};
use std::alloc::{AllocError, Global};
use std::env::Args;
use std::io;
use std::process::ExitCode;
use std::sync::Wait;
use std::thread::Threads;

/// Runs the words after the program's own name. If there is no memory for them, nothing is read, put or written, and
/// the status is 5.
fn run_arguments<R: Threads + Wait + Sync, S: Shelf, K: Sink>(
    rt: &R,
    alloc: Global,
    args: io::Result<Args>,
    shelf: &mut S,
    sink: &mut K,
) -> Report
    requires may_pick { All (λ w. IsTrue ((S.told shelf.old).may_pick w)) (file_words (words_in args)) }
    ensures answers { Answers (words_in args) (S.told shelf.old) (S.told shelf.new)
        (sunk (K.written sink.old) (K.faults sink.old)) (sunk (K.written sink.new) (K.faults sink.new)) result }
    ensures memory { HadNoRoom args → GaveUp (S.told shelf.old) (S.told shelf.new)
        (sunk (K.written sink.old) (K.faults sink.old)) (sunk (K.written sink.new) (K.faults sink.new)) result }
{
    match words_given(alloc, args) {
        Ok(words) => relview(rt, alloc, words.as_slice(), shelf, sink),
        Err(AllocError) => empty_report(alloc, 5),
    }
}

/// Runs the words of the command line, and returns the status with which the program ends.
pub fn run_program<R: Threads + Wait + Sync, S: Shelf, K: Sink>(
    rt: &R,
    alloc: Global,
    args: io::Result<Args>,
    shelf: &mut S,
    sink: &mut K,
) -> ExitCode
    requires may_pick { All (λ w. IsTrue ((S.told shelf.old).may_pick w)) (file_words (words_in args)) }
    ensures { EndsWith args (S.told shelf.old) (S.told shelf.new)
        (sunk (K.written sink.old) (K.faults sink.old)) (sunk (K.written sink.new) (K.faults sink.new)) result }
{
    let report = run_arguments(rt, alloc, args, shelf, sink);
    ExitCode::from(report.status)
}
