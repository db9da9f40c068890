//! The program over a shelf and a sink whose calls never fail.
ghost use Rattle.std.specs.Prelude.{◌≡◌, true, All, IsTrue};
ghost use Rattle.std.specs.List.{list_all};
ghost use Rattle.std.specs.String.{string_bytes};
ghost use Rattle.rv_words.specs.Shown.{texts};
ghost use Rattle.rv_ends.specs.Given.{file_words};
ghost use Rattle.rv_ends.specs.Writing.{sunk};
ghost use Rattle.relview.specs.Surely.{IsSure};

use crate::report::Report;
use crate::top::relview;
use rv_io::{Shelf, Sink, SureShelf, SureSink};
use rv_words::words_of;
use std::alloc::Global;
use std::sync::Wait;
use std::thread::Threads;

/// Runs the scripts that the words name, over a shelf and a sink that never fail. If the words are accepted and the
/// files are within their limits, the scripts run, or memory runs out. A run for which memory and the table suffice is
/// complete.
pub fn relview_surely<R: Threads + Wait + Sync>(
    rt: &R,
    alloc: Global,
    words: &[String],
    shelf: &mut SureShelf,
    sink: &mut SureSink,
) -> Report
    requires may_pick { All (λ w. IsTrue ((⟦<SureShelf as Shelf>⟧.told shelf.old).may_pick w))
        (file_words (texts words.now)) }
    ensures { IsSure (texts words.now) (⟦<SureShelf as Shelf>⟧.told shelf.old) (⟦<SureShelf as Shelf>⟧.told shelf.new)
        (sunk (⟦<SureSink as Sink>⟧.written sink.old) (⟦<SureSink as Sink>⟧.faults sink.old))
        (sunk (⟦<SureSink as Sink>⟧.written sink.new) (⟦<SureSink as Sink>⟧.faults sink.new)) result }
{
    relview(rt, alloc, words, shelf, sink)
}

/// Whether each FILE word names a file of the shelf. False if memory runs out, or if the words are not accepted.
pub fn has_files(alloc: Global, words: &[String], shelf: &SureShelf) -> bool
    ensures { result ≡ true
        → All (λ w. IsTrue ((⟦<SureShelf as Shelf>⟧.told shelf.now).may_pick w)) (file_words (texts words.now)) }
{
    match words_of(alloc, words) {
        Ok(options) => has_all(options.files.as_slice(), shelf),
        Err(_) => false,
    }
}

/// Whether the shelf has a file for each of these names.
fn has_all(names: &[String], shelf: &SureShelf) -> bool
    ensures { result
        ≡ list_all (λ name. (⟦<SureShelf as Shelf>⟧.told shelf.now).may_pick (string_bytes name)) names.now }
{
    names.iter().all(|name| shelf.has(name.as_str()))
}
