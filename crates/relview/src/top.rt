//! The top call: reads the words and the files, runs the scripts concurrently, and writes their page and their files.
ghost use Rattle.std.specs.Prelude.{◌≡◌, ◌≤◌, ◌^◌, true, false, List, [], Some, None, map, length, IsTrue, All};
ghost use Rattle.std.specs.Str.{IsUtf8};
ghost use Rattle.lang_model.specs.Limits.{script_limit};
ghost use Rattle.rv_io.specs.Outside.{Told};
ghost use Rattle.rv_io.specs.Reading.{RefusesFile};
ghost use Rattle.run_model.specs.Filed.{saved_all};
ghost use Rattle.run_model.specs.Inputs.{Rise};
ghost use Rattle.rv_words.specs.Said.{said_by};
ghost use Rattle.rv_words.specs.Uses.{Word};
ghost use Rattle.rv_words.specs.Shown.{texts, shown};
ghost use Rattle.rv_words.specs.declared.options.WordsError.TheVariants as words_error;
ghost use Rattle.rv_ends.specs.Given.{file_words, limit_of};
ghost use Rattle.rv_ends.specs.Lines.{IsFirst};
ghost use Rattle.rv_ends.specs.Writing.{IsTold, HasNoPut, sunk};
ghost use Rattle.relview.specs.Top.{Answers, AnswersGiven, HasStopped, status_of};

use crate::batches::{Finished, run_batches};
use crate::report::{Report, empty_report};
use crate::statuses::status_of;
use fork_quads::{Gate, OpenGate};
use rel_model::NoMemory;
use run_model::files::Loaded;
use rv_ends::{Halt, read_files, say_too_long, say_unread, say_usage, tell};
use rv_generate::generate;
use rv_io::{ReadError, Shelf, Sink};
use rv_words::{Options, WordsError, words_of};
use std::alloc::Global;
use std::sync::Wait;
use std::thread::Threads;

/// Runs the scripts that the words name, concurrently, and writes their page and then their files; or writes a line
/// that says why nothing ran.
pub fn relview<R: Threads + Wait + Sync, S: Shelf, K: Sink>(
    rt: &R,
    alloc: Global,
    words: &[String],
    shelf: &mut S,
    sink: &mut K,
) -> Report
    requires may_pick { All (λ w. IsTrue ((S.told shelf.old).may_pick w)) (file_words (texts words.now)) }
    ensures { Answers (texts words.now) (S.told shelf.old) (S.told shelf.new)
        (sunk (K.written sink.old) (K.faults sink.old)) (sunk (K.written sink.new) (K.faults sink.new)) result }
{
    relview_gated(rt, alloc, words, shelf, sink, &OpenGate)
}

/// The same, with a gate that is called when each session begins and when it has ended, with the session's number plus
/// 1,000,000. Sessions are numbered from 1, in the order of the words.
pub fn relview_gated<R: Threads + Wait + Sync, S: Shelf, K: Sink, G: Gate + Sync>(
    rt: &R,
    alloc: Global,
    words: &[String],
    shelf: &mut S,
    sink: &mut K,
    gate: &G,
) -> Report
    requires may_pick { All (λ w. IsTrue ((S.told shelf.old).may_pick w)) (file_words (texts words.now)) }
    ensures { Answers (texts words.now) (S.told shelf.old) (S.told shelf.new)
        (sunk (K.written sink.old) (K.faults sink.old)) (sunk (K.written sink.new) (K.faults sink.new)) result }
{
    match words_of(alloc, words) {
        Ok(options) => run_options(rt, alloc, &options, shelf, sink, gate),
        Err(error) => refuse_words(alloc, sink, error),
    }
}

/// Answers words that are not accepted.
fn refuse_words<K: Sink>(alloc: Global, sink: &mut K, error: WordsError) -> Report
    ensures ran { result.ran ≡ false }
    ensures stopped { (words : List Word) (before now : Told) → HasNoPut before now
        → (error ≡ words_error.Usage → said_by words ≡ None)
        → HasStopped words before now (sunk (K.written sink.old) (K.faults sink.old))
        (sunk (K.written sink.new) (K.faults sink.new)) result }
{
    match error {
        WordsError::Usage => {
            let status = say_usage(sink);
            empty_report(alloc, status)
        }
        WordsError::NoMemory => empty_report(alloc, 5),
    }
}

/// Answers that a file was not read.
fn refuse_file<K: Sink>(alloc: Global, sink: &mut K, halt: Halt) -> Report
    ensures ran { result.ran ≡ false }
    ensures stopped { (words : List Word) (before now : Told) → HasNoPut before now
        → IsFirst words before halt.entry.name.now
        → RefusesFile before now halt.entry.name.now (limit_of halt.entry.name.now) halt.entry.error
        → HasStopped words before now (sunk (K.written sink.old) (K.faults sink.old))
        (sunk (K.written sink.new) (K.faults sink.new)) result }
{
    match halt.error {
        ReadError::Fault => {
            let status = say_unread(alloc, sink, halt.name);
            empty_report(alloc, status)
        }
        ReadError::TooLong { limit: _ } => {
            let status = say_too_long(alloc, sink, halt.name);
            empty_report(alloc, status)
        }
        ReadError::NoMemory => empty_report(alloc, 5),
    }
}

/// Runs the generated scripts, or those that the words name.
fn run_options<R: Threads + Wait + Sync, S: Shelf, K: Sink, G: Gate + Sync>(
    rt: &R,
    alloc: Global,
    options: &Options,
    shelf: &mut S,
    sink: &mut K,
    gate: &G,
) -> Report
    requires taken { (words : List Word) × (said_by words ≡ Some (shown options.now)) }
    requires may_pick { All (λ w. IsTrue ((S.told shelf.old).may_pick w)) (texts options.now.files.items) }
    ensures { (words : List Word) → said_by words ≡ Some (shown options.now)
        → Answers words (S.told shelf.old) (S.told shelf.new)
        (sunk (K.written sink.old) (K.faults sink.old)) (sunk (K.written sink.new) (K.faults sink.new)) result }
{
    match options.number {
        Some(number) => run_generated(rt, alloc, options, number, shelf, sink, gate),
        None => run_named(rt, alloc, options, shelf, sink, gate),
    }
}

/// How many scripts there are.
fn count_of(scripts: &[Vec<u8>]) -> u32
    requires few { length scripts.now ≤ 64 }
    ensures { result ≡ length scripts.now }
{
    scripts.len() as u32
}

/// Generates scripts from a number, and runs them as one batch.
fn run_generated<R: Threads + Wait + Sync, S: Shelf, K: Sink, G: Gate + Sync>(
    rt: &R,
    alloc: Global,
    options: &Options,
    number: u64,
    shelf: &mut S,
    sink: &mut K,
    gate: &G,
) -> Report
    requires low { 10 ≤ options.now.nodes }
    requires high { options.now.nodes ≤ 24 }
    requires manned { 1 ≤ options.now.workers }
    requires crew { options.now.workers ≤ 64 }
    requires number { options.now.number ≡ Some number }
    requires none { options.now.relations.items ≡ [] }
    ensures { (words : List Word) → said_by words ≡ Some (shown options.now)
        → Answers words (S.told shelf.old) (S.told shelf.new)
        (sunk (K.written sink.old) (K.faults sink.old)) (sunk (K.written sink.new) (K.faults sink.new)) result }
{
    match generate(alloc, number) {
        Ok(scripts) => run_given(
            rt,
            alloc,
            options,
            &[count_of(scripts.as_slice())],
            scripts.as_slice(),
            &[],
            shelf,
            sink,
            gate,
        ),
        Err(_) => empty_report(alloc, 5),
    }
}

/// Reads the files that the words name, and runs the scripts among them.
fn run_named<R: Threads + Wait + Sync, S: Shelf, K: Sink, G: Gate + Sync>(
    rt: &R,
    alloc: Global,
    options: &Options,
    shelf: &mut S,
    sink: &mut K,
    gate: &G,
) -> Report
    requires taken { (words : List Word) × (said_by words ≡ Some (shown options.now)) }
    requires number { options.now.number ≡ None }
    requires may_pick { All (λ w. IsTrue ((S.told shelf.old).may_pick w)) (texts options.now.files.items) }
    ensures { (words : List Word) → said_by words ≡ Some (shown options.now)
        → Answers words (S.told shelf.old) (S.told shelf.new)
        (sunk (K.written sink.old) (K.faults sink.old)) (sunk (K.written sink.new) (K.faults sink.new)) result }
{
    match read_files(alloc, shelf, options.files.as_slice()) {
        Ok(given) => run_given(
            rt,
            alloc,
            options,
            options.ends.as_slice(),
            given.scripts.as_slice(),
            given.files.as_slice(),
            shelf,
            sink,
            gate,
        ),
        Err(halt) => refuse_file(alloc, sink, halt),
    }
}

/// Runs scripts in batches that end at these places, and writes the result.
fn run_given<R: Threads + Wait + Sync, S: Shelf, K: Sink, G: Gate + Sync>(
    rt: &R,
    alloc: Global,
    options: &Options,
    ends: &[u32],
    scripts: &[Vec<u8>],
    files: &[Loaded],
    shelf: &mut S,
    sink: &mut K,
    gate: &G,
) -> Report
    requires low { 10 ≤ options.now.nodes }
    requires high { options.now.nodes ≤ 24 }
    requires manned { 1 ≤ options.now.workers }
    requires crew { options.now.workers ≤ 64 }
    requires some { 1 ≤ length scripts.now }
    requires few { length scripts.now ≤ 64 }
    requires limits { All (λ v. length v.items ≤ script_limit) scripts.now }
    requires ends { Rise 0 (length scripts.now) ends.now }
    ensures { AnswersGiven options.now.nodes (map (λ v. v.items) scripts.now) files.now options.now.turns
        options.now.history ends.now
        (S.told shelf.old) (S.told shelf.new)
        (sunk (K.written sink.old) (K.faults sink.old)) (sunk (K.written sink.new) (K.faults sink.new)) result }
{
    match run_batches(rt, alloc, options, ends, scripts, files, gate) {
        Ok(finished) => report_of(shelf, sink, finished),
        Err(NoMemory) => empty_report(alloc, 5),
    }
}

/// Writes the page and the files of a run, and makes its report.
fn report_of<S: Shelf, K: Sink>(shelf: &mut S, sink: &mut K, finished: Finished) -> Report
    requires { All (λ save. IsUtf8 save.name) finished.saves.items }
    ensures ran { result.ran ≡ true }
    ensures history { result.history.items ≡ finished.history.items }
    ensures outcomes { result.outcomes.items ≡ finished.outcomes.items }
    ensures old { result.old.items ≡ finished.old.items }
    ensures words { result.words.items ≡ finished.words.items }
    ensures told { IsTold (S.told shelf.old) (S.told shelf.new) (sunk (K.written sink.old) (K.faults sink.old))
        (sunk (K.written sink.new) (K.faults sink.new))
        finished.page.items (saved_all finished.saves.items)
        (status_of (map (λ v. v.items) finished.outcomes.items)) result.status }
{
    let Finished {
        history,
        outcomes,
        page,
        saves,
        old,
        words,
    } = finished;
    let whole = status_of(outcomes.as_slice());
    let status = tell(shelf, sink, page.as_slice(), saves.as_slice(), whole);
    Report {
        status,
        ran: true,
        history,
        outcomes,
        old,
        words,
    }
}
