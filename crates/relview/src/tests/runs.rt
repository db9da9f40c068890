//! Runs of the top call, over a shelf and a sink in memory.
ghost use Rattle.std.specs.Prelude.{[], Some, IfOk};
ghost use Rattle.rv_words.specs.Shown.{texts};
ghost use Rattle.rv_ends.specs.Writing.{sunk};
ghost use Rattle.relview.specs.Top.{Answers};

use crate::report::Report;
use crate::top::{relview, relview_gated};
use fork_quads::Gate;
use rv_io::{MemShelf, MemSink, NoMemory, Shelf, Sink, read_all};
use std::alloc::{AllocError, Global};
use std::process::Abort;
use std::sync::Wait;
use std::test::Fail;
use std::thread::Threads;

/// A number that no call has in these tests.
pub const NEVER: u64 = 1_000_000;

/// The result of a run.
#[derive(Drop)]
pub struct Ran {
    pub report: Report,
    pub shelf: MemShelf,
    pub sink: MemSink,
}

impl Ran {
    /// The bytes of a file at the end. The second try is for a call that was to fail and had not been made before.
    fn file(&mut self, alloc: Global, name: &str) -> Option<Vec<u8>> {
        let first = read_all(alloc, &mut self.shelf, name, 100).ok();
        match first {
            Some(bytes) => Some(bytes),
            None => read_all(alloc, &mut self.shelf, name, 100).ok(),
        }
    }

    /// Whether a file has these bytes at the end.
    pub fn has(&mut self, alloc: Global, name: &str, bytes: &[u8]) -> bool {
        match self.file(alloc, name) {
            Some(found) => found.as_slice() == bytes,
            None => false,
        }
    }

    /// Whether there is no file of this name at the end.
    pub fn lacks(&mut self, alloc: Global, name: &str) -> bool {
        self.file(alloc, name).is_none()
    }
}

/// A shelf with these files; one of its calls fails.
fn shelf_of(alloc: Global, files: &[(&str, &[u8])], failing: u64) -> Result<MemShelf, AllocError> {
    let mut owned = Vec::new(alloc);
    for (name, bytes) in files {
        owned.push((
            String::from_str(alloc, name)?,
            Vec::from_slice(alloc, bytes)?,
        ))?;
    }
    let calls = vec![in alloc; failing]?;
    match MemShelf::new(alloc, owned, calls) {
        Ok(shelf) => Ok(shelf),
        Err(NoMemory) => Err(AllocError),
    }
}

/// A sink; one of its calls fails.
fn sink_of(alloc: Global, failing: u64) -> Result<MemSink, AllocError> {
    let calls = vec![in alloc; failing]?;
    match MemSink::new(alloc, calls) {
        Ok(sink) => Ok(sink),
        Err(NoMemory) => Err(AllocError),
    }
}

/// The words of a line.
fn words_of(alloc: Global, line: &str) -> Result<Vec<String>, AllocError> {
    let mut words = Vec::new(alloc);
    for word in line.split_ascii_whitespace() {
        words.push(String::from_str(alloc, word)?)?;
    }
    Ok(words)
}

/// Runs the words of a line over a shelf with these files; one call of the shelf and one of the sink fail.
pub fn run_with<R: Threads + Wait + Sync>(
    rt: &R,
    alloc: Global,
    line: &str,
    files: &[(&str, &[u8])],
    shelf_fails: u64,
    sink_fails: u64,
) -> Result<Ran, AllocError> {
    let words = words_of(alloc, line)?;
    let mut shelf = shelf_of(alloc, files, shelf_fails)?;
    let mut sink = sink_of(alloc, sink_fails)?;
    let report = relview(rt, alloc, words.as_slice(), &mut shelf, &mut sink);
    Ok(Ran {
        report,
        shelf,
        sink,
    })
}

/// Runs the words of a line over a shelf with just the file `a.rv`; no call fails.
pub fn run_script<R: Threads + Wait + Sync>(
    rt: &R,
    alloc: Global,
    line: &str,
    script: &str,
) -> Result<Ran, AllocError> {
    run_with(
        rt,
        alloc,
        line,
        [("a.rv", script.as_bytes())].as_slice(),
        NEVER,
        NEVER,
    )
}

/// Runs words over a shelf in memory, with a gate that sees the sessions; gives the report, and the sink that took the
/// page.
fn answer<R: Threads + Wait + Sync, G: Gate + Sync>(
    rt: &R,
    alloc: Global,
    words: &[String],
    shelf: &mut MemShelf,
    gate: &G,
) -> Result<(Report, MemSink), NoMemory>
    ensures { IfOk result (λ r. Answers (texts words.now)
        (⟦<MemShelf as Shelf>⟧.told shelf.old) (⟦<MemShelf as Shelf>⟧.told shelf.new)
        (sunk (Some []) 0) (sunk (⟦<MemSink as Sink>⟧.written r.1) (⟦<MemSink as Sink>⟧.faults r.1)) r.0) }
{
    match MemSink::new(alloc, Vec::new(alloc)) {
        Ok(mut sink) => {
            let report = relview_gated(rt, alloc, words, shelf, &mut sink, gate);
            Ok((report, sink))
        }
        Err(error) => Err(error),
    }
}

/// Runs the words of a line over a shelf with these files, with a gate that sees the sessions.
pub fn run_gated<R: Threads + Wait + Sync, G: Gate + Sync>(
    rt: &R,
    alloc: Global,
    line: &str,
    files: &[(&str, &[u8])],
    gate: &G,
) -> Result<Ran, AllocError> {
    let words = words_of(alloc, line)?;
    let mut shelf = shelf_of(alloc, files, NEVER)?;
    match answer(rt, alloc, words.as_slice(), &mut shelf, gate) {
        Ok((report, sink)) => Ok(Ran {
            report,
            shelf,
            sink,
        }),
        Err(NoMemory) => Err(AllocError),
    }
}

/// Asserts what a run wrote, and its status.
pub fn assert_written(
    rt: &impl Abort,
    ran: &Ran,
    text: &str,
    status: u8,
    what: &str,
) -> Result<(), Fail> {
    let written = str::from_utf8(ran.sink.written())?;
    assert_eq!(rt; written, text, "at {what}");
    assert_eq!(rt; ran.report.status, status, "at {what}");
    Ok(())
}

/// Asserts that nothing ran: the report is empty, and no put failed.
pub fn assert_stopped(rt: &impl Abort, ran: &Ran, what: &str) {
    assert!(rt; !ran.report.ran, "at {what}");
    assert_eq!(rt; ran.report.history.len(), 0, "at {what}");
    assert_eq!(rt; ran.report.outcomes.len(), 0, "at {what}");
    assert_eq!(rt; ran.report.old.len(), 0, "at {what}");
    assert_eq!(rt; ran.report.words.len(), 0, "at {what}");
    assert_eq!(rt; ran.shelf.put_faults(), 0, "at {what}");
}
