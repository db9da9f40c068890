//! The report of a run.
ghost use Rattle.std.specs.Prelude.{◌≡◌, false};
ghost use Rattle.relview.specs.Top.{IsEmpty};

use run_model::batch::OldBatch;
use run_model::event::Event;
use run_model::outcome::Outcome;
use std::alloc::Global;

/// The report of a run. The lists are empty unless `ran` is set. On the heap.
#[derive(Drop)]
pub struct Report {
    /// 0: done; 1: refused; 2: usage; 3: not read; 4: not written; 5: memory ran out.
    pub status: u8,
    pub ran: bool,
    /// The events of the workspace, in order.
    pub history: Vec<Event>,
    /// A list of outcomes for each script.
    pub outcomes: Vec<Vec<Outcome>>,
    /// What is left of each batch before the last one: how many events there were up to its end, the words of its
    /// table, and the names that lived on, with their relations in these words.
    pub old: Vec<OldBatch>,
    /// The words of the last batch's table, at its end.
    pub words: Vec<u64>,
}

/// The report of a run that did not finish.
pub fn empty_report(alloc: Global, status: u8) -> Report
    ensures stopped { result.ran ≡ false }
    ensures status { result.status ≡ status }
    ensures empty { IsEmpty result }
{
    Report {
        status,
        ran: false,
        history: Vec::new(alloc),
        outcomes: Vec::new(alloc),
        old: Vec::new(alloc),
        words: Vec::new(alloc),
    }
}
