//! Runs the scripts of a batch concurrently over a node table, and takes out the table's words at the end.
ghost use Rattle.std.specs.Prelude.{◌≡◌, ◌≤◌, ◌+◌, ◌*◌, length, map, All, IfOk};
ghost use Rattle.lang_model.specs.Limits.{script_limit};
ghost use Rattle.rel_model.specs.Views.{IsOf};
ghost use Rattle.rv_workspace.specs.Books.{AreFew};
ghost use Rattle.relview.specs.OverTable.{RanOver, AllNamed};

use fork_quads::{Crew, Gate};
use name_map::NameMap;
use pair_table::{PairTable, Seat};
use rel_engine::Works;
use rel_model::{NoMemory, Rel};
use run_model::event::Event;
use run_model::files::Loaded;
use rv_blocks::Versions;
use rv_runs::{BatchEnd, run_batch};
use rv_sessions::Transcript;
use rv_words::Options;
use std::alloc::Global;
use std::sync::Wait;
use std::thread::Threads;

/// A finished batch: its events, what each session answered in the order of the scripts, the names and versions that it
/// leaves, and the words of the table over which it ran. On the heap.
#[derive(Drop)]
pub struct OverTable {
    pub events: Vec<Event>,
    pub told: Vec<Transcript>,
    pub names: NameMap<Rel>,
    pub versions: Versions,
    pub words: Vec<u64>,
}

/// Runs the scripts of a batch concurrently over their own table, which has 65 seats for each and 3 more, and closes
/// it. Sessions are numbered from `number` on. The batch begins with these names, whose relations stand in the words
/// that the seat has seen, and with these versions.
///
/// The operators of each session fork over the workers that the options name.
#[tactic(auto, unfolding(rel_model::specs::Trees::bottom_height))]
pub fn run_over_table<R: Threads + Wait + Sync, G: Gate + Sync>(
    rt: &R,
    alloc: Global,
    options: &Options,
    scripts: &[Vec<u8>],
    number: u32,
    files: &[Loaded],
    gate: &G,
    names: NameMap<Rel>,
    versions: Versions,
    table: PairTable,
    seat: Seat,
) -> Result<OverTable, NoMemory>
    requires manned { 1 ≤ options.now.workers }
    requires crew { options.now.workers ≤ 64 }
    requires some { 1 ≤ length scripts.now }
    requires from_one { 1 ≤ number }
    requires few { number + length scripts.now ≤ 65 }
    requires limits { All (λ v. length v.items ≤ script_limit) scripts.now }
    requires size { table.bits ≡ options.now.nodes }
    requires of { IsOf seat table }
    requires none_refused { seat.refused ≡ 0 }
    requires seats { table.seats ≡ 65 * length scripts.now + 3 }
    requires spare { seat.spare ≡ 65 * length scripts.now + 2 }
    requires stand { AllNamed seat.words names }
    requires counts { AreFew versions }
    ensures { IfOk result (RanOver options.now.nodes (map (λ v. v.items) scripts.now) number files.now options.now.turns
        (record { names = names; versions = versions }) seat) }
{
    let crew = Crew::new(rt, &table, seat, options.workers, gate);
    let works = Works::new(crew);
    let ended = run_batch(
        rt,
        alloc,
        scripts,
        number,
        files,
        options.turns,
        gate,
        names,
        versions,
        works,
    )?;
    let BatchEnd {
        engine,
        events,
        told,
        names,
        versions,
    } = ended;
    let seat = engine.into_seat();
    let words = table.close(seat)?;
    Ok(OverTable {
        events,
        told,
        names,
        versions,
        words,
    })
}
