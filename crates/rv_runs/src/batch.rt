//! One batch of a run: runs all its scripts concurrently.
ghost use Rattle.std.specs.Prelude.{◌≡◌, ◌≤◌, ◌+◌, ◌*◌, ◌^◌, ℕ, List, length, map, All, IfOk};
ghost use Rattle.lang_model.specs.Limits.{script_limit};
ghost use Rattle.rv_workspace.specs.Books.{AllNamesStand, AreFew};
ghost use Rattle.rv_runs.specs.Parts.{EndsBatch};

use crate::ended::BatchEnd;
use crate::together::{join_all, run_works, split_all};
use name_map::NameMap;
use rel_model::watch::Watch;
use rel_model::{NoMemory, Rel};
use rel_slices::Remembers;
use run_model::files::Loaded;
use rv_blocks::Versions;
use rv_workspace::Book;
use std::alloc::Global;
use std::sync::Wait;
use std::thread::Threads;
use turn_book::TurnBook;

/// Runs all scripts of a batch concurrently. Each has a session, whose commands take turns at one book of names. The
/// book begins with these names, whose relations stand in the engine, and with these versions. Sessions are numbered in
/// order, from `number` on.
///
/// A script that does not run is answered by its one fault, and the others still run. The result has what each session
/// answered, and what the batch leaves for the next one. The only error is that memory ran out for the batch itself or
/// for the lists of a session. The watch is called when each session begins and when it has ended, with the session's
/// number plus 1,000,000.
pub fn run_batch<R: Threads + Wait + Sync, E: Remembers + Drop + Send, W: Watch + Sync>(
    rt: &R,
    alloc: Global,
    scripts: &[Vec<u8>],
    number: u32,
    files: &[Loaded],
    turns: u64,
    watch: &W,
    names: NameMap<Rel>,
    versions: Versions,
    mut engine: E,
) -> Result<BatchEnd<E>, NoMemory>
    requires some { 1 ≤ length scripts.now }
    requires from_one { 1 ≤ number }
    requires few { number + length scripts.now ≤ 65 }
    requires limits { All (λ v. length v.items ≤ script_limit) scripts.now }
    requires spare { (E.worker engine).spare ≡ 65 * length scripts.now + 2 }
    requires misses { (E.worker engine).misses ≡ 0 }
    requires stand { AllNamesStand (E.worker engine) names }
    requires counts { AreFew versions }
    ensures { IfOk result (EndsBatch E.worker E.least (map (λ v. v.items) scripts.now) number files.now turns
        (record { names = names; versions = versions }) (E.worker engine)) }
{
    let Ok(mut works) = Vec::with_capacity(alloc, scripts.len()) else {
        return Err(NoMemory);
    };
    let Ok(mut told) = Vec::with_capacity(alloc, scripts.len()) else {
        return Err(NoMemory);
    };
    let archive = engine.split(1);
    let first = Book::with(alloc, archive, names, versions);
    let Ok((book, mut pass)) = TurnBook::make(alloc, first, scripts.len() as u32 + 1) else {
        return Err(NoMemory);
    };
    split_all(
        &book,
        &mut pass,
        &mut engine,
        number,
        scripts.len(),
        &mut works,
    );
    run_works(
        rt, alloc, scripts, number, files, turns, &book, watch, &mut works,
    );
    let whole = join_all(&book, &mut pass, &mut engine, works, &mut told);
    let (archive, events, names, versions) = book.close(pass).into_parts();
    engine.join(archive);
    if !whole {
        return Err(NoMemory);
    }
    Ok(BatchEnd {
        engine,
        events,
        told,
        names,
        versions,
    })
}
