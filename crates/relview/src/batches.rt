//! Runs the batches one after another, each over its own table.
ghost use Rattle.std.specs.Prelude.{◌≡◌, ◌≤◌, ◌+◌, ◌*◌, ◌∷◌, ℕ, List, [], length, map, All, IfOk};
ghost use Rattle.lang_model.specs.Limits.{script_limit};
ghost use Rattle.run_model.specs.Inputs.{Rise};
ghost use Rattle.relview.specs.Batches.{IsSoFar, GoesOn, HasDone};
ghost use Rattle.run_model.specs.declared.files.Loaded.{Loaded};
ghost use Rattle.relview.specs.Finished.{IsFinished};

use crate::between::{CarriedOn, carry_on};
use crate::over_table::{OverTable, run_over_table};
use fork_quads::Gate;
use name_map::NameMap;
use pair_table::PairTable;
use rel_model::{NoMemory, Rel};
use run_model::batch::OldBatch;
use run_model::event::Event;
use run_model::files::{Loaded, Save};
use run_model::outcome::Outcome;
use rv_blocks::Versions;
use rv_runs::{make_page, take_apart};
use rv_sessions::Transcript;
use rv_words::Options;
use std::alloc::Global;
use std::sync::Wait;
use std::thread::Threads;

/// The state of a run between two batches: the events, what each session answered, what is left of the batches before
/// the last one, and of the last one the words of its table and the names and versions that it left. On the heap.
#[derive(Drop)]
pub struct SoFar {
    pub events: Vec<Event>,
    pub told: Vec<Transcript>,
    pub old: Vec<OldBatch>,
    pub words: Vec<u64>,
    pub names: NameMap<Rel>,
    pub versions: Versions,
}

/// A finished run: its history, the outcomes of each session in the order of the scripts, the page, the files to be put
/// after it, what is left of each batch before the last one, and the words of the last one's table. On the heap.
#[derive(Drop)]
pub struct Finished {
    pub history: Vec<Event>,
    pub outcomes: Vec<Vec<Outcome>>,
    pub page: Vec<u8>,
    pub saves: Vec<Save>,
    pub old: Vec<OldBatch>,
    pub words: Vec<u64>,
}

/// How many seats the table of a batch has: 65 for each of its sessions, and 3 more.
fn seats_for(count: usize) -> u32
    requires { count ≤ 64 }
    ensures { result ≡ 65 * count + 3 }
{
    65 * count as u32 + 3
}

/// Runs the first batch, over an empty table.
fn begin<R: Threads + Wait + Sync, G: Gate + Sync>(
    rt: &R,
    alloc: Global,
    options: &Options,
    scripts: &[Vec<u8>],
    files: &[Loaded],
    gate: &G,
) -> Result<SoFar, NoMemory>
    requires low { 10 ≤ options.now.nodes }
    requires high { options.now.nodes ≤ 24 }
    requires manned { 1 ≤ options.now.workers }
    requires crew { options.now.workers ≤ 64 }
    requires some { 1 ≤ length scripts.now }
    requires few { length scripts.now ≤ 64 }
    requires limits { All (λ v. length v.items ≤ script_limit) scripts.now }
    ensures { IfOk result (IsSoFar options.now.nodes files.now options.now.turns (map (λ v. v.items) scripts.now)
        (length scripts.now ∷ [])) }
{
    let seats = seats_for(scripts.len());
    let (table, seat) = PairTable::make(alloc, options.nodes, seats)?;
    let names = NameMap::new(alloc);
    let versions = Versions::new(alloc);
    let ran = run_over_table(
        rt, alloc, options, scripts, 1, files, gate, names, versions, table, seat,
    )?;
    let OverTable {
        events,
        told,
        names,
        versions,
        words,
    } = ran;
    Ok(SoFar {
        events,
        told,
        old: Vec::new(alloc),
        words,
        names,
        versions,
    })
}

/// Runs the next batch, whose first session has this number, over a table in which the names live on.
fn go_on<R: Threads + Wait + Sync, G: Gate + Sync>(
    rt: &R,
    alloc: Global,
    options: &Options,
    scripts: &[Vec<u8>],
    number: u32,
    files: &[Loaded],
    gate: &G,
    so_far: SoFar,
) -> Result<SoFar, NoMemory>
    requires low { 10 ≤ options.now.nodes }
    requires high { options.now.nodes ≤ 24 }
    requires manned { 1 ≤ options.now.workers }
    requires crew { options.now.workers ≤ 64 }
    requires some { 1 ≤ length scripts.now }
    requires few { number + length scripts.now ≤ 65 }
    requires limits { All (λ v. length v.items ≤ script_limit) scripts.now }
    requires so_far { HasDone options.now.nodes files.now options.now.turns number so_far }
    ensures { IfOk result (GoesOn options.now.nodes files.now options.now.turns number
        (map (λ v. v.items) scripts.now) so_far) }
{
    let SoFar {
        mut events,
        mut told,
        mut old,
        words,
        names,
        versions,
    } = so_far;
    names.in_order();
    let live = names.into_list(alloc)?;
    let next = carry_on(alloc, words.as_slice(), live.as_slice())?;
    let upto = events.len() as u64;
    old.push(OldBatch { upto, words, live })?;
    let CarriedOn { words, names } = next;
    let seats = seats_for(scripts.len());
    let (table, seat) = PairTable::open_words(alloc, options.nodes, words, seats)?;
    let mut ran = run_over_table(
        rt, alloc, options, scripts, number, files, gate, names, versions, table, seat,
    )?;
    events.append(&mut ran.events)?;
    told.append(&mut ran.told)?;
    let OverTable {
        events: _,
        told: _,
        names,
        versions,
        words,
    } = ran;
    Ok(SoFar {
        events,
        told,
        old,
        words,
        names,
        versions,
    })
}

/// Runs all batches, one after another.
fn run_all<R: Threads + Wait + Sync, G: Gate + Sync>(
    rt: &R,
    alloc: Global,
    options: &Options,
    ends: &[u32],
    scripts: &[Vec<u8>],
    files: &[Loaded],
    gate: &G,
) -> Result<SoFar, NoMemory>
    requires low { 10 ≤ options.now.nodes }
    requires high { options.now.nodes ≤ 24 }
    requires manned { 1 ≤ options.now.workers }
    requires crew { options.now.workers ≤ 64 }
    requires some { 1 ≤ length scripts.now }
    requires few { length scripts.now ≤ 64 }
    requires limits { All (λ v. length v.items ≤ script_limit) scripts.now }
    requires ends { Rise 0 (length scripts.now) ends.now }
    ensures { IfOk result (IsSoFar options.now.nodes files.now options.now.turns (map (λ v. v.items) scripts.now)
        ends.now) }
{
    let mut done = ends[0];
    let mut rest = &ends[1..];
    let (mine, mut left) = scripts.split_at(done as usize);
    let mut so_far = begin(rt, alloc, options, mine, files, gate)?;
    'batches: while let [end, tail @ ..] = rest {
        let (mine, others) = left.split_at((*end - done) as usize);
        so_far = go_on(rt, alloc, options, mine, done + 1, files, gate, so_far)?;
        done = *end;
        left = others;
        rest = tail;
    }
    Ok(so_far)
}

/// The page and everything else that a run results in, once its last batch is over.
fn finish(alloc: Global, asked: bool, so_far: SoFar) -> Result<Finished, NoMemory>
    ensures { (bits turns : ℕ) (files : List Loaded) (scripts : List (List ℕ)) (ends : List ℕ)
        → IsSoFar bits files turns scripts ends so_far
        → IfOk result (IsFinished bits scripts files turns asked ends) }
{
    let SoFar {
        events,
        told,
        old,
        words,
        names: _,
        versions: _,
    } = so_far;
    let page = make_page(alloc, told.as_slice(), events.as_slice(), asked)?;
    let (outcomes, saves) = take_apart(alloc, told)?;
    Ok(Finished {
        history: events,
        outcomes,
        page,
        saves,
        old,
        words,
    })
}

/// Runs scripts in batches that end at these places. The scripts of a batch run concurrently, and the batches one after
/// another, each over its own table, in which the names of the one before live on.
pub fn run_batches<R: Threads + Wait + Sync, G: Gate + Sync>(
    rt: &R,
    alloc: Global,
    options: &Options,
    ends: &[u32],
    scripts: &[Vec<u8>],
    files: &[Loaded],
    gate: &G,
) -> Result<Finished, NoMemory>
    requires low { 10 ≤ options.now.nodes }
    requires high { options.now.nodes ≤ 24 }
    requires manned { 1 ≤ options.now.workers }
    requires crew { options.now.workers ≤ 64 }
    requires some { 1 ≤ length scripts.now }
    requires few { length scripts.now ≤ 64 }
    requires limits { All (λ v. length v.items ≤ script_limit) scripts.now }
    requires ends { Rise 0 (length scripts.now) ends.now }
    ensures { IfOk result (IsFinished options.now.nodes (map (λ v. v.items) scripts.now) files.now options.now.turns
        options.now.history ends.now) }
{
    let so_far = run_all(rt, alloc, options, ends, scripts, files, gate)?;
    finish(alloc, options.history, so_far)
}
