//! The trials that any engine is put to, and an engine over a table of its own for each.
ghost use Rattle.rel_model.specs.Views.{IsOf};

use crate::{changed, read, several, several_chance, several_faults, several_full, written};
use fork_quads::{Crew, OpenGate};
use pair_table::{PairTable, Seat};
use rel_engine::Works;
use rel_model::engine_trait::Engine;
use std::alloc::Global;
use std::process::Abort;
use std::thread::Threads;

/// A trial for an engine: each has an assertion of its own.
pub(crate) enum Trial {
    SmallFaults,
    HeaderFaults,
    SmallFiles,
    WrittenBack,
    SmallRelations,
    PastTheLimit,
    OneChange,
    FilesByChance,
    BitsTurned,
    RelationsByChance,
    WorkedFile,
    TablesOfRelations,
    SixtyFour,
    GreatestFull,
    SeveralByChance,
    SeveralFaults,
    TooHigh,
    WordsAsNames,
    WorkedBits,
    SeveralBits,
    TwoNumbers,
    BadFilesMakeNothing,
    OneNameAlone,
}

/// Puts an engine to a trial.
fn put_to<E: Engine>(rt: &impl Abort, alloc: Global, engine: &mut E, trial: Trial) {
    match trial {
        Trial::SmallFaults => read::small_faults(rt, alloc, engine),
        Trial::HeaderFaults => read::header_faults(rt, alloc, engine),
        Trial::SmallFiles => read::small_files(rt, alloc, engine),
        Trial::WrittenBack => read::written_back(rt, alloc, engine),
        Trial::SmallRelations => written::small_relations(rt, alloc, engine),
        Trial::PastTheLimit => written::past_the_limit(rt, alloc, engine),
        Trial::OneChange => changed::one_change(rt, alloc, engine),
        Trial::FilesByChance => changed::files_by_chance(rt, alloc, engine),
        Trial::BitsTurned => changed::bits_turned(rt, alloc, engine),
        Trial::RelationsByChance => changed::relations_by_chance(rt, alloc, engine),
        Trial::WorkedFile => several::worked_file(rt, alloc, engine),
        Trial::TablesOfRelations => several::tables_of_relations(rt, alloc, engine),
        Trial::SixtyFour => several::sixty_four(rt, alloc, engine),
        Trial::GreatestFull => several::greatest_full(rt, alloc, engine),
        Trial::SeveralByChance => several_chance::several_by_chance(rt, alloc, engine),
        Trial::SeveralFaults => several_faults::several_faults(rt, alloc, engine),
        Trial::TooHigh => several_faults::too_high(rt, alloc, engine),
        Trial::WordsAsNames => several_faults::words_as_names(rt, alloc, engine),
        Trial::WorkedBits => several_faults::worked_bits(rt, alloc, engine),
        Trial::SeveralBits => several_faults::several_bits(rt, alloc, engine),
        Trial::TwoNumbers => several_faults::two_numbers(rt, alloc, engine),
        Trial::BadFilesMakeNothing => several_full::bad_files_make_nothing(rt, alloc, engine),
        Trial::OneNameAlone => several_full::one_name_alone(rt, alloc, engine),
    }
}

/// A table, given the binary logarithm of its number of node words, and its first seat.
fn table(rt: &impl Abort, alloc: Global, bits: u32) -> (PairTable, Seat)
    ensures { IsOf result.1 result.0 }
{
    assert!(rt; bits >= 10 && bits <= 24);
    match PairTable::make(alloc, bits, 1) {
        Ok(made) => made,
        Err(_) => panic!(rt; "no memory"),
    }
}

/// Puts an engine of one worker over a table of its own, with 2^16 node words, to a trial.
pub(crate) fn on_an_engine<R: Threads + Abort + Sync>(rt: &R, alloc: Global, trial: Trial) {
    on_a_table(rt, alloc, 16, trial);
}

/// Puts an engine of one worker over a table of its own, given the binary logarithm of its number of node words, to a
/// trial.
pub(crate) fn on_a_table<R: Threads + Abort + Sync>(
    rt: &R,
    alloc: Global,
    bits: u32,
    trial: Trial,
) {
    let (table, seat) = table(rt, alloc, bits);
    let mut engine = Works::new(Crew::new(rt, &table, seat, 1, &OpenGate));
    put_to(rt, alloc, &mut engine, trial);
}
