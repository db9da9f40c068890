//! Random relations, several in a file, written and read.
#![tactic(auto, using(rel_model::proofs::Workers::keeps_stands, rel_model::proofs::Workers::keeps_trans, rel_model::proofs::Workers::gives_stands))]

use crate::chance::{Chance, pairs_within};
use crate::entry::{Entry, without_pairs};
use crate::made::put;
use crate::several::are_of;
use crate::several_made::file_of;
use crate::trial::{Trial, on_an_engine};
use rel_model::engine_trait::Engine;
use std::alloc::Global;
use std::process::Abort;

/// The next of the sizes that random relations have.
fn next_size(chance: &mut Chance) -> u32 {
    match chance.below(8) {
        0 => 0,
        1 => 1,
        2 => 2,
        3 => 8,
        4 => 9,
        5 => 31,
        6 => 200,
        _ => 16_777_216,
    }
}

/// A random relation, with a name of two letters.
fn by_chance(rt: &impl Abort, alloc: Global, chance: &mut Chance, number: u8) -> Entry {
    let name = [b'R', b'a'.wrapping_add(number)];
    let (rows, cols) = (next_size(chance), next_size(chance));
    let mut relation = without_pairs(rt, alloc, name.as_slice(), rows, cols);
    if rows != 0 && cols != 0 {
        let count = chance.below(12);
        relation.pairs = pairs_within(rt, alloc, chance, rows, cols, count);
    }
    relation
}

/// The pairs of a relation again, for a larger one.
fn with_pairs_of(rt: &impl Abort, alloc: Global, other: &Entry, number: u8) -> Entry {
    let name = [b'R', b'a'.wrapping_add(number)];
    let (rows, cols) = (other.rows.max(300), other.cols.max(3));
    let mut relation = without_pairs(rt, alloc, name.as_slice(), rows, cols);
    'pairs: for pair in other.pairs.as_slice() {
        put(rt, &mut relation.pairs, *pair);
    }
    relation
}

/// A number of random relations, some of which have the pairs of an earlier one.
pub(crate) fn entries_by_chance(
    rt: &impl Abort,
    alloc: Global,
    chance: &mut Chance,
    count: u8,
) -> Vec<Entry> {
    let mut entries: Vec<Entry> = Vec::new(alloc);
    'relations: for number in 0..count {
        let is_again = chance.is_once_in(3);
        let relation = match entries.as_slice().first() {
            Some(other) if is_again => with_pairs_of(rt, alloc, other, number),
            _ => by_chance(rt, alloc, chance, number),
        };
        put(rt, &mut entries, relation);
    }
    entries
}

/// Asserts that random relations are written and read back.
pub(crate) fn several_by_chance<E: Engine>(rt: &impl Abort, alloc: Global, engine: &mut E) {
    let mut chance = Chance { state: 4 };
    'files: for i in 0..40u32 {
        let count = (i % 7) as u8;
        let entries = entries_by_chance(rt, alloc, &mut chance, count);
        let entries = entries.as_slice();
        let bytes = file_of(rt, alloc, entries);
        are_of(rt, alloc, engine, bytes.as_slice(), entries);
    }
}

#[test]
fn several_relations_by_chance_are_read_and_written(rt: HostRuntime) {
    on_an_engine(&rt, rt.alloc(), Trial::SeveralByChance);
}
