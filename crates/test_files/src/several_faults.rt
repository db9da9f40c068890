//! Files of several relations that fail a test: the smallest for each fault at each place, which of two faults is
//! reported, and files with a bit or a number changed, each answered as the slow reader answers it.
#![tactic(auto, using(rel_model::proofs::Workers::keeps_stands, rel_model::proofs::Workers::keeps_trans, rel_model::proofs::Workers::gives_stands))]

ghost use Rattle.std.specs.Prelude.{◌<◌};

use crate::chance::{Chance, put_number};
use crate::changed::with_turned;
use crate::hex::bytes_of;
use crate::made::put;
use crate::several::{WORKED_FILE, are_of, is_named, is_written_again};
use crate::several_bad::FAULTS;
use crate::several_chance::entries_by_chance;
use crate::several_first::FIRST_FAULTS;
use crate::several_made::file_of;
use crate::several_slow::entries_answered;
use crate::trial::{Trial, on_an_engine};
use k2_read::read_k2_all;
use rel_model::engine_trait::Engine;
use run_model::outcome::BadFile;
use std::alloc::Global;
use std::process::Abort;

/// Asserts that a file is refused for a fault, both as a whole and for a name.
fn has_fault<E: Engine>(
    rt: &impl Abort,
    alloc: Global,
    engine: &mut E,
    bytes: &[u8],
    wanted: BadFile,
) {
    match read_k2_all(alloc, engine, bytes) {
        Ok(_) => panic!(rt; "{bytes:?} is read"),
        Err(found) => assert!(rt; found == wanted, "{found:?} for {wanted:?} of {bytes:?}"),
    }
    is_named(rt, alloc, engine, bytes, b"A".as_slice(), Err(wanted));
}

/// Asserts that each file is refused for its first fault.
pub(crate) fn several_faults<E: Engine>(rt: &impl Abort, alloc: Global, engine: &mut E) {
    'tables: for table in [FAULTS, FIRST_FAULTS] {
        'files: for &(hex, fault) in table {
            let bytes = bytes_of(rt, alloc, hex);
            has_fault(rt, alloc, engine, bytes.as_slice(), fault);
        }
    }
}

#[test]
fn a_file_of_several_relations_is_told_by_its_first_fault(rt: HostRuntime) {
    on_an_engine(&rt, rt.alloc(), Trial::SeveralFaults);
}

/// A file with this many quadrants, each the first quarter of the next, and no relation.
fn chain(rt: &impl Abort, alloc: Global, count: u32) -> Vec<u8> {
    let mut bytes = bytes_of(rt, alloc, "52564b32");
    put_number(rt, &mut bytes, u64::from(count), 4);
    put_number(rt, &mut bytes, 0, 4);
    'quadrants: for below in 0..count {
        put_number(rt, &mut bytes, u64::from(below).wrapping_add(1), 4);
        'others: for _ in 0..3u32 {
            put_number(rt, &mut bytes, 0, 4);
        }
    }
    bytes
}

/// Asserts that a quadrant of height 24 is valid, and one of height 25 is not, whatever follows it.
pub(crate) fn too_high<E: Engine>(rt: &impl Abort, alloc: Global, engine: &mut E) {
    'counts: for (count, fault) in [
        (24, BadFile::Order { at: 2 }),
        (25, BadFile::Quad { at: 26 }),
        (26, BadFile::Quad { at: 26 }),
    ] {
        let bytes = chain(rt, alloc, count);
        has_fault(rt, alloc, engine, bytes.as_slice(), fault);
    }
}

#[test]
fn a_quadrant_of_height_25_is_none(rt: HostRuntime) {
    on_an_engine(&rt, rt.alloc(), Trial::TooHigh);
}

/// Files whose names are words, although some of them have other uses in the language.
const NAMES: &[(&str, &[u8])] = &[
    (
        "52564b32 00000000 00000001 01 7a 00000000 00000000 00000000",
        b"z",
    ),
    (
        "52564b32 00000000 00000001 02 5a 5f 00000000 00000000 00000000",
        b"Z_",
    ),
    (
        "52564b32 00000000 00000001 03 41 4c 4c 00000000 00000000 00000000",
        b"ALL",
    ),
    (
        "52564b32 00000000 00000001 03 64 6f 6d 00000000 00000000 00000000",
        b"dom",
    ),
    (
        "52564b32 00000000 00000001 03 61 30 39 00000000 00000000 00000000",
        b"a09",
    ),
    (
        "52564b32 00000000 00000001 40 61616161616161616161616161616161 62626262626262626262626262626262
        63636363636363636363636363636363 64646464646464646464646464646464 00000000 00000000 00000000",
        b"aaaaaaaaaaaaaaaabbbbbbbbbbbbbbbbccccccccccccccccdddddddddddddddd",
    ),
];

/// Asserts that a file has a single relation, with this name.
fn has_name<E: Engine>(rt: &impl Abort, alloc: Global, engine: &mut E, bytes: &[u8], name: &[u8]) {
    match read_k2_all(alloc, engine, bytes) {
        Ok(list) => assert!(rt; list.len() == 1 && list[0].0.bytes() == name),
        Err(fault) => panic!(rt; "{fault:?} of {bytes:?}"),
    }
    is_written_again(rt, alloc, engine, bytes);
}

/// Asserts that each word is a name.
pub(crate) fn words_as_names<E: Engine>(rt: &impl Abort, alloc: Global, engine: &mut E) {
    'files: for &(hex, name) in NAMES {
        let bytes = bytes_of(rt, alloc, hex);
        has_name(rt, alloc, engine, bytes.as_slice(), name);
    }
}

#[test]
fn each_word_is_a_name_in_a_file(rt: HostRuntime) {
    on_an_engine(&rt, rt.alloc(), Trial::WordsAsNames);
}

/// The number of a fault.
fn number_of(fault: BadFile) -> u32
    ensures { result < 32 }
{
    match fault {
        BadFile::Magic => 1,
        BadFile::Short => 2,
        BadFile::Quad { .. } => 3,
        BadFile::Names { .. } => 4,
        BadFile::Sizes => 5,
        BadFile::Root { .. } => 6,
        BadFile::Outside { .. } => 7,
        BadFile::Order { .. } => 8,
        BadFile::Rest => 9,
        _ => 10,
    }
}

/// Asserts that bytes are answered as the slow reader answers them, and notes the result by a bit.
fn is_as_slow<E: Engine>(
    rt: &impl Abort,
    alloc: Global,
    engine: &mut E,
    bytes: &[u8],
    seen: &mut u32,
) {
    match entries_answered(rt, alloc, bytes) {
        Ok(entries) => {
            are_of(rt, alloc, engine, bytes, entries.as_slice());
            *seen |= 1;
        }
        Err(fault) => {
            has_fault(rt, alloc, engine, bytes, fault);
            *seen |= 1u32 << number_of(fault);
        }
    }
}

/// Asserts the same for a file with any one bit flipped.
fn each_bit_counts<E: Engine>(
    rt: &impl Abort,
    alloc: Global,
    engine: &mut E,
    bytes: &[u8],
    seen: &mut u32,
) {
    'bytes: for at in 0..bytes.len() {
        'bits: for bit in 0..8u32 {
            let turned = with_turned(rt, alloc, bytes, at, 1u8 << bit);
            is_as_slow(rt, alloc, engine, turned.as_slice(), seen);
        }
    }
}

/// Asserts that the worked file with any one bit flipped is answered as the slow reader answers it. Each fault occurs
/// except that of bytes after the relations, and some files are read.
pub(crate) fn worked_bits<E: Engine>(rt: &impl Abort, alloc: Global, engine: &mut E) {
    let bytes = bytes_of(rt, alloc, WORKED_FILE);
    let mut seen = 0;
    each_bit_counts(rt, alloc, engine, bytes.as_slice(), &mut seen);
    assert!(rt; seen == 0b01_1111_1111, "{seen}");
}

#[test]
fn the_worked_file_with_one_bit_turned_is_answered_as_the_slow_reader_does(rt: HostRuntime) {
    on_an_engine(&rt, rt.alloc(), Trial::WorkedBits);
}

/// Asserts the same for random files.
pub(crate) fn several_bits<E: Engine>(rt: &impl Abort, alloc: Global, engine: &mut E) {
    let mut chance = Chance { state: 5 };
    let mut seen = 0;
    'files: for count in 1..4u8 {
        let entries = entries_by_chance(rt, alloc, &mut chance, count);
        let bytes = file_of(rt, alloc, entries.as_slice());
        each_bit_counts(rt, alloc, engine, bytes.as_slice(), &mut seen);
    }
}

#[test]
fn files_of_several_with_one_bit_turned_are_answered_as_the_slow_reader_does(rt: HostRuntime) {
    on_an_engine(&rt, rt.alloc(), Trial::SeveralBits);
}

/// A copy of bytes in which the four bytes at a place are replaced by a number.
fn with_number(rt: &impl Abort, alloc: Global, bytes: &[u8], at: usize, number: u8) -> Vec<u8> {
    let mut out = Vec::new(alloc);
    'bytes: for i in 0..bytes.len() {
        let byte = if i == at.wrapping_add(3) {
            number
        } else if at <= i && i < at.wrapping_add(3) {
            0
        } else {
            bytes[i]
        };
        put(rt, &mut out, byte);
    }
    out
}

/// The places of the numbers of the worked file.
const PLACES: &[usize] = &[
    4, 8, 12, 16, 20, 24, 28, 32, 36, 40, 44, 48, 52, 56, 62, 66, 70, 76, 80, 84,
];

/// Asserts that the worked file with any two numbers of its quadrants and relations changed to others up to 5 is
/// answered as the slow reader answers it. Each fault occurs except those of the first bytes and of sizes, and some
/// files are read.
pub(crate) fn two_numbers<E: Engine>(rt: &impl Abort, alloc: Global, engine: &mut E) {
    let bytes = bytes_of(rt, alloc, WORKED_FILE);
    let mut seen = 0;
    'first: for first in PLACES {
        'numbers: for number in 0..6u8 {
            let once = with_number(rt, alloc, bytes.as_slice(), *first, number);
            second_numbers(rt, alloc, engine, once.as_slice(), *first, &mut seen);
        }
    }
    assert!(rt; seen == 0b11_1101_1101, "{seen}");
}

/// The same for a file in which one number is changed already.
fn second_numbers<E: Engine>(
    rt: &impl Abort,
    alloc: Global,
    engine: &mut E,
    bytes: &[u8],
    first: usize,
    seen: &mut u32,
) {
    'second: for second in PLACES {
        if *second <= first {
            continue 'second;
        }
        'numbers: for number in 0..6u8 {
            let twice = with_number(rt, alloc, bytes, *second, number);
            is_as_slow(rt, alloc, engine, twice.as_slice(), seen);
        }
    }
}

#[test]
fn the_worked_file_with_two_numbers_changed_is_answered_as_the_slow_reader_does(rt: HostRuntime) {
    on_an_engine(&rt, rt.alloc(), Trial::TwoNumbers);
}
