//! Files with one change, random files, and random relations: each is answered as the format says.
#![tactic(auto, using(rel_model::proofs::Workers::keeps_stands, rel_model::proofs::Workers::keeps_trans, rel_model::proofs::Workers::gives_stands))]

ghost use Rattle.std.specs.Prelude.{◌<◌};

use crate::chance::{Chance, bytes_by_chance, file_by_chance, pairs_within};
use crate::hex::bytes_of;
use crate::made::{put, told};
use crate::read::{comes_back, is_read_as};
use crate::slow::answered;
use crate::trial::{Trial, on_an_engine};
use k2_file::{read_k2, write_k2};
use rel_model::Rel;
use rel_model::engine_trait::Engine;
use run_model::outcome::BadFile;
use std::alloc::Global;
use std::process::Abort;

/// Whether reading bytes had this result: a kind of fault, with its place if it has one, or success.
fn is_kind(read: Result<Rel, BadFile>, kind: &str, at: u64) -> bool {
    let (name, place) = match read {
        Ok(_) => ("read", 0),
        Err(BadFile::Short) => ("short", 0),
        Err(BadFile::Magic) => ("magic", 0),
        Err(BadFile::Sizes) => ("sizes", 0),
        Err(BadFile::Height) => ("height", 0),
        Err(BadFile::Lengths) => ("lengths", 0),
        Err(BadFile::ZeroGroup { at }) => ("zero group", at),
        Err(BadFile::Outside { at }) => ("outside", at),
        Err(BadFile::Padding) => ("padding", 0),
        Err(BadFile::Rest) => ("rest", 0),
        Err(BadFile::Full) => ("full", 0),
        Err(BadFile::NoMemory) => ("no memory", 0),
        Err(BadFile::Quad { at }) => ("quadrant", at),
        Err(BadFile::Names { at }) => ("name", at),
        Err(BadFile::Root { at }) => ("root", at),
        Err(BadFile::Order { at }) => ("order", at),
        Err(BadFile::Missing) => ("missing", 0),
    };
    name == kind && place == at
}

/// Files in hexadecimal digits, and the fault of each, with its place.
const CHANGED: &[(&str, &str, u64)] = &[
    // the two pairs in the corners of 4 by 4, and the results of a single change
    (
        "52564b31 00000004 00000004 02 0000000000000004 0000000000000008 90 81",
        "read",
        0,
    ),
    (
        "52564b31 00000004 00000004 02 0000000000000004 00000000000000",
        "short",
        0,
    ),
    (
        "53564b31 00000004 00000004 02 0000000000000004 0000000000000008 90 81",
        "magic",
        0,
    ),
    (
        "52564b31 00100001 00000004 02 0000000000000004 0000000000000008 90 81",
        "height",
        0,
    ),
    (
        "52564b31 01000001 00000004 02 0000000000000004 0000000000000008 90 81",
        "sizes",
        0,
    ),
    (
        "52564b31 00000004 01000001 02 0000000000000004 0000000000000008 90 81",
        "sizes",
        0,
    ),
    (
        "52564b31 00000004 00000004 02 ffffffffffffffff 0000000000000008 90 81",
        "short",
        0,
    ),
    (
        "52564b31 00000004 00000004 02 0000000000000004 ffffffffffffffff 90 81",
        "short",
        0,
    ),
    (
        "52564b31 00000004 00000004 02 0000000000000004 0000000000000000 90 81",
        "lengths",
        0,
    ),
    (
        "52564b31 00000004 00000004 02 0000000000000004 0000000000000008 90",
        "short",
        0,
    ),
    (
        "52564b31 00000004 00000004 02 0000000000000004 0000000000000008 90 80",
        "zero group",
        8,
    ),
    (
        "52564b31 00000004 00000004 02 0000000000000004 0000000000000008 91 81",
        "padding",
        0,
    ),
    (
        "52564b31 00000003 00000003 02 0000000000000004 0000000000000008 90 81",
        "outside",
        11,
    ),
    (
        "52564b31 00000004 00000004 03 0000000000000004 0000000000000008 90 81",
        "height",
        0,
    ),
    (
        "52564b31 00000004 00000004 02 0000000000000004 0000000000000008 90 81 00",
        "rest",
        0,
    ),
    // the smallest file that is read, and the smallest for each fault
    (
        "52564b31 00000000 00000000 01 0000000000000000 0000000000000000",
        "read",
        0,
    ),
    ("", "short", 0),
    (
        "00000000 00000000 00000000 00 0000000000000000 0000000000000000",
        "magic",
        0,
    ),
    (
        "52564b31 01000001 00000000 00 0000000000000000 0000000000000000",
        "sizes",
        0,
    ),
    (
        "52564b31 00000000 01000001 00 0000000000000000 0000000000000000",
        "sizes",
        0,
    ),
    (
        "52564b31 00000000 00000000 00 0000000000000000 0000000000000000",
        "height",
        0,
    ),
    (
        "52564b31 00000000 00000000 01 0000000000000001 0000000000000000",
        "short",
        0,
    ),
    (
        "52564b31 00000000 00000000 01 0000000000000000 0000000000000001",
        "short",
        0,
    ),
    (
        "52564b31 00000000 00000000 01 0000000000000000 0000000000000001 00",
        "lengths",
        0,
    ),
    (
        "52564b31 00000000 00000000 01 0000000000000001 0000000000000000 00",
        "lengths",
        0,
    ),
    (
        "52564b31 00000000 00000000 01 0000000000000000 0000000000000004 00",
        "zero group",
        0,
    ),
    (
        "52564b31 00000000 00000000 01 0000000000000000 0000000000000004 10",
        "outside",
        3,
    ),
    (
        "52564b31 00000002 00000002 01 0000000000000000 0000000000000004 48",
        "padding",
        0,
    ),
    (
        "52564b31 00000000 00000000 01 0000000000000000 0000000000000000 00",
        "rest",
        0,
    ),
    // the greatest sizes
    (
        "52564b31 01000000 01000000 18 0000000000000000 0000000000000000",
        "read",
        0,
    ),
    (
        "52564b31 01000000 01000000 19 0000000000000000 0000000000000000",
        "height",
        0,
    ),
    (
        "52564b31 01000000 00000000 17 0000000000000000 0000000000000000",
        "height",
        0,
    ),
];

/// Asserts that each file with one change is refused for its first fault.
pub(crate) fn one_change<E: Engine>(rt: &impl Abort, alloc: Global, engine: &mut E) {
    'files: for &(hex, kind, at) in CHANGED {
        let bytes = bytes_of(rt, alloc, hex);
        let read = read_k2(alloc, engine, bytes.as_slice());
        assert!(rt; is_kind(read, kind, at), "{kind} at {at} of {hex}");
    }
}

#[test]
fn a_file_with_one_change_is_told_by_its_first_fault(rt: HostRuntime) {
    on_an_engine(&rt, rt.alloc(), Trial::OneChange);
}

/// Asserts that bytes are read as the ten tests say, and answers the result as a number.
fn is_as_told<E: Engine>(rt: &impl Abort, alloc: Global, engine: &mut E, bytes: &[u8]) -> u32
    ensures { result < 17 }
{
    let read = read_k2(alloc, engine, bytes);
    match answered(rt, alloc, bytes) {
        Ok(file) => {
            let pairs = file.pairs.as_slice();
            let wanted = told(rt, alloc, engine, file.rows, file.cols, pairs);
            is_read_as(rt, bytes, read, Ok(wanted));
        }
        Err(fault) => is_read_as(rt, bytes, read, Err(fault)),
    }
    number_of(read)
}

/// The number of a result of reading.
fn number_of(read: Result<Rel, BadFile>) -> u32
    ensures { result < 17 }
{
    match read {
        Ok(_) => 0,
        Err(BadFile::Short) => 1,
        Err(BadFile::Magic) => 2,
        Err(BadFile::Sizes) => 3,
        Err(BadFile::Height) => 4,
        Err(BadFile::Lengths) => 5,
        Err(BadFile::ZeroGroup { .. }) => 6,
        Err(BadFile::Outside { .. }) => 7,
        Err(BadFile::Padding) => 8,
        Err(BadFile::Rest) => 9,
        Err(BadFile::Full) => 10,
        Err(BadFile::NoMemory) => 11,
        Err(BadFile::Quad { .. }) => 12,
        Err(BadFile::Names { .. }) => 13,
        Err(BadFile::Root { .. }) => 14,
        Err(BadFile::Order { .. }) => 15,
        Err(BadFile::Missing) => 16,
    }
}

/// Asserts that random files are answered as the ten tests say, and that each of the faults occurs.
pub(crate) fn files_by_chance<E: Engine>(rt: &impl Abort, alloc: Global, engine: &mut E) {
    let mut chance = Chance { state: 1 };
    let mut seen: u32 = 0;
    'files: for _ in 0..2000 {
        let bytes = file_by_chance(rt, alloc, &mut chance);
        seen |= 1u32 << is_as_told(rt, alloc, engine, bytes.as_slice());
    }
    'bytes: for i in 0..500 {
        let bytes = bytes_by_chance(rt, alloc, &mut chance, i % 2 == 0);
        seen |= 1u32 << is_as_told(rt, alloc, engine, bytes.as_slice());
    }
    // each of the faults occurred, and some files were read
    assert!(rt; seen == 0b11_1111_1111);
}

#[test]
fn files_by_chance_are_answered_as_the_ten_tests_say(rt: HostRuntime) {
    on_an_engine(&rt, rt.alloc(), Trial::FilesByChance);
}

/// A copy of bytes with some bits of one byte flipped.
pub(crate) fn with_turned(
    rt: &impl Abort,
    alloc: Global,
    bytes: &[u8],
    at: usize,
    bits: u8,
) -> Vec<u8> {
    let mut out = Vec::new(alloc);
    'bytes: for i in 0..bytes.len() {
        put(
            rt,
            &mut out,
            if i == at { bytes[i] ^ bits } else { bytes[i] },
        );
    }
    out
}

/// Asserts that a file with any one bit flipped is answered as the ten tests say.
fn each_bit_counts<E: Engine>(rt: &impl Abort, alloc: Global, engine: &mut E, bytes: &[u8]) {
    'bytes: for at in 0..bytes.len() {
        'bits: for bit in 0..8u32 {
            let turned = with_turned(rt, alloc, bytes, at, 1u8 << bit);
            let _ = is_as_told(rt, alloc, engine, turned.as_slice());
        }
    }
}

/// Sizes, and how many pairs there are within them.
const FEW_PAIRS: &[(u32, u32, u32)] = &[
    (1, 1, 1),
    (2, 2, 2),
    (4, 4, 5),
    (7, 3, 6),
    (9, 13, 20),
    (16, 16, 24),
    (40, 33, 30),
    (1_048_576, 3, 2),
];

/// Asserts the same for files with one bit flipped.
pub(crate) fn bits_turned<E: Engine>(rt: &impl Abort, alloc: Global, engine: &mut E) {
    let mut chance = Chance { state: 2 };
    'relations: for &(rows, cols, count) in FEW_PAIRS {
        let pairs = pairs_within(rt, alloc, &mut chance, rows, cols, count);
        let rel = told(rt, alloc, engine, rows, cols, pairs.as_slice());
        match write_k2(alloc, engine, rel) {
            Ok(bytes) => each_bit_counts(rt, alloc, engine, bytes.as_slice()),
            Err(_) => panic!(rt; "not written"),
        }
    }
}

#[test]
fn files_with_one_bit_turned_are_answered_as_the_ten_tests_say(rt: HostRuntime) {
    on_an_engine(&rt, rt.alloc(), Trial::BitsTurned);
}

/// The same for larger relations.
const MORE_PAIRS: &[(u32, u32, u32)] = &[
    (1, 1, 1),
    (3, 2, 4),
    (8, 8, 32),
    (9, 8, 40),
    (31, 64, 500),
    (65, 17, 300),
    (256, 256, 2000),
    (1000, 1000, 1000),
    (5000, 2, 1000),
    (1, 16_777_216, 200),
    (16_777_216, 1, 200),
    (1_000_000, 16_777_216, 200),
];

/// Asserts that random relations are written and read back.
pub(crate) fn relations_by_chance<E: Engine>(rt: &impl Abort, alloc: Global, engine: &mut E) {
    let mut chance = Chance { state: 3 };
    'relations: for &(rows, cols, count) in MORE_PAIRS {
        'seeds: for _ in 0..3 {
            let pairs = pairs_within(rt, alloc, &mut chance, rows, cols, count);
            let rel = told(rt, alloc, engine, rows, cols, pairs.as_slice());
            comes_back(rt, alloc, engine, rel);
        }
    }
}

#[test]
fn relations_by_chance_are_written_and_read_back(rt: HostRuntime) {
    on_an_engine(&rt, rt.alloc(), Trial::RelationsByChance);
}
