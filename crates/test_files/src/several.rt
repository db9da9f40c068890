//! Files of several relations: each is read as its relations, and by each of their names, and written again as it was.
#![tactic(auto, using(rel_model::proofs::Workers::keeps_stands, rel_model::proofs::Workers::keeps_trans, rel_model::proofs::Workers::gives_stands))]

ghost use Rattle.std.specs.List.{AllByRecursion};
ghost use Rattle.rel_model.specs.Worker.{Stands};

use crate::entry::{Entry, Listed, entries_of, with_all_pairs, without_pairs};
use crate::hex::bytes_of;
use crate::made::{name_of, put, told};
use crate::several_made::file_of;
use crate::slow::number;
use crate::trial::{Trial, on_an_engine};
use k2_read::{read_k2_all, read_k2_named};
use k2_write::write_k2_all;
use lang_model::syntax::Name;
use rel_model::core_trait::Core;
use rel_model::engine_trait::Engine;
use rel_model::{Rel, Shape};
use run_model::outcome::BadFile;
use std::alloc::Global;
use std::process::Abort;

/// Asserts that the relations that were read are those listed, in order.
fn are_entries<E: Engine>(
    rt: &impl Abort,
    alloc: Global,
    engine: &mut E,
    list: &[(Name, Rel)],
    entries: &[Entry],
) {
    assert!(rt; list.len() == entries.len(), "so many relations");
    'relations: for i in 0..list.len() {
        let Some(wanted) = entries.get(i) else {
            panic!(rt; "a relation too many")
        };
        let (rows, cols) = (wanted.rows, wanted.cols);
        let rel = told(rt, alloc, engine, rows, cols, wanted.pairs.as_slice());
        assert!(rt; list[i].0.bytes() == wanted.name.as_slice(), "name {i}");
        assert!(rt; list[i].1 == rel, "relation {i}");
    }
}

/// Asserts the result of reading bytes for a name.
pub(crate) fn is_named<E: Engine>(
    rt: &impl Abort,
    alloc: Global,
    engine: &mut E,
    bytes: &[u8],
    name: &[u8],
    wanted: Result<Rel, BadFile>,
) {
    let name = name_of(rt, alloc, name);
    let read = read_k2_named(alloc, engine, bytes, &name);
    assert!(rt; read == wanted, "{read:?} for {wanted:?} by name");
}

/// Asserts that each relation of a file is read by its name, and that another name is missing.
fn are_named<E: Engine>(
    rt: &impl Abort,
    alloc: Global,
    engine: &mut E,
    bytes: &[u8],
    entries: &[Entry],
) {
    'relations: for entry in entries {
        let (rows, cols) = (entry.rows, entry.cols);
        let rel = told(rt, alloc, engine, rows, cols, entry.pairs.as_slice());
        is_named(rt, alloc, engine, bytes, entry.name.as_slice(), Ok(rel));
    }
    is_named(
        rt,
        alloc,
        engine,
        bytes,
        b"z_".as_slice(),
        Err(BadFile::Missing),
    );
}

/// Asserts that relations are written as these bytes.
fn are_written<E: Engine>(
    rt: &impl Abort,
    alloc: Global,
    engine: &mut E,
    list: &[(Name, Rel)],
    bytes: &[u8],
)
    requires { AllByRecursion (λ e. Stands (E.worker engine.old) e.1) list.now }
{
    match write_k2_all(alloc, engine, list) {
        Ok(again) => assert!(rt; again.as_slice() == bytes, "{bytes:?}"),
        Err(_) => panic!(rt; "not written"),
    }
}

/// Asserts that the relations of a file are written as the bytes of that file.
pub(crate) fn is_written_again<E: Engine>(
    rt: &impl Abort,
    alloc: Global,
    engine: &mut E,
    bytes: &[u8],
) {
    match read_k2_all(alloc, engine, bytes) {
        Ok(list) => are_written(rt, alloc, engine, list.as_slice(), bytes),
        Err(_) => panic!(rt; "not read"),
    }
}

/// Asserts that bytes are the file of relations: they are read as these, and by each of their names, and written again.
pub(crate) fn are_of<E: Engine>(
    rt: &impl Abort,
    alloc: Global,
    engine: &mut E,
    bytes: &[u8],
    entries: &[Entry],
) {
    match read_k2_all(alloc, engine, bytes) {
        Ok(list) => are_entries(rt, alloc, engine, list.as_slice(), entries),
        Err(fault) => panic!(rt; "{fault:?} of {bytes:?}"),
    }
    are_named(rt, alloc, engine, bytes, entries);
    is_written_again(rt, alloc, engine, bytes);
}

/// The relations {1:1; 4:4} of four elements and {1:1} of two, and their file.
const WORKED: &[Listed] = &[("A", 4, 4, &[(0, 0), (3, 3)]), ("B", 2, 2, &[(0, 0)])];

pub(crate) const WORKED_FILE: &str = "52564b32 00000003 00000002
    00000001 00000000 00000000 00000000
    00000000 00000000 00000000 00000001
    00000002 00000000 00000000 00000003
    01 41 00000004 00000004 00000004
    01 42 00000002 00000002 00000002";

/// Asserts that the file of two relations, worked out by hand, is read and written byte for byte.
pub(crate) fn worked_file<E: Engine>(rt: &impl Abort, alloc: Global, engine: &mut E) {
    let bytes = bytes_of(rt, alloc, WORKED_FILE);
    assert!(rt; bytes.len() == 88);
    let entries = entries_of(rt, alloc, WORKED);
    are_of(rt, alloc, engine, bytes.as_slice(), entries.as_slice());
}

#[test]
fn the_worked_file_is_read_and_written_byte_for_byte(rt: HostRuntime) {
    on_an_engine(&rt, rt.alloc(), Trial::WorkedFile);
}

/// Asserts that the file of relations has this many quadrants, and is read and written.
fn has_quadrants<E: Engine>(
    rt: &impl Abort,
    alloc: Global,
    engine: &mut E,
    entries: &[Entry],
    quadrants: u64,
) {
    let bytes = file_of(rt, alloc, entries);
    let found = number(bytes.as_slice(), 4, 4);
    assert!(rt; found == quadrants, "{found} quadrants for {quadrants}");
    are_of(rt, alloc, engine, bytes.as_slice(), entries);
}

/// Relations, and how many squares they have together, each distinct square counted once.
const SQUARES: &[(&[Listed], u64)] = &[
    (&[], 0),
    // sizes without a pair
    (&[("A", 0, 0, &[])], 0),
    (&[("A", 0, 9, &[])], 0),
    (&[("A", 16_777_216, 0, &[])], 0),
    (&[("A", 16_777_216, 16_777_216, &[])], 0),
    (&[("A", 0, 0, &[]), ("a", 8, 9, &[])], 0),
    // one pair: a square at each height
    (&[("A", 1, 1, &[(0, 0)])], 1),
    (&[("A", 8, 8, &[(7, 7)])], 3),
    (&[("A", 9, 1, &[(8, 0)])], 4),
    (&[("A", 1, 9, &[(0, 8)])], 4),
    (&[("A", 16_777_216, 1, &[(16_777_215, 0)])], 24),
    (&[("A", 1, 16_777_216, &[(0, 16_777_215)])], 24),
    // opposite corners: two squares at each height but the highest
    (&[("A", 8, 8, &[(0, 0), (7, 7)])], 5),
    (
        &[(
            "A",
            16_777_216,
            16_777_216,
            &[(0, 0), (16_777_215, 16_777_215)],
        )],
        47,
    ),
    // all squares are shared, at one height and at two
    (
        &[
            ("A", 9, 9, &[(0, 0), (8, 8)]),
            ("B", 9, 9, &[(0, 0), (8, 8)]),
        ],
        4,
    ),
    (
        &[
            ("A", 1, 1, &[(0, 0)]),
            ("B", 2, 2, &[(0, 0)]),
            ("C", 0, 0, &[]),
        ],
        1,
    ),
    (&[("A", 8, 8, &[(0, 0)]), ("B", 9, 9, &[(0, 0)])], 4),
    // no square is shared
    (&[("A", 8, 8, &[(0, 0)]), ("B", 8, 8, &[(7, 7)])], 6),
    (&[("A", 2, 2, &[(0, 1)]), ("B", 2, 2, &[(1, 0)])], 2),
    // half of them: the lower squares are shared, and the higher ones are not
    (&[("A", 4, 4, &[(0, 0)]), ("B", 4, 4, &[(2, 2)])], 3),
    (
        &[
            ("A", 16_777_216, 16_777_216, &[(0, 0)]),
            ("B", 16_777_216, 16_777_216, &[(4096, 4096)]),
        ],
        36,
    ),
    // names in the order of their bytes: upper case before lower case, and prefixes first
    (
        &[
            ("A", 1, 1, &[]),
            ("A1", 1, 1, &[]),
            ("AB", 1, 1, &[]),
            ("A_", 1, 1, &[]),
            ("a", 1, 1, &[]),
        ],
        0,
    ),
];

/// Asserts that tables of relations are read and written, with this many quadrants.
pub(crate) fn tables_of_relations<E: Engine>(rt: &impl Abort, alloc: Global, engine: &mut E) {
    'tables: for &(table, quadrants) in SQUARES {
        let entries = entries_of(rt, alloc, table);
        has_quadrants(rt, alloc, engine, entries.as_slice(), quadrants);
    }
}

#[test]
fn relations_that_share_all_none_or_half_have_each_square_once(rt: HostRuntime) {
    on_an_engine(&rt, rt.alloc(), Trial::TablesOfRelations);
}

/// What the relations in a file of 64 consist of.
#[derive(Clone, Copy)]
enum Kind {
    /// All pairs of 8 by 8 elements.
    Full,
    /// The pair with its number, of 8 by 8 elements.
    Single,
    /// The last pair, for five sizes in turn.
    Last,
}

/// The next of five sizes in turn.
fn size_of(number: u32) -> u32 {
    match number % 5 {
        0 => 0,
        1 => 1,
        2 => 8,
        3 => 9,
        _ => 16_777_216,
    }
}

/// The relation of a number below 64.
fn numbered(rt: &impl Abort, alloc: Global, number: u32, kind: Kind) -> Entry {
    let name = [
        b'N',
        b'0'.wrapping_add((number / 10 % 10) as u8),
        b'0'.wrapping_add((number % 10) as u8),
    ];
    let name = name.as_slice();
    match kind {
        Kind::Full => with_all_pairs(rt, alloc, name, 8, 8),
        Kind::Single => {
            let mut relation = without_pairs(rt, alloc, name, 8, 8);
            put(rt, &mut relation.pairs, (number / 8, number % 8));
            relation
        }
        Kind::Last => with_last_pair(rt, alloc, name, size_of(number)),
    }
}

/// The relation with this name, with as many rows as columns, and its last pair, if it has one.
fn with_last_pair(rt: &impl Abort, alloc: Global, name: &[u8], size: u32) -> Entry {
    let mut relation = without_pairs(rt, alloc, name, size, size);
    if size != 0 {
        put(rt, &mut relation.pairs, (size - 1, size - 1));
    }
    relation
}

/// Asserts that 64 relations are read and written. Those of all pairs share their three squares. Those of one pair each
/// have the four squares of height 1, the sixteen of height 2 and 64 of their own. Those of the last pairs of four
/// sizes have one square, three, four including that one, and 24 including those three.
pub(crate) fn sixty_four<E: Engine>(rt: &impl Abort, alloc: Global, engine: &mut E) {
    'tables: for (kind, quadrants) in [
        (Kind::Full, 3),
        (Kind::Single, 84),
        (Kind::Last, 1 + 3 + (4 - 1) + (24 - 3)),
    ] {
        let mut entries = Vec::new(alloc);
        'relations: for number in 0..64u32 {
            let relation = numbered(rt, alloc, number, kind);
            put(rt, &mut entries, relation);
        }
        has_quadrants(rt, alloc, engine, entries.as_slice(), quadrants);
    }
}

#[test]
fn sixty_four_relations_are_read_and_written(rt: HostRuntime) {
    on_an_engine(&rt, rt.alloc(), Trial::SixtyFour);
}

/// Appends the quadrants of the full squares of the heights from 1 to 24, numbered from 2 on.
fn put_full_squares(rt: &impl Abort, out: &mut Vec<u8>) {
    'heights: for below in 1..25u8 {
        'quarters: for _ in 0..4u8 {
            'bytes: for byte in [0, 0, 0, below] {
                put(rt, out, byte);
            }
        }
    }
}

/// The header of a file with 24 quadrants and one relation, and the relation: the greatest sizes and number 25.
const FULL_HEADER: &str = "52564b32 00000018 00000001";

const FULL_ROOT: &str = "01 4c 01000000 01000000 00000019";

/// Asserts that the full relation of the greatest sizes is read from 24 quadrants, each consisting of four times the
/// one before, and written as these.
pub(crate) fn greatest_full<E: Engine>(rt: &impl Abort, alloc: Global, engine: &mut E) {
    let mut bytes = bytes_of(rt, alloc, FULL_HEADER);
    put_full_squares(rt, &mut bytes);
    'bytes: for byte in bytes_of(rt, alloc, FULL_ROOT) {
        put(rt, &mut bytes, byte);
    }
    let bytes = bytes.as_slice();
    let Ok(all) = engine.full(Shape {
        rows: 16_777_216,
        cols: 16_777_216,
    }) else {
        panic!(rt; "refused")
    };
    is_named(rt, alloc, engine, bytes, b"L".as_slice(), Ok(all));
    is_written_again(rt, alloc, engine, bytes);
}

#[test]
fn all_pairs_of_the_greatest_sizes_are_24_quadrants(rt: HostRuntime) {
    on_an_engine(&rt, rt.alloc(), Trial::GreatestFull);
}
