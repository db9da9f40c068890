//! Files of several relations over a small table: a full table is reported, a bad file makes no node, and a name can be
//! read although the whole file has no room.
#![tactic(auto, using(rel_model::proofs::Workers::keeps_stands, rel_model::proofs::Workers::keeps_trans, rel_model::proofs::Workers::gives_stands))]

use crate::entry::{Entry, without_pairs};
use crate::made::{name_of, put};
use crate::several_made::file_of;
use crate::trial::{Trial, on_a_table};
use k2_read::{read_k2_all, read_k2_named};
use rel_model::engine_trait::Engine;
use run_model::outcome::BadFile;
use std::alloc::Global;
use std::process::Abort;

/// A relation of 1200 by 8 elements whose 150 blocks of 8 by 8 are distinct, with two pairs each. It takes more than
/// half of 1022 node words, and fewer than all: one for each block, and up to three for each of the 153 quads above
/// them. Two of these whose first blocks are 150 apart share none.
fn column(rt: &impl Abort, alloc: Global, name: &[u8], first: u32) -> Entry {
    let mut relation = without_pairs(rt, alloc, name, 1200, 8);
    'blocks: for i in 0..150u32 {
        let block = first.wrapping_add(i);
        let top = i.wrapping_mul(8);
        let (high, low) = (block % 32, block / 32);
        let upper = (top.wrapping_add(high / 8), high % 8);
        let lower = (top.wrapping_add(low / 8 % 4).wrapping_add(4), low % 8);
        put(rt, &mut relation.pairs, upper);
        put(rt, &mut relation.pairs, lower);
    }
    relation
}

/// The file of the columns whose first blocks have these numbers, with the names A, B and so on.
fn columns(rt: &impl Abort, alloc: Global, firsts: &[u32]) -> Vec<u8> {
    let mut entries = Vec::new(alloc);
    let mut letter = b'A';
    'columns: for first in firsts {
        let relation = column(rt, alloc, [letter].as_slice(), *first);
        put(rt, &mut entries, relation);
        letter = letter.wrapping_add(1);
    }
    file_of(rt, alloc, entries.as_slice())
}

/// Asserts the result of reading a file: success, or its fault.
fn comes_as<E: Engine>(
    rt: &impl Abort,
    alloc: Global,
    engine: &mut E,
    bytes: &[u8],
    wanted: Option<BadFile>,
) {
    let found = match read_k2_all(alloc, engine, bytes) {
        Ok(_) => None,
        Err(fault) => Some(fault),
    };
    assert!(rt; found == wanted, "{found:?} for {wanted:?}");
}

/// The same for a name.
fn name_comes_as<E: Engine>(
    rt: &impl Abort,
    alloc: Global,
    engine: &mut E,
    bytes: &[u8],
    name: &[u8],
    wanted: Option<BadFile>,
) {
    let name = name_of(rt, alloc, name);
    let found = match read_k2_named(alloc, engine, bytes, &name) {
        Ok(_) => None,
        Err(fault) => Some(fault),
    };
    assert!(rt; found == wanted, "{found:?} for {wanted:?} by name");
}

/// A copy of bytes with one changed, counted from the last, or with one more after them.
fn damaged(rt: &impl Abort, alloc: Global, bytes: &[u8], from_last: usize, byte: u8) -> Vec<u8> {
    let mut out = Vec::new(alloc);
    let place = bytes.len().wrapping_sub(from_last);
    'bytes: for i in 0..bytes.len() {
        put(rt, &mut out, if i == place { byte } else { bytes[i] });
    }
    if from_last == 0 {
        put(rt, &mut out, byte);
    }
    out
}

/// What is changed in a file of one column, and its fault: a byte after it, the name, the sizes and the root.
const DAMAGES: &[(usize, u8, BadFile)] = &[
    (0, 0, BadFile::Rest),
    (13, b'1', BadFile::Names { at: 0 }),
    (12, 2, BadFile::Sizes),
    (10, 1, BadFile::Root { at: 0 }),
    (5, 7, BadFile::Outside { at: 0 }),
    (1, 0, BadFile::Root { at: 0 }),
];

/// Asserts that bad files of one column, and a missing name, leave room for another column, and that after that one the
/// first has no room any more: the table is full, both as a whole and for a name.
pub(crate) fn bad_files_make_nothing<E: Engine>(rt: &impl Abort, alloc: Global, engine: &mut E) {
    let (first, second) = (columns(rt, alloc, &[0]), columns(rt, alloc, &[150]));
    let (first, second) = (first.as_slice(), second.as_slice());
    'damages: for &(from_last, byte, fault) in DAMAGES {
        let bytes = damaged(rt, alloc, first, from_last, byte);
        comes_as(rt, alloc, engine, bytes.as_slice(), Some(fault));
        name_comes_as(
            rt,
            alloc,
            engine,
            bytes.as_slice(),
            b"A".as_slice(),
            Some(fault),
        );
    }
    name_comes_as(
        rt,
        alloc,
        engine,
        first,
        b"B".as_slice(),
        Some(BadFile::Missing),
    );
    comes_as(rt, alloc, engine, second, None);
    comes_as(rt, alloc, engine, first, Some(BadFile::Full));
    name_comes_as(
        rt,
        alloc,
        engine,
        first,
        b"A".as_slice(),
        Some(BadFile::Full),
    );
    comes_as(rt, alloc, engine, second, None);
}

#[test]
fn a_bad_file_makes_nothing_and_a_full_table_is_told(rt: HostRuntime) {
    on_a_table(&rt, rt.alloc(), 10, Trial::BadFilesMakeNothing);
}

/// Asserts that a column is read by its name from a file of two, although the whole file has no room, and that a name
/// is missing.
pub(crate) fn one_name_alone<E: Engine>(rt: &impl Abort, alloc: Global, engine: &mut E) {
    let bytes = columns(rt, alloc, &[0, 150]);
    let bytes = bytes.as_slice();
    name_comes_as(
        rt,
        alloc,
        engine,
        bytes,
        b"C".as_slice(),
        Some(BadFile::Missing),
    );
    name_comes_as(rt, alloc, engine, bytes, b"B".as_slice(), None);
    name_comes_as(rt, alloc, engine, bytes, b"B".as_slice(), None);
    comes_as(rt, alloc, engine, bytes, Some(BadFile::Full));
}

#[test]
fn a_name_is_read_where_the_whole_file_finds_no_room(rt: HostRuntime) {
    on_a_table(&rt, rt.alloc(), 10, Trial::OneNameAlone);
}
