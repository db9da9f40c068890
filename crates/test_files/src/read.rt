//! Reading files: each fault with a small file, and reading back what was written.
#![tactic(auto, using(rel_model::proofs::Workers::keeps_stands, rel_model::proofs::Workers::keeps_trans, rel_model::proofs::Workers::gives_stands))]

ghost use Rattle.rel_model.specs.Worker.{Stands, Keeps};

use crate::made::told;
use crate::trial::{Trial, on_an_engine};
use k2_file::{read_k2, write_k2};
use rel_model::core_trait::Core;
use rel_model::engine_trait::Engine;
use rel_model::{Rel, Shape};
use run_model::outcome::BadFile;
use std::alloc::Global;
use std::process::Abort;

/// A file: its name, sizes of one byte and height, the numbers of bits of both parts, and what follows them.
fn file(
    rt: &impl Abort,
    alloc: Global,
    sizes: [u8; 2],
    height: u8,
    counts: [u8; 2],
    parts: &[u8],
) -> Vec<u8> {
    let mut out = Vec::new(alloc);
    let header = [
        82, 86, 75, 49, 0, 0, 0, sizes[0], 0, 0, 0, sizes[1], height, 0, 0, 0, 0, 0, 0, 0,
        counts[0], 0, 0, 0, 0, 0, 0, 0, counts[1],
    ];
    'pieces: for piece in [&header[..], parts] {
        if out.extend_from_slice(piece).is_err() {
            panic!(rt; "no memory");
        }
    }
    out
}

/// Asserts the result of reading bytes.
pub(crate) fn is_read_as(
    rt: &impl Abort,
    bytes: &[u8],
    read: Result<Rel, BadFile>,
    wanted: Result<Rel, BadFile>,
) {
    assert!(rt; read == wanted, "{read:?} for {wanted:?} of {bytes:?}");
}

/// Small files, and the one fault of each: sizes and height, the numbers of bits of both parts, and what follows them.
const SMALL_FAULTS: &[([u8; 2], u8, [u8; 2], &[u8], BadFile)] = &[
    ([0, 0], 0, [0, 0], &[], BadFile::Height),
    ([0, 0], 2, [0, 0], &[], BadFile::Height),
    ([1, 1], 0, [0, 0], &[], BadFile::Height),
    ([2, 3], 1, [0, 0], &[], BadFile::Height),
    ([0, 0], 1, [0, 1], &[], BadFile::Short),
    ([0, 0], 1, [1, 0], &[], BadFile::Short),
    ([0, 0], 1, [1, 1], &[0], BadFile::Short),
    ([4, 4], 2, [4, 8], &[144], BadFile::Short),
    ([0, 0], 1, [0, 1], &[0], BadFile::Lengths),
    ([1, 1], 1, [0, 3], &[128], BadFile::Lengths),
    ([1, 1], 1, [0, 8], &[136], BadFile::Lengths),
    ([1, 1], 1, [1, 4], &[128, 128], BadFile::Lengths),
    ([4, 4], 2, [0, 4], &[128], BadFile::Lengths),
    ([4, 4], 2, [4, 0], &[144], BadFile::Lengths),
    ([4, 4], 2, [4, 4], &[144, 128], BadFile::Lengths),
    ([4, 4], 2, [8, 8], &[144, 129], BadFile::Lengths),
    ([4, 4], 2, [9, 8], &[144, 129], BadFile::Short),
    ([4, 4], 2, [8, 8], &[144, 129, 0], BadFile::Lengths),
    ([0, 0], 1, [0, 4], &[0], BadFile::ZeroGroup { at: 0 }),
    ([1, 1], 1, [0, 4], &[8], BadFile::ZeroGroup { at: 0 }),
    ([4, 4], 2, [4, 0], &[0], BadFile::ZeroGroup { at: 0 }),
    ([4, 4], 2, [4, 8], &[144, 1], BadFile::ZeroGroup { at: 4 }),
    ([4, 4], 2, [4, 8], &[144, 128], BadFile::ZeroGroup { at: 8 }),
    ([0, 0], 1, [0, 4], &[128], BadFile::Outside { at: 0 }),
    ([1, 1], 1, [0, 4], &[192], BadFile::Outside { at: 1 }),
    ([1, 1], 1, [0, 4], &[160], BadFile::Outside { at: 2 }),
    ([1, 1], 1, [0, 4], &[144], BadFile::Outside { at: 3 }),
    ([1, 2], 1, [0, 4], &[240], BadFile::Outside { at: 2 }),
    ([2, 1], 1, [0, 4], &[240], BadFile::Outside { at: 1 }),
    ([3, 3], 2, [4, 8], &[144, 129], BadFile::Outside { at: 11 }),
    ([1, 1], 1, [0, 4], &[129], BadFile::Padding),
    ([1, 1], 1, [0, 4], &[136], BadFile::Padding),
    ([4, 4], 2, [4, 8], &[145, 129], BadFile::Padding),
    ([0, 0], 1, [0, 0], &[0], BadFile::Rest),
    ([1, 1], 1, [0, 4], &[128, 0], BadFile::Rest),
    ([4, 4], 2, [4, 8], &[144, 129, 0], BadFile::Rest),
    ([1, 1], 2, [0, 4], &[], BadFile::Height),
    ([1, 1], 1, [0, 3], &[], BadFile::Short),
    ([1, 1], 1, [0, 3], &[0], BadFile::Lengths),
    ([3, 3], 2, [4, 8], &[144, 1], BadFile::ZeroGroup { at: 4 }),
    ([1, 1], 1, [0, 4], &[65], BadFile::Outside { at: 1 }),
    ([1, 1], 1, [0, 4], &[129, 0], BadFile::Padding),
];

/// Asserts that each small file with one fault is refused for that fault.
pub(crate) fn small_faults<E: Engine>(rt: &impl Abort, alloc: Global, engine: &mut E) {
    'cases: for &(sizes, height, counts, parts, fault) in SMALL_FAULTS {
        let bytes = file(rt, alloc, sizes, height, counts, parts);
        let read = read_k2(alloc, engine, bytes.as_slice());
        is_read_as(rt, bytes.as_slice(), read, Err(fault));
    }
}

#[test]
fn small_files_with_one_fault_are_told_which(rt: HostRuntime) {
    on_an_engine(&rt, rt.alloc(), Trial::SmallFaults);
}

/// Files with a fault in the header, and their faults.
const HEADER_FAULTS: &[(&[u8], BadFile)] = &[
    (&[], BadFile::Short),
    (&[83, 86, 75, 49], BadFile::Short),
    (
        &[
            82, 86, 75, 49, 0, 0, 0, 0, 0, 0, 0, 0, 1, 0, 0, 0, 0, 0, 0, 0, 0, 0, 0, 0, 0, 0, 0, 0,
        ],
        BadFile::Short,
    ),
    (
        &[
            83, 86, 75, 49, 0, 0, 0, 0, 0, 0, 0, 0, 1, 0, 0, 0, 0, 0, 0, 0, 0, 0, 0, 0, 0, 0, 0, 0,
            0,
        ],
        BadFile::Magic,
    ),
    (
        &[
            82, 86, 75, 50, 2, 0, 0, 0, 0, 0, 0, 0, 1, 0, 0, 0, 0, 0, 0, 0, 0, 0, 0, 0, 0, 0, 0, 0,
            0,
        ],
        BadFile::Magic,
    ),
    (
        &[
            82, 86, 75, 49, 1, 0, 0, 1, 0, 0, 0, 0, 25, 0, 0, 0, 0, 0, 0, 0, 0, 0, 0, 0, 0, 0, 0,
            0, 0,
        ],
        BadFile::Sizes,
    ),
    (
        &[
            82, 86, 75, 49, 0, 0, 0, 0, 255, 255, 255, 255, 32, 0, 0, 0, 0, 0, 0, 0, 0, 0, 0, 0, 0,
            0, 0, 0, 0,
        ],
        BadFile::Sizes,
    ),
    (
        &[
            82, 86, 75, 49, 1, 0, 0, 0, 0, 0, 0, 1, 23, 0, 0, 0, 0, 0, 0, 0, 0, 0, 0, 0, 0, 0, 0,
            0, 0,
        ],
        BadFile::Height,
    ),
    (
        &[
            82, 86, 75, 49, 0, 0, 0, 1, 0, 0, 0, 1, 1, 255, 255, 255, 255, 255, 255, 255, 255, 255,
            255, 255, 255, 255, 255, 255, 255, 128,
        ],
        BadFile::Short,
    ),
];

/// Asserts that each header with one fault is refused for that fault.
pub(crate) fn header_faults<E: Engine>(rt: &impl Abort, alloc: Global, engine: &mut E) {
    'cases: for &(bytes, fault) in HEADER_FAULTS {
        let read = read_k2(alloc, engine, bytes);
        is_read_as(rt, bytes, read, Err(fault));
    }
}

#[test]
fn headers_with_one_fault_are_told_which(rt: HostRuntime) {
    on_an_engine(&rt, rt.alloc(), Trial::HeaderFaults);
}

/// Small files, and the pairs of their relations.
const SMALL_FILES: &[([u8; 2], u8, [u8; 2], &[u8], &[(u32, u32)])] = &[
    ([0, 0], 1, [0, 0], &[], &[]),
    ([0, 3], 2, [0, 0], &[], &[]),
    ([4, 4], 2, [0, 0], &[], &[]),
    ([1, 1], 1, [0, 4], &[128], &[(0, 0)]),
    ([2, 2], 1, [0, 4], &[64], &[(0, 1)]),
    ([2, 2], 1, [0, 4], &[32], &[(1, 0)]),
    ([2, 2], 1, [0, 4], &[240], &[(0, 0), (0, 1), (1, 0), (1, 1)]),
    ([4, 4], 2, [4, 8], &[144, 129], &[(0, 0), (3, 3)]),
    (
        [3, 5],
        3,
        [12, 8],
        &[194, 128, 200],
        &[(0, 4), (2, 0), (2, 1)],
    ),
    ([16, 1], 4, [12, 4], &[34, 32, 32], &[(15, 0)]),
    ([1, 16], 4, [12, 4], &[72, 128, 128], &[(0, 8)]),
];

/// Asserts that small files are read as their relations.
pub(crate) fn small_files<E: Engine>(rt: &impl Abort, alloc: Global, engine: &mut E) {
    'cases: for &(sizes, height, counts, parts, pairs) in SMALL_FILES {
        let bytes = file(rt, alloc, sizes, height, counts, parts);
        let wanted = told(rt, alloc, engine, sizes[0].into(), sizes[1].into(), pairs);
        let read = read_k2(alloc, engine, bytes.as_slice());
        is_read_as(rt, bytes.as_slice(), read, Ok(wanted));
    }
}

#[test]
fn small_files_are_read_as_their_relations(rt: HostRuntime) {
    on_an_engine(&rt, rt.alloc(), Trial::SmallFiles);
}

/// Asserts that the file of a relation is read back as the relation.
pub(crate) fn comes_back<E: Engine>(rt: &impl Abort, alloc: Global, engine: &mut E, rel: Rel)
    requires { Stands (E.worker engine.old) rel }
    ensures { Keeps (E.worker engine.old) (E.worker engine.new) }
{
    let Ok(bytes) = write_k2(alloc, engine, rel) else {
        panic!(rt; "not written")
    };
    let read = read_k2(alloc, engine, bytes.as_slice());
    is_read_as(rt, bytes.as_slice(), read, Ok(rel));
}

/// Sizes, and pairs within them.
const LISTED: &[(u32, u32, &[(u32, u32)])] = &[
    (0, 0, &[]),
    (2000, 1, &[]),
    (1, 1, &[(0, 0)]),
    (9, 9, &[(0, 8), (8, 0), (8, 8), (3, 3)]),
    (40, 33, &[(39, 32), (0, 0), (17, 5), (8, 31)]),
    (
        2000,
        2000,
        &[(1999, 1999), (1023, 1024), (1024, 1023), (7, 8), (8, 7)],
    ),
];

/// Asserts that the files of listed and of full relations are read back.
pub(crate) fn written_back<E: Engine>(rt: &impl Abort, alloc: Global, engine: &mut E) {
    'listed: for &(rows, cols, pairs) in LISTED {
        let rel = told(rt, alloc, engine, rows, cols, pairs);
        comes_back(rt, alloc, engine, rel);
    }
    'full: for (rows, cols) in [(8, 8), (9, 7), (100, 130), (1, 5000), (16_777_216, 0)] {
        let Ok(full) = engine.full(Shape { rows, cols }) else {
            panic!(rt; "refused")
        };
        comes_back(rt, alloc, engine, full);
    }
}

#[test]
fn what_was_written_is_read_back(rt: HostRuntime) {
    on_an_engine(&rt, rt.alloc(), Trial::WrittenBack);
}
