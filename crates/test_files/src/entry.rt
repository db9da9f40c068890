//! Named relations as they are listed: their names, sizes and pairs.
use crate::made::put;
use std::alloc::Global;
use std::process::Abort;

/// A named relation: the bytes of its name, its sizes, and its pairs, counted from 0.
#[derive(Drop)]
pub(crate) struct Entry {
    pub(crate) name: Vec<u8>,
    pub(crate) rows: u32,
    pub(crate) cols: u32,
    pub(crate) pairs: Vec<(u32, u32)>,
}

/// A named relation in a table.
pub(crate) type Listed = (&'static str, u32, u32, &'static [(u32, u32)]);

/// A relation with this name, without pairs.
pub(crate) fn without_pairs(
    rt: &impl Abort,
    alloc: Global,
    name: &[u8],
    rows: u32,
    cols: u32,
) -> Entry {
    let Ok(name) = Vec::from_slice(alloc, name) else {
        panic!(rt; "no memory")
    };
    Entry {
        name,
        rows,
        cols,
        pairs: Vec::new(alloc),
    }
}

/// The named relations of a table.
pub(crate) fn entries_of(rt: &impl Abort, alloc: Global, table: &[Listed]) -> Vec<Entry> {
    let mut entries = Vec::new(alloc);
    'relations: for &(name, rows, cols, pairs) in table {
        let mut relation = without_pairs(rt, alloc, name.as_bytes(), rows, cols);
        'pairs: for pair in pairs {
            put(rt, &mut relation.pairs, *pair);
        }
        put(rt, &mut entries, relation);
    }
    entries
}

/// A relation with this name, with all pairs.
pub(crate) fn with_all_pairs(
    rt: &impl Abort,
    alloc: Global,
    name: &[u8],
    rows: u32,
    cols: u32,
) -> Entry {
    let mut relation = without_pairs(rt, alloc, name, rows, cols);
    'rows: for row in 0..rows {
        'cols: for col in 0..cols {
            put(rt, &mut relation.pairs, (row, col));
        }
    }
    relation
}
