//! Slow answers computed from the pairs of a relation, which are listed by row and then by column.
use crate::grids::put;
use std::alloc::Global;
use std::process::Abort;

/// The elements of a column with this many rows, as pairs with column 0.
pub(crate) fn vector(rt: &impl Abort, alloc: Global, rows: u32, has: &[u32]) -> Vec<(u32, u32)> {
    let mut out = Vec::new(alloc);
    'rows: for i in 0..rows {
        if has.contains(&i) {
            put(rt, &mut out, (i, 0));
        }
    }
    out
}

/// The rows of the pairs.
pub(crate) fn rows_of(rt: &impl Abort, alloc: Global, pairs: &[(u32, u32)]) -> Vec<u32> {
    let mut out = Vec::new(alloc);
    'pairs: for (i, _) in pairs {
        if out.push(*i).is_err() {
            panic!(rt; "no memory");
        }
    }
    out
}

/// The columns of the pairs.
pub(crate) fn cols_of(rt: &impl Abort, alloc: Global, pairs: &[(u32, u32)]) -> Vec<u32> {
    let mut out = Vec::new(alloc);
    'pairs: for (_, j) in pairs {
        if out.push(*j).is_err() {
            panic!(rt; "no memory");
        }
    }
    out
}

/// Whether two adjacent pairs of the list have the same row.
pub(crate) fn has_two_in_a_row(pairs: &[(u32, u32)]) -> bool {
    pairs.windows(2).any(|two| two[0].0 == two[1].0)
}

/// The first of the pairs that comes after a place, by row and then by column.
pub(crate) fn behind(pairs: &[(u32, u32)], i: u32, j: u32) -> Option<(u32, u32)> {
    'pairs: for (k, l) in pairs {
        if *k > i || *k == i && *l > j {
            return Some((*k, *l));
        }
    }
    None
}
