//! Slow answers as lists of pairs, by row and then by column, computed from their rules.
ghost use Rattle.std.specs.Prelude.{◌≤◌};

use crate::grids::{put, stepped};
use std::alloc::Global;
use std::process::Abort;

/// The pairs of a number in a product and its part, for the first and for the second factor.
pub(crate) fn projections(
    rt: &impl Abort,
    alloc: Global,
    x: u32,
    y: u32,
) -> (Vec<(u32, u32)>, Vec<(u32, u32)>) {
    let mut first = Vec::new(alloc);
    let mut second = Vec::new(alloc);
    let mut number: u32 = 0;
    'firsts: for i in 0..x {
        'seconds: for j in 0..y {
            put(rt, &mut first, (number, i));
            put(rt, &mut second, (number, j));
            number = number.wrapping_add(1);
        }
    }
    (first, second)
}

/// The pairs of elements and their numbers in a sum, where they begin at a given number.
pub(crate) fn injection(rt: &impl Abort, alloc: Global, size: u32, from: u32) -> Vec<(u32, u32)> {
    let mut pairs = Vec::new(alloc);
    'elements: for i in 0..size {
        put(rt, &mut pairs, (i, from.wrapping_add(i)));
    }
    pairs
}

/// A subset's number divided by 2 the given number of times.
fn halved(subset: u32, times: u32) -> u32 {
    let mut rest = subset;
    'times: for _ in 0..times {
        rest /= 2;
    }
    rest
}

/// The pairs of an element and a subset that contains it: after dividing by 2 once for each earlier element, the
/// subset's number is odd.
pub(crate) fn membership(rt: &impl Abort, alloc: Global, x: u32, subsets: u32) -> Vec<(u32, u32)> {
    let mut pairs = Vec::new(alloc);
    'elements: for i in 0..x {
        'subsets: for s in 0..subsets {
            if halved(s, i) % 2 == 1 {
                put(rt, &mut pairs, (i, s));
            }
        }
    }
    pairs
}

/// The pairs of a pairing, given the number of columns of the second relation.
pub(crate) fn pairing(
    rt: &impl Abort,
    alloc: Global,
    r: &[(u32, u32)],
    s: &[(u32, u32)],
    cols: u32,
) -> Vec<(u32, u32)> {
    let mut pairs = Vec::new(alloc);
    'firsts: for (i, j) in r {
        'seconds: for (k, l) in s {
            if *i == *k {
                put(rt, &mut pairs, (*i, j.wrapping_mul(cols).wrapping_add(*l)));
            }
        }
    }
    pairs
}

/// The elements of a vector, numbered in order.
pub(crate) fn numbered(rt: &impl Abort, alloc: Global, vector: &[(u32, u32)]) -> Vec<(u32, u32)> {
    let mut pairs = Vec::new(alloc);
    let mut rank: u32 = 0;
    'elements: for (x, _) in vector {
        put(rt, &mut pairs, (rank, *x));
        rank = rank.wrapping_add(1);
    }
    pairs
}

/// The cells of a grid that are listed, by row and then by column.
pub(crate) fn in_order(
    rt: &impl Abort,
    alloc: Global,
    rows: u32,
    cols: u32,
    listed: &[(u32, u32)],
) -> Vec<(u32, u32)> {
    let mut pairs = Vec::new(alloc);
    'rows: for i in 0..rows {
        'cols: for j in 0..cols {
            if listed.iter().any(|pair| pair.0 == i && pair.1 == j) {
                put(rt, &mut pairs, (i, j));
            }
        }
    }
    pairs
}

/// A size up to 40, from a generator's state.
pub(crate) fn size_of(state: u64) -> u32
    ensures { result ≤ 40 }
{
    ((state >> 33) % 41) as u32
}

/// A number of pairs of a grid that a generator picks, in its order, some of them more than once.
pub(crate) fn picked(
    rt: &impl Abort,
    alloc: Global,
    rows: u32,
    cols: u32,
    count: u32,
    seed: u64,
) -> Vec<(u32, u32)> {
    let mut pairs = Vec::new(alloc);
    let mut state = seed;
    'picks: for _ in 0..count {
        assert!(rt; 0 < rows && 0 < cols);
        state = stepped(state);
        let i = ((state >> 33) % u64::from(rows)) as u32;
        state = stepped(state);
        let j = ((state >> 33) % u64::from(cols)) as u32;
        put(rt, &mut pairs, (i, j));
    }
    pairs
}
