//! Lists of pairs: whether they lie within sizes, and those made by chance.
ghost use Rattle.std.specs.Prelude.{◌≡◌, ◌<◌, IsTrue};
ghost use Rattle.rel_model.specs.Listed.{AreWithin};

use rel_model::Shape;
use std::alloc::Global;
use std::process::Abort;

/// Appends a pair to others.
pub(crate) fn put(rt: &impl Abort, pairs: &mut Vec<(u32, u32)>, pair: (u32, u32)) {
    if pairs.push(pair).is_err() {
        panic!(rt; "no memory");
    }
}

/// Whether all pairs lie within the sizes.
pub(crate) fn lie_within(pairs: &[(u32, u32)], shape: Shape) -> bool
    ensures { IsTrue result → AreWithin shape.rows shape.cols pairs.now }
{
    'pairs: for pair in pairs {
        if pair.0 >= shape.rows || pair.1 >= shape.cols {
            return false;
        }
    }
    true
}

/// The next state of a linear congruential generator (Knuth's MMIX).
fn next(state: u64) -> u64 {
    state
        .wrapping_mul(6364136223846793005)
        .wrapping_add(1442695040888963407)
}

/// A number below a bound, made from a state.
fn below(state: u64, bound: u32) -> u32
    requires { 0 < bound }
    ensures { result < bound }
{
    ((state >> 33) % bound as u64) as u32
}

/// `count` pairs within these sizes, by chance. Some may be listed twice.
pub(crate) fn pairs_by_chance(
    rt: &impl Abort,
    alloc: Global,
    shape: Shape,
    count: u32,
    seed: u64,
) -> Vec<(u32, u32)> {
    assert!(rt; 0 < shape.rows && 0 < shape.cols);
    let mut pairs = Vec::new(alloc);
    let mut state = seed;
    'pairs: for _ in 0..count {
        let row = next(state);
        state = next(row);
        put(
            rt,
            &mut pairs,
            (below(row, shape.rows), below(state, shape.cols)),
        );
    }
    pairs
}

/// One place in `one_in` of these sizes, by chance, row by row.
pub(crate) fn places_by_chance(
    rt: &impl Abort,
    alloc: Global,
    shape: Shape,
    one_in: u64,
    seed: u64,
) -> Vec<(u32, u32)> {
    assert!(rt; one_in > 0);
    let mut pairs = Vec::new(alloc);
    let mut state = seed;
    'rows: for i in 0..shape.rows {
        'columns: for j in 0..shape.cols {
            state = next(state);
            if (state >> 33) % one_in == 0 {
                put(rt, &mut pairs, (i, j));
            }
        }
    }
    pairs
}

/// A map of the numbers below `size` to numbers by chance, as pairs, and `twice` once more with the column 0.
pub(crate) fn map_by_chance(
    rt: &impl Abort,
    alloc: Global,
    size: u32,
    twice: Option<u32>,
) -> Vec<(u32, u32)> {
    assert!(rt; size > 1);
    let mut pairs = Vec::new(alloc);
    let mut state = 7;
    'rows: for i in 0..size {
        if twice == Some(i) {
            put(rt, &mut pairs, (i, 0));
        }
        state = next(state);
        put(rt, &mut pairs, (i, 1 + below(state, size - 1)));
    }
    pairs
}
