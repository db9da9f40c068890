//! Lists of the cells of a grid, by row and then by column: those that bits or a generator pick.
use rel_model::Shape;
use std::alloc::Global;
use std::process::Abort;

/// Appends a pair to others.
pub(crate) fn put(rt: &impl Abort, pairs: &mut Vec<(u32, u32)>, pair: (u32, u32)) {
    if pairs.push(pair).is_err() {
        panic!(rt; "no memory");
    }
}

/// The pairs of the cells of a grid whose bits are set, lowest first.
pub(crate) fn cells_of(rt: &impl Abort, alloc: Global, shape: Shape, bits: u64) -> Vec<(u32, u32)> {
    let mut pairs = Vec::new(alloc);
    let mut left = bits;
    'rows: for i in 0..shape.rows {
        'cols: for j in 0..shape.cols {
            if left % 2 == 1 {
                put(rt, &mut pairs, (i, j));
            }
            left /= 2;
        }
    }
    pairs
}

/// The next state of a linear congruential generator (Knuth's MMIX).
pub(crate) fn stepped(state: u64) -> u64 {
    state
        .wrapping_mul(6364136223846793005)
        .wrapping_add(1442695040888963407)
}

/// The pairs of a grid that a generator picks, one in a given number.
pub(crate) fn some_of(
    rt: &impl Abort,
    alloc: Global,
    shape: Shape,
    one_in: u64,
    seed: u64,
) -> Vec<(u32, u32)> {
    let mut pairs = Vec::new(alloc);
    let mut state = seed;
    'rows: for i in 0..shape.rows {
        'cols: for j in 0..shape.cols {
            assert!(rt; 0 < one_in);
            state = stepped(state);
            if (state >> 33).is_multiple_of(one_in) {
                put(rt, &mut pairs, (i, j));
            }
        }
    }
    pairs
}
