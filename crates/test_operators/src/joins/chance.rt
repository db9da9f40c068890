//! Random and regular relations, as lists of pairs, and the slow answer.
ghost use Rattle.std.specs.Prelude.{◌≡◌, ◌≤◌, ◌<◌, length, IfOk};
ghost use Rattle.rel_model.specs.Listed.{AreWithin};

use rel_model::Shape;
use std::alloc::{AllocError, Global};

/// The pseudo-random number that follows another.
fn next(state: u64) -> u64 {
    state
        .wrapping_mul(6364136223846793005)
        .wrapping_add(1442695040888963407)
}

/// A number below a bound, made from a pseudo-random one.
fn below(state: u64, bound: u32) -> u32
    requires { 0 < bound }
    ensures { result < bound }
{
    ((state >> 33) % bound as u64) as u32
}

/// 7x + 3 modulo n.
fn seventh(x: u32, n: u32) -> u32
    requires { 0 < n }
    ensures { result < n }
{
    ((7 * u64::from(x) + 3) % u64::from(n)) as u32
}

/// `count` random pairs. Some may be listed twice.
pub(crate) fn pairs_by_chance(
    alloc: Global,
    shape: Shape,
    count: u32,
    seed: u64,
) -> Result<Vec<(u32, u32)>, AllocError>
    requires rows { 0 < shape.rows }
    requires cols { 0 < shape.cols }
    ensures { IfOk result (λ v. AreWithin shape.rows shape.cols v.items) }
{
    let mut pairs = Vec::new(alloc);
    let mut state = seed;
    'pairs: for _ in 0..count {
        let row = next(state);
        state = next(row);
        pairs.push((below(row, shape.rows), below(state, shape.cols)))?;
    }
    Ok(pairs)
}

/// The pairs (i, i + 1) and (n - 1, 0) of a cycle through n elements.
pub(crate) fn cycle_of(alloc: Global, n: u32) -> Result<Vec<(u32, u32)>, AllocError>
    requires { 0 < n }
    ensures { IfOk result (λ v. AreWithin n n v.items) }
{
    let mut pairs = Vec::new(alloc);
    'pairs: for i in 0..n {
        pairs.push((i, (i + 1) % n))?;
    }
    Ok(pairs)
}

/// The pairs (i, i + 1) of a chain through n elements.
pub(crate) fn chain_of(alloc: Global, n: u32) -> Result<Vec<(u32, u32)>, AllocError>
    ensures { IfOk result (λ v. AreWithin n n v.items) }
{
    let mut pairs = Vec::new(alloc);
    'pairs: for i in 1..n {
        pairs.push((i - 1, i))?;
    }
    Ok(pairs)
}

/// The pairs (i, j) of a tree of n elements in which each j but 0 has a random parent i below it.
pub(crate) fn tree_by_chance(
    alloc: Global,
    n: u32,
    seed: u64,
) -> Result<Vec<(u32, u32)>, AllocError>
    ensures { IfOk result (λ v. AreWithin n n v.items) }
{
    let mut pairs = Vec::new(alloc);
    let mut state = seed;
    'pairs: for j in 1..n {
        state = next(state);
        pairs.push((below(state, j), j))?;
    }
    Ok(pairs)
}

/// Up to `count` random pairs (i, j) with i < j.
pub(crate) fn rising_by_chance(
    alloc: Global,
    n: u32,
    count: u32,
    seed: u64,
) -> Result<Vec<(u32, u32)>, AllocError>
    ensures { IfOk result (λ v. AreWithin n n v.items) }
{
    let mut pairs = Vec::new(alloc);
    let mut state = seed;
    if n == 0 {
        return Ok(pairs);
    }
    'pairs: for _ in 0..count {
        let first = next(state);
        state = next(first);
        let i = below(first, n);
        let j = below(state, n);
        if i != j {
            pairs.push((i.min(j), i.max(j)))?;
        }
    }
    Ok(pairs)
}

/// The pairs of a list with other numbers for their elements: 7x + 3 modulo n for x, so that no two have the same if 7
/// does not divide n.
pub(crate) fn renumbered(
    alloc: Global,
    n: u32,
    pairs: &[(u32, u32)],
) -> Result<Vec<(u32, u32)>, AllocError>
    requires { 0 < n }
    ensures { IfOk result (λ v. AreWithin n n v.items) }
{
    let mut others = Vec::new(alloc);
    'pairs: for (i, j) in pairs {
        others.push((seventh(*i, n), seventh(*j, n)))?;
    }
    Ok(others)
}

/// The pairs (i, k) for which some j has (i, j) in the first list and (j, k) in the second: looks for each pair of the
/// first at those of the second, sorted, from the first one with row j on.
pub(crate) fn slow_product(
    alloc: Global,
    shape: Shape,
    left: &[(u32, u32)],
    right: &[(u32, u32)],
) -> Result<Vec<(u32, u32)>, AllocError>
    ensures { IfOk result (λ v. AreWithin shape.rows shape.cols v.items) }
{
    let mut sorted = Vec::new(alloc);
    'copies: for pair in right {
        sorted.push(*pair)?;
    }
    sorted.sort_unstable();
    let mut found = Vec::new(alloc);
    'firsts: for (i, j) in left {
        let from = sorted.partition_point(|pair| pair.0 < *j);
        'seconds: for (row, k) in sorted.iter().skip(from) {
            if row != j {
                break;
            }
            if *i < shape.rows && *k < shape.cols {
                found.push((*i, *k))?;
            }
        }
    }
    Ok(found)
}
