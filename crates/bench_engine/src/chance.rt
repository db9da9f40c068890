//! Random numbers and pairs.
ghost use Rattle.std.specs.Prelude.{◌≤◌, ◌<◌, IfOk};
ghost use Rattle.rel_model.specs.Listed.{AreWithin};

use std::alloc::{AllocError, Global};

/// The pseudo-random number that follows another.
pub fn next(state: u64) -> u64 {
    state
        .wrapping_mul(6364136223846793005)
        .wrapping_add(1442695040888963407)
}

/// A number below a bound, made from a pseudo-random one.
pub fn below(state: u64, bound: u32) -> u32
    requires { 0 < bound }
    ensures { result < bound }
{
    ((state >> 33) % bound as u64) as u32
}

/// A number of random pairs within `side` rows and columns. Some may be listed twice.
pub fn random_pairs(
    alloc: Global,
    side: u32,
    count: u64,
    seed: u64,
) -> Result<Vec<(u32, u32)>, AllocError>
    requires { 0 < side }
    ensures { IfOk result (λ v. AreWithin side side v.items) }
{
    let mut pairs = Vec::new(alloc);
    let mut state = seed;
    'pairs: for _ in 0..count {
        let row = next(state);
        state = next(row);
        pairs.push((below(row, side), below(state, side)))?;
    }
    Ok(pairs)
}
