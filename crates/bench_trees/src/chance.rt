//! Numbers that look as if they came by chance.

/// The factor that spreads numbers over 64 bits.
pub const SPREAD: u64 = 11400714819323198485;

/// The pseudo-random number that follows another.
#[inline]
pub fn next(state: u64) -> u64 {
    state
        .wrapping_mul(6364136223846793005)
        .wrapping_add(1442695040888963407)
}
