//! Why an operation on domains may fail.

/// Why a product, a sum or a power set was refused. 24 bytes.
#[derive(Clone, Copy, Debug, PartialEq, Eq)]
pub enum DomainError {
    /// A size of the result exceeds the limit. `wanted` is that size, capped at 2 ^ 64 - 1.
    Size { wanted: u64, limit: u64 },
    Full,
    NoMemory,
}
