//! Limits on what is printed, listed and saved.

/// The greatest number of cells of a relation that is printed.
pub const PRINT_LIMIT: u64 = 1 << 20;

/// The greatest number of pairs of a relation that is listed.
pub const LIST_LIMIT: u64 = 1 << 20;

/// The greatest number of bits of a relation's tree that is saved.
pub const SAVE_LIMIT: u64 = 1 << 26;
