//! Lengths in a relation file.

/// The length of a relation file's header, in bytes.
pub const HEADER: usize = 29;
