//! The limits of texts.

/// The greatest length of a script, in bytes.
pub const SCRIPT_LIMIT: usize = 1 << 20;

/// The greatest length of a name, in bytes.
pub const NAME_LIMIT: usize = 64;

/// The greatest length of a file's name in a script, in bytes.
pub const FILE_TEXT_LIMIT: usize = 255;

/// How many constructs may be open at once.
pub const NESTING_LIMIT: u32 = 40;

/// The greatest number of parameters of a definition, and of arguments of a call.
pub const PARAMETER_LIMIT: usize = 16;

/// The greatest rank of a definition, and so how deeply calls may nest.
pub const RANK_LIMIT: u32 = 16;

/// The greatest number of operands of a chain in which repeated operands are looked for.
pub const COMPARED_LIMIT: usize = 64;
