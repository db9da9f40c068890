//! Why a name is not dropped, or a block not committed.
use lang_model::syntax::Name;

/// Why a name is not dropped.
#[derive(Drop)]
pub enum DropRefused {
    /// The book has no name like this.
    Unknown { name: Name },
    /// Memory ran out.
    NoMemory,
}

/// Why the assignments of a block are not made.
#[derive(Drop)]
pub enum CommitRefused {
    /// A name that the block read was assigned or dropped since: its version when read, and now.
    Changed { name: Name, seen: u64, found: u64 },
    /// Memory ran out.
    NoMemory,
}
