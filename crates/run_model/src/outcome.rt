//! The outcomes of commands.
use lang_model::faults::{ParseFault, TypeFault};
use lang_model::syntax::{FileText, Name, Place};

/// What a limit counts. 1 byte.
#[derive(Clone, Copy, Debug, PartialEq, Eq)]
pub enum Unit {
    Cells,
    Pairs,
}

/// The outcome of a command. Names in it are on the heap.
pub enum Outcome {
    Done,
    Parse(ParseFault),
    Ill(TypeFault),
    Size { at: Place, wanted: u64, limit: u64 },
    Turns { at: Place, limit: u64 },
    Nodes,
    TooLarge { wanted: u64, unit: Unit },
    TooLong { bits: u64 },
    NoFile { name: FileText },
    BadFile { name: FileText, kind: BadFile },
    NoMemory,
    /// A name that an atomic block read was changed before its commit: its version when read, and at the commit.
    Changed { name: Name, seen: u64, found: u64 },
}

impl Drop for Outcome {
    fn drop(self) {
        match self {
            Outcome::Done => {}
            Outcome::Parse(_) => {}
            Outcome::Ill(_) => {}
            Outcome::Size {
                at: _,
                wanted: _,
                limit: _,
            } => {}
            Outcome::Turns { at: _, limit: _ } => {}
            Outcome::Nodes => {}
            Outcome::TooLarge { wanted: _, unit: _ } => {}
            Outcome::TooLong { bits: _ } => {}
            Outcome::NoFile { name: _ } => {}
            Outcome::BadFile { name: _, kind: _ } => {}
            Outcome::NoMemory => {}
            Outcome::Changed {
                name: _,
                seen: _,
                found: _,
            } => {}
        }
    }
}

/// Why bytes are not a relation file.
#[derive(Clone, Copy, Debug, PartialEq, Eq)]
pub enum BadFile {
    Short,
    Magic,
    Sizes,
    Height,
    Lengths,
    ZeroGroup { at: u64 },
    Outside { at: u64 },
    Padding,
    Rest,
    Full,
    NoMemory,
    /// In a file of several relations: an invalid quadrant, by its number.
    Quad { at: u64 },
    /// A name that is not a word, or not after the one before it, by the place of its relation.
    Names { at: u64 },
    /// A root that is not a quadrant of the relation's height, by the place of its relation.
    Root { at: u64 },
    /// A quadrant that is not in the order of the visits, by its number.
    Order { at: u64 },
    /// There is no relation of this name.
    Missing,
}
