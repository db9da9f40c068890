//! Why scripts and expressions are refused.
use crate::syntax::{Name, Place};

/// What the grammar expects at a place.
#[derive(Drop)]
pub enum What {
    Item,
    Expression,
    Name,
    Number,
    NumberFromOne,
    FileText,
    /// A single sign or word that must come.
    Token(Name),
}

/// Why bytes are not a script.
pub enum ParseFault {
    Byte { at: Place, byte: u8 },
    Expected { at: Place, what: What },
    TooDeep { at: Place },
    NumberTooLarge { at: Place },
    NameTooLong { at: Place },
    NoMemory,
}

impl Drop for ParseFault {
    fn drop(self) {
        match self {
            ParseFault::Byte { at: _, byte: _ } => {}
            ParseFault::Expected { at: _, what: _ } => {}
            ParseFault::TooDeep { at: _ } => {}
            ParseFault::NumberTooLarge { at: _ } => {}
            ParseFault::NameTooLong { at: _ } => {}
            ParseFault::NoMemory => {}
        }
    }
}

/// The sizes of an expression, as far as they are known before it runs. 16 bytes.
#[derive(Clone, Copy, Debug, PartialEq, Eq)]
pub struct StaticShape {
    pub rows: Option<u32>,
    pub cols: Option<u32>,
}

/// Why a script or an expression has no meaning.
pub enum TypeFault {
    Unknown {
        at: Place,
        name: Name,
    },
    Arity {
        at: Place,
        name: Name,
        takes: u32,
        given: u32,
    },
    Unassigned {
        at: Place,
        name: Name,
    },
    Rank {
        at: Place,
        name: Name,
    },
    Mismatch {
        at: Place,
        op: Name,
        left: StaticShape,
        right: StaticShape,
    },
    NotSquare {
        at: Place,
        op: Name,
        shape: StaticShape,
    },
    NotVector {
        at: Place,
        op: Name,
        shape: StaticShape,
    },
    NotTest {
        at: Place,
        shape: StaticShape,
    },
    Twice {
        at: Place,
        name: Name,
    },
    NoMemory,
}

impl Drop for TypeFault {
    fn drop(self) {
        match self {
            TypeFault::Unknown { at: _, name: _ } => {}
            TypeFault::Arity {
                at: _,
                name: _,
                takes: _,
                given: _,
            } => {}
            TypeFault::Unassigned { at: _, name: _ } => {}
            TypeFault::Rank { at: _, name: _ } => {}
            TypeFault::Mismatch {
                at: _,
                op: _,
                left: _,
                right: _,
            } => {}
            TypeFault::NotSquare {
                at: _,
                op: _,
                shape: _,
            } => {}
            TypeFault::NotVector {
                at: _,
                op: _,
                shape: _,
            } => {}
            TypeFault::NotTest { at: _, shape: _ } => {}
            TypeFault::Twice { at: _, name: _ } => {}
            TypeFault::NoMemory => {}
        }
    }
}
