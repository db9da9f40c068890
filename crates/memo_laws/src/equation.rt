//! Equations between names.

/// The operator of an equation. 1 byte.
#[derive(Clone, Copy, Debug, PartialEq, Eq)]
pub enum Op {
    Union,
    Inter,
    Diff,
    Transpose,
    Compose,
}

/// The set of `r` is the operator's result on the sets of `a` and `b`; all three are names at one height. 16 bytes.
#[derive(Clone, Copy, Debug, PartialEq, Eq)]
pub struct Equation {
    pub op: Op,
    pub height: u8,
    pub a: u32,
    pub b: u32,
    pub r: u32,
}
