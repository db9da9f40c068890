//! The rows of a listed relation, as a script lists them.
use crate::syntax::Place;

/// A column in a listed row. 16 bytes.
#[derive(Clone, Copy, Debug, PartialEq, Eq)]
pub struct Column {
    pub col: u64,
    pub at: Place,
}

/// A row in a listed relation. Its columns are on the heap.
#[derive(Drop)]
pub struct Row {
    pub row: u64,
    pub at: Place,
    pub cols: Vec<Column>,
}
