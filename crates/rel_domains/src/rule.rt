//! Rules that say which columns a row has.
/// A rule on a row and a column, which defines a set of cells. 8 bytes.
#[derive(Clone, Copy, Debug, PartialEq, Eq)]
pub enum Rule {
    /// Row i has column `by + i`.
    Shift { by: u32 },
    /// Row i has column `i / by`.
    Quotient { by: u32 },
    /// Row i has column `i % by`.
    Remainder { by: u32 },
    /// Row i has the columns whose bit i is 1.
    Member,
}
