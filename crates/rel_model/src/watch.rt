//! An observer of the pieces into which an operator is forked.

/// Is called when a piece begins and ends, in the thread that computes it, and may hold that thread.
pub trait Watch {
    /// The piece of this number begins.
    fn begins(&self, piece: u32);

    /// The piece of this number has ended.
    fn ends(&self, piece: u32);
}
