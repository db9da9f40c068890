ghost use Rattle.std.specs.Prelude.{◌≡◌};
ghost use Rattle.rel_plain.specs.Kept.{IsKept};

use std::marker::Model;

/// A relation that is kept: its sizes, and its pairs in order, on the heap with 8 bytes each.
#[derive(Drop)]
pub(crate) struct Kept {
    rows: u32,
    cols: u32,
    pairs: Vec<(u32, u32)>,
}

impl Model for Kept {
    ghost use Rattle.rel_model.specs.Relation.{Relation};
    ghost use Rattle.rel_plain.specs.Kept.{IsKept};

    ghost Value = { Relation };

    ghost view = { λ k. record { rows = k.rows; cols = k.cols; pairs = k.pairs.items } };

    ghost invariant = { λ k. IsKept (record { rows = k.rows; cols = k.cols; pairs = k.pairs.items }) };
}

impl Kept {
    /// The relation of these sizes and pairs.
    pub(crate) fn new(rows: u32, cols: u32, pairs: Vec<(u32, u32)>) -> Kept
        requires { IsKept (record { rows = rows; cols = cols; pairs = pairs.items }) }
        ensures { result ≡ record { rows = rows; cols = cols; pairs = pairs.items } }
    {
        Kept { rows, cols, pairs }
    }

    /// The pairs, in order.
    pub(crate) fn pairs(&self) -> &[(u32, u32)]
        ensures valid { IsKept self.now }
        ensures value { result.now ≡ self.now.pairs }
    {
        self.pairs.as_slice()
    }
}
