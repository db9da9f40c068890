//! The rows of a strip of leaves, which are words.
ghost use Rattle.std.specs.Prelude.{◌≡◌, ◌≤◌, ◌<◌, ◌+◌, ℕ, true, false, OnOk};
ghost use Rattle.rel_model.specs.Relation.{size_limit};
ghost use Rattle.rel_model.specs.Cells.{bits_cells};
ghost use Rattle.rel_listing.specs.Lists.{Adds};
ghost use Rattle.rel_listing.specs.Strips.{Spaced, placed, laid, on_row};

use rel_model::NoMemory;

/// Appends the pairs of the leaves of a strip, whose first row is given, row by row.
pub(crate) fn list_rows(
    pairs: &mut Vec<(u32, u32)>,
    words: &[(u64, u32)],
    side: u32,
    row: u32,
) -> Result<(), NoMemory>
    requires small { side ≤ 8 }
    requires spaced { Spaced side 0 size_limit words.now }
    requires rows { row + side ≤ size_limit }
    ensures { OnOk result (Adds (laid (bits_cells side) row words.now) pairs.old.items pairs.new.items) }
{
    'rows: for i in 0..side {
        list_row(pairs, words, side, i, row)?;
    }
    Ok(())
}

/// Appends the pairs of one row of them, from left to right.
fn list_row(
    pairs: &mut Vec<(u32, u32)>,
    words: &[(u64, u32)],
    side: u32,
    i: u32,
    row: u32,
) -> Result<(), NoMemory>
    requires small { side ≤ 8 }
    requires within { i < side }
    requires spaced { Spaced side 0 size_limit words.now }
    requires rows { row + side ≤ size_limit }
    ensures { OnOk result
        (Adds (on_row (row + i) (laid (bits_cells side) row words.now)) pairs.old.items pairs.new.items) }
{
    'leaves: for (bits, column) in words {
        list_bits(pairs, *bits, side, i, row, *column)?;
    }
    Ok(())
}

/// Whether a row of a leaf has no cell.
fn row_is_empty(bits: u64, side: u32, i: u32) -> bool
    requires small { side ≤ 8 }
    requires within { i < side }
    ensures { result ≡ true → (j : ℕ) → bits_cells side bits i j ≡ false }
{
    (bits >> (side * i)) % (1u64 << side) == 0
}

/// Appends the pairs of one row of one leaf, whose first row and column are given.
fn list_bits(
    pairs: &mut Vec<(u32, u32)>,
    bits: u64,
    side: u32,
    i: u32,
    row: u32,
    column: u32,
) -> Result<(), NoMemory>
    requires small { side ≤ 8 }
    requires within { i < side }
    requires rows { row + side ≤ size_limit }
    requires columns { column + side ≤ size_limit }
    ensures { OnOk result
        (Adds (on_row (row + i) (placed row column (bits_cells side bits))) pairs.old.items pairs.new.items) }
{
    if row_is_empty(bits, side, i) {
        return Ok(());
    }
    'columns: for j in 0..side {
        if (bits >> (side * i + j)) & 1 == 1 {
            pairs.push((row + i, column + j))?;
        }
    }
    Ok(())
}
