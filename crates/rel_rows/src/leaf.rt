//! Rows of a leaf, which is one word.
ghost use Rattle.std.specs.Prelude.{◌≡◌, ◌<◌, ◌≤◌, ◌*◌, ◌^◌};
ghost use Rattle.rel_model.specs.Cells.{bits_cells};
ghost use Rattle.rel_rows.specs.Rows.{row_cells, added_cells};

/// A row of a leaf, as the first row of a leaf without other cells.
pub(crate) fn row_in_word(bits: u64, side: u32, row: u32) -> u64
    requires small { side ≤ 8 }
    requires within { row < side }
    ensures cells { bits_cells side result ≡ row_cells row (bits_cells side bits) }
    ensures none_past { result < 2 ^ (side * side) }
{
    (bits >> (side * row)) % (1u64 << side)
}

/// A leaf with the first row of another added to one of its rows.
pub(crate) fn word_with_row(bits: u64, side: u32, row: u32, line: u64) -> u64
    requires small { side ≤ 8 }
    requires within { row < side }
    requires none_past { bits < 2 ^ (side * side) }
    ensures cells { bits_cells side result ≡ added_cells row (bits_cells side line) (bits_cells side bits) }
    ensures none_past { result < 2 ^ (side * side) }
{
    bits | ((line % (1u64 << side)) << (side * row))
}
