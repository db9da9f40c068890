//! Lines of a leaf, which is one word.
ghost use Rattle.std.specs.Prelude.{◌≡◌, ◌<◌, ◌≤◌, ◌&&◌};
ghost use Rattle.rel_model.specs.Cells.{bits_cells, some_below};
ghost use Rattle.rel_choice.specs.Leasts.{IsLeast, row_meets};
ghost use Rattle.rel_choice.specs.Lines.{passes_twice, single_rows, rows_apart};

/// The least column, at least `from` and below `below`, that has a cell in a row of a leaf.
pub(crate) fn column_in(bits: u64, side: u32, row: u32, from: u32, below: u32) -> Option<u32>
    requires small { side ≤ 8 }
    requires row_within { row < side }
    requires within { below ≤ side }
    ensures { IsLeast (bits_cells side bits row) from below result }
{
    'columns: for column in from..below {
        if (bits >> (side * row + column)) & 1 == 1 {
            return Some(column);
        }
    }
    None
}

/// The least row, at least `from` and below `below`, that has a cell in a leaf.
pub(crate) fn row_in(bits: u64, side: u32, from: u32, below: u32) -> Option<u32>
    requires small { side ≤ 8 }
    requires within { below ≤ side }
    ensures { IsLeast (row_meets side (bits_cells side bits)) from below result }
{
    'rows: for row in from..below {
        if column_in(bits, side, row, 0, side).is_some() {
            return Some(row);
        }
    }
    None
}

/// Whether a row of a leaf has two cells.
fn row_has_two(bits: u64, side: u32, row: u32) -> bool
    requires small { side ≤ 8 }
    requires within { row < side }
    ensures { result ≡ passes_twice side (bits_cells side bits row) }
{
    match column_in(bits, side, row, 0, side) {
        Some(first) => column_in(bits, side, row, first + 1, side).is_some(),
        None => false,
    }
}

/// Whether no row of a leaf has two cells.
pub(crate) fn leaf_is_single(bits: u64, side: u32) -> bool
    requires { side ≤ 8 }
    ensures { result ≡ single_rows side side (bits_cells side bits) }
{
    'rows: for row in 0..side {
        if row_has_two(bits, side, row) {
            return false;
        }
    }
    true
}

/// Whether a row has a cell in both leaves.
fn row_is_shared(a: u64, b: u64, side: u32, row: u32) -> bool
    requires small { side ≤ 8 }
    requires within { row < side }
    ensures { result ≡ (some_below side (bits_cells side a row) && some_below side (bits_cells side b row)) }
{
    if column_in(a, side, row, 0, side).is_none() {
        return false;
    }
    column_in(b, side, row, 0, side).is_some()
}

/// Whether no row has a cell in both leaves.
pub(crate) fn leaves_are_apart(a: u64, b: u64, side: u32) -> bool
    requires { side ≤ 8 }
    ensures { result ≡ rows_apart side side (bits_cells side a) (bits_cells side b) }
{
    'rows: for row in 0..side {
        if row_is_shared(a, b, side, row) {
            return false;
        }
    }
    true
}
