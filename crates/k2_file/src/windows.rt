//! Squares within a leaf, whose cells are bits of one word.
ghost use Rattle.std.specs.Prelude.{◌≡◌, ◌<◌, ◌≤◌, ◌+◌, ◌^◌};
ghost use Rattle.rel_model.specs.Cells.{bits_cells, some_below};
ghost use Rattle.k2_file.specs.Squares.{some_cell, window_cells, IsWindow};

/// A square within a leaf: the leaf's bits and side, and the square's first row and column. 16 bytes.
#[derive(Clone, Copy)]
pub struct Window {
    pub bits: u64,
    pub side: u8,
    pub row: u8,
    pub col: u8,
}

/// Whether a cell of a window is set.
fn cell(window: Window, i: u8, j: u8) -> bool
    requires side { window.side ≤ 8 }
    requires row { window.row + i < 8 }
    requires col { window.col + j < 8 }
    ensures { result ≡ bits_cells window.side window.bits (window.row + i) (window.col + j) }
{
    let row = window.row + i;
    let col = window.col + j;
    if window.side <= row || window.side <= col {
        return false;
    }
    (window.bits >> (window.side * row + col)) & 1 == 1
}

/// Whether a row of a window of a side has a cell.
fn row_has_cell(window: Window, side: u8, i: u8) -> bool
    requires window { IsWindow side window }
    requires row { i < side }
    ensures { result ≡ some_below side (window_cells side window i) }
{
    'columns: for j in 0..side {
        if cell(window, i, j) {
            return true;
        }
    }
    false
}

/// Whether a window of a side has a cell.
pub fn has_cell(window: Window, side: u8) -> bool
    requires { IsWindow side window }
    ensures { result ≡ some_cell side (window_cells side window) }
{
    'rows: for i in 0..side {
        if row_has_cell(window, side, i) {
            return true;
        }
    }
    false
}
