//! Operations on leaves, and on the elements that one byte holds.
ghost use Rattle.std.specs.Prelude.{◌≡◌, ◌==◌, ◌<◌, ◌≤◌, ◌*◌, ◌^◌, ◌&&◌, ◌||◌, nat_lt, ℕ, true, length};
ghost use Rattle.rel_model.specs.Cells.{bits_cells, some_below};
ghost use Rattle.rel_images.specs.Lines.{has_bit, byte_line, one_row, image_line, turned_cells, Adds};

/// One row of a leaf.
#[inline(always)]
fn row_of(bits: u64, side: u32, row: u32) -> u64
    requires small { side ≤ 8 }
    requires within { row < side }
    ensures less { result < 2 ^ side }
    ensures bits { (j : ℕ) → j < side → has_bit result j ≡ bits_cells side bits row j }
{
    (bits >> (side * row)) % (1u64 << side)
}

/// What the rows before row `t` give, together with row `t` if the line has element `t`.
#[inline(always)]
fn with_row(all: u64, bits: u64, side: u32, line: u64, t: u32) -> u64
    requires small { side ≤ 8 }
    requires within { t < side }
    requires less { all < 2 ^ side }
    ensures less { result < 2 ^ side }
    ensures bits { (j : ℕ) → j < side → has_bit result j
        ≡ (has_bit all j || (has_bit line t && bits_cells side bits t j)) }
{
    if (line >> t) % 2 == 1 {
        return all | row_of(bits, side, t);
    }
    all
}

/// The image of a line by a leaf: the elements of the rows that the line selects.
#[inline(always)]
fn rows_image(bits: u64, side: u32, line: u64) -> u64
    requires small { side ≤ 8 }
    ensures less { result < 2 ^ side }
    ensures bits { (j : ℕ) → j < side → has_bit result j ≡ image_line side (has_bit line) (bits_cells side bits) j }
{
    let mut all = 0u64;
    'rows: for t in 0..side {
        all = with_row(all, bits, side, line, t);
    }
    all
}

/// What the rows before row `t` give, together with element `t` if row `t` meets the line.
#[inline(always)]
fn with_meeting(all: u64, bits: u64, side: u32, line: u64, t: u32) -> u64
    requires small { side ≤ 8 }
    requires within { t < side }
    requires less { all < 2 ^ side }
    ensures less { result < 2 ^ side }
    ensures bits { (j : ℕ) → j < side → has_bit result j
        ≡ (has_bit all j || ((j == t) && some_below side (λ k. has_bit line k && bits_cells side bits t k))) }
{
    if row_of(bits, side, t) & line == 0 {
        return all;
    }
    all | (1 << t)
}

/// The image of a line by a transposed leaf: the rows that meet the line.
#[inline(always)]
fn columns_image(bits: u64, side: u32, line: u64) -> u64
    requires small { side ≤ 8 }
    ensures less { result < 2 ^ side }
    ensures bits { (j : ℕ) → j < side → has_bit result j
        ≡ image_line side (has_bit line) (turned_cells true (bits_cells side bits)) j }
{
    let mut all = 0u64;
    'rows: for t in 0..side {
        all = with_meeting(all, bits, side, line, t);
    }
    all
}

/// The image of a line by a leaf, or by the transposed leaf.
#[inline(always)]
pub(crate) fn leaf_image(turned: bool, bits: u64, side: u32, line: u64) -> u64
    requires small { side ≤ 8 }
    ensures less { result < 2 ^ side }
    ensures bits { (j : ℕ) → j < side → has_bit result j
        ≡ image_line side (has_bit line) (turned_cells turned (bits_cells side bits)) j }
{
    if turned {
        return columns_image(bits, side, line);
    }
    rows_image(bits, side, line)
}

/// The first row of a leaf.
#[inline(always)]
pub(crate) fn first_line(bits: u64, side: u32) -> u64
    requires small { side ≤ 8 }
    requires some { 0 < side }
    ensures less { result < 2 ^ side }
    ensures bits { (j : ℕ) → j < side → has_bit result j ≡ bits_cells side bits 0 j }
{
    row_of(bits, side, 0)
}

/// Adds the elements of a line to a heap entry.
#[inline(always)]
pub(crate) fn add_line(xs: &mut [u8], k: usize, side: u32, line: u64)
    requires small { side ≤ 8 }
    requires within { k < length xs.old }
    requires less { line < 2 ^ side }
    ensures { Adds (λ n b. (n == k) && (nat_lt b side && has_bit line b)) xs.old xs.new }
{
    xs[k] |= line as u8;
}

/// The leaf whose first row has the elements of a word, and whose other rows are empty.
#[inline(always)]
pub(crate) fn line_block(line: u64, side: u32) -> u64
    requires small { side ≤ 8 }
    ensures cells { bits_cells side result ≡ one_row (byte_line side line) }
    ensures none_past { result < 2 ^ (side * side) }
{
    line % (1u64 << side)
}
