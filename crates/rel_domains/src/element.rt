//! The elements of a vector in the word of a leaf, where they are the first column.
ghost use Rattle.std.specs.Prelude.{◌≡◌, ◌<◌, ◌≤◌, ◌+◌, ◌*◌, ◌^◌, ◌==◌, ◌&&◌, ◌||◌, ℕ};
ghost use Rattle.std.specs.Int.{bit_at};
ghost use Rattle.rel_model.specs.Cells.{bits_cells};
ghost use Rattle.rel_model.specs.Choice.{count_below};
ghost use Rattle.rel_model.specs.Relation.{size_limit};
ghost use Rattle.rel_domains.specs.Ranks.{first_column, ranked};

use rel_model::empty::side_of;

/// Whether a vector has an element.
fn has_element(vector: u64, side: u32, x: u32) -> bool
    requires side { side ≤ 8 }
    requires within { x < side }
    ensures { result ≡ (bit_at vector (side * x) == 1) }
{
    (vector >> (side * x)) & 1 == 1
}

/// How many elements a vector has.
pub fn count_in(least: u8, vector: u64) -> u32
    requires { least ≤ 3 }
    ensures { result ≡ count_below (2 ^ least) (first_column (bits_cells (2 ^ least) vector)) }
{
    let side = side_of(least);
    let mut count = 0;
    'elements: for x in 0..side {
        if has_element(vector, side, x) {
            count += 1;
        }
    }
    count
}

/// A leaf whose first row is `row`, with element `x` added in the row given by its rank, if the leaf has that row.
fn with_rank(bits: u64, side: u32, row: u32, rank: u32, x: u32) -> u64
    requires side { side ≤ 8 }
    requires within { x < side }
    requires row { row + side ≤ size_limit }
    requires small { bits < 2 ^ (side * side) }
    ensures cells { (i k : ℕ) → i < side → k < side → (bit_at result (side * i + k) == 1)
        ≡ ((bit_at bits (side * i + k) == 1) || ((k == x) && (rank == row + i))) }
    ensures small { result < 2 ^ (side * side) }
{
    if row <= rank && rank < row + side {
        bits | 1u64 << (side * (rank - row) + x)
    } else {
        bits
    }
}

/// The leaf, from a row on, of the list of a vector's elements in order; `before` elements come before those of this
/// vector.
pub fn ranks_in(least: u8, vector: u64, row: u32, before: u32) -> u64
    requires low { least ≤ 3 }
    requires row { row + 2 ^ least ≤ size_limit }
    requires before { before ≤ size_limit }
    ensures cells { bits_cells (2 ^ least) result ≡ ranked (2 ^ least) row before
        (first_column (bits_cells (2 ^ least) vector)) }
    ensures none_past { result < 2 ^ (2 ^ least * 2 ^ least) }
{
    let side = side_of(least);
    let mut bits = 0;
    let mut rank = before;
    'elements: for x in 0..side {
        if has_element(vector, side, x) {
            bits = with_rank(bits, side, row, rank, x);
            rank += 1;
        }
    }
    bits
}
