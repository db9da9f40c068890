//! Rows of a rule in a leaf, computed bit by bit.
ghost use Rattle.std.specs.Prelude.{◌≡◌, ◌<◌, ◌≤◌, ◌+◌, ◌*◌, ◌^◌, ◌==◌, ◌&&◌, nat_lt, ℕ};
ghost use Rattle.std.specs.Int.{bit_at};
ghost use Rattle.rel_model.specs.Relation.{size_limit};
ghost use Rattle.rel_domains.specs.Rules.{IsRule, rule_cells};

use crate::rule::Rule;
use rel_model::Shape;

/// The single cell of a row in column `at`, from column `col` on: column `col + k` is bit k.
fn one_cell(cols: u32, at: u32, col: u32, side: u32) -> u64
    requires side { side ≤ 8 }
    requires col { col + side ≤ size_limit }
    ensures cells { (k : ℕ) → k < side → (bit_at result k == 1) ≡ (nat_lt (col + k) cols && (at == col + k)) }
    ensures small { result < 2 ^ side }
{
    if at >= cols {
        return 0;
    }
    if at < col || at - col >= side {
        return 0;
    }
    1u64 << (at - col)
}

/// Bit i of the eight numbers from `8 * block` on.
fn octet(block: u32, i: u32) -> u64
    requires { i < 32 }
    ensures bits { (k : ℕ) → k < 8 → (bit_at result k == 1) ≡ (bit_at (8 * block + k) i == 1) }
    ensures small { result < 2 ^ 8 }
{
    match i {
        0 => 0xaa,
        1 => 0xcc,
        2 => 0xf0,
        _ => { if (block >> (i - 3)) & 1 == 1 { 0xff } else { 0 } }
    }
}

/// Bit i of the number of each column, from column `col` on: column `col + k` is bit k.
fn members(cols: u32, i: u32, col: u32, side: u32) -> u64
    requires side { side ≤ 8 }
    requires row { i < 32 }
    requires col { col + side ≤ size_limit }
    ensures cells { (k : ℕ) → k < side → (bit_at result k == 1) ≡ (nat_lt (col + k) cols && (bit_at (col + k) i == 1)) }
    ensures small { result < 2 ^ side }
{
    let block = col / 8;
    let low = octet(block, i);
    let high = octet(block + 1, i);
    let width = side.min(cols.saturating_sub(col));
    ((low + (high << 8)) >> (col % 8)) % (1u64 << width)
}

/// The cells of a row, from column `col` on: column `col + k` is bit k.
pub fn row_at(shape: Shape, rule: Rule, i: u32, col: u32, side: u32) -> u64
    requires rule { IsRule shape.rows rule }
    requires side { side ≤ 8 }
    requires row { i < size_limit }
    requires col { col + side ≤ size_limit }
    ensures cells { (k : ℕ) → k < side → (bit_at result k == 1) ≡ rule_cells shape.rows shape.cols rule i (col + k) }
    ensures small { result < 2 ^ side }
{
    if i >= shape.rows {
        return 0;
    }
    match rule {
        Rule::Shift { by } => one_cell(shape.cols, by + i, col, side),
        Rule::Quotient { by } => one_cell(shape.cols, i / by, col, side),
        Rule::Remainder { by } => one_cell(shape.cols, i % by, col, side),
        Rule::Member => members(shape.cols, i, col, side),
    }
}
