//! Squares without a pair of a rule, and squares equal to others, recognised without looking at each cell.
ghost use Rattle.std.specs.Prelude.{◌≡◌, ◌<◌, ◌≤◌, ◌+◌, ◌*◌, ◌%◌, ◌^◌, ◌⊎◌, ℕ, IsTrue};
ghost use Rattle.rel_model.specs.Cells.{no_cells};
ghost use Rattle.rel_model.specs.Relation.{size_limit};
ghost use Rattle.rel_domains.specs.Rules.{IsRule, rule_cells, window};

use crate::rule::Rule;
use rel_model::Shape;

/// A row, at least `row`, such that no row before it has its remainder in the columns from `col` up to `col + side`.
fn first_with(by: u32, row: u32, col: u32, side: u32) -> u32
    requires by { 0 < by }
    requires by_limit { by ≤ size_limit }
    requires row { row ≤ size_limit }
    requires col { col + side ≤ size_limit }
    ensures { (k : ℕ) → row ≤ k → k < result → (k % by < col) ⊎ (col + side ≤ k % by) }
{
    let at = row % by;
    if at < col {
        row + (col - at)
    } else if at < col + side {
        row
    } else {
        row + (by - at) + col
    }
}

/// Whether a square is recognised as having no cell of a rule. If not, it may still have none.
pub fn misses(shape: Shape, rule: Rule, row: u32, col: u32, side: u32) -> bool
    requires rule { IsRule shape.rows rule }
    requires side { 0 < side }
    requires row { row + side ≤ size_limit }
    requires col { col + side ≤ size_limit }
    ensures { IsTrue result → window side row col (rule_cells shape.rows shape.cols rule) ≡ no_cells }
{
    if row >= shape.rows || col >= shape.cols {
        return true;
    }
    let end = shape.rows.min(row + side);
    match rule {
        Rule::Shift { by } => by + end <= col || col + side <= by + row,
        Rule::Quotient { by } => (end - 1) / by < col || col + side <= row / by,
        Rule::Remainder { by } => end <= first_with(by, row, col, side),
        Rule::Member => false,
    }
}

/// Whether the lower half of a square is recognised as having the same cells as the upper half.
pub fn repeats(shape: Shape, rule: Rule, row: u32, half: u32) -> bool
    requires rule { IsRule shape.rows rule }
    requires half { 0 < half }
    requires row { row + 2 * half ≤ size_limit }
    ensures { IsTrue result → (col : ℕ) → window half (row + half) col (rule_cells shape.rows shape.cols rule)
        ≡ window half row col (rule_cells shape.rows shape.cols rule) }
{
    if row + 2 * half > shape.rows {
        return false;
    }
    match rule {
        Rule::Quotient { by } => (row + 2 * half - 1) / by == row / by,
        Rule::Remainder { by } => half % by == 0,
        _ => false,
    }
}

/// Whether the south-eastern quarter of a square is recognised as having the same cells as the north-western one.
pub fn goes_on(shape: Shape, rule: Rule, row: u32, col: u32, half: u32) -> bool
    requires rule { IsRule shape.rows rule }
    requires row { row + 2 * half ≤ size_limit }
    requires col { col + 2 * half ≤ size_limit }
    ensures { IsTrue result → window half (row + half) (col + half) (rule_cells shape.rows shape.cols rule)
        ≡ window half row col (rule_cells shape.rows shape.cols rule) }
{
    if row + 2 * half > shape.rows || col + 2 * half > shape.cols {
        return false;
    }
    match rule {
        Rule::Shift { .. } => true,
        Rule::Quotient { by } => by == 1,
        Rule::Remainder { by } => row % by + 2 * half <= by,
        Rule::Member => false,
    }
}
