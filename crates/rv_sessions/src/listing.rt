//! Listed relations: the first number over its limit, and the relation of the listed pairs.
ghost use Rattle.std.specs.Prelude.{◌≡◌, ◌==◌, ◌&&◌, ◌+◌, ◌≤◌, length, false, IfOk, OnOk};
ghost use Rattle.std.specs.List.{list_any};
ghost use Rattle.rel_model.specs.Relation.{relation_of, size_limit};
ghost use Rattle.rel_model.specs.Listed.{AreWithin};
ghost use Rattle.rel_model.specs.Worker.{Keeps, MakesAtMost, Gives, HasCause};
ghost use Rattle.lang_model.specs.State.{lists};
ghost use Rattle.run_model.specs.Cost.{listed_count, listed_cost};
ghost use Rattle.run_model.specs.Due.{over, columns_over, rows_over, listing_over};
ghost use Rattle.rv_sessions.specs.Listed.{Extends, IsListed};

use lang_model::syntax::{Column, Place, Row};
use rel_model::engine_trait::Engine;
use rel_model::{Lack, Rel, SIZE_LIMIT, Shape};
use run_model::outcome::Outcome;
use std::alloc::{AllocError, Global};

/// A number over its limit.
fn over(at: Place, wanted: u64, limit: u64) -> Option<Outcome>
    ensures { result ≡ over at wanted limit }
{
    if limit < wanted {
        Some(Outcome::Size { at, wanted, limit })
    } else {
        None
    }
}

/// The first column over the number of columns.
fn columns_over(cols: u64, list: &[Column]) -> Option<Outcome>
    ensures { result ≡ columns_over cols list.now }
{
    'columns: for column in list {
        if let Some(outcome) = over(column.at, column.col, cols) {
            return Some(outcome);
        }
    }
    None
}

/// The first row over the number of rows, or column over the number of columns, in the order of the text.
fn rows_over(rows: u64, cols: u64, list: &[Row]) -> Option<Outcome>
    ensures { result ≡ rows_over rows cols list.now }
{
    'rows: for row in list {
        if let Some(outcome) = over(row.at, row.row, rows) {
            return Some(outcome);
        }
        if let Some(outcome) = columns_over(cols, row.cols.as_slice()) {
            return Some(outcome);
        }
    }
    None
}

/// The first number of a listed relation over its limit, in the order of the text.
#[tactic(auto, unfolding(run_model::specs::Due::listing_over))]
pub(crate) fn first_over(
    rows: u64,
    rows_at: Place,
    cols: u64,
    cols_at: Place,
    list: &[Row],
) -> Option<Outcome>
    ensures { result ≡ listing_over rows rows_at cols cols_at list.now }
{
    if let Some(outcome) = over(rows_at, rows, u64::from(SIZE_LIMIT)) {
        return Some(outcome);
    }
    if let Some(outcome) = over(cols_at, cols, u64::from(SIZE_LIMIT)) {
        return Some(outcome);
    }
    rows_over(rows, cols, list)
}

/// Appends the pair of a listed row and column, if it lies within the sizes.
fn push_listed(
    pairs: &mut Vec<(u32, u32)>,
    shape: Shape,
    row: u64,
    col: u64,
) -> Result<(), AllocError>
    requires { AreWithin shape.rows shape.cols pairs.old.items }
    ensures within { AreWithin shape.rows shape.cols pairs.new.items }
    ensures pair { OnOk result (Extends shape.rows shape.cols pairs.old.items pairs.new.items
        (λ i j. (row == i + 1) && (col == j + 1))) }
    ensures count { length pairs.new.items ≤ length pairs.old.items + 1 }
{
    if row >= 1 && row <= shape.rows as u64 && col >= 1 && col <= shape.cols as u64 {
        pairs.push(((row - 1) as u32, (col - 1) as u32))?;
    }
    Ok(())
}

/// Appends the pairs of a listed row.
fn push_row(pairs: &mut Vec<(u32, u32)>, shape: Shape, row: &Row) -> Result<(), AllocError>
    requires { AreWithin shape.rows shape.cols pairs.old.items }
    ensures within { AreWithin shape.rows shape.cols pairs.new.items }
    ensures pairs { OnOk result (Extends shape.rows shape.cols pairs.old.items pairs.new.items
        (λ i j. (row.now.row == i + 1) && list_any (λ c. c.col == j + 1) row.now.cols.items)) }
    ensures count { length pairs.new.items ≤ length pairs.old.items + length row.now.cols.items }
{
    'columns: for column in row.cols.as_slice() {
        push_listed(pairs, shape, row.row, column.col)?;
    }
    Ok(())
}

/// The listed pairs within the sizes, counted from 0.
fn listed_pairs(alloc: Global, shape: Shape, list: &[Row]) -> Result<Vec<(u32, u32)>, AllocError>
    ensures within { IfOk result (λ v. AreWithin shape.rows shape.cols v.items) }
    ensures pairs { IfOk result (λ v. IsListed shape.rows shape.cols v.items (lists list.now)) }
    ensures count { IfOk result (λ v. length v.items ≤ listed_count list.now) }
{
    let mut pairs = Vec::new(alloc);
    'rows: for row in list {
        push_row(&mut pairs, shape, row)?;
    }
    Ok(pairs)
}

/// The relation of the listed pairs.
pub(crate) fn listed<E: Engine>(
    alloc: Global,
    engine: &mut E,
    shape: Shape,
    list: &[Row],
) -> Result<Rel, Lack>
    requires row_limit { shape.rows ≤ size_limit }
    requires col_limit { shape.cols ≤ size_limit }
    ensures value { IfOk result (Gives (E.worker engine.new) shape.rows shape.cols
        (relation_of shape.rows shape.cols (lists list.now))) }
    ensures keeps { Keeps (E.worker engine.old) (E.worker engine.new) }
    ensures room { MakesAtMost (listed_cost E.least (listed_count list.now) shape.rows shape.cols)
        (E.worker engine.old) (E.worker engine.new) }
    ensures cause { HasCause false (E.worker engine.old) (E.worker engine.new) result }
{
    let pairs = listed_pairs(alloc, shape, list)?;
    match engine.from_pairs(alloc, shape, pairs.as_slice()) {
        Ok(rel) => Ok(rel),
        Err(lack) => Err(lack),
    }
}
