//! Two lists of pairs joined where the first ends and the second begins.
ghost use Rattle.std.specs.Prelude.{◌≡◌, ◌==◌, ◌≤◌, ◌<◌, ◌+◌, ◌-◌, ◌++◌, ℕ, map, take, drop, OnOk, IfSome, length};
ghost use Rattle.std.specs.List.{list_any, AllByRecursion};
ghost use Rattle.rel_model.specs.Relation.{IsIncreasing};
ghost use Rattle.rel_model.specs.Listed.{is_among};
ghost use Rattle.rel_joins.specs.Starts.{Indexes, IsIndex};
ghost use Rattle.rel_joins.specs.Joins.{AreJoined, joined_limit};

use crate::index::index_of;
use rel_model::NoMemory;
use std::alloc::Global;

/// How many pairs are joined at most, repeats counted.
pub(crate) const MOST_JOINED: usize = 1 << 22;

/// The pairs of a list from one place up to another.
fn part(pairs: &[(u32, u32)], from: usize, upto: usize) -> &[(u32, u32)]
    requires order { from ≤ upto }
    requires end { upto ≤ length pairs.now }
    ensures { result.now ≡ take (upto - from) (drop from pairs.now) }
{
    &pairs[from..upto]
}

/// The pairs of a row of a sorted list. The rows begin at `starts`.
pub(crate) fn row_of<'a>(pairs: &'a [(u32, u32)], starts: &[usize], row: u32) -> &'a [(u32, u32)]
    requires index { Indexes (length pairs.now) pairs.now starts.now }
    requires within { row + 1 < length starts.now }
    ensures ends { (n : ℕ) → AllByRecursion (λ p. p.1 < n) pairs.now → AllByRecursion (λ p. p.1 < n) result.now }
    ensures among { (k : ℕ) → list_any (λ q. q.1 == k) result.now ≡ is_among pairs.now row k }
{
    part(pairs, starts[row as usize], starts[row as usize + 1])
}

/// Appends the pairs of a row, all with this row.
fn append_row(joined: &mut Vec<(u32, u32)>, i: u32, row: &[(u32, u32)]) -> Result<(), NoMemory>
    ensures { OnOk result (joined.new.items ≡ joined.old.items ++ map (λ q. (i, q.1)) row.now) }
{
    'pairs: for (_, k) in row {
        joined.push((i, *k))?;
    }
    Ok(())
}

/// `{(i, k) : (i, j) in left and (j, k) in right for some j}`, with repeats. The rows of `right` begin at `starts`.
/// `None`: there are too many, or there is no memory for them.
fn join_rows(
    alloc: Global,
    middle: u32,
    left: &[(u32, u32)],
    right: &[(u32, u32)],
    starts: &[usize],
) -> Option<Vec<(u32, u32)>>
    requires index { IsIndex middle right.now starts.now }
    requires ends { AllByRecursion (λ p. p.1 < middle) left.now }
    ensures joined { IfSome result (λ v. AreJoined left.now right.now v.items) }
    ensures few { IfSome result (λ v. length v.items ≤ joined_limit) }
{
    let mut joined = Vec::new(alloc);
    'pairs: for (i, j) in left {
        let row = row_of(right, starts, *j);
        if row.len() > MOST_JOINED - joined.len() {
            return None;
        }
        let Ok(()) = append_row(&mut joined, *i, row) else {
            return None;
        };
    }
    Some(joined)
}

/// `{(i, k) : (i, j) in left and (j, k) in right for some j < middle}`, with repeats. `None`: there are too many, or
/// there is no memory for them.
pub(crate) fn join(
    alloc: Global,
    middle: u32,
    left: &[(u32, u32)],
    right: &[(u32, u32)],
) -> Option<Vec<(u32, u32)>>
    requires ends { AllByRecursion (λ p. p.1 < middle) left.now }
    requires order { IsIncreasing right.now }
    ensures joined { IfSome result (λ v. AreJoined left.now right.now v.items) }
    ensures few { IfSome result (λ v. length v.items ≤ joined_limit) }
{
    match index_of(alloc, middle, right) {
        Ok(starts) => join_rows(alloc, middle, left, right, &starts),
        Err(_) => None,
    }
}
