//! The pairs that walks along a list of pairs join.
ghost use Rattle.std.specs.Prelude.{◌≡◌, ◌==◌, ◌≤◌, ◌<◌, ◌+◌, ℕ, true, IfSome, length, get_or};
ghost use Rattle.std.specs.List.{list_any, AllByRecursion};
ghost use Rattle.rel_model.specs.Relation.{IsIncreasing};
ghost use Rattle.rel_model.specs.Listed.{AreWithin, is_among};
ghost use Rattle.rel_joins.specs.Starts.{IsIndex};
ghost use Rattle.rel_joins.specs.Joins.{joined_limit};
ghost use Rattle.rel_joins.specs.Reaches.{AreClosed, Adds, Closing};

use crate::joining::{MOST_JOINED, row_of};
use crate::paying::is_sparse_so_far;
use std::alloc::Global;

/// Whether a pair stands at a place of a list.
fn is_at(listed: &[(u32, u32)], place: usize, i: u32, k: u32) -> bool
    ensures { result ≡ true → is_among listed.now i k ≡ true }
{
    if place >= listed.len() {
        return false;
    }
    let (row, col) = listed[place];
    row == i && col == k
}

/// Appends a pair, unless it stands at the place that is kept for its column; the new place is kept then. `None`: there
/// are too many pairs, or there is no memory for them.
fn note(listed: &mut Vec<(u32, u32)>, places: &mut [u32], i: u32, k: u32) -> Option<()>
    requires within { k < length places.old }
    ensures size { length places.new ≡ length places.old }
    ensures adds { IfSome result (λ done. Adds i (λ y. y == k) listed.old.items listed.new.items) }
{
    if is_at(listed, places[k as usize] as usize, i, k) {
        return Some(());
    }
    let place = listed.len();
    if place >= MOST_JOINED {
        return None;
    }
    let Ok(()) = listed.push((i, k)) else {
        return None;
    };
    places[k as usize] = place as u32;
    Some(())
}

/// Adds the pairs of a row, all with this row. `None`: there are too many, or there is no memory for them.
fn note_row(
    listed: &mut Vec<(u32, u32)>,
    places: &mut [u32],
    i: u32,
    row: &[(u32, u32)],
) -> Option<()>
    requires ends { AllByRecursion (λ q. q.1 < length places.old) row.now }
    ensures size { length places.new ≡ length places.old }
    ensures adds { IfSome result (λ done. Adds i (λ y. list_any (λ q. q.1 == y) row.now) listed.old.items
        listed.new.items) }
{
    'pairs: for (_, k) in row {
        let Some(()) = note(listed, places, i, *k) else {
            return None;
        };
    }
    Some(())
}

/// Adds `{(i, y) : (j, y) in pairs}`. The rows of `pairs` begin at `starts`. `None`: there are too many, or there is no
/// memory for them.
fn note_all(
    listed: &mut Vec<(u32, u32)>,
    places: &mut [u32],
    pairs: &[(u32, u32)],
    starts: &[usize],
    i: u32,
    j: u32,
) -> Option<()>
    requires index { IsIndex (length places.old) pairs.now starts.now }
    requires ends { AllByRecursion (λ p. p.1 < length places.old) pairs.now }
    requires within { j < length places.old }
    ensures size { length places.new ≡ length places.old }
    ensures adds { IfSome result (λ done. Adds i (λ y. is_among pairs.now j y) listed.old.items listed.new.items) }
{
    note_row(listed, places, i, row_of(pairs, starts, j))
}

/// Adds the row of an element of the closure: those that pairs lead to from it, then from each that was found.
/// `None`: there are too many pairs, or there is no memory for them.
fn note_reached(
    listed: &mut Vec<(u32, u32)>,
    places: &mut [u32],
    pairs: &[(u32, u32)],
    starts: &[usize],
    i: u32,
) -> Option<()>
    requires index { IsIndex (length places.old) pairs.now starts.now }
    requires within { AreWithin (length places.old) (length places.old) pairs.now }
    requires order { IsIncreasing pairs.now }
    requires element { i < length places.old }
    requires closing { Closing (length places.old) pairs.now i (length listed.old.items) listed.old.items }
    ensures size { length places.new ≡ length places.old }
    ensures closing { IfSome result (λ done. Closing (length places.old) pairs.now (i + 1)
        (length listed.new.items) listed.new.items) }
{
    let mut place = listed.len();
    let Some(()) = note_all(listed, places, pairs, starts, i, i) else {
        return None;
    };
    'places: while place < listed.len() {
        let (x, j) = listed[place];
        let Some(()) = note_all(listed, places, pairs, starts, x, j) else {
            return None;
        };
        place += 1;
    }
    Some(())
}

/// `n` zeros. `None`: there is no memory for them.
fn zeros(alloc: Global, n: u32) -> Option<Vec<u32>>
    ensures { IfSome result (λ v. length v.items ≡ n) }
{
    match vec![in alloc; 0u32; n as usize] {
        Ok(places) => Some(places),
        Err(_) => None,
    }
}

/// The pairs of the transitive closure of `n` elements with the given pairs, row by row. The rows of `pairs` begin at
/// `starts`. `None`: there is more than one pair for so many cells, or no memory for the pairs.
pub(crate) fn close_rows(
    alloc: Global,
    n: u32,
    pairs: &[(u32, u32)],
    starts: &[usize],
    cells_a_pair: u64,
) -> Option<Vec<(u32, u32)>>
    requires some { 0 < cells_a_pair }
    requires index { IsIndex n pairs.now starts.now }
    requires within { AreWithin n n pairs.now }
    requires order { IsIncreasing pairs.now }
    ensures closed { IfSome result (λ v. AreClosed n pairs.now v.items) }
    ensures few { IfSome result (λ v. length v.items ≤ joined_limit) }
{
    let Some(mut places) = zeros(alloc, n) else {
        return None;
    };
    let mut listed = Vec::new(alloc);
    'rows: for i in 0..n {
        let Some(()) = note_reached(&mut listed, &mut places, pairs, starts, i) else {
            return None;
        };
        if !is_sparse_so_far(n, i + 1, listed.len(), cells_a_pair) {
            return None;
        }
    }
    Some(listed)
}
