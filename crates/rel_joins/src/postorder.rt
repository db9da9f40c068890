//! Elements in depth-first postorder: each comes after all that pairs lead to from it.
ghost use Rattle.std.specs.Prelude.{◌≡◌, ◌==◌, ◌<◌, ℕ, true, false, IfSome, length, slice_index_or};
ghost use Rattle.std.specs.List.{list_any};
ghost use Rattle.rel_joins.specs.Starts.{IsIndex};
ghost use Rattle.rel_joins.specs.Postorder.{IsPostorder};

use crate::joining::row_of;
use std::alloc::Global;

/// Whether an element is marked.
fn is_marked(marks: &[bool], x: u32) -> bool
    ensures { result ≡ slice_index_or marks.now x false }
{
    let place = x as usize;
    place < marks.len() && marks[place]
}

/// Whether all ends of pairs are marked.
fn are_marked(marks: &[bool], row: &[(u32, u32)]) -> bool
    ensures { result ≡ true → (y : ℕ) → list_any (λ q. q.1 == y) row.now ≡ true
        → slice_index_or marks.now y false ≡ true }
{
    'pairs: for (_, y) in row {
        if !is_marked(marks, *y) {
            return false;
        }
    }
    true
}

/// Whether all elements are marked.
fn are_all(marks: &[bool]) -> bool
    ensures { result ≡ true → (x : ℕ) → x < length marks.now → slice_index_or marks.now x false ≡ true }
{
    'marks: for mark in marks {
        if !*mark {
            return false;
        }
    }
    true
}

/// Whether an order has all elements, each after all that pairs lead to from it. There is none if pairs go in a circle.
fn is_postorder(order: &[u32], marks: &mut [bool], pairs: &[(u32, u32)], starts: &[usize]) -> bool
    requires index { IsIndex (length marks.old) pairs.now starts.now }
    requires bare { (x : ℕ) → slice_index_or marks.old x false ≡ false }
    ensures { result ≡ true → IsPostorder (length marks.old) pairs.now order.now }
{
    'elements: for x in order {
        let place = *x as usize;
        if place >= marks.len() || !are_marked(marks, row_of(pairs, starts, *x)) {
            return false;
        }
        marks[place] = true;
    }
    are_all(marks)
}

/// Begins with an element, unless that was found before: the way leads to it, and on by its first pair. `None`: there
/// is no memory.
fn enter(found: &mut [bool], way: &mut Vec<(u32, usize)>, starts: &[usize], x: u32) -> Option<()>
    ensures { length found.new ≡ length found.old }
{
    let place = x as usize;
    if place >= found.len() || place >= starts.len() || found[place] {
        return Some(());
    }
    found[place] = true;
    let Ok(()) = way.push((x, starts[place])) else {
        return None;
    };
    Some(())
}

/// One step of a depth-first search: by the next pair of the last element of the way, or back from it if it has none,
/// and then it is listed. `None`: there is no memory.
fn step(
    found: &mut [bool],
    way: &mut Vec<(u32, usize)>,
    order: &mut Vec<u32>,
    pairs: &[(u32, u32)],
    starts: &[usize],
) -> Option<()>
    ensures { length found.new ≡ length found.old }
{
    let Some((x, place)) = way.pop() else {
        return Some(());
    };
    if place < pairs.len() && pairs[place].0 == x {
        let Ok(()) = way.push((x, place + 1)) else {
            return None;
        };
        return enter(found, way, starts, pairs[place].1);
    }
    let Ok(()) = order.push(x) else {
        return None;
    };
    Some(())
}

/// `n` elements of which none is marked. `None`: there is no memory for them.
fn no_marks(alloc: Global, n: u32) -> Option<Vec<bool>>
    ensures size { IfSome result (λ v. length v.items ≡ n) }
    ensures bare { IfSome result (λ v. (x : ℕ) → slice_index_or v.items x false ≡ false) }
{
    match vec![in alloc; false; n as usize] {
        Ok(marks) => Some(marks),
        Err(_) => None,
    }
}

/// The elements in the order in which a depth-first search leaves them. `None`: there is no memory.
fn search(alloc: Global, n: u32, pairs: &[(u32, u32)], starts: &[usize]) -> Option<Vec<u32>> {
    let Some(mut found) = no_marks(alloc, n) else {
        return None;
    };
    let mut way = Vec::new(alloc);
    let mut order = Vec::new(alloc);
    let mut next = 0;
    // Each step enters an element, follows a pair or leaves an element.
    'steps: for _ in 0..2 * u64::from(n) + pairs.len() as u64 {
        if !way.is_empty() {
            let Some(()) = step(&mut found, &mut way, &mut order, pairs, starts) else {
                return None;
            };
        } else if next < n {
            let Some(()) = enter(&mut found, &mut way, starts, next) else {
                return None;
            };
            next += 1;
        }
    }
    Some(order)
}

/// The `n` elements in depth-first postorder. `None`: pairs go in a circle, or there is no memory.
pub(crate) fn postorder(
    alloc: Global,
    n: u32,
    pairs: &[(u32, u32)],
    starts: &[usize],
) -> Option<Vec<u32>>
    requires { IsIndex n pairs.now starts.now }
    ensures { IfSome result (λ v. IsPostorder n pairs.now v.items) }
{
    let Some(order) = search(alloc, n, pairs, starts) else {
        return None;
    };
    let Some(mut marks) = no_marks(alloc, n) else {
        return None;
    };
    if !is_postorder(&order, &mut marks, pairs, starts) {
        return None;
    }
    Some(order)
}
