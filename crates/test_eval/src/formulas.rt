//! The membership formula of each operation of the language, on lists of pairs.
use crate::listed::{Listed, none_of, put};
use std::alloc::Global;
use std::process::Abort;

/// Which pairs are in the result of an operation on two relations, or on the first one alone.
#[derive(Clone, Copy)]
pub(crate) enum Formula {
    Nothing,
    All,
    Same,
    Union,
    Inter,
    Complement,
    Transpose,
    Compose,
    Under,
    Over,
    Quotient,
    Closure,
    Reflexive,
    Subsets,
    Paired,
    Element,
    Least,
    LeastPair,
    First,
    Next,
    HasRow,
    HasCol,
    Before,
    Neighbour,
    UpperBound,
    LowerBound,
    LeastOf,
    GreatestOf,
    Supremum,
    Infimum,
    Class,
    /// The projection to the first factor of a product whose second factor has this many elements.
    Factor(u32),
    /// The projection to the second factor, which has this many elements.
    OtherFactor(u32),
    /// The injection of the second summand, after a first one with this many elements.
    Behind(u32),
}

/// Whether the formula holds of the pair (i, j).
fn is_in(formula: Formula, r: &Listed, s: &Listed, i: u32, j: u32) -> bool {
    match formula {
        Formula::Nothing => false,
        Formula::All => true,
        Formula::Same => i == j,
        Formula::Union => r.has(i, j) || s.has(i, j),
        Formula::Inter => r.has(i, j) && s.has(i, j),
        Formula::Complement => !r.has(i, j),
        Formula::Transpose => r.has(j, i),
        Formula::Compose => (0..r.cols).any(|k| r.has(i, k) && s.has(k, j)),
        Formula::Under => (0..r.rows).all(|k| !r.has(k, i) || s.has(k, j)),
        Formula::Over => (0..r.cols).all(|k| !s.has(j, k) || r.has(i, k)),
        Formula::Quotient => (0..r.rows).all(|k| r.has(k, i) == s.has(k, j)),
        Formula::Closure => is_reached(r, i, j),
        Formula::Reflexive => r.has(i, j) || i == j,
        _ => is_chosen(formula, r, s, i, j),
    }
}

/// The same for domains and choice.
fn is_chosen(formula: Formula, r: &Listed, s: &Listed, i: u32, j: u32) -> bool {
    let q = s.cols.max(1);
    match formula {
        Formula::Subsets => (j >> i.min(31)) % 2 == 1,
        Formula::Paired => r.has(i, j / q) && s.has(i, j % q),
        Formula::Element => r.holds(j) && r.elements_before(j) == i,
        Formula::Least => r.holds(i) && r.elements_before(i) == 0,
        Formula::LeastPair => {
            r.has(i, j) && !(0..i).any(|k| r.has_row(k)) && !(0..j).any(|k| r.has(i, k))
        }
        Formula::First => i == 0,
        Formula::Next => i > 0 && r.holds(i.wrapping_sub(1)),
        Formula::HasRow => r.has_row(i),
        Formula::HasCol => r.has_col(i),
        Formula::Factor(y) => i / y.max(1) == j,
        Formula::OtherFactor(y) => i % y.max(1) == j,
        Formula::Behind(x) => x.wrapping_add(i) == j,
        _ => is_ordered(formula, r, s, i, j),
    }
}

/// The same for orders and classes.
fn is_ordered(formula: Formula, r: &Listed, s: &Listed, i: u32, j: u32) -> bool {
    match formula {
        Formula::Before => i < j,
        Formula::Neighbour => {
            is_step(r, i, j) && !(0..r.rows).any(|k| is_step(r, i, k) && is_step(r, k, j))
        }
        Formula::UpperBound => is_upper(r, s, i, j),
        Formula::LowerBound => is_lower(r, s, i, j),
        Formula::LeastOf => s.has(i, j) && is_lower(r, s, i, j),
        Formula::GreatestOf => s.has(i, j) && is_upper(r, s, i, j),
        Formula::Supremum => {
            is_upper(r, s, i, j) && (0..r.rows).all(|k| !is_upper(r, s, k, j) || r.has(i, k))
        }
        Formula::Infimum => {
            is_lower(r, s, i, j) && (0..r.rows).all(|k| !is_lower(r, s, k, j) || r.has(k, i))
        }
        Formula::Class => r.class_of(i) == j,
        _ => false,
    }
}

/// Whether i and j are a pair of two distinct elements.
fn is_step(r: &Listed, i: u32, j: u32) -> bool {
    i != j && r.has(i, j)
}

/// Whether an element is above all elements of a column.
fn is_upper(r: &Listed, s: &Listed, i: u32, j: u32) -> bool {
    (0..s.rows).all(|k| !s.has(k, j) || r.has(k, i))
}

/// Whether an element is below all elements of a column.
fn is_lower(r: &Listed, s: &Listed, i: u32, j: u32) -> bool {
    (0..s.rows).all(|k| !s.has(k, j) || r.has(i, k))
}

/// Whether a walk of at least one step leads from i to j. It makes as many rounds as there are elements, each over all
/// pairs, and works for up to 64 elements.
fn is_reached(r: &Listed, i: u32, j: u32) -> bool {
    let mut reached: u64 = 0;
    'rounds: for _ in 0..r.rows {
        'pairs: for (x, y) in r.pairs.as_slice() {
            if *x == i || (reached >> (*x).min(63)) % 2 == 1 {
                reached |= 1u64 << (*y).min(63);
            }
        }
    }
    (reached >> j.min(63)) % 2 == 1
}

/// The relation of these sizes with the pairs of which a formula holds.
pub(crate) fn filled(
    rt: &impl Abort,
    alloc: Global,
    rows: u32,
    cols: u32,
    formula: Formula,
    r: &Listed,
    s: &Listed,
) -> Listed {
    let mut list = none_of(alloc, rows, cols);
    'rows: for i in 0..rows {
        'cols: for j in 0..cols {
            if is_in(formula, r, s, i, j) {
                put(rt, &mut list, i, j);
            }
        }
    }
    list
}
