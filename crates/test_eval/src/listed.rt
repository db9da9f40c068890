//! Relations as lists of pairs.
use std::alloc::Global;
use std::process::Abort;

/// A relation as a list of pairs, counted from 0, with its sizes, and whether the pairs are sorted by row and then
/// column. On the heap.
#[derive(Drop)]
pub(crate) struct Listed {
    pub(crate) rows: u32,
    pub(crate) cols: u32,
    pub(crate) pairs: Vec<(u32, u32)>,
    is_sorted: bool,
}

/// Whether one pair comes before another.
fn is_before(one: (u32, u32), other: (u32, u32)) -> bool {
    one.0 < other.0 || one.0 == other.0 && one.1 < other.1
}

/// Whether a pair is among sorted ones, fewer than 2^40 of them, by binary search.
fn is_found(pairs: &[(u32, u32)], pair: (u32, u32)) -> bool {
    let mut low: usize = 0;
    let mut high = pairs.len();
    'halves: for _ in 0..40u32 {
        if high <= low {
            return false;
        }
        let middle = low.wrapping_add(high) / 2;
        match pairs.get(middle) {
            Some(here) if is_before(*here, pair) => low = middle.wrapping_add(1),
            Some(here) if is_before(pair, *here) => high = middle,
            _ => return true,
        }
    }
    false
}

impl Listed {
    /// Whether the relation has a pair.
    pub(crate) fn has(&self, i: u32, j: u32) -> bool {
        if self.is_sorted {
            is_found(self.pairs.as_slice(), (i, j))
        } else {
            self.pairs.contains(&(i, j))
        }
    }

    /// Whether an element is in a vector.
    pub(crate) fn holds(&self, i: u32) -> bool {
        self.has(i, 0)
    }

    /// Whether a row has a pair.
    pub(crate) fn has_row(&self, i: u32) -> bool {
        self.pairs.iter().any(|pair| pair.0 == i)
    }

    /// Whether a column has a pair.
    pub(crate) fn has_col(&self, j: u32) -> bool {
        self.pairs.iter().any(|pair| pair.1 == j)
    }

    /// How many elements of a vector are below a given one.
    pub(crate) fn elements_before(&self, i: u32) -> u32 {
        let mut count: u32 = 0;
        'elements: for (x, _) in self.pairs.as_slice() {
            if *x < i {
                count = count.wrapping_add(1);
            }
        }
        count
    }

    /// Whether two columns have the same pairs.
    fn has_same_columns(&self, i: u32, j: u32) -> bool {
        (0..self.rows).all(|k| self.has(k, i) == self.has(k, j))
    }

    /// For how many classes of elements with the same columns the least element is below a given one.
    pub(crate) fn classes_before(&self, i: u32) -> u32 {
        let mut count: u32 = 0;
        'elements: for x in 0..i {
            if !(0..x).any(|y| self.has_same_columns(x, y)) {
                count = count.wrapping_add(1);
            }
        }
        count
    }

    /// The number of an element's class; classes are ordered by their least elements.
    pub(crate) fn class_of(&self, i: u32) -> u32 {
        'elements: for x in 0..i {
            if self.has_same_columns(x, i) {
                return self.classes_before(x);
            }
        }
        self.classes_before(i)
    }

    /// Whether no row has two pairs.
    pub(crate) fn is_unival(&self) -> bool {
        'pairs: for (i, j) in self.pairs.as_slice() {
            'others: for (k, l) in self.pairs.as_slice() {
                if *i == *k && *j != *l {
                    return false;
                }
            }
        }
        true
    }

    /// Whether each pair is also in another relation.
    pub(crate) fn is_within(&self, other: &Listed) -> bool {
        'pairs: for (i, j) in self.pairs.as_slice() {
            if !other.has(*i, *j) {
                return false;
            }
        }
        true
    }
}

/// The empty relation of these sizes.
pub(crate) fn none_of(alloc: Global, rows: u32, cols: u32) -> Listed {
    Listed {
        rows,
        cols,
        pairs: Vec::new(alloc),
        is_sorted: true,
    }
}

/// Appends a pair.
pub(crate) fn put(rt: &impl Abort, list: &mut Listed, i: u32, j: u32) {
    if let Some(last) = list.pairs.as_slice().last() {
        list.is_sorted = list.is_sorted && is_before(*last, (i, j));
    }
    if list.pairs.push((i, j)).is_err() {
        panic!(rt; "no memory");
    }
}

/// A copy of a relation.
pub(crate) fn copy(rt: &impl Abort, alloc: Global, list: &Listed) -> Listed {
    match Vec::from_slice(alloc, list.pairs.as_slice()) {
        Ok(pairs) => Listed {
            rows: list.rows,
            cols: list.cols,
            pairs,
            is_sorted: list.is_sorted,
        },
        Err(_) => panic!(rt; "no memory"),
    }
}
