//! Relations as lists of pairs, and each operation on them by its membership clause.
use crate::operations::calls::Operation;
use rel_model::Shape;

/// A relation as its sizes and its pairs, by row and then by column.
#[derive(Debug, Drop)]
pub(crate) struct Listed {
    pub(crate) shape: Shape,
    pub(crate) pairs: Vec<(u32, u32)>,
}

impl Listed {
    /// Whether it has a pair.
    pub(crate) fn has(&self, i: u32, j: u32) -> bool {
        self.pairs.contains(&(i, j))
    }

    /// Whether the vector has an element.
    fn holds(&self, i: u32) -> bool {
        self.has(i, 0)
    }

    /// Whether a row has a pair.
    fn has_row(&self, i: u32) -> bool {
        self.pairs.iter().any(|pair| pair.0 == i)
    }

    /// Whether a column has a pair.
    fn has_col(&self, j: u32) -> bool {
        self.pairs.iter().any(|pair| pair.1 == j)
    }

    /// How many elements of a vector come before one.
    fn elements_before(&self, i: u32) -> u32 {
        let mut count: u32 = 0;
        'elements: for (x, _) in self.pairs.as_slice() {
            if *x < i {
                count = count.wrapping_add(1);
            }
        }
        count
    }

    /// Whether no row has two pairs.
    pub(crate) fn is_unival(&self) -> bool {
        'pairs: for (i, j) in self.pairs.as_slice() {
            'others: for (k, l) in self.pairs.as_slice() {
                if *i == *k && *j != *l {
                    return false;
                }
            }
        }
        true
    }
}

/// The sizes of an operation's result; none if the operands do not fit.
pub(crate) fn shape_of(operation: Operation, r: &Listed, s: &Listed) -> Option<(u32, u32)> {
    let (m, n) = (r.shape.rows, r.shape.cols);
    let (p, q) = (s.shape.rows, s.shape.cols);
    let (fits, rows, cols) = match operation {
        Operation::Empty | Operation::Full | Operation::Atom => (true, m, n),
        Operation::Single => (m > 0 && n > 0, m, n),
        Operation::Union | Operation::Inter | Operation::Diff => (m == p && n == q, m, n),
        Operation::Transpose => (true, n, m),
        Operation::Compose => (n == p, m, q),
        Operation::Right | Operation::Syq => (m == p, n, q),
        Operation::Left => (n == q, m, p),
        Operation::Trans | Operation::Refl => (m == n, m, n),
        Operation::Identity => (true, m, m),
        Operation::First => (true, m.wrapping_mul(q), m),
        Operation::Second => (true, m.wrapping_mul(q), q),
        Operation::Inl => (true, m, m.wrapping_add(q)),
        Operation::Inr => (true, q, m.wrapping_add(q)),
        Operation::Epsi => (m <= 6, m, 1 << m.min(6)),
        Operation::Fork => (m == p, m, n.wrapping_mul(q)),
        Operation::Inj => (n == 1, r.elements_before(m), m),
        Operation::Point | Operation::Init | Operation::Next => (n == 1, m, 1),
        Operation::Dom => (true, m, 1),
        Operation::Ran => (true, n, 1),
    };
    if fits { Some((rows, cols)) } else { None }
}

/// Whether the pair (i, j) is in the result of an operation, by its membership clause.
pub(crate) fn is_in(operation: Operation, r: &Listed, s: &Listed, i: u32, j: u32) -> bool {
    match operation {
        Operation::Empty => false,
        Operation::Full => true,
        Operation::Single => i.wrapping_add(1) == r.shape.rows && j.wrapping_add(1) == r.shape.cols,
        Operation::Union => r.has(i, j) || s.has(i, j),
        Operation::Inter => r.has(i, j) && s.has(i, j),
        Operation::Diff => r.has(i, j) && !s.has(i, j),
        Operation::Transpose => r.has(j, i),
        Operation::Compose => (0..r.shape.cols).any(|k| r.has(i, k) && s.has(k, j)),
        Operation::Right => (0..r.shape.rows).all(|k| !r.has(k, i) || s.has(k, j)),
        Operation::Left => (0..r.shape.cols).all(|k| !s.has(j, k) || r.has(i, k)),
        Operation::Syq => (0..r.shape.rows).all(|k| r.has(k, i) == s.has(k, j)),
        Operation::Trans => is_reached(r, i, j),
        Operation::Refl => r.has(i, j) || i == j,
        Operation::Identity => i == j,
        _ => is_chosen(operation, r, s, i, j),
    }
}

/// The same for domains and choice.
fn is_chosen(operation: Operation, r: &Listed, s: &Listed, i: u32, j: u32) -> bool {
    let q = s.shape.cols.max(1);
    match operation {
        Operation::First => i / q == j,
        Operation::Second => i % q == j,
        Operation::Inl => i == j,
        Operation::Inr => r.shape.rows.wrapping_add(i) == j,
        Operation::Epsi => (j >> i.min(31)) % 2 == 1,
        Operation::Fork => r.has(i, j / q) && s.has(i, j % q),
        Operation::Inj => r.holds(j) && r.elements_before(j) == i,
        Operation::Point => r.holds(i) && r.elements_before(i) == 0,
        Operation::Atom => {
            r.has(i, j) && !(0..i).any(|k| r.has_row(k)) && !(0..j).any(|k| r.has(i, k))
        }
        Operation::Init => i == 0,
        Operation::Next => i > 0 && r.holds(i.wrapping_sub(1)),
        Operation::Dom => r.has_row(i),
        Operation::Ran => r.has_col(i),
        _ => false,
    }
}

/// Whether a walk of at least one step leads from one element to another, found in as many rounds as there are
/// elements, each over all pairs.
fn is_reached(r: &Listed, i: u32, j: u32) -> bool {
    let mut reached: u64 = 0;
    'rounds: for _ in 0..r.shape.rows {
        'pairs: for (x, y) in r.pairs.as_slice() {
            if *x == i || (reached >> (*x).min(63)) % 2 == 1 {
                reached |= 1u64 << (*y).min(63);
            }
        }
    }
    (reached >> j.min(63)) % 2 == 1
}
