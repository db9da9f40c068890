//! A slow evaluator of calm expressions over matrices of at most 16 rows and columns: each operation by its membership
//! formula, cell by cell.
use lang_model::syntax::{Base, Expr, Op2};

/// A relation of at most 16 rows and columns.
#[derive(Clone, Copy)]
pub(crate) struct Grid {
    pub(crate) rows: u32,
    pub(crate) cols: u32,
    cells: [u16; 16],
}

impl Grid {
    /// The empty relation.
    pub(crate) fn none(rows: u32, cols: u32) -> Grid {
        Grid {
            rows,
            cols,
            cells: [0; 16],
        }
    }

    /// Whether it has a pair.
    pub(crate) fn has(&self, i: u32, j: u32) -> bool {
        (self.cells[(i % 16) as usize] >> (j % 16)) % 2 == 1
    }

    /// Adds a pair.
    pub(crate) fn put(&mut self, i: u32, j: u32) {
        self.cells[(i % 16) as usize] |= 1 << (j % 16);
    }

    /// Whether another relation has the same sizes and the same pairs.
    pub(crate) fn is(&self, other: &Grid) -> bool {
        if self.rows != other.rows || self.cols != other.cols {
            return false;
        }
        (0..self.rows).all(|i| (0..self.cols).all(|j| self.has(i, j) == other.has(i, j)))
    }
}

/// Which pairs the result of an operation on two relations, or on one, has.
#[derive(Clone, Copy)]
enum Formula {
    Complement,
    Transpose,
    Quotient,
    Link(Op2),
}

/// Whether the result has the pair (i, j).
fn is_in(formula: Formula, r: &Grid, s: &Grid, i: u32, j: u32) -> bool {
    match formula {
        Formula::Complement => !r.has(i, j),
        Formula::Transpose => r.has(j, i),
        Formula::Quotient => (0..r.rows).all(|k| r.has(k, i) == s.has(k, j)),
        Formula::Link(Op2::Or) => r.has(i, j) || s.has(i, j),
        Formula::Link(Op2::And) => r.has(i, j) && s.has(i, j),
        Formula::Link(Op2::Times) => (0..r.cols).any(|k| r.has(i, k) && s.has(k, j)),
        Formula::Link(Op2::Under) => (0..r.rows).all(|k| !r.has(k, i) || s.has(k, j)),
        Formula::Link(Op2::Over) => (0..r.cols).all(|k| !s.has(j, k) || r.has(i, k)),
    }
}

/// The sizes of the result, if those of the operands fit.
fn sizes(formula: Formula, r: &Grid, s: &Grid) -> Option<(u32, u32)> {
    let (fits, rows, cols) = match formula {
        Formula::Complement => (true, r.rows, r.cols),
        Formula::Transpose => (true, r.cols, r.rows),
        Formula::Quotient | Formula::Link(Op2::Under) => (r.rows == s.rows, r.cols, s.cols),
        Formula::Link(Op2::Or | Op2::And) => (r.rows == s.rows && r.cols == s.cols, r.rows, r.cols),
        Formula::Link(Op2::Times) => (r.cols == s.rows, r.rows, s.cols),
        Formula::Link(Op2::Over) => (r.cols == s.cols, r.rows, s.rows),
    };
    if fits { Some((rows, cols)) } else { None }
}

/// The result of an operation, if its operands fit.
fn result_of(formula: Formula, r: &Grid, s: &Grid) -> Option<Grid> {
    let (rows, cols) = sizes(formula, r, s)?;
    let mut grid = Grid::none(rows, cols);
    'rows: for i in 0..rows {
        'cols: for j in 0..cols {
            if is_in(formula, r, s, i, j) {
                grid.put(i, j);
            }
        }
    }
    Some(grid)
}

/// Relations by their names of three bytes: a letter of A, B and C, and two digits, each the number of a size from 0 to
/// 2.
#[derive(Drop)]
pub(crate) struct Relations {
    pub(crate) grids: [Grid; 27],
}

/// The number of a relation: its letter counts nine times, its first digit three times.
fn number_of(letter: u8, left: u8, right: u8) -> usize {
    let letter = usize::from(letter.wrapping_sub(b'A'));
    let left = usize::from(left.wrapping_sub(b'0'));
    let right = usize::from(right.wrapping_sub(b'0'));
    letter
        .wrapping_mul(9)
        .wrapping_add(left.wrapping_mul(3))
        .wrapping_add(right)
}

/// The relation of a name.
fn relation(relations: &Relations, name: &[u8]) -> Option<Grid> {
    match name {
        [letter, left, right] => Some(relations.grids[number_of(*letter, *left, *right) % 27]),
        _ => None,
    }
}

/// The value of a calm expression, if its operands fit.
pub(crate) fn value_of(relations: &Relations, expr: &Expr) -> Option<Grid> {
    match expr {
        Expr::Ref { name, .. } => relation(relations, name.bytes()),
        Expr::Base { base, args, .. } => match args.as_slice() {
            [left, right] => {
                let r = value_of(relations, left)?;
                let s = value_of(relations, right)?;
                match *base {
                    Base::Syq => result_of(Formula::Quotient, &r, &s),
                    _ => None,
                }
            }
            _ => None,
        },
        Expr::Minus { of, .. } => {
            let r = value_of(relations, of)?;
            result_of(Formula::Complement, &r, &r)
        }
        Expr::Turned { of, times, .. } => {
            let mut r = value_of(relations, of)?;
            'times: for _ in 0..*times {
                r = result_of(Formula::Transpose, &r, &r)?;
            }
            Some(r)
        }
        Expr::Chain { first, rest } => {
            let mut r = value_of(relations, first)?;
            'links: for link in rest.as_slice() {
                let s = value_of(relations, &link.right)?;
                r = result_of(Formula::Link(link.op), &r, &s)?;
            }
            Some(r)
        }
        _ => None,
    }
}
