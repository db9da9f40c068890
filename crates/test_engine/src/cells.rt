//! Relations given by a test on row and column, and slow answers, each by the membership formula of its operation.
use crate::lists::put;
use rel_model::Shape;
use std::alloc::Global;
use std::process::Abort;

/// The operations whose answer is a value.
#[derive(Clone, Copy, Debug)]
pub(crate) enum Op {
    Union,
    Inter,
    Diff,
    Complement,
    Turned(u32),
    Full,
    Empty,
    Compose,
    ComposeTurned,
    Right,
    Left,
    Syq,
    Dom,
    Ran,
    Point,
    Atom,
    Init,
    Next,
    Inj,
    Upper,
    Lower,
    Least,
    Greatest,
    Suprema,
    Infima,
    Epsi,
    Pair,
}

/// Three sizes: most answers have k rows and n columns, and m is the size in between. 12 bytes.
#[derive(Clone, Copy, Debug)]
pub(crate) struct Sizes {
    pub(crate) k: u32,
    pub(crate) m: u32,
    pub(crate) n: u32,
}

/// The relations that operands may be: two, what both have, an order, and the black places of a board.
#[derive(Clone, Copy, Debug)]
pub(crate) enum Given {
    First,
    Second,
    Both,
    Order,
    Board,
}

/// Whether the first relation has a pair.
pub(crate) fn first(i: u32, j: u32) -> bool {
    (u64::from(i) * 7 + u64::from(j) * 13) % 31 == 0 || i == j
}

/// Whether the second relation has a pair.
fn second(i: u32, j: u32) -> bool {
    (u64::from(i) * 5 + u64::from(j) * 11 + 3) % 29 == 0 || i == j
}

/// The order of a grid with eight columns: i precedes j if neither its row nor its column in the grid is greater.
fn order(i: u32, j: u32) -> bool {
    i / 8 <= j / 8 && i % 8 <= j % 8
}

/// Whether a relation has a pair.
pub(crate) fn has(given: Given, i: u32, j: u32) -> bool {
    match given {
        Given::First => first(i, j),
        Given::Second => second(i, j),
        Given::Both => first(i, j) && second(i, j),
        Given::Order => order(i, j),
        Given::Board => i % 2 == j % 2,
    }
}

/// The pairs of a relation, within sizes.
pub(crate) fn listed(
    rt: &impl Abort,
    alloc: Global,
    given: Given,
    shape: Shape,
) -> Vec<(u32, u32)> {
    let mut pairs = Vec::new(alloc);
    'rows: for i in 0..shape.rows {
        'columns: for j in 0..shape.cols {
            if has(given, i, j) {
                put(rt, &mut pairs, (i, j));
            }
        }
    }
    pairs
}

/// Which relation the first operand of an operation is.
pub(crate) fn left_of(op: Op) -> Given {
    match op {
        Op::Upper | Op::Lower | Op::Least | Op::Greatest | Op::Suprema | Op::Infima => Given::Order,
        _ => Given::First,
    }
}

/// The sizes of the first operand.
pub(crate) fn left_shape(op: Op, sizes: Sizes) -> Shape {
    let Sizes { k, m, n } = sizes;
    match op {
        Op::Compose | Op::Left | Op::Pair => Shape { rows: k, cols: m },
        Op::ComposeTurned | Op::Right | Op::Syq => Shape { rows: m, cols: k },
        Op::Point | Op::Init | Op::Next | Op::Inj => Shape { rows: k, cols: 1 },
        Op::Upper | Op::Lower | Op::Least | Op::Greatest | Op::Suprema | Op::Infima => {
            Shape { rows: k, cols: k }
        }
        Op::Full | Op::Empty | Op::Epsi => Shape { rows: 1, cols: 1 },
        _ => Shape { rows: k, cols: n },
    }
}

/// The sizes of the second operand.
pub(crate) fn right_shape(op: Op, sizes: Sizes) -> Shape {
    let Sizes { k, m, n } = sizes;
    match op {
        Op::Compose | Op::ComposeTurned | Op::Right | Op::Syq => Shape { rows: m, cols: n },
        Op::Left => Shape { rows: n, cols: m },
        Op::Union | Op::Inter | Op::Diff | Op::Pair => Shape { rows: k, cols: n },
        Op::Upper | Op::Lower | Op::Least | Op::Greatest | Op::Suprema | Op::Infima => {
            Shape { rows: k, cols: n }
        }
        _ => Shape { rows: 1, cols: 1 },
    }
}

/// The sizes of the answer.
pub(crate) fn answer_shape(op: Op, sizes: Sizes) -> Shape {
    let Sizes { k, m, n } = sizes;
    match op {
        Op::Turned(times) if times % 2 == 1 => Shape { rows: n, cols: k },
        Op::Dom | Op::Point | Op::Init | Op::Next => Shape { rows: k, cols: 1 },
        Op::Ran => Shape { rows: n, cols: 1 },
        Op::Inj => Shape {
            rows: elements_below(k),
            cols: k,
        },
        Op::Pair => Shape {
            rows: k,
            cols: m.saturating_mul(n),
        },
        _ => Shape { rows: k, cols: n },
    }
}

/// Whether (i, j) is in the answer.
pub(crate) fn answers(op: Op, sizes: Sizes, i: u32, j: u32) -> bool {
    let Sizes { k, m, n } = sizes;
    match op {
        Op::Union => first(i, j) || second(i, j),
        Op::Inter => first(i, j) && second(i, j),
        Op::Diff => first(i, j) && !second(i, j),
        Op::Complement => !first(i, j),
        Op::Turned(times) => if times % 2 == 1 {
            first(j, i)
        } else {
            first(i, j)
        },
        Op::Full => true,
        Op::Empty => false,
        Op::Compose => (0..m).any(|l| first(i, l) && second(l, j)),
        Op::ComposeTurned => (0..m).any(|l| first(l, i) && second(l, j)),
        Op::Right => (0..m).all(|l| !first(l, i) || second(l, j)),
        Op::Left => (0..m).all(|l| !second(j, l) || first(i, l)),
        Op::Syq => (0..m).all(|l| first(l, i) == second(l, j)),
        Op::Dom => (0..n).any(|l| first(i, l)),
        Op::Ran => (0..k).any(|l| first(l, i)),
        Op::Epsi => (j >> i.min(31)) % 2 == 1,
        Op::Pair => n > 0 && first(i, j / n) && second(i, j % n),
        Op::Point | Op::Atom | Op::Init | Op::Next | Op::Inj => chosen(op, sizes, i, j),
        _ => bounds(op, k, i, j),
    }
}

/// The same for choices.
fn chosen(op: Op, sizes: Sizes, i: u32, j: u32) -> bool {
    let Sizes { k, m: _, n } = sizes;
    match op {
        Op::Point => first(i, 0) && elements_below(i) == 0,
        Op::Init => i == 0,
        Op::Next => i > 0 && first(i.saturating_sub(1), 0),
        Op::Inj => j < k && first(j, 0) && elements_below(j) == i,
        _ => first(i, j) && (0..i).all(|l| row_is_empty(l, n)) && row_is_empty(i, j),
    }
}

/// The same for bounds and extremes of the columns of the second relation, in the order on k elements.
fn bounds(op: Op, k: u32, i: u32, j: u32) -> bool {
    match op {
        Op::Upper => is_upper(k, i, j),
        Op::Lower => is_lower(k, i, j),
        Op::Least => second(i, j) && is_lower(k, i, j),
        Op::Greatest => second(i, j) && is_upper(k, i, j),
        Op::Suprema => is_upper(k, i, j) && (0..k).all(|l| !is_upper(k, l, j) || order(i, l)),
        _ => is_lower(k, i, j) && (0..k).all(|l| !is_lower(k, l, j) || order(l, i)),
    }
}

/// Whether i is above all elements of column j.
fn is_upper(k: u32, i: u32, j: u32) -> bool {
    (0..k).all(|l| !second(l, j) || order(l, i))
}

/// Whether i is below all elements of column j.
fn is_lower(k: u32, i: u32, j: u32) -> bool {
    (0..k).all(|l| !second(l, j) || order(i, l))
}

/// Whether a row of the first relation has no pair in the first `cols` columns.
fn row_is_empty(i: u32, cols: u32) -> bool {
    (0..cols).all(|l| !first(i, l))
}

/// How many elements of the first relation's first column are below a given one.
fn elements_below(i: u32) -> u32 {
    let mut count: u32 = 0;
    'elements: for l in 0..i {
        if first(l, 0) {
            count = count.saturating_add(1);
        }
    }
    count
}
