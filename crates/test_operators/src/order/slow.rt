//! Slow answers from lists of pairs, computed cell by cell from the membership clause of each call.
/// The calls.
#[derive(Clone, Copy, Debug)]
pub(crate) enum Call {
    Less,
    Hasse,
    Quot,
    Ubd,
    Lbd,
    Least,
    Greatest,
    Sup,
    Inf,
}

/// A relation of n elements, and another from them to a number of columns, as pairs.
#[derive(Clone, Copy, Debug)]
pub(crate) struct Operands<'a> {
    pub(crate) n: u32,
    pub(crate) r: &'a [(u32, u32)],
    pub(crate) cols: u32,
    pub(crate) s: &'a [(u32, u32)],
}

/// Whether a pair is listed.
fn has(pairs: &[(u32, u32)], i: u32, j: u32) -> bool {
    pairs.contains(&(i, j))
}

/// Whether x is above all elements of column y.
fn is_upper(given: Operands, x: u32, y: u32) -> bool {
    (0..given.n).all(|z| !has(given.s, z, y) || has(given.r, z, x))
}

/// Whether x is below all elements of column y.
fn is_lower(given: Operands, x: u32, y: u32) -> bool {
    (0..given.n).all(|z| !has(given.s, z, y) || has(given.r, x, z))
}

/// Whether x is below all upper bounds of column y.
fn is_below_uppers(given: Operands, x: u32, y: u32) -> bool {
    (0..given.n).all(|z| !is_upper(given, z, y) || has(given.r, x, z))
}

/// Whether x is above all lower bounds of column y.
fn is_above_lowers(given: Operands, x: u32, y: u32) -> bool {
    (0..given.n).all(|z| !is_lower(given, z, y) || has(given.r, z, x))
}

/// Whether a pair is of two different elements.
fn is_proper(given: Operands, x: u32, y: u32) -> bool {
    x != y && has(given.r, x, y)
}

/// Whether a pair is a step with no element in between.
fn is_step(given: Operands, x: u32, y: u32) -> bool {
    let between = (0..given.n).any(|z| is_proper(given, x, z) && is_proper(given, z, y));
    is_proper(given, x, y) && !between
}

/// Whether two columns are equal.
fn are_alike(given: Operands, x: u32, y: u32) -> bool {
    (0..given.n).all(|i| has(given.r, i, x) == has(given.r, i, y))
}

/// Whether no lesser element has the same column.
fn is_first(given: Operands, x: u32) -> bool {
    !(0..x).any(|y| are_alike(given, x, y))
}

/// How many elements below a limit are the first of their columns.
fn firsts(given: Operands, limit: u32) -> u32 {
    let mut many: u32 = 0;
    'elements: for x in 0..limit {
        if is_first(given, x) {
            many = many.saturating_add(1);
        }
    }
    many
}

/// Whether x is in class number k.
fn is_in_class(given: Operands, x: u32, k: u32) -> bool {
    (0..given.n).any(|y| are_alike(given, x, y) && is_first(given, y) && firsts(given, y) == k)
}

/// How many columns the answer has.
pub(crate) fn columns(call: Call, given: Operands) -> u32 {
    match call {
        Call::Less | Call::Hasse => given.n,
        Call::Quot => firsts(given, given.n),
        _ => given.cols,
    }
}

/// Whether (x, y) is in the answer.
pub(crate) fn answers(call: Call, given: Operands, x: u32, y: u32) -> bool {
    match call {
        Call::Less => x < y,
        Call::Hasse => is_step(given, x, y),
        Call::Quot => is_in_class(given, x, y),
        Call::Ubd => is_upper(given, x, y),
        Call::Lbd => is_lower(given, x, y),
        Call::Least => has(given.s, x, y) && is_lower(given, x, y),
        Call::Greatest => has(given.s, x, y) && is_upper(given, x, y),
        Call::Sup => is_upper(given, x, y) && is_below_uppers(given, x, y),
        Call::Inf => is_lower(given, x, y) && is_above_lowers(given, x, y),
    }
}
