//! Random calm expressions whose operands fit.
ghost use Rattle.std.specs.Prelude.{◌<◌, ◌≤◌, ◌-◌};

use lang_model::syntax::{Base, Expr, Link, Name, Op2, Place};
use rel_model::NoMemory;
use std::alloc::Global;

/// Pseudo-random numbers.
#[derive(Clone, Copy)]
pub(crate) struct Draws {
    state: u64,
}

impl Draws {
    /// The numbers of a seed.
    pub(crate) fn of(seed: u64) -> Draws {
        Draws { state: seed }
    }

    /// The next number below a bound.
    pub(crate) fn below(&mut self, bound: u32) -> u32
        requires { 0 < bound }
        ensures { result < bound }
    {
        self.state = self
            .state
            .wrapping_mul(6364136223846793005)
            .wrapping_add(1442695040888963407);
        ((self.state >> 33) % bound as u64) as u32
    }
}

/// The sizes of a relation, each given by a number from 0 to 2.
#[derive(Clone, Copy)]
pub(crate) struct Sizes {
    pub(crate) rows: u8,
    pub(crate) cols: u8,
}

impl Sizes {
    /// The sizes of the transposed relation.
    fn turned(self) -> Sizes {
        sized(self.cols, self.rows)
    }
}

/// The sizes with these numbers of rows and columns.
fn sized(rows: u8, cols: u8) -> Sizes {
    Sizes { rows, cols }
}

/// Places in order, each on a column of its own.
#[derive(Drop)]
pub(crate) struct Columns {
    last: u32,
}

impl Columns {
    /// The first places.
    pub(crate) fn new() -> Columns {
        Columns { last: 0 }
    }

    /// The next place.
    fn next(&mut self) -> Place {
        self.last = self.last.wrapping_add(1);
        Place {
            line: 2,
            column: self.last,
        }
    }
}

/// A name of a relation of these sizes.
fn leaf(
    alloc: Global,
    draws: &mut Draws,
    places: &mut Columns,
    of: Sizes,
) -> Result<Expr, NoMemory> {
    let letter = match draws.below(3) {
        0 => b'A',
        1 => b'B',
        _ => b'C',
    };
    let (rows, cols) = (b'0'.wrapping_add(of.rows), b'0'.wrapping_add(of.cols));
    let name = Name::new(alloc, &[letter, rows, cols])?;
    Ok(Expr::Ref {
        at: places.next(),
        name,
    })
}

/// An expression with a prefix `-`.
fn minus(alloc: Global, places: &mut Columns, of: Expr) -> Result<Expr, NoMemory> {
    let of = Box::new(alloc, of)?;
    Ok(Expr::Minus {
        at: places.next(),
        of,
    })
}

/// An expression with a number of signs `^`.
fn turned(alloc: Global, places: &mut Columns, of: Expr, times: u32) -> Result<Expr, NoMemory> {
    let of = Box::new(alloc, of)?;
    Ok(Expr::Turned {
        at: places.next(),
        of,
        times,
    })
}

/// A chain with one more link.
fn with_link(
    places: &mut Columns,
    rest: &mut Vec<Link>,
    op: Op2,
    right: Expr,
) -> Result<(), NoMemory> {
    rest.push(Link {
        at: places.next(),
        op,
        right,
    })?;
    Ok(())
}

/// A chain of two operands.
fn two(
    alloc: Global,
    places: &mut Columns,
    left: Expr,
    op: Op2,
    right: Expr,
) -> Result<Expr, NoMemory> {
    let first = Box::new(alloc, left)?;
    let mut rest = Vec::new(alloc);
    with_link(places, &mut rest, op, right)?;
    Ok(Expr::Chain { first, rest })
}

/// A symmetric quotient.
fn quotient(
    alloc: Global,
    places: &mut Columns,
    left: Expr,
    right: Expr,
) -> Result<Expr, NoMemory> {
    let mut args = Vec::new(alloc);
    args.push(left)?;
    args.push(right)?;
    Ok(Expr::Base {
        at: places.next(),
        base: Base::Syq,
        args,
    })
}

/// How an expression is built from two others, R and S.
#[derive(Clone, Copy)]
enum Form {
    /// `R|S` and similar.
    Plain(Op2),
    /// `syq(R,S)`.
    Quotient,
    /// `R^*S^`, `R^|S^` and `R^&S^`.
    Turned(Op2),
    /// `-R|-S` and `-R&-S`.
    Negated(Op2),
    /// `-(R^*-S)`.
    RightResidual,
    /// `-(-S*R^)`.
    LeftResidual,
    /// `R|S|R|S` and `R&S&R&S`, with the same R and S in both halves or with others.
    Four(Op2),
    /// `(R\S)&R^/S^`, with the same R and S in both halves or with others.
    Halves,
}

/// The form of a number.
fn form_of(number: u32) -> Form {
    match number {
        0 => Form::Plain(Op2::Or),
        1 => Form::Plain(Op2::And),
        2 => Form::Plain(Op2::Times),
        3 => Form::Plain(Op2::Under),
        4 => Form::Plain(Op2::Over),
        5 => Form::Quotient,
        6 => Form::Turned(Op2::Times),
        7 => Form::Turned(Op2::Or),
        8 => Form::Turned(Op2::And),
        9 => Form::Negated(Op2::Or),
        10 => Form::Negated(Op2::And),
        11 => Form::RightResidual,
        12 => Form::LeftResidual,
        13 => Form::Four(Op2::Or),
        14 => Form::Four(Op2::And),
        _ => Form::Halves,
    }
}

/// How many nodes a form has besides R and S.
fn own_nodes(form: Form) -> u32
    ensures { 1 ≤ result }
{
    match form {
        Form::Plain(_) | Form::Quotient | Form::Four(_) => 1,
        Form::Turned(_) | Form::Negated(_) => 3,
        Form::RightResidual | Form::LeftResidual => 4,
        Form::Halves => 5,
    }
}

/// Whether R and S occur twice in a form.
fn is_twice(form: Form) -> bool {
    matches!(form, Form::Four(_) | Form::Halves)
}

/// The sizes of two operands for a result of these sizes, given the size between them.
fn plain_sizes(op: Op2, of: Sizes, mid: u8) -> (Sizes, Sizes) {
    match op {
        Op2::Or | Op2::And => (of, of),
        Op2::Times => (sized(of.rows, mid), sized(mid, of.cols)),
        Op2::Under => (sized(mid, of.rows), sized(mid, of.cols)),
        Op2::Over => (sized(of.rows, mid), sized(of.cols, mid)),
    }
}

/// The sizes of R and S for a form of these sizes, given the size between them.
fn operand_sizes(form: Form, of: Sizes, mid: u8) -> (Sizes, Sizes) {
    match form {
        Form::Plain(op) | Form::Negated(op) | Form::Four(op) => plain_sizes(op, of, mid),
        Form::Turned(op) => {
            let (r, s) = plain_sizes(op, of, mid);
            (r.turned(), s.turned())
        }
        Form::Quotient | Form::RightResidual | Form::Halves => plain_sizes(Op2::Under, of, mid),
        Form::LeftResidual => {
            let (s, r) = plain_sizes(Op2::Over, of, mid);
            (r, s)
        }
    }
}

/// The expression built from R and S, each of which occurs once.
fn made(
    alloc: Global,
    places: &mut Columns,
    form: Form,
    r: Expr,
    s: Expr,
) -> Result<Expr, NoMemory> {
    match form {
        Form::Plain(op) | Form::Four(op) => two(alloc, places, r, op, s),
        Form::Quotient | Form::Halves => quotient(alloc, places, r, s),
        Form::Turned(op) => {
            let r = turned(alloc, places, r, 1)?;
            let s = turned(alloc, places, s, 1)?;
            two(alloc, places, r, op, s)
        }
        Form::Negated(op) => {
            let r = minus(alloc, places, r)?;
            let s = minus(alloc, places, s)?;
            two(alloc, places, r, op, s)
        }
        Form::RightResidual => {
            let r = turned(alloc, places, r, 1)?;
            let s = minus(alloc, places, s)?;
            let product = two(alloc, places, r, Op2::Times, s)?;
            minus(alloc, places, product)
        }
        Form::LeftResidual => {
            let s = minus(alloc, places, s)?;
            let r = turned(alloc, places, r, 1)?;
            let product = two(alloc, places, s, Op2::Times, r)?;
            minus(alloc, places, product)
        }
    }
}

/// The expression built from R and S, each of which occurs twice.
fn made_twice(
    alloc: Global,
    places: &mut Columns,
    form: Form,
    first: (Expr, Expr),
    again: (Expr, Expr),
) -> Result<Expr, NoMemory> {
    let ((r, s), (other, another)) = (first, again);
    match form {
        Form::Four(op) => {
            let first = Box::new(alloc, r)?;
            let mut rest = Vec::new(alloc);
            with_link(places, &mut rest, op, s)?;
            with_link(places, &mut rest, op, other)?;
            with_link(places, &mut rest, op, another)?;
            Ok(Expr::Chain { first, rest })
        }
        _ => {
            let under = two(alloc, places, r, Op2::Under, s)?;
            let left = turned(alloc, places, other, 1)?;
            let right = turned(alloc, places, another, 1)?;
            let over = two(alloc, places, left, Op2::Over, right)?;
            two(alloc, places, under, Op2::And, over)
        }
    }
}

/// An expression with at most `nodes` nodes.
#[cycle(chance)]
pub(crate) fn expression(
    alloc: Global,
    draws: &mut Draws,
    places: &mut Columns,
    nodes: u32,
    of: Sizes,
) -> Result<Expr, NoMemory> {
    if nodes < 2 {
        return leaf(alloc, draws, places, of);
    }
    match draws.below(12) {
        0 => {
            let inner = expression(alloc, draws, places, nodes - 1, of)?;
            minus(alloc, places, inner)
        }
        1 => {
            let inner = expression(alloc, draws, places, nodes - 1, of.turned())?;
            let times = if draws.below(4) == 0 { 3 } else { 1 };
            turned(alloc, places, inner, times)
        }
        2 => {
            let inner = expression(alloc, draws, places, nodes - 1, of)?;
            turned(alloc, places, inner, 2)
        }
        _ => {
            let form = form_of(draws.below(16));
            composed(alloc, draws, places, nodes, of, form)
        }
    }
}

/// How many nodes R and S have together at most, if a form of them has at most `nodes`.
fn shared(nodes: u32, form: Form) -> u32
    ensures { result ≤ nodes - 1 }
{
    let left = nodes.saturating_sub(own_nodes(form));
    if is_twice(form) { left / 2 } else { left }
}

/// An expression of a form with at most `nodes` nodes; a name if these are too few.
#[cycle(chance)]
fn composed(
    alloc: Global,
    draws: &mut Draws,
    places: &mut Columns,
    nodes: u32,
    of: Sizes,
    form: Form,
) -> Result<Expr, NoMemory> {
    let all = shared(nodes, form);
    if all < 2 {
        return leaf(alloc, draws, places, of);
    }
    let left = 1 + draws.below(all - 1);
    let mid = draws.below(3) as u8;
    let of_both = operand_sizes(form, of, mid);
    let start = *draws;
    let first = both(alloc, draws, places, (left, all - left), of_both)?;
    if is_twice(form) {
        let mut again = if draws.below(4) == 0 { *draws } else { start };
        let again = both(alloc, &mut again, places, (left, all - left), of_both)?;
        return made_twice(alloc, places, form, first, again);
    }
    made(alloc, places, form, first.0, first.1)
}

/// Two expressions, each with at most `nodes` nodes.
#[cycle(chance)]
fn both(
    alloc: Global,
    draws: &mut Draws,
    places: &mut Columns,
    nodes: (u32, u32),
    of: (Sizes, Sizes),
) -> Result<(Expr, Expr), NoMemory> {
    let r = expression(alloc, draws, places, nodes.0, of.0)?;
    let s = expression(alloc, draws, places, nodes.1, of.1)?;
    Ok((r, s))
}
