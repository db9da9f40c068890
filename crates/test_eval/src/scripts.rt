//! Random scripts as text: random relations, and random definitions with loops.
ghost use Rattle.std.specs.Prelude.{◌<◌};

use crate::table::append;
use std::alloc::Global;
use std::process::Abort;

/// A sequence of pseudo-random numbers. 8 bytes.
#[derive(Clone, Copy)]
pub(crate) struct Draws {
    state: u64,
}

impl Draws {
    /// The sequence of a seed.
    pub(crate) fn of(seed: u64) -> Draws {
        Draws { state: seed }
    }

    /// The next number below a bound.
    pub(crate) fn below(&mut self, bound: u32) -> u32
        requires { 0 < bound }
        ensures { result < bound }
    {
        self.state = self
            .state
            .wrapping_mul(6364136223846793005)
            .wrapping_add(1442695040888963407);
        ((self.state >> 33) % bound as u64) as u32
    }
}

/// Appends a number in decimal.
pub(crate) fn append_number(rt: &impl Abort, alloc: Global, text: &mut Vec<u8>, number: u32) {
    match format!(in alloc; "{number}") {
        Ok(digits) => append(rt, text, digits.as_bytes()),
        Err(_) => panic!(rt; "no memory"),
    }
}

/// Random columns for a row: each of the columns with probability 1 / `one_in`.
fn columns(rt: &impl Abort, alloc: Global, draws: &mut Draws, cols: u32, one_in: u32) -> Vec<u8>
    requires { 0 < one_in }
{
    let mut text = Vec::new(alloc);
    'cols: for j in 0..cols {
        if draws.below(one_in) == 0 {
            if !text.is_empty() {
                append(rt, &mut text, b",");
            }
            append_number(rt, alloc, &mut text, j.wrapping_add(1));
        }
    }
    text
}

/// Appends a REL command that lists each pair with probability 1 / `one_in`.
pub(crate) fn append_relation(
    rt: &impl Abort,
    alloc: Global,
    text: &mut Vec<u8>,
    draws: &mut Draws,
    name: u8,
    sizes: (u32, u32),
    one_in: u32,
)
    requires { 0 < one_in }
{
    append(rt, text, b"REL ");
    append(rt, text, &[name, b' ']);
    append_number(rt, alloc, text, sizes.0);
    append(rt, text, b" ");
    append_number(rt, alloc, text, sizes.1);
    let mut is_first = true;
    'rows: for i in 0..sizes.0 {
        let row = columns(rt, alloc, draws, sizes.1, one_in);
        if !row.is_empty() {
            append(rt, text, if is_first { b" {" } else { b"; " });
            append_number(rt, alloc, text, i.wrapping_add(1));
            append(rt, text, b":");
            append(rt, text, row.as_slice());
            is_first = false;
        }
    }
    if is_first {
        append(rt, text, b" {");
    }
    append(rt, text, b"}. ");
}

/// How many of the expressions may stand anywhere, and how many there are with those for the script's program only.
const PLAIN: u32 = 38;

const ALL: u32 = 44;

/// An expression over square relations X and Y of one size, of that size too. From number `PLAIN` on, they use the
/// function F and the program's domains C and D.
fn square(kind: u32) -> &'static [u8] {
    match kind {
        0 => b"(X|Y)",
        1 => b"(X&Y)",
        2 => b"-X",
        3 => b"X^",
        4 => b"(X*Y)",
        5 => b"(X\\Y)",
        6 => b"(X/Y)",
        7 => b"syq(X,Y)",
        8 => b"trans(X)",
        9 => b"refl(X)",
        10 => b"L(X)",
        11 => b"O(X)",
        12 => b"I(X)",
        13 => b"atom(X)",
        14 => b"(point(dom(X))*L1n(Y))",
        15 => b"(ran(X)*dom(Y)^)",
        16 => b"(init(dom(X))*next(ran(Y))^)",
        17 => b"(inj(dom(X))^*inj(dom(X))|Y)",
        18 => b"([X,Y]*[Y,X]^)",
        19 => b"(epsi(dom(X))*epsi(ran(Y))^)",
        20 => b"(X|Y&X*Y\\X/Y)",
        21 => b"(X*-Y*X)",
        22 => b"(X|-Y|Y^)",
        23 => b"(Ln1(X)*O1n(Y))",
        24 => b"(X^)^^",
        25 => b"((On1(X)|dom(Y))*L1n(X))",
        26 => b"less(X)",
        27 => b"hasse(X)",
        28 => b"(quot(X)*quot(X)^&Y)",
        29 => b"ubd(X,Y)",
        30 => b"lbd(X,Y)",
        31 => b"least(X,Y)",
        32 => b"greatest(refl(X),Y)",
        33 => b"sup(refl(trans(X)),Y)",
        34 => b"inf(refl(trans(X)),Y)",
        35 => b"-(X^*-Y)",
        36 => b"(-X&-Y^)",
        37 => b"(X\\Y&X^/Y^)",
        38 => b"F(X,Y)",
        39 => b"F(Y,F(X,X))",
        40 => b"(p-1(D)^*p-2(D)&X)",
        41 => b"(i-1(C)*i-1(C)^)",
        42 => b"(i-1(C)*i-2(C)^|Y)",
        _ => b"((X*p-1(D)^)*(p-2(D)*Y))",
    }
}

/// A test of square relations X and Y of one size.
fn truth(kind: u32) -> &'static [u8] {
    match kind {
        0 => b"empty(X)",
        1 => b"-empty(X)",
        2 => b"unival(X)",
        3 => b"eq(X,Y)",
        4 => b"-eq(X,Y)",
        5 => b"incl(X,Y)",
        6 => b"-incl(Y,X)",
        _ => b"(incl(X,Y)&-empty(Y))",
    }
}

/// Appends a form, with these texts in place of its X and Y.
fn append_form(rt: &impl Abort, text: &mut Vec<u8>, form: &[u8], x: &[u8], y: &[u8]) {
    'bytes: for byte in form {
        match *byte {
            b'X' => append(rt, text, x),
            b'Y' => append(rt, text, y),
            other => append(rt, text, &[other]),
        }
    }
}

/// A random one of 2, 3 or 4 names of one letter each.
fn letter(rt: &impl Abort, draws: &mut Draws, names: &[u8]) -> u8 {
    let place = draws.below(12) as usize % names.len().max(1);
    match names.get(place) {
        Some(name) => *name,
        None => panic!(rt; "no name"),
    }
}

/// A random expression over names of square relations: a few forms, nested.
fn expression(
    rt: &impl Abort,
    alloc: Global,
    draws: &mut Draws,
    names: &[u8],
    forms: u32,
) -> Vec<u8> {
    let mut last = Vec::new(alloc);
    append(rt, &mut last, &[letter(rt, draws, names)]);
    let mut all = Vec::new(alloc);
    append(rt, &mut all, &[letter(rt, draws, names)]);
    'forms: for _ in 0..3u32 {
        let mut more = Vec::new(alloc);
        let form = square(draws.below(forms.max(1)));
        append_form(rt, &mut more, form, all.as_slice(), last.as_slice());
        last = all;
        all = more;
    }
    all
}

/// Appends a random expression.
fn append_square(
    rt: &impl Abort,
    alloc: Global,
    text: &mut Vec<u8>,
    draws: &mut Draws,
    names: &[u8],
    forms: u32,
) {
    let all = expression(rt, alloc, draws, names, forms);
    append(rt, text, all.as_slice());
}

/// Appends a random test.
fn append_test(
    rt: &impl Abort,
    alloc: Global,
    text: &mut Vec<u8>,
    draws: &mut Draws,
    names: &[u8],
) {
    let x = expression(rt, alloc, draws, names, PLAIN);
    let y = expression(rt, alloc, draws, names, PLAIN);
    let form = truth(draws.below(8));
    append_form(rt, text, form, x.as_slice(), y.as_slice());
}

/// Appends the program G: assignments, a loop that contains an IF, and a second loop.
fn append_program(rt: &impl Abort, alloc: Global, text: &mut Vec<u8>, draws: &mut Draws) {
    append(
        rt,
        text,
        b"G(R,S) DECL x, y, C = SUM(R,S), D = PROD(S,R) BEG x = ",
    );
    append_square(rt, alloc, text, draws, b"RS", ALL);
    append(rt, text, b"; y = ");
    append_square(rt, alloc, text, draws, b"xRS", ALL);
    append(rt, text, b"; WHILE ");
    append_test(rt, alloc, text, draws, b"xyRS");
    append(rt, text, b" DO x = ");
    append_square(rt, alloc, text, draws, b"xyRS", ALL);
    append(rt, text, b"; IF ");
    append_test(rt, alloc, text, draws, b"xyRS");
    append(rt, text, b" THEN y = ");
    append_square(rt, alloc, text, draws, b"xyRS", ALL);
    append(rt, text, b" ELSE y = x; x = ");
    append_square(rt, alloc, text, draws, b"xyRS", ALL);
    append(rt, text, b" FI OD; WHILE ");
    append_test(rt, alloc, text, draws, b"xy");
    append(rt, text, b" DO x = -y; y = ");
    append_square(rt, alloc, text, draws, b"xy", ALL);
    append(rt, text, b" OD RETURN ");
    append_square(rt, alloc, text, draws, b"xyRS", ALL);
    append(rt, text, b" END. ");
}

/// The script of a seed: a function, a program with loops, two relations on this many elements, and what is computed
/// from them.
pub(crate) fn script(rt: &impl Abort, alloc: Global, seed: u64, elements: u32) -> Vec<u8> {
    let mut draws = Draws::of(seed);
    let mut text = Vec::new(alloc);
    append(rt, &mut text, b"F(R,S) = ");
    append_square(rt, alloc, &mut text, &mut draws, b"RS", PLAIN);
    append(rt, &mut text, b". ");
    append_program(rt, alloc, &mut text, &mut draws);
    let sizes = (elements, elements);
    append_relation(rt, alloc, &mut text, &mut draws, b'A', sizes, 3);
    append_relation(rt, alloc, &mut text, &mut draws, b'B', sizes, 2);
    append(rt, &mut text, b"PRINT F(A,B). PRINT G(A,B). LET E = ");
    append_square(rt, alloc, &mut text, &mut draws, b"AB", PLAIN);
    append(rt, &mut text, b". PRINT E. COUNT G(E,F(B,A)).");
    text
}
