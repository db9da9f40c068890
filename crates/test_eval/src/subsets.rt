//! Random scripts about power sets, as text: programs over the membership of elements in their subsets.
ghost use Rattle.std.specs.Prelude.{◌<◌};

use crate::scripts::{Draws, append_relation};
use crate::table::append;
use std::alloc::Global;
use std::process::Abort;

/// A form that is a relation between elements and subsets. Its letters stand for other forms: X for relations between
/// elements and subsets, V for vectors of subsets, U for vectors of elements, and Q for relations on elements.
fn of_both(kind: u32) -> &'static [u8] {
    match kind {
        0 => b"X|X",
        1 => b"X&X",
        2 => b"-X",
        3 => b"Q*X",
        4 => b"X&Q*X",
        5 => b"X|-Q*X",
        6 => b"U*V^",
        7 => b"(V*U^)^",
        8 => b"X&U*L1n(X)",
        9 => b"-X&Ln1(X)*V^",
        10 => b"Q\\X",
        11 => b"refl(Q)*X",
        12 => b"(X^*Q)^",
        13 => b"(X^/Q)^",
        14 => b"X^^&-X",
        _ => b"X&-L(X)|O(X)",
    }
}

/// How many of the forms for vectors of subsets have no relation between subsets in them, and how many there are in
/// all.
const NARROW: u32 = 16;

const ALL: u32 = 23;

/// A form with the same letters that is a vector of subsets.
fn of_subsets(kind: u32) -> &'static [u8] {
    match kind {
        0 => b"ran(X)",
        1 => b"-ran(X&Q*X)",
        2 => b"X^*U",
        3 => b"-V",
        4 => b"V|V",
        5 => b"V&-V",
        6 => b"syq(X,U)",
        7 => b"X\\U",
        8 => b"(U\\X)^",
        9 => b"next(V)",
        10 => b"point(V)",
        11 => b"init(V)",
        12 => b"dom(X^)",
        13 => b"-ran(-(X|Q*X))",
        14 => b"ran(inj(V))",
        15 => b"(U^*-X)^",
        16 => b"(X\\X)*V",
        17 => b"(X\\X)^*V",
        18 => b"V&-((X\\X&-I(X\\X))*V)",
        19 => b"V&-((X\\X&-I(X\\X))^*V)",
        20 => b"syq(X,X)*V",
        21 => b"(X^*X)*V",
        _ => b"ubd(X\\X,V)",
    }
}

/// A form with the same letters that is a vector of elements.
fn of_elements(kind: u32) -> &'static [u8] {
    match kind {
        0 => b"dom(X)",
        1 => b"X*V",
        2 => b"-U",
        3 => b"U|Q*U",
        4 => b"ran(Q)",
        5 => b"point(U)",
        6 => b"-dom(-X)",
        7 => b"X*point(V)",
        8 => b"X^\\V",
        9 => b"X/V^",
        10 => b"syq(X^,V)",
        11 => b"(V^/X)^&U",
        12 => b"next(U)|init(U)",
        _ => b"(V^*-X^)^",
    }
}

/// A form with the same letters that is a relation on elements.
fn of_pairs(kind: u32) -> &'static [u8] {
    match kind {
        0 => b"Q|Q^",
        1 => b"-Q&Q*Q",
        2 => b"X*X^",
        3 => b"X/X",
        4 => b"syq(X^,X^)",
        5 => b"U*U^",
        6 => b"I(Q)|trans(Q)",
        _ => b"X*(V*U^)",
    }
}

/// A form with the same letters that is a test.
fn test(kind: u32) -> &'static [u8] {
    match kind {
        0 => b"empty(X)",
        1 => b"-empty(V)",
        2 => b"eq(X,X)",
        3 => b"-incl(X,X)",
        4 => b"incl(V,V)",
        5 => b"-eq(V,V)",
        6 => b"unival(X)",
        7 => b"-unival(X^)",
        8 => b"-unival(V^)",
        _ => b"incl(U,U)&-eq(Q,Q)",
    }
}

/// A form with the same letters for a result. Most have the pairs that exactly one of two relations has.
fn result(kind: u32) -> &'static [u8] {
    match kind {
        0 => b"X*inj(V)^",
        1 => b"inj(V)*(X^&-V*U^|-X^&V*U^)",
        2 => b"inj(U)*(X&-U*V^|-X&U*V^)",
        3 => b"V&-X^*U|-V&X^*U",
        4 => b"U&-X*V|-U&X*V",
        5 => b"atom(X)",
        6 => b"[U,X]",
        _ => b"X&-U*V^|-X&U*V^",
    }
}

/// A random form in place of a letter. Forms with relations between subsets are among them only if `is_wide`.
fn form(draws: &mut Draws, letter: u8, is_wide: bool) -> &'static [u8] {
    match letter {
        b'X' => of_both(draws.below(16)),
        b'V' => of_subsets(draws.below(if is_wide { ALL } else { NARROW })),
        b'U' => of_elements(draws.below(14)),
        _ => of_pairs(draws.below(8)),
    }
}

/// A random variable or parameter in place of a letter.
fn name(draws: &mut Draws, letter: u8) -> &'static [u8] {
    match (letter, draws.below(3)) {
        (b'X', 0) => b"e",
        (b'X', 1) => b"x",
        (b'X', _) => b"T",
        (b'V', 0) => b"v",
        (b'V', 1) => b"w",
        (b'V', _) => b"F",
        (b'U', 0) => b"G",
        (b'U', _) => b"u",
        (_, 0) => b"A",
        _ => b"B",
    }
}

/// Whether a byte is a letter of a form.
fn is_letter(byte: u8) -> bool {
    byte == b'X' || byte == b'V' || byte == b'U' || byte == b'Q'
}

/// A form in which about a third of the letters are replaced by random forms.
fn grown(rt: &impl Abort, alloc: Global, draws: &mut Draws, of: &[u8], is_wide: bool) -> Vec<u8> {
    let mut text = Vec::new(alloc);
    'bytes: for byte in of {
        if is_letter(*byte) && draws.below(3) == 0 {
            append(rt, &mut text, b"(");
            append(rt, &mut text, form(draws, *byte, is_wide));
            append(rt, &mut text, b")");
        } else {
            append(rt, &mut text, &[*byte]);
        }
    }
    text
}

/// Appends a form, with random forms nested in it, and with names in place of the letters that are left.
fn append_form(
    rt: &impl Abort,
    alloc: Global,
    text: &mut Vec<u8>,
    draws: &mut Draws,
    of: &[u8],
    is_wide: bool,
) {
    let once = grown(rt, alloc, draws, of, is_wide);
    let twice = grown(rt, alloc, draws, once.as_slice(), is_wide);
    'bytes: for byte in twice.as_slice() {
        if is_letter(*byte) {
            append(rt, text, name(draws, *byte));
        } else {
            append(rt, text, &[*byte]);
        }
    }
}

/// Appends an assignment: its beginning, and a random form in place of a letter.
fn append_set(
    rt: &impl Abort,
    alloc: Global,
    text: &mut Vec<u8>,
    draws: &mut Draws,
    start: &[u8],
    letter: u8,
    is_wide: bool,
) {
    append(rt, text, start);
    let of = form(draws, letter, is_wide);
    append_form(rt, alloc, text, draws, of, is_wide);
}

/// Appends random assignments to all variables except `e`.
fn append_sets(
    rt: &impl Abort,
    alloc: Global,
    text: &mut Vec<u8>,
    draws: &mut Draws,
    is_wide: bool,
) {
    append_set(rt, alloc, text, draws, b" x = ", b'X', is_wide);
    append_set(rt, alloc, text, draws, b"; v = ", b'V', is_wide);
    append_set(rt, alloc, text, draws, b"; u = ", b'U', is_wide);
    append_set(rt, alloc, text, draws, b"; w = ", b'V', is_wide);
}

/// Appends the program P: a membership, a loop with at most one turn for each element, and an IF.
fn append_program(
    rt: &impl Abort,
    alloc: Global,
    text: &mut Vec<u8>,
    draws: &mut Draws,
    is_wide: bool,
) {
    append(
        rt,
        text,
        b"P(A,B,T,F,G) DECL e, x, v, w, u, p BEG e = epsi(Ln1(A)); ",
    );
    append(rt, text, b"x = T; v = F; w = -ran(e); u = G; p = init(G);");
    append_sets(rt, alloc, text, draws, is_wide);
    append(rt, text, b"; WHILE -empty(p)&");
    let of = test(draws.below(10));
    append_form(rt, alloc, text, draws, of, is_wide);
    append(rt, text, b" DO");
    append_sets(rt, alloc, text, draws, is_wide);
    append(rt, text, b"; p = next(p) OD; IF ");
    let of = test(draws.below(10));
    append_form(rt, alloc, text, draws, of, is_wide);
    append(rt, text, b" THEN");
    append_sets(rt, alloc, text, draws, is_wide);
    append(rt, text, b" FI RETURN ");
    let of = result(draws.below(12));
    append_form(rt, alloc, text, draws, of, is_wide);
    append(rt, text, b" END. ");
}

/// The script of a seed: a program over some elements and their subsets, relations and vectors of these, and what it
/// computes from them. It has relations between subsets only if `is_wide`.
pub(crate) fn script(
    rt: &impl Abort,
    alloc: Global,
    seed: u64,
    sizes: (u32, u32),
    is_wide: bool,
) -> Vec<u8> {
    let (elements, subsets) = sizes;
    let mut draws = Draws::of(seed);
    let mut text = Vec::new(alloc);
    append_program(rt, alloc, &mut text, &mut draws, is_wide);
    append_relation(
        rt,
        alloc,
        &mut text,
        &mut draws,
        b'A',
        (elements, elements),
        3,
    );
    append_relation(
        rt,
        alloc,
        &mut text,
        &mut draws,
        b'B',
        (elements, elements),
        4,
    );
    append_relation(rt, alloc, &mut text, &mut draws, b'T', sizes, 3);
    append_relation(rt, alloc, &mut text, &mut draws, b'F', (subsets, 1), 3);
    append_relation(rt, alloc, &mut text, &mut draws, b'G', (elements, 1), 2);
    append(rt, &mut text, b"LIST P(A,B,T,F,G). COUNT P(B,A,-T,-F,-G).");
    text
}
