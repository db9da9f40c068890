//! Files of several relations made from the definition of visits, over lists of codes.
//!
//! The code of a pair interleaves the bits of its row and its column, with the row's bit first. So increasing codes go
//! through the quarters of every square in order, the pairs of a square are adjacent, and a visit ends at the last pair
//! of its square.
use crate::chance::put_number;
use crate::entry::Entry;
use crate::made::put;
use crate::slow::height_of;
use std::alloc::Global;
use std::process::Abort;

/// A listed square: its height, the codes of its pairs, and the numbers of its quarters.
#[derive(Drop)]
struct Square {
    height: u32,
    codes: Vec<u64>,
    quarters: Vec<u64>,
}

/// The code of a pair.
fn code_of(row: u32, col: u32) -> u64 {
    let mut code: u64 = 0;
    'bits: for i in 0..24u32 {
        let (down, right) = ((row >> (23 - i)) % 2, (col >> (23 - i)) % 2);
        code = code
            .wrapping_mul(4)
            .wrapping_add(u64::from(down).wrapping_mul(2))
            .wrapping_add(u64::from(right));
    }
    code
}

/// The codes of pairs in increasing order, each once.
fn codes_of(rt: &impl Abort, alloc: Global, pairs: &[(u32, u32)]) -> Vec<u64> {
    let mut codes = Vec::new(alloc);
    'pairs: for pair in pairs {
        put(rt, &mut codes, code_of(pair.0, pair.1));
    }
    if codes.sort().is_err() {
        panic!(rt; "no memory");
    }
    let mut once = Vec::new(alloc);
    let mut last = None;
    'codes: for code in codes {
        if last != Some(code) {
            put(rt, &mut once, code);
            last = Some(code);
        }
    }
    once
}

/// The number of the square of a height that contains a code.
fn square_of(code: u64, height: u32) -> u64 {
    if height < 32 { code >> (2 * height) } else { 0 }
}

/// The codes in a square of a height, relative to that square.
fn codes_in(rt: &impl Abort, alloc: Global, codes: &[u64], height: u32, square: u64) -> Vec<u64> {
    let mut within = Vec::new(alloc);
    let pairs = if height < 32 { 1u64 << (2 * height) } else { 0 };
    'codes: for code in codes {
        if square_of(*code, height) == square {
            put(
                rt,
                &mut within,
                code.wrapping_sub(square.wrapping_mul(pairs)),
            );
        }
    }
    within
}

/// The number of a square: 0 without a pair, 1 for the cell, and otherwise its place in the list, from 2 on; also 0 if
/// it is not listed.
fn number_of(squares: &[Square], height: u32, codes: &[u64]) -> u64 {
    if codes.is_empty() {
        return 0;
    }
    if height == 0 {
        return 1;
    }
    let mut number: u64 = 2;
    'squares: for square in squares {
        if square.height == height && square.codes.as_slice() == codes {
            return number;
        }
        number = number.wrapping_add(1);
    }
    0
}

/// Lists a square of a height, unless it is listed.
fn list_square(
    rt: &impl Abort,
    alloc: Global,
    squares: &mut Vec<Square>,
    height: u32,
    codes: Vec<u64>,
) {
    if number_of(squares.as_slice(), height, codes.as_slice()) != 0 {
        return;
    }
    let below = height.wrapping_sub(1);
    let mut quarters = Vec::new(alloc);
    'quarters: for quarter in 0..4u64 {
        let within = codes_in(rt, alloc, codes.as_slice(), below, quarter);
        let number = number_of(squares.as_slice(), below, within.as_slice());
        put(rt, &mut quarters, number);
    }
    let square = Square {
        height,
        codes,
        quarters,
    };
    put(rt, squares, square);
}

/// Visits the square of a height with these codes: each smaller square is listed after its last code.
fn visit(rt: &impl Abort, alloc: Global, squares: &mut Vec<Square>, codes: &[u64], top: u32) {
    'codes: for i in 0..codes.len() {
        let code = codes[i];
        let next = codes.get(i + 1).copied();
        'heights: for below in 0..top {
            let height = below + 1;
            let square = square_of(code, height);
            if next.is_some() && square_of(next.unwrap_or(0), height) == square {
                continue 'codes;
            }
            let within = codes_in(rt, alloc, codes, height, square);
            list_square(rt, alloc, squares, height, within);
        }
    }
}

/// Appends the bytes of a named relation, given the number of its square.
fn put_entry(rt: &impl Abort, out: &mut Vec<u8>, entry: &Entry, number: u64) {
    put_number(rt, out, entry.name.len() as u64, 1);
    'bytes: for byte in entry.name.as_slice() {
        put(rt, out, *byte);
    }
    put_number(rt, out, u64::from(entry.rows), 4);
    put_number(rt, out, u64::from(entry.cols), 4);
    put_number(rt, out, number, 4);
}

/// Appends the header and the listed squares.
fn put_squares(rt: &impl Abort, out: &mut Vec<u8>, squares: &[Square], count: u64) {
    'letters: for letter in [82u8, 86, 75, 50] {
        put(rt, out, letter);
    }
    put_number(rt, out, squares.len() as u64, 4);
    put_number(rt, out, count, 4);
    'squares: for square in squares {
        'quarters: for number in square.quarters.as_slice() {
            put_number(rt, out, *number, 4);
        }
    }
}

/// The file of named relations.
pub(crate) fn file_of(rt: &impl Abort, alloc: Global, entries: &[Entry]) -> Vec<u8> {
    let mut squares = Vec::new(alloc);
    let mut listed = Vec::new(alloc);
    'entries: for entry in entries {
        let codes = codes_of(rt, alloc, entry.pairs.as_slice());
        let height = height_of(u64::from(entry.rows), u64::from(entry.cols));
        let height = u32::try_from(height).unwrap_or(0);
        visit(rt, alloc, &mut squares, codes.as_slice(), height);
        let number = number_of(squares.as_slice(), height, codes.as_slice());
        put_entry(rt, &mut listed, entry, number);
    }
    let mut out = Vec::new(alloc);
    put_squares(rt, &mut out, squares.as_slice(), entries.len() as u64);
    'bytes: for byte in listed {
        put(rt, &mut out, byte);
    }
    out
}
