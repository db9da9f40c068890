//! Files of several relations answered by the six tests of the format, one after another.
//!
//! This is slow, and computed in another way: each quadrant has the list of its cells and the list of its visits, and
//! lists are searched from the first entry to the last.
use crate::entry::Entry;
use crate::made::put;
use crate::slow::{height_of, number};
use run_model::outcome::BadFile;
use std::alloc::Global;
use std::process::Abort;

/// A square by its number: its height, the numbers of its quarters, its cells, and what a visit to it lists.
#[derive(Drop)]
struct Square {
    height: u64,
    quarters: [u64; 4],
    cells: Vec<(u64, u64)>,
    visits: Vec<u64>,
}

/// A named relation without its pairs: the number of its square, and where its bytes end.
#[derive(Drop)]
struct Root {
    name: Vec<u8>,
    rows: u64,
    cols: u64,
    square: u64,
    end: u64,
}

/// A square of height 0 with these cells.
fn lowest(alloc: Global, cells: Vec<(u64, u64)>) -> Square {
    Square {
        height: 0,
        quarters: [0; 4],
        cells,
        visits: Vec::new(alloc),
    }
}

/// The numbers 0 and 1: the empty square, and the cell.
fn numbers_below_2(rt: &impl Abort, alloc: Global) -> Vec<Square> {
    let mut cell = Vec::new(alloc);
    put(rt, &mut cell, (0, 0));
    let mut squares = Vec::new(alloc);
    put(rt, &mut squares, lowest(alloc, Vec::new(alloc)));
    put(rt, &mut squares, lowest(alloc, cell));
    squares
}

/// One more than the height of the quarters other than 0. None if there is no such quarter, if one has no number yet,
/// or if two have different heights.
fn height_over(squares: &[Square], quarters: [u64; 4]) -> Option<u64> {
    let mut height = None;
    'quarters: for quarter in quarters {
        let square = squares.get(quarter as usize)?;
        let over = square.height.wrapping_add(1);
        if quarter == 0 || height == Some(over) {
            continue 'quarters;
        }
        if height.is_some() {
            return None;
        }
        height = Some(over);
    }
    height
}

/// Whether a listed quadrant has these quarters.
fn is_listed(squares: &[Square], quarters: [u64; 4]) -> bool {
    'squares: for square in squares {
        if square.quarters == quarters {
            return true;
        }
    }
    false
}

/// Appends the cells of a quarter that begins at a row and a column.
fn put_cells(
    rt: &impl Abort,
    cells: &mut Vec<(u64, u64)>,
    quarter: &[(u64, u64)],
    row: u64,
    col: u64,
) {
    'cells: for cell in quarter {
        let moved = (row.wrapping_add(cell.0), col.wrapping_add(cell.1));
        put(rt, cells, moved);
    }
}

/// Appends a number, unless it is in the list.
fn put_once(rt: &impl Abort, list: &mut Vec<u64>, number: u64) {
    'numbers: for other in list.as_slice() {
        if *other == number {
            return;
        }
    }
    put(rt, list, number);
}

/// Appends those numbers that are not in the list.
fn put_all_once(rt: &impl Abort, list: &mut Vec<u64>, numbers: &[u64]) {
    'numbers: for number in numbers {
        put_once(rt, list, *number);
    }
}

/// The side of a square of a height.
fn side_of(height: u64) -> u64 {
    let mut side: u64 = 1;
    'heights: for _ in 0..height {
        side = side.wrapping_mul(2);
    }
    side
}

/// The quadrant with these quarters and this height, from the squares of its quarters.
fn quadrant(
    rt: &impl Abort,
    alloc: Global,
    squares: &[Square],
    quarters: [u64; 4],
    height: u64,
) -> Square {
    let side = side_of(height.wrapping_sub(1));
    let mut cells = Vec::new(alloc);
    let mut visits = Vec::new(alloc);
    let own = squares.len() as u64;
    let mut place: u64 = 0;
    'quarters: for quarter in quarters {
        let Some(square) = squares.get(quarter as usize) else {
            panic!(rt; "no such quarter")
        };
        let (row, col) = (side.wrapping_mul(place / 2), side.wrapping_mul(place % 2));
        put_cells(rt, &mut cells, square.cells.as_slice(), row, col);
        put_all_once(rt, &mut visits, square.visits.as_slice());
        place = place.wrapping_add(1);
    }
    put(rt, &mut visits, own);
    Square {
        height,
        quarters,
        cells,
        visits,
    }
}

/// The squares of all numbers, or the first invalid quadrant.
fn squares_of(
    rt: &impl Abort,
    alloc: Global,
    bytes: &[u8],
    count: u64,
) -> Result<Vec<Square>, BadFile> {
    let mut squares = numbers_below_2(rt, alloc);
    'quadrants: for i in 0..count {
        let from = i.wrapping_mul(16).wrapping_add(12);
        let quarters = [
            number(bytes, from, 4),
            number(bytes, from.wrapping_add(4), 4),
            number(bytes, from.wrapping_add(8), 4),
            number(bytes, from.wrapping_add(12), 4),
        ];
        let at = i.wrapping_add(2);
        let Some(height) = height_over(squares.as_slice(), quarters) else {
            return Err(BadFile::Quad { at });
        };
        if height > 24 || is_listed(squares.as_slice(), quarters) {
            return Err(BadFile::Quad { at });
        }
        let square = quadrant(rt, alloc, squares.as_slice(), quarters, height);
        put(rt, &mut squares, square);
    }
    Ok(squares)
}

/// Whether a name is a letter and then letters, digits and underscores.
fn is_word(name: &[u8]) -> bool {
    'bytes: for i in 0..name.len() {
        let byte = name[i];
        let is_inner = byte.is_ascii_digit() || byte == b'_';
        if !byte.is_ascii_alphabetic() && (i == 0 || !is_inner) {
            return false;
        }
    }
    true
}

/// Whether a name comes before another by its bytes.
fn is_before(name: &[u8], other: &[u8]) -> bool {
    'bytes: for i in 0..other.len() {
        let Some(byte) = name.get(i) else {
            return true;
        };
        if *byte != other[i] {
            return *byte < other[i];
        }
    }
    false
}

/// The named relation at a place of the bytes, after another one, or the first test that it fails among those of its
/// lengths and of its name.
fn root_at(
    rt: &impl Abort,
    alloc: Global,
    bytes: &[u8],
    place: u64,
    last: Option<&Root>,
    at: u64,
) -> Result<Root, BadFile> {
    let Some(length) = bytes.get(place as usize).copied() else {
        return Err(BadFile::Short);
    };
    if length == 0 || length > 64 {
        return Err(BadFile::Names { at });
    }
    let sizes = place.wrapping_add(1).wrapping_add(u64::from(length));
    let end = sizes.wrapping_add(12);
    if (bytes.len() as u64) < end {
        return Err(BadFile::Short);
    }
    let name = bytes_between(rt, alloc, bytes, place.wrapping_add(1), sizes);
    let is_behind = match last {
        Some(other) => is_before(other.name.as_slice(), name.as_slice()),
        None => true,
    };
    if !is_word(name.as_slice()) || !is_behind {
        return Err(BadFile::Names { at });
    }
    Ok(Root {
        name,
        rows: number(bytes, sizes, 4),
        cols: number(bytes, sizes.wrapping_add(4), 4),
        square: number(bytes, sizes.wrapping_add(8), 4),
        end,
    })
}

/// The bytes from a place up to another.
fn bytes_between(rt: &impl Abort, alloc: Global, bytes: &[u8], from: u64, to: u64) -> Vec<u8> {
    let mut out = Vec::new(alloc);
    'bytes: for i in from..to {
        if let Some(byte) = bytes.get(i as usize) {
            put(rt, &mut out, *byte);
        }
    }
    out
}

/// The first test that it fails among the other three of a named relation.
fn root_fault(squares: &[Square], root: &Root, at: u64) -> Option<BadFile> {
    if root.rows > 16_777_216 || root.cols > 16_777_216 {
        return Some(BadFile::Sizes);
    }
    let Some(square) = squares.get(root.square as usize) else {
        return Some(BadFile::Root { at });
    };
    if root.square != 0 && square.height != height_of(root.rows, root.cols) {
        return Some(BadFile::Root { at });
    }
    'cells: for cell in square.cells.as_slice() {
        if root.rows <= cell.0 || root.cols <= cell.1 {
            return Some(BadFile::Outside { at });
        }
    }
    None
}

/// A number of named relations from a place on, or the first test that they fail.
fn roots_of(
    rt: &impl Abort,
    alloc: Global,
    bytes: &[u8],
    from: u64,
    count: u64,
    squares: &[Square],
) -> Result<Vec<Root>, BadFile> {
    let mut roots: Vec<Root> = Vec::new(alloc);
    let mut place = from;
    'roots: for at in 0..count {
        let root = root_at(rt, alloc, bytes, place, roots.as_slice().last(), at)?;
        if let Some(fault) = root_fault(squares, &root, at) {
            return Err(fault);
        }
        place = root.end;
        put(rt, &mut roots, root);
    }
    Ok(roots)
}

/// The least number that is not at its place in the visits from the roots.
fn out_of_order(
    rt: &impl Abort,
    alloc: Global,
    squares: &[Square],
    roots: &[Root],
    count: u64,
) -> Option<u64> {
    let mut list = Vec::new(alloc);
    'roots: for root in roots {
        if let Some(square) = squares.get(root.square as usize) {
            put_all_once(rt, &mut list, square.visits.as_slice());
        }
    }
    'places: for place in 0..count {
        let wanted = place.wrapping_add(2);
        if list.get(place as usize).copied() != Some(wanted) {
            return Some(wanted);
        }
    }
    None
}

/// A named relation whose pairs are the cells of its square.
fn entry_told(rt: &impl Abort, alloc: Global, squares: &[Square], root: Root) -> Entry {
    let mut pairs = Vec::new(alloc);
    if let Some(square) = squares.get(root.square as usize) {
        'cells: for cell in square.cells.as_slice() {
            let row = u32::try_from(cell.0).unwrap_or(0);
            put(rt, &mut pairs, (row, u32::try_from(cell.1).unwrap_or(0)));
        }
    }
    Entry {
        rows: u32::try_from(root.rows).unwrap_or(0),
        cols: u32::try_from(root.cols).unwrap_or(0),
        name: root.name,
        pairs,
    }
}

/// The fault of a file's header, given the number of quadrants that it announces.
fn header_fault(bytes: &[u8], count: u64) -> Option<BadFile> {
    if bytes.len() < 4 || number(bytes, 0, 4) != 0x5256_4b32 {
        return Some(BadFile::Magic);
    }
    let length = bytes.len() as u64;
    if length < 12 || length < count.wrapping_mul(16).wrapping_add(12) {
        return Some(BadFile::Short);
    }
    None
}

/// The relations in the bytes of a file, or the first of the six tests that they fail.
pub(crate) fn entries_answered(
    rt: &impl Abort,
    alloc: Global,
    bytes: &[u8],
) -> Result<Vec<Entry>, BadFile> {
    let count = number(bytes, 4, 4);
    if let Some(fault) = header_fault(bytes, count) {
        return Err(fault);
    }
    let squares = squares_of(rt, alloc, bytes, count)?;
    let squares = squares.as_slice();
    let from = count.wrapping_mul(16).wrapping_add(12);
    let roots = roots_of(rt, alloc, bytes, from, number(bytes, 8, 4), squares)?;
    if let Some(at) = out_of_order(rt, alloc, squares, roots.as_slice(), count) {
        return Err(BadFile::Order { at });
    }
    let end = match roots.as_slice().last() {
        Some(root) => root.end,
        None => from,
    };
    if bytes.len() as u64 != end {
        return Err(BadFile::Rest);
    }
    let mut entries = Vec::new(alloc);
    'roots: for root in roots {
        let entry = entry_told(rt, alloc, squares, root);
        put(rt, &mut entries, entry);
    }
    Ok(entries)
}
