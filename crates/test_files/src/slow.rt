//! Relation files answered by the ten tests of the format, one after another, over a list of bits.
//!
//! This is slow, and computed in another way: the row and the column of a cell are found by climbing from its bit up to
//! the whole matrix.
use crate::made::put;
use run_model::outcome::BadFile;
use std::alloc::Global;
use std::process::Abort;

/// The sizes of a relation, and its pairs.
#[derive(Drop)]
pub(crate) struct Told {
    pub(crate) rows: u32,
    pub(crate) cols: u32,
    pub(crate) pairs: Vec<(u32, u32)>,
}

/// The numbers of a header, and where the bits L begin and where the file ends.
#[derive(Clone, Copy)]
struct Fields {
    rows: u64,
    cols: u64,
    height: u64,
    tree: u64,
    cells: u64,
    cells_from: u64,
    end: u64,
}

/// The byte at a place; 0 after the end.
fn byte_at(bytes: &[u8], place: u64) -> u8 {
    bytes.get(place as usize).copied().unwrap_or(0)
}

/// The number in `count` bytes from a place on, most significant first.
pub(crate) fn number(bytes: &[u8], from: u64, count: u64) -> u64 {
    let mut value: u64 = 0;
    'bytes: for i in 0..count {
        let byte = u64::from(byte_at(bytes, from.wrapping_add(i)));
        value = value.wrapping_mul(256).wrapping_add(byte);
    }
    value
}

/// The bit at a place, counted from a byte on, most significant of each byte first.
fn bit_at(bytes: &[u8], from: u64, place: u64) -> bool {
    let byte = byte_at(bytes, from.wrapping_add(place / 8));
    (byte >> ((7 - place % 8) as u32)) & 1 == 1
}

/// How many bytes hold this many bits.
fn bytes_for(bits: u64) -> u64 {
    if bits % 8 == 0 {
        bits / 8
    } else {
        bits / 8 + 1
    }
}

/// The least number, at least 1, such that 2 to this power is at least both sizes.
pub(crate) fn height_of(rows: u64, cols: u64) -> u64 {
    let mut side: u64 = 2;
    'heights: for height in 1..64u64 {
        if rows <= side && cols <= side {
            return height;
        }
        side = side.wrapping_mul(2);
    }
    64
}

/// The numbers at their places.
fn fields_of(bytes: &[u8]) -> Fields {
    let tree = number(bytes, 13, 8);
    let cells = number(bytes, 21, 8);
    let cells_from = 29u64.wrapping_add(bytes_for(tree));
    Fields {
        rows: number(bytes, 4, 4),
        cols: number(bytes, 8, 4),
        height: number(bytes, 12, 1),
        tree,
        cells,
        cells_from,
        end: cells_from.wrapping_add(bytes_for(cells)),
    }
}

/// The first of the five tests of the header that the bytes fail.
fn header_fault(bytes: &[u8], fields: Fields) -> Option<BadFile> {
    let length = bytes.len() as u64;
    if length < 29 {
        return Some(BadFile::Short);
    }
    if number(bytes, 0, 4) != 0x5256_4b31 {
        return Some(BadFile::Magic);
    }
    if 16_777_216 < fields.rows || 16_777_216 < fields.cols {
        return Some(BadFile::Sizes);
    }
    if fields.height != height_of(fields.rows, fields.cols) {
        return Some(BadFile::Height);
    }
    if length < fields.end {
        return Some(BadFile::Short);
    }
    None
}

/// The bits T, followed by the bits L.
fn bits_of(rt: &impl Abort, alloc: Global, bytes: &[u8], fields: Fields) -> Vec<bool> {
    let mut bits = Vec::new(alloc);
    'tree: for i in 0..fields.tree {
        put(rt, &mut bits, bit_at(bytes, 29, i));
    }
    'cells: for i in 0..fields.cells {
        put(rt, &mut bits, bit_at(bytes, fields.cells_from, i));
    }
    bits
}

/// Whether the bit at a place is set.
fn is_set(bits: &[bool], place: u64) -> bool {
    bits.get(place as usize).copied().unwrap_or(false)
}

/// How many bits are set from a place up to another.
fn ones(bits: &[bool], from: u64, to: u64) -> u64 {
    let mut found: u64 = 0;
    'places: for place in from..to {
        if is_set(bits, place) {
            found = found.wrapping_add(1);
        }
    }
    found
}

/// Whether all levels but the last consist of the bits T, and the last of the bits L.
fn lengths_fit(bits: &[bool], fields: Fields) -> bool {
    let mut groups: u64 = if fields.tree == 0 && fields.cells == 0 {
        0
    } else {
        1
    };
    let mut end: u64 = 0;
    'levels: for _ in 1..fields.height {
        let begin = end;
        end = begin.wrapping_add(groups.wrapping_mul(4));
        if fields.tree < end {
            return false;
        }
        groups = ones(bits, begin, end);
    }
    end == fields.tree && groups.wrapping_mul(4) == fields.cells
}

/// The first bit of the first group of four without a 1.
fn zero_group(bits: &[bool]) -> Option<u64> {
    'groups: for group in 0..bits.len() as u64 / 4 {
        let at = group.wrapping_mul(4);
        if ones(bits, at, at.wrapping_add(4)) == 0 {
            return Some(at);
        }
    }
    None
}

/// The places of the 1s in T: the k-th, counted from 0, is the parent of group number k + 1.
fn parents_of(rt: &impl Abort, alloc: Global, bits: &[bool], tree: u64) -> Vec<u64> {
    let mut places = Vec::new(alloc);
    'places: for place in 0..tree {
        if is_set(bits, place) {
            put(rt, &mut places, place);
        }
    }
    places
}

/// The row and the column of the bit at a place of L, by climbing from groups to their parents.
fn cell_of(parents: &[u64], bit: u64, height: u64) -> (u64, u64) {
    let mut place = bit;
    let mut side: u64 = 1;
    let mut row: u64 = 0;
    let mut col: u64 = 0;
    'levels: for _ in 0..height {
        row = row.wrapping_add(side.wrapping_mul(place % 4 / 2));
        col = col.wrapping_add(side.wrapping_mul(place % 2));
        side = side.wrapping_mul(2);
        let parent = (place / 4).wrapping_sub(1);
        place = parents.get(parent as usize).copied().unwrap_or(0);
    }
    (row, col)
}

/// The pairs for the 1s in L, or the first that lies outside the sizes.
fn pairs_of(
    rt: &impl Abort,
    alloc: Global,
    bits: &[bool],
    fields: Fields,
) -> Result<Vec<(u32, u32)>, BadFile> {
    let parents = parents_of(rt, alloc, bits, fields.tree);
    let mut pairs = Vec::new(alloc);
    'cells: for at in fields.tree..bits.len() as u64 {
        if is_set(bits, at) {
            let (row, col) = cell_of(parents.as_slice(), at, fields.height);
            if fields.rows <= row || fields.cols <= col {
                return Err(BadFile::Outside { at });
            }
            let pair = (
                u32::try_from(row).unwrap_or(0),
                u32::try_from(col).unwrap_or(0),
            );
            put(rt, &mut pairs, pair);
        }
    }
    Ok(pairs)
}

/// Whether a bit is set after this many bits, in the last of their bytes.
fn has_padding(bytes: &[u8], from: u64, count: u64) -> bool {
    'places: for place in count..bytes_for(count).wrapping_mul(8) {
        if bit_at(bytes, from, place) {
            return true;
        }
    }
    false
}

/// The first test of the numbers and groups of bits that the bytes fail.
fn bits_fault(bits: &[bool], fields: Fields) -> Option<BadFile> {
    if !lengths_fit(bits, fields) {
        return Some(BadFile::Lengths);
    }
    let at = zero_group(bits)?;
    Some(BadFile::ZeroGroup { at })
}

/// The first of the two tests of what follows the bits that the bytes fail.
fn end_fault(bytes: &[u8], fields: Fields) -> Option<BadFile> {
    if has_padding(bytes, 29, fields.tree) || has_padding(bytes, fields.cells_from, fields.cells) {
        return Some(BadFile::Padding);
    }
    if bytes.len() as u64 != fields.end {
        return Some(BadFile::Rest);
    }
    None
}

/// The pairs of a file whose header has no fault, or the first of the other five tests that it fails.
fn pairs_told(
    rt: &impl Abort,
    alloc: Global,
    bytes: &[u8],
    fields: Fields,
) -> Result<Vec<(u32, u32)>, BadFile> {
    let bits = bits_of(rt, alloc, bytes, fields);
    if let Some(fault) = bits_fault(bits.as_slice(), fields) {
        return Err(fault);
    }
    pairs_of(rt, alloc, bits.as_slice(), fields)
}

/// The relation in the bytes of a file, or the first of the ten tests that they fail.
pub(crate) fn answered(rt: &impl Abort, alloc: Global, bytes: &[u8]) -> Result<Told, BadFile> {
    let fields = fields_of(bytes);
    if let Some(fault) = header_fault(bytes, fields) {
        return Err(fault);
    }
    let pairs = pairs_told(rt, alloc, bytes, fields)?;
    if let Some(fault) = end_fault(bytes, fields) {
        return Err(fault);
    }
    Ok(Told {
        rows: u32::try_from(fields.rows).unwrap_or(0),
        cols: u32::try_from(fields.cols).unwrap_or(0),
        pairs,
    })
}
