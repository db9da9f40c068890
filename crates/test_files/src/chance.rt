//! Random numbers, pairs and files, the same in each run.
ghost use Rattle.std.specs.Prelude.{◌<◌, ◌≤◌};

use crate::made::put;
use std::alloc::Global;
use std::process::Abort;

/// Pseudo-random numbers (Knuth's MMIX).
#[derive(Drop)]
pub(crate) struct Chance {
    pub(crate) state: u64,
}

impl Chance {
    /// The next number below a bound.
    pub(crate) fn below(&mut self, bound: u32) -> u32
        requires { 0 < bound }
        ensures { result < bound }
    {
        self.state = self
            .state
            .wrapping_mul(6364136223846793005)
            .wrapping_add(1442695040888963407);
        ((self.state >> 33) % u64::from(bound)) as u32
    }

    /// Whether an event that happens once in `times` times happens.
    pub(crate) fn is_once_in(&mut self, times: u32) -> bool
        requires { 0 < times }
    {
        self.below(times) == 0
    }

    /// The next byte.
    fn byte(&mut self) -> u8 {
        self.below(256) as u8
    }
}

/// A number of random pairs within the sizes.
pub(crate) fn pairs_within(
    rt: &impl Abort,
    alloc: Global,
    chance: &mut Chance,
    rows: u32,
    cols: u32,
    count: u32,
) -> Vec<(u32, u32)> {
    assert!(rt; 0 < rows && 0 < cols);
    let mut pairs = Vec::new(alloc);
    'pairs: for _ in 0..count {
        let pair = (chance.below(rows), chance.below(cols));
        put(rt, &mut pairs, pair);
    }
    pairs
}

/// Fewer than 64 random bytes, which may begin like a relation file.
pub(crate) fn bytes_by_chance(
    rt: &impl Abort,
    alloc: Global,
    chance: &mut Chance,
    is_named: bool,
) -> Vec<u8> {
    let mut out = Vec::new(alloc);
    if is_named {
        put_name(rt, &mut out);
    }
    'bytes: for _ in 0..chance.below(60) {
        let byte = chance.byte();
        put(rt, &mut out, byte);
    }
    out
}

/// Appends the name of the format.
fn put_name(rt: &impl Abort, out: &mut Vec<u8>) {
    'letters: for letter in [82u8, 86, 75, 49] {
        put(rt, out, letter);
    }
}

/// The side of a square of a height; often a smaller number.
fn size(chance: &mut Chance, height: u32) -> u32
    requires { height ≤ 4 }
{
    let side = 1u32 << height;
    if chance.is_once_in(4) {
        chance.below(side + 1)
    } else {
        side
    }
}

/// Appends a number of groups of four bits, and answers how many of their bits are set. Few groups have none.
fn put_groups(rt: &impl Abort, chance: &mut Chance, bits: &mut Vec<bool>, groups: u32) -> u32 {
    let mut found: u32 = 0;
    'groups: for _ in 0..groups {
        let group = if chance.is_once_in(64) {
            0
        } else {
            1 + chance.below(15)
        };
        'places: for place in 0..4u32 {
            let is_set = (group >> place) & 1 == 1;
            if is_set {
                found = found.wrapping_add(1);
            }
            put(rt, bits, is_set);
        }
    }
    found
}

/// A number; seldom another near it.
fn maybe_changed(chance: &mut Chance, number: u64) -> u64 {
    if chance.is_once_in(24) {
        number ^ u64::from(1 + chance.below(31))
    } else {
        number
    }
}

/// Appends the lowest `count` bytes of a number, most significant first.
pub(crate) fn put_number(rt: &impl Abort, out: &mut Vec<u8>, number: u64, count: u32)
    requires { count ≤ 8 }
{
    'bytes: for i in 0..count {
        let byte = (number >> (8 * (count - 1 - i))) % 256;
        put(rt, out, byte as u8);
    }
}

/// Appends bits as bytes, the first bit highest; seldom sets the last bit of the last byte.
fn put_bits(rt: &impl Abort, chance: &mut Chance, out: &mut Vec<u8>, bits: &[bool]) {
    let mut byte: u8 = 0;
    let mut held: u32 = 0;
    'bits: for bit in bits {
        byte = byte.wrapping_mul(2).wrapping_add(u8::from(*bit));
        held = held.wrapping_add(1);
        if held == 8 {
            put(rt, out, byte);
            byte = 0;
            held = 0;
        }
    }
    if held != 0 {
        'rest: for _ in held..8 {
            byte = byte.wrapping_mul(2);
        }
        if chance.is_once_in(24) {
            byte |= 1;
        }
        put(rt, out, byte);
    }
}

/// Appends a header with these numbers, few of which are changed, for a height up to 4.
fn put_header(
    rt: &impl Abort,
    chance: &mut Chance,
    out: &mut Vec<u8>,
    height: u32,
    tree: u64,
    cells: u64,
)
    requires { height ≤ 4 }
{
    put_name(rt, out);
    let rows = size(chance, height);
    let cols = size(chance, height);
    put_number(rt, out, u64::from(rows), 4);
    put_number(rt, out, u64::from(cols), 4);
    put_number(rt, out, maybe_changed(chance, u64::from(height)), 1);
    put_number(rt, out, maybe_changed(chance, tree), 8);
    put_number(rt, out, maybe_changed(chance, cells), 8);
}

/// A random file of a height up to 4, few parts of which are not as they should be.
pub(crate) fn file_by_chance(rt: &impl Abort, alloc: Global, chance: &mut Chance) -> Vec<u8> {
    let height = 1 + chance.below(4);
    let mut tree = Vec::new(alloc);
    let mut groups = if chance.is_once_in(16) { 0 } else { 1 };
    'levels: for _ in 1..height {
        groups = put_groups(rt, chance, &mut tree, groups);
    }
    let mut cells = Vec::new(alloc);
    put_groups(rt, chance, &mut cells, groups);
    let mut out = Vec::new(alloc);
    let (tree_count, cell_count) = (tree.len() as u64, cells.len() as u64);
    put_header(rt, chance, &mut out, height, tree_count, cell_count);
    put_bits(rt, chance, &mut out, tree.as_slice());
    put_bits(rt, chance, &mut out, cells.as_slice());
    if chance.is_once_in(24) {
        put(rt, &mut out, 0);
    }
    if chance.is_once_in(24) {
        let _ = out.pop();
    }
    out
}
