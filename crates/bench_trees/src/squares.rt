//! Squares made cell by cell, for the operators that are measured.
ghost use Rattle.std.specs.Prelude.{◌≡◌, ◌<◌, ◌≤◌, ◌+◌, IfOk};
ghost use Rattle.rel_model.specs.Trees.{bottom_height, top_height};
ghost use Rattle.rel_model.specs.Quads.{Keeper, IsKeeper, QuadStands};
ghost use Rattle.bench_trees.specs.Holding.{Holds, Made};

use crate::chance::next;
use pair_table::Missed;
use quad_nodes::{Nodes, side_of_height};
use rel_model::Quad;

/// Which cells a square has.
#[derive(Clone, Copy)]
pub enum Kind {
    /// Each cell at random, with a chance of this many in a thousand.
    Thousandths(u64),
    /// Each cell at random, with a chance of this many in a million.
    Millionths(u64),
    /// Each row has the next column, and the last row has the first.
    Cycle,
    /// Each row has all columns after its own number.
    Less,
    /// Each row has the columns of its block of 32.
    Blocks,
    /// Each row has the columns of its own parity.
    Parity,
}

/// Whether a square of a side has a cell.
fn has(kind: Kind, side: u64, row: u64, col: u64, state: u64) -> bool {
    match kind {
        Kind::Thousandths(chance) => (state >> 33) % 1000 < chance,
        Kind::Millionths(chance) => (state >> 33) % 1_000_000 < chance,
        Kind::Cycle => {
            let after = row.wrapping_add(1);
            col == after || (after == side && col == 0)
        }
        Kind::Less => row < col,
        Kind::Blocks => row / 32 == col / 32,
        Kind::Parity => row % 2 == col % 2,
    }
}

/// A block of a square of a side, from a row and a column on, and the state of the generator after it.
fn block_of(kind: Kind, side: u64, row: u64, col: u64, seed: u64) -> (u64, u64) {
    let mut state = seed;
    let mut bits: u64 = 0;
    'cells: for t in 0..64_u64 {
        let cell = 63_u64.wrapping_sub(t);
        state = next(state);
        bits = bits.wrapping_mul(2);
        let i = row.wrapping_add(cell / 8);
        let j = col.wrapping_add(cell % 8);
        if has(kind, side, i, j, state) {
            bits = bits.wrapping_add(1);
        }
    }
    (bits, state)
}

/// A part of a square of a side, and the state of the generator after it.
#[cycle(making)]
fn quad_of(
    nodes: &mut Nodes,
    kind: Kind,
    side: u64,
    height: u8,
    place: (u64, u64),
    seed: u64,
) -> Result<(Quad, u64), Missed>
    requires low { bottom_height ≤ height }
    requires high { height ≤ top_height }
    requires work { IsKeeper nodes.old }
    ensures made { IfOk result (λ x. Made nodes.new height x.0) }
    ensures holds { Holds nodes.old nodes.new }
{
    let bottom = nodes.bottom();
    if height == bottom {
        let (bits, state) = block_of(kind, side, place.0, place.1, seed);
        return match nodes.block(bits) {
            Ok(quad) => Ok((quad, state)),
            Err(missed) => Err(missed),
        };
    }
    let half = u64::from(side_of_height(height - 1));
    let south = place.0.wrapping_add(half);
    let east = place.1.wrapping_add(half);
    let (nw, state) = quad_of(nodes, kind, side, height - 1, place, seed)?;
    let (ne, state) = quad_of(nodes, kind, side, height - 1, (place.0, east), state)?;
    let (sw, state) = quad_of(nodes, kind, side, height - 1, (south, place.1), state)?;
    let (se, state) = quad_of(nodes, kind, side, height - 1, (south, east), state)?;
    match nodes.corner(nw, ne, sw, se) {
        Ok(quad) => Ok((quad, state)),
        Err(missed) => Err(missed),
    }
}

/// A square of a height, and the state of the generator after it.
pub fn square_of(
    nodes: &mut Nodes,
    kind: Kind,
    height: u8,
    seed: u64,
) -> Result<(Quad, u64), Missed>
    requires low { bottom_height ≤ height }
    requires high { height ≤ top_height }
    requires work { IsKeeper nodes.old }
    ensures made { IfOk result (λ x. Made nodes.new height x.0) }
    ensures holds { Holds nodes.old nodes.new }
{
    let side = u64::from(side_of_height(height));
    quad_of(nodes, kind, side, height, (0, 0), seed)
}

/// The name of a result; 0 if there is none.
pub fn name_of(found: Result<Quad, Missed>) -> u32 {
    match found {
        Ok(quad) => quad.name,
        Err(_) => 0,
    }
}
