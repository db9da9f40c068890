//! The visits of squares in post-order: the quarters, north-west, north-east, south-west and south-east, before the
//! square itself.
ghost use Rattle.std.specs.Prelude.{◌≡◌, ◌<◌, ◌≤◌, ◌+◌, ◌^◌, IfOk, IsTrue};
ghost use Rattle.rel_model.specs.Relation.{size_height};
ghost use Rattle.rel_model.specs.Worker.{Keeps, MakesAtMost, MissesNothing};
ghost use Rattle.k2_file.specs.declared.squares.Square.TheVariants.{Tree, Part};
ghost use Rattle.k2_file.specs.Squares.{IsWindow};
ghost use Rattle.k2_file.specs.Counts.{IsFull, IsFullPart};
ghost use Rattle.k2_write.specs.Visiting.{whole_leaf, square_pairs, part_pairs, Visited, VisitedTwo};

use crate::visits::{Quarters, Visits, listed};
use k2_file::sides::small_side;
use k2_file::squares::{Square, quarters_of};
use k2_file::windows::Window;
use rel_model::engine_trait::Engine;
use rel_model::{NoMemory, Quad};

/// Whether a window of a height is a whole leaf.
fn is_leaf(window: Window, height: u8) -> bool
    requires { IsWindow (2 ^ height) window }
    ensures { IsTrue result → window ≡ whole_leaf height window.bits }
{
    window.row == 0 && window.col == 0 && window.side == small_side(height)
}

/// Visits a square of a height, if it has a cell, and gives its number; 0 for an empty one.
#[cycle(visit)]
pub(crate) fn visit_part<E: Engine>(
    engine: &mut E,
    visits: &mut Visits,
    part: Option<Square>,
    height: u8,
) -> Result<u32, NoMemory>
    requires high { height ≤ size_height }
    requires full { IsFullPart (E.worker engine.old) E.least height part }
    ensures value { IfOk result (Visited (E.worker engine.old) (E.worker engine.new) E.least visits.old visits.new
        height (part_pairs (E.worker engine.old) height part)) }
    ensures keeps { Keeps (E.worker engine.old) (E.worker engine.new) }
    ensures room { MakesAtMost 0 (E.worker engine.old) (E.worker engine.new) }
    ensures misses { MissesNothing (E.worker engine.old) (E.worker engine.new) }
{
    match part {
        None => Ok(0),
        Some(square) => visit_square(engine, visits, square, height),
    }
}

/// Visits a square of a height, and gives its number.
#[cycle(visit)]
fn visit_square<E: Engine>(
    engine: &mut E,
    visits: &mut Visits,
    square: Square,
    height: u8,
) -> Result<u32, NoMemory>
    requires high { height ≤ size_height }
    requires full { IsFull (E.worker engine.old) E.least height square }
    ensures value { IfOk result (Visited (E.worker engine.old) (E.worker engine.new) E.least visits.old visits.new
        height (square_pairs (E.worker engine.old) height square)) }
    ensures keeps { Keeps (E.worker engine.old) (E.worker engine.new) }
    ensures room { MakesAtMost 0 (E.worker engine.old) (E.worker engine.new) }
    ensures misses { MissesNothing (E.worker engine.old) (E.worker engine.new) }
{
    if height == 0 {
        return Ok(1);
    }
    match square {
        Square::Tree(quad) => visit_quad(engine, visits, quad, height),
        Square::Part(window) => visit_window(engine, visits, window, height),
    }
}

/// The same for a quad above the leaves, whose quarters are visited once.
#[cycle(visit)]
fn visit_quad<E: Engine>(
    engine: &mut E,
    visits: &mut Visits,
    quad: Quad,
    height: u8,
) -> Result<u32, NoMemory>
    requires low { 1 ≤ height }
    requires high { height ≤ size_height }
    requires full { IsFull (E.worker engine.old) E.least height (Tree quad) }
    ensures value { IfOk result (Visited (E.worker engine.old) (E.worker engine.new) E.least visits.old visits.new
        height (square_pairs (E.worker engine.old) height (Tree quad))) }
    ensures keeps { Keeps (E.worker engine.old) (E.worker engine.new) }
    ensures room { MakesAtMost 0 (E.worker engine.old) (E.worker engine.new) }
    ensures misses { MissesNothing (E.worker engine.old) (E.worker engine.new) }
{
    if let Some(found) = visits.quads.get(&(height, quad.name)).copied() {
        return Ok(found);
    }
    let number = visit_quarters(engine, visits, Square::Tree(quad), height)?;
    visits.quads.insert((height, quad.name), number)?;
    Ok(number)
}

/// The same for a square within a leaf. The quarters of a whole leaf are visited once.
#[cycle(visit)]
fn visit_window<E: Engine>(
    engine: &mut E,
    visits: &mut Visits,
    window: Window,
    height: u8,
) -> Result<u32, NoMemory>
    requires low { 1 ≤ height }
    requires high { height ≤ size_height }
    requires full { IsFull (E.worker engine.old) E.least height (Part window) }
    ensures value { IfOk result (Visited (E.worker engine.old) (E.worker engine.new) E.least visits.old visits.new
        height (square_pairs (E.worker engine.old) height (Part window))) }
    ensures keeps { Keeps (E.worker engine.old) (E.worker engine.new) }
    ensures room { MakesAtMost 0 (E.worker engine.old) (E.worker engine.new) }
    ensures misses { MissesNothing (E.worker engine.old) (E.worker engine.new) }
{
    if !is_leaf(window, height) {
        return visit_quarters(engine, visits, Square::Part(window), height);
    }
    if let Some(found) = visits.leaves.get(&(height, window.bits)).copied() {
        return Ok(found);
    }
    let number = visit_quarters(engine, visits, Square::Part(window), height)?;
    visits.leaves.insert((height, window.bits), number)?;
    Ok(number)
}

/// The same by its quarters, after which it is listed.
#[cycle(visit)]
fn visit_quarters<E: Engine>(
    engine: &mut E,
    visits: &mut Visits,
    square: Square,
    height: u8,
) -> Result<u32, NoMemory>
    requires low { 1 ≤ height }
    requires high { height ≤ size_height }
    requires full { IsFull (E.worker engine.old) E.least height square }
    ensures value { IfOk result (Visited (E.worker engine.old) (E.worker engine.new) E.least visits.old visits.new
        height (square_pairs (E.worker engine.old) height square)) }
    ensures keeps { Keeps (E.worker engine.old) (E.worker engine.new) }
    ensures room { MakesAtMost 0 (E.worker engine.old) (E.worker engine.new) }
    ensures misses { MissesNothing (E.worker engine.old) (E.worker engine.new) }
{
    let below = height - 1;
    let (north_west, north_east, south_west, south_east) = quarters_of(engine, square, below);
    let (nw, ne) = visit_two(engine, visits, north_west, north_east, below)?;
    let (sw, se) = visit_two(engine, visits, south_west, south_east, below)?;
    let number = listed(&mut visits.squares, Quarters { nw, ne, sw, se })?;
    Ok(number)
}

/// Visits two squares of a height, west before east, and gives their numbers.
#[cycle(visit)]
fn visit_two<E: Engine>(
    engine: &mut E,
    visits: &mut Visits,
    west: Option<Square>,
    east: Option<Square>,
    height: u8,
) -> Result<(u32, u32), NoMemory>
    requires high { height ≤ size_height }
    requires west { IsFullPart (E.worker engine.old) E.least height west }
    requires east { IsFullPart (E.worker engine.old) E.least height east }
    ensures value { IfOk result (VisitedTwo (E.worker engine.old) (E.worker engine.new) E.least visits.old visits.new
        height (part_pairs (E.worker engine.old) height west) (part_pairs (E.worker engine.old) height east)) }
    ensures keeps { Keeps (E.worker engine.old) (E.worker engine.new) }
    ensures room { MakesAtMost 0 (E.worker engine.old) (E.worker engine.new) }
    ensures misses { MissesNothing (E.worker engine.old) (E.worker engine.new) }
{
    let first = visit_part(engine, visits, west, height)?;
    let second = visit_part(engine, visits, east, height)?;
    Ok((first, second))
}
