//! The number of bits of a relation's tree.
ghost use Rattle.std.specs.Prelude.{◌≡◌, ◌<◌, ◌≤◌, ◌+◌, IfOk};
ghost use Rattle.std.specs.HashMap.{get};
ghost use Rattle.rel_model.specs.Relation.{size_height};
ghost use Rattle.rel_model.specs.Worker.{Stands, set_of, Keeps, MakesAtMost, MissesNothing};
ghost use Rattle.run_model.specs.Files.{file_height, bits_count};
ghost use Rattle.k2_file.specs.Counts.{same_key, AreCounts, IsFull, IsFullPart, square_bits, part_bits};

use crate::squares::{Square, first_square, quarters_of};
use rel_model::engine_trait::Engine;
use rel_model::{NoMemory, Rel};
use std::alloc::Global;
use std::collections::HashMap;

/// How many bits the tree of a relation has: four for each square of its levels that has a pair, as a sum over a shared
/// tree that remembers the sums of its parts (Knuth).
pub(crate) fn count_bits<E: Engine>(
    alloc: Global,
    engine: &mut E,
    rel: Rel,
    height: u8,
) -> Result<u64, NoMemory>
    requires stands { Stands (E.worker engine.old) rel }
    requires height { height ≡ file_height rel.rows rel.cols }
    ensures value { IfOk result (λ n. n ≡ bits_count (set_of (E.worker engine.old) rel)) }
    ensures keeps { Keeps (E.worker engine.old) (E.worker engine.new) }
    ensures room { MakesAtMost 0 (E.worker engine.old) (E.worker engine.new) }
    ensures misses { MissesNothing (E.worker engine.old) (E.worker engine.new) }
{
    let first = first_square(engine, rel, height);
    let mut counts = HashMap::new(alloc);
    counted_part(engine, &mut counts, first, height)
}

/// How many bits there are below a square of a height; none if it has no cell.
#[cycle(counted)]
fn counted_part<E: Engine>(
    engine: &mut E,
    counts: &mut HashMap<(u8, u32), u64>,
    part: Option<Square>,
    height: u8,
) -> Result<u64, NoMemory>
    requires high { height ≤ size_height }
    requires full { IsFullPart (E.worker engine.old) E.least height part }
    requires known { AreCounts (E.worker engine.old) (get same_key counts.old) }
    ensures value { IfOk result (λ n. n ≡ part_bits (E.worker engine.old) height part) }
    ensures known { AreCounts (E.worker engine.new) (get same_key counts.new) }
    ensures keeps { Keeps (E.worker engine.old) (E.worker engine.new) }
    ensures room { MakesAtMost 0 (E.worker engine.old) (E.worker engine.new) }
    ensures misses { MissesNothing (E.worker engine.old) (E.worker engine.new) }
{
    match part {
        None => Ok(0),
        Some(square) => counted_square(engine, counts, square, height),
    }
}

/// How many bits there are below a square of a height. Each quad above the leaves is counted once.
#[cycle(counted)]
fn counted_square<E: Engine>(
    engine: &mut E,
    counts: &mut HashMap<(u8, u32), u64>,
    square: Square,
    height: u8,
) -> Result<u64, NoMemory>
    requires high { height ≤ size_height }
    requires full { IsFull (E.worker engine.old) E.least height square }
    requires known { AreCounts (E.worker engine.old) (get same_key counts.old) }
    ensures value { IfOk result (λ n. n ≡ square_bits (E.worker engine.old) height square) }
    ensures known { AreCounts (E.worker engine.new) (get same_key counts.new) }
    ensures keeps { Keeps (E.worker engine.old) (E.worker engine.new) }
    ensures room { MakesAtMost 0 (E.worker engine.old) (E.worker engine.new) }
    ensures misses { MissesNothing (E.worker engine.old) (E.worker engine.new) }
{
    if height == 0 {
        return Ok(0);
    }
    let Square::Tree(quad) = square else {
        return counted_below(engine, counts, square, height);
    };
    if let Some(found) = counts.get(&(quad.height, quad.name)).copied() {
        return Ok(found);
    }
    let sum = counted_below(engine, counts, square, height)?;
    counts.insert((quad.height, quad.name), sum)?;
    Ok(sum)
}

/// The same, by the quarters.
#[cycle(counted)]
fn counted_below<E: Engine>(
    engine: &mut E,
    counts: &mut HashMap<(u8, u32), u64>,
    square: Square,
    height: u8,
) -> Result<u64, NoMemory>
    requires low { 1 ≤ height }
    requires high { height ≤ size_height }
    requires full { IsFull (E.worker engine.old) E.least height square }
    requires known { AreCounts (E.worker engine.old) (get same_key counts.old) }
    ensures value { IfOk result (λ n. n ≡ square_bits (E.worker engine.old) height square) }
    ensures known { AreCounts (E.worker engine.new) (get same_key counts.new) }
    ensures keeps { Keeps (E.worker engine.old) (E.worker engine.new) }
    ensures room { MakesAtMost 0 (E.worker engine.old) (E.worker engine.new) }
    ensures misses { MissesNothing (E.worker engine.old) (E.worker engine.new) }
{
    let below = height - 1;
    let (nw, ne, sw, se) = quarters_of(engine, square, below);
    let north = counted_two(engine, counts, nw, ne, below)?;
    let south = counted_two(engine, counts, sw, se, below)?;
    Ok(4 + north + south)
}

/// How many bits there are below two squares of a height.
#[cycle(counted)]
fn counted_two<E: Engine>(
    engine: &mut E,
    counts: &mut HashMap<(u8, u32), u64>,
    west: Option<Square>,
    east: Option<Square>,
    height: u8,
) -> Result<u64, NoMemory>
    requires high { height ≤ size_height }
    requires west { IsFullPart (E.worker engine.old) E.least height west }
    requires east { IsFullPart (E.worker engine.old) E.least height east }
    requires known { AreCounts (E.worker engine.old) (get same_key counts.old) }
    ensures value { IfOk result (λ n. n ≡ part_bits (E.worker engine.old) height west
        + part_bits (E.worker engine.old) height east) }
    ensures known { AreCounts (E.worker engine.new) (get same_key counts.new) }
    ensures keeps { Keeps (E.worker engine.old) (E.worker engine.new) }
    ensures room { MakesAtMost 0 (E.worker engine.old) (E.worker engine.new) }
    ensures misses { MissesNothing (E.worker engine.old) (E.worker engine.new) }
{
    let first = counted_part(engine, counts, west, height)?;
    let second = counted_part(engine, counts, east, height)?;
    Ok(first + second)
}
