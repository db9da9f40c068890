//! The walk over the levels of a relation's tree, from the root to the cells.
ghost use Rattle.std.specs.Prelude.{◌≡◌, ◌≤◌, ◌+◌, ◌++◌, ◌∷◌, [], is_some, OnOk, IfOk};
ghost use Rattle.std.specs.List.{AllByRecursion};
ghost use Rattle.rel_model.specs.Worker.{Stands, set_of, Keeps, MakesAtMost, MissesNothing};
ghost use Rattle.run_model.specs.Files.{file_height, tree_part, cell_part};
ghost use Rattle.k2_file.specs.Squares.{IsSquare};
ghost use Rattle.k2_file.specs.Levels.{bits_of, bits_of_all, list_of, IsFirst, AreNext, AddsQuarters};

use crate::squares::{Square, first_square, quarters_of};
use rel_model::Rel;
use rel_model::engine_trait::Engine;
use std::alloc::{AllocError, Global};

/// The bits of a relation's tree: those of all levels but the last, and those of the last, which are the cells. On the
/// heap.
#[derive(Drop)]
pub(crate) struct TreeBits {
    pub tree: Vec<bool>,
    pub cells: Vec<bool>,
}

/// The bits of the tree of a relation, level by level. Squares without pairs are not walked.
pub(crate) fn tree_bits<E: Engine>(
    alloc: Global,
    engine: &mut E,
    rel: Rel,
    height: u8,
) -> Result<TreeBits, AllocError>
    requires stands { Stands (E.worker engine.old) rel }
    requires height { height ≡ file_height rel.rows rel.cols }
    requires low { 1 ≤ height }
    ensures tree { IfOk result (λ b. b.tree.items ≡ tree_part (set_of (E.worker engine.old) rel)) }
    ensures cells { IfOk result (λ b. b.cells.items ≡ cell_part (set_of (E.worker engine.old) rel)) }
    ensures keeps { Keeps (E.worker engine.old) (E.worker engine.new) }
    ensures room { MakesAtMost 0 (E.worker engine.old) (E.worker engine.new) }
    ensures misses { MissesNothing (E.worker engine.old) (E.worker engine.new) }
{
    let mut squares = first_squares(alloc, engine, rel, height)?;
    let mut tree = Vec::new(alloc);
    let mut level = height - 1;
    'levels: while 0 < level {
        squares = push_level(alloc, engine, &squares, level, &mut tree)?;
        level -= 1;
    }
    let mut cells = Vec::new(alloc);
    push_cells(engine, &squares, &mut cells)?;
    Ok(TreeBits { tree, cells })
}

/// The square of the file of a relation, if the relation has a pair.
fn first_squares<E: Engine>(
    alloc: Global,
    engine: &mut E,
    rel: Rel,
    height: u8,
) -> Result<Vec<Square>, AllocError>
    requires stands { Stands (E.worker engine.old) rel }
    requires height { height ≡ file_height rel.rows rel.cols }
    ensures squares { IfOk result (λ v. IsFirst (E.worker engine.old) (E.worker engine.new) E.least height rel
        v.items) }
    ensures keeps { Keeps (E.worker engine.old) (E.worker engine.new) }
    ensures room { MakesAtMost 0 (E.worker engine.old) (E.worker engine.new) }
    ensures misses { MissesNothing (E.worker engine.old) (E.worker engine.new) }
{
    let mut squares = Vec::new(alloc);
    if let Some(square) = first_square(engine, rel, height) {
        squares.push(square)?;
    }
    Ok(squares)
}

/// Appends the bits of a level, and gives the squares of the next level: those quarters, of a height, that have cells.
fn push_level<E: Engine>(
    alloc: Global,
    engine: &mut E,
    squares: &Vec<Square>,
    height: u8,
    bits: &mut Vec<bool>,
) -> Result<Vec<Square>, AllocError>
    requires { AllByRecursion (IsSquare (E.worker engine.old) E.least (height + 1)) squares.now.items }
    ensures bits { OnOk result (bits.new.items ≡ bits.old.items
        ++ bits_of_all (E.worker engine.old) height squares.now.items) }
    ensures next { IfOk result (λ v. AreNext (E.worker engine.old) (E.worker engine.new) E.least height
        squares.now.items v.items) }
    ensures keeps { Keeps (E.worker engine.old) (E.worker engine.new) }
    ensures room { MakesAtMost 0 (E.worker engine.old) (E.worker engine.new) }
    ensures misses { MissesNothing (E.worker engine.old) (E.worker engine.new) }
{
    let mut next = Vec::new(alloc);
    'squares: for square in squares {
        push_square(engine, *square, height, bits, &mut next)?;
    }
    Ok(next)
}

/// Appends the bits of the quarters, of a height, of a square, and collects those that have cells.
fn push_square<E: Engine>(
    engine: &mut E,
    square: Square,
    height: u8,
    bits: &mut Vec<bool>,
    next: &mut Vec<Square>,
) -> Result<(), AllocError>
    requires square { IsSquare (E.worker engine.old) E.least (height + 1) square }
    requires next { AllByRecursion (IsSquare (E.worker engine.old) E.least height) next.old.items }
    ensures bits { OnOk result (bits.new.items ≡ bits.old.items ++ bits_of (E.worker engine.old) height square) }
    ensures next { OnOk result
        (AddsQuarters (E.worker engine.old) (E.worker engine.new) E.least height square next.old.items next.new.items) }
    ensures keeps { Keeps (E.worker engine.old) (E.worker engine.new) }
    ensures room { MakesAtMost 0 (E.worker engine.old) (E.worker engine.new) }
    ensures misses { MissesNothing (E.worker engine.old) (E.worker engine.new) }
{
    let (nw, ne, sw, se) = quarters_of(engine, square, height);
    push_two(nw, ne, bits, next)?;
    push_two(sw, se, bits, next)
}

/// Appends for two squares whether they are there, and collects those that are.
fn push_two(
    west: Option<Square>,
    east: Option<Square>,
    bits: &mut Vec<bool>,
    next: &mut Vec<Square>,
) -> Result<(), AllocError>
    ensures bits { OnOk result (bits.new.items ≡ bits.old.items ++ is_some west ∷ is_some east ∷ []) }
    ensures next { OnOk result (next.new.items ≡ next.old.items ++ (list_of west ++ list_of east)) }
{
    push_part(west, bits, next)?;
    push_part(east, bits, next)
}

/// Appends whether there is a square, and collects it.
fn push_part(
    part: Option<Square>,
    bits: &mut Vec<bool>,
    next: &mut Vec<Square>,
) -> Result<(), AllocError>
    ensures bits { OnOk result (bits.new.items ≡ bits.old.items ++ is_some part ∷ []) }
    ensures next { OnOk result (next.new.items ≡ next.old.items ++ list_of part) }
{
    bits.push(part.is_some())?;
    if let Some(square) = part {
        next.push(square)?;
    }
    Ok(())
}

/// Appends the bits of the last level: the cells of squares of side 2.
fn push_cells<E: Engine>(
    engine: &mut E,
    squares: &Vec<Square>,
    bits: &mut Vec<bool>,
) -> Result<(), AllocError>
    requires { AllByRecursion (IsSquare (E.worker engine.old) E.least 1) squares.now.items }
    ensures bits { OnOk result (bits.new.items ≡ bits.old.items
        ++ bits_of_all (E.worker engine.old) 0 squares.now.items) }
    ensures keeps { Keeps (E.worker engine.old) (E.worker engine.new) }
    ensures room { MakesAtMost 0 (E.worker engine.old) (E.worker engine.new) }
    ensures misses { MissesNothing (E.worker engine.old) (E.worker engine.new) }
{
    'squares: for square in squares {
        push_four(engine, *square, bits)?;
    }
    Ok(())
}

/// Appends the four cells of a square of side 2.
fn push_four<E: Engine>(
    engine: &mut E,
    square: Square,
    bits: &mut Vec<bool>,
) -> Result<(), AllocError>
    requires { IsSquare (E.worker engine.old) E.least 1 square }
    ensures bits { OnOk result (bits.new.items ≡ bits.old.items ++ bits_of (E.worker engine.old) 0 square) }
    ensures keeps { Keeps (E.worker engine.old) (E.worker engine.new) }
    ensures room { MakesAtMost 0 (E.worker engine.old) (E.worker engine.new) }
    ensures misses { MissesNothing (E.worker engine.old) (E.worker engine.new) }
{
    let (nw, ne, sw, se) = quarters_of(engine, square, 0);
    bits.extend_from_slice(&[nw.is_some(), ne.is_some(), sw.is_some(), se.is_some()])
}
