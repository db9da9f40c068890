//! The bytes of a relation file.
ghost use Rattle.std.specs.Prelude.{◌≡◌, ◌<◌, ◌≤◌, ◌++◌, ◌∷◌, [], OnOk, IfOk, IfErr, codes};
ghost use Rattle.std.specs.Int.{w64, to_be_bytes};
ghost use Rattle.rel_model.specs.Worker.{Stands, set_of, Keeps, MakesAtMost, MissesNothing};
ghost use Rattle.run_model.specs.Limits.{save_limit};
ghost use Rattle.run_model.specs.Files.{k2, bits_count};
ghost use Rattle.k2_file.specs.Writing.{IsTooLong, header_bytes, file_bytes};

use crate::counting::count_bits;
use crate::numbers::{push_u32, push_u64};
use crate::packing::push_packed;
use crate::refused::WriteRefused;
use crate::sides::height_of_file;
use crate::walk::{TreeBits, tree_bits};
use rel_model::Rel;
use rel_model::engine_trait::Engine;
use run_model::limits::SAVE_LIMIT;
use std::alloc::{AllocError, Global};

/// The bytes of a relation file: `RVK1`, the sizes, the height, the numbers of bits, and the bits of the relation's
/// tree, level by level.
///
/// A relation whose tree has more bits than the limit is refused before any byte is made.
pub fn write_k2<E: Engine>(alloc: Global, engine: &mut E, rel: Rel) -> Result<Vec<u8>, WriteRefused>
    requires { Stands (E.worker engine.old) rel }
    ensures text { IfOk result (λ v. v.items ≡ k2 (set_of (E.worker engine.old) rel)) }
    ensures within { IfOk result (λ v. bits_count (set_of (E.worker engine.old) rel) ≤ save_limit) }
    ensures over { IfErr result (IsTooLong (bits_count (set_of (E.worker engine.old) rel))) }
    ensures keeps { Keeps (E.worker engine.old) (E.worker engine.new) }
    ensures room { MakesAtMost 0 (E.worker engine.old) (E.worker engine.new) }
    ensures misses { MissesNothing (E.worker engine.old) (E.worker engine.new) }
{
    let height = height_of_file(rel.rows, rel.cols);
    let bits = count_bits(alloc, engine, rel, height)?;
    if SAVE_LIMIT < bits {
        return Err(WriteRefused::TooLong { bits });
    }
    let parts = tree_bits(alloc, engine, rel, height)?;
    let out = file_bytes(alloc, rel, height, &parts)?;
    Ok(out)
}

/// The bytes of the file of a relation: its header, and the bits of its tree.
fn file_bytes(alloc: Global, rel: Rel, height: u8, parts: &TreeBits) -> Result<Vec<u8>, AllocError>
    ensures { IfOk result (λ v. v.items ≡ file_bytes rel.rows rel.cols height parts.now.tree.items
        parts.now.cells.items) }
{
    let mut out = Vec::new(alloc);
    let (tree, cells) = (parts.tree.len() as u64, parts.cells.len() as u64);
    push_header(&mut out, rel, height, tree, cells)?;
    push_packed(&mut out, &parts.tree)?;
    push_packed(&mut out, &parts.cells)?;
    Ok(out)
}

/// Appends the header of the file of a relation: its height, and how many bits are above the cells and how many are
/// cells.
fn push_header(
    out: &mut Vec<u8>,
    rel: Rel,
    height: u8,
    tree: u64,
    cells: u64,
) -> Result<(), AllocError>
    ensures { OnOk result (out.new.items ≡ out.old.items ++ header_bytes rel.rows rel.cols height tree cells) }
{
    out.extend_from_slice(b"RVK1")?;
    push_u32(out, rel.rows)?;
    push_u32(out, rel.cols)?;
    out.push(height)?;
    push_counts(out, tree, cells)
}

/// Appends how many bits are above the cells, and how many are cells.
fn push_counts(out: &mut Vec<u8>, tree: u64, cells: u64) -> Result<(), AllocError>
    ensures { OnOk result (out.new.items ≡ out.old.items ++ (to_be_bytes w64 tree ++ to_be_bytes w64 cells)) }
{
    push_u64(out, tree)?;
    push_u64(out, cells)
}
