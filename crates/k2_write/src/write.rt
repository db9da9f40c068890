//! The call of the crate.
ghost use Rattle.std.specs.Prelude.{◌≡◌, ◌≤◌, ◌+◌, ◌*◌, length, IfOk, IfErr, IfSome};
ghost use Rattle.std.specs.List.{AllByRecursion};
ghost use Rattle.rel_model.specs.Worker.{Stands, Keeps, MakesAtMost, MissesNothing};
ghost use Rattle.run_model.specs.Limits.{save_limit};
ghost use Rattle.run_model.specs.SharedBytes.{shared_file};
ghost use Rattle.k2_file.specs.Writing.{IsTooLong};
ghost use Rattle.k2_write.specs.Writing.{named_sets};

use crate::listing::listing_of;
use crate::text::file_bytes;
use k2_file::WriteRefused;
use lang_model::syntax::Name;
use rel_model::Rel;
use rel_model::engine_trait::Engine;
use run_model::limits::SAVE_LIMIT;
use std::alloc::Global;

/// The length of a file's header, in bytes.
const HEADER: u64 = 12;

/// The length of a square, in bytes.
const SQUARE: u64 = 16;

/// How many bits a file has, given the number of its squares, and of bytes of its relations.
fn bits_of(squares: u64, relations: u64) -> Option<u64>
    ensures { IfSome result (λ n. n ≡ 8 * (12 + 16 * squares + relations)) }
{
    let bytes = squares.checked_mul(SQUARE)?.checked_add(relations)?;
    bytes.checked_add(HEADER)?.checked_mul(8)
}

/// The file of version 2 of named relations: each distinct square once, in the order of the visits, and each relation
/// by its name, its sizes and the number of its square.
///
/// A file with more bits than the limit is refused before it is made.
pub fn write_k2_all<E: Engine>(
    alloc: Global,
    engine: &mut E,
    rels: &[(Name, Rel)],
) -> Result<Vec<u8>, WriteRefused>
    requires { AllByRecursion (λ e. Stands (E.worker engine.old) e.1) rels.now }
    ensures text { IfOk result (λ v. v.items ≡ shared_file (named_sets (E.worker engine.old) rels.now)) }
    ensures within { IfOk result (λ v. 8 * length v.items ≤ save_limit) }
    ensures over { IfErr result (IsTooLong (8 * length (shared_file (named_sets (E.worker engine.old) rels.now)))) }
    ensures keeps { Keeps (E.worker engine.old) (E.worker engine.new) }
    ensures room { MakesAtMost 0 (E.worker engine.old) (E.worker engine.new) }
    ensures misses { MissesNothing (E.worker engine.old) (E.worker engine.new) }
{
    let listing = listing_of(alloc, engine, rels)?;
    let (squares, relations) = (listing.squares.as_slice(), listing.relations.as_slice());
    let Some(bits) = bits_of(squares.len() as u64, relations.len() as u64) else {
        return Err(WriteRefused::NoMemory);
    };
    if SAVE_LIMIT < bits {
        return Err(WriteRefused::TooLong { bits });
    }
    let out = file_bytes(alloc, squares, rels.len() as u32, relations)?;
    Ok(out)
}
