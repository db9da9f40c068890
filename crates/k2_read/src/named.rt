//! The relation of a name in a file.
ghost use Rattle.rel_model.specs.Worker.{Keeps, MakesAtMost};
ghost use Rattle.k2_read.specs.Reading.{IsReadNamed, cost_of_named};

use crate::root::{built_relation, root_of};
use k2_parts::take_apart;
use lang_model::syntax::Name;
use rel_model::engine_trait::Engine;
use rel_model::{Lack, Rel};
use run_model::outcome::BadFile;
use std::alloc::Global;

/// The relation of a name in a file, or the first test that its bytes fail, or that no relation has this name.
///
/// No other relation of the file is made.
pub fn read_k2_named<E: Engine>(
    alloc: Global,
    engine: &mut E,
    bytes: &[u8],
    name: &Name,
) -> Result<Rel, BadFile>
    ensures answer { IsReadNamed (E.worker engine.old) (E.worker engine.new) bytes.now name.now result }
    ensures keeps { Keeps (E.worker engine.old) (E.worker engine.new) }
    ensures room { MakesAtMost (cost_of_named E.least bytes.now name.now) (E.worker engine.old) (E.worker engine.new) }
{
    let form = match take_apart(alloc, bytes) {
        Ok(form) => form,
        Err(fault) => return Err(fault),
    };
    let Some(root) = root_of(form.roots.as_slice(), name) else {
        return Err(BadFile::Missing);
    };
    let Ok(mut noted) = vec![in alloc; None; form.quads.len() + 2] else {
        return Err(BadFile::NoMemory);
    };
    match built_relation(engine, form.quads.as_slice(), noted.as_mut_slice(), root) {
        Ok(rel) => Ok(rel),
        Err(Lack::Full) => Err(BadFile::Full),
        Err(Lack::NoMemory) => Err(BadFile::NoMemory),
    }
}
