//! All relations of a file.
ghost use Rattle.rel_model.specs.Worker.{Keeps, MakesAtMost};
ghost use Rattle.k2_read.specs.Reading.{IsReadAll, cost_of_shared};

use crate::root::built_all;
use k2_parts::take_apart;
use lang_model::syntax::Name;
use rel_model::engine_trait::Engine;
use rel_model::{Lack, Rel};
use run_model::outcome::BadFile;
use std::alloc::Global;

/// All relations of a file, in its order, or the first test that its bytes fail.
///
/// Each listed quadrant is asked for once. A file that fails a test asks the engine for no node.
pub fn read_k2_all<E: Engine>(
    alloc: Global,
    engine: &mut E,
    bytes: &[u8],
) -> Result<Vec<(Name, Rel)>, BadFile>
    ensures answer { IsReadAll (E.worker engine.old) (E.worker engine.new) bytes.now result }
    ensures keeps { Keeps (E.worker engine.old) (E.worker engine.new) }
    ensures room { MakesAtMost (cost_of_shared E.least bytes.now) (E.worker engine.old) (E.worker engine.new) }
{
    let form = match take_apart(alloc, bytes) {
        Ok(form) => form,
        Err(fault) => return Err(fault),
    };
    let (quads, roots) = (form.quads, form.roots);
    let Ok(mut noted) = vec![in alloc; None; quads.len() + 2] else {
        return Err(BadFile::NoMemory);
    };
    match built_all(alloc, engine, quads.as_slice(), noted.as_mut_slice(), roots) {
        Ok(list) => Ok(list),
        Err(Lack::Full) => Err(BadFile::Full),
        Err(Lack::NoMemory) => Err(BadFile::NoMemory),
    }
}
