//! Files of version 2 with one relation, named A.
ghost use Rattle.rel_model.specs.Worker.{Stands};

use crate::engines::named_a;
use k2_file::WriteRefused;
use k2_read::{read_k2_all, read_k2_named};
use k2_write::write_k2_all;
use lang_model::syntax::Name;
use rel_model::Rel;
use rel_model::engine_trait::Engine;
use run_model::outcome::BadFile;
use std::alloc::Global;

/// The file of a relation.
#[tactic(auto, using(crate::proofs::Standing::one_stands))]
pub fn write_several<E: Engine>(
    alloc: Global,
    engine: &mut E,
    rel: Rel,
) -> Result<Vec<u8>, WriteRefused>
    requires { Stands (E.worker engine.old) rel }
{
    let Some(list) = named_a(alloc, rel) else {
        return Err(WriteRefused::NoMemory);
    };
    write_k2_all(alloc, engine, list.as_slice())
}

/// The last relation of a file, all of whose relations are read.
pub fn read_last<E: Engine>(alloc: Global, engine: &mut E, bytes: &[u8]) -> Result<Rel, BadFile> {
    let list = match read_k2_all(alloc, engine, bytes) {
        Ok(list) => list,
        Err(fault) => return Err(fault),
    };
    let mut last = Err(BadFile::Missing);
    'list: for entry in list {
        last = Ok(entry.1);
    }
    last
}

/// The relation A of a file.
pub fn read_a<E: Engine>(alloc: Global, engine: &mut E, bytes: &[u8]) -> Result<Rel, BadFile> {
    let Ok(name) = Name::new(alloc, b"A") else {
        return Err(BadFile::NoMemory);
    };
    read_k2_named(alloc, engine, bytes, &name)
}
