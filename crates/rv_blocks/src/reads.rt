//! The names that a block of assignments reads.
ghost use Rattle.std.specs.Prelude.{◌≡◌, IfOk, OnOk};
ghost use Rattle.run_model.specs.Names.{names_of};
ghost use Rattle.run_model.specs.Blocks.{block_reads};
ghost use Rattle.rv_blocks.specs.Reads.{put_new};

use crate::names::names_in;
use lang_model::syntax::{Let, Name};
use name_map::NameMap;
use rel_model::NoMemory;
use std::alloc::Global;

/// Adds those names to which no earlier assignment gives a value.
fn note_new(
    alloc: Global,
    given: &NameMap<()>,
    found: &mut NameMap<()>,
    names: &[Name],
) -> Result<(), NoMemory>
    ensures { OnOk result (found.new ≡ put_new given.now names.now found.old) }
{
    'names: for name in names {
        if given.get(name).is_none() {
            let own = name.copied(alloc)?;
            found.put(own, ())?;
        }
    }
    Ok(())
}

/// The names of the entries of a set.
fn names_alone(alloc: Global, entries: Vec<(Name, ())>) -> Result<Vec<Name>, NoMemory>
    ensures { IfOk result (λ v. v.items ≡ names_of entries.items) }
{
    let mut names = Vec::new(alloc);
    'entries: for entry in entries {
        let (name, _) = entry;
        names.push(name)?;
    }
    Ok(names)
}

/// The names that a block reads, each once, in the order of their bytes: those in its expressions to which no earlier
/// assignment of the block gives a value.
pub fn reads_of(alloc: Global, lets: &[Let]) -> Result<Vec<Name>, NoMemory>
    ensures { IfOk result (λ v. v.items ≡ block_reads lets.now) }
{
    let mut given = NameMap::new(alloc);
    let mut found = NameMap::new(alloc);
    'lets: for one in lets {
        let used = names_in(alloc, &one.value)?;
        note_new(alloc, &given, &mut found, used.as_slice())?;
        let own = one.name.copied(alloc)?;
        given.put(own, ())?;
    }
    found.in_order();
    let entries = found.into_list(alloc)?;
    names_alone(alloc, entries)
}
