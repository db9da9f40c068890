//! Dropping a name.
ghost use Rattle.std.specs.Prelude.{◌≡◌, ◌<◌, ◌^◌, ◌++◌, ℕ, List, [], OnOk, OnErr, IsSome, vec_len, vec_capacity};
ghost use Rattle.run_model.specs.Names.{lookup};
ghost use Rattle.run_model.specs.Versions.{noted, raised};
ghost use Rattle.rv_workspace.specs.Counting.{AreFewBehind, StayCounted};
ghost use Rattle.rv_workspace.specs.Entering.{dropped, drop_entries, IsDropAnswer};

use crate::refused::DropRefused;
use lang_model::syntax::Name;
use name_map::NameMap;
use rel_model::{NoMemory, Rel};
use run_model::event::{Act, Event};
use rv_blocks::Versions;
use std::alloc::Global;

/// Raises the version of a name by one, or changes nothing.
fn note_one(versions: &mut Versions, alloc: Global, name: &Name) -> Result<(), NoMemory>
    requires fits { (other : List ℕ) → noted (raised name.now versions.old) other < 2 ^ 64 }
    ensures value { OnOk result (versions.new ≡ raised name.now versions.old) }
    ensures err { OnErr result (versions.new ≡ versions.old) }
{
    let mut list = Vec::with_capacity(alloc, 1)?;
    list.push_reserved(name.copied(alloc)?);
    versions.note_all(alloc, list.as_slice())
}

/// Removes a name that has a relation, and enters the removal, or changes nothing.
fn remove_one(
    names: &mut NameMap<Rel>,
    versions: &mut Versions,
    history: &mut Vec<Event>,
    alloc: Global,
    session: u32,
    command: u32,
    name: Name,
) -> Result<(), DropRefused>
    requires few { AreFewBehind versions.old history.old.items }
    requires room { vec_len history.old < vec_capacity history.old }
    requires there { IsSome (lookup names.old name) }
    ensures versions { StayCounted versions.old history.old.items versions.new history.new.items }
    ensures value { names.new ≡ dropped name result names.old }
    ensures entered { history.new.items ≡ history.old.items ++ drop_entries session command name result }
    ensures answer { IsDropAnswer (lookup names.old name) name result }
{
    let Ok(()) = note_one(versions, alloc, &name) else {
        return Err(DropRefused::NoMemory);
    };
    let _ = names.take(&name);
    history.push_reserved(Event {
        session,
        command,
        act: Act::Remove { name },
    });
    Ok(())
}

/// Drops a name, raises its version by one and enters the removal; or enters a read if there is no such name.
pub(crate) fn drop_one(
    names: &mut NameMap<Rel>,
    versions: &mut Versions,
    history: &mut Vec<Event>,
    alloc: Global,
    session: u32,
    command: u32,
    name: &Name,
) -> Result<(), DropRefused>
    requires few { AreFewBehind versions.old history.old.items }
    ensures versions { StayCounted versions.old history.old.items versions.new history.new.items }
    ensures value { names.new ≡ dropped name.now result names.old }
    ensures entered { history.new.items ≡ history.old.items ++ drop_entries session command name.now result }
    ensures answer { IsDropAnswer (lookup names.old name.now) name.now result }
{
    let Ok(own) = name.copied(alloc) else {
        return Err(DropRefused::NoMemory);
    };
    let Ok(()) = history.reserve(1) else {
        return Err(DropRefused::NoMemory);
    };
    if names.get(&own).is_some() {
        return remove_one(names, versions, history, alloc, session, command, own);
    }
    history.push_reserved(Event {
        session,
        command,
        act: Act::Read,
    });
    Err(DropRefused::Unknown { name: own })
}
