//! The assignments of a block, made only if no name that it read has changed since.
ghost use Rattle.std.specs.Prelude.{◌≡◌, ◌++◌, ◌∷◌, [], OnOk, OnErr};
ghost use Rattle.rv_workspace.specs.Committing.{ChangeTold, committed, commit_entries};
ghost use Rattle.rv_workspace.specs.Counting.{AreFewBehind, StayCounted, AnswersByVersions};
ghost use Rattle.rv_workspace.specs.Entering.{read_of};

use crate::giving::give_all;
use crate::refused::CommitRefused;
use lang_model::syntax::Name;
use name_map::NameMap;
use rel_model::{NoMemory, Rel};
use run_model::event::{Act, Event};
use rv_blocks::{Versions, first_changed};
use std::alloc::Global;

/// Enters a read, and reports the name that changed, with both versions.
fn tell_change(
    history: &mut Vec<Event>,
    alloc: Global,
    session: u32,
    command: u32,
    read: &(Name, u64),
    found: u64,
) -> CommitRefused
    ensures { ChangeTold session command read.now found history.old.items history.new.items result }
{
    let Ok(name) = read.0.copied(alloc) else {
        return CommitRefused::NoMemory;
    };
    match history.push(Event {
        session,
        command,
        act: Act::Read,
    }) {
        Ok(()) => CommitRefused::Changed {
            name,
            seen: read.1,
            found,
        },
        Err(_) => CommitRefused::NoMemory,
    }
}

/// Makes all assignments if each name that was read still has the version that was read. Otherwise reports the first
/// that has another, and enters a read.
pub(crate) fn commit_all(
    names: &mut NameMap<Rel>,
    versions: &mut Versions,
    history: &mut Vec<Event>,
    alloc: Global,
    session: u32,
    command: u32,
    reads: &[(Name, u64)],
    list: Vec<(Name, Rel)>,
) -> Result<(), CommitRefused>
    requires few { AreFewBehind versions.old history.old.items }
    ensures answer { AnswersByVersions versions.old history.old.items reads.now result }
    ensures value { names.new ≡ committed list.items result names.old }
    ensures versions { StayCounted versions.old history.old.items versions.new history.new.items }
    ensures entered { history.new.items
        ≡ history.old.items ++ commit_entries session command list.items result }
{
    match first_changed(versions, reads) {
        Some(place) => {
            let read = &reads[place];
            let found = versions.of(&read.0);
            Err(tell_change(history, alloc, session, command, read, found))
        }
        None => match give_all(names, versions, history, alloc, session, command, list) {
            Ok(()) => Ok(()),
            Err(NoMemory) => Err(CommitRefused::NoMemory),
        },
    }
}
