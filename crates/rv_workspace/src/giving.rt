//! Names that are assigned relations, all or none.
ghost use Rattle.std.specs.Prelude.{◌≡◌, ◌≤◌, ◌+◌, ◌∷◌, ◌++◌, [], IfOk, OnOk, OnErr, vec_len, vec_capacity};
ghost use Rattle.name_map.specs.Giving.{set_all};
ghost use Rattle.run_model.specs.Names.{names_of};
ghost use Rattle.rv_workspace.specs.Counting.{AreFewBehind, StayCounted};
ghost use Rattle.rv_workspace.specs.Entering.{assigns};

use lang_model::syntax::Name;
use name_map::{NameMap, put_all, take_back};
use rel_model::{NoMemory, Rel};
use run_model::event::{Act, Event};
use rv_blocks::Versions;
use std::alloc::Global;

/// Copies of the names in a list.
fn names_given(alloc: Global, list: &[(Name, Rel)]) -> Result<Vec<Name>, NoMemory>
    ensures { IfOk result (λ v. v.items ≡ names_of list.now) }
{
    let mut given = Vec::with_capacity(alloc, list.len())?;
    'list: for gift in list {
        given.push(gift.0.copied(alloc)?)?;
    }
    Ok(given)
}

/// Enters an assignment for each place of the list. It takes no memory.
fn enter_all(history: &mut Vec<Event>, session: u32, command: u32, list: Vec<(Name, Rel)>)
    requires room { vec_len history.old + vec_len list ≤ vec_capacity history.old }
    ensures { history.new.items ≡ history.old.items ++ assigns session command list.items }
{
    'gifts: for gift in list {
        let (name, rel) = gift;
        history.push_reserved(Event {
            session,
            command,
            act: Act::Assign { name, rel },
        });
    }
}

/// Assigns all names of the list their relations, raises their versions by one for each place, and enters an assignment
/// for each place; or changes nothing.
pub(crate) fn give_all(
    names: &mut NameMap<Rel>,
    versions: &mut Versions,
    history: &mut Vec<Event>,
    alloc: Global,
    session: u32,
    command: u32,
    list: Vec<(Name, Rel)>,
) -> Result<(), NoMemory>
    requires few { AreFewBehind versions.old history.old.items }
    ensures value { OnOk result (names.new ≡ set_all list.items names.old) }
    ensures versions { StayCounted versions.old history.old.items versions.new history.new.items }
    ensures entered { OnOk result (history.new.items ≡ history.old.items ++ assigns session command list.items) }
    ensures err { OnErr result (names.new ≡ names.old) }
    ensures err_history { OnErr result (history.new.items ≡ history.old.items) }
{
    names.in_order();
    history.reserve(list.len())?;
    let given = names_given(alloc, list.as_slice())?;
    let journal = put_all(names, alloc, list.as_slice())?;
    match versions.note_all(alloc, given.as_slice()) {
        Ok(()) => {
            enter_all(history, session, command, list);
            Ok(())
        }
        Err(NoMemory) => {
            take_back(names, journal);
            Err(NoMemory)
        }
    }
}

/// Assigns a name its relation, raises its version by one, and enters the assignment; or changes nothing.
pub(crate) fn give_one(
    names: &mut NameMap<Rel>,
    versions: &mut Versions,
    history: &mut Vec<Event>,
    alloc: Global,
    session: u32,
    command: u32,
    name: Name,
    rel: Rel,
) -> Result<(), NoMemory>
    requires few { AreFewBehind versions.old history.old.items }
    ensures value { OnOk result (names.new ≡ set_all ((name, rel) ∷ []) names.old) }
    ensures versions { StayCounted versions.old history.old.items versions.new history.new.items }
    ensures entered { OnOk result (history.new.items ≡ history.old.items
        ++ assigns session command ((name, rel) ∷ [])) }
    ensures err { OnErr result (names.new ≡ names.old) }
    ensures err_history { OnErr result (history.new.items ≡ history.old.items) }
{
    let mut list = Vec::with_capacity(alloc, 1)?;
    list.push_reserved((name, rel));
    give_all(names, versions, history, alloc, session, command, list)
}
