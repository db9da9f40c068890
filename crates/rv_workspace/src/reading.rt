//! What a read takes.
ghost use Rattle.std.specs.Prelude.{◌≡◌, ◌∷◌, ◌++◌, [], IfOk, OnOk, OnErr};
ghost use Rattle.std.specs.Option.{option_map};
ghost use Rattle.run_model.specs.Names.{lookup};
ghost use Rattle.rv_workspace.specs.Picking.{among, picked, with_name};
ghost use Rattle.rv_workspace.specs.Entering.{read_of};

use lang_model::syntax::Name;
use name_map::NameMap;
use rel_model::{NoMemory, Rel};
use run_model::event::{Act, Event};
use std::alloc::Global;

/// Names with their relations at the moment of a read, each once, in the order of their bytes. On the heap.
#[derive(Drop)]
pub struct View {
    pub names: Vec<(Name, Rel)>,
}

/// Adds the name to those found, if it has a relation.
fn pick(
    names: &NameMap<Rel>,
    found: &mut NameMap<Rel>,
    alloc: Global,
    name: &Name,
) -> Result<(), NoMemory>
    ensures { OnOk result (found.new ≡ with_name name.now (lookup names.now name.now) found.old) }
{
    match names.get(name) {
        Some(rel) => {
            let own = name.copied(alloc)?;
            match found.put(own, rel) {
                Ok(_) => Ok(()),
                Err(NoMemory) => Err(NoMemory),
            }
        }
        None => Ok(()),
    }
}

/// Those names that are wanted.
fn wanted_of(
    names: &NameMap<Rel>,
    alloc: Global,
    wanted: &[Name],
) -> Result<Vec<(Name, Rel)>, NoMemory>
    ensures { IfOk result (λ v. v.items ≡ among wanted.now names.now) }
{
    names.in_order();
    let mut found = NameMap::new(alloc);
    'wanted: for name in wanted {
        pick(names, &mut found, alloc, name)?;
    }
    found.into_list(alloc)
}

/// Those names that are wanted, or all of them.
fn view_of(
    names: &NameMap<Rel>,
    alloc: Global,
    wanted: Option<&[Name]>,
) -> Result<Vec<(Name, Rel)>, NoMemory>
    ensures { IfOk result (λ v. v.items ≡ picked (option_map (λ x. x.now) wanted.entry) names.now) }
{
    match wanted {
        Some(list) => wanted_of(names, alloc, list),
        None => names.listed(alloc),
    }
}

/// Takes what is wanted, and enters the read.
pub(crate) fn take_view(
    names: &NameMap<Rel>,
    history: &mut Vec<Event>,
    alloc: Global,
    session: u32,
    command: u32,
    wanted: Option<&[Name]>,
) -> Result<View, NoMemory>
    ensures value { IfOk result (λ v. v.names.items ≡ picked (option_map (λ x. x.now) wanted.entry) names.now) }
    ensures entered { OnOk result (history.new.items ≡ history.old.items ++ read_of session command ∷ []) }
    ensures err { OnErr result (history.new.items ≡ history.old.items) }
{
    let names = view_of(names, alloc, wanted)?;
    history.push(Event {
        session,
        command,
        act: Act::Read,
    })?;
    Ok(View { names })
}
