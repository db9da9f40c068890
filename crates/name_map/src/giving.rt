//! Names that are given values, all or none.
ghost use Rattle.std.specs.Prelude.{◌≡◌, ◌<◌, ◌+◌, ◌∷◌, ◌++◌, [], IfOk, OnOk, OnErr, vec_len, vec_capacity};
ghost use Rattle.run_model.specs.Names.{Names, IsIncreasing, lookup, set};
ghost use Rattle.name_map.specs.Giving.{set_all, Led};

use crate::map::NameMap;
use lang_model::syntax::Name;
use rel_model::NoMemory;
use std::alloc::Global;

/// Gives a name a value, and notes in the journal what it had.
pub fn put_noted<V: Copy + Drop>(
    names: &mut NameMap<V>,
    journal: &mut Vec<(Name, Option<V>)>,
    alloc: Global,
    name: &Name,
    value: V,
) -> Result<(), NoMemory>
    requires room { vec_len journal.old < vec_capacity journal.old }
    ensures value { OnOk result (names.new ≡ set name.now value names.old) }
    ensures noted { OnOk result (journal.new.items ≡ journal.old.items ++ (name.now, lookup names.old name.now) ∷ []) }
    ensures err { OnErr result (names.new ≡ names.old) }
    ensures err_journal { OnErr result (journal.new.items ≡ journal.old.items) }
    ensures len { OnOk result (vec_len journal.new ≡ vec_len journal.old + 1) }
    ensures capacity { vec_capacity journal.new ≡ vec_capacity journal.old }
{
    let own = name.copied(alloc)?;
    let again = name.copied(alloc)?;
    let had = names.put(own, value)?;
    journal.push_reserved((again, had));
    Ok(())
}

/// Undoes a journal, last entry first: all its names have again what they had. It takes no memory.
pub fn take_back<V: Copy + Drop>(names: &mut NameMap<V>, mut journal: Vec<(Name, Option<V>)>)
    ensures { (first : Names V) → IsIncreasing first → Led journal.items first names.old → names.new ≡ first }
{
    'notes: while let Some((name, had)) = journal.pop() {
        names.put_back(&name, had);
    }
}

/// Gives all names of a list their values, one after another, or none. Answers the journal, with which `take_back`
/// undoes it.
pub fn put_all<V: Copy + Drop>(
    names: &mut NameMap<V>,
    alloc: Global,
    list: &[(Name, V)],
) -> Result<Vec<(Name, Option<V>)>, NoMemory>
    ensures value { OnOk result (names.new ≡ set_all list.now names.old) }
    ensures journal { IfOk result (λ j. Led j.items names.old names.new) }
    ensures err { OnErr result (names.new ≡ names.old) }
{
    names.in_order();
    let mut journal = Vec::with_capacity(alloc, list.len())?;
    'gifts: for gift in list {
        match put_noted(names, &mut journal, alloc, &gift.0, gift.1) {
            Ok(()) => {}
            Err(_) => {
                take_back(names, journal);
                return Err(NoMemory);
            }
        }
    }
    Ok(journal)
}
