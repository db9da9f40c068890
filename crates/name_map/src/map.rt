//! Names with their values, in the order of their bytes; each is found in logarithmic time.
ghost use Rattle.std.specs.Prelude.{◌≡◌, [], false, is_some, IsSome, IfOk, OnOk, OnErr};
ghost use Rattle.run_model.specs.Names.{Names, IsIncreasing, lookup, set, remove};

use lang_model::syntax::Name;
use rel_model::NoMemory;
use std::alloc::Global;
use std::collections::BTreeMap;
use std::marker::Model;

/// Names with their values. On the heap.
#[derive(Drop)]
pub struct NameMap<V> {
    map: BTreeMap<Name, V>,
}

impl<V> Model for NameMap<V> {
    ghost use Rattle.run_model.specs.Names.{Names, IsIncreasing};

    ghost Value = { Names V };

    ghost view = { λ m. m.map.entries };

    ghost invariant = { λ m. IsIncreasing m.map.entries };
}

impl<V: Copy + Drop> NameMap<V> {
    /// No names.
    pub fn new(alloc: Global) -> NameMap<V>
        ensures { result ≡ [] }
    {
        NameMap {
            map: BTreeMap::new(alloc),
        }
    }

    /// Each name comes before all that follow.
    pub fn in_order(&self)
        ensures { IsIncreasing self.now }
    {
        // This use makes the checker open the invariant of `self`, which the clause follows from.
        let _ = &self.map;
    }

    /// The value of a name, if it has one.
    pub fn get(&self, name: &Name) -> Option<V>
        ensures { result ≡ lookup self.now name.now }
    {
        self.map.get(name).copied()
    }

    /// Gives a name a value, and answers the one it had.
    pub fn put(&mut self, name: Name, value: V) -> Result<Option<V>, NoMemory>
        ensures value { OnOk result (self.new ≡ set name value self.old) }
        ensures had { IfOk result (λ had. had ≡ lookup self.old name) }
        ensures err { OnErr result (self.new ≡ self.old) }
    {
        let Ok(had) = self.map.insert(name, value) else {
            return Err(NoMemory);
        };
        Ok(had)
    }

    /// Changes the value of a name that has one. It takes no memory.
    fn change(&mut self, name: &Name, value: V)
        ensures { IsSome (lookup self.old name.now) → self.new ≡ set name.now value self.old }
    {
        let Some(place) = self.map.get_mut(name) else {
            return;
        };
        *place = value;
    }

    /// Removes a name, and says whether it had a value.
    pub fn take(&mut self, name: &Name) -> bool
        ensures had { result ≡ is_some (lookup self.old name.now) }
        ensures value { self.new ≡ remove name.now self.old }
        ensures absent { result ≡ false → self.new ≡ self.old }
    {
        self.map.remove(name).is_some()
    }

    /// Undoes a `put`: the name has again what it had. It takes no memory.
    pub fn put_back(&mut self, name: &Name, had: Option<V>)
        ensures { (first : Names V) (value : V) → IsIncreasing first → self.old ≡ set name.now value first
            → had ≡ lookup first name.now → self.new ≡ first }
    {
        match had {
            Some(value) => self.change(name, value),
            None => {
                let _ = self.take(name);
            }
        }
    }

    /// All names with their values, in order.
    pub fn listed(&self, alloc: Global) -> Result<Vec<(Name, V)>, NoMemory>
        ensures { IfOk result (λ v. v.items ≡ self.now) }
    {
        let mut all = Vec::new(alloc);
        'names: for (name, value) in &self.map {
            let again = name.copied(alloc)?;
            all.push((again, *value))?;
        }
        Ok(all)
    }

    /// All names with their values, in order; uses up the map.
    pub fn into_list(self, alloc: Global) -> Result<Vec<(Name, V)>, NoMemory>
        ensures { IfOk result (λ v. v.items ≡ self) }
    {
        let NameMap { mut map } = self;
        let mut all = Vec::new(alloc);
        'names: while let Some(entry) = map.pop_first() {
            all.push(entry)?;
        }
        Ok(all)
    }
}
