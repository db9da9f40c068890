//! The snapshots of a session: names with the relations that all names had when the snapshot was taken.
ghost use Rattle.std.specs.Prelude.{◌≡◌, [], IfOk, OnOk, OnErr};
ghost use Rattle.std.specs.Option.{option_map};
ghost use Rattle.run_model.specs.Names.{lookup, set};

use lang_model::syntax::Name;
use rel_model::NoMemory;
use rv_workspace::View;
use std::alloc::Global;
use std::collections::BTreeMap;
use std::marker::Model;

/// Snapshots by name, each found in logarithmic time. On the heap.
#[derive(Drop)]
pub(crate) struct Snapshots {
    map: BTreeMap<Name, View>,
}

impl Model for Snapshots {
    ghost use Rattle.rv_sessions.specs.Standing.{Kept};
    ghost use Rattle.rv_sessions.specs.Keeping.{kept_of};

    ghost Value = { Kept };

    ghost view = { λ s. kept_of s.map.entries };
}

impl Snapshots {
    /// No snapshot.
    pub(crate) fn new(alloc: Global) -> Snapshots
        ensures { result ≡ [] }
    {
        Snapshots {
            map: BTreeMap::new(alloc),
        }
    }

    /// Keeps a snapshot; it replaces an earlier one of its name.
    pub(crate) fn keep(&mut self, name: Name, view: View) -> Result<(), NoMemory>
        ensures value { OnOk result (self.new ≡ set name view.names.items self.old) }
        ensures err { OnErr result (self.new ≡ self.old) }
    {
        match self.map.insert(name, view) {
            Ok(_) => Ok(()),
            Err(_) => Err(NoMemory),
        }
    }

    /// The snapshot of a name, if there is one.
    pub(crate) fn get(&self, name: &Name) -> Option<&View>
        ensures { option_map (λ v. v.now.names.items) result ≡ lookup self.now name.now }
    {
        self.map.get(name)
    }
}
