//! The definitions of the items so far, by name.
ghost use Rattle.std.specs.Prelude.{◌≡◌, ◌++◌, ◌∷◌, ℕ, List, [], None, OnOk, OnErr, option_map};
ghost use Rattle.lang_model.specs.Checking.{Known, definition_of};
ghost use Rattle.rv_types.specs.Definitions.{known_as, summary_of};

use indexmap::IndexMap;
use rel_model::NoMemory;
use std::alloc::Global;
use std::marker::Model;

/// What a call needs to know of a definition: how many arguments it takes, and its rank. 16 bytes.
#[derive(Clone, Copy)]
pub struct Summary {
    pub takes: usize,
    pub rank: usize,
}

/// The first definition of each name, numbered in the order of the text. On the heap.
#[derive(Drop)]
pub struct Definitions {
    by_name: IndexMap<Vec<u8>, Summary>,
}

impl Model for Definitions {
    ghost use Rattle.std.specs.Prelude.{List, map};
    ghost use Rattle.lang_model.specs.Checking.{Known};
    ghost use Rattle.rv_types.specs.Definitions.{known_as};

    ghost Value = { List Known };

    ghost view = { λ d. map (λ e. known_as e.0.items e.1) d.by_name.entries };
}

impl Definitions {
    /// No definition.
    pub fn new(alloc: Global) -> Definitions
        ensures { result ≡ [] }
    {
        Definitions {
            by_name: IndexMap::new(alloc),
        }
    }

    /// The definition of a name, if it has one.
    pub fn find(&self, name: &[u8]) -> Option<Summary>
        ensures { result ≡ option_map summary_of (definition_of self.now name.now) }
    {
        self.by_name.get(name).copied()
    }

    /// Adds a definition, if its name has none.
    pub fn add(&mut self, alloc: Global, name: &[u8], summary: Summary) -> Result<(), NoMemory>
        ensures known { OnOk result ((n : List ℕ) → definition_of self.new n
            ≡ definition_of (self.old ++ known_as name.now summary ∷ []) n) }
        ensures memory { OnErr result (definition_of self.old name.now ≡ None) }
    {
        match self.find(name) {
            Some(_) => Ok(()),
            None => {
                let key = Vec::from_slice(alloc, name)?;
                self.by_name.insert(key, summary)?;
                Ok(())
            }
        }
    }
}
