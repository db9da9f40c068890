//! Versions of names: how often each was assigned or removed.
ghost use Rattle.std.specs.Prelude.{◌≡◌, ◌<◌, ◌^◌, ℕ, List, [], OnOk, OnErr};
ghost use Rattle.run_model.specs.Versions.{noted, all_raised};
ghost use Rattle.rv_blocks.specs.Changes.{first_other};

use lang_model::syntax::Name;
use name_map::{NameMap, put_noted, take_back};
use rel_model::NoMemory;
use std::alloc::Global;
use std::marker::Model;

/// The versions of names, each found in logarithmic time. A name that was never noted has version 0. On the heap.
#[derive(Drop)]
pub struct Versions {
    map: NameMap<u64>,
}

impl Model for Versions {
    ghost use Rattle.run_model.specs.Versions.{Versions as Noted};

    ghost Value = { Noted };

    ghost view = { λ v. v.map };
}

/// Raises the version of each name by one for each occurrence, or changes nothing.
fn raise_all(map: &mut NameMap<u64>, alloc: Global, names: &[Name]) -> Result<(), NoMemory>
    requires fits { (name : List ℕ) → noted (all_raised names.now map.old) name < 2 ^ 64 }
    ensures value { OnOk result (map.new ≡ all_raised names.now map.old) }
    ensures err { OnErr result (map.new ≡ map.old) }
{
    map.in_order();
    let mut journal = Vec::with_capacity(alloc, names.len())?;
    'names: for name in names {
        let next = map.get(name).unwrap_or(0) + 1;
        match put_noted(map, &mut journal, alloc, name, next) {
            Ok(()) => {}
            Err(_) => {
                take_back(map, journal);
                return Err(NoMemory);
            }
        }
    }
    Ok(())
}

impl Versions {
    /// Each name has version 0.
    pub fn new(alloc: Global) -> Versions
        ensures { result ≡ [] }
    {
        Versions {
            map: NameMap::new(alloc),
        }
    }

    /// The version of a name. It takes no memory.
    pub fn of(&self, name: &Name) -> u64
        ensures { result ≡ noted self.now name.now }
    {
        self.map.get(name).unwrap_or(0)
    }

    /// Raises the version of each name by one for each occurrence, or changes nothing. Refused only if memory runs out.
    pub fn note_all(&mut self, alloc: Global, names: &[Name]) -> Result<(), NoMemory>
        requires fits { (name : List ℕ) → noted (all_raised names.now self.old) name < 2 ^ 64 }
        ensures value { OnOk result (self.new ≡ all_raised names.now self.old) }
        ensures err { OnErr result (self.new ≡ self.old) }
    {
        raise_all(&mut self.map, alloc, names)
    }
}

/// The place of the first read name whose version differs from the one that was read; none if and only if each still
/// has that version. Compares versions only, and takes no memory.
pub fn first_changed(versions: &Versions, reads: &[(Name, u64)]) -> Option<usize>
    ensures { result ≡ first_other versions.now reads.now }
{
    'reads: for i in 0..reads.len() {
        if versions.of(&reads[i].0) != reads[i].1 {
            return Some(i);
        }
    }
    None
}
