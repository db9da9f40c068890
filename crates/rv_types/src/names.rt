//! Sets of names of a script, numbered by first use.
ghost use Rattle.std.specs.Prelude.{◌≡◌, ◌||◌, ◌&&◌, false, ℕ, List, [], IfOk, OnOk, OnErr};
ghost use Rattle.lang_model.specs.Checking.{among};
ghost use Rattle.lang_model.specs.Tokens.{same_text};

use indexmap::IndexSet;
use rel_model::NoMemory;
use std::alloc::Global;
use std::marker::Model;

/// A set of names of a script. On the heap.
pub struct Names<'a> {
    names: IndexSet<&'a [u8]>,
}

impl Drop for Names<'_> {
    fn drop(self) {
        let Names { names: _ } = self;
    }
}

impl<'a> Model for Names<'a> {
    ghost use Rattle.std.specs.Prelude.{List, ℕ, map};

    ghost Value = { List (List ℕ) };

    ghost view = { λ n. map (λ k. k.now) n.names.keys };
}

impl<'a> Names<'a> {
    /// The empty set.
    pub fn new(alloc: Global) -> Names<'a>
        ensures { result ≡ [] }
    {
        Names {
            names: IndexSet::new(alloc),
        }
    }

    /// Whether a name is in the set.
    pub fn has(&self, name: &[u8]) -> bool
        ensures { result ≡ among self.now name.now }
    {
        self.names.contains(name)
    }

    /// Adds a name. A name that is already there takes no memory.
    pub fn add(&mut self, name: &'a [u8]) -> Result<(), NoMemory>
        ensures names { OnOk result ((n : List ℕ) → among self.new n ≡ (same_text name.now n || among self.old n)) }
        ensures memory { OnErr result (among self.old name.now ≡ false) }
    {
        self.names.insert(name)?;
        Ok(())
    }

    /// A copy of the set. Refused only if memory runs out.
    pub fn copied(&self) -> Result<Names<'a>, NoMemory>
        ensures { IfOk result (λ r. r ≡ self.now) }
    {
        let names = self.names.clone()?;
        Ok(Names { names })
    }

    /// Adds all names that two other sets have in common.
    pub fn add_shared(&mut self, first: &Names<'a>, second: &Names<'a>) -> Result<(), NoMemory>
        ensures { OnOk result ((n : List ℕ) → among self.new n
            ≡ (among self.old n || (among first.now n && among second.now n))) }
    {
        'each: for name in first.names.as_slice() {
            if second.has(*name) {
                self.add(*name)?;
            }
        }
        Ok(())
    }
}
