//! The items of a script that define names, by name.
ghost use Rattle.std.specs.Prelude.{◌≡◌, cond, true, ℕ, List, [], Some, None, IfOk, OnOk, OnErr};
ghost use Rattle.std.specs.Option.{option_or};
ghost use Rattle.std.specs.List.{position_from, list_any};
ghost use Rattle.lang_model.specs.Tokens.{same_text};
ghost use Rattle.lang_model.specs.Defining.{defines};
ghost use Rattle.rv_types.specs.Defining.{is_definition, number_beside};

use indexmap::IndexMap;
use lang_model::syntax::Item;
use rel_model::NoMemory;
use std::alloc::Global;
use std::marker::Model;

/// For each name, the number of the first item that defines it, counted from 0. In clauses it is the list of names with
/// their numbers. On the heap.
#[derive(Drop)]
pub struct ItemsByName {
    numbers: IndexMap<Vec<u8>, usize>,
}

impl Model for ItemsByName {
    ghost use Rattle.std.specs.Prelude.{ℕ, List, map};

    ghost Value = { List (List ℕ × ℕ) };

    ghost view = { λ m. map (λ e. (e.0.items, e.1)) m.numbers.entries };
}

impl ItemsByName {
    /// No item.
    pub fn new(alloc: Global) -> ItemsByName
        ensures { result ≡ [] }
    {
        ItemsByName {
            numbers: IndexMap::new(alloc),
        }
    }

    /// The number of the item that defines a name, if one does.
    pub fn find(&self, name: &[u8]) -> Option<usize>
        ensures { result ≡ number_beside self.now name.now }
    {
        self.numbers.get(name).copied()
    }

    /// Adds an item for a name, if no earlier item defines it.
    fn add(&mut self, alloc: Global, name: &[u8], number: usize) -> Result<(), NoMemory>
        ensures { OnOk result ((n : List ℕ) → number_beside self.new n
            ≡ option_or (number_beside self.old n) (cond (same_text name.now n) (Some number) None)) }
    {
        match self.find(name) {
            Some(_) => Ok(()),
            None => {
                let key = Vec::from_slice(alloc, name)?;
                self.numbers.insert(key, number)?;
                Ok(())
            }
        }
    }

    /// Adds an item, if it defines a name and no earlier item does.
    fn add_item(&mut self, alloc: Global, item: &Item, number: usize) -> Result<(), NoMemory>
        ensures numbers { OnOk result ((n : List ℕ) → number_beside self.new n
            ≡ option_or (number_beside self.old n) (cond (defines n item.now) (Some number) None)) }
        ensures memory { OnErr result (is_definition item.now ≡ true) }
    {
        match item {
            Item::Function { name, .. } => self.add(alloc, name.bytes(), number),
            Item::Program { name, .. } => self.add(alloc, name.bytes(), number),
            Item::Command(_) => Ok(()),
        }
    }
}

/// The items that define names.
pub fn items_by_name(alloc: Global, items: &[Item]) -> Result<ItemsByName, NoMemory>
    ensures numbers { IfOk result (λ m. (name : List ℕ)
        → number_beside m name ≡ position_from (defines name) 0 items.now) }
    ensures memory { OnErr result (list_any is_definition items.now ≡ true) }
{
    let mut by_name = ItemsByName::new(alloc);
    'each: for number in 0..items.len() {
        by_name.add_item(alloc, &items[number], number)?;
    }
    Ok(by_name)
}
