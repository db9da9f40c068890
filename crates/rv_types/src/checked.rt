//! Scripts whose names, arguments, assignments and ranks of definitions have been checked.
ghost use Rattle.std.specs.Prelude.{◌≡◌, ◌⊎◌, [], None, Some, true, option_copied, IfOk, IfErr, OnErr, MatchResult};
ghost use Rattle.std.specs.List.{list_any};
ghost use Rattle.lang_model.specs.declared.faults.TypeFault.TheVariants.{NoMemory as NO_MEMORY};
ghost use Rattle.lang_model.specs.Checking.{first_fault, items_faults, flaw};
ghost use Rattle.rv_types.specs.Found.{told, fault};
ghost use Rattle.rv_types.specs.Defining.{is_definition, IsDefinition, TakesMemory};

use crate::definitions::Definitions;
use crate::found::{Found, fault_of};
use crate::item::{check_item, define, rank_of};
use crate::items_by_name::{ItemsByName, items_by_name};
use lang_model::faults::TypeFault;
use lang_model::syntax::{Item, Script};
use rel_model::NoMemory;
use std::alloc::Global;
use std::marker::Model;

/// A script without a fault of names, arguments, assignments or ranks, and for each name the item that defines it. On
/// the heap.
#[derive(Drop)]
pub struct Checked {
    script: Script,
    items_by_name: ItemsByName,
}

impl Model for Checked {
    ghost use Rattle.std.specs.Prelude.{◌≡◌, ℕ, List, None};
    ghost use Rattle.std.specs.List.{position_from};
    ghost use Rattle.lang_model.specs.declared.syntax.Script.{Script};
    ghost use Rattle.lang_model.specs.Checking.{flaw};
    ghost use Rattle.lang_model.specs.Defining.{defines};
    ghost use Rattle.rv_types.specs.Defining.{number_beside};
    ghost use Rattle.std.specs.Coded.{codes};
    ghost use Rattle.lang_model.specs.contracts.syntax.Script as s;

    ghost Value = { Script };

    ghost coded = { s.the_row.coded };

    ghost view = { λ c. c.script };

    ghost invariant = { λ c. (flaw c.script ≡ None)
        × ((name : List ℕ) → number_beside c.items_by_name name
        ≡ position_from (defines name) 0 c.script.items.items) };
}

/// The first fault of items. Afterwards their definitions are known.
fn find_fault<'a>(
    alloc: Global,
    items: &'a [Item],
    definitions: &mut Definitions,
) -> Result<Option<Found<'a>>, NoMemory>
    requires { definitions.old ≡ [] }
    ensures fault { IfOk result (λ r. told r ≡ first_fault (items_faults [] items.now)) }
    ensures memory { OnErr result (list_any is_definition items.now ≡ true) }
{
    let mut found = None;
    'each: for item in items {
        let rank = rank_of(definitions, item);
        found = check_item(alloc, definitions, item, rank, found)?;
        define(alloc, definitions, item, rank)?;
    }
    Ok(found)
}

/// The fault that was found, or that memory ran out for its name.
fn fault_or_want(alloc: Global, found: Found) -> TypeFault
    ensures { (result ≡ NO_MEMORY) ⊎ (result ≡ fault found.entry) }
{
    match fault_of(alloc, found) {
        Err(NoMemory) => TypeFault::NoMemory,
        Ok(fault) => fault,
    }
}

/// Whether a script has no fault; otherwise its first fault is the error.
fn find_flaw(alloc: Global, script: &Script) -> Result<(), TypeFault>
    ensures fault { MatchResult result (λ _. flaw script.now ≡ None)
        (λ f. (f ≡ NO_MEMORY) ⊎ (flaw script.now ≡ Some f)) }
    ensures memory { IfErr result (λ f. f ≡ NO_MEMORY → TakesMemory script.now) }
{
    let mut definitions = Definitions::new(alloc);
    match find_fault(alloc, script.items.as_slice(), &mut definitions) {
        Err(NoMemory) => Err(TypeFault::NoMemory),
        Ok(None) => Ok(()),
        Ok(Some(found)) => Err(fault_or_want(alloc, found)),
    }
}

/// Checks names, arguments, assignments and ranks of definitions, and the definitions that commands call. Gives the
/// script, or its first fault by place and then by number. A script of commands only that has no fault takes no memory.
pub fn check(alloc: Global, script: Script) -> Result<Checked, TypeFault>
    ensures checked { MatchResult result (λ c. (c ≡ script) × (flaw script ≡ None))
        (λ f. (f ≡ NO_MEMORY) ⊎ (flaw script ≡ Some f)) }
    ensures memory { IfErr result (λ f. f ≡ NO_MEMORY → TakesMemory script) }
{
    match find_flaw(alloc, &script) {
        Err(fault) => Err(fault),
        Ok(()) => match items_by_name(alloc, script.items.as_slice()) {
            Err(NoMemory) => Err(TypeFault::NoMemory),
            Ok(items_by_name) => Ok(Checked {
                script,
                items_by_name,
            }),
        },
    }
}

impl Checked {
    /// The script.
    pub fn script(&self) -> &Script
        ensures script { result.now ≡ self.now }
        ensures faultless { flaw self.now ≡ None }
    {
        &self.script
    }

    /// The function or program with this name, if the script defines it; no other item does.
    pub fn definition(&self, name: &[u8]) -> Option<&Item>
        ensures { IsDefinition self.now.items.items name.now (option_copied result) }
    {
        match self.items_by_name.find(name) {
            None => None,
            Some(number) => self.script.items.get(number),
        }
    }
}
