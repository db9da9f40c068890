//! The walk over the uses that relations reach. Each is listed once, after those of the names in its word.
ghost use Rattle.std.specs.Prelude.{◌≡◌, ◌≢◌, ◌<◌, ◌/◌, ◌%◌, ◌^◌, true, length, slice_index, IfOk, OnOk};
ghost use Rattle.rel_model.specs.Trees.{stands, first_of, second_of};
ghost use Rattle.rv_compact.specs.Compacted.{AllStand};
ghost use Rattle.rv_compact.specs.Walks.{IsClosed, Walked, WalkedKids, WalkedSome};

use crate::heights::depth_of_root;
use indexmap::IndexSet;
use rel_model::{NoMemory, Rel};
use std::alloc::Global;

/// A use of a node: a depth above the blocks, and a name.
pub(crate) type Use = (u8, u32);

/// The two names in a word.
pub(crate) fn kids(word: u64) -> (u32, u32)
    ensures first { result.0 ≡ first_of word }
    ensures second { result.1 ≡ second_of word }
{
    ((word >> 32) as u32, (word % (1 << 32)) as u32)
}

/// Adds the uses reached from a name at a depth that are not listed yet.
#[cycle(walk)]
fn walk(words: &[u64], depth: u8, name: u32, found: &mut IndexSet<Use>) -> Result<(), NoMemory>
    requires standing { stands words.now depth name ≡ true }
    requires closed { IsClosed words.now found.old.keys }
    ensures { OnOk result (Walked words.now depth name found.old.keys found.new.keys) }
{
    if name == 0 {
        return Ok(());
    }
    if found.contains(&(depth, name)) {
        return Ok(());
    }
    walk_kids(words, depth, name, found)?;
    found.insert((depth, name))?;
    Ok(())
}

/// The same for both names in a word above depth 0.
#[cycle(walk)]
fn walk_kids(words: &[u64], depth: u8, name: u32, found: &mut IndexSet<Use>) -> Result<(), NoMemory>
    requires standing { stands words.now depth name ≡ true }
    requires some { name ≢ 0 }
    requires closed { IsClosed words.now found.old.keys }
    ensures { OnOk result (WalkedKids words.now depth name found.old.keys found.new.keys) }
{
    if depth == 0 {
        return Ok(());
    }
    let (first, second) = kids(words[name as usize]);
    walk(words, depth - 1, first, found)?;
    walk(words, depth - 1, second, found)?;
    Ok(())
}

/// All uses that relations reach.
pub(crate) fn reached_uses(
    alloc: Global,
    words: &[u64],
    rels: &[Rel],
) -> Result<IndexSet<Use>, NoMemory>
    requires { AllStand words.now rels.now }
    ensures { IfOk result (λ found. WalkedSome words.now rels.now (length rels.now) found.keys) }
{
    let mut found = IndexSet::new(alloc);
    'rels: for rel in rels {
        walk(words, depth_of_root(*rel), rel.root, &mut found)?;
    }
    Ok(found)
}
