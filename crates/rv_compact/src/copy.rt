//! The nodes of listed uses, copied into other words.
ghost use Rattle.std.specs.Prelude.{◌≡◌, ◌≢◌, ◌<◌, ◌≤◌, ◌^◌, ◌+◌, ◌%◌, length, take, replicate, slice_index, IfOk, IsTrue};
ghost use Rattle.rel_model.specs.Words.{IsDistinct, most_bits};
ghost use Rattle.rv_compact.specs.Walks.{IsClosed, IsListed, HasKids, HasRoots};
ghost use Rattle.rv_compact.specs.Copies.{IsNamed, IsNewWord, AreCopies, AreNamed};

use crate::heights::depth_of_root;
use crate::place::place_word;
use crate::walk::{Use, kids};
use indexmap::IndexSet;
use rel_model::{NoMemory, Rel};
use std::alloc::Global;

/// The new name of a name at a depth, whose use must be among the first ones, which already have new names.
fn new_name(uses: &IndexSet<Use>, names: &[u32], depth: u8, name: u32) -> u32
    requires { IsListed (take (length names.now) uses.now.keys) depth name }
    ensures { IsNamed uses.now.keys names.now depth name result }
{
    if name == 0 {
        return 0;
    }
    match uses.get_index_of(&(depth, name)) {
        Some(index) => names[index],
        None => 0,
    }
}

/// The word of a copy of a name at a depth.
fn new_word(words: &[u64], uses: &IndexSet<Use>, names: &[u32], depth: u8, name: u32) -> u64
    requires stored { slice_index words.now name ≢ 0 }
    requires kids { HasKids words.now (take (length names.now) uses.now.keys) depth name }
    ensures { IsNewWord words.now uses.now.keys names.now depth name result }
{
    let word = words[name as usize];
    if depth == 0 {
        return word;
    }
    let (first, second) = kids(word);
    let left = new_name(uses, names, depth - 1, first);
    let right = new_name(uses, names, depth - 1, second);
    ((left as u64) << 32) + right as u64
}

/// Copies the nodes of listed uses into vacant words, and gives their new names.
pub(crate) fn copy_uses(
    alloc: Global,
    words: &[u64],
    uses: &IndexSet<Use>,
    bits: u32,
    nodes: &mut [u64],
) -> Result<Vec<u32>, NoMemory>
    requires distinct { IsDistinct words.now }
    requires closed { IsClosed words.now uses.now.keys }
    requires vacant { nodes.old ≡ replicate (2 ^ bits) 0 }
    requires few_bits { bits ≤ most_bits }
    requires few { length uses.now.keys + 2 ≤ 2 ^ bits }
    ensures all { IfOk result (λ names. length names.items ≡ length uses.now.keys) }
    ensures copies { IfOk result (λ names. AreCopies words.now uses.now.keys nodes.new names.items) }
{
    let mut names = Vec::new(alloc);
    'uses: for key in uses.as_slice() {
        let (depth, name) = *key;
        let word = new_word(words, uses, &names, depth, name);
        names.push(place_word(nodes, bits, word))?;
    }
    Ok(names)
}

/// The relations with the new names of their roots.
pub(crate) fn move_rels(
    alloc: Global,
    rels: &[Rel],
    uses: &IndexSet<Use>,
    names: &[u32],
) -> Result<Vec<Rel>, NoMemory>
    requires all { length names.now ≡ length uses.now.keys }
    requires roots { HasRoots uses.now.keys rels.now (length rels.now) }
    ensures as_many { IfOk result (λ moved. length moved.items ≡ length rels.now) }
    ensures moved { IfOk result (λ moved. AreNamed uses.now.keys names.now rels.now moved.items (length rels.now)) }
{
    let mut moved = Vec::new(alloc);
    'rels: for rel in rels {
        let root = new_name(uses, names, depth_of_root(*rel), rel.root);
        moved.push(Rel { root, ..*rel })?;
    }
    Ok(moved)
}
