//! Whether square relations stand in words, determined by a walk over their whole trees.
ghost use Rattle.std.specs.Prelude.{◌≡◌, ◌<◌, true, slice_index, IfSome, IsTrue};
ghost use Rattle.rel_model.specs.Trees.{stands};
ghost use Rattle.rel_model.specs.Roots.{stands_in};
ghost use Rattle.rv_compact.specs.Compacted.{AllStand};
ghost use Rattle.test_compact.specs.Sides.{IsSide};

use rel_model::Rel;

/// The word of a name; 0 if there is none.
pub fn word_of(words: &[u64], name: u32) -> u64
    ensures { result ≡ slice_index words.now name }
{
    let place = name as usize;
    if place < words.len() { words[place] } else { 0 }
}

/// The two names in a word.
pub fn halves(word: u64) -> (u32, u32) {
    ((word >> 32) as u32, (word % (1 << 32)) as u32)
}

/// Whether a name stands at a depth: it is 0, or it is stored and the two names in its word stand at the depth below.
pub fn name_stands(words: &[u64], depth: u8, name: u32) -> bool
    ensures { IsTrue result → stands words.now depth name ≡ true }
{
    if name == 0 {
        return true;
    }
    let word = word_of(words, name);
    if word == 0 {
        return false;
    }
    if depth == 0 {
        return true;
    }
    if !name_stands(words, depth - 1, (word >> 32) as u32) {
        return false;
    }
    name_stands(words, depth - 1, (word % (1 << 32)) as u32)
}

/// The depth of the root of a square relation with this many rows.
#[tactic(auto, unfolding(rel_model::specs::Roots::height_over, rel_model::specs::Trees::bottom_height, rel_model::specs::Worker::height_of))]
pub fn depth_of_side(side: u32) -> Option<u8>
    ensures { IfSome result (IsSide side) }
{
    match side {
        8 => Some(0),
        16 => Some(2),
        32 => Some(4),
        64 => Some(6),
        512 => Some(12),
        2048 => Some(16),
        8192 => Some(20),
        _ => None,
    }
}

/// Whether a relation stands; it must be square and fill its tree.
fn stands_as_square(words: &[u64], rel: Rel) -> bool
    ensures { IsTrue result → stands_in words.now rel ≡ true }
{
    if rel.rows != rel.cols {
        return false;
    }
    match depth_of_side(rel.rows) {
        Some(depth) => name_stands(words, depth, rel.root),
        None => false,
    }
}

/// Whether all relations stand, which must be such squares.
pub fn all_stand(words: &[u64], rels: &[Rel]) -> bool
    ensures { IsTrue result → AllStand words.now rels.now }
{
    'rels: for rel in rels {
        if !stands_as_square(words, *rel) {
            return false;
        }
    }
    true
}
