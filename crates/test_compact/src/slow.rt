//! Relations and what they reach, read from the words slowly: by halving squares, and depth by depth.
use crate::standing::{depth_of_side, halves, word_of};
use rel_model::Rel;
use std::alloc::Global;
use std::process::Abort;

/// Whether a pair is in a square relation with 8, 16, 32 or 64 rows.
///
/// The word of a square larger than 8 by 8 has the names of its upper and lower half; the word of such a half has the
/// names of its left and right square; and the word of a square of 8 by 8 has the cell in row i and column j as bit 8 i
/// + j.
pub(crate) fn reads(words: &[u64], rel: Rel, i: u32, j: u32) -> bool {
    let mut side = rel.rows;
    let (mut row, mut col, mut name) = (i, j, rel.root);
    'halvings: for _step in 0..3 {
        if side > 8 {
            side /= 2;
            let (upper, lower) = halves(word_of(words, name));
            let half = if row < side { upper } else { lower };
            let (left, right) = halves(word_of(words, half));
            name = if col < side { left } else { right };
            row = if row < side { row } else { row - side };
            col = if col < side { col } else { col - side };
        }
    }
    if row > 7 || col > 7 {
        return false;
    }
    (word_of(words, name) >> (8 * row + col)) % 2 == 1
}

/// How many words are not 0.
pub(crate) fn taken(words: &[u64]) -> usize {
    words.iter().filter(|word| **word != 0).count()
}

/// As many marks as there are names, all of them unset.
fn no_marks(rt: &impl Abort, alloc: Global, count: usize) -> Vec<bool> {
    match vec![in alloc; false; count] {
        Ok(marks) => marks,
        Err(_) => panic!(rt; "no memory"),
    }
}

/// The name of a place among the first 1024; 0 for any other place.
pub(crate) fn name_of(place: usize) -> u32 {
    if place < 1024 { place as u32 } else { 0 }
}

/// Marks a name.
fn mark(marks: &mut [bool], name: u32) {
    let place = name as usize;
    if place < marks.len() {
        marks[place] = true;
    }
}

/// Marks the names in the words of those that are marked.
fn mark_below(words: &[u64], marks: &[bool], below: &mut [bool]) {
    'names: for (place, is_marked) in marks.iter().enumerate() {
        if *is_marked && place > 0 {
            let (first, second) = halves(word_of(words, name_of(place)));
            mark(below, first);
            mark(below, second);
        }
    }
}

/// Which of the first `count` names relations reach, and how many uses: name 0 has none, and a name that is reached at
/// two depths has two.
pub(crate) fn reached(
    rt: &impl Abort,
    alloc: Global,
    words: &[u64],
    rels: &[Rel],
    count: usize,
) -> (Vec<bool>, usize) {
    let mut ever = no_marks(rt, alloc, count);
    let mut here = no_marks(rt, alloc, count);
    let mut uses: usize = 0;
    'depths: for depth in (0..7).rev() {
        'rels: for rel in rels {
            if depth_of_side(rel.rows) == Some(depth) {
                mark(&mut here, rel.root);
            }
        }
        'names: for (place, is_marked) in here.iter().enumerate() {
            if *is_marked && place > 0 {
                mark(&mut ever, name_of(place));
                uses = uses.wrapping_add(1);
            }
        }
        let mut below = no_marks(rt, alloc, count);
        mark_below(words, &here, &mut below);
        here = below;
    }
    (ever, uses)
}
