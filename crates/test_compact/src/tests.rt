//! Words before and after `compact`.
ghost use Rattle.std.specs.Prelude.{◌≡◌, ◌+◌, IfOk};
ghost use Rattle.rel_model.specs.Equations.{IsSoundTable};
ghost use Rattle.rel_model.specs.Views.{Table, View, IsOf, IsKnown, Keeps};
ghost use Rattle.rv_compact.specs.Compacted.{AllStand, nodes_of};

use crate::slow::{name_of, reached, reads, taken};
use crate::standing::{all_stand, depth_of_side, word_of};
use crate::trees::{any_tree, block, pair, same_tree};
use pair_table::{MEMO_SLOTS, PairTable, Seat};
use rel_model::Rel;
use rv_compact::{CompactRefused, compact};
use std::alloc::Global;
use std::process::Abort;

/// A table of 2^10 node words for one seat, and the seat.
fn small_table(rt: &impl Abort, alloc: Global) -> (PairTable, Seat)
    ensures of { IsOf result.1 result.0 }
    ensures spare { result.1.spare ≡ 0 }
    ensures seats { result.0.seats ≡ 1 }
    ensures bits { result.0.bits ≡ 10 }
{
    match PairTable::make(alloc, 10, 1) {
        Ok(made) => made,
        Err(_) => panic!(rt; "no memory"),
    }
}

/// A table over words, for one seat, and the seat, in whose view the relations of the words stand.
#[tactic(auto, using(crate::proofs::Squares::in_view))]
fn opened(rt: &impl Abort, alloc: Global, words: Vec<u64>, rels: &[Rel]) -> (PairTable, Seat)
    requires sound { IsSoundTable 10 words.items }
    requires stand { AllStand (nodes_of words.items) rels.now }
    ensures stand { AllStand result.1.words rels.now }
    ensures of { IsOf result.1 result.0 }
    ensures spare { result.1.spare ≡ 0 }
    ensures seats { result.0.seats ≡ 1 }
    ensures bits { result.0.bits ≡ 10 }
{
    match PairTable::open_words(alloc, 10, words, 1) {
        Ok(made) => made,
        Err(_) => panic!(rt; "no memory"),
    }
}

/// The words of a table after closing it.
fn closed(rt: &impl Abort, table: PairTable, seat: Seat) -> Vec<u64>
    requires of { IsOf seat table }
    requires whole { seat.spare + 1 ≡ table.seats }
    requires bits { table.bits ≡ 10 }
    ensures { IsSoundTable 10 result.items }
{
    match table.close(seat) {
        Ok(words) => words,
        Err(_) => panic!(rt; "no memory"),
    }
}

/// The result of `compact` on relations that stand, which is asserted.
#[tactic(auto, using(crate::proofs::Squares::of_ten))]
fn compacted(
    rt: &impl Abort,
    alloc: Global,
    words: &[u64],
    rels: &[Rel],
) -> Result<(Vec<u64>, Vec<Rel>), CompactRefused>
    requires { IsSoundTable 10 words.now }
    ensures sound { IfOk result (λ r. IsSoundTable 10 r.0.items) }
    ensures stand { IfOk result (λ r. AllStand (nodes_of r.0.items) r.1.items) }
{
    let count = words.len() - MEMO_SLOTS as usize;
    assert!(rt; all_stand(&words[..count], rels));
    compact(alloc, words, rels)
}

#[test]
fn no_relations_leave_no_word(rt: HostRuntime) {
    let alloc = rt.alloc();
    let (table, mut seat) = small_table(&rt, alloc);
    let mut state = 1;
    let _tree = any_tree(&rt, &table, &mut seat, &mut state, 6);
    let words = closed(&rt, table, seat);
    assert!(&rt; taken(&words) > 50);
    let none: [Rel; 0] = [];
    match compacted(&rt, alloc, &words, &none) {
        Ok((new, moved)) => {
            assert!(&rt; new.len() == words.len() && moved.is_empty() && taken(&new) == 0);
        }
        Err(_) => panic!(&rt; "refused"),
    }
}

/// Appends a square relation to others.
fn push_square(rt: &impl Abort, rels: &mut Vec<Rel>, side: u32, root: u32) {
    let rel = Rel {
        rows: side,
        cols: side,
        root,
    };
    if rels.push(rel).is_err() {
        panic!(rt; "no memory");
    }
}

/// Interns the blocks with numbers from one to another, each as a relation of 8 by 8.
#[tactic(auto, using(crate::proofs::Knowing::keeps_itself, crate::proofs::Knowing::keeps_on))]
fn push_blocks(
    rt: &impl Abort,
    table: &PairTable,
    seat: &mut Seat,
    rels: &mut Vec<Rel>,
    from: u64,
    to: u64,
)
    requires of { IsOf seat.old table.now }
    ensures of { IsOf seat.new table.now }
    ensures keeps { Keeps seat.old seat.new }
{
    'numbers: for bits in from..to {
        let name = block(rt, table, seat, bits);
        push_square(rt, rels, 8, name);
    }
}

/// A full table: blocks 1 to 1020, each as a relation of 8 by 8; the pair of the first two; and, as a relation of 16 by
/// 16, the pair of this pair and the empty set. The last relation is the pair, read as a block.
fn full_words(rt: &impl Abort, alloc: Global) -> (Vec<u64>, Vec<Rel>)
    ensures { IsSoundTable 10 result.0.items }
{
    let (table, mut seat) = small_table(rt, alloc);
    let mut rels = Vec::new(alloc);
    let left = block(rt, &table, &mut seat, 1);
    let right = block(rt, &table, &mut seat, 2);
    let upper = pair(rt, &table, &mut seat, left, right);
    let root = pair(rt, &table, &mut seat, upper, 0);
    push_square(rt, &mut rels, 16, root);
    push_blocks(rt, &table, &mut seat, &mut rels, 1, 1021);
    push_square(rt, &mut rels, 8, upper);
    (closed(rt, table, seat), rels)
}

#[test]
fn a_node_that_is_reached_at_two_levels_of_a_full_table_is_one_use_too_many(rt: HostRuntime) {
    let alloc = rt.alloc();
    let (words, mut rels) = full_words(&rt, alloc);
    assert!(&rt; taken(&words) == 1022);
    match compacted(&rt, alloc, &words, &rels) {
        Ok(_) => panic!(&rt; "not refused"),
        Err(refused) => assert!(&rt; refused == CompactRefused::Full { uses: 1023 }),
    }
    // without the last relation, the pair is reached at one level only
    let _last = rels.pop();
    match compacted(&rt, alloc, &words, &rels) {
        Ok((new, moved)) => assert!(&rt; taken(&new) == 1022 && moved.len() == 1021),
        Err(_) => panic!(&rt; "refused"),
    }
}

/// Random relations, and as many trees that none of them reaches.
fn some_words(rt: &impl Abort, alloc: Global) -> (Vec<u64>, Vec<Rel>)
    ensures { IsSoundTable 10 result.0.items }
{
    let (table, mut seat) = small_table(rt, alloc);
    let mut rels = Vec::new(alloc);
    let mut state = 7;
    'sides: for side in [64, 16, 64, 8, 32, 64, 64, 64] {
        if let Some(depth) = depth_of_side(side) {
            let root = any_tree(rt, &table, &mut seat, &mut state, depth);
            push_square(rt, &mut rels, side, root);
            let _left_behind = any_tree(rt, &table, &mut seat, &mut state, 4);
        }
    }
    (closed(rt, table, seat), rels)
}

/// Asserts that relations in words have, cell by cell, the sets of others in other words.
fn have_the_same_cells(
    rt: &impl Abort,
    words: &[u64],
    rels: &[Rel],
    others: &[u64],
    moved: &[Rel],
) {
    assert!(rt; rels.len() == moved.len());
    let mut count: u64 = 0;
    'rels: for (rel, other) in rels.iter().zip(moved.iter()) {
        assert!(rt; rel.rows == other.rows && rel.cols == other.cols);
        'rows: for i in 0..rel.rows {
            'cols: for j in 0..rel.cols {
                let is_in = reads(words, *rel, i, j);
                assert!(rt; reads(others, *other, i, j) == is_in, "at {i}, {j}");
                count = count.wrapping_add(is_in as u64);
            }
        }
    }
    assert!(rt; count > 1000);
}

/// Asserts that the stored nodes are exactly those that relations reach, each with at least one use.
fn only_what_is_reached_is_stored(rt: &impl Abort, alloc: Global, words: &[u64], rels: &[Rel]) {
    let (marks, uses) = reached(rt, alloc, words, rels, 1024);
    'names: for (place, is_marked) in marks.iter().enumerate() {
        let is_stored = word_of(words, name_of(place)) != 0;
        assert!(rt; is_stored == *is_marked, "name {place}");
    }
    assert!(rt; taken(words) <= uses);
}

/// Asserts that all relations stand in a table over their words, under their old names, and that new nodes can be made.
fn go_on(rt: &impl Abort, alloc: Global, words: Vec<u64>, rels: &[Rel])
    requires sound { IsSoundTable 10 words.items }
    requires stand { AllStand (nodes_of words.items) rels.now }
{
    let Ok(kept) = words.clone() else {
        panic!(rt; "no memory")
    };
    let (table, mut seat) = opened(rt, alloc, words, rels);
    'rels: for rel in rels {
        if let Some(depth) = depth_of_side(rel.rows) {
            let _root = same_tree(rt, &table, &mut seat, &kept, depth, rel.root);
        }
    }
    let mut state = 99;
    let _new = any_tree(rt, &table, &mut seat, &mut state, 6);
    let after = closed(rt, table, seat);
    assert!(rt; taken(&after) > taken(&kept));
    have_the_same_cells(rt, &kept, rels, &after, rels);
}

#[test]
fn moved_relations_have_their_cells_and_a_table_over_their_words_goes_on(rt: HostRuntime) {
    let alloc = rt.alloc();
    let (words, rels) = some_words(&rt, alloc);
    match compacted(&rt, alloc, &words, &rels) {
        Ok((new, moved)) => {
            have_the_same_cells(&rt, &words, &rels, &new, &moved);
            assert!(&rt; taken(&new) > 200 && taken(&new) < taken(&words));
            only_what_is_reached_is_stored(&rt, alloc, &new, &moved);
            go_on(&rt, alloc, new, &moved);
        }
        Err(_) => panic!(&rt; "refused"),
    }
}
