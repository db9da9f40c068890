//! Trees in a table: random ones, and copies.
ghost use Rattle.std.specs.Prelude.{◌≡◌, ◌≢◌};
ghost use Rattle.rel_model.specs.Views.{Table, View, IsOf, IsKnown, Keeps};

use crate::standing::{halves, word_of};
use pair_table::{PairTable, Seat};
use std::process::Abort;

/// The next pseudo-random number.
pub(crate) fn next_number(state: &mut u64) -> u64 {
    let number = state
        .wrapping_mul(6364136223846793005)
        .wrapping_add(1442695040888963407);
    *state = number;
    number >> 33
}

/// The name of a word of 64 bits.
#[tactic(auto, using(crate::proofs::Knowing::keeps_itself))]
pub(crate) fn block(rt: &impl Abort, table: &PairTable, seat: &mut Seat, bits: u64) -> u32
    requires of { IsOf seat.old table.now }
    ensures of { IsOf seat.new table.now }
    ensures keeps { Keeps seat.old seat.new }
    ensures known { IsKnown seat.new result }
{
    // This use makes the checker open the invariant of `seat`, which the early return below needs.
    let _ = table.spare(seat);
    if bits == 0 {
        return 0;
    }
    match table.intern_block(seat, bits) {
        Ok(name) => name,
        Err(_) => panic!(rt; "the table is full"),
    }
}

/// The name of a pair of names.
#[tactic(auto, using(crate::proofs::Knowing::keeps_itself))]
pub(crate) fn pair(
    rt: &impl Abort,
    table: &PairTable,
    seat: &mut Seat,
    left: u32,
    right: u32,
) -> u32
    requires of { IsOf seat.old table.now }
    requires left_in { IsKnown seat.old left }
    requires right_in { IsKnown seat.old right }
    ensures of { IsOf seat.new table.now }
    ensures keeps { Keeps seat.old seat.new }
    ensures known { IsKnown seat.new result }
{
    let _ = table.spare(seat);
    if left == 0 && right == 0 {
        return 0;
    }
    match table.intern(seat, left, right) {
        Ok(name) => name,
        Err(_) => panic!(rt; "the table is full"),
    }
}

/// A random tree: each of its parts is empty once in eight times, and its blocks are taken from a hundred.
#[tactic(auto, using(crate::proofs::Knowing::keeps_itself, crate::proofs::Knowing::keeps_on, crate::proofs::Knowing::known_stays))]
pub(crate) fn any_tree(
    rt: &impl Abort,
    table: &PairTable,
    seat: &mut Seat,
    state: &mut u64,
    depth: u8,
) -> u32
    requires of { IsOf seat.old table.now }
    ensures of { IsOf seat.new table.now }
    ensures keeps { Keeps seat.old seat.new }
    ensures known { IsKnown seat.new result }
{
    let _ = table.spare(seat);
    if next_number(state) % 8 == 0 {
        return 0;
    }
    if depth == 0 {
        let number = next_number(state) % 100 + 1;
        return block(rt, table, seat, number.wrapping_mul(11400714819323198485));
    }
    let left = any_tree(rt, table, seat, state, depth - 1);
    let right = any_tree(rt, table, seat, state, depth - 1);
    pair(rt, table, seat, left, right)
}

/// Makes a tree of other words again, and asserts that each of its nodes has the same name there.
#[tactic(auto, using(crate::proofs::Knowing::keeps_on, crate::proofs::Knowing::known_stays))]
pub(crate) fn same_tree(
    rt: &impl Abort,
    table: &PairTable,
    seat: &mut Seat,
    words: &[u64],
    depth: u8,
    name: u32,
) -> u32
    requires of { IsOf seat.old table.now }
    ensures of { IsOf seat.new table.now }
    ensures keeps { Keeps seat.old seat.new }
    ensures known { IsKnown seat.new result }
{
    let word = word_of(words, name);
    if depth == 0 {
        let again = block(rt, table, seat, word);
        assert!(rt; again == name);
        return again;
    }
    let (first, second) = halves(word);
    let left = same_tree(rt, table, seat, words, depth - 1, first);
    let right = same_tree(rt, table, seat, words, depth - 1, second);
    let again = pair(rt, table, seat, left, right);
    assert!(rt; again == name);
    again
}
