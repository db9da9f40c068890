//! What was noted is found again, and nothing else is found.
ghost use Rattle.std.specs.Prelude.{◌≡◌, ◌≤◌, ◌+◌, true};
ghost use Rattle.rel_model.specs.Trees.{stands};
ghost use Rattle.rel_model.specs.Equations.{depth_of};
ghost use Rattle.rel_model.specs.Views.{Table, View, IsOf, Keeps};

use memo_laws::{Equation, Op, look, note};
use pair_table::{PairTable, Seat};
use std::alloc::Global;
use std::process::Abort;
use std::test::Fail;

const OPERATORS: [Op; 5] = [Op::Union, Op::Inter, Op::Diff, Op::Transpose, Op::Compose];

/// A table of 2^12 node words, and its first seat.
fn small_table(rt: &impl Abort, alloc: Global, seats: u32) -> (PairTable, Seat)
    requires { 1 ≤ seats }
    ensures { IsOf result.1 result.0 × (result.1.spare + 1 ≡ seats) × (result.0.seats ≡ seats) }
{
    match PairTable::make(alloc, 12, seats) {
        Ok(made) => made,
        Err(_) => panic!(rt; "no memory"),
    }
}

/// The name of a block that has a cell, at height 3.
fn name_of_block(rt: &impl Abort, table: &PairTable, seat: &mut Seat, bits: u64) -> u32
    requires { IsOf seat.old table.now }
    ensures of { IsOf seat.new table.now }
    ensures block { stands seat.new.words (depth_of 3) result ≡ true }
    ensures keeps { Keeps seat.old seat.new }
{
    if bits == 0 {
        panic!(rt; "a block without cells");
    }
    match table.intern_block(seat, bits) {
        Ok(name) => name,
        Err(_) => panic!(rt; "the table is full"),
    }
}

/// Notes that the union of a block with itself is the block, and gives its name.
fn note_union_with_itself(rt: &impl Abort, table: &PairTable, seat: &mut Seat, bits: u64) -> u32
    requires { IsOf seat.old table.now }
    ensures { IsOf seat.new table.now }
{
    let name = name_of_block(rt, table, seat, bits);
    let eq = Equation {
        op: Op::Union,
        height: 3,
        a: name,
        b: name,
        r: name,
    };
    note(table, seat, eq);
    name
}

/// Notes that an operator makes the empty set of empty sets at a height.
fn note_nothing(table: &PairTable, seat: &mut Seat, op: Op, height: u8)
    requires of { IsOf seat.old table.now }
    requires low { 3 ≤ height }
    requires high { height ≤ 24 }
    ensures { IsOf seat.new table.now }
{
    let eq = Equation {
        op,
        height,
        a: 0,
        b: 0,
        r: 0,
    };
    note(table, seat, eq);
}

/// Looks up the result of an operator on two blocks, or on the first one if the operator has one operand.
#[tactic(auto, using(rel_model::proofs::TreeLaws::kept_stands, crate::proofs::Trying::limits))]
fn look_blocks(
    rt: &impl Abort,
    table: &PairTable,
    seat: &mut Seat,
    op: Op,
    left: u64,
    right: u64,
) -> Option<u32>
    requires { IsOf seat.old table.now }
    ensures { IsOf seat.new table.now }
{
    let a = name_of_block(rt, table, seat, left);
    let b = name_of_block(rt, table, seat, right);
    if op == Op::Transpose {
        return look(table, seat, op, 3, a, 0);
    }
    look(table, seat, op, 3, a, b)
}

/// Looks up the result of an operator on empty sets at a height.
#[tactic(auto, using(crate::proofs::Trying::limits, rel_model::proofs::TreeLaws::zero_stands))]
fn look_nothing(table: &PairTable, seat: &mut Seat, op: Op, height: u8) -> Option<u32>
    requires of { IsOf seat.old table.now }
    requires low { 3 ≤ height }
    requires high { height ≤ 24 }
    ensures { IsOf seat.new table.now }
{
    look(table, seat, op, height, 0, 0)
}

/// Looks up the result of each operator on empty sets at each height, and finds only the one that was noted.
fn finds_alone(rt: &impl Abort, table: &PairTable, seat: &mut Seat, noted: Option<(Op, u8)>)
    requires { IsOf seat.old table.now }
    ensures { IsOf seat.new table.now }
{
    'each_height: for height in 3..25 {
        'each_operator: for op in OPERATORS {
            let is_noted = noted == Some((op, height));
            let want = if is_noted { Some(0) } else { None };
            let found = look_nothing(table, seat, op, height);
            assert!(rt; found == want, "{op:?} at {height}");
        }
    }
}

/// Notes the result of each operator on empty sets at each height, all in one slot, and finds only the last.
fn finds_the_last_alone(rt: &impl Abort, table: &PairTable, seat: &mut Seat)
    requires { IsOf seat.old table.now }
    ensures { IsOf seat.new table.now }
{
    'each_height: for height in 3..25 {
        'each_operator: for op in OPERATORS {
            note_nothing(table, seat, op, height);
            finds_alone(rt, table, seat, Some((op, height)));
        }
    }
}

/// Looks up results of operators on two blocks, and finds what each case says.
fn finds_as_told(
    rt: &impl Abort,
    table: &PairTable,
    seat: &mut Seat,
    cases: &[(Op, u64, u64, Option<u32>)],
)
    requires { IsOf seat.old table.now }
    ensures { IsOf seat.new table.now }
{
    'each_case: for (op, left, right, want) in cases {
        let found = look_blocks(rt, table, seat, *op, *left, *right);
        assert!(rt; found == *want, "{op:?} of {left} and {right}");
    }
}

#[test]
fn nothing_is_found_in_a_new_table(rt: HostRuntime) {
    let (table, mut seat) = small_table(&rt, rt.alloc(), 1);
    finds_alone(&rt, &table, &mut seat, None);
    finds_as_told(&rt, &table, &mut seat, &[(Op::Union, 1, 1, None)]);
}

#[test]
fn each_operator_and_height_is_told_from_the_others_in_one_slot(rt: HostRuntime) {
    let (table, mut seat) = small_table(&rt, rt.alloc(), 1);
    finds_the_last_alone(&rt, &table, &mut seat);
}

#[test]
fn what_was_noted_is_found_with_its_operator_and_operands_alone(rt: HostRuntime) {
    let (table, mut seat) = small_table(&rt, rt.alloc(), 1);
    let name = note_union_with_itself(&rt, &table, &mut seat, 7);
    let cases = [
        (Op::Union, 7, 7, Some(name)),
        (Op::Inter, 7, 7, None),
        (Op::Diff, 7, 7, None),
        (Op::Transpose, 7, 7, None),
        (Op::Compose, 7, 7, None),
        (Op::Union, 7, 8, None),
        (Op::Union, 8, 7, None),
        (Op::Union, 8, 8, None),
    ];
    finds_as_told(&rt, &table, &mut seat, &cases);
}

/// The homes of these blocks, and so their names in a new table, are 18 and 1042, which have the same remainder modulo
/// 1024.
const LOW: u64 = 126;

const HIGH: u64 = 2;

#[test]
fn a_second_note_in_one_slot_takes_the_place_of_the_first(rt: HostRuntime) {
    let (table, mut seat) = small_table(&rt, rt.alloc(), 1);
    let low = note_union_with_itself(&rt, &table, &mut seat, LOW);
    finds_as_told(&rt, &table, &mut seat, &[(Op::Union, LOW, LOW, Some(low))]);
    let high = note_union_with_itself(&rt, &table, &mut seat, HIGH);
    assert!(rt; low == 18 && high == 1042);
    let cases = [
        (Op::Union, LOW, LOW, None),
        (Op::Union, LOW, HIGH, None),
        (Op::Union, HIGH, LOW, None),
        (Op::Union, HIGH, HIGH, Some(high)),
    ];
    finds_as_told(&rt, &table, &mut seat, &cases);
}

#[test]
fn what_one_seat_notes_another_finds(rt: HostRuntime) {
    let (table, mut first) = small_table(&rt, rt.alloc(), 2);
    let mut second = table.split(&mut first, 0);
    finds_as_told(&rt, &table, &mut second, &[(Op::Union, 9, 9, None)]);
    let name = note_union_with_itself(&rt, &table, &mut first, 9);
    let noted = [(Op::Union, 9, 9, Some(name))];
    finds_as_told(&rt, &table, &mut second, &noted);
    table.join(&mut first, second);
    finds_as_told(&rt, &table, &mut first, &noted);
}
