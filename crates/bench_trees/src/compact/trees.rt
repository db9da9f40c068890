//! Trees all of whose blocks are distinct.
ghost use Rattle.std.specs.Prelude.{◌≡◌, IfOk};
ghost use Rattle.rel_model.specs.Views.{Table, View, IsOf, IsKnown, Keeps};

use crate::chance::SPREAD;
use pair_table::{Missed, PairTable, Seat};

/// The name of a pair of names.
#[tactic(auto, using(test_compact::proofs::Knowing::keeps_itself))]
fn pair(table: &PairTable, seat: &mut Seat, left: u32, right: u32) -> Result<u32, Missed>
    requires of { IsOf seat.old table.now }
    requires left_in { IsKnown seat.old left }
    requires right_in { IsKnown seat.old right }
    ensures of { IsOf seat.new table.now }
    ensures keeps { Keeps seat.old seat.new }
    ensures known { IfOk result (IsKnown seat.new) }
{
    // This use makes the checker open the invariant of `seat`, which the early return below needs.
    let _ = table.spare(seat);
    if left == 0 && right == 0 {
        return Ok(0);
    }
    table.intern(seat, left, right)
}

/// The name of the next block.
#[tactic(auto, using(test_compact::proofs::Knowing::keeps_itself))]
fn next_block(table: &PairTable, seat: &mut Seat, next: &mut u64) -> Result<u32, Missed>
    requires of { IsOf seat.old table.now }
    ensures of { IsOf seat.new table.now }
    ensures keeps { Keeps seat.old seat.new }
    ensures known { IfOk result (IsKnown seat.new) }
{
    let _ = table.spare(seat);
    let number = next.wrapping_add(1);
    *next = number;
    let bits = number.wrapping_mul(SPREAD);
    if bits == 0 {
        return Ok(0);
    }
    table.intern_block(seat, bits)
}

/// A whole tree of a depth, made of the next blocks.
#[tactic(auto, using(test_compact::proofs::Knowing::keeps_on, test_compact::proofs::Knowing::known_stays))]
fn whole_tree(table: &PairTable, seat: &mut Seat, next: &mut u64, depth: u8) -> Result<u32, Missed>
    requires of { IsOf seat.old table.now }
    ensures of { IsOf seat.new table.now }
    ensures keeps { Keeps seat.old seat.new }
    ensures known { IfOk result (IsKnown seat.new) }
{
    if depth == 0 {
        return next_block(table, seat, next);
    }
    let left = whole_tree(table, seat, next, depth - 1)?;
    let right = whole_tree(table, seat, next, depth - 1)?;
    pair(table, seat, left, right)
}

/// Three whole trees of a depth, and the names of the first and the last.
#[tactic(auto, using(test_compact::proofs::Knowing::keeps_on))]
pub(crate) fn square_trees(
    table: &PairTable,
    seat: &mut Seat,
    depth: u8,
) -> Result<(u32, u32), Missed>
    requires of { IsOf seat.old table.now }
    ensures of { IsOf seat.new table.now }
    ensures keeps { Keeps seat.old seat.new }
{
    let mut next: u64 = 0;
    let first = whole_tree(table, seat, &mut next, depth)?;
    let _left_behind = whole_tree(table, seat, &mut next, depth)?;
    let last = whole_tree(table, seat, &mut next, depth)?;
    Ok((first, last))
}
