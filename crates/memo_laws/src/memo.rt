//! Results are noted in a table, and looked up again.
ghost use Rattle.std.specs.Prelude.{◌≡◌, ◌≤◌, true};
ghost use Rattle.rel_model.specs.Trees.{bottom_height, top_height, stands};
ghost use Rattle.rel_model.specs.Equations.{Transpose, IsTrueIn, depth_of};
ghost use Rattle.rel_model.specs.Views.{Table, View, IsOf};
ghost use Rattle.memo_laws.specs.Looking.{Looks, Notes, equation_of, operator_of};

use crate::equation::{Equation, Op};
use crate::word::{result_in, slot_of, word_of};
use pair_table::{PairTable, Seat};

/// `set(r) = op(set(a), set(b))` for the answer `r`: the result of the equation with this operator, height and
/// operands, if the memo word of its slot is that equation.
pub fn look(table: &PairTable, seat: &mut Seat, op: Op, height: u8, a: u32, b: u32) -> Option<u32>
    requires of { IsOf seat.old table.now }
    requires low { bottom_height ≤ height }
    requires high { height ≤ top_height }
    requires a_stands { stands seat.old.words (depth_of height) a ≡ true }
    requires b_stands { stands seat.old.words (depth_of height) b ≡ true }
    requires one_operand { operator_of op ≡ Transpose → b ≡ 0 }
    ensures looks { Looks (operator_of op) height a b seat.old seat.new result }
    ensures of { IsOf seat.new table.now }
{
    let asked = word_of(Equation {
        op,
        height,
        a,
        b,
        r: 0,
    });
    let word = table.memo_load(seat, slot_of(a, b));
    result_in(word, asked)
}

/// Notes an equation, which must be true. Its slot held its word right after the store.
pub fn note(table: &PairTable, seat: &mut Seat, eq: Equation)
    requires of { IsOf seat.old table.now }
    requires holds { IsTrueIn seat.old.words (equation_of eq) }
    ensures notes { Notes (equation_of eq) seat.old seat.new }
    ensures of { IsOf seat.new table.now }
{
    table.memo_store(seat, slot_of(eq.a, eq.b), word_of(eq));
}
