//! An equation packed into one word, and the result unpacked from it.
ghost use Rattle.std.specs.Prelude.{◌≡◌, ◌≢◌, ◌<◌, ◌≤◌, ◌+◌, ◌*◌, ◌/◌, ◌%◌, ◌^◌, ℕ, IfSome, IfNone};
ghost use Rattle.rel_model.specs.Words.{most_bits};
ghost use Rattle.rel_model.specs.Equations.{code_of, home_slot, memo_slots, word_of_equation};
ghost use Rattle.memo_laws.specs.Looking.{equation_of, operator_of};

use crate::equation::{Equation, Op};

/// How many slots belong to one remainder of the first name; also how many remainders the second name has.
const SLOT_ROW: u32 = 1 << 10;

/// The number of an operator in a memo word.
fn code(op: Op) -> u64
    ensures { result ≡ code_of (operator_of op) }
{
    match op {
        Op::Union => 1,
        Op::Inter => 2,
        Op::Diff => 3,
        Op::Transpose => 4,
        Op::Compose => 5,
    }
}

/// The slot of an equation with these operands.
pub fn slot_of(a: u32, b: u32) -> u32
    ensures home { result ≡ home_slot a b }
    ensures within { result < memo_slots }
{
    a % SLOT_ROW * SLOT_ROW + b % SLOT_ROW
}

/// An equation packed into one word, without the part of `a` and `b` that its slot determines.
pub fn word_of(eq: Equation) -> u64
    requires a_fits { eq.a < 2 ^ most_bits }
    requires b_fits { eq.b < 2 ^ most_bits }
    requires r_fits { eq.r < 2 ^ most_bits }
    requires height_fits { eq.height < 2 ^ 5 }
    ensures { result ≡ word_of_equation (equation_of eq) }
{
    let operands = (((eq.a / SLOT_ROW) as u64) << 47) + (((eq.b / SLOT_ROW) as u64) << 33);
    operands + ((eq.r as u64) << 9) + (code(eq.op) << 5) + eq.height as u64
}

/// The result in a memo word, if the word otherwise equals the one that is asked for, in which the result is 0.
pub fn result_in(word: u64, asked: u64) -> Option<u32>
    requires { asked / 2 ^ 9 % 2 ^ most_bits ≡ 0 }
    ensures found { IfSome result (λ r. (r < 2 ^ most_bits) × (word ≡ asked + r * 2 ^ 9)) }
    ensures none { IfNone result ((r : ℕ) → r < 2 ^ most_bits → word ≢ asked + r * 2 ^ 9) }
{
    let result_of_word = (word >> 9) % (1 << 24);
    if word - (result_of_word << 9) == asked {
        Some(result_of_word as u32)
    } else {
        None
    }
}
