//! The types of operators, with their tests: `[R, S]`, `R^` and the operators of chains.
ghost use Rattle.std.specs.Prelude.{◌≡◌, length};
ghost use Rattle.lang_model.specs.declared.syntax.Op2.TheVariants.{Or};
ghost use Rattle.lang_model.specs.Types.{spelling, takes as takes_types, type_of_link, typed_link, typed_pair, type_turned_by, typed_test};
ghost use Rattle.rv_types.specs.Shaping.{Answers};

use crate::misfits::mismatch;
use crate::sizes::{agree, known_of_both, product};
use lang_model::faults::{StaticShape, TypeFault};
use lang_model::syntax::{Op2, Place};
use std::alloc::Global;

/// How an operator is written.
fn sign_of(op: Op2) -> &'static [u8]
    ensures sign { result.now ≡ spelling op }
    ensures one { length result.now ≡ 1 }
{
    match op {
        Op2::Or => b"|",
        Op2::And => b"&",
        Op2::Times => b"*",
        Op2::Under => b"\\",
        Op2::Over => b"/",
    }
}

/// Whether two types agree in both sizes.
pub fn alike(s: StaticShape, t: StaticShape) -> bool
    ensures { result ≡ takes_types Or s t }
{
    agree(s.rows, t.rows) && agree(s.cols, t.cols)
}

/// Whether an operator takes operands of these types.
fn takes(op: Op2, s: StaticShape, t: StaticShape) -> bool
    ensures { result ≡ takes_types op s t }
{
    match op {
        Op2::Or => alike(s, t),
        Op2::And => alike(s, t),
        Op2::Times => agree(s.cols, t.rows),
        Op2::Under => agree(s.rows, t.rows),
        Op2::Over => agree(s.cols, t.cols),
    }
}

/// The type of two operands that agree: each size that either knows.
fn merged(s: StaticShape, t: StaticShape) -> StaticShape
    ensures { result ≡ type_of_link Or s t }
{
    StaticShape {
        rows: known_of_both(s.rows, t.rows),
        cols: known_of_both(s.cols, t.cols),
    }
}

/// The type of `R | S`, `R & S`, `R * S`, `R \ S` or `R / S` for operands that fit.
fn joint(op: Op2, s: StaticShape, t: StaticShape) -> StaticShape
    ensures { result ≡ type_of_link op s t }
{
    match op {
        Op2::Or => merged(s, t),
        Op2::And => merged(s, t),
        Op2::Times => StaticShape {
            rows: s.rows,
            cols: t.cols,
        },
        Op2::Under => StaticShape {
            rows: s.cols,
            cols: t.cols,
        },
        Op2::Over => StaticShape {
            rows: s.rows,
            cols: t.rows,
        },
    }
}

/// The type of `R | S`, `R & S`, `R * S`, `R \ S` or `R / S`.
pub fn link(
    alloc: Global,
    at: Place,
    op: Op2,
    s: StaticShape,
    t: StaticShape,
) -> Result<StaticShape, TypeFault>
    ensures { Answers (typed_link at op s t) (λ u. u) result }
{
    if takes(op, s, t) {
        Ok(joint(op, s, t))
    } else {
        Err(mismatch(alloc, at, sign_of(op), s, t))
    }
}

/// The type of `[R, S]`.
pub fn pair(
    alloc: Global,
    at: Place,
    s: StaticShape,
    t: StaticShape,
) -> Result<StaticShape, TypeFault>
    ensures { Answers (typed_pair at s t) (λ u. u) result }
{
    if agree(s.rows, t.rows) {
        Ok(StaticShape {
            rows: known_of_both(s.rows, t.rows),
            cols: product(s.cols, t.cols),
        })
    } else {
        Err(mismatch(alloc, at, b"[", s, t))
    }
}

/// The type of `R^`, with a number of `^`.
pub fn turned(s: StaticShape, times: u32) -> StaticShape
    ensures { result ≡ type_turned_by times s }
{
    if times % 2 == 0 {
        s
    } else {
        StaticShape {
            rows: s.cols,
            cols: s.rows,
        }
    }
}

/// The type of a test, which has one row and one column.
pub fn test(at: Place, s: StaticShape) -> Result<StaticShape, TypeFault>
    ensures { Answers (typed_test at s) (λ u. u) result }
{
    if agree(s.rows, Some(1)) && agree(s.cols, Some(1)) {
        Ok(s)
    } else {
        Err(TypeFault::NotTest { at, shape: s })
    }
}
