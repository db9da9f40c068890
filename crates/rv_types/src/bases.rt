//! The types of base calls and of domain operators.
ghost use Rattle.std.specs.Prelude.{◌≡◌, cond};
ghost use Rattle.lang_model.specs.declared.faults.TypeFault.TheVariants.{Mismatch};
ghost use Rattle.lang_model.specs.BaseNames.{base_text};
ghost use Rattle.lang_model.specs.Types.{Fits, Misfit, type_of, side as side_of, squared as squared_as, square as square_as, bounding as bounding_as, vector as vector_as, typed_base, typed_base_of_two, type_of_domain};
ghost use Rattle.lang_model.specs.Shape.{typed_based};
ghost use Rattle.rv_types.specs.Shaping.{Answers};

use crate::misfits::{mismatch, not_square, not_vector};
use crate::operators::alike;
use crate::sizes::{agree, known_of_both, power, product, sum};
use lang_model::faults::{StaticShape, TypeFault};
use lang_model::syntax::{Base, Place};
use std::alloc::Global;

/// A type with these sizes.
fn typed(rows: Option<u32>, cols: Option<u32>) -> StaticShape
    ensures { result ≡ type_of rows cols }
{
    StaticShape { rows, cols }
}

/// The known one of the two sizes of a square operand, if either is known.
fn side(s: StaticShape) -> Option<u32>
    ensures { result ≡ side_of s }
{
    known_of_both(s.rows, s.cols)
}

/// A given type, for a base call whose operand must be square.
fn squared(
    alloc: Global,
    at: Place,
    base: Base,
    s: StaticShape,
    of_call: StaticShape,
) -> Result<StaticShape, TypeFault>
    ensures { Answers (squared_as at base s (Fits of_call)) (λ u. u) result }
{
    if agree(s.rows, s.cols) {
        Ok(of_call)
    } else {
        Err(not_square(alloc, at, base, s))
    }
}

/// The type of a base call that takes a square operand and gives a square result of the same size.
fn square(alloc: Global, at: Place, base: Base, s: StaticShape) -> Result<StaticShape, TypeFault>
    ensures { Answers (square_as at base s) (λ u. u) result }
{
    let size = side(s);
    squared(alloc, at, base, s, typed(size, size))
}

/// A given type, for a base call whose operand must be a vector.
fn vector(
    alloc: Global,
    at: Place,
    base: Base,
    s: StaticShape,
    of_call: StaticShape,
) -> Result<StaticShape, TypeFault>
    ensures { Answers (vector_as at base s of_call) (λ u. u) result }
{
    if agree(s.cols, Some(1)) {
        Ok(of_call)
    } else {
        Err(not_vector(alloc, at, base, s))
    }
}

/// The type of a base call with one operand. No text calls another base name with one.
fn base_of_one(
    alloc: Global,
    at: Place,
    base: Base,
    s: StaticShape,
) -> Result<StaticShape, TypeFault>
    ensures { Answers (typed_base at base s) (λ u. u) result }
{
    let one = Some(1);
    match base {
        Base::L => Ok(s),
        Base::O => Ok(s),
        Base::I => square(alloc, at, Base::I, s),
        Base::Ln1 => Ok(typed(s.rows, one)),
        Base::On1 => Ok(typed(s.rows, one)),
        Base::L1n => Ok(typed(one, s.cols)),
        Base::O1n => Ok(typed(one, s.cols)),
        Base::Dom => Ok(typed(s.rows, one)),
        Base::Ran => Ok(typed(s.cols, one)),
        Base::Trans => square(alloc, at, Base::Trans, s),
        Base::Refl => square(alloc, at, Base::Refl, s),
        Base::Epsi => vector(alloc, at, Base::Epsi, s, typed(s.rows, power(s.rows))),
        Base::Point => vector(alloc, at, Base::Point, s, typed(s.rows, one)),
        Base::Atom => Ok(s),
        Base::Init => vector(alloc, at, Base::Init, s, typed(s.rows, one)),
        Base::Next => vector(alloc, at, Base::Next, s, typed(s.rows, one)),
        Base::Inj => vector(alloc, at, Base::Inj, s, typed(None, s.rows)),
        Base::Empty => Ok(typed(one, one)),
        Base::Unival => Ok(typed(one, one)),
        Base::Less => square(alloc, at, Base::Less, s),
        Base::Hasse => square(alloc, at, Base::Hasse, s),
        Base::Quot => squared(alloc, at, Base::Quot, s, typed(side(s), None)),
        _ => Ok(typed(Some(0), Some(0))),
    }
}

/// A given type, for a base call whose two operands must fit.
fn compared(
    alloc: Global,
    at: Place,
    base: Base,
    fit: bool,
    of_call: StaticShape,
    s: StaticShape,
    t: StaticShape,
) -> Result<StaticShape, TypeFault>
    ensures { let typed = cond fit (Fits of_call) (Misfit (Mismatch at (base_text base) s t)) in
        Answers typed (λ u. u) result }
{
    if fit {
        Ok(of_call)
    } else {
        Err(mismatch(alloc, at, base.text(), s, t))
    }
}

/// The type of a base call of a square operand and a second one with the same number of rows.
fn bounding(
    alloc: Global,
    at: Place,
    base: Base,
    s: StaticShape,
    t: StaticShape,
) -> Result<StaticShape, TypeFault>
    ensures { Answers (bounding_as at base s t) (λ u. u) result }
{
    if agree(s.rows, s.cols) {
        let size = side(s);
        let of_call = typed(known_of_both(size, t.rows), t.cols);
        compared(alloc, at, base, agree(size, t.rows), of_call, s, t)
    } else {
        Err(not_square(alloc, at, base, s))
    }
}

/// The type of a base call with two operands. No text calls another base name with two.
fn base_of_two(
    alloc: Global,
    at: Place,
    base: Base,
    s: StaticShape,
    t: StaticShape,
) -> Result<StaticShape, TypeFault>
    ensures { Answers (typed_base_of_two at base s t) (λ u. u) result }
{
    let one = typed(Some(1), Some(1));
    match base {
        Base::Syq => {
            let of_call = typed(s.cols, t.cols);
            compared(alloc, at, Base::Syq, agree(s.rows, t.rows), of_call, s, t)
        }
        Base::Eq => compared(alloc, at, Base::Eq, alike(s, t), one, s, t),
        Base::Incl => compared(alloc, at, Base::Incl, alike(s, t), one, s, t),
        Base::Ubd => bounding(alloc, at, Base::Ubd, s, t),
        Base::Lbd => bounding(alloc, at, Base::Lbd, s, t),
        Base::Least => bounding(alloc, at, Base::Least, s, t),
        Base::Greatest => bounding(alloc, at, Base::Greatest, s, t),
        Base::Sup => bounding(alloc, at, Base::Sup, s, t),
        Base::Inf => bounding(alloc, at, Base::Inf, s, t),
        _ => Ok(typed(Some(0), Some(0))),
    }
}

/// The type of a base call. No text has one with no operand or with more than two.
pub fn base_call(
    alloc: Global,
    at: Place,
    base: Base,
    given: &[StaticShape],
) -> Result<StaticShape, TypeFault>
    ensures { Answers (typed_based at base given.now) (λ u. u) result }
{
    if given.len() == 1 {
        base_of_one(alloc, at, base, given[0])
    } else if given.len() == 2 {
        base_of_two(alloc, at, base, given[0], given[1])
    } else {
        Ok(typed(Some(0), Some(0)))
    }
}

/// The type of a domain operator on domains of x and of y elements.
pub fn domain_call(base: Base, x: Option<u32>, y: Option<u32>) -> StaticShape
    ensures { result ≡ type_of_domain base x y }
{
    match base {
        Base::P1 => typed(product(x, y), x),
        Base::P2 => typed(product(x, y), y),
        Base::I1 => typed(x, sum(x, y)),
        _ => typed(y, sum(x, y)),
    }
}
