//! Operators, base calls and domain operators on lists of pairs, each with its tests of sizes first.
use crate::formulas::{Formula, filled};
use crate::listed::{Listed, none_of};
use lang_model::faults::{StaticShape, TypeFault};
use lang_model::syntax::{Base, Name, Op2, Place};
use rv_eval::Refused;
use std::alloc::Global;
use std::process::Abort;

/// The greatest size of a domain.
pub(crate) const LIMIT: u64 = 16_777_216;

/// A name with these bytes.
pub(crate) fn spelled(rt: &impl Abort, alloc: Global, bytes: &[u8]) -> Name {
    if bytes.is_empty() || bytes.len() > 64 {
        panic!(rt; "no name");
    }
    match Name::new(alloc, bytes) {
        Ok(name) => name,
        Err(_) => panic!(rt; "no memory"),
    }
}

/// The type of a relation.
pub(crate) fn type_of(r: &Listed) -> StaticShape {
    StaticShape {
        rows: Some(r.rows),
        cols: Some(r.cols),
    }
}

/// The refusal of two operands that do not fit.
fn mismatch(
    rt: &impl Abort,
    alloc: Global,
    at: Place,
    op: &[u8],
    r: &Listed,
    s: &Listed,
) -> Refused {
    Refused::Ill(TypeFault::Mismatch {
        at,
        op: spelled(rt, alloc, op),
        left: type_of(r),
        right: type_of(s),
    })
}

/// A size that is known to be within the limit.
fn size(rt: &impl Abort, wanted: u64) -> u32 {
    match u32::try_from(wanted) {
        Ok(size) => size,
        Err(_) => panic!(rt; "no size"),
    }
}

/// The refusal of a size over the limit.
fn too_large(at: Place, wanted: u64) -> Refused {
    Refused::Size {
        at,
        wanted,
        limit: LIMIT,
    }
}

/// `-R = {(i, j) : not (i, j) in r}`: the complement.
pub(crate) fn complement(rt: &impl Abort, alloc: Global, r: &Listed) -> Listed {
    filled(rt, alloc, r.rows, r.cols, Formula::Complement, r, r)
}

/// `R^ = {(j, i) : (i, j) in r}`: the transposition.
pub(crate) fn transposed(rt: &impl Abort, alloc: Global, r: &Listed) -> Listed {
    filled(rt, alloc, r.cols, r.rows, Formula::Transpose, r, r)
}

/// An operator on two relations.
pub(crate) fn link(
    rt: &impl Abort,
    alloc: Global,
    at: Place,
    op: Op2,
    r: &Listed,
    s: &Listed,
) -> Result<Listed, Refused> {
    let (m, n, p, q) = (r.rows, r.cols, s.rows, s.cols);
    let (fits, text, rows, cols, formula) = match op {
        Op2::Or => (m == p && n == q, b"|", m, n, Formula::Union),
        Op2::And => (m == p && n == q, b"&", m, n, Formula::Inter),
        Op2::Times => (n == p, b"*", m, q, Formula::Compose),
        Op2::Under => (m == p, b"\\", n, q, Formula::Under),
        Op2::Over => (n == q, b"/", m, p, Formula::Over),
    };
    if fits {
        Ok(filled(rt, alloc, rows, cols, formula, r, s))
    } else {
        Err(mismatch(rt, alloc, at, text, r, s))
    }
}

/// `[R,S] = {(i, j * n + k) : (i, j) in r and (i, k) in s}`: the pairing, where n is the number of columns of S.
pub(crate) fn pair(
    rt: &impl Abort,
    alloc: Global,
    at: Place,
    r: &Listed,
    s: &Listed,
) -> Result<Listed, Refused> {
    if r.rows != s.rows {
        return Err(mismatch(rt, alloc, at, b"[", r, s));
    }
    let cols = u64::from(r.cols) * u64::from(s.cols);
    if cols > LIMIT {
        return Err(too_large(at, cols));
    }
    Ok(filled(rt, alloc, r.rows, size(rt, cols), Formula::Paired, r, s))
}

/// How many subsets there are of `count` elements, or 2^64 - 1 if there are more.
fn subsets(count: u32) -> u64 {
    if count < 64 { 1 << count } else { u64::MAX }
}

/// The refusal of an operand that must be square and is not.
fn not_square(rt: &impl Abort, alloc: Global, at: Place, base: Base, r: &Listed) -> Refused {
    Refused::Ill(TypeFault::NotSquare {
        at,
        op: spelled(rt, alloc, base.text()),
        shape: type_of(r),
    })
}

/// Tests the operand of a base call.
fn tested(
    rt: &impl Abort,
    alloc: Global,
    at: Place,
    base: Base,
    r: &Listed,
) -> Result<(), Refused> {
    match base {
        Base::I | Base::Trans | Base::Refl | Base::Less | Base::Hasse | Base::Quot
            if r.rows != r.cols => { Err(not_square(rt, alloc, at, base, r)) }
        Base::Epsi | Base::Point | Base::Init | Base::Next | Base::Inj if r.cols != 1 => {
            Err(Refused::Ill(TypeFault::NotVector {
                at,
                op: spelled(rt, alloc, base.text()),
                shape: type_of(r),
            }))
        }
        Base::Epsi if subsets(r.rows) > LIMIT => Err(too_large(at, subsets(r.rows))),
        _ => Ok(()),
    }
}

/// A truth value: a relation with one row and one column, full for yes.
fn truth(rt: &impl Abort, alloc: Global, yes: bool, r: &Listed) -> Listed {
    let formula = if yes { Formula::All } else { Formula::Nothing };
    filled(rt, alloc, 1, 1, formula, r, r)
}

/// A base call of one operand.
fn base_of_one(
    rt: &impl Abort,
    alloc: Global,
    at: Place,
    base: Base,
    r: &Listed,
) -> Result<Listed, Refused> {
    tested(rt, alloc, at, base, r)?;
    let (m, n) = (r.rows, r.cols);
    let (rows, cols, formula) = match base {
        Base::L => (m, n, Formula::All),
        Base::O => (m, n, Formula::Nothing),
        Base::I => (m, n, Formula::Same),
        Base::Ln1 => (m, 1, Formula::All),
        Base::On1 => (m, 1, Formula::Nothing),
        Base::L1n => (1, n, Formula::All),
        Base::O1n => (1, n, Formula::Nothing),
        Base::Dom => (m, 1, Formula::HasRow),
        Base::Ran => (n, 1, Formula::HasCol),
        Base::Trans => (m, n, Formula::Closure),
        Base::Refl => (m, n, Formula::Reflexive),
        Base::Epsi => (m, size(rt, subsets(m)), Formula::Subsets),
        Base::Point => (m, 1, Formula::Least),
        Base::Atom => (m, n, Formula::LeastPair),
        Base::Init => (m, 1, Formula::First),
        Base::Next => (m, 1, Formula::Next),
        Base::Inj => (r.elements_before(m), m, Formula::Element),
        Base::Less => (m, n, Formula::Before),
        Base::Hasse => (m, n, Formula::Neighbour),
        Base::Quot => (m, r.classes_before(m), Formula::Class),
        Base::Empty => return Ok(truth(rt, alloc, r.pairs.is_empty(), r)),
        Base::Unival => return Ok(truth(rt, alloc, r.is_unival(), r)),
        _ => panic!(rt; "no base call of one operand"),
    };
    Ok(filled(rt, alloc, rows, cols, formula, r, r))
}

/// A base call for bounds or extremes. The first operand must be square, and the second must have as many rows.
fn bounded(
    rt: &impl Abort,
    alloc: Global,
    at: Place,
    base: Base,
    r: &Listed,
    s: &Listed,
) -> Result<Listed, Refused> {
    if r.rows != r.cols {
        return Err(not_square(rt, alloc, at, base, r));
    }
    if r.rows != s.rows {
        return Err(mismatch(rt, alloc, at, base.text(), r, s));
    }
    let formula = match base {
        Base::Ubd => Formula::UpperBound,
        Base::Lbd => Formula::LowerBound,
        Base::Least => Formula::LeastOf,
        Base::Greatest => Formula::GreatestOf,
        Base::Sup => Formula::Supremum,
        Base::Inf => Formula::Infimum,
        _ => panic!(rt; "no base call of two operands"),
    };
    Ok(filled(rt, alloc, r.rows, s.cols, formula, r, s))
}

/// A base call of two operands.
fn base_of_two(
    rt: &impl Abort,
    alloc: Global,
    at: Place,
    base: Base,
    r: &Listed,
    s: &Listed,
) -> Result<Listed, Refused> {
    let alike = r.rows == s.rows && r.cols == s.cols;
    match base {
        Base::Syq if r.rows == s.rows => Ok(filled(
            rt,
            alloc,
            r.cols,
            s.cols,
            Formula::Quotient,
            r,
            s,
        )),
        Base::Eq if alike => Ok(truth(rt, alloc, r.is_within(s) && s.is_within(r), r)),
        Base::Incl if alike => Ok(truth(rt, alloc, r.is_within(s), r)),
        Base::Syq | Base::Eq | Base::Incl => { Err(mismatch(rt, alloc, at, base.text(), r, s)) }
        _ => bounded(rt, alloc, at, base, r, s),
    }
}

/// A base call.
pub(crate) fn base_call(
    rt: &impl Abort,
    alloc: Global,
    at: Place,
    base: Base,
    values: &[Listed],
) -> Result<Listed, Refused> {
    if values.len() == 1 {
        base_of_one(rt, alloc, at, base, &values[0])
    } else if values.len() == 2 {
        base_of_two(rt, alloc, at, base, &values[0], &values[1])
    } else {
        panic!(rt; "no base call of so many operands")
    }
}

/// A domain operator, for domains of x and y elements.
pub(crate) fn domain_call(
    rt: &impl Abort,
    alloc: Global,
    at: Place,
    base: Base,
    x: u32,
    y: u32,
) -> Result<Listed, Refused> {
    let product = u64::from(x) * u64::from(y);
    let sum = u64::from(x) + u64::from(y);
    let (wanted, rows, cols, formula) = match base {
        Base::P1 => (product, product, u64::from(x), Formula::Factor(y)),
        Base::P2 => (product, product, u64::from(y), Formula::OtherFactor(y)),
        Base::I1 => (sum, u64::from(x), sum, Formula::Same),
        _ => (sum, u64::from(y), sum, Formula::Behind(x)),
    };
    if wanted > LIMIT {
        return Err(too_large(at, wanted));
    }
    let none = none_of(alloc, 0, 0);
    Ok(filled(
        rt,
        alloc,
        size(rt, rows),
        size(rt, cols),
        formula,
        &none,
        &none,
    ))
}
