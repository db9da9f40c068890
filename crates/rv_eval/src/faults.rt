//! The faults of an evaluation: names without a meaning, and operands that do not fit.
ghost use Rattle.std.specs.Prelude.{◌≡◌, ◌≤◌, ◌<◌, ◌⊎◌, length, codes, Some};
ghost use Rattle.rel_model.specs.declared.Lack.TheVariants.{NoMemory as NO_MEMORY};
ghost use Rattle.lang_model.specs.Limits.{name_limit};
ghost use Rattle.lang_model.specs.declared.faults.TypeFault.TheVariants.{Unknown, Arity, Rank, Mismatch, NotSquare, NotVector};
ghost use Rattle.lang_model.specs.Checking.{domain_operator_text};
ghost use Rattle.lang_model.specs.BaseNames.{base_text};
ghost use Rattle.lang_model.specs.Types.{spelling, known};
ghost use Rattle.rv_eval.specs.declared.halt.Halt.TheVariants.{Ill, Lack as LACK};

use crate::halt::Halt;
use crate::here::Called;
use lang_model::faults::{StaticShape, TypeFault};
use lang_model::syntax::{Base, Name, Op2, Place};
use rel_model::{Lack, NoMemory, Shape};
use std::alloc::Global;

/// The fault of a name that has no meaning where it is used.
pub fn unknown(alloc: Global, at: Place, name: &Name) -> Halt
    ensures { (result ≡ Ill (Unknown at name.now)) ⊎ (result ≡ LACK NO_MEMORY) }
{
    match name.copied(alloc) {
        Ok(name) => Halt::Ill(TypeFault::Unknown { at, name }),
        Err(NoMemory) => Halt::Lack(Lack::NoMemory),
    }
}

/// The fault of calls that are nested too deep.
pub fn too_deep(alloc: Global, at: Place, name: &Name) -> Halt
    ensures { (result ≡ Ill (Rank at name.now)) ⊎ (result ≡ LACK NO_MEMORY) }
{
    match name.copied(alloc) {
        Ok(name) => Halt::Ill(TypeFault::Rank { at, name }),
        Err(NoMemory) => Halt::Lack(Lack::NoMemory),
    }
}

/// The fault of a call with the wrong number of arguments.
pub fn wrong_count(alloc: Global, called: Called, takes: usize, given: usize) -> Halt
    ensures { (result ≡ Ill (Arity called.entry.at called.entry.name.now takes given)) ⊎ (result ≡ LACK NO_MEMORY) }
{
    let (Ok(takes), Ok(given)) = (u32::try_from(takes), u32::try_from(given)) else {
        return Halt::Lack(Lack::NoMemory);
    };
    match called.name.copied(alloc) {
        Ok(name) => Halt::Ill(TypeFault::Arity {
            at: called.at,
            name,
            takes,
            given,
        }),
        Err(NoMemory) => Halt::Lack(Lack::NoMemory),
    }
}

/// How a domain operator is spelled.
fn domain_text(base: Base) -> &'static [u8]
    ensures text { result.now ≡ domain_operator_text base }
    ensures some { length result.now ≡ 3 }
{
    match base {
        Base::P1 => b"p-1",
        Base::P2 => b"p-2",
        Base::I1 => b"i-1",
        _ => b"i-2",
    }
}

/// The fault of a domain operator whose domain is not declared.
pub fn no_domain(alloc: Global, at: Place, base: Base) -> Halt
    ensures { (result ≡ Ill (Unknown at (domain_operator_text base))) ⊎ (result ≡ LACK NO_MEMORY) }
{
    match Name::new(alloc, domain_text(base)) {
        Ok(name) => Halt::Ill(TypeFault::Unknown { at, name }),
        Err(NoMemory) => Halt::Lack(Lack::NoMemory),
    }
}

/// The type of a relation of these sizes.
pub fn type_of(r: Shape) -> StaticShape
    ensures { result ≡ known r.rows r.cols }
{
    StaticShape {
        rows: Some(r.rows),
        cols: Some(r.cols),
    }
}

/// How an operator is spelled.
fn sign_of(op: Op2) -> &'static [u8]
    ensures sign { result.now ≡ spelling op }
    ensures one { length result.now ≡ 1 }
{
    match op {
        Op2::Or => b"|",
        Op2::And => b"&",
        Op2::Times => b"*",
        Op2::Under => b"\\",
        Op2::Over => b"/",
    }
}

/// The fault of operands that do not fit an operator.
pub fn mismatch(alloc: Global, at: Place, op: Op2, r: Shape, s: Shape) -> Halt
    ensures { let fault = Mismatch at (spelling op) (known r.rows r.cols) (known s.rows s.cols) in
        (result ≡ Ill fault) ⊎ (result ≡ LACK NO_MEMORY) }
{
    match Name::new(alloc, sign_of(op)) {
        Ok(op) => Halt::Ill(TypeFault::Mismatch {
            at,
            op,
            left: type_of(r),
            right: type_of(s),
        }),
        Err(NoMemory) => Halt::Lack(Lack::NoMemory),
    }
}

/// The fault of operands that cannot be paired.
pub fn no_pair(alloc: Global, at: Place, r: Shape, s: Shape) -> Halt
    ensures { let fault = Mismatch at (codes "[") (known r.rows r.cols) (known s.rows s.cols) in
        (result ≡ Ill fault) ⊎ (result ≡ LACK NO_MEMORY) }
{
    match Name::new(alloc, b"[") {
        Ok(op) => Halt::Ill(TypeFault::Mismatch {
            at,
            op,
            left: type_of(r),
            right: type_of(s),
        }),
        Err(NoMemory) => Halt::Lack(Lack::NoMemory),
    }
}

/// The fault of an operand that must be square and is not.
pub fn not_square(alloc: Global, at: Place, base: Base, r: Shape) -> Halt
    ensures { (result ≡ Ill (NotSquare at (base_text base) (known r.rows r.cols))) ⊎ (result ≡ LACK NO_MEMORY) }
{
    match Name::new(alloc, base.text()) {
        Ok(op) => Halt::Ill(TypeFault::NotSquare {
            at,
            op,
            shape: type_of(r),
        }),
        Err(NoMemory) => Halt::Lack(Lack::NoMemory),
    }
}

/// The fault of an operand that must have one column and has not.
pub fn not_vector(alloc: Global, at: Place, base: Base, r: Shape) -> Halt
    ensures { (result ≡ Ill (NotVector at (base_text base) (known r.rows r.cols))) ⊎ (result ≡ LACK NO_MEMORY) }
{
    match Name::new(alloc, base.text()) {
        Ok(op) => Halt::Ill(TypeFault::NotVector {
            at,
            op,
            shape: type_of(r),
        }),
        Err(NoMemory) => Halt::Lack(Lack::NoMemory),
    }
}

/// The fault of operands of a base call that do not fit each other.
pub fn not_alike(alloc: Global, at: Place, base: Base, r: Shape, s: Shape) -> Halt
    ensures { let fault = Mismatch at (base_text base) (known r.rows r.cols) (known s.rows s.cols) in
        (result ≡ Ill fault) ⊎ (result ≡ LACK NO_MEMORY) }
{
    match Name::new(alloc, base.text()) {
        Ok(op) => Halt::Ill(TypeFault::Mismatch {
            at,
            op,
            left: type_of(r),
            right: type_of(s),
        }),
        Err(NoMemory) => Halt::Lack(Lack::NoMemory),
    }
}
