//! The steps of the walk without recursion: names, arguments, assignments and domain operators.
ghost use Rattle.std.specs.Prelude.{◌≡◌, ◌∷◌, [], None, Some, MatchOption};
ghost use Rattle.lang_model.specs.Mean.{domain_named};
ghost use Rattle.lang_model.specs.Shape.{typed_name, typed_injected_of, typed_injected, set_type};
ghost use Rattle.rv_types.specs.Shaping.{types_of, with_arguments as with_given, Answers};

use crate::bases::domain_call;
use crate::found::{Cause, Spelled};
use crate::misfits::{mismatch, misnamed};
use crate::sizes::keeps;
use crate::types_of_names::{add, bind, find};
use lang_model::faults::{StaticShape, TypeFault};
use lang_model::syntax::{Base, Decl, Name, Place};
use rel_model::NoMemory;
use std::alloc::Global;

/// The type of a name.
pub fn type_of_name(
    alloc: Global,
    names: &[(Name, StaticShape)],
    at: Place,
    name: &Name,
) -> Result<StaticShape, TypeFault>
    ensures { Answers (typed_name at name.now (types_of names.now name.now)) (λ s. s) result }
{
    match find(names, name.bytes()) {
        Some(shape) => Ok(shape),
        None => Err(misnamed(alloc, at, Cause::Unknown, Spelled::Name(name))),
    }
}

/// The parameters of a definition with the types of the arguments, which must be as many.
pub fn with_arguments(
    alloc: Global,
    at: Place,
    name: &Name,
    params: &[Name],
    given: &[StaticShape],
) -> Result<Vec<(Name, StaticShape)>, TypeFault>
    ensures { Answers (with_given at name.now params.now given.now) (λ v. v.items) result }
{
    if params.len() == given.len() {
        match bind(alloc, params, given) {
            Ok(names) => Ok(names),
            Err(NoMemory) => Err(TypeFault::NoMemory),
        }
    } else {
        let cause = Cause::Arity {
            takes: params.len(),
            given: given.len(),
        };
        Err(misnamed(alloc, at, cause, Spelled::Name(name)))
    }
}

/// Assigns a value of this type: the first assignment in the text gives a variable its type, and later ones must fit
/// it.
pub fn assign(
    alloc: Global,
    names: &mut Vec<(Name, StaticShape)>,
    at: Place,
    name: &Name,
    shape: StaticShape,
) -> Result<(), TypeFault>
    ensures { let types = types_of names.old.items in
        Answers (set_type at name.now shape types (types name.now)) (λ _. types_of names.new.items) result }
{
    match find(names.as_slice(), name.bytes()) {
        None => match add(alloc, names, name, shape) {
            Ok(()) => Ok(()),
            Err(NoMemory) => Err(TypeFault::NoMemory),
        },
        Some(first) => {
            if keeps(first.rows, shape.rows) && keeps(first.cols, shape.cols) {
                Ok(())
            } else {
                Err(mismatch(alloc, at, b"=", first, shape))
            }
        }
    }
}

/// The two names of a domain, if this declaration declares it.
fn domain_of<'a>(decl: &'a Decl, domain: &Name) -> Option<(&'a Name, &'a Name)>
    ensures { let named = domain_named (decl.now ∷ []) domain.now in
        MatchOption result (named ≡ None) (λ x. named ≡ Some (x.0.now, x.1.now)) }
{
    match decl {
        Decl::Variable { .. } => None,
        Decl::Domain {
            name,
            left,
            right,
            ..
        } => {
            if name.bytes() == domain.bytes() {
                Some((left, right))
            } else {
                None
            }
        }
    }
}

/// The two names of a declared domain.
fn find_domain<'a>(decls: &'a [Decl], domain: &Name) -> Option<(&'a Name, &'a Name)>
    ensures { let named = domain_named decls.now domain.now in
        MatchOption result (named ≡ None) (λ x. named ≡ Some (x.0.now, x.1.now)) }
{
    'each: for decl in decls {
        if let Some(found) = domain_of(decl, domain) {
            return Some(found);
        }
    }
    None
}

/// The type of a domain operator of two names.
fn inject_of(
    alloc: Global,
    at: Place,
    base: Base,
    left: Option<StaticShape>,
    right: Option<StaticShape>,
) -> Result<StaticShape, TypeFault>
    ensures { Answers (typed_injected_of at base left right) (λ s. s) result }
{
    match (left, right) {
        (Some(a), Some(b)) => Ok(domain_call(base, a.rows, b.rows)),
        _ => Err(misnamed(alloc, at, Cause::Unknown, Spelled::Operator(base))),
    }
}

/// The type of a domain operator.
pub fn inject(
    alloc: Global,
    decls: &[Decl],
    names: &[(Name, StaticShape)],
    at: Place,
    base: Base,
    domain: &Name,
) -> Result<StaticShape, TypeFault>
    ensures { let named = domain_named decls.now domain.now in
        Answers (typed_injected (types_of names.now) at base named) (λ s. s) result }
{
    match find_domain(decls, domain) {
        None => Err(misnamed(alloc, at, Cause::Unknown, Spelled::Operator(base))),
        Some((left, right)) => {
            let x = find(names, left.bytes());
            let y = find(names, right.bytes());
            inject_of(alloc, at, base, x, y)
        }
    }
}
