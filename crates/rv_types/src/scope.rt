//! What the names of an expression may refer to, and the faults of one name.
ghost use Rattle.std.specs.Prelude.{◌≡◌, false};
ghost use Rattle.lang_model.specs.Checking.{among, ref_faults, call_faults, domain_faults, target_faults};
ghost use Rattle.rv_types.specs.Found.{told, noted as noted_all};
ghost use Rattle.rv_types.specs.Scopes.{scope_of, scope_behind};

use crate::definitions::Definitions;
use crate::found::{Cause, Found, Spelled, noted};
use crate::names::Names;
use lang_model::syntax::{Base, Name, Place};
use std::alloc::Global;

/// What the names of an expression may refer to.
pub struct Scope<'a, 'd> {
    /// Whether its names are names of relations.
    pub is_command: bool,
    pub parameters: Names<'a>,
    pub variables: Names<'a>,
    /// The domains declared by PROD.
    pub products: Names<'a>,
    /// The domains declared by SUM.
    pub sums: Names<'a>,
    /// The definitions of earlier items.
    pub earlier: &'d Definitions,
}

impl Drop for Scope<'_, '_> {
    fn drop(self) {
        let Scope {
            is_command: _,
            parameters: _,
            variables: _,
            products: _,
            sums: _,
            earlier: _,
        } = self;
    }
}

impl<'a, 'd> Scope<'a, 'd> {
    /// The scope of a definition without parameters and declarations, after these definitions.
    pub fn new(alloc: Global, earlier: &'d Definitions) -> Scope<'a, 'd>
        ensures { scope_of result ≡ scope_behind false earlier.now }
    {
        Scope {
            is_command: false,
            parameters: Names::new(alloc),
            variables: Names::new(alloc),
            products: Names::new(alloc),
            sums: Names::new(alloc),
            earlier,
        }
    }
}

/// A name must be a relation's, a parameter, or a variable that is assigned on every path before it.
#[tactic(auto, unfolding(lang_model::specs::Checking::ref_faults))]
pub fn check_ref<'a>(
    scope: &Scope<'a, '_>,
    assigned: &Names<'a>,
    at: Place,
    name: &'a Name,
    so_far: Option<Found<'a>>,
) -> Option<Found<'a>>
    ensures { told result ≡ noted_all (told so_far.entry)
        (ref_faults (scope_of scope.now) (among assigned.now) at name.now) }
{
    if scope.is_command || scope.parameters.has(name.bytes()) {
        return so_far;
    }
    let cause = if !scope.variables.has(name.bytes()) {
        Cause::Unknown
    } else if !assigned.has(name.bytes()) {
        Cause::Unassigned
    } else {
        return so_far;
    };
    noted(
        so_far,
        Found {
            at,
            cause,
            name: Spelled::Name(name),
        },
    )
}

/// A call must be of a definition of an earlier item, with the number of arguments that it takes.
#[tactic(auto, unfolding(lang_model::specs::Checking::call_faults))]
pub fn check_call<'a>(
    scope: &Scope<'a, '_>,
    at: Place,
    name: &'a Name,
    given: usize,
    so_far: Option<Found<'a>>,
) -> Option<Found<'a>>
    ensures { told result ≡ noted_all (told so_far.entry) (call_faults (scope_of scope.now) at name.now given) }
{
    let cause = match scope.earlier.find(name.bytes()) {
        None => Cause::Unknown,
        Some(summary) => {
            if summary.takes == given {
                return so_far;
            }
            Cause::Arity {
                takes: summary.takes,
                given,
            }
        }
    };
    noted(
        so_far,
        Found {
            at,
            cause,
            name: Spelled::Name(name),
        },
    )
}

/// A projection must be of a declared product, and an injection of a declared sum.
#[tactic(auto, unfolding(lang_model::specs::Checking::domain_faults))]
pub fn check_domain<'a>(
    scope: &Scope<'a, '_>,
    at: Place,
    base: Base,
    domain: &Name,
    so_far: Option<Found<'a>>,
) -> Option<Found<'a>>
    ensures { told result ≡ noted_all (told so_far.entry) (domain_faults (scope_of scope.now) at base domain.now) }
{
    let is_declared = match base {
        Base::P1 => scope.products.has(domain.bytes()),
        Base::P2 => scope.products.has(domain.bytes()),
        _ => scope.sums.has(domain.bytes()),
    };
    if is_declared {
        return so_far;
    }
    noted(
        so_far,
        Found {
            at,
            cause: Cause::Unknown,
            name: Spelled::Operator(base),
        },
    )
}

/// An assignment must be to a declared variable.
#[tactic(auto, unfolding(lang_model::specs::Checking::target_faults))]
pub fn check_target<'a>(
    scope: &Scope<'a, '_>,
    at: Place,
    name: &'a Name,
    so_far: Option<Found<'a>>,
) -> Option<Found<'a>>
    ensures { told result ≡ noted_all (told so_far.entry) (target_faults (scope_of scope.now) at name.now) }
{
    if scope.variables.has(name.bytes()) {
        return so_far;
    }
    noted(
        so_far,
        Found {
            at,
            cause: Cause::Unknown,
            name: Spelled::Name(name),
        },
    )
}
