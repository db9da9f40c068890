//! The steps of an evaluation that need no recursion.
ghost use Rattle.std.specs.Prelude.{◌≡◌, ◌==◌, ◌≤◌, ◌⊎◌, ℕ, max, List, length, cond, false, None, Some, IfErr, OnOk, MatchOption, MatchResult, ◌∷◌, []};
ghost use Rattle.lang_model.specs.declared.faults.TypeFault.TheVariants.{Unknown, Arity};
ghost use Rattle.rel_model.specs.declared.Lack.TheVariants.{NoMemory as NO_MEMORY};
ghost use Rattle.lang_model.specs.Tokens.{same_text};
ghost use Rattle.rel_slices.specs.Thin.{value_of, value_rows, value_cols};
ghost use Rattle.rel_values.specs.Values.{Fits, owed};
ghost use Rattle.rv_eval.specs.declared.halt.Halt.TheVariants.{Ill, Lack as LACK};
ghost use Rattle.lang_model.specs.Mean.{tested, injected_by, domain_named};
ghost use Rattle.rv_eval.specs.Names.{first_of, beside};
ghost use Rattle.rv_eval.specs.Values.{AllFit, names_owe};
ghost use Rattle.rv_eval.specs.Around.{state_of_here};
ghost use Rattle.rv_eval.specs.Ends.{Ends, Performs};

use crate::domain_calls::domain_call;
use crate::faults::{no_domain, type_of, unknown, wrong_count};
use crate::halt::Halt;
use crate::here::{Called, Here};
use crate::names::{bind, find, put};
use crate::shapes::shape_in;
use lang_model::faults::TypeFault;
use lang_model::syntax::{Base, Decl, Name, Place};
use rel_model::engine_trait::Engine;
use rel_model::{Lack, NoMemory};
use rel_slices::Value;
use rel_values::square;
use std::alloc::Global;

/// What is bound to a name.
pub fn value_of_name<T: Copy>(
    alloc: Global,
    names: &[(Name, T)],
    at: Place,
    name: &Name,
) -> Result<T, Halt>
    ensures { MatchResult result (λ x. first_of names.now name.now ≡ Some x)
        (λ e. (e ≡ LACK NO_MEMORY) ⊎ ((first_of names.now name.now ≡ None) × (e ≡ Ill (Unknown at name.now)))) }
{
    match find(names, name.bytes()) {
        Some(own) => Ok(own),
        None => Err(unknown(alloc, at, name)),
    }
}

/// Binds parameters to their values, if there are equally many of both.
pub fn bound_names(
    alloc: Global,
    called: Called,
    params: &[Name],
    values: &[Value],
) -> Result<Vec<(Name, Value)>, Halt>
    ensures { MatchResult result (λ v. (length params.now ≡ length values.now)
        × (v.items ≡ beside params.now values.now))
        (λ e. (e ≡ LACK NO_MEMORY) ⊎ (((length params.now == length values.now) ≡ false)
        × (e ≡ Ill (Arity called.entry.at called.entry.name.now (length params.now) (length values.now))))) }
{
    if params.len() != values.len() {
        return Err(wrong_count(alloc, called, params.len(), values.len()));
    }
    match bind(alloc, params, values) {
        Ok(names) => Ok(names),
        Err(NoMemory) => Err(Halt::Lack(Lack::NoMemory)),
    }
}

/// Assigns a value to a variable.
pub fn assign(
    alloc: Global,
    names: &mut Vec<(Name, Value)>,
    name: &Name,
    value: &Value,
) -> Result<(), Halt>
    ensures assigned { OnOk result ((n : List ℕ) →
        first_of names.new.items n ≡ cond (same_text name.now n) (Some value.now) (first_of names.old.items n)) }
    ensures owes { OnOk result ((least : ℕ) →
        names_owe least names.new.items ≤ max (owed least value.now) (names_owe least names.old.items)) }
    ensures memory { IfErr result (λ e. e ≡ LACK NO_MEMORY) }
{
    match put(alloc, names, name, *value) {
        Ok(()) => Ok(()),
        Err(NoMemory) => Err(Halt::Lack(Lack::NoMemory)),
    }
}

/// Whether the value of a test is the full relation.
pub fn decide<E: Engine>(
    alloc: Global,
    engine: &mut E,
    at: Place,
    value: &Value,
) -> Result<bool, Halt>
    requires { Fits (E.worker engine.old) value.now }
    ensures { let w = E.worker engine.old in
        Ends E.least w (E.worker engine.new) 0 0 0 (tested at (value_of w value.now) 0) (λ b. b) (λ b. 0) result }
{
    let shape = shape_in(engine, value);
    if shape.rows == 1 && shape.cols == 1 {
        let whole = square(engine, value);
        Ok(engine.has(whole, 0, 0))
    } else {
        Err(Halt::Ill(TypeFault::NotTest {
            at,
            shape: type_of(shape),
        }))
    }
}

/// The two names in a declaration of this domain. `None`: the declaration is of something else.
fn domain_of<'a>(decl: &'a Decl, domain: &Name) -> Option<(&'a Name, &'a Name)>
    ensures { MatchOption result (domain_named (decl.now ∷ []) domain.now ≡ None)
        (λ x. domain_named (decl.now ∷ []) domain.now ≡ Some (x.0.now, x.1.now)) }
{
    match decl {
        Decl::Variable { .. } => None,
        Decl::Domain {
            name,
            left,
            right,
            ..
        } => {
            if name.bytes() == domain.bytes() {
                Some((left, right))
            } else {
                None
            }
        }
    }
}

/// The two names in the declaration of a domain.
fn find_domain<'a>(decls: &'a [Decl], domain: &Name) -> Option<(&'a Name, &'a Name)>
    ensures { MatchOption result (domain_named decls.now domain.now ≡ None)
        (λ x. domain_named decls.now domain.now ≡ Some (x.0.now, x.1.now)) }
{
    'each: for decl in decls {
        if let Some(found) = domain_of(decl, domain) {
            return Some(found);
        }
    }
    None
}

/// Applies a domain operator to a declared domain.
pub fn inject<E: Engine>(
    engine: &mut E,
    here: &Here,
    at: Place,
    base: Base,
    domain: &Name,
) -> Result<Value, Halt>
    requires standing { AllFit (E.worker engine.old) here.now.names.now }
    ensures { let w = E.worker engine.old in
        let o = injected_by (state_of_here w here.now) at base (domain_named here.now.around.decls.now domain.now) in
        Performs E.least w (E.worker engine.new) o result }
{
    let (left, right) = match find_domain(here.around.decls, domain) {
        Some(found) => found,
        None => return Err(no_domain(here.around.alloc, at, base)),
    };
    let a = match find(here.names, left.bytes()) {
        Some(a) => a,
        None => return Err(no_domain(here.around.alloc, at, base)),
    };
    let b = match find(here.names, right.bytes()) {
        Some(b) => b,
        None => return Err(no_domain(here.around.alloc, at, base)),
    };
    let first = shape_in(engine, &a);
    let second = shape_in(engine, &b);
    domain_call(engine, at, base, first.rows, second.rows)
}
