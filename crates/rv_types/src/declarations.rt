//! The faults of a program's declarations, and what they declare.
ghost use Rattle.std.specs.Prelude.{◌≡◌, ◌<◌, ◌||◌, ◌∷◌, [], ℕ, List, cond, length, IfOk, OnOk, OnErr};
ghost use Rattle.lang_model.specs.declared.faults.TypeFault.TheVariants.{Twice};
ghost use Rattle.lang_model.specs.Checking.{among, operand_faults, decl_faults, variables_of, domains_of, name_of as name_of_decl, place_of_decl};
ghost use Rattle.rv_types.specs.Found.{told, noted as noted_all};

use crate::found::{Cause, Found, Spelled, noted};
use crate::head::check_repeated;
use crate::names::Names;
use lang_model::syntax::{Decl, Name, Place};
use rel_model::NoMemory;

/// A domain must be of two parameters: the first of its two names that is not one is reported as unknown, at the
/// declaration.
fn check_operands<'a>(
    parameters: &Names<'a>,
    decl: &'a Decl,
    so_far: Option<Found<'a>>,
) -> Option<Found<'a>>
    ensures { told result ≡ noted_all (told so_far.entry) (operand_faults parameters.now decl.now) }
{
    match decl {
        Decl::Variable { .. } => so_far,
        Decl::Domain {
            at,
            left,
            right,
            ..
        } => {
            let name = if !parameters.has(left.bytes()) {
                left
            } else if !parameters.has(right.bytes()) {
                right
            } else {
                return so_far;
            };
            noted(
                so_far,
                Found {
                    at: *at,
                    cause: Cause::Unknown,
                    name: Spelled::Name(name),
                },
            )
        }
    }
}

/// The name of a declaration.
fn name_of(decl: &Decl) -> &Name
    ensures { result.now ≡ name_of_decl decl.now }
{
    match decl {
        Decl::Variable { name, .. } => name,
        Decl::Domain { name, .. } => name,
    }
}

/// The place of a declaration.
fn place_of(decl: &Decl) -> Place
    ensures { result ≡ place_of_decl decl.now }
{
    match decl {
        Decl::Variable { at, .. } => *at,
        Decl::Domain { at, .. } => *at,
    }
}

/// The faults of a declaration, given the names that are already taken.
fn check_decl<'a>(
    parameters: &Names<'a>,
    before: &Names<'a>,
    decl: &'a Decl,
    so_far: Option<Found<'a>>,
) -> Option<Found<'a>>
    ensures { told result ≡ noted_all (noted_all (told so_far.entry) (cond (among before.now (name_of_decl decl.now))
        (Twice (place_of_decl decl.now) (name_of_decl decl.now) ∷ []) [])) (operand_faults parameters.now decl.now) }
{
    let repeated = check_repeated(before, place_of(decl), name_of(decl), so_far);
    check_operands(parameters, decl, repeated)
}

/// The faults of declarations, given the names that are already taken. Adds their names to these.
fn check_decls_behind<'a>(
    parameters: &Names<'a>,
    before: &mut Names<'a>,
    decls: &'a [Decl],
    so_far: Option<Found<'a>>,
) -> Result<Option<Found<'a>>, NoMemory>
    ensures { IfOk result (λ r. told r ≡ noted_all (told so_far.entry)
        (decl_faults parameters.now before.old decls.now)) }
{
    let mut found = so_far;
    'each: for decl in decls {
        found = check_decl(parameters, before, decl, found);
        before.add(name_of(decl).bytes())?;
    }
    Ok(found)
}

/// The faults of declarations, given the parameters.
pub fn check_decls<'a>(
    parameters: &Names<'a>,
    decls: &'a [Decl],
    so_far: Option<Found<'a>>,
) -> Result<Option<Found<'a>>, NoMemory>
    ensures { IfOk result (λ r. told r ≡ noted_all (told so_far.entry)
        (decl_faults parameters.now parameters.now decls.now)) }
{
    let mut before = parameters.copied()?;
    check_decls_behind(parameters, &mut before, decls, so_far)
}

/// Adds the name of a declaration that is of a variable.
fn add_variable<'a>(names: &mut Names<'a>, decl: &'a Decl) -> Result<(), NoMemory>
    ensures { OnOk result ((n : List ℕ) → among names.new n
        ≡ (among (variables_of (decl.now ∷ [])) n || among names.old n)) }
{
    match decl {
        Decl::Variable { name, .. } => names.add(name.bytes()),
        Decl::Domain { .. } => Ok(()),
    }
}

/// Adds the declared variables to names.
pub fn add_variables<'a>(names: &mut Names<'a>, decls: &'a [Decl]) -> Result<(), NoMemory>
    ensures names { OnOk result ((n : List ℕ) → among names.new n
        ≡ (among (variables_of decls.now) n || among names.old n)) }
    ensures memory { OnErr result (0 < length decls.now) }
{
    'each: for decl in decls {
        add_variable(names, decl)?;
    }
    Ok(())
}

/// Adds the name of a declaration that is of a domain of this kind.
fn add_domain<'a>(names: &mut Names<'a>, sums: bool, decl: &'a Decl) -> Result<(), NoMemory>
    ensures { OnOk result ((n : List ℕ) → among names.new n
        ≡ (among (domains_of sums (decl.now ∷ [])) n || among names.old n)) }
{
    match decl {
        Decl::Variable { .. } => Ok(()),
        Decl::Domain { name, sum, .. } => {
            if *sum == sums {
                names.add(name.bytes())
            } else {
                Ok(())
            }
        }
    }
}

/// Adds the declared domains, those of SUM or those of PROD, to names.
pub fn add_domains<'a>(names: &mut Names<'a>, sums: bool, decls: &'a [Decl]) -> Result<(), NoMemory>
    ensures names { OnOk result ((n : List ℕ) → among names.new n
        ≡ (among (domains_of sums decls.now) n || among names.old n)) }
    ensures memory { OnErr result (0 < length decls.now) }
{
    'each: for decl in decls {
        add_domain(names, sums, decl)?;
    }
    Ok(())
}
