//! Faults during the walk, with their names still in the script, and the first of them.
ghost use Rattle.std.specs.Prelude.{◌≡◌, ◌==◌, ◌&&◌, ◌||◌, nat_lt, length, Some, IfOk, OnErr};
ghost use Rattle.lang_model.specs.Checking.{precedes as precedes_as, domain_operator_text};
ghost use Rattle.rv_types.specs.Found.{number_as, spelled, fault, fault_as, IsTooMany, told, noting};

use lang_model::faults::TypeFault;
use lang_model::syntax::{Base, Name, Place};
use rel_model::NoMemory;
use std::alloc::Global;

/// What a fault names.
#[derive(Clone, Copy)]
pub enum Spelled<'a> {
    /// A name of the script.
    Name(&'a Name),
    /// A domain operator.
    Operator(Base),
}

/// What is wrong.
#[derive(Clone, Copy)]
pub enum Cause {
    Unknown,
    Arity { takes: usize, given: usize },
    Unassigned,
    Rank,
    Twice,
}

/// A fault, with its name still in the script.
#[derive(Clone, Copy)]
pub struct Found<'a> {
    pub at: Place,
    pub cause: Cause,
    pub name: Spelled<'a>,
}

/// The number of a kind of faults.
fn number(cause: Cause) -> u32
    ensures { result ≡ number_as cause }
{
    match cause {
        Cause::Unknown => 1,
        Cause::Arity { .. } => 2,
        Cause::Unassigned => 3,
        Cause::Rank => 4,
        Cause::Twice => 9,
    }
}

/// Whether a number is less than another, or they are equal and the rest decides.
fn less_or(a: u32, b: u32, rest: bool) -> bool
    ensures { result ≡ (nat_lt a b || ((a == b) && rest)) }
{
    a < b || (a == b && rest)
}

/// Whether a fault comes before another: by line, then by column, then by number.
#[tactic(auto, using(crate::proofs::Order::precedes_of_fault))]
fn precedes(f: Found, g: Found) -> bool
    ensures { result ≡ precedes_as (fault f.entry) (fault g.entry) }
{
    let by_number = number(f.cause) < number(g.cause);
    let by_column = less_or(f.at.column, g.at.column, by_number);
    less_or(f.at.line, g.at.line, by_column)
}

/// The first of the faults so far and another one.
pub fn noted<'a>(so_far: Option<Found<'a>>, found: Found<'a>) -> Option<Found<'a>>
    ensures { told result ≡ noting (told so_far.entry) (fault found.entry) }
{
    match so_far {
        None => Some(found),
        Some(first) => {
            if precedes(found, first) {
                Some(found)
            } else {
                Some(first)
            }
        }
    }
}

/// The bytes of a domain operator.
fn operator_text(base: Base) -> &'static [u8]
    ensures text { result.now ≡ domain_operator_text base }
    ensures length { length result.now ≡ 3 }
{
    match base {
        Base::P1 => b"p-1",
        Base::P2 => b"p-2",
        Base::I1 => b"i-1",
        _ => b"i-2",
    }
}

/// The name in a fault, copied out of the script.
fn owned(alloc: Global, name: Spelled) -> Result<Name, NoMemory>
    ensures { IfOk result (λ n. n ≡ spelled name.entry) }
{
    match name {
        Spelled::Name(name) => name.copied(alloc),
        Spelled::Operator(base) => Name::new(alloc, operator_text(base)),
    }
}

/// The fault that was found, with its name. A number of arguments that does not fit into the fault's fields is reported
/// as lack of memory.
fn fault_with(found: Found, name: Name) -> Result<TypeFault, NoMemory>
    ensures fault { IfOk result (λ f. f ≡ fault_as found.entry.cause found.entry.at name) }
    ensures memory { OnErr result (IsTooMany found.entry.cause) }
{
    let at = found.at;
    match found.cause {
        Cause::Unknown => Ok(TypeFault::Unknown { at, name }),
        Cause::Arity { takes, given } => match (u32::try_from(takes), u32::try_from(given)) {
            (Ok(takes), Ok(given)) => Ok(TypeFault::Arity {
                at,
                name,
                takes,
                given,
            }),
            _ => Err(NoMemory),
        },
        Cause::Unassigned => Ok(TypeFault::Unassigned { at, name }),
        Cause::Rank => Ok(TypeFault::Rank { at, name }),
        Cause::Twice => Ok(TypeFault::Twice { at, name }),
    }
}

/// The fault that was found.
pub fn fault_of(alloc: Global, found: Found) -> Result<TypeFault, NoMemory>
    ensures { IfOk result (λ f. f ≡ fault found.entry) }
{
    let name = owned(alloc, found.name)?;
    fault_with(found, name)
}
