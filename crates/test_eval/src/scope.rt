//! What names stand for: definitions, factors of products, arguments.
ghost use Rattle.std.specs.Prelude.{◌≡◌, ◌+◌};

use crate::listed::{Listed, copy};
use crate::named::{Named, find, set};
use crate::operators::spelled;
use lang_model::faults::TypeFault;
use lang_model::syntax::{Decl, Item, Name, Place};
use rv_eval::Refused;
use std::alloc::Global;
use std::process::Abort;

/// The refusal of a name that has no meaning where it is used.
fn unknown(rt: &impl Abort, alloc: Global, at: Place, name: &[u8]) -> Refused {
    Refused::Ill(TypeFault::Unknown {
        at,
        name: spelled(rt, alloc, name),
    })
}

/// The value of a name.
pub(crate) fn value_of_name(
    rt: &impl Abort,
    alloc: Global,
    names: &[Named],
    at: Place,
    name: &Name,
) -> Result<Listed, Refused> {
    match find(names, name.bytes()) {
        Some(value) => Ok(copy(rt, alloc, value)),
        None => Err(unknown(rt, alloc, at, name.bytes())),
    }
}

/// The definition of a name.
pub(crate) fn definition<'a>(items: &'a [Item], name: &[u8]) -> Option<&'a Item> {
    'items: for item in items {
        let is_it = match item {
            Item::Function { name: own, .. } => own.bytes() == name,
            Item::Program { name: own, .. } => own.bytes() == name,
            Item::Command(_) => false,
        };
        if is_it {
            return Some(item);
        }
    }
    None
}

/// How many elements the two operands of a declared domain have.
pub(crate) fn factors(
    rt: &impl Abort,
    decls: &[Decl],
    names: &[Named],
    domain: &[u8],
) -> (u32, u32) {
    'decls: for decl in decls {
        if let Decl::Domain {
            name,
            left,
            right,
            ..
        } = decl
        {
            if name.bytes() == domain {
                match (find(names, left.bytes()), find(names, right.bytes())) {
                    (Some(a), Some(b)) => return (a.rows, b.rows),
                    _ => panic!(rt; "no operand"),
                }
            }
        }
    }
    panic!(rt; "no domain")
}

/// One step less, or the end of the test if there is none.
pub(crate) fn less(rt: &impl Abort, steps: u32) -> u32
    ensures { result + 1 ≡ steps }
{
    if steps == 0 {
        panic!(rt; "too many steps in one another");
    }
    steps - 1
}

/// Binds parameters to their values.
pub(crate) fn bound(
    rt: &impl Abort,
    alloc: Global,
    params: &[Name],
    values: &[Listed],
) -> Vec<Named> {
    let mut names = Vec::new(alloc);
    'params: for i in 0..params.len() {
        match (params.get(i), values.get(i)) {
            (Some(param), Some(value)) => {
                set(rt, alloc, &mut names, param.bytes(), copy(rt, alloc, value))
            }
            _ => panic!(rt; "too few arguments"),
        }
    }
    names
}
