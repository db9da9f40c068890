//! The names of an expression and their types.
ghost use Rattle.std.specs.Prelude.{◌≡◌, ◌++◌, ◌∷◌, [], length, IfOk, OnOk};
ghost use Rattle.rv_types.specs.Shaping.{types_of, beside};

use lang_model::faults::StaticShape;
use lang_model::syntax::Name;
use rel_model::NoMemory;
use std::alloc::Global;

/// The type of a name: the first entry for it.
pub fn find(names: &[(Name, StaticShape)], name: &[u8]) -> Option<StaticShape>
    ensures { result ≡ types_of names.now name.now }
{
    'each: for pair in names {
        if pair.0.bytes() == name {
            return Some(pair.1);
        }
    }
    None
}

/// Adds a name with its type.
pub fn add(
    alloc: Global,
    names: &mut Vec<(Name, StaticShape)>,
    name: &Name,
    shape: StaticShape,
) -> Result<(), NoMemory>
    ensures { OnOk result (names.new.items ≡ names.old.items ++ (name.now, shape) ∷ []) }
{
    let own = name.copied(alloc)?;
    names.push((own, shape))?;
    Ok(())
}

/// Parameters with the types of their arguments.
pub fn bind(
    alloc: Global,
    params: &[Name],
    given: &[StaticShape],
) -> Result<Vec<(Name, StaticShape)>, NoMemory>
    requires { length params.now ≡ length given.now }
    ensures { IfOk result (λ names. names.items ≡ beside params.now given.now) }
{
    let mut names = Vec::new(alloc);
    'each: for i in 0..params.len() {
        let own = params[i].copied(alloc)?;
        names.push((own, given[i]))?;
    }
    Ok(names)
}
