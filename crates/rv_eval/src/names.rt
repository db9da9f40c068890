//! The names of an evaluation, and what is bound to each.
ghost use Rattle.std.specs.Prelude.{◌≡◌, ◌≤◌, ℕ, max, List, length, map, cond, Some, IfOk, OnOk};
ghost use Rattle.lang_model.specs.Tokens.{same_text};
ghost use Rattle.rv_eval.specs.Names.{first_of, rel_of, beside};
ghost use Rattle.rv_eval.specs.Values.{most_named, whole_pair_of};

use lang_model::syntax::Name;
use rel_model::{NoMemory, Rel};
use rel_slices::Value;
use std::alloc::Global;

/// What is bound to a name. If the name occurs several times, its first entry counts.
pub fn find<T: Copy>(names: &[(Name, T)], name: &[u8]) -> Option<T>
    ensures { result ≡ first_of names.now name.now }
{
    'each: for pair in names {
        if pair.0.bytes() == name {
            return Some(pair.1);
        }
    }
    None
}

/// Binds a name, or rebinds it.
pub fn put<T: Copy>(
    alloc: Global,
    names: &mut Vec<(Name, T)>,
    name: &Name,
    own: T,
) -> Result<(), NoMemory>
    ensures found { OnOk result ((n : List ℕ) →
        first_of names.new.items n ≡ cond (same_text name.now n) (Some own) (first_of names.old.items n)) }
    ensures most { OnOk result ((h : T → ℕ) →
        most_named h names.new.items ≤ max (h own) (most_named h names.old.items)) }
{
    let count = names.len();
    'each: for i in 0..count {
        if names[i].0.bytes() == name.bytes() {
            names[i].1 = own;
            return Ok(());
        }
    }
    let copied = name.copied(alloc)?;
    names.push((copied, own))?;
    Ok(())
}

/// Binds a name to a relation.
pub fn set(
    alloc: Global,
    names: &mut Vec<(Name, Rel)>,
    name: &Name,
    rel: Rel,
) -> Result<(), NoMemory>
    ensures { OnOk result ((n : List ℕ) →
        rel_of names.new.items n ≡ cond (same_text name.now n) (Some rel) (rel_of names.old.items n)) }
{
    put(alloc, names, name, rel)
}

/// The names with their relations as values.
pub fn wholes(alloc: Global, names: &[(Name, Rel)]) -> Result<Vec<(Name, Value)>, NoMemory>
    ensures { IfOk result (λ v. v.items ≡ map whole_pair_of names.now) }
{
    let mut values = Vec::new(alloc);
    'each: for pair in names {
        let own = pair.0.copied(alloc)?;
        values.push((own, Value::Whole(pair.1)))?;
    }
    Ok(values)
}

/// Binds parameters to their values.
pub fn bind(
    alloc: Global,
    params: &[Name],
    values: &[Value],
) -> Result<Vec<(Name, Value)>, NoMemory>
    requires { length params.now ≡ length values.now }
    ensures { IfOk result (λ names. names.items ≡ beside params.now values.now) }
{
    let mut names = Vec::new(alloc);
    'each: for i in 0..params.len() {
        let own = params[i].copied(alloc)?;
        names.push((own, values[i]))?;
    }
    Ok(names)
}
