//! Names bound to values.
ghost use Rattle.std.specs.Prelude.{◌<◌, length, IfSome};

use crate::listed::Listed;
use std::alloc::Global;
use std::process::Abort;

/// A name and its value. On the heap.
#[derive(Drop)]
pub(crate) struct Named {
    name: Vec<u8>,
    value: Listed,
}

/// The index of a name.
fn place_of(names: &[Named], name: &[u8]) -> Option<usize>
    ensures { IfSome result (λ place. place < length names.now) }
{
    'places: for place in 0..names.len() {
        if names[place].name.as_slice() == name {
            return Some(place);
        }
    }
    None
}

/// Binds a name to a value.
pub(crate) fn set(
    rt: &impl Abort,
    alloc: Global,
    names: &mut Vec<Named>,
    name: &[u8],
    value: Listed,
) {
    if let Some(place) = place_of(names.as_slice(), name) {
        names[place].value = value;
        return;
    }
    match Vec::from_slice(alloc, name) {
        Ok(name) => {
            if names.push(Named { name, value }).is_err() {
                panic!(rt; "no memory");
            }
        }
        Err(_) => panic!(rt; "no memory"),
    }
}

/// The value of a name.
pub(crate) fn find<'a>(names: &'a [Named], name: &[u8]) -> Option<&'a Listed> {
    'names: for named in names {
        if named.name.as_slice() == name {
            return Some(&named.value);
        }
    }
    None
}
