//! The squares visited so far, and their numbers.
ghost use Rattle.std.specs.Prelude.{◌≡◌, ◌+◌, ◌<◌, ◌^◌, ℕ, [], Some, slice_get, IfOk, OnOk};
ghost use Rattle.rel_model.specs.Worker.{Worker};
ghost use Rattle.indexmap.specs.IndexSet.{insert_key};
ghost use Rattle.k2_write.specs.Visiting.{same_quarters, Lists};

use indexmap::IndexSet;
use rel_model::NoMemory;
use std::alloc::Global;
use std::collections::HashMap;

/// The numbers of the quarters of a square: 0 without pairs, 1 for the cell, and otherwise from 2 on. 16 bytes.
#[derive(Clone, Copy, Debug, PartialEq, Eq, Hash)]
pub(crate) struct Quarters {
    pub(crate) nw: u32,
    pub(crate) ne: u32,
    pub(crate) sw: u32,
    pub(crate) se: u32,
}

/// The squares visited so far, in the order of the visits, each by its quarters. On the heap.
///
/// It also has the numbers of quads above the leaves, by height and name, and of leaves, by height and bits, so that
/// the quarters of each are visited once.
#[derive(Drop)]
pub(crate) struct Visits {
    pub(crate) squares: IndexSet<Quarters>,
    pub(crate) quads: HashMap<(u8, u32), u32>,
    pub(crate) leaves: HashMap<(u8, u64), u32>,
}

impl Visits {
    /// No visits.
    pub(crate) fn new(alloc: Global) -> Visits
        ensures { (w : Worker) (least : ℕ) → Lists w least [] result }
    {
        Visits {
            squares: IndexSet::new(alloc),
            quads: HashMap::new(alloc),
            leaves: HashMap::new(alloc),
        }
    }
}

/// The number of the square with these quarters, which is listed if it was not yet. Numbers count from 2 on. More
/// squares than four bytes can count are reported as lack of memory.
pub(crate) fn listed(squares: &mut IndexSet<Quarters>, quarters: Quarters) -> Result<u32, NoMemory>
    ensures keys { OnOk result (squares.new.keys ≡ insert_key same_quarters squares.old.keys quarters) }
    ensures number { IfOk result (λ n. (k : _) × (slice_get squares.new.keys k ≡ Some quarters) × (n ≡ k + 2)) }
{
    let (place, _is_new) = squares.insert_full(quarters)?;
    if place > (u32::MAX - 2) as usize {
        return Err(NoMemory);
    }
    Ok(place as u32 + 2)
}
