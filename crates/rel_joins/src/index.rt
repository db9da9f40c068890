//! Where the rows of a sorted list of pairs begin.
ghost use Rattle.std.specs.Prelude.{◌≡◌, ◌<◌, ◌≤◌, IfOk, OnOk, length};
ghost use Rattle.rel_model.specs.Relation.{IsIncreasing};
ghost use Rattle.rel_joins.specs.Starts.{Fills, IsIndex};

use rel_model::NoMemory;
use std::alloc::Global;

/// Appends a value until a list has an entry at a place.
fn fill(starts: &mut Vec<usize>, place: u32, value: usize) -> Result<(), NoMemory>
    ensures fills { Fills place value starts.old.items starts.new.items }
    ensures over { OnOk result (place < length starts.new.items) }
{
    'places: while starts.len() <= place as usize {
        starts.push(value)?;
    }
    Ok(())
}

/// For each number up to `rows`, how many pairs have a lower row.
pub(crate) fn index_of(
    alloc: Global,
    rows: u32,
    pairs: &[(u32, u32)],
) -> Result<Vec<usize>, NoMemory>
    requires { IsIncreasing pairs.now }
    ensures { IfOk result (λ v. IsIndex rows pairs.now v.items) }
{
    let mut starts = Vec::new(alloc);
    'pairs: for (k, (row, _)) in pairs.iter().enumerate() {
        fill(&mut starts, *row, k)?;
    }
    fill(&mut starts, rows, pairs.len())?;
    Ok(starts)
}
