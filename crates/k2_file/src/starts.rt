//! Where the levels of a file's tree begin.
ghost use Rattle.std.specs.Prelude.{◌≡◌, ◌<◌, ◌≤◌, ◌-◌, take, true, length};
ghost use Rattle.rel_model.specs.Relation.{size_height};
ghost use Rattle.run_model.specs.Files.{levels_fit};
ghost use Rattle.k2_file.specs.Told.{bits_in};
ghost use Rattle.k2_file.specs.Rests.{starts_of};

use crate::bits::Bits;
use rel_model::TOP_HEIGHT;

/// The greatest height of a file.
const TOP: usize = TOP_HEIGHT as usize;

/// Where the levels begin in T, counted in groups; the last entry is for L, which begins at its own first group.
pub(crate) fn starts(tree: &Bits<'_>, height: u8, groups: u64, cell_count: u64) -> [u64; TOP]
    requires low { 1 ≤ height }
    requires high { height ≤ size_height }
    requires fit { levels_fit (height - 1) groups (bits_in tree.now) cell_count ≡ true }
    ensures value { take height result ≡ starts_of (height - 1) groups 0 (bits_in tree.now) }
    ensures many { length result ≡ size_height }
{
    let mut places = [0; TOP];
    let mut groups = groups;
    let mut from = 0;
    'levels: for level in 1..height {
        places[level as usize - 1] = from;
        let next = tree.ones_in_groups(from, groups);
        from += groups;
        groups = next;
    }
    places
}
