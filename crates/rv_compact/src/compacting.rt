//! The call of the crate.
ghost use Rattle.std.specs.Prelude.{◌≡◌, ◌≤◌, ◌^◌, ℕ, IfOk, IfErr, OnOk};
ghost use Rattle.rel_model.specs.Uses.{uses_count};
ghost use Rattle.rel_model.specs.Words.{least_bits, most_bits};
ghost use Rattle.rv_compact.specs.Compacted.{IsTable, AllStand, IsCompacted, HasCause, nodes_of, node_room};

use crate::copy::{copy_uses, move_rels};
use crate::walk::reached_uses;
use pair_table::{LEAST_BITS, MEMO_SLOTS, MOST_BITS};
use rel_model::Rel;
use std::alloc::Global;

/// Why relations are not moved into fresh words. 16 bytes.
#[derive(Clone, Copy, Debug, PartialEq, Eq)]
pub enum CompactRefused {
    /// The relations reach more uses than a table has room for.
    Full { uses: u64 },
    /// Memory ran out.
    NoMemory,
}

/// The binary logarithm of a number of node words, which is a power of 2.
fn bits_of(size: usize) -> u32
    requires { (bits : ℕ) × (least_bits ≤ bits) × (bits ≤ most_bits) × (size ≡ 2 ^ bits) }
    ensures power { 2 ^ result ≡ size }
    ensures low { least_bits ≤ result }
    ensures high { result ≤ most_bits }
{
    'bits: for bits in LEAST_BITS..MOST_BITS {
        if power_of_two(bits) == size {
            return bits;
        }
    }
    MOST_BITS
}

/// `2 ^ bits`.
fn power_of_two(bits: u32) -> usize
    requires { bits ≤ most_bits }
    ensures { result ≡ 2 ^ bits }
{
    1 << bits
}

/// The relations in fresh words of a table of the same size, which store exactly the nodes that they reach. Refused if
/// they reach more uses, each a level and a node, than the table has room for: one new node for each use is always
/// enough. (Cheney's copying of what is reachable.)
pub fn compact(
    alloc: Global,
    words: &[u64],
    rels: &[Rel],
) -> Result<(Vec<u64>, Vec<Rel>), CompactRefused>
    requires table { IsTable words.now }
    requires stand { AllStand (nodes_of words.now) rels.now }
    ensures compacted { IfOk result (λ r. IsCompacted words.now rels.now r.0.items r.1.items) }
    ensures stand { IfOk result (λ r. AllStand (nodes_of r.0.items) r.1.items) }
    ensures fits { OnOk result (uses_count (nodes_of words.now) rels.now ≤ node_room words.now) }
    ensures full { IfErr result (HasCause words.now rels.now) }
{
    let size = words.len() - MEMO_SLOTS as usize;
    let nodes = &words[..size];
    let Ok(uses) = reached_uses(alloc, nodes, rels) else {
        return Err(CompactRefused::NoMemory);
    };
    if uses.len() > size - 2 {
        return Err(CompactRefused::Full {
            uses: uses.len() as u64,
        });
    }
    let Ok(mut new) = vec![in alloc; 0u64; words.len()] else {
        return Err(CompactRefused::NoMemory);
    };
    let (fresh, _memo) = new.split_at_mut(size);
    let Ok(names) = copy_uses(alloc, nodes, &uses, bits_of(size), fresh) else {
        return Err(CompactRefused::NoMemory);
    };
    let Ok(moved) = move_rels(alloc, rels, &uses, &names) else {
        return Err(CompactRefused::NoMemory);
    };
    Ok((new, moved))
}
