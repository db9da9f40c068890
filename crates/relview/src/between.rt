//! What happens between two batches: the names that live on are moved into words for the next table.
ghost use Rattle.std.specs.Prelude.{◌≡◌, length, map, IfOk};
ghost use Rattle.run_model.specs.Names.{IsIncreasing};
ghost use Rattle.rv_compact.specs.Compacted.{IsTable, nodes_of};
ghost use Rattle.relview.specs.OverTable.{AllNamed};
ghost use Rattle.relview.specs.Between.{renamed, IsCarriedOn};

use lang_model::syntax::Name;
use name_map::NameMap;
use rel_model::{NoMemory, Rel};
use rv_compact::{CompactRefused, compact};
use std::alloc::Global;

/// Words for the next table, and the names with their relations in these words. On the heap.
#[derive(Drop)]
pub struct CarriedOn {
    pub words: Vec<u64>,
    pub names: NameMap<Rel>,
}

/// The relations of these names, in order.
fn rels_of(alloc: Global, live: &[(Name, Rel)]) -> Result<Vec<Rel>, NoMemory>
    ensures { IfOk result (λ rels. rels.items ≡ map (λ entry. entry.1) live.now) }
{
    let mut rels = Vec::new(alloc);
    'names: for entry in live {
        rels.push(entry.1)?;
    }
    Ok(rels)
}

/// Gives the names other relations: each gets the one at its own place.
fn with_rels(alloc: Global, live: &[(Name, Rel)], rels: &[Rel]) -> Result<NameMap<Rel>, NoMemory>
    requires order { IsIncreasing live.now }
    requires as_many { length rels.now ≡ length live.now }
    ensures { IfOk result (λ names. names ≡ renamed live.now rels.now) }
{
    let mut names = NameMap::new(alloc);
    let mut left = live.len();
    'names: while left > 0 {
        left -= 1;
        let name = live[left].0.copied(alloc)?;
        let _ = names.put(name, rels[left])?;
    }
    Ok(names)
}

/// The names, with their relations in words for the next table.
///
/// The relations are moved into fresh words, which store only what they reach. If this takes more uses of nodes than a
/// table has room for, the words are copied as they are.
pub fn carry_on(alloc: Global, words: &[u64], live: &[(Name, Rel)]) -> Result<CarriedOn, NoMemory>
    requires table { IsTable words.now }
    requires order { IsIncreasing live.now }
    requires stand { AllNamed (nodes_of words.now) live.now }
    ensures { IfOk result (IsCarriedOn words.now live.now) }
{
    let rels = rels_of(alloc, live)?;
    match compact(alloc, words, rels.as_slice()) {
        Ok((new, moved)) => {
            let names = with_rels(alloc, live, moved.as_slice())?;
            Ok(CarriedOn { words: new, names })
        }
        Err(CompactRefused::Full { uses: _ }) => {
            let names = with_rels(alloc, live, rels.as_slice())?;
            let again = Vec::from_slice(alloc, words)?;
            Ok(CarriedOn {
                words: again,
                names,
            })
        }
        Err(CompactRefused::NoMemory) => Err(NoMemory),
    }
}
