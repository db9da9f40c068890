//! A strip of leaves as words, so that each leaf is read once.
ghost use Rattle.std.specs.Prelude.{◌≡◌, ◌^◌, IfOk};
ghost use Rattle.rel_model.specs.Relation.{size_limit};
ghost use Rattle.rel_steps.specs.Reading.{OnlyReads};
ghost use Rattle.rel_listing.specs.Strips.{IsStrip, AreWords};

use rel_model::quads_trait::Quads;
use rel_model::{NoMemory, Quad};
use std::alloc::Global;

/// The words of a strip of leaves, each with its first column.
pub(crate) fn words_of<Q: Quads>(
    alloc: Global,
    q: &mut Q,
    strip: &[(Quad, u32)],
) -> Result<Vec<(u64, u32)>, NoMemory>
    requires { IsStrip (Q.worker q.old) Q.least size_limit strip.now }
    ensures words { IfOk result (λ v. AreWords (Q.worker q.old) (2 ^ Q.least) strip.now v.items) }
    ensures reads { OnlyReads (Q.worker q.old) (Q.worker q.new) }
{
    let mut words = Vec::with_capacity(alloc, strip.len())?;
    'quads: for (quad, column) in strip {
        let bits = q.bits(*quad);
        words.push((bits, *column))?;
    }
    Ok(words)
}

/// How many cells the words of a strip have.
pub(crate) fn cells_of(words: &[(u64, u32)]) -> usize {
    let mut cells: usize = 0;
    'words: for (bits, _) in words {
        cells = cells.saturating_add(bits.count_ones() as usize);
    }
    cells
}
