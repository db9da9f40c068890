//! What remains of a batch of scripts after its table was closed and before the next batch begins.
use lang_model::syntax::Name;
use rel_model::Rel;

/// A finished batch: how many events there were up to its end, the words of its table, and the names that lived on,
/// with their relations in these words. On the heap.
#[derive(Drop)]
pub struct OldBatch {
    pub upto: u64,
    pub words: Vec<u64>,
    pub live: Vec<(Name, Rel)>,
}
