//! What the sessions of a batch share.
use rel_model::engine_trait::Engine;
use run_model::files::Loaded;
use rv_workspace::Book;
use std::alloc::Global;
use turn_book::TurnBook;

/// What the sessions of a batch share: the allocator, the relation files, how many turns the loops of an expression may
/// take, the book of names, and how they wait for it.
pub struct Setting<'a, E: Engine, W> {
    pub alloc: Global,
    pub files: &'a [Loaded],
    pub turns: u64,
    pub book: &'a TurnBook<Book<E>>,
    pub wait: &'a W,
}

impl<E: Engine, W> Drop for Setting<'_, E, W> {
    fn drop(self) {
        let Setting {
            alloc: _,
            files: _,
            turns: _,
            book: _,
            wait: _,
        } = self;
    }
}
