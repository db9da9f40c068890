//! What every command needs.
use crate::by::By;
use rel_model::engine_trait::Engine;
use run_model::files::Loaded;
use rv_types::Checked;
use rv_workspace::Book;
use std::alloc::Global;
use turn_book::TurnBook;

/// The task of a command: its numbers, the script that it belongs to, and what its session shares with the others.
pub(crate) struct Task<'a, E: Engine, W> {
    pub(crate) alloc: Global,
    pub(crate) by: By,
    pub(crate) checked: &'a Checked,
    pub(crate) files: &'a [Loaded],
    pub(crate) turns: u64,
    pub(crate) book: &'a TurnBook<Book<E>>,
    pub(crate) wait: &'a W,
}

impl<E: Engine, W> Drop for Task<'_, E, W> {
    fn drop(self) {
        let Task {
            alloc: _,
            by: _,
            checked: _,
            files: _,
            turns: _,
            book: _,
            wait: _,
        } = self;
    }
}
