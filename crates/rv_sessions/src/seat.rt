//! What a session owns.
use rel_model::engine_trait::Engine;
use rv_workspace::Book;
use turn_book::Pass;

/// The seat of a session: its pass of the book of names, and its engine.
#[derive(Drop)]
pub struct Seat<E: Engine> {
    pub pass: Pass<Book<E>>,
    pub engine: E,
}
