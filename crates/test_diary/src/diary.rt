//! A list of events, kept by a turn book.
use run_model::event::Event;
use turn_book::Kept;

/// The events so far.
#[derive(Drop)]
pub struct Diary {
    pub house: u64,
    pub events: Vec<Event>,
}

impl Kept for Diary {
    ghost use base.Stored.{coded_ℕ};
    ghost use Rattle.turn_book.specs.Views.{no_start};

    ghost log = { λ d. d.events.items };

    ghost house = { λ d. coded_ℕ.code d.house };

    ghost start = { λ _. no_start };
}
