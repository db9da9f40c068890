//! A book as the value of a turn book: its log is its history, and it begins with its first names and versions.
use crate::book::Book;
use rel_model::seated_trait::Seated;
use turn_book::Kept;

impl<E: Seated> Kept for Book<E> {
    ghost use Rattle.rv_workspace.specs.Starts.{start_of};

    ghost log = { λ b. b.history };

    ghost house = { λ b. (E.worker b.archive).house };

    ghost start = { λ b. start_of b.first };
}
