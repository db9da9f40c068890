//! The lines, pairs and transpositions that an engine remembers.
use crate::works::Works;
use fork_quads::Gate;
use rel_model::Rel;
use rel_slices::{Remembers, Thin};
use std::thread::Threads;

impl<'t, R: Threads + Sync, G: Gate + Sync> Remembers for Works<'t, R, G> {
    /// The lines of a relation, if they are remembered.
    fn lines_of(&self, r: Rel) -> Option<Thin> {
        // This use makes the checker open the invariant of `self`, which the call on its field below needs.
        let _ = &self.crew;
        self.remembered.lines_of(r)
    }

    /// Remembers the lines of a relation.
    fn note_lines(&mut self, r: Rel, lines: &Thin) {
        let _ = &self.crew;
        self.remembered.note(r, lines);
    }

    /// The pairs of a relation, if they are kept.
    fn take_listing(&mut self, r: Rel) -> Option<Vec<(u32, u32)>> {
        let _ = &self.crew;
        self.remembered.take_listing(r)
    }

    /// Keeps the pairs of a relation.
    fn keep_listing(&mut self, r: Rel, pairs: Vec<(u32, u32)>) {
        let _ = &self.crew;
        self.remembered.keep_listing(r, pairs);
    }

    /// Notes that a relation was walked, and tells whether its pairs are now worth a list.
    fn is_worth_listing(&mut self, r: Rel) -> bool {
        let _ = &self.crew;
        self.remembered.is_worth_listing(r)
    }

    /// The transposition of a relation, if it is remembered.
    fn transposed(&self, r: Rel) -> Option<Rel> {
        let _ = &self.crew;
        self.remembered.transposed(r)
    }

    /// Remembers the transposition of a relation.
    fn note_transposed(&mut self, r: Rel, transposed: Rel) {
        let _ = &self.crew;
        self.remembered.note_transposed(r, transposed);
    }
}
