//! Engines over one table, split and joined along with their crews.
use crate::works::Works;
use fork_quads::Gate;
use rel_model::seated_trait::Seated;
use rel_slices::Remembered;
use std::thread::Threads;

impl<'t, R: Threads + Sync, G: Gate + Sync> Seated for Works<'t, R, G> {
    /// Splits off a second engine, over a crew that is split off.
    fn split(&mut self, spare: u32) -> Works<'t, R, G> {
        Works {
            crew: self.crew.split(spare),
            remembered: Remembered::none(),
        }
    }

    /// Joins two engines into one, with their crews joined. What the other one remembered is forgotten.
    fn join(&mut self, other: Works<'t, R, G>) {
        self.crew.join(other.crew);
    }
}
