//! Crews on one table are split and joined by splitting and joining their seats.
use crate::crew::Crew;
use crate::fork::Team;
use crate::gate::Gate;
use rel_model::seated_trait::Seated;
use std::thread::Threads;

impl<'t, R: Threads + Sync, G: Gate + Sync> Seated for Crew<'t, R, G> {
    /// A second crew, on a seat that is split off.
    fn split(&mut self, spare: u32) -> Crew<'t, R, G> {
        let _ = self.nodes.bottom();
        Crew {
            team: Team {
                rt: self.team.rt,
                gate: self.team.gate,
                workers: self.team.workers,
            },
            nodes: self.nodes.split(spare),
        }
    }

    /// Joins another crew into this one, by joining their seats.
    fn join(&mut self, other: Crew<'t, R, G>) {
        let Crew { team: _, nodes } = other;
        let _ = self.nodes.bottom();
        let _ = nodes.bottom();
        self.nodes.join(nodes);
    }
}
