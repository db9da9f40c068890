//! The result of a batch.
use name_map::NameMap;
use rel_model::Rel;
use run_model::event::Event;
use rv_blocks::Versions;
use rv_sessions::Transcript;

/// The result of a batch: the engine with everything that its sessions made, its events, what each session answered in
/// the order of the scripts, and the names and versions that it leaves.
#[derive(Drop)]
pub struct BatchEnd<E> {
    pub engine: E,
    pub events: Vec<Event>,
    pub told: Vec<Transcript>,
    pub names: NameMap<Rel>,
    pub versions: Versions,
}
