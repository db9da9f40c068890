//! Events of the workspace.
use lang_model::syntax::Name;
use rel_model::Rel;

/// What an event does to the workspace. A name in it is on the heap.
pub enum Act {
    /// Nothing: the command took its relations here.
    Read,
    /// The name has this relation from here on.
    Assign { name: Name, rel: Rel },
    /// The name has no relation from here on.
    Remove { name: Name },
}

impl Drop for Act {
    fn drop(self) {
        match self {
            Act::Read => {}
            Act::Assign { name: _, rel: _ } => {}
            Act::Remove { name: _ } => {}
        }
    }
}

/// One event of the workspace. Sessions and commands count from 1.
#[derive(Drop)]
pub struct Event {
    pub session: u32,
    pub command: u32,
    pub act: Act,
}
