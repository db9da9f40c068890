//! What a session answers.
use run_model::files::Save;
use run_model::outcome::Outcome;

/// The reply to a command, with the numbers of its session and of itself. Its text is on the heap.
pub enum Reply {
    /// No reply: the command is done, and shows nothing.
    Nothing,
    /// A text of its own.
    Told {
        session: u32,
        command: u32,
        body: Vec<u8>,
    },
    /// A report that memory ran out, which takes no memory.
    NoMemory {
        session: u32,
        command: u32,
    },
}

impl Drop for Reply {
    fn drop(self) {
        match self {
            Reply::Nothing => {}
            Reply::Told {
                session: _,
                command: _,
                body: _,
            } => {}
            Reply::NoMemory {
                session: _,
                command: _,
            } => {}
        }
    }
}

/// The results of a session: for each item its outcome and its reply, and the files to be put, in order. A script that
/// does not run has one outcome and one reply, with number 0. On the heap.
#[derive(Drop)]
pub struct Transcript {
    pub replies: Vec<Reply>,
    pub saves: Vec<Save>,
    pub outcomes: Vec<Outcome>,
}
