//! Which command of which session acts.

/// The numbers of a session and of its command, both from 1. 8 bytes.
#[derive(Clone, Copy)]
pub(crate) struct By {
    pub(crate) session: u32,
    pub(crate) command: u32,
}
