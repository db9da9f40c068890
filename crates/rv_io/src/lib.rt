//! The outside of the program: shelves of files, sinks that take bytes, and calls that read and write them as a whole.
#![tactic(auto)]

pub(crate) mod calls;
pub mod file_shelf;
pub(crate) mod kept;
pub mod mem_shelf;
pub mod mem_sink;
pub mod outside;
pub mod reading;
pub mod stdout_sink;
pub mod sure_shelf;
pub mod sure_sink;
pub mod writing;

pub use file_shelf::FileShelf;
pub use mem_shelf::MemShelf;
pub use mem_sink::MemSink;
pub use outside::{Failed, NoMemory, Shelf, Sink};
pub use reading::{ReadError, read_all};
pub use stdout_sink::StdoutSink;
pub use sure_shelf::SureShelf;
pub use sure_sink::SureSink;
pub use writing::{WriteError, write_all};
