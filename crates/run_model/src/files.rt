//! Files as bytes: those that a run is given, and those that it writes after its page.
use lang_model::syntax::FileText;

/// A relation file named on the command line. Its name and bytes are on the heap.
#[derive(Drop)]
pub struct Loaded {
    pub name: String,
    pub bytes: Vec<u8>,
}

/// A file to be written after the page. Its name and bytes are on the heap.
#[derive(Drop)]
pub struct Save {
    pub name: FileText,
    pub bytes: Vec<u8>,
}
