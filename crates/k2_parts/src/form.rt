//! The parts of a file: the listed quadrants with their heights, and the named roots.
use lang_model::syntax::Name;

/// A listed quadrant: the numbers of its quarters, north-west, north-east, south-west and south-east. 16 bytes.
///
/// Number 0 is the empty square at every height, and 1 is the full cell. The listed quadrants are numbered from 2 on in
/// the order of the list.
#[derive(Clone, Copy, PartialEq, Eq, Hash)]
pub struct Quadrant {
    pub nw: u32,
    pub ne: u32,
    pub sw: u32,
    pub se: u32,
}

/// A named relation of a file: its sizes, and the number of its square. The name is on the heap.
#[derive(Drop)]
pub struct NamedRoot {
    pub name: Name,
    pub rows: u32,
    pub cols: u32,
    pub root: u32,
}

/// The parts of a file, on the heap. `heights` has the height of each listed quadrant.
#[derive(Drop)]
pub struct Form {
    pub quads: Vec<Quadrant>,
    pub heights: Vec<u8>,
    pub roots: Vec<NamedRoot>,
}
