//! Values: whole relations, and thin ones as their lines.
ghost use Rattle.std.specs.Prelude.{◌≡◌, ◌<◌, ◌≤◌, ◌≢◌, ℕ};
ghost use Rattle.rel_slices.specs.Thin.{most_lines, line_of};

use rel_model::Rel;

/// The most lines of a thin relation. With this many, a test of two such relations, each first brought into its form,
/// just stays within the nodes that the language charges for it.
pub const MOST: u32 = 112;

/// The least size of the longer side of a thin relation.
pub const LEAST: u32 = 257;

/// A thin relation: one with at most `MOST` lines along its shorter side. Line `i` is its row `i`, or its column `i` if
/// `turned`; each is a relation of one row. 460 bytes.
#[derive(Clone, Copy)]
pub struct Thin {
    /// Whether the lines are columns.
    pub turned: bool,
    /// How many lines there are, at most `MOST`.
    pub count: u32,
    /// How many elements a line ranges over.
    pub other: u32,
    /// The name of each line.
    pub roots: [u32; MOST as usize],
}

/// A relation as the evaluator handles it, whole or as its lines. Some 460 bytes, nothing on the heap.
#[derive(Clone, Copy)]
pub enum Value {
    Whole(Rel),
    Lines(Thin),
}

impl Thin {
    /// `count` lines that are still to be put.
    pub fn blank(turned: bool, count: u32, other: u32) -> Thin
        requires { count ≤ most_lines }
        ensures turned { result.turned ≡ turned }
        ensures count { result.count ≡ count }
        ensures other { result.other ≡ other }
    {
        Thin {
            turned,
            count,
            other,
            roots: [0; MOST as usize],
        }
    }

    /// Line `i`, as a relation of one row.
    pub fn line(&self, i: u32) -> Rel
        requires { i < most_lines }
        ensures { result ≡ line_of self.now i }
    {
        Rel {
            rows: 1,
            cols: self.other,
            root: self.roots[i as usize],
        }
    }

    /// Puts a line at place `i`.
    pub fn put(&mut self, i: u32, line: Rel)
        requires place { i < most_lines }
        requires row { line.rows ≡ 1 }
        requires cols { line.cols ≡ self.old.other }
        ensures here { line_of self.new i ≡ line }
        ensures others { (k : ℕ) → k ≢ i → line_of self.new k ≡ line_of self.old k }
        ensures turned { self.new.turned ≡ self.old.turned }
        ensures count { self.new.count ≡ self.old.count }
        ensures other { self.new.other ≡ self.old.other }
    {
        self.roots[i as usize] = line.root;
    }
}
