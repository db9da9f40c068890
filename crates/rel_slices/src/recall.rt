//! Remembers the lines of relations, so that a named relation is cut into lines only once, and the pairs and the
//! transpositions of a few.
ghost use Rattle.std.specs.Prelude.{◌≡◌, ◌≤◌, ◌^◌, IfSome};
ghost use Rattle.rel_model.specs.Worker.{Worker, Stands, set_of};
ghost use Rattle.rel_slices.specs.Remembering.{AreLinesOf, IsTransposeOf, AllTrue, pairs_kept};

use crate::listings::Listings;
use crate::thin::Thin;
use crate::turnings::Turnings;
use crate::walks::Walks;
use rel_model::Rel;
use rel_model::engine_trait::Engine;

/// For how many relations the lines are remembered.
pub const REMEMBERED: u32 = 16;

/// A relation and its lines. 472 bytes.
#[derive(Clone, Copy)]
pub struct Entry {
    pub rel: Rel,
    pub lines: Thin,
}

/// The lines of the `REMEMBERED` relations that were noted last, the pairs of a few that were walked several times, and
/// the transpositions of a few.
/// Beyond the pairs it takes some 8 KB.
#[derive(Drop)]
pub struct Remembered {
    next: u32,
    entries: [Option<Entry>; REMEMBERED as usize],
    listings: Listings,
    walks: Walks,
    turnings: Turnings,
}

impl Remembered {
    /// Remembers nothing yet.
    pub fn none() -> Remembered
        ensures { (w : Worker) → AllTrue w result }
    {
        Remembered {
            next: 0,
            entries: [None; REMEMBERED as usize],
            listings: Listings::none(),
            walks: Walks::none(),
            turnings: Turnings::none(),
        }
    }

    /// The lines of a relation, if they are remembered.
    pub fn lines_of(&self, r: Rel) -> Option<Thin>
        ensures { (w : Worker) → AllTrue w self.now → IfSome result (AreLinesOf w r) }
    {
        'each: for place in &self.entries {
            if let Some(entry) = place {
                if entry.rel == r {
                    return Some(entry.lines);
                }
            }
        }
        None
    }

    /// Remembers the lines of a relation, in place of the one that was noted first.
    pub fn note(&mut self, rel: Rel, lines: &Thin)
        ensures { (w : Worker) → AllTrue w self.old → Stands w rel → AreLinesOf w rel lines.now → AllTrue w self.new }
    {
        if self.lines_of(rel).is_some() {
            return;
        }
        let place = (self.next % REMEMBERED) as usize;
        self.entries[place] = Some(Entry { rel, lines: *lines });
        self.next = self.next.wrapping_add(1);
    }

    /// The pairs of a relation, if they are kept. They are kept no longer: whoever takes them puts them back.
    pub fn take_listing(&mut self, r: Rel) -> Option<Vec<(u32, u32)>>
        ensures pairs { (w : Worker) → AllTrue w self.old
            → IfSome result (λ v. v.items ≡ (set_of w r).pairs) }
        ensures rest { (w : Worker) → AllTrue w self.old → AllTrue w self.new }
    {
        self.listings.take(r)
    }

    /// Keeps the pairs of a relation, maybe in place of those that were kept longest ago.
    pub fn keep_listing(&mut self, rel: Rel, pairs: Vec<(u32, u32)>)
        ensures all { (w : Worker) → AllTrue w self.old → Stands w rel → pairs.items ≡ (set_of w rel).pairs
            → AllTrue w self.new }
        ensures within { pairs_kept self.new.listings.kept ≤ 2 ^ 23 }
    {
        self.listings.keep(rel, pairs);
    }

    /// Notes that a relation was walked, and tells whether its pairs are now worth a list: at the second walk lately,
    /// the fourth, the eighth and so on. So a list that goes again and again costs little beside the walks.
    pub fn is_worth_listing(&mut self, r: Rel) -> bool
        ensures { (w : Worker) → AllTrue w self.old → AllTrue w self.new }
    {
        let walks = self.walks.note(r);
        walks > 1 && walks.is_power_of_two()
    }

    /// The transposition of a relation, if it is remembered.
    pub fn transposed(&self, r: Rel) -> Option<Rel>
        ensures { (w : Worker) → AllTrue w self.now → IfSome result (IsTransposeOf w r) }
    {
        self.turnings.transposed(r)
    }

    /// Remembers the transposition of a relation.
    pub fn note_transposed(&mut self, rel: Rel, transposed: Rel)
        ensures { (w : Worker) → AllTrue w self.old → Stands w rel → IsTransposeOf w rel transposed
            → AllTrue w self.new }
    {
        self.turnings.note(rel, transposed);
    }
}

/// An engine that may remember the lines, the pairs, or the transpositions of relations that stand in it.
pub trait Remembers: Engine {
    /// The lines of a relation, if they are remembered.
    fn lines_of(&self, r: Rel) -> Option<Thin>
        requires standing { Stands (Self.worker self.now) r }
        ensures lines { IfSome result (AreLinesOf (Self.worker self.now) r) };

    /// Notes the lines of a relation. It does not promise to remember them, nor for how long.
    fn note_lines(&mut self, r: Rel, lines: &Thin)
        requires standing { Stands (Self.worker self.old) r }
        requires means { AreLinesOf (Self.worker self.old) r lines.now }
        ensures same { Self.worker self.new ≡ Self.worker self.old };

    /// The pairs of a relation, if they are kept. They are kept no longer: whoever takes them puts them back.
    fn take_listing(&mut self, r: Rel) -> Option<Vec<(u32, u32)>>
        requires standing { Stands (Self.worker self.old) r }
        ensures pairs { IfSome result (λ v. v.items ≡ (set_of (Self.worker self.old) r).pairs) }
        ensures same { Self.worker self.new ≡ Self.worker self.old };

    /// Keeps the pairs of a relation. It does not promise to keep them, nor for how long.
    fn keep_listing(&mut self, r: Rel, pairs: Vec<(u32, u32)>)
        requires standing { Stands (Self.worker self.old) r }
        requires pairs { pairs.items ≡ (set_of (Self.worker self.old) r).pairs }
        ensures same { Self.worker self.new ≡ Self.worker self.old };

    /// Notes that a relation was walked, and tells whether its pairs are now worth a list. Nothing is promised.
    fn is_worth_listing(&mut self, r: Rel) -> bool
        ensures same { Self.worker self.new ≡ Self.worker self.old };

    /// The transposition of a relation, if it is remembered.
    fn transposed(&self, r: Rel) -> Option<Rel>
        requires standing { Stands (Self.worker self.now) r }
        ensures transposed { IfSome result (IsTransposeOf (Self.worker self.now) r) };

    /// Notes the transposition of a relation. It does not promise to remember it, nor for how long.
    fn note_transposed(&mut self, r: Rel, transposed: Rel)
        requires standing { Stands (Self.worker self.old) r }
        requires means { IsTransposeOf (Self.worker self.old) r transposed }
        ensures same { Self.worker self.new ≡ Self.worker self.old };
}
