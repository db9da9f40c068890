//! The transpositions of a few relations, so that a loop over `R^*v` transposes R only once.
ghost use Rattle.rel_model.specs.Worker.{Worker, Stands};
ghost use Rattle.std.specs.Prelude.{IfSome};
ghost use Rattle.rel_slices.specs.Remembering.{IsTransposeOf, AreTransposed};

use rel_model::Rel;

/// Of how many relations the transposition is remembered.
pub const TURNED: u32 = 8;

/// A relation and its transposition. 24 bytes.
#[derive(Clone, Copy)]
pub struct Turning {
    pub rel: Rel,
    pub transposed: Rel,
}

/// The transpositions of the `TURNED` relations that were noted last. Some 240 bytes.
#[derive(Drop)]
pub struct Turnings {
    next: u32,
    kept: [Option<Turning>; TURNED as usize],
}

impl Turnings {
    /// Remembers nothing yet.
    pub fn none() -> Turnings
        ensures { (w : Worker) → AreTransposed w result }
    {
        Turnings {
            next: 0,
            kept: [None; TURNED as usize],
        }
    }

    /// The transposition of a relation, if it is remembered.
    pub fn transposed(&self, r: Rel) -> Option<Rel>
        ensures { (w : Worker) → AreTransposed w self.now → IfSome result (IsTransposeOf w r) }
    {
        'each: for place in &self.kept {
            if let Some(turning) = place {
                if turning.rel == r {
                    return Some(turning.transposed);
                }
            }
        }
        None
    }

    /// Remembers the transposition of a relation, in place of the one that was noted first.
    pub fn note(&mut self, rel: Rel, transposed: Rel)
        ensures { (w : Worker) → AreTransposed w self.old → Stands w rel → IsTransposeOf w rel transposed
            → AreTransposed w self.new }
    {
        let place = (self.next % TURNED) as usize;
        self.kept[place] = Some(Turning { rel, transposed });
        self.next = self.next.wrapping_add(1);
    }
}
