//! How often the relations that were walked lately have been walked.
use rel_model::Rel;

/// How many relations are remembered as walked.
const WALKED: usize = 8;

/// A relation, and how often it was walked. 16 bytes.
#[derive(Clone, Copy)]
struct Walked {
    rel: Rel,
    walks: u32,
}

/// The `WALKED` relations that were walked last, the last one first. Some 160 bytes.
#[derive(Drop)]
pub struct Walks {
    last: [Option<Walked>; WALKED],
}

impl Walks {
    /// Nothing was walked yet.
    pub fn none() -> Walks {
        Walks {
            last: [None; WALKED],
        }
    }

    /// How often a relation was walked, as far as it is remembered.
    fn walks_of(&self, r: Rel) -> u32 {
        'places: for place in &self.last {
            if let Some(walked) = place {
                if walked.rel == r {
                    return walked.walks;
                }
            }
        }
        0
    }

    /// Puts a relation first. Those before its old place move on by one; without an old or a free place the last goes.
    fn put_first(&mut self, walked: Walked) {
        let mut moved = Some(walked);
        'places: for place in 0..WALKED {
            let next = self.last[place];
            self.last[place] = moved;
            moved = next;
            let ends = match next {
                Some(other) => other.rel == walked.rel,
                None => true,
            };
            if ends {
                return;
            }
        }
    }

    /// Notes a walk of a relation. Returns how many there have been lately, with this one.
    pub fn note(&mut self, rel: Rel) -> u32 {
        let walks = self.walks_of(rel).saturating_add(1);
        self.put_first(Walked { rel, walks });
        walks
    }
}
