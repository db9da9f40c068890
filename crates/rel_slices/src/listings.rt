//! The pairs of a few relations, those that were kept last first.
ghost use Rattle.std.specs.Prelude.{◌≡◌, ◌<◌, ◌≤◌, ◌+◌, ◌^◌, take, slice_index_or, None, length, IfSome};
ghost use Rattle.rel_model.specs.Worker.{Worker, Stands, set_of};
ghost use Rattle.rel_slices.specs.Remembering.{IsListed, AreListed, pairs_at, pairs_kept};

use rel_model::Rel;

/// Of how many relations the pairs are kept.
pub const LISTED: usize = 4;

/// Pairs are kept while they are at most this many together, which take 64 MB.
const MOST_KEPT: usize = 1 << 23;

/// A relation and its pairs. 40 bytes, and 8 for each pair.
#[derive(Drop)]
pub struct Listing {
    rel: Rel,
    pairs: Vec<(u32, u32)>,
}

/// The pairs of at most `LISTED` relations. Beyond the pairs it takes less than 200 bytes.
#[derive(Drop)]
pub struct Listings {
    kept: [Option<Listing>; LISTED],
}

impl Listings {
    /// Keeps nothing yet.
    pub fn none() -> Listings
        ensures { (w : Worker) → AreListed w result }
    {
        Listings {
            kept: [None, None, None, None],
        }
    }

    /// Takes out what is kept at a place, if it is the pairs of this relation.
    fn take_at(&mut self, place: usize, r: Rel) -> Option<Vec<(u32, u32)>>
        requires place { place < 4 }
        ensures pairs { (w : Worker) → AreListed w self.old
            → IfSome result (λ v. v.items ≡ (set_of w r).pairs) }
        ensures rest { (w : Worker) → AreListed w self.old → AreListed w self.new }
    {
        match std::mem::replace(&mut self.kept[place], None) {
            Some(Listing { rel, pairs }) => {
                if rel == r {
                    return Some(pairs);
                }
                self.kept[place] = Some(Listing { rel, pairs });
                None
            }
            None => None,
        }
    }

    /// The pairs of a relation, if they are kept. They are kept no longer.
    pub fn take(&mut self, r: Rel) -> Option<Vec<(u32, u32)>>
        ensures pairs { (w : Worker) → AreListed w self.old
            → IfSome result (λ v. v.items ≡ (set_of w r).pairs) }
        ensures rest { (w : Worker) → AreListed w self.old → AreListed w self.new }
    {
        'places: for place in 0..LISTED {
            let found = self.take_at(place, r);
            if found.is_some() {
                return found;
            }
        }
        None
    }

    /// Puts something at a place, and gives back what was there.
    fn exchange(&mut self, place: usize, listing: Option<Listing>) -> Option<Listing>
        requires place { place < 4 }
        ensures own { (w : Worker) → AreListed w self.old → IfSome listing (IsListed w) → AreListed w self.new }
        ensures other { (w : Worker) → AreListed w self.old → IfSome result (IsListed w) }
    {
        std::mem::replace(&mut self.kept[place], listing)
    }

    /// Puts a relation's pairs first. Those before the first free place move on by one; without a free place the last
    /// go.
    fn put_first(&mut self, listing: Listing)
        ensures { (w : Worker) → AreListed w self.old → IsListed w listing → AreListed w self.new }
    {
        let mut moved = Some(listing);
        'places: for place in 0..LISTED {
            moved = self.exchange(place, moved);
            if moved.is_none() {
                return;
            }
        }
    }

    /// How many pairs are kept at a place.
    fn count_at(&self, place: usize) -> usize
        requires place { place < 4 }
        ensures { result ≡ pairs_at (slice_index_or self.now.kept place None) }
    {
        match &self.kept[place] {
            Some(listing) => listing.pairs.len(),
            None => 0,
        }
    }

    /// Lets go of what is kept at a place if it has more pairs than this. Returns how many more there may be.
    fn trim_at(&mut self, place: usize, room: usize) -> usize
        requires place { place < 4 }
        ensures listed { (w : Worker) → AreListed w self.old → AreListed w self.new }
        ensures places { length self.new.kept ≡ length self.old.kept }
        ensures within { pairs_kept (take (place + 1) self.new.kept) + result
            ≤ pairs_kept (take place self.old.kept) + room }
    {
        let count = self.count_at(place);
        if count <= room {
            return room - count;
        }
        self.kept[place] = None;
        room
    }

    /// Lets go of what has no room beside those before it.
    fn trim(&mut self)
        ensures listed { (w : Worker) → AreListed w self.old → AreListed w self.new }
        ensures within { pairs_kept self.new.kept ≤ 2 ^ 23 }
    {
        let mut room = MOST_KEPT;
        'places: for place in 0..LISTED {
            room = self.trim_at(place, room);
        }
    }

    /// Keeps the pairs of a relation. If there are `LISTED` others, or too many pairs, those go that were kept longest
    /// ago.
    pub fn keep(&mut self, rel: Rel, pairs: Vec<(u32, u32)>)
        ensures listed { (w : Worker) → AreListed w self.old → Stands w rel → pairs.items ≡ (set_of w rel).pairs
            → AreListed w self.new }
        ensures within { pairs_kept self.new.kept ≤ 2 ^ 23 }
    {
        self.put_first(Listing { rel, pairs });
        self.trim();
    }
}
