//! The rule of the words, what a seat knows, and what each kind of step adds to that.
ghost use Rattle.pair_table.specs.Rule.{Holds, first_view, left_of, right_of, both_of, spent};
ghost use Rattle.pair_table.specs.Tells.{load_tells, place_tells, cut_tells, memo_load_tells, memo_store_tells};

use atomic_table::{Join, Play, Split, TableRule};

/// How a table starts: its size, how many seats it is made for, and its words, which are on the heap.
#[derive(Drop)]
pub struct Start {
    pub bits: u32,
    pub seats: u32,
    pub words: Vec<u64>,
}

/// What a seat knows. No value of this type exists at run time; clauses read an array of it as a list of any length.
pub struct Known {
    /// The words that it has seen, each at its place, and 0 at every other place.
    pub words: [u64; 0],
    /// The words seen by the seat that was joined to it last.
    pub told: [u64; 0],
    /// How many words it placed. The first seat also counts those with which the table started.
    pub made: u64,
    /// How many seats it stands for: itself and those that may be split off; none after it was joined to another.
    pub parts: u64,
    /// How many spare seats go to the next seat that is split off.
    pub cut: u64,
    /// The slot of its last memo step, and the word loaded or stored there.
    pub last: Option<(u64, u64)>,
}

/// The rule: what holds of the words and of all views at every moment. No bytes.
pub struct Order;

impl TableRule<(), Known, Start> for Order {
    ghost holds = { Holds };

    ghost first = { first_view };
}

/// A load of a node word.
pub struct Load;

impl Play<(), Known> for Load {
    ghost then = { load_tells };
}

/// A compare-exchange of a node word from 0, which places a word.
pub struct Place;

impl Play<(), Known> for Place {
    ghost then = { place_tells };
}

/// A compare-exchange of a number by itself, which only writes the number into the view.
pub struct Cut;

impl Play<(), Known> for Cut {
    ghost then = { cut_tells };
}

/// A load of a memo word.
pub struct MemoLoad;

impl Play<(), Known> for MemoLoad {
    ghost then = { memo_load_tells };
}

/// A store of a memo word.
pub struct MemoStore;

impl Play<(), Known> for MemoStore {
    ghost then = { memo_store_tells };
}

/// A view as two, when a seat is split.
pub struct Halves;

impl Split<Known> for Halves {
    ghost left = { left_of };

    ghost right = { right_of };
}

/// Two views as one, when seats are joined.
pub struct Both;

impl Join<Known> for Both {
    ghost both = { both_of };

    ghost spent = { spent };
}
