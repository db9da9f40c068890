//! What is kept, the rule of a book, what a pass knows, and what each kind of step adds to that.
ghost use Rattle.std.specs.Prelude.{List};
ghost use Rattle.turn_book.specs.Entries.{Entry};
ghost use Rattle.turn_book.specs.Views.{House, Start};

use atomic_table::{Join, Play, Split, TableRule};
use run_model::event::Event;
use std::marker::PhantomData;
use std::snapshot::Snapshot;

/// A value with a log.
pub trait Kept {
    /// Its entries, oldest first.
    ghost log: { Self → List Entry };

    /// The identity that it belongs to.
    ghost house: { Self → House };

    /// The names with which it began.
    ghost start: { Self → Start };
}

/// How a book was made.
#[derive(Drop)]
pub struct Opening<S> {
    pub first: Snapshot<S>,
    pub passes: u32,
}

/// What a pass knows. No value of this type exists at run time; clauses read an array of it as a list of any length.
pub struct Known<S> {
    /// The value with which the book was made; none after the pass was joined to another.
    pub origin: Option<S>,
    /// How many passes it stands for: itself and those that may be split off; none after it was joined to another.
    pub parts: u64,
    /// Its ticket, while it waits or holds the turn.
    pub ticket: Option<u64>,
    /// Whether it has the turn.
    pub turn: bool,
    /// The log as it was last seen.
    pub seen: [Event; 0],
    /// The shorter of two logs after a join, until a further step shows that it is a prefix of the longer one.
    pub told: [Event; 0],
    /// The entries that it added itself.
    pub mine: [Event; 0],
    /// The entries of each pass that was joined to it.
    pub joined: [[Event; 0]; 0],
}

/// The rule: what holds of the words, the slot and all views at every moment. No bytes.
pub struct Order;

impl<S: Kept> TableRule<Option<S>, Known<S>, Opening<S>> for Order {
    ghost use Rattle.turn_book.specs.Origins.{origin_of};
    ghost use Rattle.turn_book.specs.Rule.{Holds, first_view};

    ghost holds = { Holds S.log (origin_of S.house S.start) };

    ghost first = { first_view };
}

/// Draws a ticket.
pub struct Draw;

impl<S> Play<Option<S>, Known<S>> for Draw {
    ghost use Rattle.turn_book.specs.Tells.{draw_tells};

    ghost then = { draw_tells };
}

/// Draws a ticket if it has the number named.
pub struct DrawWhere;

impl<S> Play<Option<S>, Known<S>> for DrawWhere {
    ghost use Rattle.turn_book.specs.Tells.{draw_where_tells};

    ghost then = { draw_where_tells };
}

/// Looks at the number that is being served.
pub struct Look;

impl<S: Kept> Play<Option<S>, Known<S>> for Look {
    ghost use Rattle.turn_book.specs.Origins.{origin_of};
    ghost use Rattle.turn_book.specs.Tells.{look_tells};

    ghost then = { look_tells S.log (origin_of S.house S.start) };
}

/// Serves the next number.
pub struct Serve;

impl<S: Kept> Play<Option<S>, Known<S>> for Serve {
    ghost use Rattle.turn_book.specs.Tells.{serve_tells};

    ghost then = { serve_tells S.log };
}

/// A load after a join, which shows that the shorter log is a prefix of the longer one.
pub struct Settle;

impl<S> Play<Option<S>, Known<S>> for Settle {
    ghost use Rattle.turn_book.specs.Tells.{settle_tells};

    ghost then = { settle_tells };
}

/// A view as two, when a pass is split.
pub struct Halves;

impl<S> Split<Known<S>> for Halves {
    ghost use Rattle.turn_book.specs.Rule.{left_of, right_of};

    ghost left = { left_of };

    ghost right = { right_of };
}

/// Two views as one, when passes are joined.
pub struct Both;

impl<S> Join<Known<S>> for Both {
    ghost use Rattle.turn_book.specs.Rule.{both_of, spent};

    ghost both = { both_of };

    ghost spent = { spent };
}
