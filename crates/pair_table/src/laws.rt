//! The laws of names, each the contract of a function with an empty body.
ghost use Rattle.pair_table.specs.Laws.{NamesAreSets, NamesStay, PairsStand, KidsStand};

use crate::seats::Seat;

/// `a = b` if and only if `set(a) = set(b)`, for two names that stand at one depth in the view of a seat, whichever
/// threads made them.
pub fn names_are_sets(seat: &Seat)
    ensures { NamesAreSets seat.now }
{
    // This use makes the checker open the invariant of `seat`, which the law follows from.
    let _ = &seat.inner;
}

/// A name never changes its word or its set: it keeps both in all words that extend those in which it stands, as every
/// call, `split`, `join` and `close` promise.
pub fn names_stay()
    ensures { NamesStay }
{}

/// `set(n)` is the pairing of `set(a)` and `set(b)` if n is the name of the pair (a, b), and the cells of a block if n
/// is the block's name; both stand in the view.
pub fn pairs_stand()
    ensures { PairsStand }
{}

/// `set(n)` is the pairing of the sets of the two halves of n, and both halves stand at the depth below, for each name
/// n that stands above depth 0 in the view of a seat.
pub fn kids_stand(seat: &Seat)
    ensures { KidsStand seat.now }
{
    let _ = &seat.inner;
}
