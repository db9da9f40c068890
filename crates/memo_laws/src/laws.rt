//! The laws of equations, each the contract of a function with an empty body.
ghost use Rattle.memo_laws.specs.Laws.{EquationsAreReadBack, EquationsStay};

/// A true equation stays true in all words that extend those in which it is, as every call on a seat promises.
pub fn equations_stay()
    ensures { EquationsStay }
{}

/// Two different equations that are true in the words of one view never have both the same word and the same slot.
pub fn equations_are_read_back()
    ensures { EquationsAreReadBack }
{}
