//! The trials that any worker of quads is put to, and a crew over a table of its own for each.
#![tactic(auto)]

use crate::domains;
use crate::domains::{examples, large, lists};
use crate::tables::table;
use fork_quads::{Crew, OpenGate};
use rel_model::quads_trait::Quads;
use std::alloc::Global;
use std::process::Abort;
use std::thread::Threads;

/// A trial for a worker of quads: each has an assertion of its own.
pub(crate) enum Trial {
    MembersOfThree,
    EmptyProducts,
    TwoOfFour,
    SumOfThree,
    GreatestProducts,
    SubsetsWithoutNumber,
    OneOverTheLimit,
    AtTheLimit,
    SmallSizes,
    LargerSizes,
    Subsets,
    ProductsWithOne,
    ProductsOfPowers,
    ProductsOfOthers,
    FullVectors,
    SmallLists,
    LargerLists,
    LongLists,
    SmallPairings,
    LargerPairings,
    SmallVectors,
    LongerVectors,
}

/// Puts a worker of quads to a trial.
fn put<Q: Quads>(rt: &impl Abort, alloc: Global, q: &mut Q, trial: Trial) {
    match trial {
        Trial::MembersOfThree => examples::members_of_three(rt, q),
        Trial::EmptyProducts => examples::empty_products(rt, q),
        Trial::TwoOfFour => examples::two_of_four(rt, q),
        Trial::SumOfThree => examples::sum_of_three(rt, q),
        Trial::GreatestProducts => examples::greatest_products(rt, q),
        Trial::SubsetsWithoutNumber => examples::subsets_without_number(rt, q),
        Trial::OneOverTheLimit => examples::one_over_the_limit(rt, q),
        Trial::AtTheLimit => examples::at_the_limit(rt, q),
        Trial::SmallSizes => domains::small_sizes(rt, alloc, q),
        Trial::LargerSizes => domains::larger_sizes(rt, alloc, q),
        Trial::Subsets => domains::subsets(rt, alloc, q),
        Trial::ProductsWithOne => large::products_with_one(rt, q),
        Trial::ProductsOfPowers => large::products_of_powers(rt, q),
        Trial::ProductsOfOthers => large::products_of_others(rt, q),
        Trial::FullVectors => large::full_vectors(rt, q),
        Trial::SmallLists => lists::small_lists(rt, alloc, q),
        Trial::LargerLists => lists::larger_lists(rt, alloc, q),
        Trial::LongLists => lists::long_lists(rt, alloc, q),
        Trial::SmallPairings => lists::small_pairings(rt, alloc, q),
        Trial::LargerPairings => lists::larger_pairings(rt, alloc, q),
        Trial::SmallVectors => lists::small_vectors(rt, alloc, q),
        Trial::LongerVectors => lists::longer_vectors(rt, alloc, q),
    }
}

/// Puts a crew of one worker over a table of its own to a trial.
pub(crate) fn on_a_crew<R: Threads + Abort + Sync>(rt: &R, alloc: Global, trial: Trial) {
    let (table, seat) = table(rt, alloc);
    let mut crew = Crew::new(rt, &table, seat, 1, &OpenGate);
    put(rt, alloc, &mut crew, trial);
}
