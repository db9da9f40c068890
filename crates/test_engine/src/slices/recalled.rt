//! What is remembered of relations that are walked or transposed: the pairs of a few, which walks ask for a list, and
//! the transpositions of a few.
#![tactic(auto)]

use rel_model::Rel;
use rel_slices::Remembered;
use std::alloc::Global;
use std::process::Abort;

/// A relation of 300 rows and columns with this name.
fn named(root: u32) -> Rel {
    Rel {
        rows: 300,
        cols: 300,
        root,
    }
}

/// Keeps a list of one pair for the relation of this name.
fn keep(rt: &impl Abort, alloc: Global, remembered: &mut Remembered, root: u32) {
    let mut pairs = Vec::new(alloc);
    let Ok(()) = pairs.push((root, root)) else {
        panic!(rt; "no memory")
    };
    remembered.keep_listing(named(root), pairs);
}

/// Whether the pairs of a relation are kept. They must be those that it was given, and are kept again.
fn has(rt: &impl Abort, remembered: &mut Remembered, r: Rel) -> bool {
    let Some(pairs) = remembered.take_listing(r) else {
        return false;
    };
    assert!(rt; pairs.len() == 1 && pairs[0] == (r.root, r.root), "{r:?}");
    remembered.keep_listing(r, pairs);
    true
}

#[test]
fn the_pairs_of_four_relations_are_kept_and_the_fifth_takes_the_place_of_the_first(
    rt: HostRuntime,
) {
    let mut remembered = Remembered::none();
    for root in 1..5 {
        keep(&rt, rt.alloc(), &mut remembered, root);
    }
    for root in 1..5 {
        assert!(&rt; has(&rt, &mut remembered, named(root)), "{root}");
    }
    assert!(&rt; !has(&rt, &mut remembered, named(5)));
    keep(&rt, rt.alloc(), &mut remembered, 5);
    assert!(&rt; !has(&rt, &mut remembered, named(1)));
    for root in 2..6 {
        assert!(&rt; has(&rt, &mut remembered, named(root)), "{root}");
    }
}

#[test]
fn pairs_that_were_used_again_outlast_those_kept_after_them(rt: HostRuntime) {
    let mut remembered = Remembered::none();
    for root in 1..5 {
        keep(&rt, rt.alloc(), &mut remembered, root);
    }
    assert!(&rt; has(&rt, &mut remembered, named(1)));
    keep(&rt, rt.alloc(), &mut remembered, 5);
    assert!(&rt; has(&rt, &mut remembered, named(1)));
    assert!(&rt; !has(&rt, &mut remembered, named(2)));
}

#[test]
fn pairs_are_kept_for_the_sizes_of_their_relation_alone(rt: HostRuntime) {
    let mut remembered = Remembered::none();
    keep(&rt, rt.alloc(), &mut remembered, 1);
    let wider = Rel {
        rows: 300,
        cols: 301,
        root: 1,
    };
    assert!(&rt; !has(&rt, &mut remembered, wider));
    assert!(&rt; has(&rt, &mut remembered, named(1)));
}

#[test]
fn relations_that_are_walked_in_turn_are_worth_a_list_at_their_second_and_fourth_walk(
    rt: HostRuntime,
) {
    let mut remembered = Remembered::none();
    for walk in 1..8 {
        for root in 1..9 {
            let worth = remembered.is_worth_listing(named(root));
            assert!(&rt; worth == (walk == 2 || walk == 4), "{root}: walk {walk}");
        }
    }
}

#[test]
fn relations_of_which_nine_are_walked_in_turn_are_never_worth_a_list(rt: HostRuntime) {
    let mut remembered = Remembered::none();
    for walk in 1..4 {
        for root in 1..10 {
            let worth = remembered.is_worth_listing(named(root));
            assert!(&rt; !worth, "{root}: walk {walk}");
        }
    }
}

#[test]
fn the_transpositions_of_eight_relations_are_remembered_and_the_ninth_takes_the_place_of_the_first(
    rt: HostRuntime,
) {
    let mut remembered = Remembered::none();
    for root in 1..9 {
        remembered.note_transposed(named(root), named(100 + root));
    }
    for root in 1..9 {
        assert!(&rt;
            remembered.transposed(named(root)) == Some(named(100 + root)),
            "{root}"
        );
    }
    remembered.note_transposed(named(9), named(109));
    assert!(&rt; remembered.transposed(named(1)).is_none());
    for root in 2..10 {
        assert!(&rt;
            remembered.transposed(named(root)) == Some(named(100 + root)),
            "{root}"
        );
    }
}

#[test]
fn a_transposition_is_remembered_for_the_sizes_of_its_relation_and_in_one_direction(
    rt: HostRuntime,
) {
    let mut remembered = Remembered::none();
    remembered.note_transposed(named(1), named(2));
    let wider = Rel {
        rows: 300,
        cols: 301,
        root: 1,
    };
    assert!(&rt; remembered.transposed(wider).is_none());
    assert!(&rt; remembered.transposed(named(2)).is_none());
}
