//! How many pairs values of either form have.
#![tactic(auto, using(rel_values::proofs::Operating::fits_stays, rel_values::proofs::Operating::given_fits, rel_model::proofs::Workers::keeps_trans))]

use crate::cells::{Given, listed};
use crate::trial::{Trial, on_a_table};
use crate::values::built;
use rel_model::Shape;
use rel_slices::Remembers;
use rel_values::count;
use std::alloc::Global;
use std::process::Abort;
use std::thread::Threads;

/// Asserts that a relation of these sizes has its number of pairs whole, and in the form of its sizes.
pub(crate) fn are_counted<E: Remembers>(
    rt: &impl Abort,
    alloc: Global,
    engine: &mut E,
    shape: Shape,
) {
    let pairs = listed(rt, alloc, Given::First, shape);
    'forms: for is_formed in [false, true] {
        let value = built(rt, alloc, engine, Given::First, shape, is_formed);
        let Ok(counted) = count(alloc, engine, &value) else {
            panic!(rt; "no memory")
        };
        assert!(rt; counted == pairs.len() as u64, "{shape:?} {is_formed:?}");
    }
}

#[test]
fn values_of_either_form_and_direction_are_counted(rt: HostRuntime) {
    let alloc = rt.alloc();
    'lines: for lines in [0, 1, 64, 112] {
        let by_rows = Shape {
            rows: lines,
            cols: 300,
        };
        on_a_table(&rt, alloc, Trial::Counts(by_rows));
        let by_columns = Shape {
            rows: 300,
            cols: lines,
        };
        on_a_table(&rt, alloc, Trial::Counts(by_columns));
    }
}
