//! Whether two relations meet: disjoint ones, equal ones, and those that share only the last corner of their square.
#![tactic(auto, using(rel_model::proofs::Workers::keeps_stands, rel_model::proofs::Workers::keeps_trans, rel_model::proofs::Workers::gives_stands))]

ghost use Rattle.std.specs.Prelude.{◌≡◌, ◌≤◌, ◌<◌};
ghost use Rattle.rel_model.specs.Worker.{Worker, Stands, Keeps};

use crate::forks::{scattered, table_for};
use crate::twins::given;
use fork_quads::{Crew, OpenGate};
use rel_model::core_trait::Core;
use rel_model::{Rel, Shape};
use std::process::Abort;

/// Asserts that two relations meet if and only if their intersection has a pair, asked both before and after it is
/// made.
fn meet_where_they_share<C: Core>(rt: &impl Abort, core: &mut C, r: Rel, s: Rel)
    requires r_stands { Stands (C.worker core.old) r }
    requires s_stands { Stands (C.worker core.old) s }
    requires rows { r.rows ≡ s.rows }
    requires cols { r.cols ≡ s.cols }
    ensures { Keeps (C.worker core.old) (C.worker core.new) }
{
    let before = core.meets(r, s);
    let common = given(rt, core.inter(r, s));
    let share = !core.is_empty(common);
    assert!(rt; before == share, "before the intersection is made");
    let after = core.meets(s, r);
    assert!(rt; after == share, "after it is made");
}

/// Asserts that a pseudo-random relation of a square meets itself and another, and not its complement.
fn random_ones_meet<C: Core>(rt: &impl Abort, core: &mut C, size: u32)
    requires some { 0 < size }
    requires few { size ≤ 4096 }
{
    let shape = Shape {
        rows: size,
        cols: size,
    };
    let r = scattered(rt, core, shape, 2 * size, 1);
    let s = scattered(rt, core, shape, 2 * size, 2);
    meet_where_they_share(rt, core, r, s);
    assert!(rt; core.meets(r, r), "itself");
    let full = given(rt, core.full(shape));
    let rest = given(rt, core.diff(full, r));
    assert!(rt; !core.meets(r, rest), "its complement");
    assert!(rt; core.meets(r, full), "the full relation");
}

/// Asserts that two relations of a square that share only its last corner meet, and do not meet without it.
fn last_corners_meet<C: Core>(rt: &impl Abort, core: &mut C, size: u32)
    requires some { 0 < size }
    requires few { size ≤ 4096 }
{
    let shape = Shape {
        rows: size,
        cols: size,
    };
    let full = given(rt, core.full(shape));
    let corner = given(rt, core.single(shape, size - 1, size - 1));
    let r = scattered(rt, core, shape, 2 * size, 3);
    let first = given(rt, core.union(r, corner));
    let rest = given(rt, core.diff(full, first));
    assert!(rt; !core.meets(first, rest), "without the corner");
    let second = given(rt, core.union(rest, corner));
    assert!(rt; core.meets(first, second), "in the last corner");
}

#[test]
fn relations_meet_where_they_share_a_pair(rt: HostRuntime) {
    let (table, seat) = table_for(&rt, rt.alloc(), 1);
    let mut crew = Crew::new(&rt, &table, seat, 1, &OpenGate);
    'sizes: for size in [1, 8, 9, 64, 257] {
        random_ones_meet(&rt, &mut crew, size);
        last_corners_meet(&rt, &mut crew, size);
    }
}
