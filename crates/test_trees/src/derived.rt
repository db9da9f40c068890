//! Residuals, the symmetric quotient and closures, compared with their formulas.
#![tactic(auto, using(rel_model::proofs::Workers::keeps_stands, rel_model::proofs::Workers::keeps_trans, rel_model::proofs::Workers::gives_stands))]

ghost use Rattle.std.specs.Prelude.{◌≡◌, ◌<◌, ◌≤◌, IfOk};
ghost use Rattle.rel_model.specs.Worker.{Worker, Stands, Keeps};

use crate::counting::Counting;
use crate::making::numbered;
use rel_closure::{identity, refl, trans, trans_counted};
use rel_model::core_trait::Core;
use rel_model::counter::Steps;
use rel_model::{Lack, Rel, Shape};
use rel_plain::Plain;
use rel_residual::{left, right, syq};
use std::alloc::Global;
use std::marker::Brand;
use std::process::Abort;
use std::sync::ledger::{Blank, Ledger};

/// The calls that are compared with their formulas.
#[derive(Clone, Copy)]
enum Call {
    Right,
    Left,
    Quotient,
    Transitive,
    Reflexive,
}

/// Whether a pair is in a relation that has a place for it.
fn at<C: Core>(rt: &impl Abort, core: &mut C, r: Rel, i: u32, j: u32) -> bool
    requires standing { Stands (C.worker core.old) r }
    ensures keeps { Keeps (C.worker core.old) (C.worker core.new) }
{
    assert!(rt; i < r.rows && j < r.cols);
    core.has(r, i, j)
}

/// Asserts that a pair is in a relation if and only if it is wanted.
fn has_as_wanted<C: Core>(rt: &impl Abort, core: &mut C, r: Rel, i: u32, j: u32, wanted: bool)
    requires standing { Stands (C.worker core.old) r }
    ensures keeps { Keeps (C.worker core.old) (C.worker core.new) }
{
    let found = at(rt, core, r, i, j);
    assert!(rt; found == wanted, "at {i}, {j}: {wanted} is wanted");
}

/// Whether the formula of a call holds of the pair (x, y) as far as the element z is concerned. It has to hold for all
/// z, or for some z.
fn holds<C: Core>(
    rt: &impl Abort,
    core: &mut C,
    call: Call,
    r: Rel,
    s: Rel,
    x: u32,
    y: u32,
    z: u32,
) -> bool
    requires left { Stands (C.worker core.old) r }
    requires right { Stands (C.worker core.old) s }
    ensures keeps { Keeps (C.worker core.old) (C.worker core.new) }
{
    match call {
        Call::Right => !at(rt, core, r, z, x) || at(rt, core, s, z, y),
        Call::Left => !at(rt, core, s, y, z) || at(rt, core, r, x, z),
        Call::Quotient => at(rt, core, r, z, x) == at(rt, core, s, z, y),
        Call::Transitive => at(rt, core, r, x, z) && at(rt, core, r, z, y),
        Call::Reflexive => x == y,
    }
}

/// Whether the formula of a call holds of the pair (x, y); walks have up to two steps.
fn formula<C: Core>(
    rt: &impl Abort,
    core: &mut C,
    call: Call,
    r: Rel,
    s: Rel,
    x: u32,
    y: u32,
) -> bool
    requires left { Stands (C.worker core.old) r }
    requires right { Stands (C.worker core.old) s }
    ensures keeps { Keeps (C.worker core.old) (C.worker core.new) }
{
    let (count, for_all) = match call {
        Call::Right => (r.rows, true),
        Call::Left => (r.cols, true),
        Call::Quotient => (r.rows, true),
        Call::Transitive => (r.rows, false),
        Call::Reflexive => (r.rows, false),
    };
    let mut all = true;
    let mut some = !for_all && at(rt, core, r, x, y);
    'elements: for z in 0..count {
        if holds(rt, core, call, r, s, x, y, z) {
            some = true;
        } else {
            all = false;
        }
    }
    if for_all { all } else { some }
}

/// The result of a call on two relations whose types fit it.
fn made<C: Core>(rt: &impl Abort, core: &mut C, call: Call, r: Rel, s: Rel) -> Rel
    requires left { Stands (C.worker core.old) r }
    requires right { Stands (C.worker core.old) s }
    ensures standing { Stands (C.worker core.new) result }
    ensures keeps { Keeps (C.worker core.old) (C.worker core.new) }
{
    assert!(rt; r.rows == s.rows && r.cols == s.cols);
    let found = match call {
        Call::Right => right(core, r, s),
        Call::Left => left(core, r, s),
        Call::Quotient => syq(core, r, s),
        Call::Transitive => {
            assert!(rt; r.rows == r.cols);
            trans(core, r)
        }
        Call::Reflexive => {
            assert!(rt; r.rows == r.cols);
            refl(core, r)
        }
    };
    match found {
        Ok(rel) => rel,
        Err(_) => panic!(rt; "no room"),
    }
}

/// Asserts that the result of a call on two relations is what its formula says of each pair.
fn is_its_formula<C: Core>(rt: &impl Abort, core: &mut C, call: Call, r: Rel, s: Rel)
    requires left { Stands (C.worker core.old) r }
    requires right { Stands (C.worker core.old) s }
    ensures keeps { Keeps (C.worker core.old) (C.worker core.new) }
{
    let found = made(rt, core, call, r, s);
    'rows: for x in 0..found.rows {
        'cols: for y in 0..found.cols {
            let want = formula(rt, core, call, r, s, x, y);
            has_as_wanted(rt, core, found, x, y, want);
        }
    }
}

/// Asserts the same for all pairs of relations of one type with sizes up to 2.
fn small_ones_are_their_formulas(rt: &impl Abort, alloc: Global, call: Call, shape: Shape)
    requires row { shape.rows ≤ 2 }
    requires col { shape.cols ≤ 2 }
{
    let mut plain = Plain::new(alloc);
    let all = 1u32 << (shape.rows * shape.cols);
    'firsts: for first in 0..all {
        'seconds: for second in 0..all {
            let r = numbered(rt, &mut plain, shape, first);
            let s = numbered(rt, &mut plain, shape, second);
            is_its_formula(rt, &mut plain, call, r, s);
        }
    }
}

#[test]
fn residuals_and_the_quotient_are_their_formulas(rt: HostRuntime) {
    'calls: for call in [Call::Right, Call::Left, Call::Quotient] {
        'rows: for rows in 0..3 {
            'cols: for cols in 0..3 {
                small_ones_are_their_formulas(&rt, rt.alloc(), call, Shape { rows, cols });
            }
        }
    }
}

#[test]
fn closures_are_their_formulas(rt: HostRuntime) {
    'calls: for call in [Call::Transitive, Call::Reflexive] {
        'sizes: for n in 0..3 {
            small_ones_are_their_formulas(&rt, rt.alloc(), call, Shape { rows: n, cols: n });
        }
    }
}

/// The relation of the pairs (i, i + 1), and (n - 1, 0) for a cycle.
fn path<C: Core>(core: &mut C, n: u32, is_cycle: bool) -> Result<Rel, Lack>
    requires some { 0 < n }
    requires few { n ≤ 64 }
    ensures standing { IfOk result (λ r. Stands (C.worker core.new) r × (r.rows ≡ n) × (r.cols ≡ n)) }
    ensures keeps { Keeps (C.worker core.old) (C.worker core.new) }
{
    let shape = Shape { rows: n, cols: n };
    let mut r = core.empty(shape)?;
    'vertices: for i in 1..n {
        let pair = core.single(shape, i - 1, i)?;
        r = core.union(r, pair)?;
    }
    if is_cycle {
        let pair = core.single(shape, n - 1, 0)?;
        r = core.union(r, pair)?;
    }
    Ok(r)
}

/// How many steps `trans_counted` counts on a path or a cycle, and how many compositions were made.
fn counted<L: Ledger>(
    rt: &impl Abort,
    alloc: Global,
    blank: Blank,
    n: u32,
    is_cycle: bool,
) -> (u64, u64)
    requires name { blank.name ≡ L.name }
    requires parts { blank.parts ≡ L.parts }
    requires whole { blank.parts ≡ 1 }
    requires some { 0 < n }
    requires few { n ≤ 64 }
{
    let mut core = Counting {
        plain: Plain::new(alloc),
        compositions: 0,
    };
    let Ok(r) = path(&mut core, n, is_cycle) else {
        panic!(rt; "no memory")
    };
    let mut steps: Steps<L> = Steps::new(blank);
    assert!(rt; trans_counted(&mut core, r, &mut steps).is_ok());
    (steps.count(), core.compositions)
}

#[test]
fn each_composition_of_a_closure_is_counted(rt: HostRuntime) {
    'sizes: for n in 1..41 {
        'kinds: for is_cycle in [false, true] {
            let (steps, compositions) = counted::<Brand>(
                &rt,
                rt.alloc(),
                Blank::new(1),
                n,
                is_cycle,
            );
            assert!(&rt; steps == compositions, "the steps of {n}");
            assert!(&rt; steps < 32 && 1u64 << steps <= 2 * n as u64 + 1);
        }
    }
}

/// The relation that a call made.
fn given(rt: &impl Abort, answer: Result<Rel, Lack>) -> Rel
    ensures { answer ≡ Ok result }
{
    match answer {
        Ok(rel) => rel,
        Err(_) => panic!(rt; "no room"),
    }
}

/// Asserts that the closure of a cycle of five is full.
fn cycle_is_full<C: Core>(rt: &impl Abort, core: &mut C) {
    let cycle = given(rt, path(core, 5, true));
    let full = given(rt, core.full(Shape { rows: 5, cols: 5 }));
    let closure = given(rt, trans(core, cycle));
    assert!(rt; core.same(closure, full));
}

/// Asserts that the closure of a path of five has the pairs whose first element is before the second.
fn path_is_not<C: Core>(rt: &impl Abort, core: &mut C) {
    let line = given(rt, path(core, 5, false));
    let ways = given(rt, trans(core, line));
    'rows: for i in 0..5 {
        'cols: for j in 0..5 {
            has_as_wanted(rt, core, ways, i, j, i < j);
        }
    }
}

#[test]
fn the_closure_of_a_cycle_is_full_and_of_a_path_it_is_not(rt: HostRuntime) {
    let mut plain = Plain::new(rt.alloc());
    cycle_is_full(&rt, &mut plain);
    path_is_not(&rt, &mut plain);
}

/// Asserts that the square of a path of three is the pair of its ends.
fn ends_of_three<C: Core>(rt: &impl Abort, core: &mut C) {
    let r = given(rt, path(core, 3, false));
    let square = given(rt, core.compose(r, r));
    'rows: for i in 0..3 {
        'cols: for j in 0..3 {
            has_as_wanted(rt, core, square, i, j, i == 0 && j == 2);
        }
    }
}

#[test]
fn the_square_of_two_steps_is_one_pair(rt: HostRuntime) {
    ends_of_three(&rt, &mut Plain::new(rt.alloc()));
}

/// Asserts what the symmetric quotient of a 2 × 3 relation of one pair by itself is.
fn quotient_of_one_pair<C: Core>(rt: &impl Abort, core: &mut C) {
    let r = given(rt, core.single(Shape { rows: 2, cols: 3 }, 0, 0));
    let quotient = given(rt, syq(core, r, r));
    'rows: for i in 0..3 {
        'cols: for j in 0..3 {
            has_as_wanted(rt, core, quotient, i, j, (i == 0) == (j == 0));
        }
    }
}

#[test]
fn the_quotient_of_one_pair_by_itself(rt: HostRuntime) {
    quotient_of_one_pair(&rt, &mut Plain::new(rt.alloc()));
}

/// Asserts that the identity of n elements has the diagonal only.
fn has_the_diagonal<C: Core>(rt: &impl Abort, core: &mut C, n: u32)
    requires { n ≤ 18 }
{
    let same = given(rt, identity(core, n));
    'rows: for i in 0..n {
        'cols: for j in 0..n {
            has_as_wanted(rt, core, same, i, j, i == j);
        }
    }
}

#[test]
fn the_identity_has_the_diagonal(rt: HostRuntime) {
    'sizes: for n in 0..18 {
        has_the_diagonal(&rt, &mut Plain::new(rt.alloc()), n);
    }
}
