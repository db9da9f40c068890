//! Crews of several workers: their answers, and which pieces a gate sees.
#![tactic(auto, using(rel_model::proofs::Workers::keeps_stands, rel_model::proofs::Workers::keeps_trans, rel_model::proofs::Workers::gives_stands))]

ghost use Rattle.std.specs.Prelude.{◌≡◌, ◌<◌, ◌≤◌, ◌+◌};
ghost use Rattle.rel_model.specs.Views.{IsOf};
ghost use Rattle.rel_model.specs.Quads.{Keeper};
ghost use Rattle.rel_model.specs.Worker.{Worker, Stands, Keeps};
ghost use Rattle.fork_quads.specs.Forks.{CanGroup, DidPieces};

use crate::calling::is_symmetric;
use crate::twins::{given, with_pair};
use fork_quads::{Crew, Gate, Job, OpenGate, Pieces, watched};
use pair_table::{Missed, PairTable, Seat};
use quad_nodes::Nodes;
use rel_model::core_trait::Core;
use rel_model::watch::Watch;
use rel_model::{Lack, Rel, Shape};
use std::alloc::Global;
use std::process::Abort;
use std::sync::atomic::{AtomicBool, AtomicU32, Ordering};
use std::thread;
use std::thread::Threads;

/// How often a piece looks for the others of its group at most.
const LOOKS: u32 = 1_000_000;

/// Holds each piece of a group until all of them have begun, and counts the pieces.
#[derive(Drop)]
struct Meeting {
    group: u32,
    begun: AtomicU32,
    ended: AtomicU32,
    gave_up: AtomicBool,
}

impl Meeting {
    /// A meeting of groups of this many pieces.
    fn new(group: u32) -> Meeting {
        Meeting {
            group,
            begun: AtomicU32::new(0),
            ended: AtomicU32::new(0),
            gave_up: AtomicBool::new(false),
        }
    }

    /// How many pieces have begun.
    fn begun(&self) -> u32 {
        self.begun.load(Ordering::SeqCst)
    }

    /// Waits until this many pieces have begun, and gives up after a number of looks.
    fn hold(&self, wanted: u32) {
        for _ in 0..LOOKS {
            if self.begun.load(Ordering::SeqCst) >= wanted {
                return;
            }
            thread::yield_now();
        }
        self.gave_up.store(true, Ordering::SeqCst);
    }
}

impl Watch for Meeting {
    fn begins(&self, piece: u32) {
        let _ = piece;
        let before = self.begun.fetch_add(1, Ordering::SeqCst);
        let group = self.group.max(1);
        self.hold((before / group).saturating_add(1).saturating_mul(group));
    }

    fn ends(&self, piece: u32) {
        let _ = piece;
        let _ = self.ended.fetch_add(1, Ordering::SeqCst);
    }
}

impl Gate for Meeting {
    fn group<R: Threads>(
        &self,
        rt: &R,
        job: Job,
        nodes: &mut Nodes,
        from: u32,
        count: u32,
    ) -> Result<Pieces, Missed> {
        watched(rt, self, job, nodes, from, count)
    }
}

/// With this many random pairs, a relation of 2048 rows and columns is so heavy that each operator forks on it.
const MANY: u32 = 6000;

/// A table of 2^20 node words for this many seats, and its first seat.
pub(crate) fn table_for(rt: &impl Abort, alloc: Global, seats: u32) -> (PairTable, Seat)
    requires some { 1 ≤ seats }
    requires few { seats ≤ 65 }
    ensures { IsOf result.1 result.0 }
{
    match PairTable::make(alloc, 20, seats) {
        Ok(made) => made,
        Err(_) => panic!(rt; "no memory"),
    }
}

/// A relation of a number of pseudo-random pairs.
pub(crate) fn scattered<C: Core>(
    rt: &impl Abort,
    core: &mut C,
    shape: Shape,
    count: u32,
    seed: u64,
) -> Rel
    requires row { shape.rows ≤ 4096 }
    requires col { shape.cols ≤ 4096 }
    requires some_row { 0 < shape.rows }
    requires some_col { 0 < shape.cols }
    ensures standing { Stands (C.worker core.new) result }
    ensures rows { result.rows ≡ shape.rows }
    ensures cols { result.cols ≡ shape.cols }
    ensures keeps { Keeps (C.worker core.old) (C.worker core.new) }
{
    let Ok(mut r) = core.empty(shape) else {
        panic!(rt; "refused")
    };
    let mut state = seed;
    'pairs: for _ in 0..count {
        state = state
            .wrapping_mul(6364136223846793005)
            .wrapping_add(1442695040888963407);
        let i = ((state >> 33) % shape.rows as u64) as u32;
        let j = ((state >> 48) % shape.cols as u64) as u32;
        r = with_pair(rt, core, r, i, j);
    }
    r
}

/// Two pseudo-random relations of 2048 rows and columns, so heavy that each operator forks on them.
fn heavy_pair<C: Core>(rt: &impl Abort, core: &mut C) -> (Rel, Rel)
    ensures left { Stands (C.worker core.new) result.0 }
    ensures right { Stands (C.worker core.new) result.1 }
    ensures left_rows { result.0.rows ≡ 2048 }
    ensures left_cols { result.0.cols ≡ 2048 }
    ensures right_rows { result.1.rows ≡ 2048 }
    ensures right_cols { result.1.cols ≡ 2048 }
{
    let shape = Shape {
        rows: 2048,
        cols: 2048,
    };
    let r = scattered(rt, core, shape, MANY, 1);
    let s = scattered(rt, core, shape, MANY, 2);
    (r, s)
}

/// Asserts how unions, intersections and differences of two relations are related.
fn differences_fit<C: Core>(rt: &impl Abort, core: &mut C, r: Rel, s: Rel)
    requires r_stands { Stands (C.worker core.old) r }
    requires s_stands { Stands (C.worker core.old) s }
    requires rows { r.rows ≡ s.rows }
    requires cols { r.cols ≡ s.cols }
    ensures { Keeps (C.worker core.old) (C.worker core.new) }
{
    let both = given(rt, core.union(r, s));
    let common = given(rt, core.inter(r, s));
    let only = given(rt, core.diff(both, s));
    let rest = given(rt, core.diff(r, common));
    assert!(rt; core.same(only, rest), "r + s - s is r - (r & s)");
    assert!(rt; !core.is_empty(both));
}

/// Asserts that a relation transposed twice is itself.
fn turns_back<C: Core>(rt: &impl Abort, core: &mut C, r: Rel)
    requires { Stands (C.worker core.old) r }
    ensures { Keeps (C.worker core.old) (C.worker core.new) }
{
    let turned = given(rt, core.transpose(r));
    let back = given(rt, core.transpose(turned));
    assert!(rt; core.same(back, r), "turned twice");
}

/// Asserts that a transposed product is the product of the transposed operands, in the other order.
fn products_turn<C: Core>(rt: &impl Abort, core: &mut C, r: Rel, s: Rel)
    requires r_stands { Stands (C.worker core.old) r }
    requires s_stands { Stands (C.worker core.old) s }
    requires middle { r.cols ≡ s.rows }
{
    let product = given(rt, core.compose(r, s));
    assert!(rt; !core.is_empty(product));
    let product_turned = given(rt, core.transpose(product));
    let turned = given(rt, core.transpose(r));
    let s_turned = given(rt, core.transpose(s));
    let turned_product = given(rt, core.compose(s_turned, turned));
    let same = core.same(product_turned, turned_product);
    assert!(rt; same, "the product turned");
}

/// Asserts laws that relate the five operators, on two pseudo-random relations.
fn fits_together<C: Core>(rt: &impl Abort, core: &mut C) {
    let (r, s) = heavy_pair(rt, core);
    differences_fit(rt, core, r, s);
    turns_back(rt, core, r);
    is_symmetric(rt, core, r);
    products_turn(rt, core, r, s);
}

#[test]
fn crews_of_several_workers_answer_by_the_laws(rt: HostRuntime) {
    'workers: for workers in [1, 2, 3, 4, 8, 64] {
        let (table, seat) = table_for(&rt, rt.alloc(), 65);
        let mut crew = Crew::new(&rt, &table, seat, workers, &OpenGate);
        fits_together(&rt, &mut crew);
    }
}

/// Unites and composes two pseudo-random relations.
fn unite_and_compose<C: Core>(rt: &impl Abort, core: &mut C) {
    let (r, s) = heavy_pair(rt, core);
    let _ = given(rt, core.union(r, s));
    let _ = given(rt, core.compose(r, s));
}

/// Asserts that a meeting has seen groups of this many pieces, none of which waited too long.
fn was_told(rt: &impl Abort, meeting: &Meeting, pieces: u32) {
    let gave_up = meeting.gave_up.load(Ordering::SeqCst);
    assert!(rt; !gave_up, "a piece waited too long");
    let begun = meeting.begun.load(Ordering::SeqCst);
    assert!(rt; meeting.ended.load(Ordering::SeqCst) == begun);
    assert!(rt; (begun > 0) == (pieces > 0));
    assert!(rt; pieces == 0 || begun % pieces == 0, "pieces were left out");
}

/// Asserts what a meeting sees of the operators of a number of workers, on a table with a number of seats.
fn is_met<R: Threads + Abort + Sync>(rt: &R, alloc: Global, seats: u32, workers: u32, pieces: u32)
    requires some { 1 ≤ seats }
    requires few { seats ≤ 65 }
    requires working { 1 ≤ workers }
    requires most { workers ≤ 64 }
{
    let (table, seat) = table_for(rt, alloc, seats);
    let meeting = Meeting::new(workers);
    let mut crew = Crew::new(rt, &table, seat, workers, &meeting);
    unite_and_compose(rt, &mut crew);
    was_told(rt, &meeting, pieces);
}

#[test]
fn all_pieces_of_a_group_are_inside_at_once(rt: HostRuntime) {
    'workers: for (workers, pieces) in [(2, 4), (4, 4), (8, 16), (16, 16), (64, 64)] {
        is_met(&rt, rt.alloc(), 65, workers, pieces);
    }
}

#[test]
fn nothing_is_forked_with_one_worker_or_too_few_seats(rt: HostRuntime) {
    'workers: for (seats, workers, pieces) in [
        (65, 1, 0),
        (1, 2, 0),
        (2, 2, 0),
        (3, 2, 4),
        (4, 4, 0),
    ] {
        is_met(&rt, rt.alloc(), seats, workers, pieces);
    }
}

/// Makes the result of each operator and asks for it again at once, in the other order where that makes no difference,
/// and asserts that pieces are done for what is new alone.
fn finds_again<C: Core>(rt: &impl Abort, core: &mut C, meeting: &Meeting) {
    let (r, s) = heavy_pair(rt, core);
    let both = given(rt, core.union(r, s));
    let after = meeting.begun();
    assert!(rt; after > 0, "a union forks");
    let again = given(rt, core.union(s, r));
    assert!(rt;
        again == both && meeting.begun() == after,
        "a union in the other order"
    );
    let common = given(rt, core.inter(s, r));
    let after = meeting.begun();
    let again = given(rt, core.inter(r, s));
    assert!(rt;
        again == common && meeting.begun() == after,
        "an intersection in the other order"
    );
    let only = given(rt, core.diff(r, s));
    let after = meeting.begun();
    let again = given(rt, core.diff(r, s));
    assert!(rt; again == only && meeting.begun() == after, "a difference");
    let turned = given(rt, core.transpose(r));
    let after = meeting.begun();
    let again = given(rt, core.transpose(r));
    assert!(rt;
        again == turned && meeting.begun() == after,
        "a transposition"
    );
    let product = given(rt, core.compose(r, s));
    let after = meeting.begun();
    let again = given(rt, core.compose(r, s));
    assert!(rt; again == product && meeting.begun() == after, "a product");
}

#[test]
fn what_a_forked_operator_made_is_found_in_either_order(rt: HostRuntime) {
    'workers: for workers in [2, 8] {
        let (table, seat) = table_for(&rt, rt.alloc(), 65);
        let meeting = Meeting::new(workers);
        let mut crew = Crew::new(&rt, &table, seat, workers, &meeting);
        finds_again(&rt, &mut crew, &meeting);
    }
}

/// Adds random pairs to a relation until the table is full, and gives the last relation that fitted.
fn filled<C: Core>(rt: &impl Abort, core: &mut C, shape: Shape) -> Rel
    requires row { 2048 ≤ shape.rows }
    requires col { 2048 ≤ shape.cols }
    requires row_limit { shape.rows ≤ 4096 }
    requires col_limit { shape.cols ≤ 4096 }
    ensures standing { Stands (C.worker core.new) result }
    ensures rows { result.rows ≡ shape.rows }
    ensures cols { result.cols ≡ shape.cols }
    ensures keeps { Keeps (C.worker core.old) (C.worker core.new) }
{
    let mut r = given(rt, core.single(shape, 0, 2047));
    let mut state = 1u64;
    'pairs: for _ in 0..MANY {
        state = state
            .wrapping_mul(6364136223846793005)
            .wrapping_add(1442695040888963407);
        let i = ((state >> 33) % 2048) as u32;
        let j = ((state >> 48) % 2048) as u32;
        let Ok(pair) = core.single(shape, i, j) else {
            return r;
        };
        let Ok(more) = core.union(r, pair) else {
            return r;
        };
        r = more;
    }
    panic!(rt; "never full")
}

/// Asserts that a worker whose table is full refuses, keeps what stood, and still answers which relations meet.
fn refuses_and_keeps<C: Core>(rt: &impl Abort, core: &mut C) {
    let shape = Shape {
        rows: 2048,
        cols: 2048,
    };
    let within = given(rt, core.single(shape, 0, 2047));
    let beside = given(rt, core.single(shape, 2047, 0));
    let r = filled(rt, core, shape);
    assert!(rt; core.has(r, 0, 2047));
    assert!(rt; core.meets(r, within));
    let found = core.has(r, 2047, 0);
    assert!(rt; core.meets(r, beside) == found);
    let turned = core.transpose(r);
    assert!(rt; matches!(turned, Err(Lack::Full)), "there is no room");
    assert!(rt; core.has(r, 0, 2047));
    let same = given(rt, core.union(r, r));
    assert!(rt; core.same(same, r));
}

#[test]
fn a_table_that_fills_refuses_and_keeps_what_stood(rt: HostRuntime) {
    let Ok((table, seat)) = PairTable::make(rt.alloc(), 17, 65) else {
        panic!(rt; "no memory")
    };
    let mut crew = Crew::new(&rt, &table, seat, 4, &OpenGate);
    refuses_and_keeps(&rt, &mut crew);
}
