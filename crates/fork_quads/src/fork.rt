//! Operators that fork: their pieces are computed by the workers of a team.
ghost use Rattle.std.specs.Prelude.{◌≡◌, ◌≢◌, ◌<◌, ◌≤◌, ◌+◌, ◌^◌, IfOk};
ghost use Rattle.rel_model.specs.Trees.{bottom_height};
ghost use Rattle.rel_model.specs.Equations.{Compose, Transpose, result_of, side_of};
ghost use Rattle.rel_model.specs.Quads.{Keeper, QuadStands, IsQuad, quad_cells, KeepsQuads};
ghost use Rattle.memo_laws.specs.Looking.{operator_of};
ghost use Rattle.quad_nodes.specs.Finding.{FindsQuad};
ghost use Rattle.fork_quads.specs.Middle.{most_halvings};
ghost use Rattle.fork_quads.specs.Forks.{CanDo, DidJob, TellsMisses, fork_room};

use crate::gate::Gate;
use crate::gather::gathered;
use crate::group::groups;
use crate::middle::Halving;
use crate::pieces::{Job, compute_sequential};
use crate::plan::{Plan, plan_of};
use memo_laws::Op;
use pair_table::Missed;
use quad_nodes::Nodes;
use rel_model::Quad;
use std::thread::Threads;

/// The greatest number of workers of a crew.
const MOST_WORKERS: u32 = 64;

/// The least height of operands that are cut: squares of 512 rows and columns, which are cut into squares of 256.
const LEAST_HEIGHT: u8 = 9;

/// What forking needs: the right to start threads, a gate, and the number of workers. 24 bytes.
#[derive(Drop)]
pub(crate) struct Team<'t, R: Threads, G: Gate> {
    pub rt: &'t R,
    pub gate: &'t G,
    pub workers: u32,
}

/// How often the result of an operator on quads of a height is cut in four, so that there is a piece for each worker
/// and no piece has fewer than 256 rows: never if the operands are low, or if there are too few spare seats.
#[tactic(auto, unfolding(rel_model::specs::Trees::bottom_height))]
pub(crate) fn cuts_for(workers: u32, height: u8, spare: u32) -> u8
    requires low { bottom_height ≤ height }
    ensures few { result ≤ 3 }
    ensures deep { bottom_height + result ≤ height }
    ensures some { 0 < result → 2 ≤ workers }
    ensures seats { 0 < result → workers ≤ spare }
{
    if workers < 2 || workers > MOST_WORKERS || spare < workers || height < LEAST_HEIGHT {
        return 0;
    }
    let enough: u8 = match workers {
        0..=4 => 1,
        5..=16 => 2,
        _ => 3,
    };
    enough.min(height - 8)
}

/// How many pieces there are after this number of cuts.
fn count_of(cuts: u8) -> u32
    requires few { cuts ≤ 3 }
    ensures { result ≡ 4 ^ cuts }
{
    match cuts {
        0 => 1,
        1 => 4,
        2 => 16,
        _ => 64,
    }
}

/// Computes all pieces of an operator's result, and puts them together.
fn compute_in_pieces<R: Threads, G: Gate>(
    team: &Team<'_, R, G>,
    nodes: &mut Nodes,
    job: Job,
) -> Result<Quad, Missed>
    requires can { CanDo nodes.old job }
    requires some { 1 ≤ team.now.workers }
    requires seats { team.now.workers ≤ nodes.old.view.spare }
    requires cut { job.cuts ≤ 3 }
    requires over { 0 < job.cuts }
    ensures { DidJob nodes.old nodes.new job result }
{
    // This use makes the checker open the invariant of `nodes`, which what follows needs.
    let _ = nodes.bottom();
    let past = count_of(job.cuts);
    match groups(team.rt, team.gate, team.workers, nodes, job, 0, past) {
        Ok(found) => gathered(nodes, &found, job.a.height, job.cuts, 0),
        Err(Missed) => Err(Missed),
    }
}

/// An operator on two quads of one height, by pieces if there is so much to do that threads pay.
fn compute_planned<R: Threads, G: Gate>(
    team: &Team<'_, R, G>,
    nodes: &mut Nodes,
    job: Job,
) -> Result<Quad, Missed>
    requires can { CanDo nodes.old job }
    requires one_operand { operator_of job.op ≡ Transpose → job.b.name ≡ 0 }
    requires some { 1 ≤ team.now.workers }
    requires seats { team.now.workers ≤ nodes.old.view.spare }
    requires cut { job.cuts ≤ 3 }
    requires over { 0 < job.cuts }
    ensures { DidJob nodes.old nodes.new job result }
{
    match plan_of(nodes, job) {
        Plan::Sequential => compute_sequential(nodes, job.op, job.a, job.b, job.halving),
        Plan::Parts => compute_in_pieces(team, nodes, job),
        Plan::Sums => compute_in_pieces(
            team,
            nodes,
            Job {
                by_sums: true,
                ..job
            },
        ),
    }
}

/// An operator on two quads of one height, by its pieces. Looks up whether the result was noted; if not, computes and
/// notes it.
fn compute_noted<R: Threads, G: Gate>(
    team: &Team<'_, R, G>,
    nodes: &mut Nodes,
    job: Job,
) -> Result<Quad, Missed>
    requires can { CanDo nodes.old job }
    requires one_operand { operator_of job.op ≡ Transpose → job.b.name ≡ 0 }
    requires some { 1 ≤ team.now.workers }
    requires seats { team.now.workers ≤ nodes.old.view.spare }
    requires cut { job.cuts ≤ 3 }
    requires over { 0 < job.cuts }
    ensures { DidJob nodes.old nodes.new job result }
{
    if let Some(found) = nodes.look(job.op, job.a, job.b) {
        return Ok(found);
    }
    let answer = compute_planned(team, nodes, job);
    if let Ok(found) = answer {
        nodes.note(job.op, job.a, job.b, found);
    }
    answer
}

/// An operator on two quads of one height, by the workers of a team if that is worthwhile.
pub(crate) fn compute<R: Threads, G: Gate>(
    team: &Team<'_, R, G>,
    nodes: &mut Nodes,
    op: Op,
    a: Quad,
    b: Quad,
    halving: Halving,
) -> Result<Quad, Missed>
    requires a_stands { QuadStands nodes.old a }
    requires b_stands { QuadStands nodes.old b }
    requires one_height { b.height ≡ a.height }
    requires one_operand { operator_of op ≡ Transpose → b.name ≡ 0 }
    requires few { halving.times ≤ most_halvings }
    ensures value { IfOk result (IsQuad nodes.new a.height (result_of (operator_of op) (side_of a.height)
        (quad_cells nodes.old a) (quad_cells nodes.old b))) }
    ensures stood { operator_of op ≢ Compose → FindsQuad nodes.old nodes.new a.height
        (result_of (operator_of op) (side_of a.height) (quad_cells nodes.old a) (quad_cells nodes.old b)) result }
    ensures keeps { KeepsQuads (fork_room (operator_of op) halving.times a.height) nodes.old nodes.new }
    ensures misses { TellsMisses nodes.old nodes.new result }
{
    let cuts = cuts_for(team.workers, a.height, nodes.spare());
    if cuts == 0 {
        return compute_sequential(nodes, op, a, b, halving);
    }
    let job = Job {
        op,
        a,
        b,
        halving,
        cuts,
        by_sums: false,
    };
    compute_noted(team, nodes, job)
}
