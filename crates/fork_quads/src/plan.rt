//! How an operator on two large quads is computed: by one worker, or by pieces.
ghost use Rattle.std.specs.Prelude.{◌≡◌, length};
ghost use Rattle.rel_model.specs.Quads.{Keeper, QuadStands, ReadsQuads};
ghost use Rattle.fork_quads.specs.Forks.{CanDo};

use crate::pieces::{Job, picked};
use memo_laws::Op;
use quad_nodes::Nodes;
use rel_compose::goes_by_sums;
use rel_model::Quad;

/// How an operator on two quads is computed. 1 byte.
#[derive(Clone, Copy, Debug, PartialEq, Eq)]
pub(crate) enum Plan {
    /// By the worker that was called.
    Sequential,
    /// By pieces, each like the whole.
    Parts,
    /// By pieces, each by sums of rows.
    Sums,
}

/// How many places of an operand are sampled at most.
const LOOKS: u32 = 64;

/// How many distinct quads the sample must have for threads to pay.
const LEAST_MET: u32 = 24;

/// How far below the operand the sample is taken, in heights; measured. A composition has more to do for each quad.
fn depth_for(op: Op) -> u8 {
    match op {
        Op::Compose => 4,
        _ => 6,
    }
}

/// The name of the quad `depth` heights below another, or at the blocks, to which a path leads: the first two bits of
/// the path are the place of the first quarter.
fn name_below(nodes: &mut Nodes, q: Quad, path: u32, depth: u8) -> u32
    requires stands { QuadStands nodes.old q }
    ensures reads { ReadsQuads nodes.old nodes.new }
{
    let bottom = nodes.bottom();
    if depth == 0 || q.is_empty() || q.height == bottom {
        return q.name;
    }
    let four = nodes.quarters(q);
    let next = picked(four.nw, four.ne, four.sw, four.se, path >> 30);
    name_below(nodes, next, path.wrapping_mul(4), depth - 1)
}

/// Counts the distinct quads, other than the empty one, at `left` places spread over a quad, adding to `met`. Stops as
/// soon as the answer is known. `seen` is a direct-mapped cache of the names met so far, so a quad may be counted
/// twice.
fn met_at(nodes: &mut Nodes, q: Quad, depth: u8, seen: &mut [u32], left: u32, met: u32) -> u32
    requires stands { QuadStands nodes.old q }
    requires places { length seen.old ≡ 256 }
    ensures same_places { length seen.new ≡ 256 }
    ensures reads { ReadsQuads nodes.old nodes.new }
{
    let _ = nodes.bottom();
    if left == 0 || met >= LEAST_MET || left < LEAST_MET - met {
        return met;
    }
    let name = name_below(nodes, q, left.wrapping_mul(2654435769), depth);
    let place = (name % 256) as usize;
    if name == 0 || seen[place] == name {
        return met_at(nodes, q, depth, seen, left - 1, met);
    }
    seen[place] = name;
    met_at(nodes, q, depth, seen, left - 1, met + 1)
}

/// Whether a sample `depth` heights below a quad has many distinct quads.
fn has_many(nodes: &mut Nodes, q: Quad, depth: u8) -> bool
    requires stands { QuadStands nodes.old q }
    ensures reads { ReadsQuads nodes.old nodes.new }
{
    let mut seen = [0; 256];
    met_at(nodes, q, depth, &mut seen, LOOKS, 0) >= LEAST_MET
}

/// Whether samples `depth` heights below two quads both have many distinct quads.
fn have_many(nodes: &mut Nodes, a: Quad, b: Quad, depth: u8) -> bool
    requires a_stands { QuadStands nodes.old a }
    requires b_stands { QuadStands nodes.old b }
    ensures reads { ReadsQuads nodes.old nodes.new }
{
    if !has_many(nodes, a, depth) {
        return false;
    }
    has_many(nodes, b, depth)
}

/// Whether an operator has so much to do that starting threads pays. An operator whose result follows at once does not.
fn is_heavy(nodes: &mut Nodes, job: Job) -> bool
    requires { CanDo nodes.old job }
    ensures reads { ReadsQuads nodes.old nodes.new }
{
    let _ = nodes.bottom();
    let depth = depth_for(job.op);
    match job.op {
        Op::Transpose => has_many(nodes, job.a, depth),
        Op::Compose => have_many(nodes, job.a, job.b, depth),
        _ => {
            if job.a.name == job.b.name {
                false
            } else {
                have_many(nodes, job.a, job.b, depth)
            }
        }
    }
}

/// How a job is computed.
pub(crate) fn plan_of(nodes: &mut Nodes, job: Job) -> Plan
    requires { CanDo nodes.old job }
    ensures reads { ReadsQuads nodes.old nodes.new }
{
    if !is_heavy(nodes, job) {
        return Plan::Sequential;
    }
    match job.op {
        Op::Compose => by_sums(nodes, job),
        _ => Plan::Parts,
    }
}

/// By which kind of pieces a composition is computed.
fn by_sums(nodes: &mut Nodes, job: Job) -> Plan
    requires { CanDo nodes.old job }
    ensures reads { ReadsQuads nodes.old nodes.new }
{
    if goes_by_sums(nodes, job.a, job.b) {
        Plan::Sums
    } else {
        Plan::Parts
    }
}
