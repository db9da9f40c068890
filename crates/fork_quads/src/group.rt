//! Groups of pieces that are computed at once, each on a split of the nodes.
ghost use Rattle.std.specs.Prelude.{◌≤◌, ◌<◌, ◌+◌, ◌-◌};
ghost use Rattle.std.specs.Thread.{IsSync};
ghost use Rattle.rel_model.specs.Quads.{Keeper};
ghost use Rattle.fork_quads.specs.Forks.{CanDo, CanGroup, DidPieces, AreAll, AreMerged, AreBoth};

use crate::gate::Gate;
use crate::pieces::{Job, piece};
use pair_table::Missed;
use quad_nodes::Nodes;
use rel_model::Quad;
use rel_model::watch::Watch;
use std::thread::{Threads, join_mut};

/// The quads of all pieces, each at the place of its number. 512 bytes.
pub type Pieces = [Quad; 64];

/// The same quad for every piece.
fn filled(quad: Quad) -> Pieces
    ensures { AreAll quad result }
{
    [quad; 64]
}

/// Computes one piece, and tells the watch when it begins and ends.
fn one<W: Watch>(watch: &W, job: Job, nodes: &mut Nodes, number: u32) -> Result<Pieces, Missed>
    requires can { CanDo nodes.old job }
    requires within { number < 64 }
    ensures { DidPieces nodes.old nodes.new job number (number + 1) result }
{
    watch.begins(number);
    let answer = piece(nodes, job, number);
    watch.ends(number);
    match answer {
        Ok(quad) => Ok(filled(quad)),
        Err(Missed) => Err(Missed),
    }
}

/// The first pieces up to a number, and the second pieces from there on.
#[tactic(auto, using(crate::proofs::Merging::copied_none, crate::proofs::Merging::copied_one, crate::proofs::Merging::copied_all))]
fn merged(first: Pieces, second: Pieces, from: u32) -> Pieces
    ensures { AreMerged first second from result }
{
    let mut both = second;
    'numbers: for k in 0..from.min(64) as usize {
        both[k] = first[k];
    }
    both
}

/// Computes a group of pieces at once, each on nodes of its own: the last in a thread of its own, while the others are
/// computed here in the same way. The watch is called for each piece in that piece's thread.
pub fn watched<R: Threads, W: Watch + Sync>(
    rt: &R,
    watch: &W,
    job: Job,
    nodes: &mut Nodes,
    from: u32,
    count: u32,
) -> Result<Pieces, Missed>
    requires { CanGroup nodes.old job from count }
    ensures { DidPieces nodes.old nodes.new job from (from + count) result }
{
    if count == 1 {
        return one(watch, job, nodes, from);
    }
    let _ = nodes.bottom();
    let less = count - 1;
    let last = from + less;
    let mut other = nodes.split(0);
    let (second, first) = join_mut(
        rt,
        &mut || -> Result<Pieces, Missed>
            requires { IsSync W.row × CanDo other job × (last < 64) }
            ensures { DidPieces other.entry other.exit job last (last + 1) result }
        { one(watch, job, &mut other, last) },
        &mut || -> Result<Pieces, Missed>
            requires { IsSync W.row × CanGroup nodes.now job from less }
            ensures { DidPieces nodes.entry.now nodes.exit.now job from (from + less) result }
        { watched(rt, watch, job, nodes, from, less) },
    );
    nodes.join(other);
    both(first, second, last)
}

/// The pieces of two groups as those of one group, if both succeeded.
fn both(
    first: Result<Pieces, Missed>,
    second: Result<Pieces, Missed>,
    from: u32,
) -> Result<Pieces, Missed>
    ensures { AreBoth first second from result }
{
    let first = first?;
    let second = second?;
    Ok(merged(first, second, from))
}

/// Computes all pieces from a number on, group after group, with as many pieces in a group as there are workers.
pub(crate) fn groups<R: Threads, G: Gate>(
    rt: &R,
    gate: &G,
    workers: u32,
    nodes: &mut Nodes,
    job: Job,
    from: u32,
    past: u32,
) -> Result<Pieces, Missed>
    requires can { CanDo nodes.old job }
    requires some { 1 ≤ workers }
    requires seats { workers ≤ nodes.old.view.spare }
    requires more { from < past }
    requires within { past ≤ 64 }
    ensures { DidPieces nodes.old nodes.new job from past result }
{
    let _ = nodes.bottom();
    let count = workers.min(past - from);
    let mut seat = nodes.split(count - 1);
    let found = gate.group(rt, job, &mut seat, from, count);
    nodes.join(seat);
    if from + count == past {
        return found;
    }
    if found.is_err() {
        return found;
    }
    let rest = groups(rt, gate, workers, nodes, job, from + count, past);
    both(found, rest, from + count)
}
