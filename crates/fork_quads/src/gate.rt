//! The gate that the pieces of forked work pass.
ghost use Rattle.std.specs.Prelude.{◌+◌};
ghost use Rattle.rel_model.specs.Quads.{Keeper};
ghost use Rattle.fork_quads.specs.Forks.{CanGroup, DidPieces};

use crate::group::{Pieces, watched};
use crate::pieces::Job;
use pair_table::Missed;
use quad_nodes::Nodes;
use rel_model::watch::Watch;
use std::thread::Threads;

/// Runs the pieces of forked work, and is called when each begins and ends.
pub trait Gate: Watch {
    /// Runs the pieces with these numbers at once, each on nodes of its own: all begin, then all work in threads of
    /// their own, and then all end.
    ///
    /// A gate that holds a piece until another begins or ends has to be called for each in the thread of that piece: it
    /// implements this by [`watched`].
    fn group<R: Threads>(
        &self,
        rt: &R,
        job: Job,
        nodes: &mut Nodes,
        from: u32,
        count: u32,
    ) -> Result<Pieces, Missed>
        requires { CanGroup nodes.old job from count }
        ensures { DidPieces nodes.old nodes.new job from (from + count) result }
    {
        'beginning: for piece in from..from + count {
            self.begins(piece);
        }
        let found = watched(rt, &OpenGate, job, nodes, from, count);
        'ending: for piece in from..from + count {
            self.ends(piece);
        }
        found
    }
}

/// A gate that lets every piece pass. No bytes.
#[derive(Clone, Copy, Debug)]
pub struct OpenGate;

impl Watch for OpenGate {
    fn begins(&self, piece: u32) {
        let _ = piece;
    }

    fn ends(&self, piece: u32) {
        let _ = piece;
    }
}

impl Gate for OpenGate {}
