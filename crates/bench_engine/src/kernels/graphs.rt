//! The edges of graphs that are measured.
ghost use Rattle.std.specs.Prelude.{◌≤◌, ◌<◌, IfOk, IfSome};
ghost use Rattle.rel_model.specs.Listed.{AreWithin};

use crate::chance::{below, next};
use std::alloc::{AllocError, Global};

/// The graphs.
#[derive(Clone, Copy)]
pub enum Graph {
    /// Two random edges for each vertex.
    Random,
    /// Two random edges for each vertex but the last, to later vertices.
    Acyclic,
    /// One edge for each vertex, to the next one, and from the last to the first.
    Cycle,
}

/// A vertex to which an edge from `from` leads, if there is one.
fn target(graph: Graph, vertices: u32, from: u32, state: u64) -> Option<u32>
    requires { from < vertices }
    ensures { IfSome result (λ to. to < vertices) }
{
    match graph {
        Graph::Random => Some(below(state, vertices)),
        Graph::Acyclic if from + 1 == vertices => None,
        Graph::Acyclic => Some(from + 1 + below(state, vertices - from - 1)),
        Graph::Cycle if from + 1 == vertices => Some(0),
        Graph::Cycle => Some(from + 1),
    }
}

/// Appends an edge from a vertex, if there is one.
fn push_edge(
    pairs: &mut Vec<(u32, u32)>,
    graph: Graph,
    vertices: u32,
    from: u32,
    state: u64,
) -> Result<(), AllocError>
    requires within { AreWithin vertices vertices pairs.old.items }
    requires vertex { from < vertices }
    ensures { AreWithin vertices vertices pairs.new.items }
{
    if let Some(to) = target(graph, vertices, from, state) {
        pairs.push((from, to))?;
    }
    Ok(())
}

/// The edges of a graph.
pub fn edges(alloc: Global, graph: Graph, vertices: u32) -> Result<Vec<(u32, u32)>, AllocError>
    ensures { IfOk result (λ v. AreWithin vertices vertices v.items) }
{
    let mut pairs = Vec::new(alloc);
    let mut state = 1;
    'vertices: for from in 0..vertices {
        state = next(state);
        push_edge(&mut pairs, graph, vertices, from, state)?;
        state = next(state);
        push_edge(&mut pairs, graph, vertices, from, state)?;
    }
    Ok(pairs)
}
