//! Relations as the quads of their roots, and answers of the table as answers of a worker.
ghost use Rattle.std.specs.Prelude.{◌≡◌, ◌≤◌};
ghost use Rattle.rel_model.specs.Relation.{size_limit};
ghost use Rattle.rel_model.specs.Roots.{tree_height};
ghost use Rattle.fork_quads.specs.Crew.{root_quad, named_as, told_as};

use pair_table::Missed;
use quad_nodes::side_of_height;
use rel_model::{Lack, Quad, Rel, TOP_HEIGHT};

/// The height of the tree of a relation: the least, from the height of the leaves on, whose side is at least both
/// sizes.
pub(crate) fn height_of_tree(rows: u32, cols: u32) -> u8
    requires row_limit { rows ≤ size_limit }
    requires col_limit { cols ≤ size_limit }
    ensures { result ≡ tree_height rows cols }
{
    let most = rows.max(cols);
    'heights: for height in 3..TOP_HEIGHT {
        if most <= side_of_height(height) {
            return height;
        }
    }
    TOP_HEIGHT
}

/// The quad of the root of a relation.
pub(crate) fn root_of(r: Rel) -> Quad
    requires row_limit { r.rows ≤ size_limit }
    requires col_limit { r.cols ≤ size_limit }
    ensures { result ≡ root_quad r }
{
    Quad {
        height: height_of_tree(r.rows, r.cols),
        name: r.root,
    }
}

/// The relation with these sizes whose root is the answer.
pub(crate) fn named(rows: u32, cols: u32, answer: Result<Quad, Missed>) -> Result<Rel, Lack>
    ensures { result ≡ named_as rows cols answer }
{
    match answer {
        Ok(quad) => Ok(Rel {
            rows,
            cols,
            root: quad.name,
        }),
        Err(Missed) => Err(Lack::Full),
    }
}

/// An answer of the table as that of a worker: a miss becomes a full table.
pub(crate) fn told(answer: Result<Quad, Missed>) -> Result<Quad, Lack>
    ensures { result ≡ told_as answer }
{
    match answer {
        Ok(quad) => Ok(quad),
        Err(Missed) => Err(Lack::Full),
    }
}
