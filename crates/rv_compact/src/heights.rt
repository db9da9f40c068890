//! The depth of the root of a relation.
ghost use Rattle.std.specs.Prelude.{◌≡◌, ◌≤◌};
ghost use Rattle.rel_model.specs.Relation.{size_height};
ghost use Rattle.rel_model.specs.Roots.{tree_height};
ghost use Rattle.rv_compact.specs.Walks.{root_depth};

use rel_model::Rel;
use rel_model::sides::height_of_size;

/// The height of a block: squares of side 2^3 are the leaves.
const BOTTOM_HEIGHT: u8 = 3;

/// The height of the tree of a relation with these sizes.
#[tactic(auto, unfolding(rel_model::specs::Roots::height_over, rel_model::specs::Trees::bottom_height))]
fn height_of_tree(rows: u32, cols: u32) -> u8
    ensures value { result ≡ tree_height rows cols }
    ensures low { 3 ≤ result }
    ensures limit { result ≤ size_height }
{
    BOTTOM_HEIGHT.max(height_of_size(rows).max(height_of_size(cols)))
}

/// How many pairings the root of a relation is above the blocks.
pub(crate) fn depth_of_root(rel: Rel) -> u8
    ensures { result ≡ root_depth rel }
{
    (height_of_tree(rel.rows, rel.cols) - BOTTOM_HEIGHT) * 2
}
