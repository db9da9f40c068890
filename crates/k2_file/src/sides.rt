//! Heights of squares, and their sides.
ghost use Rattle.std.specs.Prelude.{◌≡◌, ◌≤◌, ◌^◌};
ghost use Rattle.rel_model.specs.Relation.{size_height};
ghost use Rattle.rel_model.specs.Roots.{height_over};
ghost use Rattle.run_model.specs.Files.{file_height};

use rel_model::sides::height_of_size;

/// The side of a square within a leaf.
pub fn small_side(height: u8) -> u8
    requires { height ≤ 3 }
    ensures { result ≡ 2 ^ height }
{
    1u8 << height
}

/// The height of the tree of a relation with these sizes over leaves of a height.
#[tactic(auto, unfolding(rel_model::specs::Roots::height_over))]
pub fn height_of_tree(least: u8, rows: u32, cols: u32) -> u8
    ensures { result ≡ height_over least rows cols }
{
    least.max(height_of_size(rows).max(height_of_size(cols)))
}

/// The least height, at least 1, whose square holds both sizes.
#[tactic(auto, unfolding(run_model::specs::Files::file_height))]
pub fn height_of_file(rows: u32, cols: u32) -> u8
    ensures value { result ≡ file_height rows cols }
    ensures low { 1 ≤ result }
    ensures limit { result ≤ size_height }
{
    height_of_size(rows).max(height_of_size(cols)).max(1)
}
