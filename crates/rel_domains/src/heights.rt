//! Heights of squares, and how many cells they have.
ghost use Rattle.std.specs.Prelude.{◌≡◌, ◌≤◌, ◌+◌, ◌^◌};
ghost use Rattle.rel_model.specs.Trees.{top_height};
ghost use Rattle.rel_model.specs.Roots.{height_over};

use rel_model::sides::height_of_size;

/// How many cells a square of a height has.
pub fn cells_of(height: u8) -> u64
    requires { height ≤ top_height }
    ensures value { result ≡ 4 ^ height }
    ensures limit { result ≤ 2 ^ 48 }
{
    1 << (2 * height)
}

/// How many heights the tree of a relation with these sizes has above leaves of a height.
#[tactic(auto, unfolding(rel_model::specs::Roots::height_over, rel_model::specs::Trees::top_height))]
pub fn depth_over(least: u8, rows: u32, cols: u32) -> u8
    requires { least ≤ top_height }
    ensures value { least + result ≡ height_over least rows cols }
    ensures limit { least + result ≤ top_height }
{
    least.max(height_of_size(rows).max(height_of_size(cols))) - least
}
