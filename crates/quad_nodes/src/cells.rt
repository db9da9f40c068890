//! Whether the set of a quad has a cell.
ghost use Rattle.std.specs.Prelude.{◌≡◌, ◌<◌, ◌-◌, cond, nat_lt};
ghost use Rattle.rel_model.specs.Equations.{side_of};
ghost use Rattle.rel_model.specs.Quads.{Keeper, QuadStands, quad_cells, ReadsQuads};
ghost use Rattle.rel_model.specs.Cells.{block_cells};

use crate::nodes::Nodes;
use crate::sides::side_of_height;
use rel_model::Quad;

/// The half in which a row or column lies, and its place in that half.
fn half_at(first: u32, second: u32, place: u32, half: u32) -> (u32, u32)
    ensures name { result.0 ≡ cond (nat_lt place half) first second }
    ensures place { result.1 ≡ cond (nat_lt place half) place (place - half) }
{
    if place < half {
        (first, place)
    } else {
        (second, place - half)
    }
}

/// Whether a block has cell (i, j).
fn block_has(bits: u64, i: u32, j: u32) -> bool
    requires row { i < 8 }
    requires col { j < 8 }
    ensures { result ≡ block_cells bits i j }
{
    (bits >> (8 * i + j)) & 1 == 1
}

impl<'t> Nodes<'t> {
    /// `(i, j) in q`: whether the set of `q` has a cell within its square.
    pub fn has(&mut self, q: Quad, i: u32, j: u32) -> bool
        requires stands { QuadStands self.old q }
        requires row { i < side_of q.height }
        requires col { j < side_of q.height }
        ensures value { result ≡ quad_cells self.old q i j }
        ensures reads { ReadsQuads self.old self.new }
    {
        if q.height == self.bottom() {
            let bits = self.bits(q);
            return block_has(bits, i, j);
        }
        let height = q.height - 1;
        let half = side_of_height(height);
        let (north, south) = self.halves(q.name);
        let (wide, row) = half_at(north, south, i, half);
        let (west, east) = self.halves(wide);
        let (name, col) = half_at(west, east, j, half);
        self.has(Quad { height, name }, row, col)
    }
}
