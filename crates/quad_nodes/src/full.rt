//! Whether a quad is a full square.
ghost use Rattle.std.specs.Prelude.{◌≡◌, true};
ghost use Rattle.rel_model.specs.Cells.{cells_rect};
ghost use Rattle.rel_model.specs.Equations.{side_of};
ghost use Rattle.rel_model.specs.Quads.{Keeper, QuadStands, quad_cells, ReadsQuads};

use crate::nodes::Nodes;
use rel_model::Quad;

impl<'t> Nodes<'t> {
    /// `q = {(i, j) : i, j < side}`: whether `q` has every cell of its square. Its halves have the same name, and so
    /// have their halves, down to a full block.
    pub fn is_full(&mut self, q: Quad) -> bool
        requires stands { QuadStands self.old q }
        ensures full { result ≡ true → quad_cells self.old q ≡ cells_rect (side_of q.height) (side_of q.height) }
        ensures only_full { quad_cells self.old q ≡ cells_rect (side_of q.height) (side_of q.height) → result ≡ true }
        ensures reads { ReadsQuads self.old self.new }
    {
        if q.height == self.bottom() {
            return self.bits(q) == u64::MAX;
        }
        let (north, south) = self.halves(q.name);
        if north != south {
            return false;
        }
        let (west, east) = self.halves(north);
        if west != east {
            return false;
        }
        let quarter = Quad {
            height: q.height - 1,
            name: west,
        };
        self.is_full(quarter)
    }
}
