//! Rectangles: the first rows and columns of a square.
ghost use Rattle.std.specs.Prelude.{◌≡◌, ◌≢◌, ◌⊎◌, ◌<◌, ◌≤◌, ◌+◌, ◌-◌, min, IfOk, Ok};
ghost use Rattle.rel_model.specs.Cells.{cells_rect};
ghost use Rattle.rel_model.specs.Trees.{bottom_height, top_height};
ghost use Rattle.rel_model.specs.Equations.{side_of};
ghost use Rattle.rel_model.specs.Quads.{Keeper, IsQuad, KeepsQuads, Counts, quad_room};
ghost use Rattle.quad_nodes.specs.Finding.{FindsQuad};
ghost use Rattle.quad_nodes.specs.Making.{MakesBoth};

use crate::nodes::Nodes;
use crate::sides::side_of_height;
use leaf_block::block_rect;
use pair_table::Missed;
use rel_model::Quad;

impl<'t> Nodes<'t> {
    /// `{(i, j) : i < rows, j < cols}` in the square of a height, with at most as many rows and columns as its side.
    /// Without rows or columns it is the empty quad, even if the table is full; otherwise refused if the table is full.
    ///
    /// Equal quarters are made once, so the full square takes two words for each height.
    #[cycle(rects)]
    pub fn rect(&mut self, height: u8, rows: u32, cols: u32) -> Result<Quad, Missed>
        requires low { bottom_height ≤ height }
        requires high { height ≤ top_height }
        requires row { rows ≤ side_of height }
        requires col { cols ≤ side_of height }
        ensures value { IfOk result (IsQuad self.new height (cells_rect rows cols)) }
        ensures nothing { (rows ≡ 0) ⊎ (cols ≡ 0) → result ≡ Ok (record { height = height; name = 0 }) }
        ensures stood { FindsQuad self.old self.new height (cells_rect rows cols) result }
        ensures keeps { KeepsQuads (quad_room height) self.old self.new }
        ensures counts { Counts self.old self.new result }
    {
        let bottom = self.bottom();
        if rows == 0 || cols == 0 {
            return Ok(Quad::empty(height));
        }
        if height == bottom {
            return self.block(block_rect(rows, cols));
        }
        let top = rows.min(side_of_height(height - 1));
        let (nw, ne) = self.rects_beside(height - 1, top, cols)?;
        if rows - top == top {
            return self.corner(nw, ne, nw, ne);
        }
        let (sw, se) = self.rects_beside(height - 1, rows - top, cols)?;
        self.corner(nw, ne, sw, se)
    }

    /// The part of a rectangle in the first columns, as many as a square of a height has, and the part in the columns
    /// after them.
    #[cycle(rects)]
    fn rects_beside(&mut self, height: u8, rows: u32, cols: u32) -> Result<(Quad, Quad), Missed>
        requires low { bottom_height ≤ height }
        requires high { height < top_height }
        requires row { rows ≤ side_of height }
        requires col { cols ≤ side_of height + side_of height }
        ensures { MakesBoth (quad_room height + quad_room height) height (cells_rect rows (min cols (side_of height)))
            (cells_rect rows (cols - side_of height)) self.old self.new result }
    {
        let left = cols.min(side_of_height(height));
        let west = self.rect(height, rows, left)?;
        if cols - left == left {
            return Ok((west, west));
        }
        let east = self.rect(height, rows, cols - left)?;
        Ok((west, east))
    }
}
