//! The quarters of a quad, the corner of four quads, and blocks.
ghost use Rattle.std.specs.Prelude.{◌≡◌, ◌<◌, ◌+◌, IfOk, Ok};
ghost use Rattle.rel_model.specs.Cells.{block_cells};
ghost use Rattle.rel_model.specs.Trees.{bottom_height, top_height, quartered};
ghost use Rattle.rel_model.specs.Equations.{side_of};
ghost use Rattle.rel_model.specs.Quads.{Keeper, IsKeeper, QuadStands, IsQuad, quad_cells, AreQuarters, KeepsQuads, ReadsQuads, Counts};
ghost use Rattle.quad_nodes.specs.Finding.{FindsQuad};

use crate::nodes::Nodes;
use pair_table::Missed;
use rel_model::{Quad, Quarters};

impl<'t> Nodes<'t> {
    /// The height of the leaves, which are blocks of 8 by 8 cells.
    #[inline]
    #[tactic(auto, unfolding(rel_model::specs::Trees::bottom_height))]
    pub fn bottom(&self) -> u8
        ensures height { result ≡ bottom_height }
        ensures work { IsKeeper self.now }
    {
        let _ = &self.seat;
        3
    }

    /// The quarters of a quad above the blocks: north-west, north-east, south-west and south-east.
    pub fn quarters(&mut self, q: Quad) -> Quarters
        requires stands { QuadStands self.old q }
        requires over { bottom_height < q.height }
        ensures quarters { AreQuarters self.old self.new q result }
        ensures reads { ReadsQuads self.old self.new }
    {
        let (north, south) = self.halves(q.name);
        let (nw, ne) = self.halves(north);
        let (sw, se) = self.halves(south);
        let height = q.height - 1;
        Quarters {
            nw: Quad { height, name: nw },
            ne: Quad { height, name: ne },
            sw: Quad { height, name: sw },
            se: Quad { height, name: se },
        }
    }

    /// Reads the word of a quad, and above the blocks those of its halves, so that a later read of them need not wait
    /// (prefetch).
    #[inline(always)]
    pub fn read_ahead(&mut self, q: Quad)
        requires stands { QuadStands self.old q }
        ensures reads { ReadsQuads self.old self.new }
    {
        let bottom = self.bottom();
        let (north, south) = self.halves(q.name);
        if q.height > bottom {
            self.halves(north);
            self.halves(south);
        }
    }

    /// The quarters of a quad, as `quarters` gives them. Reads their words and those of their halves in one go, so that
    /// these reads wait neither for one another nor for words that are placed meanwhile.
    #[inline(always)]
    pub fn quarters_ahead(&mut self, q: Quad) -> Quarters
        requires stands { QuadStands self.old q }
        requires over { bottom_height < q.height }
        ensures quarters { AreQuarters self.old self.new q result }
        ensures reads { ReadsQuads self.old self.new }
    {
        let four = self.quarters(q);
        self.read_ahead(four.nw);
        self.read_ahead(four.ne);
        self.read_ahead(four.sw);
        self.read_ahead(four.se);
        four
    }

    /// The quarters of two quads, each as `quarters_ahead` gives them.
    #[inline(always)]
    pub fn quarters_of_both(&mut self, a: Quad, b: Quad) -> (Quarters, Quarters)
        requires a_stands { QuadStands self.old a }
        requires b_stands { QuadStands self.old b }
        requires a_over { bottom_height < a.height }
        requires b_over { bottom_height < b.height }
        ensures first { AreQuarters self.old self.new a result.0 }
        ensures second { AreQuarters self.old self.new b result.1 }
        ensures reads { ReadsQuads self.old self.new }
    {
        let first = self.quarters_ahead(a);
        let second = self.quarters_ahead(b);
        (first, second)
    }

    /// The quad with these quarters, which must have one height. The quad of four empty ones is the empty one, even if
    /// the table is full; otherwise refused if the table is full.
    pub fn corner(&mut self, nw: Quad, ne: Quad, sw: Quad, se: Quad) -> Result<Quad, Missed>
        requires nw_stands { QuadStands self.old nw }
        requires ne_stands { QuadStands self.old ne }
        requires sw_stands { QuadStands self.old sw }
        requires se_stands { QuadStands self.old se }
        requires ne_height { ne.height ≡ nw.height }
        requires sw_height { sw.height ≡ nw.height }
        requires se_height { se.height ≡ nw.height }
        requires below { nw.height < top_height }
        ensures value { IfOk result (IsQuad self.new (nw.height + 1)
            (quartered (side_of nw.height) (quad_cells self.old nw) (quad_cells self.old ne) (quad_cells self.old sw)
            (quad_cells self.old se))) }
        ensures nothing { nw.name ≡ 0 → ne.name ≡ 0 → sw.name ≡ 0 → se.name ≡ 0
            → result ≡ Ok (record { height = nw.height + 1; name = 0 }) }
        ensures stood { FindsQuad self.old self.new (nw.height + 1)
            (quartered (side_of nw.height) (quad_cells self.old nw) (quad_cells self.old ne) (quad_cells self.old sw)
            (quad_cells self.old se)) result }
        ensures keeps { KeepsQuads 3 self.old self.new }
        ensures counts { Counts self.old self.new result }
    {
        let north = self.pair(nw.name, ne.name)?;
        let south = self.pair(sw.name, se.name)?;
        let name = self.pair(north, south)?;
        Ok(Quad {
            height: nw.height + 1,
            name,
        })
    }

    /// The cells of a block as one word: cell (i, j) is bit 8i + j.
    pub fn bits(&mut self, q: Quad) -> u64
        requires stands { QuadStands self.old q }
        requires bottom { q.height ≡ bottom_height }
        ensures cells { block_cells result ≡ quad_cells self.old q }
        ensures reads { ReadsQuads self.old self.new }
    {
        let _ = &self.seat;
        if q.is_empty() {
            return 0;
        }
        self.table.block_of(&mut self.seat, q.name)
    }

    /// The quad of a block: cell (i, j) is bit 8i + j. Without a cell it is the empty quad, even if the table is full;
    /// otherwise refused if the table is full.
    #[tactic(auto, unfolding(rel_model::specs::Trees::bottom_height))]
    pub fn block(&mut self, bits: u64) -> Result<Quad, Missed>
        ensures value { IfOk result (IsQuad self.new bottom_height (block_cells bits)) }
        ensures nothing { bits ≡ 0 → result ≡ Ok (record { height = bottom_height; name = 0 }) }
        ensures stood { FindsQuad self.old self.new bottom_height (block_cells bits) result }
        ensures keeps { KeepsQuads 1 self.old self.new }
        ensures counts { Counts self.old self.new result }
    {
        let _ = &self.seat;
        if bits == 0 {
            return Ok(Quad::empty(3));
        }
        let name = self.table.intern_block(&mut self.seat, bits)?;
        Ok(Quad { height: 3, name })
    }
}
