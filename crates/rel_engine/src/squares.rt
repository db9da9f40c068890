//! Relations as quads, and the quads of the table, passed on to the crew.
ghost use Rattle.fork_quads.specs.CrewLaws.{least_limit_law, low_height_law, high_height_law, square_law, none_law, one_name_law};

use crate::works::Works;
use fork_quads::Gate;
use rel_model::quads_trait::Quads;
use rel_model::{Lack, Quad, Quarters, Rel, Shape};
use std::thread::Threads;

impl<'t, R: Threads + Sync, G: Gate + Sync> Quads for Works<'t, R, G> {
    ghost least_limit = { least_limit_law };

    ghost low_height = { low_height_law };

    ghost high_height = { high_height_law };

    ghost square = { square_law };

    ghost none = { none_law };

    ghost one_name = { one_name_law };

    /// The height of the leaves, which are blocks of 8 by 8 cells.
    fn bottom(&self) -> u8 {
        self.crew.bottom()
    }

    /// The quad at a relation's root.
    fn root(&self, r: Rel) -> Quad {
        self.crew.root(r)
    }

    /// The relation with a given root.
    fn rel(&self, shape: Shape, q: Quad) -> Rel {
        self.crew.rel(shape, q)
    }

    /// The quarters of a quad.
    fn quarters(&mut self, q: Quad) -> Quarters {
        self.crew.quarters(q)
    }

    /// The quarters of a quad, whose words are read in the same go.
    fn quarters_ahead(&mut self, q: Quad) -> Quarters {
        self.crew.quarters_ahead(q)
    }

    /// Reads the words of a quad, so that its quarters need not wait for them.
    fn read_ahead(&mut self, q: Quad) {
        self.crew.read_ahead(q);
    }

    /// The quad made of four quarters.
    fn corner(&mut self, nw: Quad, ne: Quad, sw: Quad, se: Quad) -> Result<Quad, Lack> {
        self.crew.corner(nw, ne, sw, se)
    }

    /// The cells of a block.
    fn bits(&mut self, q: Quad) -> u64 {
        self.crew.bits(q)
    }

    /// The quad of a block.
    fn block(&mut self, bits: u64) -> Result<Quad, Lack> {
        self.crew.block(bits)
    }

    /// `{(i, j) : i < rows, j < cols}`: a rectangle in the north-west corner of the square of a height.
    fn rect(&mut self, height: u8, rows: u32, cols: u32) -> Result<Quad, Lack> {
        self.crew.rect(height, rows, cols)
    }

    /// `x | y*z`: the union of a quad and the product of two others.
    fn joined(&mut self, x: Quad, y: Quad, z: Quad) -> Result<Quad, Lack> {
        self.crew.joined(x, y, z)
    }
}
