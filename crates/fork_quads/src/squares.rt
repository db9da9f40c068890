//! Relations as quads, and the quads of the table.
ghost use Rattle.fork_quads.specs.CrewLaws.{least_limit_law, low_height_law, high_height_law, square_law, none_law, one_name_law};

use crate::crew::Crew;
use crate::gate::Gate;
use crate::roots::{root_of, told};
use crate::union_product::union_with_product;
use rel_model::quads_trait::Quads;
use rel_model::{Lack, Quad, Quarters, Rel, Shape};
use std::thread::Threads;

#[tactic(auto, using(crate::specs::CrewLaws::row_limit_law, crate::specs::CrewLaws::col_limit_law))]
impl<'t, R: Threads + Sync, G: Gate + Sync> Quads for Crew<'t, R, G> {
    ghost least_limit = { least_limit_law };

    ghost low_height = { low_height_law };

    ghost high_height = { high_height_law };

    ghost square = { square_law };

    ghost none = { none_law };

    ghost one_name = { one_name_law };

    /// The height of the leaves, which are blocks of 8 by 8 cells.
    fn bottom(&self) -> u8 {
        self.nodes.bottom()
    }

    /// The quad of a relation's root.
    fn root(&self, r: Rel) -> Quad {
        let _ = self.nodes.bottom();
        root_of(r)
    }

    /// The relation of a root.
    fn rel(&self, shape: Shape, q: Quad) -> Rel {
        let _ = self.nodes.bottom();
        Rel {
            rows: shape.rows,
            cols: shape.cols,
            root: q.name,
        }
    }

    /// The quarters of a quad: north-west, north-east, south-west and south-east.
    fn quarters(&mut self, q: Quad) -> Quarters {
        self.nodes.quarters(q)
    }

    /// The quarters of a quad, whose words are read in the same go.
    fn quarters_ahead(&mut self, q: Quad) -> Quarters {
        self.nodes.quarters_ahead(q)
    }

    /// Reads the words of a quad, so that its quarters need not wait for them.
    fn read_ahead(&mut self, q: Quad) {
        self.nodes.read_ahead(q);
    }

    /// The quad of four quarters.
    fn corner(&mut self, nw: Quad, ne: Quad, sw: Quad, se: Quad) -> Result<Quad, Lack> {
        told(self.nodes.corner(nw, ne, sw, se))
    }

    /// The cells of a block.
    fn bits(&mut self, q: Quad) -> u64 {
        self.nodes.bits(q)
    }

    /// The quad with the cells of a block.
    fn block(&mut self, bits: u64) -> Result<Quad, Lack> {
        told(self.nodes.block(bits))
    }

    /// `{(i, j) : i < rows, j < cols}` in the square of a height.
    fn rect(&mut self, height: u8, rows: u32, cols: u32) -> Result<Quad, Lack> {
        told(self.nodes.rect(height, rows, cols))
    }

    /// `x | y*z`: a quad joined with a product.
    fn joined(&mut self, x: Quad, y: Quad, z: Quad) -> Result<Quad, Lack> {
        told(union_with_product(&self.team, &mut self.nodes, x, y, z))
    }
}
