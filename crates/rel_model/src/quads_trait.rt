//! Relations as trees of quadrants (k²-trees with k = 2, Brisaboa, Ladra and Navarro), over any worker that keeps them.
//!
//! Every call leaves all relations and quads that stood with the same sets, makes at most as many nodes as its room,
//! and refuses only for its stated cause.
ghost use Rattle.std.specs.Prelude.{◌≡◌, ◌<◌, ◌≤◌, ◌+◌, ◌-◌, ◌*◌, ◌^◌, ℕ, Some, IfOk};
ghost use Rattle.rel_model.specs.declared.Quad.{Quad};
ghost use Rattle.rel_model.specs.Relation.{Relation, has, relation_of, size_limit};
ghost use Rattle.rel_model.specs.Cells.{Cells, no_cells, cells_rect, bits_cells, cells_union, cells_compose};
ghost use Rattle.rel_model.specs.Trees.{top_height, quartered};
ghost use Rattle.rel_model.specs.Roots.{height_over, tree_room};
ghost use Rattle.rel_model.specs.Quarters.{LiesWithin, GivesQuarters};
ghost use Rattle.rel_model.specs.Worker.{Worker, Stands, set_of, HasQuad, quad_set, GivesQuad, Gives, Keeps, MakesAtMost, MissesNothing, HasCause, FindsQuad};

use crate::core_trait::Core;
use crate::{Lack, Quad, Quarters, Rel, Shape};

/// A worker whose relations are quadrant trees. A quad of height h is a set of cells within a square of side `2 ^ h`.
pub trait Quads: Core {
    /// The height of the leaves of all trees.
    fn bottom(&self) -> u8
        ensures { result ≡ Self.least };

    /// The quad of a relation: its cells are the relation's pairs. Its height is the least, from that of the leaves on,
    /// whose side is at least both sizes.
    fn root(&self, r: Rel) -> Quad
        requires { Stands (Self.worker self.now) r }
        ensures { GivesQuad (Self.worker self.now) (height_over Self.least r.rows r.cols)
            (has (set_of (Self.worker self.now) r)) result };

    /// `{(i, j) : cell (i, j) is in q}`: the relation with this shape, within which all cells of `q` must lie.
    fn rel(&self, shape: Shape, q: Quad) -> Rel
        requires row_limit { shape.rows ≤ size_limit }
        requires col_limit { shape.cols ≤ size_limit }
        requires stands { HasQuad (Self.worker self.now) q }
        requires height { q.height ≡ height_over Self.least shape.rows shape.cols }
        requires within { LiesWithin shape.rows shape.cols (quad_set (Self.worker self.now) q) }
        ensures { Gives (Self.worker self.now) shape.rows shape.cols
            (relation_of shape.rows shape.cols (quad_set (Self.worker self.now) q)) result };

    /// The quarters of a quad above the leaves: north-west, north-east, south-west and south-east.
    fn quarters(&mut self, q: Quad) -> Quarters
        requires stands { HasQuad (Self.worker self.old) q }
        requires over { Self.least < q.height }
        ensures quarters { GivesQuarters (Self.worker self.old) (Self.worker self.new) q result }
        ensures keeps { Keeps (Self.worker self.old) (Self.worker self.new) }
        ensures room { MakesAtMost 0 (Self.worker self.old) (Self.worker self.new) }
        ensures misses { MissesNothing (Self.worker self.old) (Self.worker self.new) };

    /// The quarters of a quad, as `quarters` gives them, whose own words are read in the same go (prefetch): for walks
    /// over trees that are larger than the processor's caches.
    fn quarters_ahead(&mut self, q: Quad) -> Quarters
        requires stands { HasQuad (Self.worker self.old) q }
        requires over { Self.least < q.height }
        ensures quarters { GivesQuarters (Self.worker self.old) (Self.worker self.new) q result }
        ensures keeps { Keeps (Self.worker self.old) (Self.worker self.new) }
        ensures room { MakesAtMost 0 (Self.worker self.old) (Self.worker self.new) }
        ensures misses { MissesNothing (Self.worker self.old) (Self.worker self.new) };

    /// Reads the words of a quad above the leaves (prefetch), so that `quarters` of it need not wait for them: for many
    /// quads, before the first of them is opened.
    fn read_ahead(&mut self, q: Quad)
        requires stands { HasQuad (Self.worker self.old) q }
        requires over { Self.least < q.height }
        ensures keeps { Keeps (Self.worker self.old) (Self.worker self.new) }
        ensures room { MakesAtMost 0 (Self.worker self.old) (Self.worker self.new) }
        ensures misses { MissesNothing (Self.worker self.old) (Self.worker self.new) };

    /// The quad with these four quarters, which must have one height.
    fn corner(&mut self, nw: Quad, ne: Quad, sw: Quad, se: Quad) -> Result<Quad, Lack>
        requires nw_stands { HasQuad (Self.worker self.old) nw }
        requires ne_stands { HasQuad (Self.worker self.old) ne }
        requires sw_stands { HasQuad (Self.worker self.old) sw }
        requires se_stands { HasQuad (Self.worker self.old) se }
        requires ne_height { ne.height ≡ nw.height }
        requires sw_height { sw.height ≡ nw.height }
        requires se_height { se.height ≡ nw.height }
        requires below { nw.height < top_height }
        ensures value { IfOk result (GivesQuad (Self.worker self.new) (nw.height + 1)
            (quartered (2 ^ nw.height) (quad_set (Self.worker self.old) nw) (quad_set (Self.worker self.old) ne)
            (quad_set (Self.worker self.old) sw) (quad_set (Self.worker self.old) se))) }
        ensures stood { FindsQuad Self.lean (Self.worker self.old) (Self.worker self.new) (nw.height + 1)
            (quartered (2 ^ nw.height) (quad_set (Self.worker self.old) nw) (quad_set (Self.worker self.old) ne)
            (quad_set (Self.worker self.old) sw) (quad_set (Self.worker self.old) se)) result }
        ensures keeps { Keeps (Self.worker self.old) (Self.worker self.new) }
        ensures room { MakesAtMost 3 (Self.worker self.old) (Self.worker self.new) }
        ensures cause { HasCause Self.lean (Self.worker self.old) (Self.worker self.new) result };

    /// The cells of a leaf as one word: cell (i, j) is bit `2 ^ bottom * i + j`.
    fn bits(&mut self, q: Quad) -> u64
        requires stands { HasQuad (Self.worker self.old) q }
        requires leaf { q.height ≡ Self.least }
        ensures cells { bits_cells (2 ^ Self.least) result ≡ quad_set (Self.worker self.old) q }
        ensures none_past { result < 2 ^ (2 ^ Self.least * 2 ^ Self.least) }
        ensures keeps { Keeps (Self.worker self.old) (Self.worker self.new) }
        ensures room { MakesAtMost 0 (Self.worker self.old) (Self.worker self.new) }
        ensures misses { MissesNothing (Self.worker self.old) (Self.worker self.new) };

    /// The leaf with the cells of this word: cell (i, j) is bit `2 ^ bottom * i + j`.
    fn block(&mut self, bits: u64) -> Result<Quad, Lack>
        requires none_past { bits < 2 ^ (2 ^ Self.least * 2 ^ Self.least) }
        ensures value { IfOk result (GivesQuad (Self.worker self.new) Self.least (bits_cells (2 ^ Self.least) bits)) }
        ensures stood { FindsQuad Self.lean (Self.worker self.old) (Self.worker self.new) Self.least
            (bits_cells (2 ^ Self.least) bits) result }
        ensures keeps { Keeps (Self.worker self.old) (Self.worker self.new) }
        ensures room { MakesAtMost 1 (Self.worker self.old) (Self.worker self.new) }
        ensures cause { HasCause Self.lean (Self.worker self.old) (Self.worker self.new) result };

    /// `{(i, j) : i < rows, j < cols}`: a rectangle in the north-west corner of the square of a height.
    fn rect(&mut self, height: u8, rows: u32, cols: u32) -> Result<Quad, Lack>
        requires low { Self.least ≤ height }
        requires high { height ≤ top_height }
        requires row { rows ≤ 2 ^ height }
        requires col { cols ≤ 2 ^ height }
        ensures value { IfOk result (GivesQuad (Self.worker self.new) height (cells_rect rows cols)) }
        ensures stood { FindsQuad Self.lean (Self.worker self.old) (Self.worker self.new) height
            (cells_rect rows cols) result }
        ensures keeps { Keeps (Self.worker self.old) (Self.worker self.new) }
        ensures room { MakesAtMost (tree_room (height - Self.least)) (Self.worker self.old) (Self.worker self.new) }
        ensures cause { HasCause Self.lean (Self.worker self.old) (Self.worker self.new) result };

    /// `x | y*z`: the cells of `x`, and each (i, j) with (i, k) in `y` and (k, j) in `z` for some k. All three must
    /// have one height.
    fn joined(&mut self, x: Quad, y: Quad, z: Quad) -> Result<Quad, Lack>
        requires x_stands { HasQuad (Self.worker self.old) x }
        requires y_stands { HasQuad (Self.worker self.old) y }
        requires z_stands { HasQuad (Self.worker self.old) z }
        requires y_height { y.height ≡ x.height }
        requires z_height { z.height ≡ x.height }
        ensures value { IfOk result (GivesQuad (Self.worker self.new) x.height
            (cells_union (quad_set (Self.worker self.old) x) (cells_compose (2 ^ x.height)
            (quad_set (Self.worker self.old) y) (quad_set (Self.worker self.old) z)))) }
        ensures keeps { Keeps (Self.worker self.old) (Self.worker self.new) }
        ensures room { MakesAtMost (20 * 8 ^ x.height) (Self.worker self.old) (Self.worker self.new) }
        ensures cause { HasCause Self.lean (Self.worker self.old) (Self.worker self.new) result };

    /// Leaves have at most 64 cells, so that one word holds them.
    ghost least_limit: { Self.least ≤ 3 };

    /// Quads that stand are no lower than the leaves and no higher than the highest square.
    ghost low_height: { (quads : Self) (q : Quad) → HasQuad (Self.worker quads) q → Self.least ≤ q.height };

    ghost high_height: { (quads : Self) (q : Quad) → HasQuad (Self.worker quads) q → q.height ≤ top_height };

    /// The cells of a quad lie within its square.
    ghost square: { (quads : Self) (q : Quad) → HasQuad (Self.worker quads) q
        → LiesWithin (2 ^ q.height) (2 ^ q.height) (quad_set (Self.worker quads) q) };

    /// The quad named 0 is empty, at each height.
    ghost none: { (quads : Self) (h : ℕ) → Self.least ≤ h → h ≤ top_height
        → (Self.worker quads).quad (record { height = h; name = 0 }) ≡ Some no_cells };

    /// Quads of one height with the same set have the same name.
    ghost one_name: { (quads : Self) (p q : Quad) → HasQuad (Self.worker quads) p → HasQuad (Self.worker quads) q
        → p.height ≡ q.height → quad_set (Self.worker quads) p ≡ quad_set (Self.worker quads) q → p.name ≡ q.name };
}
