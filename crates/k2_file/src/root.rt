//! The relation of a file whose bytes pass all tests.
ghost use Rattle.std.specs.Prelude.{◌≡◌, ◌==◌, ◌≤◌, ◌-◌, ◌^◌, length, true, IfOk};
ghost use Rattle.rel_model.specs.Relation.{relation_of, size_limit};
ghost use Rattle.rel_model.specs.Roots.{height_over};
ghost use Rattle.rel_model.specs.Listed.{is_among};
ghost use Rattle.rel_model.specs.Worker.{Gives, GivesQuad, Keeps, MakesAtMost, HasCause, listed_room};
ghost use Rattle.run_model.specs.Files.{file_height, number_of_bit};
ghost use Rattle.k2_file.specs.Rests.{AreThere, count_below, cells_of_part, cells_inside};
ghost use Rattle.k2_file.specs.Depth.{rests_in};
ghost use Rattle.k2_file.specs.Form.{IsWhole, pairs_in};

use crate::build::{built_leaf, built_part};
use crate::header::Header;
use crate::parts::Parts;
use crate::sides::height_of_tree;
use crate::starts::starts;
use rel_model::engine_trait::Engine;
use rel_model::{Lack, Quad, Rel, Shape};

/// The header and the parts of a file. 80 bytes.
#[derive(Drop)]
pub(crate) struct Form<'a> {
    pub(crate) header: Header,
    pub(crate) parts: Parts<'a>,
}

/// The quad of a file whose sizes have this height, at the height of the relation's tree.
fn built_root<E: Engine>(
    engine: &mut E,
    parts: &Parts<'_>,
    places: &mut [u64],
    is_set: bool,
    height: u8,
    shape: Shape,
) -> Result<Quad, Lack>
    requires row_limit { shape.rows ≤ size_limit }
    requires col_limit { shape.cols ≤ size_limit }
    requires height { height ≡ file_height shape.rows shape.cols }
    requires places { length places.old ≡ height }
    requires there { AreThere (number_of_bit is_set) (rests_in parts.now places.old) }
    ensures value { IfOk result (GivesQuad (E.worker engine.new) (height_over E.least shape.rows shape.cols)
        (cells_inside (2 ^ height_over E.least shape.rows shape.cols)
        (cells_of_part is_set (rests_in parts.now places.old)))) }
    ensures keeps { Keeps (E.worker engine.old) (E.worker engine.new) }
    ensures few { MakesAtMost (listed_room (count_below (number_of_bit is_set) (rests_in parts.now places.old))
        (height_over E.least shape.rows shape.cols - E.least)) (E.worker engine.old) (E.worker engine.new) }
    ensures cause { HasCause E.lean (E.worker engine.old) (E.worker engine.new) result }
{
    let low = engine.bottom();
    if low < height_of_tree(low, shape.rows, shape.cols) {
        return built_part(engine, parts, places, is_set, height);
    }
    if !is_set {
        return Ok(Quad {
            height: low,
            name: 0,
        });
    }
    built_leaf(engine, parts, places, height)
}

/// The relation of a file whose bytes pass all tests.
pub(crate) fn built_relation<E: Engine>(engine: &mut E, form: &Form<'_>) -> Result<Rel, Lack>
    requires { IsWhole form.now }
    ensures value { IfOk result (Gives (E.worker engine.new) form.now.header.rows form.now.header.cols
        (relation_of form.now.header.rows form.now.header.cols (is_among (pairs_in form.now)))) }
    ensures keeps { Keeps (E.worker engine.old) (E.worker engine.new) }
    ensures few { MakesAtMost (listed_room (length (pairs_in form.now))
        (height_over E.least form.now.header.rows form.now.header.cols - E.least))
        (E.worker engine.old) (E.worker engine.new) }
    ensures cause { HasCause E.lean (E.worker engine.old) (E.worker engine.new) result }
{
    let header = &form.header;
    let shape = Shape {
        rows: header.rows,
        cols: header.cols,
    };
    let groups = header.groups();
    let mut places = starts(&form.parts.tree, header.height, groups, header.cell_count);
    let (used, _) = places.split_at_mut(header.height as usize);
    let quad = built_root(engine, &form.parts, used, groups == 1, header.height, shape)?;
    Ok(engine.rel(shape, quad))
}
