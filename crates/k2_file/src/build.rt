//! Quads from a file's bits, built from the leaves upwards; each node is asked for once.
ghost use Rattle.std.specs.Prelude.{◌≡◌, ◌<◌, ◌≤◌, ◌+◌, ◌-◌, ◌^◌, length, true, IfOk, OnOk};
ghost use Rattle.rel_model.specs.Relation.{size_height};
ghost use Rattle.rel_model.specs.Worker.{GivesQuad, Keeps, MakesAtMost, HasCause, listed_room};
ghost use Rattle.run_model.specs.Files.{number_of_bit};
ghost use Rattle.rel_steps.specs.Making.{MakesQuad};
ghost use Rattle.k2_file.specs.Rests.{AreThere, count_below, cells_of_part, cells_inside};
ghost use Rattle.k2_file.specs.Depth.{rests_in, MovesIn};

use crate::leaf::with_part;
use crate::parts::Parts;
use crate::sides::small_side;
use rel_model::engine_trait::Engine;
use rel_model::{Lack, Quad};

/// The leaf with the cells of a submatrix of a height up to 3.
pub(crate) fn built_leaf<E: Engine>(
    engine: &mut E,
    parts: &Parts<'_>,
    places: &mut [u64],
    height: u8,
) -> Result<Quad, Lack>
    requires places { length places.old ≡ height }
    requires low { height ≤ 3 }
    requires there { AreThere 1 (rests_in parts.now places.old) }
    ensures value { IfOk result (GivesQuad (E.worker engine.new) E.least (cells_inside (2 ^ E.least)
        (cells_of_part true (rests_in parts.now places.old)))) }
    ensures moves { MovesIn parts.now 1 places.old places.new }
    ensures keeps { Keeps (E.worker engine.old) (E.worker engine.new) }
    ensures few { MakesAtMost 1 (E.worker engine.old) (E.worker engine.new) }
    ensures cause { HasCause E.lean (E.worker engine.old) (E.worker engine.new) result }
{
    let side = small_side(engine.bottom());
    let word = with_part(parts, places, side, 0, (0, 0), true, height);
    engine.block(word)
}

/// The quad of a submatrix of a height; the empty one if its bit is not set.
#[cycle(built)]
pub(crate) fn built_part<E: Engine>(
    engine: &mut E,
    parts: &Parts<'_>,
    places: &mut [u64],
    is_set: bool,
    height: u8,
) -> Result<Quad, Lack>
    requires places { length places.old ≡ height }
    requires low { E.least ≤ height }
    requires high { height ≤ size_height }
    requires there { AreThere (number_of_bit is_set) (rests_in parts.now places.old) }
    ensures makes { MakesQuad E.lean (listed_room (count_below (number_of_bit is_set) (rests_in parts.now places.old))
        (height - E.least)) height (cells_of_part is_set (rests_in parts.now places.old)) (E.worker engine.old)
        (E.worker engine.new) result }
    ensures moves { OnOk result (MovesIn parts.now (number_of_bit is_set) places.old places.new) }
{
    if !is_set {
        return Ok(Quad { height, name: 0 });
    }
    if height == engine.bottom() {
        return built_leaf(engine, parts, places, height);
    }
    built_square(engine, parts, places, height)
}

/// The quad of a submatrix above the leaves, by its quarters.
#[cycle(built)]
fn built_square<E: Engine>(
    engine: &mut E,
    parts: &Parts<'_>,
    places: &mut [u64],
    height: u8,
) -> Result<Quad, Lack>
    requires places { length places.old ≡ height }
    requires low { E.least < height }
    requires high { height ≤ size_height }
    requires there { AreThere 1 (rests_in parts.now places.old) }
    ensures makes { MakesQuad E.lean (listed_room (count_below 1 (rests_in parts.now places.old)) (height - E.least))
        height (cells_of_part true (rests_in parts.now places.old)) (E.worker engine.old) (E.worker engine.new) result }
    ensures moves { OnOk result (MovesIn parts.now 1 places.old places.new) }
{
    let low = height - 1;
    let (here, below) = places.split_at_mut(1);
    let group = parts.group(here[0], height == 1);
    here[0] += 1;
    let nw = built_part(engine, parts, below, group.nw, low)?;
    let ne = built_part(engine, parts, below, group.ne, low)?;
    let sw = built_part(engine, parts, below, group.sw, low)?;
    let se = built_part(engine, parts, below, group.se, low)?;
    let quad = engine.corner(nw, ne, sw, se)?;
    Ok(quad)
}
