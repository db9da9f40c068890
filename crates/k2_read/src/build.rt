//! The quads of numbers, built from the leaves upwards; each number is asked for once.
ghost use Rattle.std.specs.Prelude.{◌≡◌, ◌≢◌, ◌<◌, ◌≤◌, ◌+◌, length, OnOk};
ghost use Rattle.rel_model.specs.Relation.{size_height};
ghost use Rattle.run_model.proofs.SharedCells.{IsNumber};
ghost use Rattle.k2_parts.specs.Told.{quadrants_told};
ghost use Rattle.k2_read.specs.Numbers.{MakesNumber, AreNoted};

use crate::leaf::{built_leaf, quarters};
use k2_parts::form::Quadrant;
use rel_model::engine_trait::Engine;
use rel_model::{Lack, Quad};

/// The quad of a number at a height, no lower than the leaves: the noted one, or a new one, which is then noted.
#[cycle(built)]
pub(crate) fn built<E: Engine>(
    engine: &mut E,
    quads: &[Quadrant],
    noted: &mut [Option<Quad>],
    number: u32,
    height: u8,
) -> Result<Quad, Lack>
    requires low { E.least ≤ height }
    requires high { height ≤ size_height }
    requires number { IsNumber (quadrants_told quads.now) height number }
    requires places { length noted.old ≡ length quads.now + 2 }
    requires noted { AreNoted (E.worker engine.old) (quadrants_told quads.now) noted.old }
    ensures makes { MakesNumber E.lean E.least (quadrants_told quads.now) height number (E.worker engine.old)
        (E.worker engine.new) result }
    ensures noted { OnOk result (AreNoted (E.worker engine.new) (quadrants_told quads.now) noted.new) }
{
    if number == 0 {
        return Ok(Quad { height, name: 0 });
    }
    if let Some(quad) = noted[number as usize] {
        return Ok(quad);
    }
    let quad = built_anew(engine, quads, noted, number, height)?;
    noted[number as usize] = Some(quad);
    Ok(quad)
}

/// The same for a number other than 0 that is not noted: a leaf, or the corner of its quarters.
#[cycle(built)]
fn built_anew<E: Engine>(
    engine: &mut E,
    quads: &[Quadrant],
    noted: &mut [Option<Quad>],
    number: u32,
    height: u8,
) -> Result<Quad, Lack>
    requires low { E.least ≤ height }
    requires high { height ≤ size_height }
    requires some { number ≢ 0 }
    requires number { IsNumber (quadrants_told quads.now) height number }
    requires places { length noted.old ≡ length quads.now + 2 }
    requires noted { AreNoted (E.worker engine.old) (quadrants_told quads.now) noted.old }
    ensures makes { MakesNumber E.lean E.least (quadrants_told quads.now) height number (E.worker engine.old)
        (E.worker engine.new) result }
    ensures noted { OnOk result (AreNoted (E.worker engine.new) (quadrants_told quads.now) noted.new) }
{
    if height == engine.bottom() {
        let leaf = built_leaf(engine, quads, number, height)?;
        return Ok(leaf);
    }
    let below = height - 1;
    let quadrant = quarters(quads, number);
    let nw = built(engine, quads, noted, quadrant.nw, below)?;
    let ne = built(engine, quads, noted, quadrant.ne, below)?;
    let sw = built(engine, quads, noted, quadrant.sw, below)?;
    let se = built(engine, quads, noted, quadrant.se, below)?;
    let corner = engine.corner(nw, ne, sw, se)?;
    Ok(corner)
}
