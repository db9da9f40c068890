//! Whether a thin relation that stands whole looks random. No result depends on it.
ghost use Rattle.std.specs.Prelude.{◌≡◌, ◌⊎◌, length};
ghost use Rattle.rel_model.specs.Worker.{Stands, HasQuad};
ghost use Rattle.rel_steps.specs.Reading.{OnlyReads};

use rel_model::quads_trait::Quads;
use rel_model::{Quad, Quarters, Rel};

/// How many pieces of lines are looked at.
const PIECES: u64 = 64;

/// A piece of a line is what of it lies in a quad so many heights above the leaves.
const DEPTH: u8 = 3;

/// An odd number with many bits, by which pieces are mixed.
const MIXER: u64 = 6364136223846793005;

/// The first column of a leaf of 8 by 8 cells.
const COLUMN: u64 = 0x0101_0101_0101_0101;

/// One of the quarters that are not empty, and its number: 0 to 3 for north-west, north-east, south-west, south-east.
fn picked(four: Quarters, place: u64) -> (Quad, u64)
    ensures { (result.0 ≡ four.nw) ⊎ (result.0 ≡ four.ne) ⊎ (result.0 ≡ four.sw) ⊎ (result.0 ≡ four.se) }
{
    let Quarters { nw, ne, sw, se } = four;
    let (first, number) = match place {
        0 => (nw, 0),
        1 => (ne, 1),
        2 => (sw, 2),
        _ => (se, 3),
    };
    if !first.is_empty() {
        return (first, number);
    }
    if !nw.is_empty() {
        return (nw, 0);
    }
    if !ne.is_empty() {
        return (ne, 1);
    }
    if !sw.is_empty() {
        return (sw, 2);
    }
    (se, 3)
}

/// The way to a line of a quad that has a cell, a row or, if `turned`, a column: a bit for each height, the highest
/// first, 1 to the south or to the east, and then the line of a leaf.
fn way_to_line<Q: Quads>(q: &mut Q, turned: bool, quad: Quad, chance: u64) -> u64
    requires stands { HasQuad (Q.worker q.old) quad }
    ensures reads { OnlyReads (Q.worker q.old) (Q.worker q.new) }
{
    if quad.is_empty() {
        return 0;
    }
    if quad.height == q.bottom() {
        let cell = q.bits(quad).trailing_zeros();
        return u64::from(if turned { cell % 8 } else { cell / 8 });
    }
    let four = q.quarters(quad);
    let (quarter, number) = picked(four, chance % 4);
    let step = if turned { number % 2 } else { number / 2 };
    let below = way_to_line(q, turned, quarter, chance / 4);
    step.wrapping_add(below.wrapping_mul(2))
}

/// A number made of the cells of a line of a quad, the one that a way leads to.
fn piece_of<Q: Quads>(q: &mut Q, turned: bool, quad: Quad, way: u64) -> u64
    requires stands { HasQuad (Q.worker q.old) quad }
    ensures reads { OnlyReads (Q.worker q.old) (Q.worker q.new) }
{
    if quad.is_empty() {
        return 0;
    }
    if quad.height == q.bottom() {
        let bits = q.bits(quad);
        let line = (way % 8) as u32;
        if turned {
            return bits.wrapping_shr(line) & COLUMN;
        }
        return bits.wrapping_shr(line.wrapping_mul(8)) % 256;
    }
    let Quarters { nw, ne, sw, se } = q.quarters(quad);
    let (other, over) = if turned { (ne, sw) } else { (sw, ne) };
    let (first, second) = if way % 2 == 0 {
        (nw, over)
    } else {
        (other, se)
    };
    let before = piece_of(q, turned, first, way / 2);
    let after = piece_of(q, turned, second, way / 2);
    before.wrapping_mul(MIXER).wrapping_add(after)
}

/// A piece of a line that has a cell, found by a random descent.
fn some_piece<Q: Quads>(q: &mut Q, turned: bool, quad: Quad, chance: u64) -> u64
    requires stands { HasQuad (Q.worker q.old) quad }
    ensures reads { OnlyReads (Q.worker q.old) (Q.worker q.new) }
{
    if quad.is_empty() {
        return 0;
    }
    if quad.height <= q.bottom().saturating_add(DEPTH) {
        let way = way_to_line(q, turned, quad, chance);
        return piece_of(q, turned, quad, way);
    }
    let four = q.quarters(quad);
    let (quarter, _) = picked(four, chance % 4);
    some_piece(q, turned, quarter, chance / 4)
}

/// Whether more than a third of 64 pieces of rows, or of columns if these are fewer, are new when they are met. Sets of
/// sets repeat a few pieces.
pub(crate) fn looks_random<Q: Quads>(q: &mut Q, r: Rel) -> bool
    requires stands { Stands (Q.worker q.old) r }
    ensures reads { OnlyReads (Q.worker q.old) (Q.worker q.new) }
{
    let turned = r.cols < r.rows;
    let root = q.root(r);
    let mut seen = [0u64; 64];
    let mut fresh = 0u64;
    let mut chance = 1u64;
    'pieces: for _ in 0..PIECES {
        chance = chance.wrapping_mul(MIXER).wrapping_add(1442695040888963407);
        let piece = some_piece(q, turned, root, chance >> 8);
        let place = (piece % 61) as usize;
        if seen[place] != piece {
            seen[place] = piece;
            fresh = fresh.saturating_add(1);
        }
    }
    fresh > PIECES / 3
}
