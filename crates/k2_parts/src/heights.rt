//! Heights of numbers and of quadrants, and the tests of a quadrant by its numbers.
ghost use Rattle.std.specs.Prelude.{◌≡◌, ◌==◌, ◌&&◌, ◌<◌, ◌+◌, not, nat_le, length};
ghost use Rattle.std.specs.List.{list_any};
ghost use Rattle.run_model.specs.SharedFiles.{height_at, numbers_of, parts_of, no_parts};
ghost use Rattle.k2_parts.specs.Told.{quadrant_told};
ghost use Rattle.k2_parts.specs.Tests.{AreBelow, first_part, sound_height};

use crate::form::Quadrant;
use rel_model::TOP_HEIGHT;

/// The height of a number, given those of the listed quadrants; numbers 0 and 1 have that of a cell.
pub(crate) fn height_at(heights: &[u8], number: u32) -> u8
    requires { number < length heights.now + 2 }
    ensures { result ≡ height_at heights.now number }
{
    if number <= 1 {
        0
    } else {
        heights[number as usize - 2]
    }
}

/// Whether all numbers are 0.
fn is_empty(quad: &Quadrant) -> bool
    ensures { result ≡ no_parts (parts_of (quadrant_told quad.now)) }
{
    quad.nw == 0 && quad.ne == 0 && quad.sw == 0 && quad.se == 0
}

/// Whether one of the numbers is not below this one.
fn is_over(quad: &Quadrant, number: u64) -> bool
    ensures { result ≡ list_any (λ m. nat_le number m) (numbers_of (quadrant_told quad.now)) }
{
    number <= u64::from(quad.nw)
        || number <= u64::from(quad.ne)
        || number <= u64::from(quad.sw)
        || number <= u64::from(quad.se)
}

/// The first number other than 0; 0 if there is none.
fn first_part(quad: &Quadrant) -> u32
    ensures { result ≡ first_part (quadrant_told quad.now) }
{
    if quad.nw != 0 {
        quad.nw
    } else if quad.ne != 0 {
        quad.ne
    } else if quad.sw != 0 {
        quad.sw
    } else {
        quad.se
    }
}

/// Whether a number is not 0, and its height is not one less than this height.
fn differs(heights: &[u8], number: u32, height: u16) -> bool
    requires { number < length heights.now + 2 }
    ensures { result ≡ (not (number == 0) && not (height_at heights.now number + 1 == height)) }
{
    number != 0 && u16::from(height_at(heights, number)) + 1 != height
}

/// Whether one of the numbers other than 0 has a height that is not one less than this height.
fn has_other_height(heights: &[u8], quad: &Quadrant, height: u16) -> bool
    requires { AreBelow (length heights.now + 2) quad.now }
    ensures { result
        ≡ list_any (λ m. not (height_at heights.now m + 1 == height)) (parts_of (quadrant_told quad.now)) }
{
    differs(heights, quad.nw, height)
        || differs(heights, quad.ne, height)
        || differs(heights, quad.sw, height)
        || differs(heights, quad.se, height)
}

/// The height of the next quadrant, given the heights of the earlier ones; none if its numbers make it invalid.
pub(crate) fn sound_height(heights: &[u8], quad: &Quadrant) -> Option<u8>
    ensures { result ≡ sound_height heights.now (quadrant_told quad.now) }
{
    if is_empty(quad) {
        return None;
    }
    if is_over(quad, heights.len() as u64 + 2) {
        return None;
    }
    let height = u16::from(height_at(heights, first_part(quad))) + 1;
    if has_other_height(heights, quad, height) {
        return None;
    }
    if u16::from(TOP_HEIGHT) < height {
        return None;
    }
    Some(height as u8)
}
