//! Places on the Z-curve (Morton order).
ghost use Rattle.std.specs.Prelude.{◌≡◌, ◌<◌, ◌≤◌, ◌+◌, ◌*◌, ◌^◌, map, length, IfOk, OnErr};
ghost use Rattle.std.specs.List.{AllByRecursion};
ghost use Rattle.rel_model.specs.Trees.{top_height};
ghost use Rattle.rel_model.specs.Listed.{AreWithin};
ghost use Rattle.rel_domains.specs.Curve.{half, within_half, place};

use crate::heights::cells_of;
use rel_model::empty::side_of;
use std::alloc::{AllocError, Global};

/// Which half of `2 * side` numbers one lies in, and its place there. There is no branch for the processor to guess.
#[inline(always)]
fn halved(side: u32, i: u32) -> (u64, u32)
    requires { i < 2 * side }
    ensures half { result.0 ≡ half side i }
    ensures within { result.1 ≡ within_half side i }
    ensures small { result.1 < side }
    ensures two { result.0 < 2 }
{
    if i < side { (0, i) } else { (1, i - side) }
}

/// The place of a cell in a square `depth` heights above leaves of a height.
#[tactic(auto, unfolding(rel_model::specs::Trees::top_height), using(crate::proofs::Places::side_step, crate::proofs::Places::cells_step, crate::proofs::Places::place_lt, crate::proofs::Places::place_step))]
fn place_of(least: u8, depth: u8, i: u32, j: u32) -> u64
    requires high { least + depth ≤ top_height }
    requires row { i < 2 ^ (least + depth) }
    requires col { j < 2 ^ (least + depth) }
    ensures value { result ≡ place least depth i j }
    ensures within { result < 4 ^ (least + depth) }
{
    if depth == 0 {
        return side_of(least) as u64 * i as u64 + j as u64;
    }
    let below = least + (depth - 1);
    let side = side_of(below);
    let (south, row) = halved(side, i);
    let (east, col) = halved(side, j);
    (2 * south + east) * cells_of(below) + place_of(least, depth - 1, row, col)
}

/// The places of a list of pairs.
pub fn places_of(
    alloc: Global,
    least: u8,
    depth: u8,
    pairs: &[(u32, u32)],
) -> Result<Vec<u64>, AllocError>
    requires high { least + depth ≤ top_height }
    requires within { AreWithin (2 ^ (least + depth)) (2 ^ (least + depth)) pairs.now }
    ensures places { IfOk result (λ v. v.items ≡ map (λ p. place least depth p.0 p.1) pairs.now) }
    ensures limit { IfOk result (λ v. AllByRecursion (λ x. x < 4 ^ (least + depth)) v.items) }
    ensures some { OnErr result (0 < length pairs.now) }
{
    let mut places = Vec::new(alloc);
    'pairs: for (i, j) in pairs {
        places.push(place_of(least, depth, *i, *j))?;
    }
    Ok(places)
}
