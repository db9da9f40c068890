//! The names of the quads of single cells at one height, by the place of the cell, so that each is asked for once.
ghost use Rattle.std.specs.Prelude.{◌≡◌, ◌≢◌, ◌<◌, ◌&&◌, ◌==◌, nat_lt, cond, ℕ, IfSome, length, get_or};

use rel_model::Quad;

/// How many heights above the leaves these quads are.
pub const SINGLES_DEPTH: u8 = 3;

/// How many there are above leaves of 8 by 8 cells.
pub const SINGLES: usize = 4096;

/// The quad of the cell with a place, if these are quads of its depth and its name is known.
pub fn recalled(names: &[u32], depth: u8, height: u8, place: u64) -> Option<Quad>
    ensures depth { IfSome result (λ quad. depth ≡ SINGLES_DEPTH) }
    ensures within { IfSome result (λ quad. place < length names.now) }
    ensures known { IfSome result (λ quad. get_or names.now place 0 ≢ 0) }
    ensures quad { IfSome result (λ quad. quad ≡ record { height = height; name = get_or names.now place 0 }) }
{
    if depth != SINGLES_DEPTH {
        return None;
    }
    let place = place as usize;
    if place >= names.len() {
        return None;
    }
    let name = names[place];
    if name == 0 {
        return None;
    }
    Some(Quad { height, name })
}

/// Notes the name of the quad of the cell with a place, if these are quads of its depth.
pub fn note(names: &mut [u32], depth: u8, place: u64, name: u32)
    ensures size { length names.new ≡ length names.old }
    ensures names { (k : ℕ) → get_or names.new k 0
        ≡ cond (depth == SINGLES_DEPTH && (nat_lt place (length names.old) && k == place)) name
        (get_or names.old k 0) }
{
    let place = place as usize;
    if depth == SINGLES_DEPTH && place < names.len() {
        names[place] = name;
    }
}
