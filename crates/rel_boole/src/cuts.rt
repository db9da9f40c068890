//! Cases without recursion: equal and empty operands.
ghost use Rattle.std.specs.Prelude.{◌≡◌, ◌⊎◌, IsSome};
ghost use Rattle.rel_boole.specs.Cellwise.{CutsOff};

use crate::boole::Boole;
use rel_model::Quad;

/// The result if the operands are equal or one of them is empty.
pub fn cut_off(op: Boole, a: Quad, b: Quad) -> Option<Quad>
    ensures value { CutsOff op a b result }
    ensures cuts { (a.name ≡ b.name) ⊎ ((a.name ≡ 0) ⊎ (b.name ≡ 0)) → IsSome result }
{
    let none = Quad::empty(a.height);
    match op {
        Boole::Union => {
            if a.name == b.name {
                return Some(a);
            }
            if a.is_empty() {
                return Some(b);
            }
            if b.is_empty() { Some(a) } else { None }
        }
        Boole::Inter => {
            if a.name == b.name {
                return Some(a);
            }
            if a.is_empty() {
                return Some(none);
            }
            if b.is_empty() { Some(none) } else { None }
        }
        Boole::Diff => {
            if a.name == b.name {
                return Some(none);
            }
            if a.is_empty() {
                return Some(none);
            }
            if b.is_empty() { Some(a) } else { None }
        }
    }
}
