//! The visits of the squares of a file: whether they list the numbers of its quadrants in their order.
ghost use Rattle.std.specs.Prelude.{◌≡◌, ◌<◌, ◌≤◌, ◌+◌, max, [], None, length};
ghost use Rattle.run_model.specs.SharedFiles.{first_bad, first_out, visit_roots};
ghost use Rattle.k2_parts.specs.Told.{quadrants_told, roots_told};
ghost use Rattle.k2_parts.specs.Visits.{ListsNumber, Visits, AreRooted};

use crate::form::{NamedRoot, Quadrant};

/// The state of the visits: the numbers listed so far are those from 2 up to but not including `next`, in order, and
/// either none is out of place, or `next` is, since another number is at its place. 16 bytes.
#[derive(Clone, Copy)]
pub(crate) struct Noted {
    pub(crate) next: u64,
    pub(crate) is_out: bool,
}

/// Lists a number, which comes after those listed.
fn list_number(noted: Noted, number: u32) -> Noted
    requires low { 2 ≤ noted.next }
    requires high { noted.next ≤ number }
    ensures lists { ListsNumber number noted result }
    ensures low { noted.next ≤ result.next }
    ensures high { result.next ≤ number + 1 }
{
    if noted.is_out {
        noted
    } else if number as u64 == noted.next {
        Noted {
            next: noted.next + 1,
            is_out: false,
        }
    } else {
        Noted {
            next: noted.next,
            is_out: true,
        }
    }
}

/// Visits the square of a number: its quarters in order, and then lists it after them. A number that was listed is not
/// visited again, and nothing is visited once a number is out of place. Calls nest no deeper than the height of the
/// square.
fn visit(quads: &[Quadrant], number: u32, noted: Noted) -> Noted
    requires sound { first_bad 2 [] [] (quadrants_told quads.now) ≡ None }
    requires within { number < length quads.now + 2 }
    requires low { 2 ≤ noted.next }
    ensures visits { Visits (quadrants_told quads.now) number noted result }
    ensures low { noted.next ≤ result.next }
    ensures high { result.next ≤ max noted.next (number + 1) }
{
    if noted.is_out || (number as u64) < noted.next {
        return noted;
    }
    let quad = quads[number as usize - 2];
    let noted = visit(quads, quad.nw, noted);
    let noted = visit(quads, quad.ne, noted);
    let noted = visit(quads, quad.sw, noted);
    let noted = visit(quads, quad.se, noted);
    list_number(noted, number)
}

/// The least number, from 2 on, that is not at its place in the visits from the roots over the listed quadrants. Each
/// quadrant is visited once, and no memory is taken.
pub(crate) fn first_out_of_order(quads: &[Quadrant], roots: &[NamedRoot]) -> Option<u64>
    requires sound { first_bad 2 [] [] (quadrants_told quads.now) ≡ None }
    requires rooted { AreRooted (quadrants_told quads.now) (roots_told roots.now) }
    ensures { let told = quadrants_told quads.now in
        result ≡ first_out 2 (length quads.now) (visit_roots told [] (roots_told roots.now)) }
{
    let mut noted = Noted {
        next: 2,
        is_out: false,
    };
    'roots: for root in roots {
        noted = visit(quads, root.root, noted);
    }
    if !noted.is_out && noted.next == quads.len() as u64 + 2 {
        None
    } else {
        Some(noted.next)
    }
}
