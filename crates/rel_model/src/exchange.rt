//! Two workers that learn from each other.
ghost use Rattle.std.specs.Prelude.{◌<◌};
ghost use Rattle.rel_model.specs.Seats.{Kin, Learns};

use crate::seated_trait::Seated;

/// Each worker learns all that stands in the other: each takes in a worker split off from the other.
///
/// The first worker needs no spare of its own: it has one at that moment, because it has just joined the one split off
/// from the other.
pub fn exchange<E: Seated>(mine: &mut E, other: &mut E)
    requires kin { Kin (E.worker mine.old) (E.worker other.old) }
    requires spare { 0 < (E.worker other.old).spare }
    ensures mine { Learns (E.worker mine.old) (E.worker other.old) (E.worker mine.new) }
    ensures other { Learns (E.worker other.old) (E.worker mine.old) (E.worker other.new) }
{
    let theirs = other.split(0);
    mine.join(theirs);
    let own = mine.split(0);
    other.join(own);
}
