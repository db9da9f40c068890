//! The quarters of a quad, or of its transpose.
ghost use Rattle.std.specs.Prelude.{◌<◌};
ghost use Rattle.rel_model.specs.Quarters.{GivesQuarters};
ghost use Rattle.rel_model.specs.Worker.{HasQuad};
ghost use Rattle.rel_images.specs.Lines.{GivesTurned};
ghost use Rattle.rel_steps.specs.Reading.{OnlyReads};

use rel_model::quads_trait::Quads;
use rel_model::{Quad, Quarters};

/// The quarters of a quad; if `ahead`, their own words are read in the same go.
#[inline(always)]
fn read_quarters<Q: Quads>(q: &mut Q, quad: Quad, ahead: bool) -> Quarters
    requires stands { HasQuad (Q.worker q.old) quad }
    requires over { Q.least < quad.height }
    ensures quarters { GivesQuarters (Q.worker q.old) (Q.worker q.new) quad result }
    ensures reads { OnlyReads (Q.worker q.old) (Q.worker q.new) }
{
    if ahead {
        return q.quarters_ahead(quad);
    }
    q.quarters(quad)
}

/// The quarters of a quad; if `turned`, those of its transpose, with north-east and south-west exchanged. If `ahead`,
/// their own words are read in the same go.
#[inline(always)]
pub(crate) fn turned_quarters<Q: Quads>(
    q: &mut Q,
    turned: bool,
    quad: Quad,
    ahead: bool,
) -> Quarters
    requires stands { HasQuad (Q.worker q.old) quad }
    requires over { Q.least < quad.height }
    ensures quarters { GivesTurned turned (Q.worker q.old) (Q.worker q.new) quad result }
    ensures reads { OnlyReads (Q.worker q.old) (Q.worker q.new) }
{
    let Quarters { nw, ne, sw, se } = read_quarters(q, quad, ahead);
    if turned {
        return Quarters {
            nw,
            ne: sw,
            sw: ne,
            se,
        };
    }
    Quarters { nw, ne, sw, se }
}
