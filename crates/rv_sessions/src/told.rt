//! The result of an item.
ghost use Rattle.std.specs.Prelude.{◌≢◌, ◌≡◌, None};
ghost use Rattle.run_model.specs.declared.outcome.Outcome.TheVariants.{Done};
ghost use Rattle.rv_sessions.specs.declared.transcript.Reply.TheVariants.{Nothing};
ghost use Rattle.rv_sessions.specs.Telling.{TellsRefusal};

use crate::by::By;
use crate::transcript::Reply;
use rel_model::NoMemory;
use run_model::files::Save;
use run_model::outcome::Outcome;
use rv_print::fault_text;
use std::alloc::Global;

/// The outcome of an item, the reply to it, and the file that it saves. Their texts are on the heap.
#[derive(Drop)]
pub(crate) struct Told {
    pub(crate) outcome: Outcome,
    pub(crate) reply: Reply,
    pub(crate) save: Option<Save>,
}

impl Told {
    /// An item that is done, and shows nothing.
    pub(crate) fn done() -> Told
        ensures { result ≡ record { outcome = Done; reply = Nothing; save = None } }
    {
        Told {
            outcome: Outcome::Done,
            reply: Reply::Nothing,
            save: None,
        }
    }
}

/// A refusal, and the reply that reports it. If memory ran out, before or for the reply, that is the error.
pub(crate) fn refused(alloc: Global, by: By, outcome: Outcome) -> Result<Told, NoMemory>
    requires { outcome ≢ Done }
    ensures { TellsRefusal by.session by.command outcome result }
{
    if let Outcome::NoMemory = &outcome {
        return Err(NoMemory);
    }
    let body = fault_text(alloc, &outcome)?;
    Ok(Told {
        outcome,
        reply: Reply::Told {
            session: by.session,
            command: by.command,
            body,
        },
        save: None,
    })
}
