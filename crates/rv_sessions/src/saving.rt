//! The command that saves all relations.
ghost use Rattle.std.specs.Prelude.{◌≡◌};
ghost use Rattle.lang_model.specs.declared.syntax.Script.{Script as SCRIPT};
ghost use Rattle.lang_model.specs.declared.syntax.Item.TheVariants.{Command as COMMAND};
ghost use Rattle.lang_model.specs.declared.syntax.Command.TheVariants.{SaveAll as SAVE_ALL};
ghost use Rattle.run_model.specs.Inputs.{Input};
ghost use Rattle.rv_sessions.specs.Seated.{IsSeated};
ghost use Rattle.rv_sessions.specs.Acting.{DidItem};
ghost use Rattle.rv_sessions.specs.Standing.{Kept, KeptStand};
ghost use Rattle.rv_sessions.specs.Telling.{TellsNotWritten};

use crate::by::By;
use crate::seat::Seat;
use crate::task::Task;
use crate::told::{Told, refused};
use crate::transcript::Reply;
use crate::turns::read_turn;
use k2_file::WriteRefused;
use k2_write::write_k2_all;
use lang_model::syntax::FileText;
use rel_model::NoMemory;
use rel_model::engine_trait::Engine;
use run_model::files::Save;
use run_model::outcome::Outcome;
use std::alloc::Global;
use std::sync::Wait;

/// The reply if a file was not written.
fn not_written(alloc: Global, by: By, why: WriteRefused) -> Result<Told, NoMemory>
    ensures { TellsNotWritten by.session by.command why result }
{
    match why {
        WriteRefused::TooLong { bits } => refused(alloc, by, Outcome::TooLong { bits }),
        WriteRefused::NoMemory => Err(NoMemory),
    }
}

/// Runs SAVE ALL: one read of all names, and the bytes of the file of their relations.
pub(crate) fn save_all<E: Engine, W: Wait>(
    task: &Task<'_, E, W>,
    seat: &mut Seat<E>,
    file: &FileText,
) -> Result<Told, NoMemory>
    requires seated { IsSeated E.worker task.now.book.now seat.old }
    ensures { (input : Input) (script : SCRIPT) (snaps : Kept) →
        KeptStand (E.worker seat.old.engine) snaps → DidItem E.least input script task.now.by.session
        task.now.by.command (COMMAND (SAVE_ALL file.now)) (E.worker seat.old.engine) (E.worker seat.new.engine)
        seat.old.pass seat.new.pass snaps snaps result }
{
    let _ = &seat.pass;
    let Ok(name) = file.copied(task.alloc) else {
        return Err(NoMemory);
    };
    let view = match read_turn(task, seat, None) {
        Ok(view) => view,
        Err(lack) => return Err(lack),
    };
    let bytes = match write_k2_all(task.alloc, &mut seat.engine, view.names.as_slice()) {
        Ok(bytes) => bytes,
        Err(why) => return not_written(task.alloc, task.by, why),
    };
    Ok(Told {
        outcome: Outcome::Done,
        reply: Reply::Nothing,
        save: Some(Save { name, bytes }),
    })
}
